//! The responses to lock messages.
//!
//! | message | result | response | control code | parameter |
//! |---|---|---|---|---|
//! | AsyncLock, control 1 | granted | AsyncLockResponse | 1, Success | 0 |
//! | | not granted before its timeout | | 0, Failure | 0 |
//! | | refused | | 3, Error | 0 |
//! | AsyncLock, control 0 | the exclusive lock is released | AsyncLockResponse | 1, Success | 0 |
//! | | the shared lock is released | | 2, SharedReleased | 0 |
//! | | no lock is held | | 3, Error | 0 |
//! | AsyncLockInfo | an exclusive lock is held, or none | AsyncLockInfoResponse | 1, or 0 | sessions that hold a lock |
ghost use Rattle.std.specs.Prelude.{◌≡◌};
ghost use Rattle.psu_hislip.specs.LockResponses.{lock_response, release_response, lock_info_response};

use crate::{Header, MessageType};
use psu_locks::{Freed, Grant, Info, LockRefusal};

/// The result of a lock request or of a release: the control code of AsyncLockResponse (IVI-6.1).
#[derive(Clone, Copy, Debug, PartialEq, Eq)]
pub enum LockResponse {
    /// The lock was not granted before the timeout of its request.
    Failure = 0,
    /// The lock is granted, or the exclusive lock is released.
    Success = 1,
    /// Success, and the lock that is released is a shared one.
    SharedReleased = 2,
    /// The request is refused, or the session holds no lock that it could release.
    Error = 3,
}

impl LockResponse {
    ghost use Rattle.psu_hislip.specs.LockResponses.{lock_code, lock_answer};

    /// The control code.
    pub fn code(self) -> u8
        ensures { result ≡ lock_code self }
    {
        self as u8
    }

    /// Returns the AsyncLockResponse with this result.
    pub fn header(self) -> Header
        ensures { result ≡ lock_answer self }
    {
        Header::new(MessageType::AsyncLockResponse, self.code(), 0, 0)
    }
}

/// Returns the response to an AsyncLock that requests a lock, or `None` while the request waits. A request that waited
/// is answered as Granted or Failed once its wait ends.
pub fn lock_response(outcome: Result<Grant, LockRefusal>) -> Option<Header>
    ensures { result ≡ lock_response outcome }
{
    let response = match outcome {
        Ok(Grant::Granted) => LockResponse::Success,
        Ok(Grant::Failed) => LockResponse::Failure,
        Ok(Grant::Queued) => return None,
        Err(_) => LockResponse::Error,
    };
    Some(response.header())
}

/// Returns the response to an AsyncLock that releases a lock.
pub fn release_response(released: Result<Freed, LockRefusal>) -> Header
    ensures { result ≡ release_response released }
{
    let response = match released {
        Ok(Freed::Exclusive) => LockResponse::Success,
        Ok(Freed::Shared) => LockResponse::SharedReleased,
        Err(_) => LockResponse::Error,
    };
    response.header()
}

/// Returns the response to AsyncLockInfo.
pub fn lock_info_response(info: Info) -> Header
    ensures { result ≡ lock_info_response info }
{
    let control = u8::from(info.exclusive);
    let holders = u32::from(info.holders);
    Header::new(MessageType::AsyncLockInfoResponse, control, holders, 0)
}

//! The lock that an AsyncLock requests.
ghost use Rattle.std.specs.Prelude.{◌≡◌};
ghost use Rattle.psu_session.specs.Locking.{kind_of};

use psu_locks::{Kind, LockString};

/// Returns the lock that a string requests: the exclusive lock where it is empty, else the lock that is shared under
/// it. `None` where the string has more than 256 bytes.
pub(crate) fn lock_kind(string: &[u8]) -> Option<Kind>
    ensures { result ≡ kind_of string.now }
{
    if string.is_empty() {
        return Some(Kind::Exclusive);
    }
    Some(Kind::Shared(LockString::new(string)?))
}

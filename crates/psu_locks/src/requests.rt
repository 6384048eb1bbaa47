//! The locks that sessions request, and the requests that wait.
ghost use Rattle.std.specs.Prelude.{◌≡◌, ◌≤◌, length, SomeIff, []};
ghost use Rattle.std.specs.Str.{bytes_eq};

use crate::Session;
use crate::limits::LOCK_STRING_MOST;
use arrayvec::ArrayVec;
use std::marker::Model;

/// The kind of a lock.
#[derive(Drop)]
pub enum Kind {
    /// The exclusive lock, which at most one session holds.
    Exclusive,
    /// The shared lock, which sessions hold under one string.
    Shared(LockString),
}

/// The string of a shared lock: up to 256 bytes. A contract sees the list of them.
#[derive(Drop)]
pub struct LockString {
    bytes: ArrayVec<u8, LOCK_STRING_MOST>,
}

impl Model for LockString {
    ghost use Rattle.std.specs.Prelude.{ℕ, List};

    ghost Value = { List ℕ };

    ghost view = { λ s. s.bytes.items };
}

impl LockString {
    /// Returns the empty string.
    pub fn empty() -> LockString
        ensures { result ≡ [] }
    {
        LockString {
            bytes: ArrayVec::new(),
        }
    }

    /// Returns the string of these bytes, or `None` where they are more than 256.
    pub fn new(bytes: &[u8]) -> Option<LockString>
        ensures { SomeIff result (length bytes.now ≤ 256) bytes.now }
    {
        match ArrayVec::try_from(bytes) {
            Ok(bytes) => Some(LockString { bytes }),
            Err(_) => None,
        }
    }

    /// Whether two strings have the same bytes.
    pub fn is_same(&self, other: &LockString) -> bool
        ensures { result ≡ bytes_eq self.now other.now }
    {
        self.bytes.as_slice() == other.bytes.as_slice()
    }
}

/// A waiting request: its session, its kind of lock, and the time at which it fails.
#[derive(Drop)]
pub(crate) struct LockRequest {
    pub session: Session,
    pub kind: Kind,
    pub deadline: u128,
}

// The request that fills the unused places of a list.
impl Default for LockRequest {
    fn default() -> Self {
        LockRequest {
            session: Session::at(0),
            kind: Kind::Exclusive,
            deadline: 0,
        }
    }
}

//! User data.
ghost use Rattle.std.specs.Prelude.{◌≡◌, ◌<◌, ◌≤◌, [], length, IfSome, IfNone};

use arrayvec::ArrayVec;
use psu_lex::USER_DATA_MOST;
use std::marker::Model;

/// User data of 0 to 63 bytes (`*PUD`). Contracts see its bytes.
#[derive(Drop)]
pub struct UserData {
    bytes: ArrayVec<u8, USER_DATA_MOST>,
}

impl Model for UserData {
    ghost use Rattle.std.specs.Prelude.{List, ℕ, ◌≤◌, length};

    ghost Value = { List ℕ };

    ghost view = { λ u. u.bytes.items };

    ghost invariant = { λ u. length u.bytes.items ≤ 63 };
}

impl UserData {
    /// No user data.
    pub fn none() -> UserData
        ensures { result ≡ [] }
    {
        UserData {
            bytes: ArrayVec::new(),
        }
    }

    /// Returns user data of these bytes; `None` if there are more than 63.
    pub fn of(bytes: &[u8]) -> Option<UserData>
        ensures found { IfSome result (λ user. user ≡ bytes.now) }
        ensures most { IfSome result (λ user. length user ≤ 63) }
        ensures none { IfNone result (63 < length bytes.now) }
    {
        let mut kept = ArrayVec::new();
        if kept.try_extend_from_slice(bytes).is_err() {
            return None;
        }
        Some(UserData { bytes: kept })
    }

    // Copies the user data.
    pub(crate) fn copy(&self) -> UserData
        ensures { result ≡ self.now }
    {
        let mut bytes = ArrayVec::new();
        let _ = bytes.try_extend_from_slice(self.bytes.as_slice());
        UserData { bytes }
    }

    /// The bytes of the user data.
    pub fn bytes(&self) -> &[u8]
        ensures value { result.now ≡ self.now }
        ensures most { length result.now ≤ 63 }
    {
        self.bytes.as_slice()
    }
}

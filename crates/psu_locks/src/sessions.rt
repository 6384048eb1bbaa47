//! Lists of sessions.
ghost use Rattle.std.specs.Prelude.{◌≡◌, ◌↔◌, IsTrue, ◌<◌, ◌≤◌, [], ◌∷◌, ◌++◌, length};

use crate::{SESSIONS, Session};
use std::marker::Model;

/// Up to sixteen sessions, in an order that the call specifies. It needs no allocation. A contract sees the list of
/// their numbers.
#[derive(Drop)]
pub struct Sessions {
    list: [Session; SESSIONS],
    count: usize,
}

impl Model for Sessions {
    ghost use Rattle.std.specs.Prelude.{◌≤◌, ℕ, List, take};

    ghost Value = { List ℕ };

    ghost view = { λ s. take s.count s.list };

    ghost invariant = { λ s. s.count ≤ 16 };
}

impl Sessions {
    /// Returns an empty list.
    pub fn new() -> Sessions
        ensures { result ≡ [] }
    {
        Sessions {
            list: [Session::at(0); SESSIONS],
            count: 0,
        }
    }

    /// Appends a session.
    pub fn push(&mut self, session: Session)
        requires { length self.old < 16 }
        ensures { self.new ≡ self.old ++ session ∷ [] }
    {
        self.list[self.count] = session;
        self.count += 1;
    }

    /// Whether the list is empty.
    pub fn is_empty(&self) -> bool
        ensures { IsTrue result ↔ (self.now ≡ []) }
    {
        self.as_slice().is_empty()
    }

    /// Returns the sessions in order.
    pub fn as_slice(&self) -> &[Session]
        ensures sessions { result.now ≡ self.now }
        ensures most { length result.now ≤ 16 }
    {
        &self.list[..self.count]
    }
}

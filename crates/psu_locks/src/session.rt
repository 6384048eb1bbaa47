//! Sessions by their numbers.
ghost use Rattle.std.specs.Prelude.{◌≡◌, ◌+◌, ◌-◌, ◌<◌, ◌≤◌, SomeIff};

use std::marker::Model;

/// A session of the instrument: a number from 1 to 16. A contract sees the number.
#[derive(Clone, Copy, Debug, PartialEq, Eq)]
pub struct Session {
    number: u8,
}

impl Model for Session {
    ghost use Rattle.std.specs.Prelude.{◌≤◌, ℕ};

    ghost Value = { ℕ };

    ghost view = { λ s. s.number };

    ghost invariant = { λ s. (1 ≤ s.number) × (s.number ≤ 16) };

    ghost inverse = { λ n. record { number = n } };
}

impl Session {
    /// Returns the session of a number, or `None` where the number is not from 1 to 16.
    pub fn new(number: u8) -> Option<Session>
        ensures { SomeIff result ((1 ≤ number) × (number ≤ 16)) number }
    {
        if 1 <= number && number <= 16 {
            Some(Session { number })
        } else {
            None
        }
    }

    /// Returns the session at an index in a list of all sessions; session 1 is at index 0.
    pub fn at(place: usize) -> Session
        requires { place < 16 }
        ensures { result ≡ place + 1 }
    {
        Session {
            number: place as u8 + 1,
        }
    }

    /// Returns the number, from 1 to 16.
    pub fn number(self) -> u8
        ensures number { result ≡ self }
        ensures least { 1 ≤ result }
        ensures most { result ≤ 16 }
    {
        self.number
    }

    /// Returns the index in a list of all sessions.
    pub fn place(self) -> usize
        ensures place { result ≡ self - 1 }
        ensures inside { result < 16 }
    {
        self.number as usize - 1
    }
}

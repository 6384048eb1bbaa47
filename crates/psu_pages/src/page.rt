//! A page under construction.
ghost use Rattle.std.specs.Prelude.{◌≡◌, ◌+◌, ◌≤◌, ◌++◌, [], length, drop};
ghost use Rattle.psu_pages.specs.Spelling.{filled};

use crate::PAGE_SIZE;
use std::marker::Model;

/// The first bytes of a page, and zeros after them. Contracts see only the first bytes.
#[derive(Drop)]
pub(crate) struct Page {
    bytes: [u8; PAGE_SIZE],
    used: usize,
}

impl Model for Page {
    ghost use Rattle.std.specs.Prelude.{◌≡◌, ℕ, ◌-◌, ◌≤◌, List, take, drop, replicate};

    ghost Value = { List ℕ };

    ghost view = { λ p. take p.used p.bytes };

    ghost invariant = { λ p. (p.used ≤ 512) × (drop p.used p.bytes ≡ replicate (512 - p.used) 0) };
}

impl Page {
    /// Returns a page of zeros.
    pub(crate) fn new() -> Page
        ensures { result ≡ [] }
    {
        Page {
            bytes: [0; PAGE_SIZE],
            used: 0,
        }
    }

    /// Appends bytes to those that there are.
    pub(crate) fn add(&mut self, bytes: &[u8])
        requires { length self.old + length bytes.now ≤ 512 }
        ensures { self.new ≡ self.old ++ bytes.now }
    {
        let end = self.used + bytes.len();
        self.bytes[self.used..end].copy_from_slice(bytes);
        self.used = end;
    }

    /// Returns the whole page.
    pub(crate) fn bytes(&self) -> &[u8]
        ensures value { result.now ≡ filled 512 self.now }
        ensures whole { length result.now ≡ 512 }
    {
        &self.bytes
    }

    /// Returns the whole page except its first byte.
    pub(crate) fn after_gate(&self) -> &[u8]
        ensures value { result.now ≡ drop 1 (filled 512 self.now) }
        ensures whole { length result.now ≡ 511 }
    {
        &self.bytes()[1..]
    }
}

//! A transmission: the payloads up to a DataEnd.
ghost use Rattle.std.specs.Prelude.{◌≡◌, Some, [], IfOk, OnOk, OnErr};
ghost use Rattle.psu_hislip.specs.Action.{act};
ghost use Rattle.psu_hislip.specs.PartialTransmission.{added, executed, HasBytes};

use crate::limits::TRANSMISSION_MOST;
use crate::{Action, Origin};
use std::alloc::{AllocError, Allocator};
use std::marker::Model;
use std::mem;

/// The bytes of a transmission so far. Contracts see them, or `None` where they are too many to be kept.
#[derive(Drop)]
pub(crate) struct PartialTransmission<A: Allocator + Copy> {
    alloc: A,
    bytes: Vec<u8, A>,
    is_too_long: bool,
}

impl<A: Allocator + Copy> Model for PartialTransmission<A> {
    ghost use Rattle.std.specs.Prelude.{ℕ, List, Option, Some, None, ◌≤◌, length, if◌then◌else◌};

    ghost Value = { Option (List ℕ) };

    ghost view = { λ t. if t.is_too_long then None else Some t.bytes.items };

    ghost invariant = { λ t. length t.bytes.items ≤ 65536 };
}

impl<A: Allocator + Copy> PartialTransmission<A> {
    /// Returns an empty transmission.
    pub(crate) fn new(alloc: A) -> PartialTransmission<A>
        ensures { result ≡ Some [] }
    {
        PartialTransmission {
            alloc,
            bytes: Vec::new(alloc),
            is_too_long: false,
        }
    }

    /// Appends the payload of a Data. The first bytes are moved in; for more of them allocation may fail, and then
    /// nothing has changed.
    pub(crate) fn add(&mut self, payload: Vec<u8, A>) -> Result<(), AllocError>
        ensures ok { OnOk result (self.new ≡ added self.old payload.items) }
        ensures err { OnErr result (self.new ≡ self.old) }
        ensures memory { OnErr result (HasBytes self.old) }
    {
        if self.is_too_long || payload.len() > TRANSMISSION_MOST - self.bytes.len() {
            self.bytes = Vec::new(self.alloc);
            self.is_too_long = true;
            return Ok(());
        }
        if self.bytes.is_empty() {
            self.bytes = payload;
            return Ok(());
        }
        self.bytes.extend_from_slice(&payload)
    }

    /// Appends the payload of a DataEnd, returns the action of the whole transmission and begins the next one, which is
    /// empty. Where allocation fails, nothing has changed.
    pub(crate) fn end(
        &mut self,
        origin: Origin,
        payload: Vec<u8, A>,
    ) -> Result<Action<A>, AllocError>
        ensures done { IfOk result (λ action. act action ≡ executed origin (added self.old payload.items)) }
        ensures next { OnOk result (self.new ≡ Some []) }
        ensures err { OnErr result (self.new ≡ self.old) }
        ensures memory { OnErr result (HasBytes self.old) }
    {
        self.add(payload)?;
        Ok(self.take(origin))
    }

    // Returns the action of a transmission that is whole, and begins the next one.
    fn take(&mut self, origin: Origin) -> Action<A>
        ensures done { act result ≡ executed origin self.old }
        ensures next { self.new ≡ Some [] }
    {
        if self.is_too_long {
            self.clear();
            return Action::TooMuch(origin);
        }
        Action::Execute(origin, mem::replace(&mut self.bytes, Vec::new(self.alloc)))
    }

    /// Begins the next transmission, which is empty.
    pub(crate) fn clear(&mut self)
        ensures { self.new ≡ Some [] }
    {
        self.bytes = Vec::new(self.alloc);
        self.is_too_long = false;
    }
}

//! One change of a batch.
ghost use Rattle.std.specs.Prelude.{◌≡◌, Some, None, IfOk, option_map};

use crate::Value;
use std::alloc::{AllocError, Allocator};
use std::marker::Model;

/// A key, with the value that it is assigned, or with none if its item is removed. Contracts see an `Edit` of `specs/`.
#[derive(Drop)]
pub struct Edit<A: Allocator + Copy> {
    pub(crate) key: Vec<u8, A>,
    pub(crate) value: Option<Value<A>>,
}

impl<A: Allocator + Copy> Model for Edit<A> {
    ghost use Rattle.std.specs.Prelude.{option_map};
    ghost use Rattle.psu_map.specs.Batch.{Edit};

    ghost Value = { Edit };

    ghost view = { λ e. record { key = e.key.items; value = e.value } };
}

impl<A: Allocator + Copy> Edit<A> {
    pub(crate) fn new(key: Vec<u8, A>, value: Option<Value<A>>) -> Self
        ensures { result ≡ record { key = key.items; value = value } }
    {
        Edit { key, value }
    }

    /// The bytes of the key.
    pub fn key(&self) -> &[u8]
        ensures { result.now ≡ self.now.key }
    {
        &self.key
    }

    /// The bytes of the value that the key is assigned; `None` if its item is removed.
    pub fn value(&self) -> Option<&[u8]>
        ensures { option_map (λ v. v.now) result ≡ self.now.value }
    {
        match &self.value {
            Some(value) => Some(value.bytes()),
            None => None,
        }
    }

    /// Returns a copy of the edit: its key is in memory of its own, its value is shared.
    pub(crate) fn copy(&self, alloc: A) -> Result<Self, AllocError>
        ensures { IfOk result (λ copy. copy ≡ self.now) }
    {
        let mut copy = Edit::new(self.key.to_vec(alloc)?, None);
        if let Some(value) = &self.value {
            copy.value = Some(value.share()?);
        }
        Ok(copy)
    }
}

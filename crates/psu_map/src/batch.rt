//! Changes of a map that are stored as one.
ghost use Rattle.std.specs.Prelude.{◌≡◌, ◌++◌, ◌∷◌, [], Some, None, IfOk, OnOk, OnErr};

use crate::{Edit, Value};
use std::alloc::{AllocError, Allocator};
use std::marker::Model;

/// Edits in the order in which they were added; of two edits of one key the later one takes effect.
#[derive(Drop)]
pub struct Batch<A: Allocator + Copy> {
    pub(crate) edits: Vec<Edit<A>, A>,
}

impl<A: Allocator + Copy> Model for Batch<A> {
    ghost use Rattle.std.specs.Prelude.{List};
    ghost use Rattle.psu_map.specs.Batch.{Edit};

    ghost Value = { List Edit };

    ghost view = { λ b. b.edits.items };
}

impl<A: Allocator + Copy> Batch<A> {
    /// Returns a batch with no edits.
    pub fn new(alloc: A) -> Self
        ensures { result ≡ [] }
    {
        Batch {
            edits: Vec::new(alloc),
        }
    }

    /// Adds the edit that assigns a value to a key.
    pub fn assign(&mut self, key: Vec<u8, A>, value: Value<A>) -> Result<(), AllocError>
        ensures ok { OnOk result (self.new ≡ self.old ++ record { key = key.items; value = Some value } ∷ []) }
        ensures err { OnErr result (self.new ≡ self.old) }
    {
        self.edits.push(Edit::new(key, Some(value)))?;
        Ok(())
    }

    /// Adds the edit that removes the item of a key, if there is one.
    pub fn remove(&mut self, key: Vec<u8, A>) -> Result<(), AllocError>
        ensures ok { OnOk result (self.new ≡ self.old ++ record { key = key.items; value = None } ∷ []) }
        ensures err { OnErr result (self.new ≡ self.old) }
    {
        self.edits.push(Edit::new(key, None))?;
        Ok(())
    }

    /// The edits in the order in which they were added.
    pub fn edits(&self) -> &[Edit<A>]
        ensures { result.now ≡ self.now }
    {
        &self.edits
    }

    /// Returns a copy of the batch: its keys are in memory of their own, its values are shared.
    pub fn copy(&self, alloc: A) -> Result<Self, AllocError>
        ensures { IfOk result (λ copy. copy ≡ self.now) }
    {
        let mut edits = Vec::with_capacity(alloc, self.edits.len())?;
        for edit in &self.edits {
            edits.push(edit.copy(alloc)?)?;
        }
        Ok(Batch { edits })
    }
}

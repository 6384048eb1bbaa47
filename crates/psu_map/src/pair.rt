//! A key with its value, and the bytes of a value.
ghost use Rattle.std.specs.Prelude.{◌≡◌, IfOk};
ghost use Rattle.psu_map.specs.Map.{item_of};

use std::alloc::{AllocError, Allocator};
use std::marker::Model;
use std::sync::Arc;

/// The bytes of a value. They never change: the maps and batches that have the value share them. Contracts see the
/// bytes.
#[derive(Drop)]
pub struct Value<A: Allocator + Copy> {
    bytes: Arc<Vec<u8, A>, A>,
}

impl<A: Allocator + Copy> Model for Value<A> {
    ghost use Rattle.std.specs.Prelude.{List, ℕ};
    ghost use Rattle.std.specs.Arc.{arc_value};

    ghost Value = { List ℕ };

    ghost view = { λ v. (arc_value v.bytes).items };
}

impl<A: Allocator + Copy> Value<A> {
    /// Returns a value of these bytes. Fails only if an allocation fails.
    pub fn new(bytes: Vec<u8, A>) -> Result<Self, AllocError>
        ensures { IfOk result (λ value. value ≡ bytes.items) }
    {
        let alloc = *bytes.allocator();
        Ok(Value {
            bytes: Arc::new(alloc, bytes)?,
        })
    }

    /// The bytes.
    pub fn bytes(&self) -> &[u8]
        ensures { result.now ≡ self.now }
    {
        self.bytes.as_slice()
    }

    /// Returns another handle to the value, in the same memory. Fails only if more handles share it than can be
    /// counted.
    pub fn share(&self) -> Result<Self, AllocError>
        ensures { IfOk result (λ value. value ≡ self.now) }
    {
        Ok(Value {
            bytes: Arc::try_clone(&self.bytes)?,
        })
    }
}

/// A key and its value. Contracts see an `Item`.
#[derive(Drop)]
pub struct Pair<A: Allocator + Copy> {
    key: Vec<u8, A>,
    value: Value<A>,
}

impl<A: Allocator + Copy> Model for Pair<A> {
    ghost use Rattle.psu_map.specs.Map.{Item, item_of};

    ghost Value = { Item };

    ghost view = { λ p. item_of p.key.items p.value };
}

impl<A: Allocator + Copy> Pair<A> {
    pub(crate) fn new(key: Vec<u8, A>, value: Value<A>) -> Self
        ensures { result ≡ item_of key.items value }
    {
        Pair { key, value }
    }

    /// The bytes of the key.
    pub fn key(&self) -> &[u8]
        ensures { result.now ≡ self.now.key }
    {
        &self.key
    }

    /// The bytes of the value.
    pub fn value(&self) -> &[u8]
        ensures { result.now ≡ self.now.value }
    {
        self.value.bytes()
    }

    /// Returns another handle to the value, which shares it.
    pub fn share_value(&self) -> Result<Value<A>, AllocError>
        ensures { IfOk result (λ value. value ≡ self.now.value) }
    {
        self.value.share()
    }

    /// Returns a copy of the pair: its key is in memory of its own, its value is shared.
    pub(crate) fn copy(&self, alloc: A) -> Result<Self, AllocError>
        ensures { IfOk result (λ copy. copy ≡ self.now) }
    {
        Ok(Pair {
            key: self.key.to_vec(alloc)?,
            value: self.value.share()?,
        })
    }
}

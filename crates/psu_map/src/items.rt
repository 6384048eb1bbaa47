//! The map: pairs in the order of their keys.
ghost use Rattle.std.specs.Prelude.{◌≡◌, ◌<◌, ◌^◌, [], ◌∷◌, ◌++◌, ◌↔◌, length, IsTrue, IfOk, IfErr, OnOk, OnErr, option_map};
ghost use Rattle.std.specs.List.{AllByRecursion};
ghost use Rattle.psu_map.specs.Map.{Item, item_of, Before, get, put, without, cost, IsSorted, Sets};
ghost use Rattle.psu_map.specs.Batch.{edited, changed, Assigns};
ghost use Rattle.psu_map.specs.Place.{IsAt, IsGap};

use crate::search::{search, value_near, value_of};
use crate::{Batch, Edit, PAGE_SIZE, Pair, Value, same_pairs};
use std::alloc::{AllocError, Allocator};
use std::marker::Model;

/// An ordered map from the bytes of a key to the bytes of a value. Contracts see the list of its
/// items, in the byte order of their keys.
#[derive(Drop)]
pub struct Items<A: Allocator + Copy> {
    pub(crate) pairs: Vec<Pair<A>, A>,
}

impl<A: Allocator + Copy> Model for Items<A> {
    ghost use Rattle.std.specs.Prelude.{List};
    ghost use Rattle.psu_map.specs.Map.{Item, IsSorted};

    ghost Value = { List Item };

    ghost view = { λ m. m.pairs.items };

    ghost invariant = { λ m. IsSorted m.pairs.items };
}

impl<A: Allocator + Copy> Items<A> {
    /// Returns an empty map.
    pub fn new(alloc: A) -> Self
        ensures { result ≡ [] }
    {
        Items {
            pairs: Vec::new(alloc),
        }
    }

    /// Returns the value of a key; `None` if no item has the key.
    pub fn get(&self, key: &[u8]) -> Option<&[u8]>
        ensures { option_map (λ v. v.now) result ≡ get self.now key.now }
    {
        value_of(&self.pairs, key)
    }

    /// Returns the value of a key, as `get` does. The key is looked for first at the index `next`, which then moves
    /// past it: if keys are looked up in their order, each is found at once.
    #[inline(always)]
    pub fn get_near(&self, next: &mut usize, key: &[u8]) -> Option<&[u8]>
        ensures { option_map (λ v. v.now) result ≡ get self.now key.now }
    {
        value_near(&self.pairs, next, key)
    }

    /// Assigns a value to a key, in place of the one that it has. Fails only if an allocation fails.
    pub fn insert(&mut self, key: Vec<u8, A>, value: Value<A>) -> Result<(), AllocError>
        ensures ok { OnOk result (self.new ≡ put self.old key.items value) }
        ensures err { OnErr result (self.new ≡ self.old) }

        // A consequence: every other key has what it had.
        ensures sets { OnOk result (Sets self.old self.new key.items value) }
    {
        match self.search(&key) {
            Ok(at) => {
                self.pairs[at] = Pair::new(key, value);
                Ok(())
            }
            Err(at) => Ok(self.pairs.insert(at, Pair::new(key, value))?),
        }
    }

    /// Appends an item after all others: its key comes after theirs. Fails only if an allocation fails.
    pub fn append(&mut self, key: Vec<u8, A>, value: Value<A>) -> Result<(), AllocError>
        requires { AllByRecursion (λ (i : Item). Before i.key key.items) self.old }
        ensures ok { OnOk result (self.new ≡ self.old ++ item_of key.items value ∷ []) }
        ensures err { OnErr result (self.new ≡ self.old) }
    {
        self.pairs.push(Pair::new(key, value))?;
        Ok(())
    }

    /// Removes the item of a key, if there is one.
    pub fn remove(&mut self, key: &[u8])
        ensures { self.new ≡ without self.old key.now }
    {
        if let Ok(at) = self.search(key) {
            self.pairs.remove(at);
        }
    }

    /// Returns a copy of the map: its keys are in memory of their own, its values are shared.
    pub fn copy(&self, alloc: A) -> Result<Self, AllocError>
        ensures { IfOk result (λ copy. copy ≡ self.now) }
    {
        let mut pairs = Vec::new(alloc);
        for pair in &self.pairs {
            pairs.push(pair.copy(alloc)?)?;
        }
        Ok(Items { pairs })
    }

    /// The pairs in the order of their keys.
    pub fn pairs(&self) -> &[Pair<A>]
        ensures all { result.now ≡ self.now }
        ensures sorted { IsSorted self.now }
    {
        &self.pairs
    }

    /// The number of pages that the map costs: one for each item, and one for each started 512 bytes of its value.
    pub fn cost(&self) -> u128
        ensures value { result ≡ cost self.now }
        ensures most { result < 2 ^ 124 }
    {
        let page = PAGE_SIZE as u128;
        let mut pages = 0;
        for pair in &self.pairs {
            pages += 1 + (pair.value().len() as u128 + (page - 1)) / page;
        }
        pages
    }

    /// Returns a new map: this one after the edits of a batch.
    pub fn changed(&self, alloc: A, batch: &Batch<A>) -> Result<Self, AllocError>
        ensures value { IfOk result (λ map. map ≡ changed self.now batch.now) }

        // A consequence: each key has what its last edit assigns.
        ensures assigns { IfOk result (Assigns self.now batch.now) }
    {
        let mut map = self.copy(alloc)?;
        for edit in batch.edits() {
            map.apply(alloc, edit)?;
        }
        Ok(map)
    }

    /// Whether another map has the same keys, and the same value at each.
    pub fn is_same(&self, other: &Self) -> bool
        ensures { IsTrue result ↔ (self.now ≡ other.now) }
    {
        same_pairs(&self.pairs, &other.pairs)
    }

    // Makes one edit.
    fn apply(&mut self, alloc: A, edit: &Edit<A>) -> Result<(), AllocError>
        ensures { OnOk result (self.new ≡ edited self.old edit.now.key edit.now.value) }
    {
        match &edit.value {
            Some(value) => self.insert(edit.key().to_vec(alloc)?, value.share()?)?,
            None => self.remove(edit.key()),
        }
        Ok(())
    }

    // Returns the index of the key, or the index at which it would be inserted.
    fn search(&self, key: &[u8]) -> Result<usize, usize>
        ensures found { IfOk result (IsAt self.now key.now) }
        ensures absent { IfErr result (IsGap self.now key.now) }
    {
        search(&self.pairs, key)
    }
}

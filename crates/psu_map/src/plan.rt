//! A map, and edits that are still to be made to it in place.
ghost use Rattle.std.specs.Prelude.{◌≡◌, ◌<◌, ◌≤◌, ◌+◌, [], OnOk, OnErr, IfOk, IfErr, option_map, vec_len, vec_capacity};
ghost use Rattle.psu_map.specs.Map.{get, put, without, IsSorted};
ghost use Rattle.psu_map.specs.Batch.{changed, edited};

use crate::search::{search, value_near, value_of};
use crate::{Batch, Edit, Items, Pair, Value};
use std::alloc::{AllocError, Allocator};
use std::marker::Model;
use std::mem;

/// A map with edits that are planned for it. The memory that they need is allocated when they are planned, so that no
/// allocation can fail when they are made. Contracts see a `Planned`.
#[derive(Drop)]
pub struct Plan<A: Allocator + Copy> {
    alloc: A,
    pairs: Vec<Pair<A>, A>,
    edits: Batch<A>,
}

impl<A: Allocator + Copy> Model for Plan<A> {
    ghost use Rattle.std.specs.Prelude.{length, vec_len, vec_capacity, ◌≤◌, ◌+◌};
    ghost use Rattle.psu_map.specs.Map.{IsSorted};
    ghost use Rattle.psu_map.specs.Plan.{Planned};

    ghost Value = { Planned };

    ghost view = { λ p. record { map = p.pairs.items; edits = p.edits } };

    ghost invariant = { λ p. IsSorted p.pairs.items × (vec_len p.pairs + length p.edits ≤ vec_capacity p.pairs) };
}

impl<A: Allocator + Copy> Plan<A> {
    /// Returns a map with no edits planned for it.
    pub fn of(alloc: A, items: Items<A>) -> Plan<A>
        ensures { result ≡ record { map = items; edits = [] } }
    {
        let Items { pairs } = items;
        Plan {
            alloc,
            pairs,
            edits: Batch::new(alloc),
        }
    }

    /// Returns a map with edits that are planned for it, or both as they were if an allocation fails.
    pub fn with(alloc: A, items: Items<A>, edits: Batch<A>) -> Result<Plan<A>, (Items<A>, Batch<A>)>
        ensures ok { IfOk result (λ plan. plan ≡ record { map = items; edits = edits }) }
        ensures err { IfErr result (λ both. (both.0 ≡ items) × (both.1 ≡ edits)) }
    {
        let Items { mut pairs } = items;
        if pairs.reserve(edits.edits.len()).is_err() {
            return Err((Items { pairs }, edits));
        }
        Ok(Plan {
            alloc,
            pairs,
            edits,
        })
    }

    /// Returns the map, and the edits that are planned for it.
    pub fn into_parts(self) -> (Items<A>, Batch<A>)
        ensures map { result.0 ≡ self.map }
        ensures edits { result.1 ≡ self.edits }
    {
        let Plan { pairs, edits, .. } = self;
        (Items { pairs }, edits)
    }

    /// Makes the edits, and returns the map.
    pub fn made(mut self) -> Items<A>
        ensures { result ≡ changed self.map self.edits }
    {
        self.make();
        Items { pairs: self.pairs }
    }

    /// The pairs of the map, in the order of their keys.
    pub fn pairs(&self) -> &[Pair<A>]
        ensures all { result.now ≡ self.now.map }
        ensures sorted { IsSorted self.now.map }
    {
        &self.pairs
    }

    /// Returns the value that the map has at a key; `None` if no item has the key.
    pub fn get(&self, key: &[u8]) -> Option<&[u8]>
        ensures { option_map (λ v. v.now) result ≡ get self.now.map key.now }
    {
        value_of(&self.pairs, key)
    }

    /// Returns the value that the map has at a key, as `get` does. The key is looked for first at the index `next`,
    /// which then moves past it: if keys are looked up in their order, each is found at once.
    #[inline(always)]
    pub fn get_near(&self, next: &mut usize, key: &[u8]) -> Option<&[u8]>
        ensures { option_map (λ v. v.now) result ≡ get self.now.map key.now }
    {
        value_near(&self.pairs, next, key)
    }

    /// The edits that are planned.
    pub fn edits(&self) -> &Batch<A>
        ensures { result.now ≡ self.now.edits }
    {
        &self.edits
    }

    /// Plans these edits in place of the previous ones. Fails only if an allocation fails.
    pub fn set(&mut self, edits: Batch<A>) -> Result<(), AllocError>
        ensures ok { OnOk result (self.new ≡ record { map = self.old.map; edits = edits }) }
        ensures err { OnErr result (self.new ≡ self.old) }
    {
        self.pairs.reserve(edits.edits.len())?;
        self.edits = edits;
        Ok(())
    }

    /// Makes the edits, in their order.
    pub fn make(&mut self)
        ensures { self.new ≡ record { map = changed self.old.map self.old.edits; edits = [] } }
    {
        let Batch { edits } = mem::replace(&mut self.edits, Batch::new(self.alloc));
        let mut rest = edits.into_iter();
        while let Some(edit) = rest.next() {
            make_one(&mut self.pairs, edit);
        }
    }
}

// Makes one edit, without allocating.
fn make_one<A: Allocator + Copy>(pairs: &mut Vec<Pair<A>, A>, edit: Edit<A>)
    requires sorted { IsSorted pairs.old.items }
    requires room { vec_len pairs.old < vec_capacity pairs.old }
    ensures items { pairs.new.items ≡ edited pairs.old.items edit.key edit.value }
    ensures sorted { IsSorted pairs.new.items }
    ensures len { vec_len pairs.new ≤ vec_len pairs.old + 1 }
    ensures capacity { vec_capacity pairs.old ≤ vec_capacity pairs.new }
{
    let Edit { key, value } = edit;
    match value {
        Some(value) => put_within(pairs, key, value),
        None => take_out(pairs, &key),
    }
}

// Removes the item of a key, if there is one.
fn take_out<A: Allocator + Copy>(pairs: &mut Vec<Pair<A>, A>, key: &[u8])
    requires { IsSorted pairs.old.items }
    ensures items { pairs.new.items ≡ without pairs.old.items key.now }
    ensures sorted { IsSorted pairs.new.items }
    ensures len { vec_len pairs.new ≤ vec_len pairs.old }
    ensures capacity { vec_capacity pairs.old ≤ vec_capacity pairs.new }
{
    if let Ok(at) = search(pairs, key) {
        pairs.remove(at);
    }
}

// Assigns a value to a key, without allocating.
fn put_within<A: Allocator + Copy>(pairs: &mut Vec<Pair<A>, A>, key: Vec<u8, A>, value: Value<A>)
    requires sorted { IsSorted pairs.old.items }
    requires room { vec_len pairs.old < vec_capacity pairs.old }
    ensures items { pairs.new.items ≡ put pairs.old.items key.items value }
    ensures sorted { IsSorted pairs.new.items }
    ensures len { vec_len pairs.new ≤ vec_len pairs.old + 1 }
    ensures capacity { vec_capacity pairs.old ≤ vec_capacity pairs.new }
{
    match search(pairs, &key) {
        Ok(at) => pairs[at] = Pair::new(key, value),
        Err(at) => match pairs.insert(at, Pair::new(key, value)) {
            Ok(()) => {}
            Err(_) => unreachable!(),
        },
    }
}

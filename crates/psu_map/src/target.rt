//! The map that a commit is to store: the current map after a batch.
ghost use Rattle.std.specs.Prelude.{◌≡◌, ◌++◌, ◌∷◌, ℕ, List, OnOk, Some, None, IfOk, map, option_map};
ghost use Rattle.std.specs.List.{AllByRecursion};
ghost use Rattle.psu_map.specs.Map.{get, IsSorted};
ghost use Rattle.psu_map.specs.Batch.{changed, edited, KeepsValue};
ghost use Rattle.psu_map.specs.Target.{aimed, items_in, stand, standing, IsOf};

use crate::entry::Entry;
use crate::search::{find, search};
use crate::{Batch, Edit, Pair};
use std::alloc::{AllocError, Allocator};
use std::marker::Model;

/// The items of the map after a batch, none of them copied: they are in the current map and in the batch. Contracts see
/// an `Aim`.
#[derive(Drop)]
pub struct Target<'t, A: Allocator + Copy> {
    before: &'t [Pair<A>],
    entries: Vec<Entry<'t>, A>,
}

impl<'t, A: Allocator + Copy> Model for Target<'t, A> {
    ghost use Rattle.psu_map.specs.Target.{Aim, IsOf, items_in};
    ghost use Rattle.psu_map.specs.Map.{IsSorted};
    ghost use Rattle.std.specs.List.{AllByRecursion};

    ghost Value = { Aim };

    ghost view = { λ t. record { before = t.before.now; entries = t.entries.items } };

    ghost invariant = { λ t. IsSorted (items_in t.entries.items) × AllByRecursion (IsOf t.before.now) t.entries.items };
}

impl<'t, A: Allocator + Copy> Target<'t, A> {
    /// Returns the map after a batch. Fails only if an allocation fails.
    pub fn of(alloc: A, before: &'t [Pair<A>], batch: &'t Batch<A>) -> Result<Self, AllocError>
        requires { IsSorted before.now }
        ensures before { IfOk result (λ target. target.before ≡ before.now) }
        ensures aimed { IfOk result (λ target. aimed target ≡ changed before.now batch.now) }
        ensures standing { IfOk result (λ target. (key value : List ℕ) → get before.now key ≡ Some value
            → KeepsValue batch.now key value → standing target.entries key ≡ Some value) }
    {
        match batch.edits() {
            [] => Target::standing(alloc, before),
            [first, rest @ ..] => {
                let mut target = Target::begun(alloc, before, first, rest.len())?;
                target.make_all(rest)?;
                Ok(target)
            }
        }
    }

    /// Its items in the order of their keys.
    pub fn entries(&self) -> &[Entry<'t>]
        ensures all { result.now ≡ self.now.entries }
        ensures sorted { IsSorted (aimed self.now) }
        ensures each { AllByRecursion (IsOf self.now.before) self.now.entries }
    {
        &self.entries
    }

    /// Returns the value of a key; `None` if no item has the key.
    pub fn get(&self, key: &[u8]) -> Option<&[u8]>
        ensures { option_map (λ v. v.now) result ≡ get (aimed self.now) key.now }
    {
        match find(&self.entries, key) {
            Ok(at) => Some(self.entries[at].value),
            Err(_) => None,
        }
    }

    // Returns the current map, with each item unchanged.
    fn standing(alloc: A, before: &'t [Pair<A>]) -> Result<Self, AllocError>
        requires { IsSorted before.now }
        ensures before { IfOk result (λ target. target.before ≡ before.now) }
        ensures aimed { IfOk result (λ target. aimed target ≡ before.now) }
        ensures standing { IfOk result (λ target. (key : List ℕ) → standing target.entries key ≡ get before.now key) }
    {
        let mut entries = Vec::with_capacity(alloc, before.len())?;
        for pair in before {
            entries.push(Entry::standing(pair))?;
        }
        Ok(Target { before, entries })
    }

    // Returns the current map after one edit, with room for so many more items. No item is moved for the edit.
    fn begun(
        alloc: A,
        before: &'t [Pair<A>],
        edit: &'t Edit<A>,
        more: usize,
    ) -> Result<Self, AllocError>
        requires { IsSorted before.now }
        ensures before { IfOk result (λ target. target.before ≡ before.now) }
        ensures aimed { IfOk result (λ target. aimed target ≡ edited before.now edit.now.key edit.now.value) }
        ensures standing { IfOk result (λ target. (key value : List ℕ) → get before.now key ≡ Some value
            → (edit.now.key ≡ key → edit.now.value ≡ Some value) → standing target.entries key ≡ Some value) }
    {
        match edit.value() {
            Some(value) => Ok(Target::begun_with(alloc, before, edit.key(), value, more)?),
            None => Ok(Target::begun_without(alloc, before, edit.key(), more)?),
        }
    }

    // Returns the current map after an assignment, with room for so many more items.
    fn begun_with(
        alloc: A,
        before: &'t [Pair<A>],
        key: &'t [u8],
        value: &'t [u8],
        more: usize,
    ) -> Result<Self, AllocError>
        requires { IsSorted before.now }
        ensures before { IfOk result (λ target. target.before ≡ before.now) }
        ensures aimed { IfOk result (λ target. aimed target ≡ edited before.now key.now (Some value.now)) }
        ensures standing { IfOk result (λ target. (other its : List ℕ) → get before.now other ≡ Some its
            → (key.now ≡ other → value.now ≡ its) → standing target.entries other ≡ Some its) }
    {
        match search(before, key) {
            Ok(at) => {
                let stands = before[at].value() == value;
                let entry = Entry { key, value, stands };
                let entries = list_with(alloc, &before[..at], entry, &before[at + 1..], more)?;
                Ok(Target { before, entries })
            }
            Err(at) => {
                let stands = false;
                let entry = Entry { key, value, stands };
                let entries = list_with(alloc, &before[..at], entry, &before[at..], more)?;
                Ok(Target { before, entries })
            }
        }
    }

    // Returns the current map after a removal, with room for so many more items if an item is removed.
    fn begun_without(
        alloc: A,
        before: &'t [Pair<A>],
        key: &[u8],
        more: usize,
    ) -> Result<Self, AllocError>
        requires { IsSorted before.now }
        ensures before { IfOk result (λ target. target.before ≡ before.now) }
        ensures aimed { IfOk result (λ target. aimed target ≡ edited before.now key.now None) }
        ensures standing { IfOk result (λ target. (other its : List ℕ) → get before.now other ≡ Some its
            → (key.now ≡ other → ⊥) → standing target.entries other ≡ Some its) }
    {
        match search(before, key) {
            Ok(at) => {
                let entries = list(alloc, &before[..at], &before[at + 1..], more)?;
                Ok(Target { before, entries })
            }
            Err(_) => Ok(Target::standing(alloc, before)?),
        }
    }

    // Makes edits, in their order.
    fn make_all(&mut self, edits: &'t [Edit<A>]) -> Result<(), AllocError>
        ensures before { OnOk result (self.new.before ≡ self.old.before) }
        ensures aimed { OnOk result (aimed self.new ≡ changed (aimed self.old) edits.now) }
        ensures standing { OnOk result ((key value : List ℕ) → standing self.old.entries key ≡ Some value
            → KeepsValue edits.now key value → standing self.new.entries key ≡ Some value) }
    {
        for edit in edits {
            self.make(edit)?;
        }
        Ok(())
    }

    // Makes one edit.
    fn make(&mut self, edit: &'t Edit<A>) -> Result<(), AllocError>
        ensures before { self.new.before ≡ self.old.before }
        ensures aimed { OnOk result (aimed self.new ≡ edited (aimed self.old) edit.now.key edit.now.value) }
        ensures standing { OnOk result ((key value : List ℕ) → standing self.old.entries key ≡ Some value
            → (edit.now.key ≡ key → edit.now.value ≡ Some value) → standing self.new.entries key ≡ Some value) }
    {
        match edit.value() {
            Some(value) => self.put(edit.key(), value),
            None => {
                self.remove(edit.key());
                Ok(())
            }
        }
    }

    // Assigns a value to a key. The item is unchanged if it was unchanged and had this value.
    fn put(&mut self, key: &'t [u8], value: &'t [u8]) -> Result<(), AllocError>
        ensures before { self.new.before ≡ self.old.before }
        ensures aimed { OnOk result (aimed self.new ≡ edited (aimed self.old) key.now (Some value.now)) }
        ensures standing { OnOk result ((other its : List ℕ) → standing self.old.entries other ≡ Some its
            → (key.now ≡ other → value.now ≡ its) → standing self.new.entries other ≡ Some its) }
    {
        match find(&self.entries, key) {
            Ok(at) => {
                let stands = self.entries[at].stands_with(value);
                self.entries[at] = Entry { key, value, stands };
                Ok(())
            }
            Err(at) => {
                let stands = false;
                Ok(self.entries.insert(at, Entry { key, value, stands })?)
            }
        }
    }

    // Removes a key.
    fn remove(&mut self, key: &[u8])
        ensures before { self.new.before ≡ self.old.before }
        ensures aimed { aimed self.new ≡ edited (aimed self.old) key.now None }
        ensures standing { (other its : List ℕ) → standing self.old.entries other ≡ Some its
            → (key.now ≡ other → ⊥) → standing self.new.entries other ≡ Some its }
    {
        if let Ok(at) = find(&self.entries, key) {
            self.entries.remove(at);
        }
    }
}

// Returns unchanged items with an entry between them, and room for so many more.
fn list_with<'t, A: Allocator + Copy>(
    alloc: A,
    front: &'t [Pair<A>],
    entry: Entry<'t>,
    back: &'t [Pair<A>],
    more: usize,
) -> Result<Vec<Entry<'t>, A>, AllocError>
    ensures { IfOk result (λ entries. entries.items ≡ map stand front.now ++ entry.entry ∷ map stand back.now) }
{
    let room = front.len().saturating_add(back.len()).saturating_add(more);
    let mut entries = Vec::with_capacity(alloc, room.saturating_add(1))?;
    stand(&mut entries, front)?;
    entries.push(entry)?;
    stand(&mut entries, back)?;
    Ok(entries)
}

// Returns unchanged items, those of `front` and then those of `back`, and room for so many more.
fn list<'t, A: Allocator + Copy>(
    alloc: A,
    front: &'t [Pair<A>],
    back: &'t [Pair<A>],
    more: usize,
) -> Result<Vec<Entry<'t>, A>, AllocError>
    ensures { IfOk result (λ entries. entries.items ≡ map stand front.now ++ map stand back.now) }
{
    let room = front.len().saturating_add(back.len()).saturating_add(more);
    let mut entries = Vec::with_capacity(alloc, room)?;
    stand(&mut entries, front)?;
    stand(&mut entries, back)?;
    Ok(entries)
}

// Appends unchanged items.
fn stand<'t, A: Allocator + Copy>(
    entries: &mut Vec<Entry<'t>, A>,
    pairs: &'t [Pair<A>],
) -> Result<(), AllocError>
    ensures { OnOk result (entries.new.items ≡ entries.old.items ++ map stand pairs.now) }
{
    for pair in pairs {
        entries.push(Entry::standing(pair))?;
    }
    Ok(())
}

//! The files of contents.
ghost use Rattle.std.specs.Prelude.{◌≡◌, ◌<◌, ◌≤◌, ◌^◌, [], length, IfOk, OnOk, OnErr, option_map};
ghost use Rattle.std.specs.List.{AllByRecursion};
ghost use Rattle.psu_map.specs.Map.{Item, IsSorted, get, put, without, cost};
ghost use Rattle.psu_nv.specs.Costs.{pages_of, IsShort};

use crate::pages::page_count;
use psu_map::{Items, Pair, Value};
use std::alloc::{AllocError, Allocator};
use std::marker::Model;

// Files by name, with the pages that they cost in all, so that no command iterates over them. Contracts see the list of
// items.
#[derive(Drop)]
pub(crate) struct Files<A: Allocator + Copy> {
    items: Items<A>,
    pages: u128,
}

impl<A: Allocator + Copy> Model for Files<A> {
    ghost use Rattle.std.specs.Prelude.{List, ◌≡◌};
    ghost use Rattle.std.specs.List.{AllByRecursion};
    ghost use Rattle.psu_map.specs.Map.{Item, cost};
    ghost use Rattle.psu_nv.specs.Costs.{IsShort};

    ghost Value = { List Item };

    ghost view = { λ f. f.items };

    ghost invariant = { λ f. (f.pages ≡ cost f.items) × AllByRecursion IsShort f.items };
}

impl<A: Allocator + Copy> Files<A> {
    // Returns an empty list of files.
    pub(crate) fn new(alloc: A) -> Files<A>
        ensures { result ≡ [] }
    {
        Files {
            items: Items::new(alloc),
            pages: 0,
        }
    }

    // Returns these files, with the pages that they cost.
    pub(crate) fn of(items: Items<A>) -> Files<A>
        requires { AllByRecursion IsShort items }
        ensures { result ≡ items }
    {
        let pages = items.cost();
        Files { items, pages }
    }

    // The type byte and the bytes of the file with this name; `None` if there is none.
    pub(crate) fn get(&self, name: &[u8]) -> Option<&[u8]>
        ensures { option_map (λ v. v.now) result ≡ get self.now name.now }
    {
        self.items.get(name)
    }

    // The files in byte order of their names.
    pub(crate) fn pairs(&self) -> &[Pair<A>]
        ensures all { result.now ≡ self.now }
        ensures sorted { IsSorted self.now }
    {
        self.items.pairs()
    }

    // The pages that the files cost.
    pub(crate) fn cost(&self) -> u128
        ensures value { result ≡ cost self.now }
        ensures most { result < 2 ^ 80 }
    {
        // The number of files bounds the pages.
        let _count = self.items.pairs().len();
        self.pages
    }

    // The pages of the file with this name; 0 if there is none.
    pub(crate) fn pages_at(&self, name: &[u8]) -> u128
        ensures value { result ≡ pages_of (get self.now name.now) }
        ensures most { result < 2 ^ 121 }
    {
        match self.items.get(name) {
            Some(value) => page_count(value.len() as u128),
            None => 0,
        }
    }

    // Stores a file under a name, in place of the one that it has. The only error is an allocation failure.
    pub(crate) fn insert(&mut self, name: Vec<u8, A>, value: Vec<u8, A>) -> Result<(), AllocError>
        requires { length value.items ≤ 32769 }
        ensures ok { OnOk result (self.new ≡ put self.old name.items value.items) }
        ensures err { OnErr result (self.new ≡ self.old) }
    {
        // The names are in order, and each occurs once.
        let _ = self.pairs();
        let pages = self.cost() + page_count(value.len() as u128) - self.pages_at(&name);
        self.items.insert(name, Value::new(value)?)?;
        self.pages = pages;
        Ok(())
    }

    // Removes the file of a name, if there is one.
    pub(crate) fn remove(&mut self, name: &[u8])
        ensures { self.new ≡ without self.old name.now }
    {
        let _ = self.pairs();
        let pages = self.cost() - self.pages_at(name);
        self.items.remove(name);
        self.pages = pages;
    }

    // Copies the files into memory of their own.
    pub(crate) fn copy(&self, alloc: A) -> Result<Files<A>, AllocError>
        ensures { IfOk result (λ copy. copy ≡ self.now) }
    {
        Ok(Files {
            items: self.items.copy(alloc)?,
            pages: self.pages,
        })
    }
}

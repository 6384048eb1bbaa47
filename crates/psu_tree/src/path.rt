//! The header path of a message.
ghost use Rattle.std.specs.Prelude.{true, ◌≡◌, ◌<◌, ◌≤◌, List, ℕ, [], length, map, IfOk, OnErr};

use crate::words::Words;
use arrayvec::ArrayVec;
use psu_lex::Bytes;
use std::alloc::{AllocError, Allocator};
use std::marker::Model;

/// The nodes relative to which a header without a leading `:` is resolved, borrowed from the message. Contracts see the
/// list of them.
#[derive(Drop)]
pub struct Path<'a> {
    pub(crate) words: Words<'a>,
}

impl<'a> Model for Path<'a> {
    ghost Value = { List (List ℕ) };

    ghost view = { λ path. map (λ word. word.now) path.words.items };
}

impl<'a> Path<'a> {
    /// Returns the root of the tree, where each message starts.
    pub fn root() -> Path<'a>
        ensures { result ≡ [] }
    {
        Path {
            words: ArrayVec::new(),
        }
    }

    /// Whether it is the root of the tree.
    #[inline(always)]
    pub fn is_root(&self) -> bool
        ensures { result ≡ true → self.now ≡ [] }
    {
        self.words.is_empty()
    }

    /// Becomes the root of the tree.
    pub fn clear(&mut self)
        ensures { self.new ≡ [] }
    {
        self.words.clear();
    }

    /// Copies the path, so that it can be kept without the message. The root needs no allocation.
    pub fn save<A: Allocator + Copy>(&self, alloc: A) -> Result<SavedPath<A>, AllocError>
        ensures ok { IfOk result (λ saved. saved ≡ self.now) }
        ensures err { OnErr result (0 < length self.now) }
    {
        let mut words = Vec::new(alloc);
        for word in self.words.as_slice() {
            words.push(Bytes::of(alloc, word)?)?;
        }
        Ok(SavedPath { words })
    }
}

/// A path that is kept without the message that it is of. Contracts see the list of its nodes.
#[derive(Drop)]
pub struct SavedPath<A: Allocator + Copy> {
    words: Vec<Bytes<A>, A>,
}

impl<A: Allocator + Copy> Model for SavedPath<A> {
    ghost Value = { List (List ℕ) };

    ghost view = { λ path. path.words.items };

    ghost invariant = { λ path. length path.words.items ≤ 5 };
}

impl<A: Allocator + Copy> SavedPath<A> {
    /// Returns the root of the tree, where each message starts.
    pub fn root(alloc: A) -> SavedPath<A>
        ensures { result ≡ [] }
    {
        SavedPath {
            words: Vec::new(alloc),
        }
    }

    /// Returns the path.
    pub fn restore(&self) -> Path<'_>
        ensures { result ≡ self.now }
    {
        let mut path = Path::root();
        for word in &self.words {
            path.words.push(word.as_slice());
        }
        path
    }
}

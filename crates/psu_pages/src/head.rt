//! The head (header page) of an item: its contents, how it is decoded, and how it is encoded.
ghost use Rattle.std.specs.Prelude.{◌≡◌, ◌*◌, ◌≤◌, ◌+◌, ◌++◌, length, IfOk, OnErr, IfSome, IsNone};
ghost use Rattle.std.specs.List.{AllByRecursion};
ghost use Rattle.psu_pages.specs.Image.{head_of, head_on, head_after, words, IsHead};
ghost use Rattle.psu_pages.specs.Spelling.{spelled, spelled_words};

use crate::PAGE_SIZE;
use crate::page::Page;
use crate::words::{long, word};
use std::alloc::{AllocError, Allocator};
use std::marker::Model;
use std::sync::Arc;

/// The head (header page) of an item: the page that it is on, the item's key, the number of bytes of the value, and the
/// pages that hold them. It never changes: roots that name it share it.
#[derive(Drop)]
pub struct Head<A: Allocator + Copy> {
    body: Arc<Body<A>, A>,
}

// The contents of a head.
#[derive(Drop)]
struct Body<A: Allocator + Copy> {
    at: u16,
    key: Vec<u8, A>,
    size: u32,
    pages: Vec<u16, A>,
}

impl<A: Allocator + Copy> Model for Head<A> {
    ghost use Rattle.std.specs.Arc.{arc_value};
    ghost use Rattle.psu_pages.specs.Image.{Head, head_of};

    ghost Value = { Head };

    ghost view = { λ h. let body = arc_value h.body in head_of body.at body.key.items body.size body.pages.items };
}

impl<A: Allocator + Copy> Head<A> {
    /// Returns a head with these contents.
    pub(crate) fn new(
        alloc: A,
        at: u16,
        key: Vec<u8, A>,
        size: u32,
        pages: Vec<u16, A>,
    ) -> Result<Head<A>, AllocError>
        ensures { IfOk result (λ head. head ≡ head_of at key.items size pages.items) }
    {
        let body = Arc::new(
            alloc,
            Body {
                at,
                key,
                size,
                pages,
            },
        )?;
        Ok(Head { body })
    }

    /// The page that the head is on.
    pub fn at(&self) -> u16
        ensures { result ≡ self.now.at }
    {
        self.body.at
    }

    /// The item's key.
    pub fn key(&self) -> &[u8]
        ensures { result.now ≡ self.now.key }
    {
        self.body.key.as_slice()
    }

    /// The number of bytes of the value.
    pub fn size(&self) -> u32
        ensures { result ≡ self.now.size }
    {
        self.body.size
    }

    /// The pages of the value, in their order.
    pub fn pages(&self) -> &[u16]
        ensures { result.now ≡ self.now.pages }
    {
        self.body.pages.as_slice()
    }

    /// Returns another handle to the head, in the same memory. Fails only if more handles share it than can be counted.
    pub fn share(&self) -> Result<Head<A>, AllocError>
        ensures { IfOk result (λ copy. copy ≡ self.now) }
    {
        Ok(Head {
            body: Arc::try_clone(&self.body)?,
        })
    }

    /// Decodes the head on a page with these bytes; `None` if it isn't a valid one.
    pub(crate) fn on(alloc: A, at: u16, page: &[u8]) -> Result<Option<Head<A>>, AllocError>
        requires { length page.now ≡ 512 }
        ensures found { IfOk result (λ found. IfSome found (λ head. (head ≡ head_on at page.now) × IsHead head)) }
        ensures none { IfOk result (λ found. IsNone found → IsHead (head_on at page.now) → ⊥) }
        ensures memory { OnErr result (IsHead (head_on at page.now)) }
    {
        match page {
            [] => Ok(None),
            [n, rest @ ..] => {
                let n = *n as usize;
                if n == 0 || n > 65 {
                    return Ok(None);
                }
                let (key, rest) = rest.split_at(n);
                Head::after(alloc, at, key, rest)
            }
        }
    }

    // Decodes the head with this key from the bytes after the key.
    #[tactic(auto, using(crate::proofs::Numbers::length_words))]
    fn after(alloc: A, at: u16, key: &[u8], bytes: &[u8]) -> Result<Option<Head<A>>, AllocError>
        requires key { 1 ≤ length key.now }
        requires key_most { length key.now ≤ 65 }
        requires long { 170 ≤ length bytes.now }
        ensures found { IfOk result (λ found. IfSome found (λ head. (head ≡ head_after at key.now bytes.now) × IsHead head)) }
        ensures none { IfOk result (λ found. IsNone found → IsHead (head_after at key.now bytes.now) → ⊥) }
        ensures memory { OnErr result (IsHead (head_after at key.now bytes.now)) }
    {
        let (number, more) = bytes.split_at(4);
        let size = long(number);
        let (number, pages) = more.split_at(2);
        let count = word(number);
        if size == 0 || size > 33280 {
            return Ok(None);
        }
        if usize::from(count) != (size as usize + (PAGE_SIZE - 1)) / PAGE_SIZE {
            return Ok(None);
        }
        let key = key.to_vec(alloc)?;
        let pages = read_words(alloc, count, pages)?;
        Ok(Some(Head::new(alloc, at, key, size, pages)?))
    }

    /// Returns the page that encodes the head.
    pub(crate) fn spell(&self) -> Page
        requires { IsHead self.now }
        ensures { result ≡ spelled self.now }
    {
        let mut page = Page::new();
        page.add(&[self.key().len() as u8]);
        page.add(self.key());
        page.add(&self.size().to_be_bytes());
        page.add(&(self.pages().len() as u16).to_be_bytes());
        add_words(&mut page, self.pages());
        page
    }
}

// Appends numbers of two bytes each to a page.
pub(crate) fn add_words(page: &mut Page, words: &[u16])
    requires { length page.old + 2 * length words.now ≤ 512 }
    ensures { page.new ≡ page.old ++ spelled_words words.now }
{
    for word in words {
        page.add(&word.to_be_bytes());
    }
}

// Decodes numbers of two bytes each.
pub(crate) fn read_words<A: Allocator + Copy>(
    alloc: A,
    count: u16,
    bytes: &[u8],
) -> Result<Vec<u16, A>, AllocError>
    requires { 2 * count ≤ length bytes.now }
    ensures { IfOk result (λ numbers. numbers.items ≡ words count bytes.now) }
{
    let mut numbers = Vec::new(alloc);
    for i in 0..count as usize {
        numbers.push(u16::from_be_bytes([bytes[2 * i], bytes[2 * i + 1]]))?;
    }
    Ok(numbers)
}

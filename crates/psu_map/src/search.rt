//! Finding a key among elements in order.
ghost use Rattle.std.specs.Prelude.{◌≡◌, ◌<◌, length, map, IfOk, IfErr, IsTrue, option_map};
ghost use Rattle.psu_map.specs.Map.{Item, get, IsSorted};
ghost use Rattle.std.specs.Ordering.{nat_cmp};
ghost use Rattle.std.specs.Cmp.Lexicographic.{slice_cmp};
ghost use Rattle.psu_map.specs.Place.{key_at, IsAt, IsGap};

use crate::{Pair, same_key};
use std::alloc::Allocator;
use std::cmp::Ordering;

/// An element that is looked up by its key.
pub(crate) trait Keyed {
    ghost item: { Self → Item };

    /// The bytes of the key.
    fn its_key(&self) -> &[u8]
        ensures { result.now ≡ (let i = item self.now in i.key) };
}

impl<A: Allocator + Copy> Keyed for Pair<A> {
    ghost item = { λ pair. pair };

    fn its_key(&self) -> &[u8] {
        self.key()
    }
}

/// Returns the value of a key; `None` if no pair has it.
pub(crate) fn value_of<'p, A: Allocator + Copy>(
    pairs: &'p [Pair<A>],
    key: &[u8],
) -> Option<&'p [u8]>
    requires { IsSorted pairs.now }
    ensures { option_map (λ v. v.now) result ≡ get pairs.now key.now }
{
    match search(pairs, key) {
        Ok(at) => Some(pairs[at].value()),
        Err(_) => None,
    }
}

/// Returns the value of a key, for keys that are looked up in their order. The key is looked for first at the index
/// `next`, which is the one after the previous key; `next` then moves past this key.
#[inline(always)]
pub(crate) fn value_near<'p, A: Allocator + Copy>(
    pairs: &'p [Pair<A>],
    next: &mut usize,
    key: &[u8],
) -> Option<&'p [u8]>
    requires { IsSorted pairs.now }
    ensures { option_map (λ v. v.now) result ≡ get pairs.now key.now }
{
    let at = *next;
    if is_there(pairs, at, key) {
        *next = at + 1;
        return Some(pairs[at].value());
    }
    value_far(pairs, next, key)
}

// Returns the value of a key that isn't at the index `next`, and moves `next`.
#[inline(never)]
fn value_far<'p, A: Allocator + Copy>(
    pairs: &'p [Pair<A>],
    next: &mut usize,
    key: &[u8],
) -> Option<&'p [u8]>
    requires { IsSorted pairs.now }
    ensures { option_map (λ v. v.now) result ≡ get pairs.now key.now }
{
    match search(pairs, key) {
        Ok(at) => {
            *next = at + 1;
            Some(pairs[at].value())
        }
        Err(at) => {
            *next = at;
            None
        }
    }
}

// Whether the pair at an index has the key.
#[inline(always)]
fn is_there<A: Allocator + Copy>(pairs: &[Pair<A>], at: usize, key: &[u8]) -> bool
    requires { IsSorted pairs.now }
    ensures { IsTrue result → IsAt pairs.now key.now at }
{
    at < pairs.len() && same_key(pairs[at].key(), key)
}

/// Returns the index of the key among pairs, or the index at which it would be inserted.
pub(crate) fn search<A: Allocator + Copy>(pairs: &[Pair<A>], key: &[u8]) -> Result<usize, usize>
    requires { IsSorted pairs.now }
    ensures found { IfOk result (IsAt pairs.now key.now) }
    ensures absent { IfErr result (IsGap pairs.now key.now) }
{
    find(pairs, key)
}

/// Returns the index of the key among elements in order, or the index at which it would be inserted. It is a binary
/// search.
#[tactic(auto, using(crate::proofs::Keys::other_by_order))]
pub(crate) fn find<T: Keyed>(things: &[T], key: &[u8]) -> Result<usize, usize>
    requires { IsSorted (map T.item things.now) }
    ensures found { IfOk result (IsAt (map T.item things.now) key.now) }
    ensures absent { IfErr result (IsGap (map T.item things.now) key.now) }
{
    let mut low = 0;
    let mut high = things.len();
    while low < high {
        let middle = low + (high - low) / 2;
        match order(things, middle, key) {
            Ordering::Less => low = middle + 1,
            Ordering::Equal => return Ok(middle),
            Ordering::Greater => high = middle,
        }
    }
    Err(low)
}

// Compares the key of an element with a key.
fn order<T: Keyed>(things: &[T], at: usize, key: &[u8]) -> Ordering
    requires { at < length things.now }
    ensures { result ≡ slice_cmp nat_cmp (key_at (map T.item things.now) at) key.now }
{
    key_order(things[at].its_key(), key)
}

// Compares two keys. Most are those of registers, of two bytes.
#[inline(always)]
fn key_order(one: &[u8], other: &[u8]) -> Ordering
    ensures { result ≡ slice_cmp nat_cmp one.now other.now }
{
    match (one, other) {
        ([a, b], [c, d]) => a.cmp(c).then(b.cmp(d)),
        _ => one.cmp(other),
    }
}

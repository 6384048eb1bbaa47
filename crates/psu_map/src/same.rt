//! Comparing keys and lists of pairs.
ghost use Rattle.std.specs.Prelude.{◌≡◌, ◌↔◌, IsTrue};

use crate::Pair;
use std::alloc::Allocator;

/// Whether two keys are the same. Most are those of registers, of two bytes.
#[inline(always)]
pub fn same_key(one: &[u8], other: &[u8]) -> bool
    ensures { IsTrue result ↔ (one.now ≡ other.now) }
{
    if one.len() != other.len() {
        return false;
    }
    match (one, other) {
        ([a, b], [c, d]) => u16::from_le_bytes([*a, *b]) == u16::from_le_bytes([*c, *d]),
        _ => one == other,
    }
}

/// Whether two lists of pairs are the same.
pub fn same_pairs<A: Allocator + Copy>(one: &[Pair<A>], other: &[Pair<A>]) -> bool
    ensures { IsTrue result ↔ (one.now ≡ other.now) }
{
    if one.len() != other.len() {
        return false;
    }
    for i in 0..one.len() {
        if !same_pair(&one[i], &other[i]) {
            return false;
        }
    }
    true
}

fn same_pair<A: Allocator + Copy>(a: &Pair<A>, b: &Pair<A>) -> bool
    ensures { IsTrue result ↔ (a.now ≡ b.now) }
{
    same_key(a.key(), b.key()) && a.value() == b.value()
}

//! Checks of the heads of a root, taken together.
ghost use Rattle.std.specs.Prelude.{◌≡◌, ◌≤◌, true, false, length};
ghost use Rattle.psu_pages.specs.Image.{keys, taken, AreApart, AreShort, IsNone};

use crate::Head;
use crate::version::key_most;
use std::alloc::Allocator;

/// Whether heads take no more pages than the limit, and no key occurs twice or is too long for the version.
pub(crate) fn stand_together<A: Allocator + Copy>(
    heads: &[Head<A>],
    limit: u16,
    version: u16,
) -> bool
    ensures short { result ≡ true → AreShort version heads.now }
    ensures within { result ≡ true → length (taken heads.now) ≤ limit }
    ensures distinct { result ≡ true → AreApart (keys heads.now) }
    ensures no { result ≡ false → AreShort version heads.now → length (taken heads.now) ≤ limit → AreApart (keys heads.now) → ⊥ }
{
    are_short(heads, version) && are_within(heads, limit) && are_distinct(heads)
}

// Whether no key is longer than the version allows.
fn are_short<A: Allocator + Copy>(heads: &[Head<A>], version: u16) -> bool
    ensures yes { result ≡ true → AreShort version heads.now }
    ensures no { result ≡ false → AreShort version heads.now → ⊥ }
{
    let most = key_most(version);
    for head in heads {
        if head.key().len() > most {
            return false;
        }
    }
    true
}

// Whether heads and their values take no more pages than the limit.
fn are_within<A: Allocator + Copy>(heads: &[Head<A>], limit: u16) -> bool
    ensures yes { result ≡ true → length (taken heads.now) ≤ limit }
    ensures no { result ≡ false → length (taken heads.now) ≤ limit → ⊥ }
{
    let mut left = limit as usize;
    for head in heads {
        let pages = 1 + head.pages().len();
        if pages > left {
            return false;
        }
        left -= pages;
    }
    true
}

// Whether no key occurs twice.
fn are_distinct<A: Allocator + Copy>(heads: &[Head<A>]) -> bool
    ensures yes { result ≡ true → AreApart (keys heads.now) }
    ensures no { result ≡ false → AreApart (keys heads.now) → ⊥ }
{
    for (i, head) in heads.iter().enumerate() {
        if has_key(&heads[..i], head.key()) {
            return false;
        }
    }
    true
}

// Whether a head has the key.
fn has_key<A: Allocator + Copy>(heads: &[Head<A>], key: &[u8]) -> bool
    ensures no { result ≡ false → IsNone (keys heads.now) key.now }
    ensures yes { result ≡ true → IsNone (keys heads.now) key.now → ⊥ }
{
    for head in heads {
        if head.key() == key {
            return true;
        }
    }
    false
}

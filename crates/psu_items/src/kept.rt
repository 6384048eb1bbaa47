//! Items that a commit leaves unchanged, with their heads.
ghost use Rattle.std.specs.Prelude.{◌≡◌, ◌<◌, ◌↔◌, ℕ, IfSome, IfNone, IsTrue, length, true};
ghost use Rattle.psu_items.specs.Layout.{HasHead};
ghost use Rattle.psu_map.specs.Target.{item_in};

use psu_map::{Entry, same_key};
use psu_pages::Head;
use std::alloc::Allocator;

/// Returns the place of the item's head, if the map before has the item unchanged. The search continues after the head
/// found last: where heads come in the order of keys, as a commit leaves them, each is looked at once.
#[inline(always)]
pub(crate) fn kept<A: Allocator + Copy>(
    next: &mut usize,
    heads: &[Head<A>],
    entry: &Entry<'_>,
) -> Option<usize>
    ensures head { IfSome result (HasHead heads.now (item_in entry.now)) }
    ensures stands { IfSome result (λ _. entry.now.stands ≡ true) }
    ensures found { IfNone result (entry.now.stands ≡ true → (at : ℕ) → HasHead heads.now (item_in entry.now) at → ⊥) }
{
    if !entry.stands {
        return None;
    }
    let mut at = *next;
    if !is_there(heads, at, entry) {
        at = find(heads, at, entry)?;
    }
    *next = at + 1;
    Some(at)
}

// Whether the head at this place is of the entry's item.
#[inline(always)]
fn is_there<A: Allocator + Copy>(heads: &[Head<A>], at: usize, entry: &Entry<'_>) -> bool
    ensures { IsTrue result → HasHead heads.now (item_in entry.now) at }
{
    at < heads.len() && is_of(heads, at, entry)
}

// Searches for the head of an item from this place on, and then from the start. Rarely called, and out of line: the
// loop over all items, which calls it, keeps its values in registers.
#[cold]
#[inline(never)]
fn find<A: Allocator + Copy>(heads: &[Head<A>], from: usize, entry: &Entry<'_>) -> Option<usize>
    ensures head { IfSome result (HasHead heads.now (item_in entry.now)) }
    ensures found { IfNone result ((at : ℕ) → HasHead heads.now (item_in entry.now) at → ⊥) }
{
    for at in from..heads.len() {
        if is_of(heads, at, entry) {
            return Some(at);
        }
    }
    for at in 0..from.min(heads.len()) {
        if is_of(heads, at, entry) {
            return Some(at);
        }
    }
    None
}

// Whether the head has the entry's key, and the length of its value.
#[inline(always)]
fn is_of<A: Allocator + Copy>(heads: &[Head<A>], at: usize, entry: &Entry<'_>) -> bool
    requires { at < length heads.now }
    ensures { IsTrue result ↔ HasHead heads.now (item_in entry.now) at }
{
    let head = &heads[at];
    same_key(head.key(), entry.key) && head.size() as usize == entry.value.len()
}

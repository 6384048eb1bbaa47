//! Whether planned edits lead to a map, checked without allocation.
ghost use Rattle.std.specs.Prelude.{◌≡◌, ◌↔◌, ◌++◌, ◌∷◌, IsTrue, IfSome, IfNone, List, Some, None, option_map};
ghost use Rattle.std.specs.List.{flat_map};
ghost use Rattle.psu_map.specs.Batch.{changed, Edit as EditData};
ghost use Rattle.psu_exec.specs.Batch.{assignment, batch, removal};

use crate::comparison::{between, same_value};
use crate::difference::is_value;
use psu_items::{Edit, Items, Pair, Plan};
use std::alloc::Allocator;

// The edits after the first one, if the first has this key and value; otherwise none.
fn behind<'e, A: Allocator + Copy>(
    edits: &'e [Edit<A>],
    key: &[u8],
    value: Option<&[u8]>,
) -> Option<&'e [Edit<A>]>
    ensures some { IfSome result (λ rest. edits.now ≡ record { key = key.now; value = option_map (λ v. v.now) value.entry } ∷ rest.now) }
    ensures none { IfNone result ((rest : List EditData) → edits.now ≡ record { key = key.now; value = option_map (λ v. v.now) value.entry } ∷ rest → ⊥) }
{
    match edits {
        [] => None,
        [first, rest @ ..] => {
            if first.key() == key && same_value(first.value(), value) {
                Some(rest)
            } else {
                None
            }
        }
    }
}

// The edits after the removal of an item whose key the target does not have; all of them if the target has it; none
// if another edit is first. Keys come in order, and `next` advances with them.
fn behind_removal<'e, A: Allocator + Copy>(
    edits: &'e [Edit<A>],
    target: &Items<A>,
    next: &mut usize,
    pair: &Pair<A>,
) -> Option<&'e [Edit<A>]>
    ensures some { IfSome result (λ rest. edits.now ≡ removal target.now pair.now ++ rest.now) }
    ensures none { IfNone result ((rest : List EditData) → edits.now ≡ removal target.now pair.now ++ rest → ⊥) }
{
    if target.get_near(next, pair.key()).is_some() {
        return Some(edits);
    }
    behind(edits, pair.key(), None)
}

// The edits after the assignment of an item that is new or differs; all of them if the item is unchanged; none if
// another edit is first.
fn behind_assignment<'e, A: Allocator + Copy>(
    edits: &'e [Edit<A>],
    before: &Plan<A>,
    next: &mut usize,
    pair: &Pair<A>,
) -> Option<&'e [Edit<A>]>
    ensures some { IfSome result (λ rest. edits.now ≡ assignment before.now.map pair.now ++ rest.now) }
    ensures none { IfNone result ((rest : List EditData) → edits.now ≡ assignment before.now.map pair.now ++ rest → ⊥) }
{
    if is_value(pair.value(), before.get_near(next, pair.key())) {
        return Some(edits);
    }
    behind(edits, pair.key(), Some(pair.value()))
}

// The edits after the removals of these pairs. The first pair would be at the place `next` of the target.
fn behind_removals<'e, A: Allocator + Copy>(
    edits: &'e [Edit<A>],
    target: &Items<A>,
    mut next: usize,
    pairs: &[Pair<A>],
) -> Option<&'e [Edit<A>]>
    ensures some { IfSome result (λ rest. edits.now ≡ flat_map (removal target.now) pairs.now ++ rest.now) }
    ensures none { IfNone result ((rest : List EditData) → edits.now ≡ flat_map (removal target.now) pairs.now ++ rest → ⊥) }
{
    let mut rest = edits;
    for pair in pairs {
        match behind_removal(rest, target, &mut next, pair) {
            Some(behind) => rest = behind,
            None => return None,
        }
    }
    Some(rest)
}

// Whether these edits are the assignments of these pairs. The first pair would be at the place `next` of the map
// before.
fn are_assignments<A: Allocator + Copy>(
    edits: &[Edit<A>],
    before: &Plan<A>,
    mut next: usize,
    pairs: &[Pair<A>],
) -> bool
    ensures { IsTrue result ↔ (edits.now ≡ flat_map (assignment before.now.map) pairs.now) }
{
    let mut rest = edits;
    for pair in pairs {
        match behind_assignment(rest, before, &mut next, pair) {
            Some(behind) => rest = behind,
            None => return false,
        }
    }
    rest.is_empty()
}

/// Whether the planned edits are those that turn the planned map into the target. Items of the common prefix and the
/// common suffix of both maps are compared once.
pub(crate) fn leads_to<A: Allocator + Copy>(plan: &Plan<A>, target: &Items<A>) -> bool
    ensures is { IsTrue result ↔ (plan.now.edits ≡ batch plan.now.map target.now) }
    ensures leads { IsTrue result → changed plan.now.map plan.now.edits ≡ target.now }
{
    let (first, gone, come) = between(plan.pairs(), target.pairs());
    match behind_removals(plan.edits().edits(), target, first, gone) {
        Some(rest) => are_assignments(rest, plan, first, come),
        None => false,
    }
}

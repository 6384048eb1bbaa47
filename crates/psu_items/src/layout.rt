//! The heads that the next root is to name: those of items that stay unchanged, and new ones for all others.
ghost use Rattle.std.specs.Prelude.{◌≡◌, ◌+◌, ◌<◌, ◌≤◌, ◌++◌, ◌∷◌, [], true, false, List, ℕ, length, OnOk, IfOk, IfErr, IsErrOf, vec_len, vec_capacity};
ghost use Rattle.std.specs.List.{AllByRecursion};
ghost use Rattle.psu_map.specs.Map.{Item};
ghost use Rattle.psu_map.specs.Capacity.{Fits, CanHold};
ghost use Rattle.psu_pages.specs.Free.{is_free, free_pages};
ghost use Rattle.psu_items.specs.Standing.{AreSpare, IsSpare};
ghost use Rattle.psu_pages.specs.Image.{IsNone, pages_of, taken, AreApart, Head as HeadOf};
ghost use Rattle.psu_pages.specs.Outcome.{IsPlanned, HasSameRoots, pages_for};
ghost use Rattle.psu_items.specs.Layout.{heads_of, slots_of, IsOneOf, IsSlot, IsSlotFor, AreSlots, HaveStanding};
ghost use Rattle.psu_map.specs.Target.{aimed, item_in, IsOf};
ghost use Rattle.psu_items.specs.declared.layout.Slot.{Slot as SlotOf};

use crate::kept::kept;
use psu_disk::Disk;
use psu_map::{Entry, Target};
use psu_pages::{Head, PageFault, Pages};
use std::alloc::{AllocError, Allocator};

/// A head that the next root is to name.
#[derive(Drop)]
pub(crate) struct Slot<A: Allocator + Copy> {
    pub head: Head<A>,
    /// Whether its pages are not written yet: the current root does not name it.
    pub is_new: bool,
}

/// The heads that the next root is to name.
#[derive(Drop)]
pub(crate) struct Layout<A: Allocator + Copy> {
    pub heads: Vec<Head<A>, A>,
    /// The places of the heads whose pages are not written yet: the current root does not name them.
    pub unwritten: Vec<usize, A>,
}

/// Claims pages for all items that are new or changed, and lays out the heads. The pool has room for these beside the
/// pages in use: the only error is an allocation failure, and then the claimed pages are freed.
pub(crate) fn lay_out<D: Disk, A: Allocator + Copy>(
    alloc: A,
    pages: &mut Pages<D, A>,
    target: &Target<'_, A>,
) -> Result<Layout<A>, AllocError>
    requires spare { IsSpare pages.old pages.old.heads.items }
    requires can { CanHold pages.old.limit (aimed target.now) }
    ensures roots { HasSameRoots pages.old pages.new }
    ensures laid { IfOk result (λ layout. AreSlots pages.new target.now.before (aimed target.now) (aimed target.now) (slots_of layout)) }
    ensures standing { IfOk result (λ layout. HaveStanding target.now.entries pages.old.heads.items (slots_of layout)) }
    ensures claims { IfOk result (λ layout. (page : ℕ) → IsNone (taken (heads_of (slots_of layout))) page
        → is_free pages.new.free page ≡ is_free pages.old.free page) }
    ensures spare { IfErr result (λ _. IsSpare pages.new pages.new.heads.items) }
    ensures there { IfOk result (λ layout. AllByRecursion (λ place. place < length layout.heads.items) layout.unwritten.items) }
{
    let mut layout = Layout {
        heads: Vec::with_capacity(alloc, target.entries().len())?,
        unwritten: Vec::with_capacity(alloc, target.entries().len())?,
    };
    match fill(alloc, pages, target, &mut layout) {
        Ok(()) => Ok(layout),
        Err(AllocError) => {
            release(pages, layout);
            Err(AllocError)
        }
    }
}

// Adds a slot for each item, in the order of keys. A function of its own, so that its loop keeps its values in
// registers.
#[inline(never)]
fn fill<D: Disk, A: Allocator + Copy>(
    alloc: A,
    pages: &mut Pages<D, A>,
    target: &Target<'_, A>,
    layout: &mut Layout<A>,
) -> Result<(), AllocError>
    requires spare { IsSpare pages.old pages.old.heads.items }
    requires can { CanHold pages.old.limit (aimed target.now) }
    requires none { slots_of layout.old ≡ [] }
    requires none_unwritten { layout.old.unwritten.items ≡ [] }
    requires heads_room { vec_len layout.old.heads + length target.now.entries ≤ vec_capacity layout.old.heads }
    requires places_room { vec_len layout.old.unwritten + length target.now.entries ≤ vec_capacity layout.old.unwritten }
    ensures roots { HasSameRoots pages.old pages.new }
    ensures filled { OnOk result (AreSlots pages.new target.now.before (aimed target.now) (aimed target.now) (slots_of layout.new)) }
    ensures standing { OnOk result (HaveStanding target.now.entries pages.old.heads.items (slots_of layout.new)) }
    ensures planned { AllByRecursion (λ (slot : SlotOf A). slot.is_new ≡ true → IsPlanned pages.new slot.head) (slots_of layout.new) }
    ensures apart { AreApart (taken (heads_of (slots_of layout.new))) }
    ensures kept { AllByRecursion (λ (slot : SlotOf A). slot.is_new ≡ false → IsOneOf pages.new.heads.items slot.head) (slots_of layout.new) }
    ensures claims { (page : ℕ) → IsNone (taken (heads_of (slots_of layout.new))) page → is_free pages.new.free page ≡ is_free pages.old.free page }
    ensures there { AllByRecursion (λ place. place < length layout.new.heads.items) layout.new.unwritten.items }
{
    let mut next = 0;
    for entry in target.entries() {
        let slot = slot_for(alloc, pages, &mut next, entry)?;
        add(layout, slot);
    }
    Ok(())
}

// Returns the slot of an item: the head that the current root names, or a new one with pages claimed for it.
fn slot_for<D: Disk, A: Allocator + Copy>(
    alloc: A,
    pages: &mut Pages<D, A>,
    next: &mut usize,
    entry: &Entry<'_>,
) -> Result<Slot<A>, AllocError>
    requires fits { Fits (item_in entry.now) }
    requires room { pages_for (length entry.now.value) ≤ length (free_pages pages.old.free) }
    ensures roots { HasSameRoots pages.old pages.new }
    ensures others { (other : HeadOf) → IsPlanned pages.old other → IsPlanned pages.new other }
    ensures slot { (before : List Item) → IsOf before entry.now → IfOk result (IsSlotFor pages.old pages.new before (item_in entry.now)) }
    ensures standing { IfOk result (λ slot. entry.now.stands ≡ true → (head : HeadOf)
        → IsOneOf pages.old.heads.items head → head.key ≡ entry.now.key → head.size ≡ length entry.now.value
        → slot.head ≡ head) }
    ensures marks { IfOk result (λ slot. (page : ℕ) → IsNone (pages_of slot.head) page → is_free pages.new.free page ≡ is_free pages.old.free page) }
    ensures unmarked { IfErr result (λ _. pages.new.free ≡ pages.old.free) }
{
    if let Some(at) = kept(next, pages.heads(), entry) {
        return Ok(Slot {
            head: pages.heads()[at].share()?,
            is_new: false,
        });
    }
    match pages.plan(alloc, entry.key, entry.value.len() as u32) {
        Ok(head) => Ok(Slot { head, is_new: true }),
        Err(PageFault::Memory) => Err(AllocError),
        Err(PageFault::NoPage | PageFault::Device) => unreachable!(),
    }
}

// Appends a slot.
#[inline(always)]
fn add<A: Allocator + Copy>(layout: &mut Layout<A>, slot: Slot<A>)
    requires there { AllByRecursion (λ place. place < length layout.old.heads.items) layout.old.unwritten.items }
    requires heads_room { vec_len layout.old.heads < vec_capacity layout.old.heads }
    requires places_room { vec_len layout.old.unwritten < vec_capacity layout.old.unwritten }
    ensures slots { slots_of layout.new ≡ slots_of layout.old ++ slot ∷ [] }
    ensures there { AllByRecursion (λ place. place < length layout.new.heads.items) layout.new.unwritten.items }
    ensures heads_len { vec_len layout.new.heads ≤ vec_len layout.old.heads + 1 }
    ensures places_len { vec_len layout.new.unwritten ≤ vec_len layout.old.unwritten + 1 }
    ensures heads_capacity { vec_capacity layout.old.heads ≤ vec_capacity layout.new.heads }
    ensures places_capacity { vec_capacity layout.old.unwritten ≤ vec_capacity layout.new.unwritten }
{
    if slot.is_new {
        add_place(&mut layout.unwritten, layout.heads.len());
    }
    add_head(&mut layout.heads, slot.head);
}

// Appends a head.
#[inline(always)]
fn add_head<A: Allocator + Copy>(heads: &mut Vec<Head<A>, A>, head: Head<A>)
    requires { vec_len heads.old < vec_capacity heads.old }
    ensures items { heads.new.items ≡ heads.old.items ++ head ∷ [] }
    ensures len { vec_len heads.new ≤ vec_len heads.old + 1 }
    ensures capacity { vec_capacity heads.old ≤ vec_capacity heads.new }
{
    match heads.push(head) {
        Ok(()) => {}
        Err(_) => unreachable!(),
    }
}

// Appends a place.
fn add_place<A: Allocator + Copy>(places: &mut Vec<usize, A>, place: usize)
    requires { vec_len places.old < vec_capacity places.old }
    ensures items { places.new.items ≡ places.old.items ++ place ∷ [] }
    ensures len { vec_len places.new ≤ vec_len places.old + 1 }
    ensures capacity { vec_capacity places.old ≤ vec_capacity places.new }
{
    match places.push(place) {
        Ok(()) => {}
        Err(_) => unreachable!(),
    }
}

// Frees the pages of the heads that were planned.
fn release<D: Disk, A: Allocator + Copy>(pages: &mut Pages<D, A>, mut layout: Layout<A>)
    requires planned { AllByRecursion (λ (slot : SlotOf A). slot.is_new ≡ true → IsPlanned pages.old slot.head) (slots_of layout) }
    requires apart { AreApart (taken (heads_of (slots_of layout))) }
    requires kept { AllByRecursion (λ (slot : SlotOf A). slot.is_new ≡ false → IsOneOf pages.old.heads.items slot.head) (slots_of layout) }
    ensures roots { HasSameRoots pages.old pages.new }
    ensures spare { AreSpare pages.old (taken pages.old.heads.items) (taken (heads_of (slots_of layout))) → IsSpare pages.new pages.new.heads.items }
{
    while let Some(head) = layout.heads.pop() {
        if layout.unwritten.contains(&layout.heads.len()) {
            pages.unplan(head);
        }
    }
}

//! Commits during which power is lost: the image before one, its batch, and the maps before and after it.
use crate::edits::{edits, is_map};
use crate::spelled::bytes_of;
use psu_disk::Disk;
use psu_items::{Batch, Items, Store};
use std::alloc::Allocator;
use std::process::Abort;

/// The properties of an image before a commit: those of its store, and the number of disk calls.
#[derive(Clone, Copy, Drop)]
pub(crate) struct Counts {
    /// The limit of the image.
    pub(crate) limit: u16,
    /// The version of its root.
    pub(crate) version: u16,
    /// The number of its root.
    pub(crate) number: u64,
    /// The calls of its opening.
    pub(crate) opening: u64,
    /// The calls of the commit.
    pub(crate) commit: u64,
}

/// A commit on an image.
#[derive(Drop)]
pub(crate) struct Scene<A: Allocator + Copy> {
    /// The bytes of the image.
    pub(crate) image: Vec<u8, A>,
    /// The changes of the commit.
    pub(crate) batch: Batch<A>,
    /// The properties of its store, and the numbers of calls.
    pub(crate) counts: Counts,
    // The maps before it and after it, as the batches that assign their items.
    before: Batch<A>,
    after: Batch<A>,
}

impl<A: Allocator + Copy> Scene<A> {
    /// Returns the commit of a batch on a disk. The texts are the batch, the map before it, and the map after it.
    pub(crate) fn of<D: Disk + Drop>(
        rt: &impl Abort,
        alloc: A,
        disk: D,
        texts: [&str; 3],
        counts: Counts,
    ) -> Scene<A> {
        Scene {
            image: bytes_of(rt, alloc, disk),
            batch: edits(rt, alloc, texts[0]),
            counts,
            before: edits(rt, alloc, texts[1]),
            after: edits(rt, alloc, texts[2]),
        }
    }

    /// Whether a map is the one after the commit, rather than the one before. `None` where it is neither.
    pub(crate) fn is_target(&self, items: &Items<A>) -> Option<bool> {
        let is_after = is_map(items, &self.after);
        (is_map(items, &self.before) != is_after).then_some(is_after)
    }

    // Whether a store of either map has the map's version and number.
    fn is_numbered<D: Disk>(&self, store: &Store<D, A>, is_target: bool) -> bool {
        let counts = self.counts;
        let version = if is_target { 2 } else { counts.version };
        let number = counts.number.saturating_add(u64::from(is_target));
        store.limit() == counts.limit && store.version() == version && store.number() == number
    }

    /// Whether a store has the target, rather than the map before. `None` where it has neither.
    pub(crate) fn has_target<D: Disk>(&self, store: &Store<D, A>) -> Option<bool> {
        let is_target = self.is_target(store.items())?;
        self.is_numbered(store, is_target).then_some(is_target)
    }

    /// Whether an opening of a disk finds the target, rather than the map before. `None` where it finds neither.
    pub(crate) fn finds_target<D: Disk + Drop>(&self, alloc: A, disk: D) -> Option<bool> {
        match Store::open(alloc, disk) {
            Ok(store) => self.has_target(&store),
            Err(_) => None,
        }
    }
}

//! What a run begins on.

use psu_disk::Disk;
use psu_items::Store;
use std::alloc::Allocator;

/// What a run begins on.
#[derive(Drop)]
pub enum RunStart<D: Disk, A: Allocator + Copy> {
    /// The image on a disk, which is opened.
    Image(D),
    /// A store that is open, as one is that was just formatted.
    Store(Store<D, A>),
}

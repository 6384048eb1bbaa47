//! The early end of a run.
ghost use Rattle.std.specs.Prelude.{◌≡◌, ◌↔◌, IsTrue};
ghost use Rattle.psu_run.specs.Ends.{IsWorn, fault_disk};
ghost use Rattle.psu_run.specs.Points.{IsWornOut};

use crate::RunCause;
use psu_disk::Disk;
use psu_items::{Broken, Store};
use std::alloc::Allocator;

/// What a run that ended early hands back.
#[derive(Drop)]
pub enum Returned<D: Disk, A: Allocator + Copy> {
    /// The disk, where it was not opened.
    Disk(D),
    /// The store, which is not broken.
    Store(Store<D, A>),
    /// The store, which is broken.
    Broken(Broken<D, A>),
}

/// Why a run ended early, with what it hands back.
#[derive(Drop)]
pub struct RunFault<D: Disk, A: Allocator + Copy> {
    pub cause: RunCause,
    pub returned: Returned<D, A>,
}

impl<D: Disk, A: Allocator + Copy> RunFault<D, A> {
    /// Returns the disk.
    pub fn into_disk(self) -> D
        ensures { result ≡ fault_disk self }
    {
        match self.returned {
            Returned::Disk(disk) => disk,
            Returned::Store(store) => store.into_disk(),
            Returned::Broken(broken) => broken.into_disk(),
        }
    }

    /// Whether no number is left for a commit to the store that is handed back. It distinguishes a device fault of a
    /// worn store from one of a disk that failed.
    pub fn is_worn(&self) -> bool
        ensures value { IsTrue result ↔ IsWorn self.now.returned }
        ensures shown { D.honest → IsTrue result → IsWornOut (D.state (fault_disk self.now)).bytes }
    {
        match &self.returned {
            Returned::Store(store) => store.number() == u64::MAX,
            _ => false,
        }
    }
}

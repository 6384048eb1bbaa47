//! A store between commits: a map on a disk.
ghost use Rattle.std.specs.Prelude.{◌≡◌, ◌+◌, ◌*◌, ◌≤◌, [], List, ℕ, IfOk, IfErr};
ghost use Rattle.psu_disk.specs.Disk.{IsCrashImage, HasFailed};
ghost use Rattle.psu_items.specs.Image.{current_root, number_in, version_in, EachRepresents};

use psu_disk::Disk;
use psu_map::Items;
use psu_pages::Pages;
use std::alloc::Allocator;
use std::marker::Model;

/// A map on a disk: each possible crash image of the disk represents the map, and the disk has confirmed that what was
/// written last is found again (`Disk::confirm`). Contracts see a `MapOn`.
#[derive(Drop)]
pub struct Store<D: Disk, A: Allocator + Copy> {
    pub(crate) pages: Pages<D, A>,
    pub(crate) items: Items<A>,
}

impl<D: Disk, A: Allocator + Copy> Model for Store<D, A> {
    ghost use Rattle.psu_items.specs.Standing.{MapOn, KeepsMap, on_pages};

    ghost Value = { MapOn D };

    ghost view = { λ s. on_pages s.pages s.items };

    ghost invariant = { λ s. KeepsMap s.pages s.items };
}

impl<D: Disk, A: Allocator + Copy> Store<D, A> {
    /// The map.
    pub fn items(&self) -> &Items<A>
        ensures value { result.now ≡ self.now.items }
        ensures represents { D.honest → EachRepresents (D.state self.now.disk) self.now.limit self.now.items }
    {
        &self.items
    }

    /// The limit: how many pages the map may take.
    pub fn limit(&self) -> u16
        ensures value { result ≡ self.now.limit }
        ensures least { 4 ≤ result }
        ensures most { result ≤ 480 }
    {
        self.pages.limit()
    }

    /// The number of the current root. Each commit increases it by 1.
    pub fn number(&self) -> u64
        ensures value { result ≡ self.now.number }
        ensures represents { D.honest → (image : List ℕ) → IsCrashImage (D.state self.now.disk) image → number_in (current_root image) image ≡ result }
    {
        self.pages.number()
    }

    /// The version of the current root: 1, or 2, which each commit writes.
    pub fn version(&self) -> u16
        ensures value { result ≡ self.now.version }
        ensures represents { D.honest → (image : List ℕ) → IsCrashImage (D.state self.now.disk) image → version_in (current_root image) image ≡ result }
    {
        self.pages.version()
    }

    /// Returns the disk, with the map on it.
    pub fn into_disk(self) -> D
        ensures value { result ≡ self.disk }
        ensures represents { D.honest → EachRepresents (D.state result) self.limit self.items }
        ensures number { D.honest → (image : List ℕ) → IsCrashImage (D.state result) image → number_in (current_root image) image ≡ self.number }
        ensures confirmed { D.confirmed result }
    {
        self.pages.into_disk()
    }
}

//! Items in the pages of a disk.
ghost use Rattle.std.specs.Prelude.{◌≡◌, ◌≢◌, ◌+◌, ◌*◌, ◌≤◌, ◌<◌, ◌^◌, [], List, ℕ, false, length, IfOk, OnOk, IfErr};
ghost use Rattle.std.specs.List.{AllByRecursion};
ghost use Rattle.psu_disk.specs.Disk.{IsCrashImage};
ghost use Rattle.psu_pages.specs.Free.{is_free, AreClaimed, IsRoster};
ghost use Rattle.psu_pages.specs.Image.{other, taken, current_root, number_in, version_in, head_at};
ghost use Rattle.psu_pages.specs.Shown.{items_in, EachEncodes, EachShut, EachLower};
ghost use Rattle.psu_pages.specs.Single.{AreClaimed-IsProp, IsRoster-IsProp, Encodes-IsProp};
ghost use Rattle.std.proofs.Props.{props};
ghost use Rattle.psu_pages.specs.declared.root.Root.TheVariants.{First};
ghost use Rattle.psu_pages.specs.declared.standing.Standing.TheVariants.{One, Both, Unsure};

use crate::{FreeMap, Head, Root, Standing};
use psu_disk::Disk;
use std::alloc::Allocator;

/// Items in the pages of a disk. While the state of its gates is known, each possible crash image of the disk shows the
/// items of the heads, and none of their pages is free.
#[derive(Drop)]
pub struct Pages<D: Disk, A: Allocator + Copy> {
    pub(crate) disk: D,
    pub(crate) root: Root,
    pub(crate) version: u16,
    pub(crate) limit: u16,
    pub(crate) number: u64,
    pub(crate) standing: Standing,
    pub(crate) heads: Vec<Head<A>, A>,
    pub(crate) older: Vec<Head<A>, A>,
    pub(crate) free: FreeMap<A>,
    ghost limit_least: { 4 ≤ limit },
    ghost limit_most: { limit ≤ 480 },
    ghost room: { 512 * (2 + 2 * limit) ≤ D.extent disk },
    ghost sized: { length free ≡ 2 + 2 * limit },
    ghost first_kept: { is_free free 0 ≡ false },
    ghost second_kept: { is_free free 1 ≡ false },
    ghost roster: { IsRoster limit heads.items } by { IsRoster-IsProp limit heads.items },
    ghost claimed: { AreClaimed free (taken heads.items) } by { AreClaimed-IsProp free (taken heads.items) },
    ghost older_roster: { IsRoster limit older.items } by { IsRoster-IsProp limit older.items },
    ghost older_claimed: { AreClaimed free (taken older.items) } by { AreClaimed-IsProp free (taken older.items) },
    ghost none_older: { standing ≡ One → older.items ≡ [] },
    ghost encodes: { D.honest → standing ≢ Unsure
        → EachEncodes (D.state disk) root version limit number heads.items (items_in root (D.state disk).bytes) } by { Prim.hlevel (props, Encodes-IsProp) },
    ghost shut: { D.honest → standing ≡ One → EachShut (D.state disk) (other root) },
    ghost lower: { D.honest → standing ≡ Both → EachLower (D.state disk) (other root) number },
}

impl<D: Disk, A: Allocator + Copy> Pages<D, A> {
    ghost use Rattle.psu_pages.specs.Outcome.{EncodesPages};

    /// The heads of the current root, in the order in which it names them.
    pub fn heads(&self) -> &[Head<A>]
        ensures value { result.now ≡ self.now.heads.items }
        ensures roster { IsRoster self.now.limit result.now }
        ensures claimed { AreClaimed self.now.free (taken result.now) }
        ensures there { D.honest → self.now.standing ≢ Unsure → AllByRecursion (λ head. head_at (D.state self.now.disk).bytes head.at ≡ head) result.now }
        ensures encodes { D.honest → self.now.standing ≢ Unsure
            → (image : List ℕ) → IsCrashImage (D.state self.now.disk) image → EncodesPages self.now image }
    {
        &self.heads
    }

    /// The maximum number of pages that the items may take.
    pub fn limit(&self) -> u16
        ensures value { result ≡ self.now.limit }
        ensures least { 4 ≤ result }
        ensures most { result ≤ 480 }
        ensures room { 512 * (2 + 2 * result) ≤ D.extent self.now.disk }
    {
        self.limit
    }

    /// The number of the current root, which rises by 1 with each root that is published.
    pub fn number(&self) -> u64
        ensures value { result ≡ self.now.number }
        ensures represents { D.honest → self.now.standing ≢ Unsure → (image : List ℕ)
            → IsCrashImage (D.state self.now.disk) image → number_in (current_root image) image ≡ result }
    {
        self.number
    }

    /// The version of the current root: 1 or 2.
    pub fn version(&self) -> u16
        ensures value { result ≡ self.now.version }
        ensures represents { D.honest → self.now.standing ≢ Unsure → (image : List ℕ)
            → IsCrashImage (D.state self.now.disk) image → version_in (current_root image) image ≡ result }
    {
        self.version
    }

    /// The state of the gates.
    pub fn standing(&self) -> Standing
        ensures { result ≡ self.now.standing }
    {
        self.standing
    }

    /// Returns the disk, with the items on it.
    pub fn into_disk(self) -> D
        ensures value { result ≡ self.disk }
        ensures encodes { D.honest → self.standing ≢ Unsure
            → (image : List ℕ) → IsCrashImage (D.state result) image → EncodesPages self image }
    {
        self.disk
    }
}

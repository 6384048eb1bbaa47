//! The choice of the current root, and its contents.
ghost use Rattle.std.specs.Prelude.{◌≡◌, ◌≢◌, ◌+◌, ◌*◌, ◌≤◌, List, ℕ, true, false, length, IfOk, IfErr, OnOk, ⊤};
ghost use Rattle.psu_disk.specs.Disk.{IsCrashImage, Only};
ghost use Rattle.psu_disk.specs.Steps.{DiskStep, LeavesImages};
ghost use Rattle.psu_pages.specs.declared.standing.Standing.TheVariants.{One, Both, Unsure};
ghost use Rattle.psu_pages.specs.Finding.{AreRoots, IsChosen, IsRefusal, page_of};

use crate::gates::make_sure;
use crate::pick::pick;
use crate::reading::read_page;
use crate::words::{check, open_number, words_on};
use crate::{BadImage, PAGE_SIZE, Root, Standing};
use psu_disk::{Disk, DiskFault};

/// The pages of the two roots.
#[derive(Drop)]
pub(crate) struct Roots {
    pub first: [u8; PAGE_SIZE],
    pub second: [u8; PAGE_SIZE],
}

impl Roots {
    /// Returns the page of a root.
    pub(crate) fn page(&self, root: Root) -> &[u8]
        ensures whole { length result.now ≡ 512 }
        ensures value { (image : List ℕ) → AreRoots self.now image → result.now ≡ page_of root image }
    {
        match root {
            Root::First => &self.first,
            Root::Second => &self.second,
        }
    }
}

/// The current root, its version and number, whether the other gate is open too, the limit and the number of items.
#[derive(Clone, Copy, Debug, Drop)]
pub(crate) struct Chosen {
    pub root: Root,
    pub version: u16,
    pub number: u64,
    pub both: bool,
    pub limit: u16,
    pub count: u16,
}

impl Chosen {
    /// Returns the state of the gates.
    pub(crate) fn standing(&self) -> Standing
        ensures one { result ≡ One → self.now.both ≡ false }
        ensures both { result ≡ Both → self.now.both ≡ true }
        ensures sure { result ≢ Unsure }
    {
        if self.both {
            Standing::Both
        } else {
            Standing::One
        }
    }
}

/// Syncs the disk, so that what it reads as is durable, and reads its two roots.
pub(crate) fn read_roots<D: Disk>(disk: &mut D) -> Result<Roots, DiskFault>
    requires { 1024 ≤ D.extent disk.old }
    ensures step { DiskStep D.Disk disk.old disk.new result (λ fault. ⊤) }
    ensures found { D.honest → IfOk result (λ roots. AreRoots roots (D.state disk.old).bytes) }
    ensures synced { D.honest → OnOk result (Only (D.state disk.new)) }
    ensures seen { D.honest → (D.state disk.new).bytes ≡ (D.state disk.old).bytes }
    ensures left { LeavesImages D.Disk disk.old disk.new (IsCrashImage (D.state disk.old)) }
{
    let mut roots = Roots {
        first: [0; PAGE_SIZE],
        second: [0; PAGE_SIZE],
    };
    make_sure(disk)?;
    read_page(disk, 0, &mut roots.first)?;
    read_page(disk, 1, &mut roots.second)?;
    Ok(roots)
}

/// Returns the current root on a disk of this size, or why there is none.
pub(crate) fn choose(roots: &Roots, size: u64) -> Result<Chosen, BadImage>
    ensures limit { IfOk result (λ chosen. (4 ≤ chosen.limit) × (chosen.limit ≤ 480) × (512 * (2 + 2 * chosen.limit) ≤ size) × (chosen.count ≤ 240)) }
    ensures chosen { (image : List ℕ) → AreRoots roots.now image → length image ≡ size → IfOk result (IsChosen image) }
    ensures refused { (image : List ℕ) → AreRoots roots.now image → length image ≡ size → IfErr result (IsRefusal image) }
{
    let picked = match pick(open_number(&roots.first), open_number(&roots.second)) {
        Ok(picked) => picked,
        Err(bad) => return Err(bad),
    };
    let words = words_on(roots.page(picked.root));
    if let Err(bad) = check(&words, size) {
        return Err(bad);
    }
    Ok(Chosen {
        root: picked.root,
        version: words.version,
        number: picked.number,
        both: picked.both,
        limit: words.limit,
        count: words.count,
    })
}

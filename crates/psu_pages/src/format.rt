//! Formatting a disk.
ghost use Rattle.std.specs.Prelude.{◌≡◌, ◌+◌, ◌*◌, ◌≤◌, [], ◌∷◌, ℕ, length, OnOk, IfOk, IfErr, ⊤};
ghost use Rattle.psu_disk.specs.Steps.{DiskStep};
ghost use Rattle.psu_pages.specs.Finding.{page_of};
ghost use Rattle.psu_pages.specs.Image.{gate};
ghost use Rattle.psu_pages.specs.Spelling.{AreRootContents, open_root};
ghost use Rattle.psu_pages.specs.Shown.{items_in, EachEncodes, EachShut};
ghost use Rattle.psu_pages.specs.declared.faults.FormatCause.TheVariants.{Device as NotWritten, Memory as NoMemory};
ghost use Rattle.psu_pages.specs.declared.root.Root.TheVariants.{First, Second};
ghost use Rattle.psu_pages.specs.declared.standing.Standing.TheVariants.{One};

use crate::gates::{GATE_CLOSED, GATE_OPEN, set_gate, write_contents};
use crate::page::Page;
use crate::pool::pool;
use crate::root_page::spell_root;
use crate::version::VERSION;
use crate::{FormatCause, FormatFault, Pages, Root, Standing};
use psu_disk::{Disk, DiskFault};
use std::alloc::{AllocError, Allocator};

impl<D: Disk, A: Allocator + Copy> Pages<D, A> {
    ghost use Rattle.psu_pages.specs.Outcome.{formatted_disk, IsFresh};

    /// Formats a disk, whatever it held, so that it has no items. The limit is 4 to 480, and the disk has at least 512
    /// bytes for each of the pages: the two roots, and twice the limit. All memory is allocated before the first call
    /// of the disk. In the end the disk confirms that what was written is found again (`Disk::confirm`).
    pub fn format(alloc: A, disk: D, limit: u16) -> Result<Pages<D, A>, FormatFault<D>>
        requires limit_least { 4 ≤ limit }
        requires limit_most { limit ≤ 480 }
        requires room { 512 * (2 + 2 * limit) ≤ D.extent disk }
        ensures fresh { IfOk result (IsFresh limit) }
        ensures spelled { D.honest → IfOk result (λ pages. page_of First (D.state pages.disk).bytes ≡ open_root limit 1 []) }
        ensures zero { D.honest → IfOk result (λ pages. gate Second (D.state pages.disk).bytes ≡ 0) }
        ensures empty { D.honest → IfOk result (λ pages. items_in pages.root (D.state pages.disk).bytes ≡ []) }
        ensures confirmed { IfOk result (λ pages. D.confirmed pages.disk) }
        ensures step { DiskStep D.Disk disk (formatted_disk result) result (λ e. e.cause ≡ NotWritten) }
        ensures no_call { IfErr result (λ e. e.cause ≡ NoMemory → e.disk ≡ disk) }
    {
        let mut pages = Pages::laid_out(alloc, disk, limit)?;
        match pages.confirm() {
            Ok(()) => Ok(pages),
            Err(_) => Err(FormatFault {
                cause: FormatCause::Device,
                disk: pages.into_disk(),
            }),
        }
    }

    // Formats a disk, as `format` does.
    fn laid_out(alloc: A, mut disk: D, limit: u16) -> Result<Pages<D, A>, FormatFault<D>>
        requires limit_least { 4 ≤ limit }
        requires limit_most { limit ≤ 480 }
        requires room { 512 * (2 + 2 * limit) ≤ D.extent disk }
        ensures fresh { IfOk result (IsFresh limit) }
        ensures spelled { D.honest → IfOk result (λ pages. page_of First (D.state pages.disk).bytes ≡ open_root limit 1 []) }
        ensures zero { D.honest → IfOk result (λ pages. gate Second (D.state pages.disk).bytes ≡ 0) }
        ensures empty { D.honest → IfOk result (λ pages. items_in pages.root (D.state pages.disk).bytes ≡ []) }
        ensures step { DiskStep D.Disk disk (formatted_disk result) result (λ e. e.cause ≡ NotWritten) }
        ensures no_call { IfErr result (λ e. e.cause ≡ NoMemory → e.disk ≡ disk) }
    {
        let Ok(free) = pool(alloc, limit) else {
            return Err(FormatFault {
                cause: FormatCause::Memory,
                disk,
            });
        };
        let heads = Vec::new(alloc);
        let mut page = Page::new();
        spell_root(&mut page, limit, 1, &heads);
        match lay_out(&mut disk, page.after_gate()) {
            Ok(()) => Ok(Pages {
                disk,
                root: Root::First,
                version: VERSION,
                limit,
                number: 1,
                standing: Standing::One,
                heads,
                older: Vec::new(alloc),
                free,
            }),
            Err(DiskFault) => Err(FormatFault {
                cause: FormatCause::Device,
                disk,
            }),
        }
    }
}

// Makes the first root the only open one, with these bytes after its gate.
fn lay_out<D: Disk>(disk: &mut D, contents: &[u8]) -> Result<(), DiskFault>
    requires roots { 1024 ≤ D.extent disk.old }
    requires contents { length contents.now ≡ 511 }
    ensures step { DiskStep D.Disk disk.old disk.new result (λ fault. ⊤) }
    ensures spelled { D.honest → OnOk result (page_of First (D.state disk.new).bytes ≡ 165 ∷ contents.now) }
    ensures zero { D.honest → OnOk result (gate Second (D.state disk.new).bytes ≡ 0) }
    ensures encoded { D.honest → (limit number : ℕ)
        → AreRootContents limit number [] contents.now (D.state disk.old).bytes → 4 ≤ limit → limit ≤ 480
        → 512 * (2 + 2 * limit) ≤ D.extent disk.old
        → OnOk result (EachEncodes (D.state disk.new) First 2 limit number [] []) }
    ensures shut { D.honest → OnOk result (EachShut (D.state disk.new) Second) }
{
    set_gate(disk, Root::First, GATE_CLOSED)?;
    set_gate(disk, Root::Second, GATE_CLOSED)?;
    write_contents(disk, Root::First, contents)?;
    set_gate(disk, Root::First, GATE_OPEN)?;
    Ok(())
}

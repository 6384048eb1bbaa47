//! The switch from the current root to the next one.
ghost use Rattle.std.specs.Prelude.{◌≡◌, ◌+◌, ◌≤◌, ◌∷◌, List, ℕ, length, map, OnOk, ⊤};
ghost use Rattle.psu_disk.specs.Disk.{IsCrashImage, SameBut};
ghost use Rattle.psu_disk.specs.Steps.{DiskStep, LeavesImages};
ghost use Rattle.psu_pages.specs.Finding.{page_of};
ghost use Rattle.psu_pages.specs.Image.{Head, gate_at, other};
ghost use Rattle.psu_pages.specs.Shown.{Item, item_in, EachEncodes, EachLower, EncodesEither};
ghost use Rattle.psu_pages.specs.Spelling.{IsReady};
ghost use Rattle.psu_pages.specs.Writing.{Reaches};

use crate::Root;
use crate::gates::{GATE_OPEN, set_gate, write_contents};
use psu_disk::{Disk, DiskFault};

/// Makes the next root the current one, in the place of the other. Its contents are made durable before its gate opens.
pub(crate) fn switch<D: Disk>(disk: &mut D, next: Root, contents: &[u8]) -> Result<(), DiskFault>
    requires roots { 1024 ≤ D.extent disk.old }
    requires contents { length contents.now ≡ 511 }
    ensures step { DiskStep D.Disk disk.old disk.new result (λ fault. ⊤) }

    ensures spelled { D.honest → OnOk result (page_of next (D.state disk.new).bytes ≡ 165 ∷ contents.now) }
    ensures encoded { D.honest → (version limit number : ℕ) (before heads : List Head) (items : List Item)
        → IsReady (D.state disk.old) next version limit number before heads items contents.now
        → OnOk result (EachEncodes (D.state disk.new) next 2 limit (number + 1) heads (map (item_in (D.state disk.old).bytes) heads)) }
    ensures lower { D.honest → (version limit number : ℕ) (before heads : List Head) (items : List Item)
        → IsReady (D.state disk.old) next version limit number before heads items contents.now
        → OnOk result (EachLower (D.state disk.new) (other next) (number + 1)) }
    ensures left { (version limit number : ℕ) (before heads : List Head) (items : List Item)
        → IsReady (D.state disk.old) next version limit number before heads items contents.now
        → LeavesImages D.Disk disk.old disk.new
        (EncodesEither next version limit number before items heads
        (map (item_in (D.state disk.old).bytes) heads)) }

    // No other page is written.
    ensures touched { LeavesImages D.Disk disk.old disk.new (Reaches (SameBut (gate_at next) 512) (IsCrashImage (D.state disk.old))) }
{
    write_contents(disk, next, contents)?;
    set_gate(disk, next, GATE_OPEN)?;
    Ok(())
}

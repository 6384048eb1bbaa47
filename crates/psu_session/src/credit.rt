//! How much a session holds of what it has received and not executed.
ghost use Rattle.std.specs.Prelude.{◌≡◌, ◌+◌, ◌-◌, ◌≤◌, ◌<◌, ◌↔◌, IsTrue, IfErr, OnOk};
ghost use Rattle.psu_session.specs.Credit.{cost};
ghost use Rattle.psu_session.specs.declared.phase.EndCause.TheVariants.{TooMuchHeld};

use crate::EndCause;
use crate::limits::{HELD_BEFORE_WAIT, HELD_MOST, ITEM_COST};

/// How much is held, in bytes.
#[derive(Drop)]
pub(crate) struct Credit {
    out: usize,
    pub ghost bounded: { out ≤ 4194304 },
}

impl Credit {
    /// Returns a credit of which nothing is held.
    pub fn new() -> Credit
        ensures { result.out ≡ 0 }
    {
        Credit { out: 0 }
    }

    /// Whether a reader waits before it reads more.
    pub fn is_exceeded(&self) -> bool
        ensures { IsTrue result ↔ (1048576 < self.now.out) }
    {
        HELD_BEFORE_WAIT < self.out
    }

    /// Counts an item of so many bytes, if it fits.
    pub fn take(&mut self, bytes: usize) -> Result<(), EndCause>
        ensures taken { OnOk result (self.new.out ≡ self.old.out + cost bytes) }
        ensures refused { IfErr result (λ cause. (cause ≡ TooMuchHeld) × (4194304 < self.old.out + cost bytes) × (self.new ≡ self.old)) }
    {
        let size = bytes.saturating_add(ITEM_COST);
        if size > HELD_MOST - self.out {
            return Err(EndCause::TooMuchHeld);
        }
        self.out += size;
        Ok(())
    }

    /// Counts an item of so many bytes no longer.
    pub fn give_back(&mut self, bytes: usize)
        ensures { self.new.out ≡ self.old.out - cost bytes }
    {
        self.out = self.out.saturating_sub(bytes.saturating_add(ITEM_COST));
    }
}

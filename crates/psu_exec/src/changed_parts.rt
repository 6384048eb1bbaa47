//! The parts of the nonvolatile contents that may have changed.
use psu_nv::{NvCommand, Part, REGISTERS, Register};
use std::marker::Model;

/// The set of parts of the nonvolatile contents that may differ from the map that the store holds, or from the target
/// of its job. Each register is a part; all files together are one. Contracts see a `Parts`.
#[derive(Drop)]
pub struct ChangedParts {
    enables: bool,
    registers: [bool; REGISTERS],
    // No register from this number on is in the set; 0 if no register is.
    registers_end: usize,
    user: bool,
    macros: bool,
    files: bool,
    recall: bool,
}

impl Model for ChangedParts {
    ghost use Rattle.std.specs.Prelude.{◌≡◌, ◌<◌, ◌≤◌, ℕ, false, nat_lt, slice_index_or, true};
    ghost use Rattle.psu_exec.specs.Changed.{Parts};

    ghost Value = { Parts };

    ghost view = { λ p. record { enables = p.enables; registers = p.registers; some_register = nat_lt 0 p.registers_end; user = p.user; macros = p.macros; files = p.files; recall = p.recall } };

    ghost invariant = { λ p. (p.registers_end ≤ 100) × ((k : ℕ) → p.registers_end ≤ k → k < 100 → slice_index_or p.registers k true ≡ false) };
}

impl ChangedParts {
    ghost use Rattle.std.specs.Prelude.{◌≡◌, ◌<◌, ◌≤◌, ℕ, true, false, IsTrue};
    ghost use Rattle.psu_nv.specs.Parts.{Part as Kept, Register as KeptRegister};
    ghost use Rattle.psu_nv.specs.Views.{command_of, part_of};
    ghost use Rattle.psu_exec.specs.Changed.{IsUnchanged, is_changed, with_change, with_register};

    /// The empty set.
    pub fn none() -> ChangedParts
        ensures { (part : Kept) → is_changed result part ≡ false }
    {
        ChangedParts {
            enables: false,
            registers: [false; REGISTERS],
            registers_end: 0,
            user: false,
            macros: false,
            files: false,
            recall: false,
        }
    }

    /// The set of all parts.
    pub fn all() -> ChangedParts
        ensures { (part : Kept) → is_changed result part ≡ true }
    {
        ChangedParts {
            enables: true,
            registers: [true; REGISTERS],
            registers_end: REGISTERS,
            user: true,
            macros: true,
            files: true,
            recall: true,
        }
    }

    /// Whether a part is in the set.
    pub fn has(&self, part: Part<'_>) -> bool
        ensures { result ≡ is_changed self.now (part_of part.entry) }
    {
        match part {
            Part::Enables => self.enables,
            Part::Register(register) => {
                self.registers_end > 0 && self.registers[usize::from(register.number())]
            }
            Part::User => self.user,
            Part::Macros => self.macros,
            Part::File(_) => self.files,
            Part::Recall => self.recall,
        }
    }

    /// Whether the part of a key may be in the set.
    #[inline]
    pub fn has_key(&self, key: &[u8]) -> bool
        ensures { result ≡ false → IsUnchanged self.now key.now }
    {
        match Part::of_key(key) {
            Some(part) => self.has(part),
            None => true,
        }
    }

    /// The number of the first register in the set from this one on; 100 if there is none.
    #[inline]
    pub fn next_register(&self, from: usize) -> usize
        ensures most { result ≤ 100 }
        ensures first { from ≤ 100 → from ≤ result }
        ensures none { (number : ℕ) → from ≤ number → number < result → is_changed self.now (KeptRegister number) ≡ false }
    {
        for number in from..self.registers_end {
            if self.registers[number] {
                return number;
            }
        }
        REGISTERS
    }

    /// Whether no part but registers is in the set.
    pub(crate) fn are_registers(&self) -> bool
        ensures { IsTrue result → (self.now.enables ≡ false) × (self.now.user ≡ false) × (self.now.macros ≡ false)
            × (self.now.files ≡ false) × (self.now.recall ≡ false) }
    {
        !self.enables && !self.user && !self.macros && !self.files && !self.recall
    }

    /// Whether the files are in the set.
    pub fn has_files(&self) -> bool
        ensures { result ≡ self.now.files }
    {
        self.files
    }

    /// Adds the part that a change modifies.
    pub fn add(&mut self, change: &NvCommand<'_>)
        ensures { self.new ≡ with_change self.old (command_of change.now) }
    {
        match change {
            NvCommand::ServiceEnable(_) | NvCommand::EventEnable(_) | NvCommand::PowerOnClear(_) =>
                {
                    self.enables = true;
                }
            NvCommand::Save(register, _) | NvCommand::LoadState(register, _) => {
                self.add_register(*register);
            }
            NvCommand::User(_) => self.user = true,
            NvCommand::DefineMacro(_, _)
            | NvCommand::RemoveMacro(_)
            | NvCommand::PurgeMacros
            | NvCommand::LoadMacro(_, _) => self.macros = true,
            NvCommand::StoreBytes(_, _)
            | NvCommand::Delete(_)
            | NvCommand::Copy(_, _)
            | NvCommand::Move(_, _)
            | NvCommand::StoreState(_, _)
            | NvCommand::StoreMacro(_, _) => self.files = true,
            NvCommand::Recall(_) => self.recall = true,
        }
    }

    fn add_register(&mut self, register: Register)
        ensures { self.new ≡ with_register self.old register.number }
    {
        let number = usize::from(register.number());
        self.registers[number] = true;
        self.registers_end = self.registers_end.max(number + 1);
    }
}

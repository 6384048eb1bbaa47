//! Changes of the contents by nonvolatile commands.
ghost use Rattle.std.specs.Prelude.{◌≡◌, ◌⊎◌, ◌≤◌, Some, None, true, false, length, IfErr, OnOk, OnErr};
ghost use Rattle.psu_lex.specs.declared.scpi_error.ScpiError.TheVariants.{MediaFull, OutOfMemory};
ghost use Rattle.psu_nv.specs.Commands.{answer, apply, refused, takes_memory};
ghost use Rattle.psu_nv.specs.Contents.{IsContents, fits};
ghost use Rattle.psu_nv.specs.Views.{command_of};

use crate::{Contents, NvCommand};
use psu_lex::ScpiError;
use std::alloc::{AllocError, Allocator};

impl<A: Allocator + Copy> Contents<A> {
    /// Makes a nonvolatile command's change if its result fits the limit. The errors in their order: those of names and
    /// labels and of what they refer to; -254 if the result does not fit; -225 if an allocation fails for a command
    /// that defines a macro or makes a file. After each error nothing has changed.
    pub fn change(&mut self, limit: u16, command: &NvCommand) -> Result<(), ScpiError>
        ensures sound { OnOk result (IsContents self.new) }
        ensures ok { OnOk result ((answer limit self.old (command_of command.now) ≡ None) × (self.new ≡ apply self.old (command_of command.now))) }
        ensures refused { IfErr result (λ e. (answer limit self.old (command_of command.now) ≡ Some e)
            ⊎ ((answer limit self.old (command_of command.now) ≡ None) × (e ≡ OutOfMemory))) }
        ensures memory { IfErr result (λ e. e ≡ OutOfMemory → takes_memory (command_of command.now) ≡ true) }
        ensures err { OnErr result (self.new ≡ self.old) }
    {
        match self.refusal(command) {
            Some(error) => Err(error),
            None => self.change_if_it_fits(limit, command),
        }
    }

    /// Makes the change of a command that its names and labels, and what they refer to, do not refuse, for a caller
    /// that has checked this. The errors: -254 if the result does not fit the limit; -225 if an allocation fails for a
    /// command that defines a macro or makes a file. After each error nothing has changed.
    pub fn change_if_it_fits(&mut self, limit: u16, command: &NvCommand) -> Result<(), ScpiError>
        requires found { refused self.old (command_of command.now) ≡ None }
        ensures sound { OnOk result (IsContents self.new) }
        ensures ok { OnOk result ((fits limit (apply self.old (command_of command.now)) ≡ true) × (self.new ≡ apply self.old (command_of command.now))) }
        ensures full { IfErr result (λ e. ((e ≡ OutOfMemory)
            × (fits limit (apply self.old (command_of command.now)) ≡ true))
            ⊎ ((e ≡ MediaFull) × (fits limit (apply self.old (command_of command.now)) ≡ false))) }
        ensures memory { IfErr result (λ e. e ≡ OutOfMemory → takes_memory (command_of command.now) ≡ true) }
        ensures err { OnErr result (self.new ≡ self.old) }
    {
        if !self.fits_after(limit, command) {
            return Err(ScpiError::MediaFull);
        }
        match self.make(command) {
            Ok(()) => {
                // A field is named, so that the proof has the invariant of the contents.
                let _ = &self.alloc;
                Ok(())
            }
            Err(_) => Err(ScpiError::OutOfMemory),
        }
    }

    // Makes the change of a command that is not refused.
    #[tactic(auto, unfolding(crate::specs::Commands::apply))]
    fn make(&mut self, command: &NvCommand) -> Result<(), AllocError>
        requires found { refused self.old (command_of command.now) ≡ None }
        requires room { length (apply self.old (command_of command.now)).macros ≤ 32 }
        ensures ok { OnOk result (self.new ≡ apply self.old (command_of command.now)) }
        ensures memory { OnErr result (takes_memory (command_of command.now) ≡ true) }
        ensures err { OnErr result (self.new ≡ self.old) }
    {
        match command {
            NvCommand::ServiceEnable(bits) => self.set_service(*bits),
            NvCommand::EventEnable(bits) => self.set_event(*bits),
            NvCommand::PowerOnClear(enables) => self.set_enables(*enables),
            NvCommand::Save(register, settings) => self.set_register(*register, *settings),
            NvCommand::User(user) => self.set_user(user),
            NvCommand::RemoveMacro(label) => self.remove_macro(label),
            NvCommand::PurgeMacros => self.purge(),
            NvCommand::Recall(on) => self.set_recall(*on),
            NvCommand::Delete(name) => self.drop_file(name),
            NvCommand::LoadState(register, name) => self.load_state(*register, name),
            NvCommand::DefineMacro(label, body) => return self.define(label, body),
            NvCommand::StoreBytes(name, file) => return self.store_bytes(name, file.bytes()),
            NvCommand::Copy(from, to) => return self.copy_file(from, to),
            NvCommand::Move(from, to) => return self.move_file(from, to),
            NvCommand::StoreState(register, name) => return self.store_state(*register, name),
            NvCommand::StoreMacro(label, name) => return self.store_macro(label, name),
            NvCommand::LoadMacro(label, name) => return self.load_macro(label, name),
        }
        Ok(())
    }
}

//! The refusals of a nonvolatile command by its names and labels, before its result is computed.
ghost use Rattle.std.specs.Prelude.{◌≡◌, ℕ, ◌∷◌, [], not};
ghost use Rattle.psu_lex.specs.declared.scpi_error.ScpiError.TheVariants.{FileNameError};
ghost use Rattle.psu_lex.specs.Names.{is_name};
ghost use Rattle.psu_nv.specs.Commands.{DefineMacro, RemoveMacro, Delete, Copy, LoadState, StoreMacro, LoadMacro, first_of, refused};
ghost use Rattle.psu_nv.specs.Views.{command_of};

use crate::file::is_state;
use crate::limits::BODY_MOST;
use crate::{Contents, NvCommand};
use psu_lex::{ScpiError, is_label, is_name};
use std::alloc::Allocator;

impl<A: Allocator + Copy> Contents<A> {
    /// Why a command is refused for its names and labels, or for what they refer to, before its result is computed;
    /// `None` if it is not.
    pub fn refusal(&self, command: &NvCommand) -> Option<ScpiError>
        ensures { result ≡ refused self.now (command_of command.now) }
    {
        match command {
            NvCommand::ServiceEnable(_)
            | NvCommand::EventEnable(_)
            | NvCommand::PowerOnClear(_)
            | NvCommand::Save(_, _)
            | NvCommand::User(_)
            | NvCommand::PurgeMacros
            | NvCommand::Recall(_) => None,
            NvCommand::DefineMacro(label, body) => self.define_refusal(label, body),
            NvCommand::RemoveMacro(label) => self.remove_refusal(label),
            NvCommand::StoreBytes(name, _) | NvCommand::StoreState(_, name) => name_refusal(name),
            NvCommand::Delete(name) => self.delete_refusal(name),
            NvCommand::Copy(from, to) | NvCommand::Move(from, to) => self.copy_refusal(from, to),
            NvCommand::LoadState(_, name) => self.state_refusal(name),
            NvCommand::StoreMacro(label, name) => self.store_refusal(label, name),
            NvCommand::LoadMacro(label, name) => self.load_refusal(label, name),
        }
    }
}

// The refusal for a name that is not a file name; `None` for a file name.
fn name_refusal(name: &[u8]) -> Option<ScpiError>
    ensures { result ≡ first_of ((not (is_name name.now), FileNameError) ∷ []) }
{
    if !is_name(name) {
        return Some(ScpiError::FileNameError);
    }
    None
}

impl<A: Allocator + Copy> Contents<A> {
    fn define_refusal(&self, label: &[u8], body: &[u8]) -> Option<ScpiError>
        ensures { result ≡ refused self.now (DefineMacro label.now body.now) }
    {
        if !is_label(label) {
            return Some(ScpiError::IllegalMacroLabel);
        }
        if body.len() > BODY_MOST {
            return Some(ScpiError::MacroDefinitionTooLong);
        }
        if self.has_label(label) {
            return Some(ScpiError::MacroRedefinitionNotAllowed);
        }
        None
    }

    fn remove_refusal(&self, label: &[u8]) -> Option<ScpiError>
        ensures { result ≡ refused self.now (RemoveMacro label.now) }
    {
        if !self.has_label(label) {
            return Some(ScpiError::MacroHeaderNotFound);
        }
        None
    }

    fn delete_refusal(&self, name: &[u8]) -> Option<ScpiError>
        ensures { result ≡ refused self.now (Delete name.now) }
    {
        if !is_name(name) {
            return Some(ScpiError::FileNameError);
        }
        if !self.has_file(name) {
            return Some(ScpiError::FileNameNotFound);
        }
        None
    }

    fn copy_refusal(&self, from: &[u8], to: &[u8]) -> Option<ScpiError>
        ensures { result ≡ refused self.now (Copy from.now to.now) }
    {
        if !is_name(from) || !is_name(to) {
            return Some(ScpiError::FileNameError);
        }
        if !self.has_file(from) {
            return Some(ScpiError::FileNameNotFound);
        }
        if self.has_file(to) {
            return Some(ScpiError::FileNameError);
        }
        None
    }

    fn state_refusal(&self, name: &[u8]) -> Option<ScpiError>
        ensures { (register : ℕ) → result ≡ refused self.now (LoadState register name.now) }
    {
        if !is_name(name) {
            return Some(ScpiError::FileNameError);
        }
        if !self.has_file(name) {
            return Some(ScpiError::FileNameNotFound);
        }
        if !is_state(self.bytes_of(name)) {
            return Some(ScpiError::MassStorageError);
        }
        None
    }

    fn store_refusal(&self, label: &[u8], name: &[u8]) -> Option<ScpiError>
        ensures { result ≡ refused self.now (StoreMacro label.now name.now) }
    {
        if !is_name(name) {
            return Some(ScpiError::FileNameError);
        }
        if !self.has_label(label) {
            return Some(ScpiError::MacroHeaderNotFound);
        }
        None
    }

    fn load_refusal(&self, label: &[u8], name: &[u8]) -> Option<ScpiError>
        ensures { result ≡ refused self.now (LoadMacro label.now name.now) }
    {
        if !is_label(label) {
            return Some(ScpiError::IllegalMacroLabel);
        }
        if !is_name(name) {
            return Some(ScpiError::FileNameError);
        }
        if !self.has_file(name) {
            return Some(ScpiError::FileNameNotFound);
        }
        if self.has_label(label) {
            return Some(ScpiError::MacroRedefinitionNotAllowed);
        }
        if self.bytes_of(name).len() > BODY_MOST {
            return Some(ScpiError::MassStorageError);
        }
        None
    }
}

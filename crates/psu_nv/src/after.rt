//! The cost of contents after a command that its names and labels do not refuse, part by part.
ghost use Rattle.std.specs.Prelude.{◌≡◌, ◌+◌, ◌<◌, ◌≤◌, ◌^◌, None, length, slice_set};
ghost use Rattle.std.specs.List.{AllByRecursion};
ghost use Rattle.psu_settings.specs.Settings.{AreSettings};
ghost use Rattle.psu_map.specs.Map.{cost};
ghost use Rattle.psu_nv.specs.Contents.{enables_items, user_items, cost_of, fits};
ghost use Rattle.psu_nv.specs.Commands.{refused, apply};
ghost use Rattle.psu_nv.specs.Costs.{macros_cost, registers_cost};
ghost use Rattle.psu_nv.specs.Views.{command_of};

use crate::file::state_in;
use crate::limits::MACROS_MOST;
use crate::pages::{Pages, enables_pages, user_pages};
use crate::recall::recall_pages;
use crate::{Contents, NvCommand, Register};
use psu_settings::Settings;
use std::alloc::Allocator;

impl<A: Allocator + Copy> Contents<A> {
    #[tactic(auto, unfolding(crate::specs::Commands::apply))]
    fn files_after(&self, command: &NvCommand) -> u128
        requires { refused self.now (command_of command.now) ≡ None }
        ensures value { result ≡ cost (apply self.now (command_of command.now)).files }
        ensures most { result < 2 ^ 125 }
    {
        match command {
            NvCommand::Move(from, to) => self.files_moved(from, to),
            NvCommand::StoreBytes(name, file) => self.files_with(name, 1 + file.bytes().len()),
            NvCommand::Delete(name) => self.files_without(name),
            NvCommand::Copy(from, to) => self.files_with(to, self.value_of(from).len()),
            NvCommand::StoreState(register, name) => self.files_with_state(*register, name),
            NvCommand::StoreMacro(label, name) => self.files_with(
                name,
                1 + self.body_of(label).len(),
            ),
            _ => self.files.cost(),
        }
    }

    #[tactic(auto, unfolding(crate::specs::Commands::apply))]
    fn macros_after(&self, command: &NvCommand) -> u128
        requires { refused self.now (command_of command.now) ≡ None }
        ensures value { result ≡ macros_cost (apply self.now (command_of command.now)).macros }
        ensures most { result < 2 ^ 125 }
    {
        match command {
            NvCommand::DefineMacro(label, body) => self.macros_with(label.len() + body.len()),
            NvCommand::RemoveMacro(label) => self.macros_without(label),
            NvCommand::PurgeMacros => 0,
            NvCommand::LoadMacro(label, name) => {
                self.macros_with(label.len() + self.bytes_of(name).len())
            }
            _ => self.macros_now(),
        }
    }

    // The pages of the registers if the given one held these settings.
    fn registers_with(&self, register: Register, settings: Settings) -> u8
        ensures value { result ≡ registers_cost (slice_set self.now.registers register.number settings) }
        ensures are { AllByRecursion AreSettings (slice_set self.now.registers register.number settings) }
    {
        // Settings that a call returns lie within their ranges.
        let _ = settings.outputs();
        self.registers.pages_with(register, settings)
    }

    #[tactic(auto, unfolding(crate::specs::Commands::apply))]
    fn registers_after(&self, command: &NvCommand) -> u8
        requires { refused self.now (command_of command.now) ≡ None }
        ensures value { result ≡ registers_cost (apply self.now (command_of command.now)).registers }
        ensures are { AllByRecursion AreSettings (apply self.now (command_of command.now)).registers }
    {
        match command {
            NvCommand::Save(register, settings) => self.registers_with(*register, *settings),
            NvCommand::LoadState(register, name) => self.registers_with(
                *register,
                self.state_of(name),
            ),
            _ => self.registers.pages(),
        }
    }

    #[tactic(auto, unfolding(crate::specs::Commands::apply))]
    fn user_after(&self, command: &NvCommand) -> u8
        ensures { result ≡ cost (user_items (apply self.now (command_of command.now)).user) }
    {
        match command {
            NvCommand::User(user) => user_pages(user.bytes()),
            _ => user_pages(self.user.bytes()),
        }
    }

    #[tactic(auto, unfolding(crate::specs::Commands::apply))]
    fn enables_after(&self, command: &NvCommand) -> u8
        ensures { result ≡ cost (enables_items (apply self.now (command_of command.now)).enables) }
    {
        match command {
            NvCommand::PowerOnClear(enables) => enables_pages(*enables),
            _ => enables_pages(self.enables),
        }
    }

    #[tactic(auto, unfolding(crate::specs::Commands::apply))]
    fn count_after(&self, command: &NvCommand) -> usize
        requires { refused self.now (command_of command.now) ≡ None }
        ensures { result ≡ length (apply self.now (command_of command.now)).macros }
    {
        let count = self.macros.len();
        match command {
            NvCommand::PurgeMacros => 0,
            NvCommand::DefineMacro(_, _) | NvCommand::LoadMacro(_, _) => count + 1,
            NvCommand::RemoveMacro(label) => self.count_without(label),
            _ => count,
        }
    }

    // The cost of the contents after a command.
    fn cost_after(&self, command: &NvCommand) -> u128
        requires { refused self.now (command_of command.now) ≡ None }
        ensures { result ≡ cost_of (apply self.now (command_of command.now)) }
    {
        let pages = Pages {
            enables: self.enables_after(command),
            registers: self.registers_after(command),
            user: self.user_after(command),
            macros: self.macros_after(command),
            files: self.files_after(command),
            recall: self.recall_after(command),
        };
        pages.total()
    }

    // Whether the contents after a command fit the limit.
    pub(crate) fn fits_after(&self, limit: u16, command: &NvCommand) -> bool
        requires { refused self.now (command_of command.now) ≡ None }
        ensures { result ≡ fits limit (apply self.now (command_of command.now)) }
    {
        self.cost_after(command) <= limit as u128 && self.count_after(command) <= MACROS_MOST
    }

    /// The cost of the contents in pages: one for each item, and one for each started block of 512 bytes of its value.
    pub fn cost(&self) -> u128
        ensures value { result ≡ cost_of self.now }
        ensures most { result < 2 ^ 102 }
    {
        let pages = Pages {
            enables: enables_pages(self.enables),
            registers: self.registers.pages(),
            user: user_pages(self.user.bytes()),
            macros: self.macros_now(),
            files: self.files.cost(),
            recall: recall_pages(self.recall),
        };
        pages.total()
    }

    /// Whether the contents fit: they cost at most so many pages, and have at most 32 macros.
    pub fn fits(&self, limit: u16) -> bool
        ensures { result ≡ fits limit self.now }
    {
        self.cost() <= limit as u128 && self.macros.len() <= MACROS_MOST
    }
}

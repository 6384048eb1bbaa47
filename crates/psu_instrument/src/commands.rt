//! The execution of each command.
ghost use Rattle.std.specs.Prelude.{◌≡◌, ℕ, Bool, Ok};
ghost use Rattle.psu_nv.specs.Contents.{Contents as Kept};
ghost use Rattle.psu_instrument.specs.Commands.{action_means, meaning, query_means, register_means};
ghost use Rattle.psu_instrument.specs.Meaning.{ActsAs, situation};

use crate::common::{IDENTITY, flag_response};
use crate::files::{catalog_text, macro_moved, on_name, on_two, state_moved, stored};
use crate::macros::{labels_text, on_label, text_of};
use crate::supplies::{level_of, switch_of};
use crate::{Act, Completion, Instrument};
use psu_lex::{Bytes, ScpiError, definite, whole};
use psu_nv::{Contents, NvCommand};
use psu_tree::{Action, Command, Enable, Flag, OnRegister, Query};
use std::alloc::Allocator;

impl Instrument {
    /// Executes a command, or returns what the caller has to do for it. `limit` is the limit of the contents;
    /// `available` is whether the session has a response that it has not read.
    ///
    /// The errors are those of the command, in their order, and -225 where the response can't be allocated. After an
    /// error, nothing has changed.
    pub fn act<'c, A: Allocator + Copy>(
        &mut self,
        alloc: A,
        limit: u16,
        contents: &Contents<A>,
        available: bool,
        command: &Command<'c>,
    ) -> Result<Act<'c, A>, ScpiError>
        ensures { ActsAs (meaning (situation limit contents.now self.old available) command.now) self.old result self.new }
    {
        match command {
            Command::Action(action) => Ok(self.action(*action)),
            Command::Query(query) => self.query(alloc, limit, contents, available, *query),
            Command::OutputQuery(query, output) => { self.output_query(alloc, *query, *output) }
            Command::ClearTrip(output) => {
                self.clear_trip(*output);
                Ok(Act::Done)
            }
            Command::Enable(which, bits) => Ok(self.enable(contents, *which, *bits)),
            Command::Flag(which, on) => Ok(self.flag(*which, *on)),
            Command::Filter(group, which, bits) => {
                self.filter(*group, *which, *bits);
                Ok(Act::Done)
            }
            Command::Register(what, number) => self.register(contents, *what, *number),
            Command::Load(output, milliohms) => self.load(*output, *milliohms),
            Command::Level(which, output, n) => self.set(*output, level_of(*which, *n)),
            Command::LevelQuery(which, output, extreme) => {
                self.level_query(alloc, *which, *output, *extreme)
            }
            Command::Switch(which, output, on) => { self.set(*output, switch_of(*which, *on)) }
            Command::UserData(bytes) => self.user_data(bytes.as_slice()),
            Command::Define(label, body) => Ok(Act::Keep(NvCommand::DefineMacro(
                text_of(label),
                body.as_slice(),
            ))),
            Command::Macro(what, label) => on_label(alloc, contents, *what, label),
            Command::Contents(name, bytes) => stored(name, bytes),
            Command::File(what, name) => on_name(alloc, contents, *what, name),
            Command::Names(what, from, to) => on_two(*what, from, to),
            Command::StateFile(way, number, name) => state_moved(*way, *number, name),
            Command::MacroFile(way, label, name) => macro_moved(*way, label, name),
        }
    }

    // Commands without parameters.
    fn action<'c, A: Allocator + Copy>(&mut self, action: Action) -> Act<'c, A>
        ensures { (limit : ℕ) (contents : Kept) (available : Bool)
            → ActsAs (action_means (situation limit contents self.old available) action) self.old
            (Ok result) self.new }
    {
        match action {
            Action::ClearStatus => {
                self.clear_status();
                Act::Done
            }
            Action::Reset => {
                self.reset_all();
                Act::Done
            }
            Action::OperationComplete => Act::Complete(Completion::Event),
            Action::Wait => Act::Complete(Completion::Wait),
            Action::PurgeMacros => Act::Keep(NvCommand::PurgeMacros),
            Action::PresetStatus => {
                self.preset();
                Act::Done
            }
        }
    }

    // `*SAV`, `*RCL`.
    fn register<'c, A: Allocator + Copy>(
        &mut self,
        contents: &Contents<A>,
        what: OnRegister,
        number: u8,
    ) -> Result<Act<'c, A>, ScpiError>
        ensures { (limit : ℕ) (available : Bool) → ActsAs
            (register_means (situation limit contents.now self.old available) what number) self.old result
            self.new }
    {
        match what {
            OnRegister::Save => self.save(number),
            OnRegister::Recall => self.recall(contents, number),
        }
    }

    // Queries without parameters.
    fn query<'c, A: Allocator + Copy>(
        &mut self,
        alloc: A,
        limit: u16,
        contents: &Contents<A>,
        available: bool,
        query: Query,
    ) -> Result<Act<'c, A>, ScpiError>
        ensures { ActsAs (query_means (situation limit contents.now self.old available) query) self.old result self.new }
    {
        match query {
            Query::Identification => Ok(Act::Answer(Bytes::of(alloc, IDENTITY)?)),
            Query::SelfTest => Ok(Act::Answer(whole(alloc, 0)?)),
            Query::OperationComplete => Ok(Act::Complete(Completion::Query)),
            Query::EventStatus => self.event_status(alloc),
            Query::StatusByte => {
                Ok(Act::Answer(whole(alloc, self.status.status_byte(available) as u64)?))
            }
            Query::Enable(which) => self.enable_query(alloc, which),
            Query::Flag(which) => self.flag_query(alloc, contents, which),
            Query::UserData => Ok(Act::Answer(definite(alloc, contents.user())?)),
            Query::Labels => Ok(Act::Answer(labels_text(alloc, contents.labels())?)),
            Query::NextError => self.next_error(alloc),
            Query::ErrorCount => Ok(Act::Answer(whole(alloc, self.status.count() as u64)?)),
            Query::Version => Ok(Act::Answer(Bytes::of(alloc, b"1999.0")?)),
            Query::Event(group) => self.events(alloc, group),
            Query::Condition(group) => {
                let bits = self.status.group_condition(group);
                Ok(Act::Answer(whole(alloc, bits as u64)?))
            }
            Query::Filter(group, which) => {
                let bits = self.status.group_filter(group, which);
                Ok(Act::Answer(whole(alloc, bits as u64)?))
            }
            Query::Catalog => Ok(Act::Answer(catalog_text(alloc, limit, contents)?)),
        }
    }
}

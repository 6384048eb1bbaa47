//! Parsed commands and units, and which commands change nonvolatile memory.
ghost use Rattle.std.specs.Prelude.{◌≡◌};
ghost use Rattle.psu_tree.specs.Nonvolatile.{is_nonvolatile};

use crate::{
    Action, Enable, Extreme, Flag, Level, OnFile, OnMacro, OnNames, OnRegister, OutputQuery, Query,
    Switch, Text, Transfer,
};
use psu_lex::{Data, ScpiError};
use psu_settings::Output;
use psu_status::{Filter, Group};

/// A parsed command with its values. It borrows its texts from the message.
#[derive(Drop)]
pub enum Command<'a> {
    Action(Action),
    Query(Query),
    OutputQuery(OutputQuery, Output),
    ClearTrip(Output),
    Enable(Enable, u8),
    /// Whether the number is other than 0, or the Boolean is ON.
    Flag(Flag, bool),
    /// 0 to 32767: bit 15 is dropped.
    Filter(Group, Filter, u16),
    /// 0 to 99.
    Register(OnRegister, u8),
    /// In milliohms, 1 to 10,000,000.
    Load(Output, u32),
    /// In millivolts (0 to 60,000) or milliamperes (0 to 5,000).
    Level(Level, Output, u16),
    /// The setting, or an end of its range.
    LevelQuery(Level, Output, Option<Extreme>),
    Switch(Switch, Output, bool),
    /// At most 63 bytes.
    UserData(Text<'a>),
    /// A label, or none where the string is not a valid label; and a body.
    Define(Option<Text<'a>>, Text<'a>),
    /// A label, or none where the string is not a valid label.
    Macro(OnMacro, Option<Text<'a>>),
    /// A name, or none where the string is not a valid name; and at most 32,768 bytes.
    Contents(Option<Text<'a>>, Text<'a>),
    /// A name, or none where the string is not a valid name.
    File(OnFile, Option<Text<'a>>),
    /// Two names, each none where the string is not a valid name.
    Names(OnNames, Option<Text<'a>>, Option<Text<'a>>),
    /// A register, and a name or none.
    StateFile(Transfer, u8, Option<Text<'a>>),
    /// A label or none, then a name or none.
    MacroFile(Transfer, Option<Text<'a>>, Option<Text<'a>>),
}

/// Whether the command changes nonvolatile memory, where `flag` is the power-on status clear flag.
pub fn nonvolatile(command: &Command<'_>, flag: bool) -> bool
    ensures { result ≡ is_nonvolatile command.now flag }
{
    match command {
        Command::Enable(_, _) => !flag,
        Command::Flag(which, _) => matches!(which, Flag::PowerOnClear | Flag::Recall),
        Command::Action(action) => matches!(action, Action::PurgeMacros),
        Command::Register(what, _) => matches!(what, OnRegister::Save),
        Command::Macro(what, _) => matches!(what, OnMacro::Remove),
        Command::File(what, _) => matches!(what, OnFile::Delete),
        Command::UserData(_)
        | Command::Define(_, _)
        | Command::Contents(_, _)
        | Command::Names(_, _, _)
        | Command::StateFile(_, _, _)
        | Command::MacroFile(_, _, _) => true,
        Command::Query(_)
        | Command::OutputQuery(_, _)
        | Command::ClearTrip(_)
        | Command::Filter(_, _, _)
        | Command::Load(_, _)
        | Command::Level(_, _, _)
        | Command::LevelQuery(_, _, _)
        | Command::Switch(_, _, _) => false,
    }
}

/// A unit whose header has the form of a macro label (IEEE 488.2, 10.8).
#[derive(Drop)]
pub struct MacroCall<'a> {
    /// The header as written.
    pub label: &'a [u8],
    /// The data, each as written.
    pub args: Data<'a>,
}

/// A parsed unit.
#[derive(Drop)]
pub struct Request<'a> {
    /// The macro call that the unit is where a macro of this label is defined.
    pub call: Option<MacroCall<'a>>,
    /// The command of the unit, or its first error.
    pub reading: Result<Command<'a>, ScpiError>,
    /// Whether the unit is in an expansion.
    pub inside: bool,
}

impl<'a> Request<'a> {
    /// Returns a request of which no unit is read yet.
    pub fn unread() -> Request<'a> {
        Request {
            call: None,
            reading: Err(ScpiError::UndefinedHeader),
            inside: false,
        }
    }
}

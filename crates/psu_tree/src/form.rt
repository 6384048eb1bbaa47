//! The forms of the table's headers.
use crate::{
    Action, Enable, Flag, Level, OnFile, OnMacro, OnNames, OnRegister, OutputQuery, Query, Switch,
    Transfer,
};
use psu_status::{Filter, Group};

/// The form of a header: its parameters, by their kinds, and their use.
#[derive(Clone, Copy)]
pub enum Form {
    /// No parameter.
    Action(Action),
    /// No parameter.
    Query(Query),
    /// No parameter; applies to the header's output.
    OutputQuery(OutputQuery),
    /// No parameter; applies to the header's output.
    ClearTrip,
    /// 0 to 255.
    Enable(Enable),
    /// -32767 to 32767.
    Flag(Flag),
    /// 0 to 65535.
    Filter(Group, Filter),
    /// 0 to 99.
    Register(OnRegister),
    /// 1 to 10000000.
    Load,
    /// Volts or amperes.
    Level(Level),
    /// Optionally MIN or MAX.
    LevelQuery(Level),
    /// ON, OFF or a number.
    Switch(Switch),
    /// ON, OFF or a number.
    Protect,
    /// RST or RCL0.
    PowerOn,
    /// A block of at most 63 bytes.
    UserData,
    /// A string and a block.
    Define,
    /// A string.
    Macro(OnMacro),
    /// A string, and a block of at most 32768 bytes.
    Contents,
    /// A string.
    File(OnFile),
    /// Two strings.
    Names(OnNames),
    /// 0 to 99, and a string.
    StateFile(Transfer),
    /// A label as a string, and a name as a string.
    MacroFile(Transfer),
}

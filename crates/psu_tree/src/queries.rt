//! Actions and queries, which have no parameters.
use crate::{Enable, Flag};
use psu_status::{Filter, Group};

/// The action of a command without parameters.
#[derive(Clone, Copy)]
pub enum Action {
    ClearStatus,
    Reset,
    OperationComplete,
    Wait,
    PurgeMacros,
    PresetStatus,
}

/// A query without parameters.
#[derive(Clone, Copy)]
pub enum Query {
    Identification,
    SelfTest,
    OperationComplete,
    EventStatus,
    StatusByte,
    Enable(Enable),
    Flag(Flag),
    UserData,
    Labels,
    NextError,
    ErrorCount,
    Version,
    Event(Group),
    Condition(Group),
    Filter(Group, Filter),
    Catalog,
}

/// A query of one output.
#[derive(Clone, Copy)]
pub enum OutputQuery {
    State,
    Protection,
    Tripped,
    Voltage,
    Current,
    Load,
}

//! The values of commands with parameters: registers, flags, settings and operations.

/// The enable registers of the common commands.
#[derive(Clone, Copy)]
pub enum Enable {
    EventStatus,
    ServiceRequest,
}

/// The flags of the device: two take a number, one a Boolean, one a word.
#[derive(Clone, Copy)]
pub enum Flag {
    PowerOnClear,
    Macros,
    /// Whether `*PUD` is refused.
    UserDataProtection,
    /// Whether the power-on settings are those of register 0.
    Recall,
}

/// The settings of an output in volts or amperes.
#[derive(Clone, Copy)]
pub enum Level {
    Voltage,
    Current,
    Protection,
}

/// An end of a range: MINimum or MAXimum (SCPI-1999 volume 1, 7.2).
#[derive(Clone, Copy)]
pub enum Extreme {
    Least,
    Greatest,
}

/// The switches of an output.
#[derive(Clone, Copy)]
pub enum Switch {
    Output,
    Protection,
}

/// An operation on a register of settings.
#[derive(Clone, Copy)]
pub enum OnRegister {
    Save,
    Recall,
}

/// An operation on the macro of a label.
#[derive(Clone, Copy)]
pub enum OnMacro {
    Ask,
    Remove,
}

/// An operation on a file.
#[derive(Clone, Copy)]
pub enum OnFile {
    Ask,
    Delete,
}

/// An operation on two file names.
#[derive(Clone, Copy)]
pub enum OnNames {
    Copy,
    Move,
}

/// The direction of a transfer: into a file, or out of it.
#[derive(Clone, Copy)]
pub enum Transfer {
    Store,
    Load,
}

//! The groups of status registers, their registers that a client sets, and the enable registers of the common commands.

/// A group of status registers (SCPI-1999 volume 2, chapter 18).
#[derive(Clone, Copy, Debug, PartialEq, Eq)]
pub enum Group {
    /// OPERation. Its condition is always 0 in this instrument.
    Operation,
    /// QUEStionable. Condition bit 0: an output is tripped; bit 1: an output is in current limit.
    Questionable,
}

/// A register of a group that a client sets, with 15 bits.
#[derive(Clone, Copy, Debug, PartialEq, Eq)]
pub enum Filter {
    /// ENABle: the events that count for the summary.
    Enable,
    /// PTRansition: the condition bits whose rise is an event.
    Positive,
    /// NTRansition: the condition bits whose fall is an event.
    Negative,
}

/// The two enable registers that are nonvolatile while the power-on status clear flag is false (IEEE 488.2, `*PSC`).
#[derive(Clone, Copy, Debug, PartialEq, Eq)]
pub struct Enables {
    /// SRE, the service request enable register, of which bit 6 is ignored.
    pub sre: u8,
    /// ESE, the standard event status enable register.
    pub ese: u8,
}

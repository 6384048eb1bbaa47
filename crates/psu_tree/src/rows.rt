//! The rows of the table of commands, in sections, and the nodes of their headers.
use crate::Form;

/// Whether a node is optional (in brackets), and whether a numeric suffix may follow it (`<n>`).
#[derive(Clone, Copy)]
pub enum Kind {
    /// Required, without a numeric suffix.
    Must,
    /// Optional, without a numeric suffix.
    Maybe,
    /// Required, with an optional numeric suffix.
    Numbered,
    /// Optional, with an optional numeric suffix.
    MaybeNumbered,
}

/// A node: its mnemonic in the long form (SCPI-1999 volume 1, 6.2.1). The short form is the letters before the first
/// lowercase letter.
#[derive(Clone, Copy)]
pub struct Node {
    pub name: &'static str,
    pub kind: Kind,
}

/// A header with its forms: as a command, and with a `?`.
#[derive(Clone, Copy)]
pub struct Row {
    /// Its nodes after the first one, which is its section's.
    pub nodes: &'static [Node],
    pub command: Option<Form>,
    pub query: Option<Form>,
}

/// The rows whose headers begin with one node.
#[derive(Clone, Copy)]
pub struct Section {
    /// The first letter of its mnemonic.
    pub first: u8,
    /// The second letter, 0 where there is none: a header that begins with other letters skips the section.
    pub second: u8,
    pub root: Node,
    pub rows: &'static [Row],
}

//! A unit of a message: its text, its fault, and its parts.

use crate::{Data, ScpiError};

/// The mark that a header begins with (IEEE 488.2, 7.6; SCPI-1999 volume 1, 6.2).
#[derive(Clone, Copy, Debug, PartialEq, Eq)]
pub enum HeaderMark {
    /// `*`: a common command header, of one node.
    Star,
    /// `:`: a header that is resolved from the root of the tree.
    Colon,
    /// No mark.
    Bare,
}

/// The fault of a unit: the first of its strings and blocks that is not whole.
#[derive(Clone, Copy, Debug, PartialEq, Eq)]
pub enum UnitFault {
    /// The first one is a string.
    String,
    /// The first one is a block.
    Block,
}

impl UnitFault {
    ghost use Rattle.std.specs.Prelude.{◌≡◌};
    ghost use Rattle.psu_lex.specs.Syntax.{error_of};

    /// Returns the error of the fault: invalid string data, or invalid block data.
    pub fn error(self) -> ScpiError
        ensures { result ≡ error_of self }
    {
        match self {
            UnitFault::String => ScpiError::InvalidStringData,
            UnitFault::Block => ScpiError::InvalidBlockData,
        }
    }
}

/// A program message unit as written (IEEE 488.2, 7.3.2), or the faulty bytes in its place.
#[derive(Clone, Copy, Debug, PartialEq, Eq)]
pub struct Unit<'a> {
    /// The unit without its separator; a faulty unit extends up to END.
    pub text: &'a [u8],
    /// Whether it is the first of its message.
    pub first: bool,
    /// The fault of the unit, if it has one.
    pub fault: Option<UnitFault>,
}

/// The parts of a unit's header (IEEE 488.2, 7.6).
#[derive(Clone, Copy, Debug, PartialEq, Eq)]
pub struct UnitHeader<'a> {
    /// The header as written, with its mark and its `?`.
    pub text: &'a [u8],
    /// Its nodes, separated by `:`.
    pub nodes: &'a [u8],
    /// The mark that it begins with.
    pub mark: HeaderMark,
    /// Whether it ends with `?`.
    pub asks: bool,
}

/// The parts of a unit (IEEE 488.2, 7.3.2): a header, and data.
#[derive(Clone, Copy, Debug, PartialEq, Eq)]
pub struct Syntax<'a> {
    /// Its header.
    pub header: UnitHeader<'a>,
    /// Its data, in order.
    pub parameters: Data<'a>,
}

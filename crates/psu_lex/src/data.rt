//! The data of a unit: a datum, its class, and the list of them.
use crate::data_scan::next_of;
use crate::pieces::{after, front};

/// The class of a datum (IEEE 488.2, 7.7).
#[derive(Clone, Copy, Debug, PartialEq, Eq)]
pub enum DatumClass {
    /// A decimal number, with or without a suffix.
    Numeric,
    /// A word: a letter followed by letters, digits or `_`.
    Character,
    /// A string in quotes.
    String,
    /// A block, of definite length or up to END.
    Block,
}

/// A datum of a unit (IEEE 488.2, 7.7).
#[derive(Clone, Copy, Debug, PartialEq, Eq)]
pub struct Datum<'a> {
    /// The class, determined by the spelling.
    pub class: DatumClass,
    /// The datum as written: with its quotes, `#` and suffix, without the white space around it.
    pub text: &'a [u8],
}

impl<'a> Datum<'a> {
    ghost use Rattle.std.specs.Prelude.{◌≡◌, List, ℕ};
    ghost use Rattle.psu_lex.specs.Data.{IsDatumOf};
    ghost use Rattle.psu_lex.specs.Message.{doubled, spelling};
    ghost use Rattle.psu_lex.specs.Message.Piece.{Quoted};

    /// Returns the text between the quotes of a string (IEEE 488.2, 7.7.5), as written: a quote in it is doubled.
    pub fn quoted(&self) -> &'a [u8]
        ensures { (quote : ℕ) (bytes : List ℕ) → self.now.text.now ≡ spelling (Quoted quote bytes) → result.now ≡ doubled quote bytes }
    {
        let Some((_, rest)) = self.text.split_first() else {
            return self.text;
        };
        if rest.is_empty() {
            return rest;
        }
        front(rest, rest.len() - 1)
    }

    /// Returns the bytes of a block (IEEE 488.2, 7.7.6): those after its length, or everything after `#0`.
    pub fn bytes(&self) -> &'a [u8]
        ensures { (bytes : List ℕ) → IsDatumOf self.now.text.now bytes → result.now ≡ bytes }
    {
        let Some((_, rest)) = self.text.split_first() else {
            return self.text;
        };
        let Some((count, rest)) = rest.split_first() else {
            return self.text;
        };
        let digits = count.saturating_sub(b'0') as usize;
        if digits > rest.len() {
            return self.text;
        }
        after(rest, digits)
    }
}

/// A datum as it was found in a text.
#[derive(Clone, Copy, Debug, PartialEq, Eq)]
pub(crate) struct Found<'a> {
    /// The datum.
    pub datum: Datum<'a>,
    /// What follows the datum after white space: nothing, or a `,` and more.
    pub tail: &'a [u8],
}

/// The data of a unit, in order: the first datum is known, and those after it are found on demand.
#[derive(Clone, Copy, Debug, PartialEq, Eq)]
pub struct Data<'a> {
    pub(crate) found: Option<Found<'a>>,
}

impl<'a> Data<'a> {
    ghost use Rattle.std.specs.Prelude.{List};
    ghost use Rattle.psu_lex.specs.Syntax.{Datum as DatumData};
    ghost use Rattle.psu_lex.specs.Shown.{FirstIs, HoldsData};

    /// Returns the first datum and those after it, or `None` where there is none.
    pub fn first(&self) -> Option<(Datum<'a>, Data<'a>)>
        ensures { (list : List DatumData) → HoldsData self.now list → FirstIs result list }
    {
        let Some(found) = self.found else {
            return None;
        };
        let rest = Data {
            found: next_of(found.tail),
        };
        Some((found.datum, rest))
    }
}

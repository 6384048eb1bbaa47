//! The units of a transmission, one after another.
ghost use Rattle.std.specs.Prelude.{ℕ, List, [], ◌∷◌, ◌≡◌, ◌++◌, ◌-◌, ◌<◌, ◌==◌, ◌||◌, ◌&&◌, true, length, IfSome, IfNone};
ghost use Rattle.psu_lex.specs.Bytes.{all_white};
ghost use Rattle.psu_lex.specs.Message.{EndsIn, MakesUnits, Part, ended, ends_unit, part};

use crate::Unit;
use crate::message::{is_blank, unit_end};
use crate::pieces::after;

/// The units of a transmission that are not read yet. Nothing is copied or allocated.
#[derive(Clone, Copy, Debug, PartialEq, Eq)]
pub struct Units<'a> {
    /// The bytes that are left, up to END.
    pub text: &'a [u8],
    /// Whether the next unit is the first of its message.
    pub first: bool,
}

// Whether the unit after this one is the first of its message.
fn is_first(first: bool, blank: bool, separator: u8) -> bool
    ensures { result ≡ (separator == 10 || (first && blank)) }
{
    separator == b'\n' || (first && blank)
}

impl<'a> Units<'a> {
    /// Returns all units of a transmission, the bytes up to END.
    pub fn of(bytes: &'a [u8]) -> Units<'a>
        ensures text { result.text.now ≡ bytes.now }
        ensures first { result.first ≡ true }
    {
        Units {
            text: bytes,
            first: true,
        }
    }

    /// Returns the units of the last bytes of a transmission, of which `left` bytes are not read yet; `first` is
    /// whether the next unit is the first of its message.
    pub fn of_last(bytes: &'a [u8], left: usize, first: bool) -> Units<'a>
        ensures text { (rest : List ℕ) → EndsIn bytes.now rest → length rest ≡ left → result.text.now ≡ rest }
        ensures first { result.first ≡ first }
    {
        Units {
            text: after(bytes, bytes.len().saturating_sub(left)),
            first,
        }
    }

    // Moves past the separator after a unit, if there is one; `blank` is whether the unit is white space alone.
    fn pass_separator(&mut self, blank: bool)
        requires { ends_unit self.old.text.now ≡ true }
        ensures makes { (text : List ℕ) (units : List Part) → blank ≡ all_white text → MakesUnits self.new.first [] self.new.text.now units
            → MakesUnits self.old.first text self.old.text.now (ended self.old.first text ++ units) }
        ensures rest { EndsIn self.old.text.now self.new.text.now }
        ensures length { length self.new.text.now ≡ length self.old.text.now - 1 }
    {
        let text = self.text;
        if text.is_empty() {
            return;
        }
        self.first = is_first(self.first, blank, text[0]);
        self.text = after(text, 1);
    }

    // Reads the unit at the beginning and its separator. Returns none where the unit is white space alone.
    fn read(&mut self) -> Option<Unit<'a>>
        requires { 0 < length self.old.text.now }
        ensures some { IfSome result (λ unit. (units : List Part)
            → MakesUnits self.new.first [] self.new.text.now units
            → MakesUnits self.old.first [] self.old.text.now (part unit ∷ units)) }
        ensures none { IfNone result ((units : List Part) → MakesUnits self.new.first [] self.new.text.now units
            → MakesUnits self.old.first [] self.old.text.now units) }
        ensures rest { EndsIn self.old.text.now self.new.text.now }
        ensures less { length self.new.text.now < length self.old.text.now }
    {
        let (text, first) = (self.text, self.first);
        let end = match unit_end(text) {
            Ok(end) => end,
            Err(fault) => {
                self.text = after(text, text.len());
                return Some(Unit {
                    text,
                    first,
                    fault: Some(fault),
                });
            }
        };
        let (unit, more) = text.split_at(end);
        let blank = is_blank(unit);
        self.text = more;
        self.pass_separator(blank);
        if blank {
            return None;
        }
        Some(Unit {
            text: unit,
            first,
            fault: None,
        })
    }

    /// Reads the next unit; returns none where none is left. A faulty string or block is reported as the fault of its
    /// unit, which extends up to END.
    #[inline(always)]
    pub fn next_unit(&mut self) -> Option<Unit<'a>>
        ensures some { IfSome result (λ unit. (units : List Part)
            → MakesUnits self.new.first [] self.new.text.now units
            → MakesUnits self.old.first [] self.old.text.now (part unit ∷ units)) }
        ensures none { IfNone result (MakesUnits self.old.first [] self.old.text.now []) }
        ensures rest { EndsIn self.old.text.now self.new.text.now }
        ensures less { IfSome result (λ _. length self.new.text.now < length self.old.text.now) }
    {
        while !self.text.is_empty() {
            if let Some(unit) = self.read() {
                return Some(unit);
            }
        }
        None
    }
}

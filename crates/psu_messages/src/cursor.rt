//! A cursor over the units of a text, and the place at which one is kept.
ghost use Rattle.std.specs.Prelude.{ℕ, List, [], ◌∷◌, Bool, ◌≡◌, ◌+◌, ◌<◌, ◌≤◌, ◌^◌, length, IfSome, IfNone};
ghost use Rattle.psu_lex.specs.Message.{EndsIn, MakesUnits, Part, part};
ghost use Rattle.psu_messages.specs.Places.{IsCursor, IsSavedPlace};
ghost use Rattle.psu_messages.specs.Units.{IsRequest, path_at};

use psu_lex::{Unit, Units};
use psu_tree::{Path, Request, SavedPath, request_into};
use std::alloc::Allocator;

/// A cursor over the units of a text.
#[derive(Drop)]
pub(crate) struct Cursor<'t> {
    /// The text.
    pub(crate) text: &'t [u8],
    /// The units that are not read yet.
    pub(crate) units: Units<'t>,
    /// The path at which the next one is read.
    pub(crate) path: Path<'t>,
    /// How many units are before it.
    pub(crate) read: u64,
}

/// Takes the next unit, if one is left. At the end of a text the look at its bytes saves a call.
#[inline(always)]
pub(crate) fn take_unit<'t>(units: &mut Units<'t>) -> Option<Unit<'t>>
    ensures some { IfSome result (λ unit. (more : List Part)
        → MakesUnits units.new.first [] units.new.text.now more
        → MakesUnits units.old.first [] units.old.text.now (part unit ∷ more)) }
    ensures none { IfNone result (MakesUnits units.old.first [] units.old.text.now []) }
    ensures rest { EndsIn units.old.text.now units.new.text.now }
    ensures less { IfSome result (λ _. length units.new.text.now < length units.old.text.now) }
{
    if units.text.is_empty() {
        return None;
    }
    units.next_unit()
}

impl<'t> Cursor<'t> {
    /// Returns the cursor before the first unit of a text.
    pub(crate) fn of(text: &'t [u8]) -> Cursor<'t>
        ensures place { (inside : Bool) → IsCursor inside result }
        ensures text { result.text.now ≡ text.now }
        ensures read { result.read ≡ 0 }
    {
        Cursor {
            text,
            units: Units::of(text),
            path: Path::root(),
            read: 0,
        }
    }

    /// Parses the unit that was taken last, in the place of an earlier one, and moves the path; the first unit of a
    /// message is read from the root.
    pub(crate) fn request(&mut self, unit: &Unit<'t>, inside: bool, request: &mut Request<'t>)
        requires { self.old.read + 1 < 2 ^ 64 }
        ensures request { IsRequest inside (path_at self.old.path (part unit.now)) (part unit.now) request.new self.new.path }
        ensures text { self.new.text ≡ self.old.text }
        ensures units { self.new.units ≡ self.old.units }
        ensures read { self.new.read ≡ self.old.read + 1 }
    {
        if unit.first {
            self.path.clear();
        }
        self.read += 1;
        request_into(&mut self.path, unit, inside, request);
    }

    /// Returns to the place before the unit that was read last, where `units` were left and the path was the root.
    #[inline(always)]
    pub(crate) fn back_to(&mut self, units: Units<'t>)
        requires { 0 < self.old.read }
        ensures text { self.new.text ≡ self.old.text }
        ensures units { self.new.units ≡ units.entry }
        ensures path { self.new.path ≡ [] }
        ensures read { self.new.read + 1 ≡ self.old.read }
    {
        self.units = units;
        self.path.clear();
        self.read -= 1;
    }

    /// Passes over units until so many were read. Where the text has fewer, none is left then.
    pub(crate) fn pass_to(&mut self, count: u64, inside: bool)
        ensures place { IsCursor inside self.old → IsCursor inside self.new }
        ensures text { self.new.text ≡ self.old.text }
        ensures count { self.old.read ≤ count → self.new.read ≡ count }
    {
        let mut request = Request::unread();
        while self.read < count {
            let Some(unit) = take_unit(&mut self.units) else {
                self.units = Units::of_last(self.text, 0, true);
                self.read = count;
                return;
            };
            self.request(&unit, inside, &mut request);
        }
    }

    // Returns the place of the cursor, to be kept without the text; none where memory is refused.
    #[inline(never)]
    fn save<A: Allocator + Copy>(&self, alloc: A) -> Option<SavedPlace<A>>
        ensures place { IfSome result (λ place. (inside : Bool) → IsCursor inside self.now → IsSavedPlace inside self.now.text.now place) }
        ensures read { IfSome result (λ place. place.read ≡ self.now.read) }
    {
        let path = self.path.save(alloc).ok()?;
        Some(SavedPlace {
            read: self.read,
            left: self.units.text.len(),
            first: self.units.first,
            path,
        })
    }

    /// Returns the place of the cursor where more than `least` and at most `most` units are before it; else none.
    #[inline(always)]
    pub(crate) fn save_between<A: Allocator + Copy>(
        &self,
        alloc: A,
        least: u64,
        most: u64,
    ) -> Option<SavedPlace<A>>
        ensures place { IfSome result (λ place. (inside : Bool) → IsCursor inside self.now → IsSavedPlace inside self.now.text.now place) }
        ensures read { IfSome result (λ place. place.read ≤ most) }
    {
        if self.read <= least || most < self.read {
            return None;
        }
        self.save(alloc)
    }
}

/// A place between two units of a text, kept while the text is not read.
#[derive(Drop)]
pub(crate) struct SavedPlace<A: Allocator + Copy> {
    /// How many units are before it.
    pub(crate) read: u64,
    /// How many bytes are after it.
    pub(crate) left: usize,
    /// Whether the next unit is the first of its message.
    pub(crate) first: bool,
    /// The path at which the next unit is read.
    pub(crate) path: SavedPath<A>,
}

impl<A: Allocator + Copy> SavedPlace<A> {
    /// Returns the place before the first unit of a text of so many bytes.
    pub(crate) fn start(alloc: A, size: usize) -> SavedPlace<A>
        ensures place { (inside : Bool) (bytes : List ℕ) → length bytes ≡ size → IsSavedPlace inside bytes result }
        ensures read { result.read ≡ 0 }
    {
        SavedPlace {
            read: 0,
            left: size,
            first: true,
            path: SavedPath::root(alloc),
        }
    }

    /// Returns a cursor at this place of its text.
    pub(crate) fn cursor<'t>(&'t self, text: &'t [u8]) -> Cursor<'t>
        ensures place { (inside : Bool) → IsSavedPlace inside text.now self.now → IsCursor inside result }
        ensures text { result.text.now ≡ text.now }
        ensures read { result.read ≡ self.now.read }
    {
        Cursor {
            text,
            units: Units::of_last(text, self.left, self.first),
            path: self.path.restore(),
            read: self.read,
        }
    }

    /// Becomes a later place of the same text, where there is one.
    pub(crate) fn advance_to(&mut self, later: Option<SavedPlace<A>>)
        ensures place { (inside : Bool) (bytes : List ℕ) → IsSavedPlace inside bytes self.old
            → IfSome later (IsSavedPlace inside bytes) → IsSavedPlace inside bytes self.new }
        ensures read { (most : ℕ) → self.old.read ≤ most → IfSome later (λ place. place.read ≤ most) → self.new.read ≤ most }
    {
        if let Some(later) = later {
            *self = later;
        }
    }
}

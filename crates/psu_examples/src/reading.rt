//! Reading the examples of a guide.
ghost use Rattle.std.specs.Prelude.{◌≡◌, ◌<◌, ◌+◌, ◌++◌, ◌∷◌, [], List, ℕ, OnOk, IfOk, IfSome, IfNone, length, map};
ghost use Rattle.psu_examples.specs.Examples.{Where, examples, examples_in, is_end, lines_of};
ghost use Rattle.psu_examples.specs.Shown.{begun, coming, shown};
ghost use Rattle.psu_examples.specs.declared.place.Place.TheVariants.{Text};

use crate::example::Example;
use crate::place::Place;
use memchr::memchr;
use std::alloc::{AllocError, Allocator};
use std::mem;

// The text that a block of the guide begins with, and ends with.
const FENCE: &[u8] = b"```";

// The line that begins an example.
const EXAMPLE: &[u8] = b"```scpi";

/// What was read of a guide: the examples that have ended, and the one that has begun.
#[derive(Drop)]
pub(crate) struct Reading<A: Allocator + Copy> {
    alloc: A,
    pub ended: Vec<Example<A>, A>,
    pub place: Place<A>,
}

impl<A: Allocator + Copy> Reading<A> {
    /// Returns a reading before the first line.
    fn new(alloc: A) -> Reading<A>
        ensures ended { result.ended.items ≡ [] }
        ensures place { result.place ≡ Text }
    {
        Reading {
            alloc,
            ended: Vec::new(alloc),
            place: Place::Text,
        }
    }

    // Reads the line with this number.
    #[tactic(auto, using(crate::proofs::Coming::closes, crate::proofs::Coming::continues))]
    fn take(&mut self, number: usize, line: &[u8]) -> Result<(), AllocError>
        ensures { OnOk result ((lines : List (List ℕ)) → map shown self.new.ended.items ++ coming self.new.place (number + 1) lines
            ≡ map shown self.old.ended.items ++ coming self.old.place number (line.now ∷ lines)) }
    {
        match &mut self.place {
            Place::Text => {
                self.place = opened(self.alloc, number, line);
                Ok(())
            }
            _ if is_end(line) => self.close(),
            Place::Inside(example) => example.put(line),
            Place::Block => Ok(()),
        }
    }

    // Reads the last line, with this number, if there is one, and returns the examples.
    #[tactic(auto, using(crate::proofs::Coming::last))]
    fn finish(mut self, number: usize, rest: &[u8]) -> Result<Vec<Example<A>, A>, AllocError>
        requires { 0 < length rest.now → lines_of rest.now ≡ rest.now ∷ [] }
        ensures { IfOk result (λ found. map shown found.items ≡ map shown self.ended.items ++ coming self.place number (lines_of rest.now)) }
    {
        if !rest.is_empty() {
            self.take(number, rest)?;
        }
        self.close()?;
        Ok(self.ended)
    }

    // Ends the block that has begun.
    fn close(&mut self) -> Result<(), AllocError>
        ensures ended { OnOk result (map shown self.new.ended.items ≡ map shown self.old.ended.items ++ begun self.old.place) }
        ensures place { OnOk result (self.new.place ≡ Text) }
    {
        if let Place::Inside(example) = mem::replace(&mut self.place, Place::Text) {
            self.ended.push(example)?;
        }
        Ok(())
    }
}

// Whether a line ends a block.
fn is_end(line: &[u8]) -> bool
    ensures { result ≡ is_end line.now }
{
    line == FENCE
}

// Returns the place after a line of the text with this number.
fn opened<A: Allocator + Copy>(alloc: A, number: usize, line: &[u8]) -> Place<A>
    ensures { (lines : List (List ℕ)) → coming result (number + 1) lines ≡ examples Where.Text number (line.now ∷ lines) }
{
    if line == EXAMPLE {
        Place::Inside(Example::new(alloc, number))
    } else if line.starts_with(FENCE) {
        Place::Block
    } else {
        Place::Text
    }
}

// Returns the first line, where a line feed ends it, and the rest after that.
#[tactic(auto, using(crate::proofs::Lines::next, crate::proofs::Lines::last_line))]
fn next_line(text: &[u8]) -> Option<(&[u8], &[u8])>
    ensures line { IfSome result (λ pair. lines_of text.now ≡ pair.0.now ∷ lines_of pair.1.now) }
    ensures shorter { IfSome result (λ pair. length pair.1.now < length text.now) }
    ensures last { IfNone result (0 < length text.now → lines_of text.now ≡ text.now ∷ []) }
{
    let at = memchr(b'\n', text)?;
    Some((&text[..at], &text[at + 1..]))
}

/// Returns the examples of a guide, in their order.
pub fn examples_of<A: Allocator + Copy>(
    alloc: A,
    guide: &[u8],
) -> Result<Vec<Example<A>, A>, AllocError>
    ensures { IfOk result (λ found. map shown found.items ≡ examples_in guide.now) }
{
    let mut reading = Reading::new(alloc);
    let mut rest = guide;
    let mut number = 1;
    while let Some((line, after)) = next_line(rest) {
        reading.take(number, line)?;
        number += 1;
        rest = after;
    }
    let found = reading.finish(number, rest)?;
    Ok(found)
}

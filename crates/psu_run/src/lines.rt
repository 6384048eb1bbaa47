//! The line that is being read.
ghost use Rattle.std.specs.Prelude.{◌≡◌, ◌↔◌, ◌++◌, [], List, ℕ, IsTrue, IfOk, OnOk, false, codes, length, nat_lt};
ghost use Rattle.std.specs.Str.{bytes_eq};
ghost use Rattle.psu_run.specs.Lines.{has, messages};

use crate::OutOfMemory;
use crate::memory::append;
use psu_lex::TEXT_MOST;
use std::alloc::Allocator;

/// The line that is being read. Of a line that is too long only so many bytes are kept that it is too long.
#[derive(Drop)]
pub(crate) struct Lines<A: Allocator> {
    pub line: Vec<u8, A>,
    ghost free: { has 10 line.items ≡ false },
}

impl<A: Allocator> Lines<A> {
    /// Returns the state before the first line.
    pub fn new(alloc: A) -> Lines<A>
        ensures { result.line.items ≡ [] }
    {
        Lines {
            line: Vec::new(alloc),
        }
    }

    /// Appends bytes to the line that is being read.
    #[inline(always)]
    pub fn extend(&mut self, part: &[u8]) -> Result<(), OutOfMemory>
        requires { has 10 part.now ≡ false }
        ensures { OnOk result ((input : List ℕ) → messages (self.old.line.items ++ (part.now ++ input)) ≡ messages (self.new.line.items ++ input)) }
    {
        let room = (TEXT_MOST + 1).saturating_sub(self.line.len());
        let kept = part.len().min(room);
        append(&mut self.line, &part[..kept])?;
        Ok(())
    }

    /// Ends the line with this part, and returns it. A line that lies whole in the part is not copied.
    #[inline(always)]
    pub fn ended<'l>(&'l mut self, part: &'l [u8]) -> Result<&'l [u8], OutOfMemory>
        requires { has 10 part.now ≡ false }
        ensures line { IfOk result (λ line. (input : List ℕ) → messages (self.old.line.items ++ (part.now ++ input)) ≡ messages (line.now ++ input)) }
        ensures free { IfOk result (λ line. has 10 line.now ≡ false) }
    {
        if self.is_empty() {
            return Ok(part);
        }
        self.extend(part)?;
        Ok(self.line.as_slice())
    }

    /// Whether no line has begun.
    pub fn is_empty(&self) -> bool
        ensures { IsTrue result ↔ (self.now.line.items ≡ []) }
    {
        self.line.is_empty()
    }

    /// Begins the next line.
    pub fn clear(&mut self)
        ensures { self.new.line.items ≡ [] }
    {
        self.line.clear();
    }
}

/// Whether a line is that of a power loss.
pub(crate) fn is_power(line: &[u8]) -> bool
    ensures { result ≡ bytes_eq line.now (codes "!POWER") }
{
    line == b"!POWER".as_slice()
}

/// Whether a line has more bytes than a line may have.
pub(crate) fn is_too_long(line: &[u8]) -> bool
    ensures { result ≡ nat_lt 65536 (length line.now) }
{
    line.len() > TEXT_MOST
}

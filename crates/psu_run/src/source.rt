//! The input of a run.
ghost use Rattle.std.specs.Prelude.{ℕ, List, Option, None, length};
ghost use Rattle.std.specs.Io.{ReadsAtMost};
ghost use Rattle.std.specs.Io.KnownBytes.{ReadConsumes};
ghost use Rattle.psu_run.specs.Lines.{CountsRead, Reads};

use std::io::{self, Read};

/// The input of a run: a reader whose reads may be counted.
pub trait Source {
    /// The bytes that reads will return from here on, where they are known.
    ghost remaining: { Self → Option (List ℕ) };

    /// The number of reads made, of those that returned bytes and of those that failed, and how many bytes they asked
    /// for, where that is counted.
    ghost reads: { Self → Option Reads };

    /// Reads bytes into the piece, as a reader does.
    fn read_into(&mut self, piece: &mut [u8]) -> io::Result<usize>
        ensures bound { ReadsAtMost result piece.new }
        ensures bytes { ReadConsumes (remaining self.old) (remaining self.new) result piece.new }
        ensures counted { CountsRead (length piece.old) (reads self.old) (reads self.new) result };
}

/// Any reader is a source whose reads are not counted.
impl<R: Read> Source for R {
    ghost remaining = { R.remaining };

    ghost reads = { λ reader. None };

    fn read_into(&mut self, piece: &mut [u8]) -> io::Result<usize> {
        self.read(piece)
    }
}

//! The output of a run.
ghost use Rattle.std.specs.Prelude.{None};
ghost use Rattle.std.specs.Io.{WritesAtMost};
ghost use Rattle.std.specs.Io.KnownBytes.{WriteAppends};
ghost use Rattle.psu_run.specs.Output.{CountsWrite, Written};

use std::io::{self, Write};

/// The output of a run: a writer whose failed writes may be counted.
pub trait Sink {
    /// The bytes that were written, where they are known, and the number of writes that failed, where that is counted.
    ghost written: { Self → Written };

    /// Writes bytes, or the first of them, as a writer does.
    fn write_some(&mut self, bytes: &[u8]) -> io::Result<usize>
        ensures bound { WritesAtMost result bytes.now }
        ensures bytes { WriteAppends (written self.old).bytes (written self.new).bytes result bytes.now }
        ensures counted { CountsWrite (written self.old).failed (written self.new).failed result };
}

/// Any writer is a sink whose failed writes are not counted.
impl<W: Write> Sink for W {
    ghost written = { λ writer. record { bytes = W.contents writer; failed = None } };

    fn write_some(&mut self, bytes: &[u8]) -> io::Result<usize> {
        self.write(bytes)
    }
}

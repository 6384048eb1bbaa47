//! Readers and writers whose calls are counted: witnesses that `Source` and `Sink` can be met by some. The program does not
//! count.
ghost use Rattle.std.specs.Prelude.{Some};

use crate::{Sink, Source};
use std::io::{self, Read, Write};

/// A reader, the number of reads made of it, of those that returned bytes and of those that failed, and the number of bytes
/// that they asked for. Each count saturates at its type's last value.
#[derive(Drop)]
pub struct Counted<R> {
    pub reader: R,
    pub reads: u64,
    pub filled: u64,
    pub failed: u64,
    pub asked: u64,
}

impl<R: Read> Source for Counted<R> {
    ghost remaining = { λ counted. R.remaining counted.reader };

    ghost reads = { λ counted. Some (record { made = counted.reads; filled = counted.filled; failed = counted.failed; asked = counted.asked }) };

    fn read_into(&mut self, piece: &mut [u8]) -> io::Result<usize> {
        self.reads = self.reads.saturating_add(1);
        self.asked = self.asked.saturating_add(piece.len() as u64);
        match self.reader.read(piece) {
            Ok(count) => {
                if count > 0 {
                    self.filled = self.filled.saturating_add(1);
                }
                Ok(count)
            }
            Err(error) => {
                self.failed = self.failed.saturating_add(1);
                Err(error)
            }
        }
    }
}

/// A writer, and the number of its writes that failed: with an error, or since it takes no more bytes. It saturates at
/// its type's last value.
#[derive(Drop)]
pub struct CountedWriter<W> {
    pub writer: W,
    pub failed: u64,
}

impl<W: Write> Sink for CountedWriter<W> {
    ghost written = { λ counted. record { bytes = W.contents counted.writer; failed = Some counted.failed } };

    fn write_some(&mut self, bytes: &[u8]) -> io::Result<usize> {
        let result = self.writer.write(bytes);
        if !matches!(result, Ok(1..)) {
            self.failed = self.failed.saturating_add(1);
        }
        result
    }
}

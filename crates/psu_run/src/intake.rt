//! How much of the input has been read.
ghost use Rattle.std.specs.Prelude.{◌≡◌, ◌+◌, ◌-◌, ◌≤◌, ◌↔◌, IsTrue, IfSome};

const READS_MOST: u32 = 1_048_576;

const BYTES_MOST: usize = 16_777_216;

/// The number of reads made and of bytes taken. A run makes at most 1,048,576 reads, including the one that finds the
/// end of the input, and takes at most 16,777,216 bytes.
#[derive(Drop)]
pub(crate) struct Intake {
    reads: u32,
    bytes: usize,
    ghost few: { reads ≤ 1048576 },
    ghost short: { bytes ≤ 16777216 },
}

impl Intake {
    /// Returns the counts before the first read.
    pub fn new() -> Intake
        ensures reads { result.reads ≡ 0 }
        ensures bytes { result.bytes ≡ 0 }
    {
        Intake { reads: 0, bytes: 0 }
    }

    /// Whether one more read may be made.
    pub fn may_read(&self) -> bool
        ensures { IsTrue result ↔ (self.now.reads + 1 ≤ 1048576) }
    {
        self.reads < READS_MOST
    }

    /// Counts one more read.
    pub fn count_read(&mut self)
        requires { self.old.reads + 1 ≤ 1048576 }
        ensures reads { self.new.reads ≡ self.old.reads + 1 }
        ensures bytes { self.new.bytes ≡ self.old.bytes }
    {
        self.reads += 1;
    }

    /// Returns how many more bytes may be taken.
    pub fn room(&self) -> usize
        ensures { result ≡ 16777216 - self.now.bytes }
    {
        BYTES_MOST - self.bytes
    }

    /// Counts `count` more bytes as taken.
    pub fn count_bytes(&mut self, count: usize)
        requires { self.old.bytes + count ≤ 16777216 }
        ensures reads { self.new.reads ≡ self.old.reads }
        ensures bytes { self.new.bytes ≡ self.old.bytes + count }
    {
        self.bytes += count;
    }
}

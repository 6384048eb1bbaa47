//! A disk that counts its calls.
use psu_disk::{Disk, DiskFault};

/// A disk that counts its calls, the bytes that are read, and those that are written.
#[derive(Drop)]
pub(crate) struct Counted<D: Disk> {
    inner: D,
    pub(crate) reads: u64,
    pub(crate) bytes_read: u64,
    pub(crate) writes: u64,
    pub(crate) bytes_written: u64,
    pub(crate) syncs: u64,
}

impl<D: Disk> Counted<D> {
    /// Returns a disk of which nothing is counted yet.
    pub(crate) fn new(inner: D) -> Counted<D> {
        Counted {
            inner,
            reads: 0,
            bytes_read: 0,
            writes: 0,
            bytes_written: 0,
            syncs: 0,
        }
    }
}

impl<D: Disk> Disk for Counted<D> {
    ghost honest = { D.honest };

    ghost records = { D.records };

    ghost extent = { λ c. D.extent c.inner };

    ghost state = { λ c. D.state c.inner };

    ghost moment = { λ c. D.moment c.inner };

    ghost left_since = { λ c. D.left_since c.inner };

    ghost failures = { λ c. D.failures c.inner };

    ghost confirmed = { λ c. D.confirmed c.inner };

    ghost sized = { λ h c. D.sized h c.inner };

    ghost counts_now = { λ h c. D.counts_now h c.inner };

    ghost only_now = { λ h c. D.only_now h c.inner };

    fn size(&self) -> u64 {
        self.inner.size()
    }

    fn faults(&self) -> u64 {
        self.inner.faults()
    }

    fn read(&mut self, at: u64, into: &mut [u8]) -> Result<(), DiskFault> {
        self.reads = self.reads.saturating_add(1);
        self.bytes_read = self.bytes_read.saturating_add(into.len() as u64);
        self.inner.read(at, into)
    }

    fn write(&mut self, at: u64, bytes: &[u8]) -> Result<(), DiskFault> {
        self.writes = self.writes.saturating_add(1);
        self.bytes_written = self.bytes_written.saturating_add(bytes.len() as u64);
        self.inner.write(at, bytes)
    }

    fn sync(&mut self) -> Result<(), DiskFault> {
        self.syncs = self.syncs.saturating_add(1);
        self.inner.sync()
    }

    fn confirm(&mut self) -> Result<(), DiskFault> {
        self.inner.confirm()
    }
}

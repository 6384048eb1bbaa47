//! A disk with a gate before each write.
use crate::{Gate, Point};
use psu_disk::{Disk, DiskFault};
use std::sync::Arc;

/// A disk that calls a gate before each write, and otherwise passes each call to the disk below it.
#[derive(Drop)]
pub struct Gated<D: Disk, G: Gate> {
    inner: D,
    gate: G,
}

impl<D: Disk, G: Gate + Drop> Gated<D, G> {
    ghost use Rattle.std.specs.Prelude.{◌≡◌};

    /// Puts a gate before the writes of a disk.
    pub fn new(inner: D, gate: G) -> Gated<D, G>
        ensures inner { result.inner ≡ inner }
    {
        Gated { inner, gate }
    }

    /// The disk below it.
    pub fn into_inner(self) -> D
        ensures { result ≡ self.inner }
    {
        let Gated { inner, gate: _ } = self;
        inner
    }
}

impl<D: Disk, G: Gate> Disk for Gated<D, G> {
    ghost honest = { D.honest };

    ghost records = { D.records };

    ghost extent = { λ g. D.extent g.inner };

    ghost state = { λ g. D.state g.inner };

    ghost moment = { λ g. D.moment g.inner };

    ghost left_since = { λ g. D.left_since g.inner };

    ghost failures = { λ g. D.failures g.inner };

    ghost confirmed = { λ g. D.confirmed g.inner };

    ghost sized = { λ h g. D.sized h g.inner };

    ghost counts_now = { λ h g. D.counts_now h g.inner };

    ghost only_now = { λ h g. D.only_now h g.inner };

    fn size(&self) -> u64 {
        self.inner.size()
    }

    fn faults(&self) -> u64 {
        self.inner.faults()
    }

    fn read(&mut self, at: u64, into: &mut [u8]) -> Result<(), DiskFault> {
        self.inner.read(at, into)
    }

    fn write(&mut self, at: u64, bytes: &[u8]) -> Result<(), DiskFault> {
        self.gate.at(Point::BeforeWrite);
        self.inner.write(at, bytes)
    }

    fn sync(&mut self) -> Result<(), DiskFault> {
        self.inner.sync()
    }

    fn confirm(&mut self) -> Result<(), DiskFault> {
        self.inner.confirm()
    }
}

/// The disk of a served device, with the gate that its threads call.
pub trait ServedDisk: Disk + Drop {
    /// The gate.
    type Gate: Gate + Drop;
}

/// The disk of the server, with a gate before each write.
pub type Served<D, G> = Gated<D, Arc<G>>;

impl<D: Disk + Drop, G: Gate + Drop> ServedDisk for Gated<D, Arc<G>> {
    type Gate = G;
}

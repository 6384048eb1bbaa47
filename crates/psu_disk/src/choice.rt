//! The choice of what unsynced bytes are after a power loss.
ghost use Rattle.std.specs.Prelude.{◌≡◌};
ghost use Rattle.psu_disk.specs.Loss.{lost};

/// The value that each byte written since the last successful sync has after a power loss.
#[derive(Clone, Copy, Debug, PartialEq, Eq, Drop)]
pub enum Choice {
    /// The byte that the last sync made durable.
    Old,
    /// The byte that a read returned.
    New,
    /// This byte, at every position.
    Fill(u8),
}

impl Choice {
    // Returns the byte after a power loss, given the byte of the last sync and the byte that a read returned.
    pub(crate) fn after_loss(self, synced: u8, read: u8) -> u8
        ensures { result ≡ lost self synced read }
    {
        match self {
            Choice::Old => synced,
            Choice::New => read,
            Choice::Fill(byte) => byte,
        }
    }
}

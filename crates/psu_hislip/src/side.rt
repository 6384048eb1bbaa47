//! The channels of a session, and the device clear, whose messages arrive on both.

/// A channel of a session (IVI-6.1).
#[derive(Clone, Copy, Debug, PartialEq, Eq)]
pub enum Side {
    /// The synchronous channel: commands and their responses.
    Sync,
    /// The asynchronous channel: status, locks and device clear.
    Async,
}

/// The progress of a device clear. Its two messages arrive on different channels, in either order.
#[derive(Clone, Copy, Debug, PartialEq, Eq)]
pub enum DeviceClear {
    /// No device clear is under way.
    Idle,
    /// AsyncDeviceClear was received: what arrives on the synchronous channel is discarded, except DeviceClearComplete.
    InProgress,
    /// DeviceClearComplete was received while no clear waited for it, and no Data, DataEnd or Trigger was received
    /// since.
    Early,
}

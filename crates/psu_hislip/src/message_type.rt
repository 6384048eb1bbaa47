//! The types of messages.
ghost use Rattle.std.specs.Prelude.{◌≡◌};
ghost use Rattle.psu_hislip.specs.MessageType.{code_of, type_of};

/// The type of a message, by its name in IVI-6.1.
#[derive(Clone, Copy, Debug, PartialEq, Eq)]
pub enum MessageType {
    /// Client: begins a session, on its first connection.
    Initialize = 0,
    /// Server: the number of the session.
    InitializeResponse = 1,
    /// Either: the session ends.
    FatalError = 2,
    /// Either: a message was ignored.
    Error = 3,
    /// Client: requests or releases a lock.
    AsyncLock = 4,
    /// Server: the result of a lock request or a release.
    AsyncLockResponse = 5,
    /// Either: a part of a transmission that is not its last.
    Data = 6,
    /// Either: the last part of a transmission.
    DataEnd = 7,
    /// Client: completes a device clear.
    DeviceClearComplete = 8,
    /// Server: the device clear is complete.
    DeviceClearAcknowledge = 9,
    /// Client: asks for remote or local control.
    AsyncRemoteLocalControl = 10,
    /// Server: the response to AsyncRemoteLocalControl.
    AsyncRemoteLocalResponse = 11,
    /// Client: a trigger.
    Trigger = 12,
    /// Server: a response was interrupted; sent on the synchronous channel.
    Interrupted = 13,
    /// Server: a response was interrupted; sent on the asynchronous channel.
    AsyncInterrupted = 14,
    /// Client: the maximum message size that it accepts.
    AsyncMaximumMessageSize = 15,
    /// Server: the maximum message size that it accepts.
    AsyncMaximumMessageSizeResponse = 16,
    /// Client: joins a second connection to its session.
    AsyncInitialize = 17,
    /// Server: the second connection is joined.
    AsyncInitializeResponse = 18,
    /// Client: begins a device clear.
    AsyncDeviceClear = 19,
    /// Server: a service request, with the status byte.
    AsyncServiceRequest = 20,
    /// Client: queries the status byte.
    AsyncStatusQuery = 21,
    /// Server: the status byte.
    AsyncStatusResponse = 22,
    /// Server: the device clear has begun.
    AsyncDeviceClearAcknowledge = 23,
    /// Client: requests the lock information.
    AsyncLockInfo = 24,
    /// Server: whether the exclusive lock is held, and how many sessions hold a lock.
    AsyncLockInfoResponse = 25,
}

/// The types in the order of their codes.
const TYPES: [MessageType; 26] = [
    MessageType::Initialize,
    MessageType::InitializeResponse,
    MessageType::FatalError,
    MessageType::Error,
    MessageType::AsyncLock,
    MessageType::AsyncLockResponse,
    MessageType::Data,
    MessageType::DataEnd,
    MessageType::DeviceClearComplete,
    MessageType::DeviceClearAcknowledge,
    MessageType::AsyncRemoteLocalControl,
    MessageType::AsyncRemoteLocalResponse,
    MessageType::Trigger,
    MessageType::Interrupted,
    MessageType::AsyncInterrupted,
    MessageType::AsyncMaximumMessageSize,
    MessageType::AsyncMaximumMessageSizeResponse,
    MessageType::AsyncInitialize,
    MessageType::AsyncInitializeResponse,
    MessageType::AsyncDeviceClear,
    MessageType::AsyncServiceRequest,
    MessageType::AsyncStatusQuery,
    MessageType::AsyncStatusResponse,
    MessageType::AsyncDeviceClearAcknowledge,
    MessageType::AsyncLockInfo,
    MessageType::AsyncLockInfoResponse,
];

impl MessageType {
    /// Returns the type of this code, or `None` where the code is over 25.
    pub fn of(code: u8) -> Option<MessageType>
        ensures { result ≡ type_of code }
    {
        TYPES.get(code as usize).copied()
    }

    /// The code of the type.
    pub fn code(self) -> u8
        ensures { result ≡ code_of self }
    {
        self as u8
    }
}

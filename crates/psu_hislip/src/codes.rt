//! The codes of errors and of fatal errors.
ghost use Rattle.std.specs.Prelude.{◌≡◌};

/// Why a message is ignored: the control code of Error (IVI-6.1).
#[derive(Clone, Copy, Debug, PartialEq, Eq)]
pub enum ErrorCode {
    /// An error that has no code of its own.
    Unidentified = 0,
    /// The message type is undefined, or the channel does not accept it.
    UnrecognizedType = 1,
    /// The control code is not defined for the message type.
    UnrecognizedControl = 2,
    /// The message type is vendor-defined.
    UnrecognizedVendorType = 3,
    /// The payload is too large.
    TooLarge = 4,
}

impl ErrorCode {
    ghost use Rattle.psu_hislip.specs.Faults.{error_code};

    /// The control code.
    pub fn code(self) -> u8
        ensures { result ≡ error_code self }
    {
        self as u8
    }
}

/// Why a session ends: the control code of FatalError (IVI-6.1).
#[derive(Clone, Copy, Debug, PartialEq, Eq)]
pub enum FatalCode {
    /// A header is poorly formed: it does not begin with `HS`.
    PoorlyFormedHeader = 1,
    /// A message that needs both channels was received before they were joined.
    ChannelsNotJoined = 2,
    /// The sequence of initialization is invalid.
    InvalidInitialization = 3,
    /// The server has as many clients as it accepts.
    TooManyClients = 4,
}

impl FatalCode {
    ghost use Rattle.psu_hislip.specs.Faults.{fatal_code};

    /// The control code.
    pub fn code(self) -> u8
        ensures { result ≡ fatal_code self }
    {
        self as u8
    }
}

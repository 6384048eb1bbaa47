//! The first message that is sent on a connection.
ghost use Rattle.std.specs.Prelude.{◌≡◌};
ghost use Rattle.psu_hislip.specs.Faults.{fatal_code};
ghost use Rattle.psu_hislip.specs.Frame.{header_of};
ghost use Rattle.psu_hislip.specs.Header.{header_bytes};
ghost use Rattle.psu_hislip.specs.declared.message_type.MessageType.TheVariants.{FatalError};
ghost use Rattle.psu_session_io.specs.Opening.{initialize_response};

use psu_hislip::{FatalCode, Header, MessageType};
use psu_session::HislipSession;

/// The first message that is sent on a connection: a session's response to its Initialize, or the FatalError by which
/// what a client has sent first is refused (IVI-6.1, 3.1 and 6.1). All else that is sent is a session's output.
#[derive(Drop)]
pub struct FirstReply {
    pub(crate) bytes: [u8; 16],
}

impl FirstReply {
    /// Returns the response to the Initialize of a session.
    pub fn initialized(session: &HislipSession) -> FirstReply
        ensures { result.bytes ≡ initialize_response session.now.state.core.session }
    {
        FirstReply {
            bytes: session.response().bytes(),
        }
    }

    /// Returns the FatalError of a connection that is refused.
    pub fn refused(code: FatalCode) -> FirstReply
        ensures { result.bytes ≡ header_bytes (header_of FatalError (fatal_code code) 0 0) }
    {
        FirstReply {
            bytes: Header::new(MessageType::FatalError, code.code(), 0, 0).bytes(),
        }
    }
}

//! The law of a session and the one legal history of the device.
ghost use Rattle.psu_client_laws.specs.Recorded.{EachResponseIsOfTheHistory, OneResponseIsSent};

use psu_bench::ServedDisk;
use psu_session_laws::{from_bytes_to_bytes, histories_are_exchanges};

/// What a client is sent, from the one legal history of the device: under the number of the session's seat it has exactly
/// the opening of the session and then the calls of the session's history, in the order in which the session made them,
/// each with its reply. The response to a message of a transmission that is over is formed from the replies of the very
/// entries of the message's units, and is sent whole under its MessageID.
pub fn each_response_is_of_the_history<D: ServedDisk>()
    ensures each { EachResponseIsOfTheHistory D.honest }
    ensures one { OneResponseIsSent }
{
    histories_are_exchanges();
    from_bytes_to_bytes();
}

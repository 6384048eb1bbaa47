//! Why a step failed.

/// Why a step failed: what a client expected and did not receive.
#[derive(Clone, Copy, Debug, PartialEq, Eq)]
pub enum Missed {
    /// A precondition of the test failed: an image, a server, a connection.
    Ground(&'static str),
    /// Bytes could not be sent.
    Sending,
    /// Nothing was received in time, or the connection ended.
    Silence,
    /// Another frame was received: the expected header, and the received one.
    Frame([u8; 16], [u8; 16]),
    /// A response has another byte at this place.
    Text(usize),
    /// This claim does not hold.
    Claim(&'static str),
}

/// Fails where a claim does not hold.
pub fn holds(claim: bool, said: &'static str) -> Result<(), Missed> {
    if claim {
        Ok(())
    } else {
        Err(Missed::Claim(said))
    }
}

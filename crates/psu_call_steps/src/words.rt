//! Sessions by their numbers, as steps have them.
use psu_exec::{Session, Sessions};

/// Returns the session with a number.
pub(crate) fn session(word: &str) -> Option<Session> {
    match word.parse() {
        Ok(number) => Session::new(number),
        Err(_) => None,
    }
}

// Whether there is a session, and it has this number.
fn is_numbered(session: Option<&Session>, number: &str) -> bool {
    match session {
        Some(session) => number.parse() == Ok(session.number()),
        None => false,
    }
}

/// Whether the sessions are those with these numbers, in this order.
pub(crate) fn are(sessions: &Sessions, wanted: &str) -> bool {
    let mut sessions = sessions.as_slice().iter();
    for number in wanted.split_whitespace() {
        if !is_numbered(sessions.next(), number) {
            return false;
        }
    }
    sessions.next().is_none()
}

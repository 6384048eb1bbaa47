//! The threads of a session.
use crate::Closed;
use std::marker::PhantomData;
use std::rt::Clock;
use std::sync::Wait;

/// The token of a thread of a session, of the side on which it writes. It is lent to the lock of the session for as
/// long as the session is held, and to each call that may block on a connection or for a notice: so a thread that holds
/// a session neither reads, writes nor waits, nor holds a second session.
pub struct Token<S> {
    side: PhantomData<S>,
}

/// What a thread of a session does.
pub trait Body<S> {
    /// Serves the session until it is over.
    fn serve<R: Wait + Clock>(&mut self, rt: &R, token: &mut Token<S>) -> Closed;
}

/// Runs a thread of a session, which ends only once the session is closed.
pub fn run<S, R: Wait + Clock, B: Body<S>>(rt: &R, body: &mut B) -> Closed {
    let mut token = Token { side: PhantomData };
    let closed = body.serve(rt, &mut token);
    let Token { side: _ } = token;
    closed
}

//! The position of a seat in the queue for the turn.

/// How far a seat is with its call. No value of it is constructed.
pub enum Stage<S> {
    /// It has no ticket.
    Idle,
    /// It drew this ticket.
    Waiting(u64),
    /// Its ticket is served, and the object is in its slot.
    Called(u64),
    /// Under this ticket it has taken the object, which was in this state after so many calls.
    Out(u64, S, u64),
    /// Under this ticket it has made its call, which left this state and count.
    Done(u64, S, u64),
}

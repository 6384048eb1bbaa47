//! The objects that threads may share by a turn.

/// An object whose calls are specified by one relation: which entry, a call with its reply, leads from which state to
/// which.
pub trait Machine {
    /// The object as contracts see it. No value of it need be constructed.
    type State;

    /// A call with its reply. No value of it need be constructed.
    type Entry;

    /// The state of an object.
    ghost state: { Self → Self.State };

    /// From the first state, the call may have this reply and leave the second state.
    ghost allows: { Self.State → Self.Entry → Self.State → Type 0 };
}

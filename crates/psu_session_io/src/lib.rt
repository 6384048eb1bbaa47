//! A session as its threads share it: its value behind a mutex, its two connections, and the notices between its
//! threads.
//!
//! No contract can say what a thread did under a mutex, so what a thread must not forget is a linear value, which has
//! no `Drop`: bytes that were read, a session that has to be continued, bytes that are to be written, the receipt that
//! they are written, what is left to other threads, a notice that arrived, a connection that ended, and a session that
//! has to be closed. Only this crate makes and ends such values. A thread that leaves one out does not compile.
#![tactic(auto)]

mod connection;
mod ending;
mod first_message;
mod first_reply;
mod line;
mod linear;
mod link;
mod lock;
mod mailbox;
mod new_connection;
mod notice;
mod served;
mod shared;
mod side;
mod step_device;
mod taking;
mod thread;
mod writes;

pub use connection::{Connection, Incoming};
pub use ending::Drained;
pub use first_reply::FirstReply;
pub use linear::{
    Arrived, Closed, Closing, Disconnected, NextTask, Outgoing, Pending, Received, Remainder,
    Written,
};
pub use link::{BytesRead, ReadResult, Sent};
pub use lock::{Locked, SessionLock};
pub use mailbox::Mailbox;
pub use new_connection::{ConnectionEnd, FirstRead, NewConnection, Unanswered};
pub use notice::Notice;
pub use served::{NotAwaited, ServedSession};
pub use shared::SharedSession;
pub use side::{Asynchronous, ConnectionSide, Synchronous};
pub use step_device::StepDevice;
pub use thread::{Body, Token, run};
pub use writes::Writes;

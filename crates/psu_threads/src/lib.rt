//! The threads of a server: those of a session, which read, lock it, pass in what they read, execute, take what is to be
//! sent, and write; and the flusher. They share the device, and report to each other what their calls of it cause. What
//! is received, executed and sent is decided by the crates below.
#![tactic(auto)]

mod executing;
mod flusher_signal;
mod flushing;
mod operator;
mod registry;
mod reporter;
mod seated_session;
mod server;
mod serving;
mod session_thread;
mod shared_device;

pub use executing::SILENCE_SECONDS;
pub use flusher_signal::FlusherSignal;
pub use flushing::Flusher;
pub use operator::{Operator, write_lines};
pub use registry::Registry;
pub use reporter::{HeldRegistry, Reporter};
pub use seated_session::{MustClose, SeatedSession};
pub use server::Server;
pub use serving::Continue;
pub use session_thread::{listen_session, read_session, space, work_beside};
pub use shared_device::SharedDevice;

/// A session that threads serve, which is kept with its seat.
pub type SessionOf<D> = psu_session_io::ServedSession<SeatedSession<D>>;

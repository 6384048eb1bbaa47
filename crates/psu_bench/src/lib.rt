//! The device shared by threads, which call it in turns, and the one legal history of their calls; and the device as the
//! callers of a server see it: its power-on, how a thread calls it, and what these calls cause for other threads, which
//! can't be forgotten.
#![tactic(auto)]

mod bench;
mod caller;
mod caused;
mod condition_lines;
mod flushing;
mod gate;
mod gated;
mod machine;
mod opened_session;
pub mod operations;
mod others;
mod reopenings;
mod starting;
mod working;

pub use bench::{Bench, Seat};
pub use caller::{Access, Caller};
pub use caused::{Caused, CausedByJob, Granted};
pub use condition_lines::{ConditionLine, ConditionLines, ReportedCondition};
pub use flushing::{JobEnding, flusher};
pub use gate::{Gate, Open, Point};
pub use gated::{Gated, Served, ServedDisk};
pub use machine::{Call, DeviceState};
pub use opened_session::OpenedSession;
pub use others::{LockedRegistry, Others};
pub use reopenings::Reopenings;
pub use starting::power_on;
pub use working::session_worker;

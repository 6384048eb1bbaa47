//! The locks of the instrument: which session may execute commands, and which requests wait.
//!
//! The lock protocol is that of IVI-6.1 (HiSLIP), with the choices of this project's profile.
#![tactic(auto)]

mod holders;
mod limits;
mod lock_table;
mod requests;
mod results;
mod session;
mod sessions;

pub use limits::{LOCK_STRING_MOST, SESSIONS};
pub use lock_table::LockTable;
pub use requests::{Kind, LockString};
pub use results::{Freed, Grant, Info, LockRefusal};
pub use session::Session;
pub use sessions::Sessions;

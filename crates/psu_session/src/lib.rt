//! A session as one value: its two channels, the transmissions that are to be executed, and the bytes that are to be
//! sent. It contains no thread, no socket and no clock, and no call waits: threads pass in the bytes that they read,
//! continue the execution, and write the bytes that they take.
#![tactic(auto)]

mod acting;
mod credit;
mod device;
mod execution;
mod feeding;
mod filling;
mod limits;
mod locking;
mod notifying;
mod numbers;
mod opening;
mod parts;
mod phase;
mod proceeding;
mod queue;
mod receiving;
mod releasing;
mod room;
mod session;
mod taking;

use credit::Credit;
pub use device::Device;
pub use opening::OpeningError;
use parts::Parts;
pub use phase::{EndCause, Phase};
pub use proceeding::Proceeded;
use queue::{Order, Release, Running, Work};
pub use session::HislipSession;

//! The engine of messages: executes the units of a transmission, one after another, each to its end, and sends their
//! responses. Nothing here waits. The executor of the units is known only by what was requested of it.
#![tactic(auto)]

mod cursor;
mod executor;
mod expansion;
mod expansions;
mod input;
mod laws;
mod limits;
mod memory_refused;
mod messages;
mod need;
mod progress;
mod response_buffer;
mod responses;
mod steps;
mod transmission;
mod tried;
mod tries;

pub use executor::Executor;
pub use expansion::Expansion;
pub use input::Input;
pub use laws::{
    calls_are_one_execution, over_is_done, over_is_messages, over_is_sent, parts_are_the_answers,
    parts_are_the_response, so_far_is_messages,
};
pub use limits::{READ_SIZE, RESPONSE_ROOM};
pub use memory_refused::MemoryRefused;
pub use messages::{execute_fault, execute_text};
pub use need::Need;
pub use progress::Progress;
pub use response_buffer::ResponseBuffer;
pub use transmission::Transmission;
pub use tried::Tried;

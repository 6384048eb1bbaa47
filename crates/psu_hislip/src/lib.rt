//! HiSLIP: the frames of a stream, and what each frame of a session asks for. This crate uses no sockets.
//!
//! Source: IVI-6.1 (HiSLIP 1.0, synchronized mode), with the choices of this project's profile.
#![tactic(auto)]

mod action;
mod answer;
mod channel;
mod codes;
mod decoded;
mod faults;
mod first;
mod frames;
mod header;
mod laws;
mod limits;
mod lock_responses;
mod message;
mod message_type;
mod partial_transmission;
mod rest;
mod session_core;
mod side;
mod step;
mod whole;

pub use action::{Action, Actions, Origin, SENT_MOST};
pub use channel::Channel;
pub use codes::{ErrorCode, FatalCode};
pub use first::First;
pub use header::Header;
pub use laws::{
    a_session_with_a_clear, closed_after_a_fatal_error, each_transmission_once,
    each_transmission_once_between_clears, fed_is_the_stream, no_answer_of_before_a_clear,
    nothing_executed_in_a_clear, one_answer_for_each_message, one_division, parts_are_an_answer,
    pieces_do_not_count, some_division, whole_transmission,
};
pub use limits::{HEADER_SIZE, PAYLOAD_MOST, SENT_PAYLOAD_MOST, TRANSMISSION_MOST};
pub use lock_responses::{LockResponse, lock_info_response, lock_response, release_response};
pub use message::Message;
pub use message_type::MessageType;
pub use session_core::SessionCore;
pub use side::{DeviceClear, Side};

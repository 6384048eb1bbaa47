//! The laws of a session over its whole history: from the bytes that a client sends to those that are sent to it. Their
//! premise is that a history leads to the session's state, as `HislipSession::phase` ensures. The program depends on this
//! crate, so none of it builds without them; no crate of the server waits for their proofs.
#![tactic(auto)]

mod laws;

pub use laws::{
    a_session_that_is_answered, each_clear_is_acknowledged_last, each_item_is_counted,
    each_release_is_done, each_request_is_served, each_session_answers_in_order,
    each_session_is_an_exchange, each_take_is_written, each_wait_is_answered, from_bytes_to_bytes,
    histories_are_exchanges, histories_extend,
};

//! What a client is sent, beside the one legal history of the device that its session calls. The premise of this law is
//! what `SeatedSession::number` ensures. The program depends on this crate, so none of it builds without the law; no crate
//! of the server waits for its proof.
#![tactic(auto)]

mod laws;

pub use laws::each_response_is_of_the_history;

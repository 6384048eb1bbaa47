//! Tests of the engine of messages over an executor in memory. Expected texts are worked by hand from the rules of
//! messages.
mod devices;
mod holds;
mod log;
mod plays;
mod probe;
mod rows;
mod spelled;

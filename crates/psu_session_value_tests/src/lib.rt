//! Tests of sessions as values over one device in memory: clients' messages, and the frames that are then to be sent;
//! and of the engine of messages below them. Expected frames are worked by hand from IVI-6.1 and IEEE 488.2.
#![tactic(auto)]

#[cfg(test)]
mod clears;
#[cfg(test)]
mod ending;
#[cfg(test)]
mod engine;
#[cfg(test)]
mod faults;
#[cfg(test)]
mod frames;
#[cfg(test)]
mod full;
#[cfg(test)]
mod locks;
#[cfg(test)]
mod mem_device;
#[cfg(test)]
mod outputs;
#[cfg(test)]
mod player;
#[cfg(test)]
mod plays;
#[cfg(test)]
mod releases;
#[cfg(test)]
mod service;
#[cfg(test)]
mod session_steps;
#[cfg(test)]
mod transmissions;
#[cfg(test)]
mod waits;

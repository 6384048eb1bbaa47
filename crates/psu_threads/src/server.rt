//! What all threads of a server share beside the device.
use crate::flusher_signal::FlusherSignal;
use crate::operator::Operator;
use crate::registry::Registry;
use std::alloc::Global;
use std::rt::Clock;
use std::sync::{Mutex, Wait};
use std::time::Instant;

/// What all threads of a server share beside the device: the open sessions, what the flusher waits on, and what an
/// operator is to read.
#[derive(Drop)]
pub struct Server {
    pub alloc: Global,
    pub registry: Mutex<Registry>,
    pub flusher_signal: FlusherSignal,
    pub operator: Operator,
    started: Instant,
}

impl Server {
    /// Returns a server without sessions.
    pub fn new(alloc: Global, started: Instant) -> Server {
        Server {
            alloc,
            registry: Mutex::new(Registry::new()),
            flusher_signal: FlusherSignal::new(),
            operator: Operator::new(),
            started,
        }
    }

    /// Returns the time since the start in milliseconds.
    pub fn now<R: Clock>(&self, rt: &R) -> u64 {
        match self.started.elapsed(rt) {
            Ok(time) => u64::try_from(time.as_millis()).unwrap_or(u64::MAX),
            Err(_) => 0,
        }
    }
}

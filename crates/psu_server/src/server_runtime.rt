//! What the threads of a server need of the runtime.
use std::rt::Clock;
use std::sync::Wait;
use std::thread::Threads;

/// What the threads of a server need of the runtime: they start others, wait, and read the clock, and each has a copy of it.
pub trait ServerRuntime: Threads + Wait + Clock + Copy + Send + 'static {}

impl<R: Threads + Wait + Clock + Copy + Send + 'static> ServerRuntime for R {}

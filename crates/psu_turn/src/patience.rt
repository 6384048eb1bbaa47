//! How a thread waits for its turn.
use std::thread;

// The number of times that a thread looks again at once.
const LOOKS: u32 = 64;

// The number of times that a thread has looked without success, up to `LOOKS`.
#[derive(Drop)]
pub(crate) struct Patience {
    looks: u32,
}

impl Patience {
    pub(crate) fn new() -> Patience {
        Patience { looks: 0 }
    }

    // Waits before the next look: yields the processor after `LOOKS` looks. With more threads than processors, the
    // thread whose turn it is might not run otherwise.
    pub(crate) fn pause(&mut self) {
        if self.looks < LOOKS {
            self.looks += 1;
        } else {
            thread::yield_now();
        }
    }
}

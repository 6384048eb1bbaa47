//! A gate that blocks the flusher until a session was answered.
use psu_bench::{Gate, Point};
use std::sync::atomic::{AtomicBool, AtomicU64, Ordering};
use std::thread;

// How often a flag is checked: the thread that sets it runs meanwhile.
const LOOKS: u32 = 1_000_000;

/// A gate at which the first thread to reach this point waits until an answer was given, for at most a number of
/// checks.
#[derive(Drop)]
pub(crate) struct Hold {
    point: Point,
    held: AtomicBool,
    answered: AtomicBool,
    overlapped: AtomicBool,
    writes: AtomicU64,
}

impl Hold {
    /// Returns a gate that blocks the first thread at this point.
    pub(crate) fn new(point: Point) -> Hold {
        Hold {
            point,
            held: AtomicBool::new(false),
            answered: AtomicBool::new(false),
            overlapped: AtomicBool::new(false),
            writes: AtomicU64::new(0),
        }
    }

    /// Waits until the flusher is held, and returns whether it is.
    pub(crate) fn wait_until_held(&self) -> bool {
        came_true(&self.held)
    }

    /// Whether an answer was given while the flusher was held.
    pub(crate) fn overlapped(&self) -> bool {
        self.overlapped.load(Ordering::SeqCst)
    }

    /// The number of pages that were to be written.
    pub(crate) fn writes(&self) -> u64 {
        self.writes.load(Ordering::SeqCst)
    }

    fn hold(&self) {
        if self.held.swap(true, Ordering::SeqCst) {
            return;
        }
        if came_true(&self.answered) {
            self.overlapped.store(true, Ordering::SeqCst);
        }
    }
}

impl Gate for Hold {
    fn at(&self, point: Point) {
        if point == Point::BeforeWrite {
            self.writes.fetch_add(1, Ordering::SeqCst);
        }
        if point == self.point {
            self.hold();
        }
        if point == Point::AfterAnswer {
            self.answered.store(true, Ordering::SeqCst);
        }
    }
}

fn came_true(flag: &AtomicBool) -> bool {
    for _ in 0..LOOKS {
        if flag.load(Ordering::SeqCst) {
            return true;
        }
        thread::yield_now();
    }
    false
}

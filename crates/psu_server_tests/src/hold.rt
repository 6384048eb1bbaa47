//! A gate that blocks the flusher until a client releases it.
use crate::ground::allocated;
use psu_client::{Missed, holds};
use psu_server::{Gate, Point};
use std::alloc::Global;
use std::sync::Arc;
use std::sync::atomic::{AtomicBool, Ordering};
use std::thread;
use std::time::{Clock, Duration};

// How often a flag is checked, once a millisecond: for almost as long as a test may last.
const LOOKS: u32 = 50_000;

#[derive(Drop)]
struct State {
    is_at_point: AtomicBool,
    is_released: AtomicBool,
    has_timed_out: AtomicBool,
}

/// A gate that blocks a thread at a point, if there is one, until it is released, for at most `LOOKS` checks.
#[derive(Drop)]
pub(crate) struct Hold<R: Drop> {
    rt: R,
    point: Option<Point>,
    state: Arc<State>,
}

// Whether a flag is set within the checks.
fn came_true<R: Clock>(rt: &R, flag: &AtomicBool) -> bool {
    for _ in 0..LOOKS {
        if flag.load(Ordering::SeqCst) {
            return true;
        }
        thread::sleep(rt, Duration::from_millis(1));
    }
    false
}

impl<R: Clock + Copy> Hold<R> {
    /// Returns a gate that blocks at this point, or at none.
    pub(crate) fn new(rt: R, alloc: Global, point: Option<Point>) -> Result<Hold<R>, Missed> {
        let state = State {
            is_at_point: AtomicBool::new(false),
            is_released: AtomicBool::new(false),
            has_timed_out: AtomicBool::new(false),
        };
        let state = allocated(Arc::new(alloc, state))?;
        Ok(Hold { rt, point, state })
    }

    /// Returns another handle to this gate, for the server.
    pub(crate) fn another(&self) -> Result<Hold<R>, Missed> {
        Ok(Hold {
            rt: self.rt,
            point: self.point,
            state: allocated(Arc::try_clone(&self.state))?,
        })
    }

    /// Waits until the flusher is held.
    pub(crate) fn wait_until_held(&self) -> Result<(), Missed> {
        let is_at_point = came_true(&self.rt, &self.state.is_at_point);
        holds(is_at_point, "the flusher is held")
    }

    /// Releases the flusher, which was held until now.
    pub(crate) fn release(&self) -> Result<(), Missed> {
        let has_timed_out = self.state.has_timed_out.load(Ordering::SeqCst);
        self.state.is_released.store(true, Ordering::SeqCst);
        holds(!has_timed_out, "the flusher was held until now")
    }
}

impl<R: Clock + Copy> Gate for Hold<R> {
    fn at(&self, point: Point) {
        if self.point == Some(point) {
            self.state.is_at_point.store(true, Ordering::SeqCst);
            if !came_true(&self.rt, &self.state.is_released) {
                self.state.has_timed_out.store(true, Ordering::SeqCst);
            }
        }
    }
}

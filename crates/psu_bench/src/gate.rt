//! Gates, by which a thread can be blocked from outside.
use std::sync::Arc;

/// A point that a thread of the bench has reached.
#[derive(Clone, Copy, Debug, PartialEq, Eq)]
pub enum Point {
    /// The flusher has a job, and has not begun to run it.
    BeforeRun,
    /// A page is about to be written.
    BeforeWrite,
    /// A session's unit has its outcome.
    AfterAnswer,
}

/// Called at each point before the thread continues. It waits for no other thread: a gate that blocks a thread checks
/// a bounded number of times.
pub trait Gate {
    fn at(&self, point: Point);
}

/// A gate that blocks no thread.
#[derive(Clone, Copy, Debug, PartialEq, Eq)]
pub struct Open;

impl Gate for Open {
    fn at(&self, _point: Point) {}
}

impl<G: Gate> Gate for &G {
    fn at(&self, point: Point) {
        (**self).at(point);
    }
}

impl<G: Gate> Gate for Arc<G> {
    fn at(&self, point: Point) {
        (**self).at(point);
    }
}

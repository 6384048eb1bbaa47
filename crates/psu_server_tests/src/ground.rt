//! What a test stands on, without which it can't begin: memory and a clock. Where it is missing, the test fails as where
//! its client misses a response, so a test has one type of fault, and a `?` in it little to prove.
use psu_client::Missed;
use std::time::{Clock, Duration, Instant};

/// Returns what was allocated, unless memory was refused.
pub(crate) fn allocated<T, E: Drop>(made: Result<T, E>) -> Result<T, Missed> {
    match made {
        Ok(made) => Ok(made),
        Err(_) => Err(Missed::Ground("memory")),
    }
}

/// Returns the present time.
pub(crate) fn now<R: Clock>(rt: &R) -> Result<Instant, Missed> {
    match Instant::now(rt) {
        Ok(now) => Ok(now),
        Err(_) => Err(Missed::Ground("a clock")),
    }
}

/// Returns how long it is since a time.
pub(crate) fn since<R: Clock>(rt: &R, begin: Instant) -> Result<Duration, Missed> {
    match begin.elapsed(rt) {
        Ok(passed) => Ok(passed),
        Err(_) => Err(Missed::Ground("a clock")),
    }
}

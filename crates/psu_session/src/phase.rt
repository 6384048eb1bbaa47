//! The phase of a session, and why a session is over.
ghost use Rattle.std.specs.Prelude.{◌≡◌, IfOk};
ghost use Rattle.psu_session.specs.Phases.{disconnected, phase_after, units_in, with_left};

use crate::Proceeded;
use crate::limits::{UNITS_AFTER_END, UNITS_AT_ONCE};
use psu_messages::Need;
use std::alloc::AllocError;

/// Why a session is over.
#[derive(Clone, Copy, Debug, PartialEq, Eq)]
pub enum EndCause {
    /// An allocation failed.
    Memory,
    /// More would be held of what was received than a session may hold.
    TooMuchHeld,
    /// A connection has ended, and what was sent before is executed as far as it is to be.
    Disconnected,
}

impl From<AllocError> for EndCause {
    ghost use Rattle.std.specs.Prelude.{◌≡◌};
    ghost use Rattle.psu_session.specs.declared.phase.EndCause.TheVariants.{Memory};

    ghost from_gives = { λ _ cause. cause ≡ Memory };

    fn from(_: AllocError) -> Self {
        EndCause::Memory
    }
}

/// The phase of a session.
#[derive(Clone, Copy, Debug, PartialEq, Eq)]
pub enum Phase {
    /// It is received, executed and answered.
    Open,
    /// A connection has ended, or is to end. What was sent before is still executed, at most so many units of it.
    Ending(u32),
    /// The session is over: nothing more is done for it.
    Over(EndCause),
}

impl Phase {
    /// Returns how many units may be tried: at most 64 in a call of a session that is open.
    pub(crate) fn units(self) -> u32
        ensures { result ≡ units_in self }
    {
        match self {
            Phase::Open => UNITS_AT_ONCE,
            Phase::Ending(left) => left,
            Phase::Over(_) => 0,
        }
    }

    /// Returns the phase once a connection has ended.
    pub(crate) fn disconnected(self) -> Phase
        ensures { result ≡ disconnected self }
    {
        match self {
            Phase::Open => Phase::Ending(UNITS_AFTER_END),
            Phase::Ending(_) | Phase::Over(_) => self,
        }
    }

    // Returns the phase of a session that ends, if so many units are left.
    fn with_left(left: u32, proceeded: Proceeded) -> Phase
        ensures { result ≡ with_left left proceeded }
    {
        match proceeded {
            Proceeded::Waits(Need::Flush | Need::Lock | Need::Room) => {
                Phase::Over(EndCause::Disconnected)
            }
            Proceeded::Idle | Proceeded::Completed | Proceeded::Waits(Need::Turn) => match left {
                0 => Phase::Over(EndCause::Disconnected),
                _ => Phase::Ending(left),
            },
        }
    }

    // Returns the phase after a call that continued the execution, if so many units are left.
    fn passed(self, left: u32, proceeded: Proceeded) -> Phase
        ensures { result ≡ phase_after self left proceeded }
    {
        match self {
            Phase::Open | Phase::Over(_) => self,
            Phase::Ending(_) => Phase::with_left(left, proceeded),
        }
    }

    /// Returns the phase after a call that continued the execution, if it has this result and so many units are left.
    pub(crate) fn after(self, left: u32, done: &Result<Proceeded, EndCause>) -> Phase
        ensures { IfOk done.now (λ proceeded. result ≡ phase_after self left proceeded) }
    {
        match done {
            Ok(proceeded) => self.passed(left, *proceeded),
            Err(_) => self,
        }
    }
}

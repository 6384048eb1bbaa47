//! Steps of what sessions do with a device, as calls of psu_exec with their results: a text, one step a line, that one
//! loop plays. A text costs a proof far less than one call a step, and reads as a sequence of events. The words are those
//! of all scripts (docs/TESTED.md).
//!
//! | step | holds where |
//! |---|---|
//! | `open 1` | a session opens, and has number 1 |
//! | `1: *SRE 4 -> done` | session 1 executes a unit with this outcome, one of those below |
//! | `1: *SAV 0 -> done; costs 2` | it executes a unit with this outcome, and the contents then cost this many pages |
//! | `1 does VOLT 2;*SAV 3` | it executes these units one after another, and each is done |
//! | `1 fills *PSC 0` | it executes a unit 1,024 times, and each time it is done |
//! | `1 settles 1` | this is the outcome of its wait, as of a unit |
//! | `1 srq 68`, `1 srq nothing` | this is the service request that is sent now |
//! | `1 polls 68` | this is the status byte of a status query |
//! | `1 sent`, `1 sent 1 2` | a response is sent; no session, or these, request service then |
//! | `1 delivered` | what was sent is delivered |
//! | `1 clears` | its wait is dropped |
//! | `1 closes`, `1 closes 4` | it ends, and these sessions are then granted a lock |
//! | `1 shares` | it requests the shared lock `k`, and is granted it |
//! | `1 requests queued at 0 for 10` | it requests the exclusive lock with this result, one of those below |
//! | `1 releases exclusive 3`, `1 releases nothing` | it releases a lock, which these sessions are then granted |
//! | `tick 20 fails 2` | at a moment, in milliseconds, these lock requests fail |
//! | `next 30`, `next none` | this is the next deadline |
//! | `crowded` | no other session can open |
//! | `flush 1`, `flush` | one job runs and ends the waits of these sessions; none where there is nothing to do |
//! | `beside 1: *SRE 4 -> done; 1 does *PSC 1` | one job runs, meanwhile these steps hold; it ends no wait |
//! | `idle` | no job is taken, as there is nothing to do |
//! | `lock-info exclusive 2`, `lock-info shared 2` | whether the exclusive lock is held, and how many sessions hold a lock |
//! | `flushed`, `unflushed` | whether all changes are flushed |
//! | `whole`, `broken` | whether the store accepts commits, or a commit has failed |
//! | `keeps 4 0` | these are the enables that the contents keep |
//! | `work 1 2`, `rest 1 2` | these sessions requested service since, and there is something to flush, or nothing |
//!
//! The outcome of a unit is its answer, or `done`, `error`, `media full` (the error with that name), `expand`,
//! `parked`, `held` or `later`. A lock is requested at a moment and with a timeout, both in milliseconds; the result is
//! `granted`, `queued`, `failed`, `waiting` or `already-held`. An empty line is not a step, nor is one that begins with
//! `#`. A line that is not a step does not hold.
#![tactic(auto)]

mod device_steps;
mod devices;
mod job_steps;
mod lock_steps;
mod outcomes;
mod player;
mod service_steps;
mod session_steps;
mod sights;
mod unit_steps;
mod words;

pub use devices::{image, powered_on};
pub use job_steps::{beside, ends_waits};
pub use player::{StepFault, play, play_anew, step_holds};

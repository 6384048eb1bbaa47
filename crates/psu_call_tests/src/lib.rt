//! Tests of the calls on the execution, below the run, that need code: disks that fail, memory that is refused, counts
//! of disk calls. Scripts of steps are in `psu_call_scripts`. Expected values are worked by hand from the rules of the
//! instrument.
#![tactic(auto)]

#[cfg(test)]
mod changes_meanwhile;
#[cfg(test)]
mod counted;
#[cfg(test)]
mod counts;
#[cfg(test)]
mod devices;
#[cfg(test)]
mod full_tails;
#[cfg(test)]
mod holds;
#[cfg(test)]
mod plays;
#[cfg(test)]
mod refusals;
#[cfg(test)]
mod stores;
#[cfg(test)]
mod strangers;
#[cfg(test)]
mod untrue;

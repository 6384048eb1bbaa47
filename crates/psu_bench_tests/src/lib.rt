//! Tests of the bench: threads that share one device. Expected values are worked by hand from the rules of the
//! instrument.
#![tactic(auto)]

#[cfg(test)]
mod benches;
#[cfg(test)]
mod callers;
#[cfg(test)]
mod closings;
#[cfg(test)]
mod holds;
#[cfg(test)]
mod lines;
#[cfg(test)]
mod many;
#[cfg(test)]
mod overlaps;
#[cfg(test)]
mod refusals;
#[cfg(test)]
mod turns;

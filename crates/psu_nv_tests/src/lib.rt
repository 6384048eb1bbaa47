//! Tests of the nonvolatile contents of the instrument, of their changes, and of reading them from a map. Expected
//! values are worked by hand from the rules of the instrument.
#![tactic(auto)]

#[cfg(test)]
mod contents;
#[cfg(test)]
mod decoding;
#[cfg(test)]
mod holds;
#[cfg(test)]
mod maps;
#[cfg(test)]
mod wants;

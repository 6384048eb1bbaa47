//! Tests of the parts between the wire and the execution, each through its crate. Expected values are worked by hand
//! from the rules of the standards.
#![tactic(auto)]

#[cfg(test)]
mod answers;
#[cfg(test)]
mod clears;
#[cfg(test)]
mod commands;
#[cfg(test)]
mod conversations;
#[cfg(test)]
mod frames;
#[cfg(test)]
mod grammar;
#[cfg(test)]
mod headers;
#[cfg(test)]
mod hislip;
#[cfg(test)]
mod holds;
#[cfg(test)]
mod locks;
#[cfg(test)]
mod outputs;
#[cfg(test)]
mod paths;
#[cfg(test)]
mod readings;
#[cfg(test)]
mod sessions;
#[cfg(test)]
mod settings;
#[cfg(test)]
mod status;
#[cfg(test)]
mod streams;
#[cfg(test)]
mod syntaxes;
#[cfg(test)]
mod tree;

//! Tests of behavior that can't be observed by running the program as a process:
//!
//! - a run of each command over files and streams in memory, in which each call to each device
//!   fails in turn, with the expected status and every expected byte of the output worked out by
//!   hand;
//! - trees in JSON, read back by `serde_json`;
//! - system calls that a signal interrupts;
//! - the methods of a list.
//!
//! No other crate depends on this one.
#![tactic(auto)]

#[cfg(test)]
mod cases;
#[cfg(test)]
mod command;
#[cfg(test)]
mod files;
#[cfg(test)]
mod lists;
#[cfg(test)]
mod streams;
#[cfg(test)]
mod tests;
#[cfg(test)]
mod trees;

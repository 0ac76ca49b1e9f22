//! The machine. It runs a program on the bytes of a line to find out whether the line matches.
//!
//! `run` takes exactly the steps that `rpl_core` defines for the line's characters, and adds one
//! tick per step to the caller's `Steps`. It returns the place where the match ends, or reports
//! that there is no match or that the budget was too small. Places are byte offsets. A run whose
//! `Scratch` has enough room never runs out of memory.
#![tactic(auto)]

mod act;
mod answer;
mod bare;
mod failing;
mod learning;
mod lists;
mod looping;
mod moves;
mod runner;
mod scratch;
mod searches;
mod skimming;
mod spans;
mod states;
mod steps;
mod turn;
mod watching;

pub use answer::{Answer, RunFault};
pub use learning::Memo;
pub use rpl_core::NoMemory;
pub use runner::Runner;
pub use scratch::{Scratch, run};
pub use steps::Steps;

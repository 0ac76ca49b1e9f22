//! Code that is being written: instructions in order, with one copy of each set and each text that
//! they refer to.
//!
//! This crate serves the code that builds programs: the compiler, and the reader and writer of code
//! files. The tables look up sets and texts in sorted maps, so a lookup is fast no matter which
//! sets and texts there are. Sets and texts are numbered in the order of their first use, so that
//! no code is represented by two different programs (`table_law`).
#![tactic(auto)]

mod draft;
mod laws;
mod tables;

pub use draft::Draft;
pub use laws::table_law;
pub use rpl_core::NoMemory;
pub use tables::{LabelTable, SetTable};

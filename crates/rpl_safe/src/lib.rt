//! Verifies code before it is run. No run of safe code, on any text, reaches an address without an
//! instruction or pops a stack entry that isn't there, and each match is one tree.
//!
//! This crate checks code from elsewhere, such as a file from an untrusted source. `is_safe`
//! decides whether a program's code is safe, in time and memory linear in the size of the code. The
//! laws state what safe code guarantees on every text. The laws also state that the code of a goal
//! that is a capture is safe if all calls name rules of the table. The definition
//! (`specs/Safe.antt`) assigns one shape of the stack to each address that a run can reach, as the
//! verifiers of other machines do (Lindholm and Yellin 1996, on the Java virtual machine).
#![tactic(auto)]

mod finding;
mod laws;
mod marks;
mod steps;
mod verify;
mod whole_tree;

pub use laws::{code_is_safe_law, safe_match_law, safe_run_law};
pub use rpl_core::NoMemory;
pub use verify::is_safe;

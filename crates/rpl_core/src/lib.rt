//! Defines what patterns mean, what the machine does, and what the code of each pattern is
//! (`specs/`). Provides the types that hold patterns, rules and code. Every other crate that
//! handles patterns uses these types: expansion builds a `Peg`, the compiler builds a `Program`,
//! and the machine runs the program. The types guarantee that rules have distinct names and that
//! every number in a program is in range. [`reached_rules`] finds exactly the rules that a goal
//! reaches, and [`reached`] marks these rules in a list with one entry for each rule of the table.
//! The laws state properties of the definitions alone. docs/MEANING.md explains the definitions in
//! plain words.
#![tactic(auto)]

mod caught;
mod instr;
mod laws;
mod lengths;
mod order;
mod peg;
mod program;
mod reach;
mod rules;

pub use caught::Caught;
pub use instr::{Instr, Instrs};
pub use laws::{code_law, depth_law, flat_law, has_code_law, run_law};
pub use lengths::{greatest_length, has_call, has_repetition, least_length};
pub use order::{calls_are_rules, is_in_order, is_outside, joins_next};
pub use peg::{Peg, Pegs};
pub use program::{Labels, Program, Sets};
pub use reach::{reached, reached_rules};
pub use rules::{Rule, Rules};
/// The out-of-memory error, which every call that allocates can return.
pub use std::alloc::AllocError as NoMemory;

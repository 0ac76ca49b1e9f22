//! The texts that `list`, `expand` and `class` print, for people who want to see names,
//! patterns, programs and classes.
//!
//! [`names_text`] returns the text of the names that a pattern may use. [`Expansion`] is a pattern
//! with the rules that the pattern reaches, and the pattern's program if that is wanted. The text
//! of an expansion can be far longer than the pattern, so [`Expanding`] makes the text token by
//! token: the pattern as it is written, the pattern's core, the core of each rule that the pattern
//! reaches, and one line per instruction of the program. [`print_program`] returns the text of a
//! program: each line gives an address, a space, and the instruction there, with the set or text
//! itself in place of the number by which the program refers to it. [`push_class`] appends a line
//! for each range of a set. Each text is exactly as its definition states. Only a lack of memory
//! can make a call fail.
#![tactic(auto)]

mod ascending;
mod class;
mod expanding;
mod expansion;
mod groups;
mod instruction;
mod kept_set;
mod laws;
mod names;
mod program;

pub use class::push_class;
pub use expanding::Expanding;
pub use expansion::Expansion;
pub use laws::{lines_follow_names, one_expansion, one_names_text};
pub use names::names_text;
pub use program::print_program;
pub use rpl_core::NoMemory;

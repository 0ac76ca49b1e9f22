//! Sets of characters, and the brackets that denote them.
//!
//! The parser uses this crate to read brackets. The sets pass through every later stage to the
//! machine, which calls `Set::has` once per character. Contracts see a set as its list of ranges.
//! The ranges are sorted, don't touch and contain no surrogates, so sets with the same members have
//! the same list. The contract of each call states exactly which members the returned set has:
//! `Set::named` returns a class of the POSIX C locale or the set with a Unicode name, and
//! `read_bracket` returns the bracket's set, or the first fault and its place. The only other
//! failure is running out of memory.
#![tactic(auto)]

mod bits;
mod brackets;
mod classes;
mod compounds;
mod fault;
mod gathered;
mod laws;
mod lists;
mod named_sets;
mod set;
mod symbols;

pub use brackets::{Bracket, read_bracket, read_bracket_with};
pub use fault::SetFault;
pub use laws::{one_list, reads_in_its_own_words};
pub use named_sets::NamedSets;
pub use rpl_text::NoMemory;
pub use set::Set;

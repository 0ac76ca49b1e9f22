//! The list type that all crates share: a growable array that is extended only at its end.
//!
//! Crates use `List` for the sequences of instructions, sets, tokens, rules or paths in their
//! public types. Contracts see a `List` as the list of its elements.
//! A crate may give its list type a name of its own, as in `pub type Tokens = List<Token>`. The
//! contract of each method states which elements the list has after the call. A method that returns
//! an error changes nothing.
#![tactic(auto)]

mod list;

pub use list::List;
/// The error of every method that allocates: out of memory.
pub use std::alloc::AllocError as NoMemory;

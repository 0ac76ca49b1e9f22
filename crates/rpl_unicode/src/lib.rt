//! Unicode's named sets of characters, and the characters that differ only in case.
//!
//! The sets of `rpl_classes`, which the parser and the macros use, are built on this crate.
//! `class_ranges` returns exactly the characters in the named property, general category or script,
//! and returns `UnknownClass` exactly when none of these has that name. `folds` returns exactly the
//! characters that share a simple case folding with a character of a range. Returned ranges are
//! sorted, don't touch and contain no surrogates. The tables are those of the crate `unicode`;
//! nothing is read from them before a call.
#![tactic(auto)]

mod classes;
mod fault;
mod folding;
mod ranges;

pub use classes::class_ranges;
pub use fault::ClassFault;
pub use folding::{folds, folds_of};
pub use ranges::{RangeList, characters};
/// The out-of-memory error, which every call here can return.
pub use std::alloc::AllocError as NoMemory;

//! Prints the elements that answers, cores, programs and traces have in common.
//!
//! This crate is for code that writes text for a user to read or keep. It prints texts (as JSON
//! strings or unchanged), sets of characters (as ranges) and numbers. Each call appends exactly the
//! bytes that its contract states. JSON strings are the same as those of `serde_json`: a string
//! that needs an escape is written by the writer on which `serde_json` is built, and any other
//! string is copied.
#![tactic(auto)]

mod sets;
mod strings;
mod words;

pub use strings::{is_plain, push_quoted};
/// The out-of-memory error, which every call that allocates can return.
pub use rpl_text::NoMemory;
pub use sets::push_set;
pub use words::{push_decimal, push_hexadecimal, push_text, text_of};

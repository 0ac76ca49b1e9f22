//! Text as characters and byte offsets.
//!
//! The code that reads patterns, escapes or numbers uses this crate, and so does the machine, which
//! walks over a line character by character. Contracts see a text as the list of its characters. A
//! place in a text is the byte offset of a character, or that of the end. The contract of each
//! function states which character, place or number it returns, and exactly when it returns `None`.
//! Only the copying functions of `Chars` allocate.
#![tactic(auto)]

mod chars;
mod escapes;
mod line;
mod marks;
mod numbers;
mod text;

pub use chars::Chars;
pub use escapes::{escape, read_escape};
pub use numbers::{read_number, value_of_digits};
pub use std::alloc::AllocError as NoMemory;
pub use text::Text;

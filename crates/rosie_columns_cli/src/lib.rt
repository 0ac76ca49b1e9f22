//! The program `rosie-columns` as a single call, [`columns`]. The call reads the words, and then
//! writes the header, a row for each line of the inputs that is a tree, and, at the end, a list of
//! the columns for which no tree had a node. `main` calls `columns` with the real streams.
#![tactic(auto)]

mod ending;
mod fault;
mod job;
mod laws;
mod top;
mod words;

pub use ending::Ending;
pub use fault::WordFault;
pub use job::ColumnsJob;
pub use laws::piped;
pub use rosie_run::Status;
pub use std::alloc::AllocError as NoMemory;
pub use top::columns;
pub use words::{Asked, Names, read_words};

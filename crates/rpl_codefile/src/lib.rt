//! Code files. A code file is a program's code, spelled as bytes, so that a pattern can be compiled
//! once and used where no packages are installed.
//!
//! `write_code` returns the one spelling of a program's code. `read_code` returns the program that
//! the bytes of a code file spell. It refuses bytes exactly when they spell no code, or spell code
//! that isn't safe. So the code in a file from an untrusted source can do nothing except match
//! text. Reading a file takes memory that is linear in the size of the file. Whatever the file
//! contains, the time that reading takes is also linear in the size of the file, except that
//! sorting the ranges, sets and texts adds a logarithmic factor.
#![tactic(auto)]

mod code_file;
mod copying;
mod fault;
mod laws;
mod reading;
mod tables;
mod writing;

pub use code_file::{read_code, write_code};
pub use fault::CodeFault;
pub use laws::{compiled_can_be_spelled, has_spelling, one_reading, one_spelling};
pub use rosie_io::Bytes;
pub use rpl_core::NoMemory;

//! The words of the command line. Each list of words either specifies a command with its options or
//! contains a fault.
//!
//! The top-level function of `rosie_cli` uses this crate. [`read_words`] parses the words. The
//! contract of `read_words` says which command a list of words specifies, or which fault in the
//! list comes first. [`usage`] and [`fault_line`] return the texts that are printed for a fault.
#![tactic(auto)]

mod command;
mod fault;
mod lists;
mod option_values;
mod printed;
mod reading;
mod role;
mod settings;
mod table;
mod value;
mod what;

pub use command::{Command, What};
pub use fault::UsageFault;
pub use lists::Paths;
pub use printed::{fault_line, usage};
pub use reading::{no_reading_is_out_of_memory, read_words};
pub use settings::Settings;
pub use std::alloc::AllocError as NoMemory;

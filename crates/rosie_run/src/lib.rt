//! Runs any command: writes the pieces of the command's report one after the other, and ends with
//! the status that the pieces determine, unless the run stops early.
//!
//! A command is given as a text ([`say`], or [`write_text`] for a text that is made in short
//! portions), as a job for each line of its inputs ([`LineJob`], [`run_inputs`]), or as any other
//! source of pieces ([`PieceSource`]). A command only produces texts; it has no access to the
//! outputs. [`run_pieces`] is the only loop that writes the texts; before it waits for input, it
//! flushes the outputs. The contract of `run_pieces` says, for each result, which pieces were
//! written and how far reading got. [`finish`] ends every run. `specs/Headline.antt` defines what a
//! status says about the report of any command.
//!
//! [`Unready`] is the reason why a command has nothing to run. The crates that prepare a command
//! return it.
#![tactic(auto)]

mod ended;
mod ending;
mod inputs;
mod line_job;
mod lines;
mod mark;
mod outputs;
mod parts;
mod piece_source;
mod running;
mod saying;
mod status;
mod tally;
mod text_source;
mod tool;
mod unready;
mod write;

pub use ended::Ended;
pub use ending::finish;
pub use inputs::{Inputs, Wanted, run_inputs};
pub use line_job::{InputLine, LineJob};
pub use lines::Reading;
pub use mark::Mark;
pub use outputs::Outputs;
pub use parts::write_text;
pub use piece_source::PieceSource;
pub use rosie_io::ReadStop;
pub use running::run_pieces;
pub use saying::{cut, say};
pub use status::Status;
pub use std::alloc::AllocError as NoMemory;
pub use tally::Tally;
pub use text_source::TextSource;
pub use tool::Tool;
pub use unready::Unready;
pub use write::{input_fault, input_message, line_fault, line_message};

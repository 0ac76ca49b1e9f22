//! Parses RPL: a pattern into an expression, a file into a module.
//!
//! The package loader and the commands call this crate with a text and its tokens. A text is parsed
//! exactly as the grammar says, or refused with its first fault and the byte offset of that fault.
//! `rpl_syntax` defines the grammar of expressions; `Spelling` and `Order` in `specs/` define the
//! grammars of statements and modules. Apart from faults in the text, the only failure is running
//! out of memory. Parsing takes time linear in the number of tokens. The nesting level is checked
//! before the recursive descent starts, so the depth of the recursive calls is also limited.
#![tactic(auto)]

mod assemble;
mod convert;
mod descent;
mod fault;
mod laws;
mod level;
mod line;
mod pattern;
mod piece;
mod refusal;
mod statements;
mod steps;
mod walk;

pub use fault::{ParseFault, ParseKind};
pub use laws::{
    bodies_can_be_written, one_line, one_module, one_pattern, patterns_are_readings, printed_again,
};
pub use pattern::parse_pattern;
pub use rpl_text::NoMemory;
pub use statements::parse_module;

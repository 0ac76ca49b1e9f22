//! Prepares a command: turns its roots and its pattern into a rule table and a core that can be
//! compiled, or into the line that reports the first fault.
//!
//! Only the command `rosie` uses this crate. [`prepare`] makes three passes: it loads the roots,
//! the pattern and all that they import, expands them into a rule table and the pattern's core, and
//! checks the table and the core. One relation over the tree of files, in `specs/Prepared.antt`,
//! defines the result. Preparation reports a read fault only if opening or reading a file failed.
//! Every file is closed, however the call ends. In the same way, [`prepare_rules`] prepares a
//! command that has no pattern. For every set of packages that is loaded, it is proved
//! (`rpl_expand`) that the table is in order, and that the pattern's core calls only rules of the
//! table and makes one tree.
//!
//! [`load_line`], [`expand_line`], [`check_line`] and [`compile_line`] return the line that reports
//! a fault, with its file and byte offset, exactly as `specs/Lines.antt` defines it;
//! docs/COMMAND.md lists the texts for users. There is no line for a lack of memory, which is
//! returned as `NoMemory`.
#![tactic(auto)]

mod edge;
mod laws;
mod load;
mod pattern_request;
mod prepared;
mod rules;
mod steps;
mod texts;

pub use edge::{prepare, prepare_rules};
pub use laws::{one_preparation, one_reading, one_table};
pub use load::load_line;
pub use pattern_request::PatternRequest;
pub use prepared::{Prepared, PreparedRules};
pub use rpl_text::NoMemory;
pub use rules::{check_line, compile_line, expand_line};

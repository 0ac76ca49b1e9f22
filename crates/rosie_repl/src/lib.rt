//! The commands of a session, and the state that a session keeps: texts, a pattern, and how to undo
//! each change.
//!
//! The command `repl` uses this crate. Each line of a session's input is a command: `read_edit`
//! parses the line, and a `State` makes and undoes the changes. The command on a line, the state
//! after a change, and the state after `undo` are exactly those that `specs/Edits.antt` and
//! `specs/Session.antt` define. To decide whether to accept a change, the caller loads the changed
//! state. For each earlier change, a state holds only what is needed to undo it, so a change takes
//! memory in proportion to its own size, and `undo` allocates nothing.
#![tactic(auto)]

mod edit;
mod state;
mod undoing;

pub use edit::{Edit, read_edit};
pub use rpl_text::NoMemory;
pub use state::State;

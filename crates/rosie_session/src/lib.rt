//! Runs a session. Each line of the session's input is a command, which changes the texts or the
//! pattern, or tries a line. The answer to each command is computed from the texts as they are when
//! the command is read.
//!
//! The command `repl` uses this crate. [`run_session`] reads the lines and keeps the session's
//! state, a `State` of `rosie_repl`. `run_session` loads the kept texts again for each change and
//! each tried line. `specs/Replay.antt` defines the answers, given the result of loading the texts,
//! and `specs/Loading.antt` defines that result for a tree of files. `specs/Asked.antt` defines
//! which files a session asks to be opened. A refused command leaves the state unchanged.
#![tactic(auto)]

mod laws;
mod loading;
mod replies;
mod reply;
mod run;
mod session_end;
mod turn;

pub use laws::{budget_law, no_stop_law, one_loading, try_law, undo_law};
pub use run::run_session;

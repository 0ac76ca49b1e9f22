//! The whole command as one call: [`rosie`] parses the words of the command line, makes a plan for
//! the command, and runs the plan. `main` calls it with the real streams and files, and tests call
//! it with streams and files in memory.
//!
//! `specs/Planned.antt` defines which plan follows from the words and the tree of files, and
//! `specs/Plans.antt` defines what a plan writes. `specs/Rosie.antt` states the result of a call:
//! for each status, what is known about the plan and about what the plan writes. Each command is a
//! case of `IsPlanned` and an arm of `plan_command`, which calls the command's own module; the
//! commands that run a pattern on lines share `goal_plan`. Planning only reads files, and nothing
//! is written before the plan is made. A session ([`session`]) has no plan, since a session reads
//! its files as its lines arrive.
#![tactic(auto)]

mod class_plan;
mod code_plan;
mod command_line;
mod compile_plan;
mod expand_plan;
mod expand_run;
mod goal_plan;
mod laws;
mod list_plan;
mod plan;
mod planning;
mod sample_plan;
mod test_plan;
mod top;

pub use laws::{compiled_is_run, one_plan, promise_law};
pub use rosie_run::Status;
pub use top::{rosie, session};

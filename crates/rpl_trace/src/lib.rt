//! Traces: the evaluations of a match, for users who want to see why a pattern does or does not
//! match. The evaluations are listed in the order in which they begin, each with its depth, its
//! kind, where it starts and how it ends.
//!
//! [`begin_trace`] evaluates a checked goal on a text. The [`TraceText`] that [`begin_trace`]
//! returns then prints the evaluations one by one; [`trace`] prints all of them at once. The text
//! is exactly the printed tree of `specs/Evaluations.antt`, which follows the meaning of `rpl_core`
//! case by case. The `end` of a trace is the byte offset where the match ends according to that
//! meaning, so a trace and a match agree. By `count_law`, the number of lines in a trace equals the
//! work of the outcome. A trace is refused exactly when the work of its outcome exceeds the limit,
//! and no more lines than the limit allows are ever created. Nothing is recursive: the stack space
//! is the same for every pattern, text and limit, and all other memory is in lists that grow with
//! the number of lines.
#![tactic(auto)]

mod answer;
mod endings;
mod event;
mod goal;
mod laws;
mod lines;
mod task;
mod text;
mod tracer;

pub use answer::{Trace, TraceFault, Traced};
pub use goal::{begin_trace, trace};
pub use laws::count_law;
pub use text::TraceText;

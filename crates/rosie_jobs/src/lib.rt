//! The jobs that a command runs on each line of its inputs, and a loader for code files.
//!
//! The crate serves `rosie_cli`, which plans a command and runs its job. A [`Job`] is a checked
//! goal, the rules that it may call, and their code. A [`MatchJob`] runs the code on each line and
//! prints what the code matched, as the settings of the command line specify; it can also run safe
//! code that has no goal. A [`TraceJob`] prints the evaluations of the goal. Both kinds of job
//! implement [`LineJob`], so they only make texts and have no access to the outputs.
//! `specs/Lines.antt` and `specs/Makers.antt` define the result for a line, and `specs/Limits.antt`
//! defines which lines are within all limits. `specs/Laws.antt` states that a trace and a match
//! agree on every line within all limits, and that the code of a goal, without the goal, gives the
//! same result for a line as the goal does.
//!
//! [`load_code`] reads a code file, which need not be trusted. The file is accepted only if its
//! code is safe and its bytes are the one valid encoding of that code. `specs/Loaded.antt` defines
//! the result for each file. A read fault is reported with the path of the file, and only if opening
//! or reading the file failed. The file is closed, however the call ends.
//!
//! A [`SampleRun`] does the command `sample`: it generates lines like those in a log, matches them,
//! and reports the counts. [`Sample`] returns these lines one after the other, in memory that is
//! reused from line to line. Nothing is random: runs with the same seed generate the same lines,
//! exactly as `specs/SampleLines.antt` defines them. `specs/SampleCounts.antt` defines the counts.
//! The run can fail only if memory runs out or a write fails.
#![tactic(auto)]

mod job;
mod laws;
mod line_run;
mod loading;
mod match_job;
mod sample;
mod sample_line;
mod sample_run;
mod sample_text;
mod texts;
mod trace_job;
mod trace_parts;

pub use job::Job;
pub use laws::{code_runs_as_its_goal, one_loading, trace_agrees, written_law};
pub use line_run::{MAX_LINE_BYTES, budget_or};
pub use loading::load_code;
pub use match_job::MatchJob;
pub use rosie_run::{InputLine, LineJob};
pub use sample::Sample;
pub use sample_run::SampleRun;
pub use sample_text::{sample_pattern, sample_rules};
pub use trace_job::TraceJob;

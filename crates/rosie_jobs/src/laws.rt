//! The laws of all jobs.

ghost use Rattle.rosie_jobs.specs.Laws.{OneLoading, RunsAsItsGoal, SomeLoading, TracesAgree};
ghost use Rattle.rosie_jobs.specs.Laws.{WrittenLaw};

/// Proves that a trace and a match agree on each line that is within the limits of both, provided
/// that the match exceeds its budget only when the goal's work is too great for that budget.
pub fn trace_agrees()
    ensures { TracesAgree }
{}

/// Proves that, if the code of a goal does what the goal means, then the code alone, as in a code
/// file, gives the same result for each line of UTF-8 text as the goal does.
pub fn code_runs_as_its_goal()
    ensures { RunsAsItsGoal }
{}

/// Proves that loading a code file has exactly one result: the code in the file, or the line that
/// says why the file is refused.
pub fn one_loading()
    ensures some { SomeLoading }
    ensures only { OneLoading }
{}

/// Proves that the capture list made from any trees represents exactly those trees.
pub fn written_law()
    ensures { WrittenLaw }
{}

//! The laws of all commands, which follow from the definitions alone.

ghost use Rattle.rosie_cli.specs.Laws.{HaveOneReport, OnePlan, PromiseLaw, RunsWhatIsCompiled};
ghost use Rattle.rosie_cli.specs.Laws.{SafeLaw, SomePlan, WordsHavePlans};

/// Proves that, for every tree of files, each list of words has exactly one plan. Each command has
/// exactly one plan, too, provided that the pattern of `compile` consists of characters, as any
/// pattern from the command line does.
pub fn one_plan()
    ensures only { OnePlan }
    ensures some { SomePlan }
    ensures words { WordsHavePlans }
{}

/// Proves three facts that hold whatever the words of the command line are: no line or test is
/// reported to exceed a budget that is large enough for its work; the goal of each line or test has
/// a meaning for every text; and code that is written to a code file is safe.
pub fn promise_law()
    ensures { PromiseLaw }
{}

/// Proves that what `compile` writes for a pattern encodes safe code. Unless that output is longer
/// than a code file may be, `match` runs the output as the code of that pattern, so `match` gives
/// the same report for the file as for the pattern.
pub fn compiled_is_run()
    ensures safe { SafeLaw }
    ensures code { RunsWhatIsCompiled }
    ensures reports { HaveOneReport }
{}

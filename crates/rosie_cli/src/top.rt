//! The top call: it parses the words of the command line, plans the command, runs the plan, and
//! ends the run. A session runs without a plan.

ghost use Rattle.std.specs.Prelude.{◌≡◌, ◌≢◌, ◌∷◌, [], ℕ, true, false, string_bytes, IfErr};
ghost use Rattle.rosie_jobs.specs.Lines.{line_reading};
ghost use Rattle.rosie_run.specs.Causes.{Flushes};
ghost use Rattle.rosie_run.specs.Devices.{DevicesReadCause, DevicesWriteCause, SameInputs, SameOutputs};
ghost use Rattle.rosie_run.specs.Devices.{course};
ghost use Rattle.rosie_run.specs.Runs.{RunWriteCause, Runs, GoesOn, HidesNoRead, IsNoCut};
ghost use Rattle.rosie_run.specs.Sources.{moment_of, span_of};
ghost use Rattle.rosie_run.specs.Outputs.{shown, telling};
ghost use Rattle.rosie_run.specs.Report.{stop_piece};
ghost use Rattle.rosie_run.specs.Where.{Nowhere};
ghost use Rattle.rosie_run.specs.declared.status.Status.TheVariants.{Refused};
ghost use Rattle.rosie_run.specs.declared.tool.Tool.TheVariants.{Rosie};
ghost use Rattle.rpl_package.specs.Asking.{IsTold};
ghost use Rattle.rosie_words.specs.declared.command.What.TheVariants as W;
ghost use Rattle.rosie_cli.specs.Planned.{asked_names, IsPlanned, IsPlannedAs, LeavesStandard};
ghost use Rattle.rosie_cli.specs.Planned.{IsReplayed};
ghost use Rattle.rosie_run.specs.Inputs.{reads_standard};
ghost use Rattle.rosie_cli.specs.Plans.{Planned, IsIdlePlan, IgnoresInput, ReadsInput, KnowsInputs};
ghost use Rattle.rosie_cli.specs.Rosie.{Answers, call};
ghost use Rattle.rosie_cli.specs.Words.{command_in, IsIdle, IsSession, NeedsNothing, is_idle};
ghost use Rattle.rosie_cli.specs.Words.{is_session, needs_nothing};
ghost use Rattle.rosie_cli.specs.inside.Planning.{plan_of, IsSaid};
ghost use Rattle.rosie_cli.specs.inside.Running.{alone, call_over, OfPlans, RunAsked, RunsPlan};
ghost use Rattle.rosie_cli.specs.inside.Running.{RunHidesNoRead, RunsPlanned};

use crate::command_line::{CommandLine, read_command};
use crate::expand_run::run_expansion;
use crate::plan::Plan;
use crate::planning::plan_command;
use rosie_io::{Files, Sink, Source};
use rosie_jobs::{MAX_LINE_BYTES, TraceJob};
use rosie_run::{
    Ended, Inputs, Mark, Outputs, ReadStop, Reading, Status, Tally, Tool, Unready, Wanted, cut,
    finish, run_inputs, say,
};
use rosie_session::run_session;
use rosie_words::{Command, What};
use rpl_machine::Steps;
use rpl_package::LibPath;
use rpl_print::text_of;
use std::alloc::Global;
use std::sync::ledger::Ledger;

/// Returns how the lines of an input are read.
fn reading(whole: bool) -> Reading
    ensures { result ≡ line_reading whole }
{
    Reading {
        tool: Tool::Rosie,
        whole,
        most: MAX_LINE_BYTES,
    }
}

/// Returns the outputs of a run, made from these parts. This is a separate function because the
/// prover can prove nothing about a value with three references that is built in place.
fn outputs_of<'a, O: Sink, E: Sink, L: Ledger>(
    out: &'a mut O,
    err: &'a mut E,
    steps: &'a mut Steps<L>,
) -> Outputs<'a, O, E, L>
    ensures same_out { result.out.ghost_name ≡ out.entry.ghost_name }
    ensures same_err { result.err.ghost_name ≡ err.entry.ghost_name }
    ensures same_steps { result.steps.ghost_name ≡ steps.entry.ghost_name }
    ensures out { result.out.now ≡ out.old }
    ensures err { result.err.now ≡ err.old }
    ensures steps { result.steps.now ≡ steps.old }
{
    Outputs {
        out,
        err,
        steps,
        pending: false,
    }
}

/// Refuses the words: writes the given line, and ends the run.
fn refuse<O: Sink, E: Sink>(line: String, out: &mut O, err: &mut E) -> Result<Tally, Ended>
    ensures runs { (n : ℕ) → Runs result (telling Rosie O.Sink E.Sink)
        (stop_piece (string_bytes line) ∷ []) Nowhere
        (shown O.Sink E.Sink out.old err.old n)
        (shown O.Sink E.Sink out.new err.new n) }
    ensures no_cut { IfErr result IsNoCut }
    ensures sinks { RunWriteCause result (O.faults out.old) (O.faults out.new) (E.faults err.old)
        (E.faults err.new) }
{
    say(out, err, &[], line.as_bytes(), Mark::Stop)
}

/// Runs a plan to completion. If the plan only prints, nothing is read.
fn run_plan<F: Files, I: Source, O: Sink, E: Sink, L: Ledger>(
    alloc: Global,
    plan: &mut Plan,
    inputs: &mut Inputs<'_, F, I>,
    outputs: &mut Outputs<'_, O, E, L>,
) -> Result<Tally, Ended>
    ensures same_inputs { SameInputs inputs.old inputs.new }
    ensures same_outputs { SameOutputs outputs.old outputs.new }
    ensures runs { RunsPlan result (plan_of plan.old) (course Rosie F.Source I.Source O.Sink E.Sink
        inputs.old inputs.new outputs.old outputs.new) }
    ensures rest { KnowsInputs (plan_of plan.old) F.tells I.tells (I.rest inputs.old.input.now)
        → GoesOn result (ReadsInput (plan_of plan.old) → I.rest inputs.new.input.now ≡ []) }
    ensures cause { DevicesReadCause F.Source I.Source result inputs.old inputs.new }
    ensures sinks { DevicesWriteCause O.Sink E.Sink result outputs.old outputs.new }
    ensures untouched { IsSaid (plan_of plan.old) → (inputs.new.files.now ≡ inputs.old.files.now) ×
        (inputs.new.input.now ≡ inputs.old.input.now) }
    ensures asked { RunAsked result (course Rosie F.Source I.Source O.Sink E.Sink inputs.old
        inputs.new outputs.old outputs.new) (alone (plan_of plan.old))
        (F.asked inputs.old.files.now) (F.asked inputs.new.files.now) }
    ensures past_end { I.ended inputs.old.input.now ≡ false →
        I.asked inputs.new.input.now ≡ I.asked inputs.old.input.now }
    ensures unhidden { HidesNoRead result (moment_of F.Source inputs.old.files.now)
        (moment_of F.Source inputs.new.files.now) }
    ensures unread { IgnoresInput (plan_of plan.old) →
        inputs.new.input.now ≡ inputs.old.input.now }
    ensures idle { IsIdlePlan (plan_of plan.old) → outputs.new.steps.now ≡ outputs.old.steps.now }
{
    match plan {
        Plan::Answer(text) => say(outputs.out, outputs.err, text.as_bytes(), &[], Mark::Hit),
        Plan::Expand(expansion) => run_expansion(alloc, expansion, outputs),
        Plan::Write(bytes) => say(outputs.out, outputs.err, bytes.as_slice(), &[], Mark::Hit),
        Plan::Test(suite) => suite.run(alloc, outputs),
        Plan::Match { job, whole, names } => {
            let reading = reading(*whole);
            let names = names.as_slice();
            run_inputs(alloc, job, Wanted { names, reading }, inputs, outputs)
        }
        Plan::Trace {
            job,
            limit,
            whole,
            names,
        } => {
            let mut tracer = TraceJob::new(alloc, job, *limit);
            let reading = reading(*whole);
            let names = names.as_slice();
            let wanted = Wanted { names, reading };
            run_inputs(alloc, &mut tracer, wanted, inputs, outputs)
        }
        Plan::Sample(run) => run.run(outputs),
    }
}

/// Plans a command and runs the plan to completion. A session has no plan.
fn run_planned<F: Files, I: Source, O: Sink, E: Sink, L: Ledger>(
    alloc: Global,
    command: Command,
    inputs: &mut Inputs<'_, F, I>,
    outputs: &mut Outputs<'_, O, E, L>,
) -> Result<Tally, Ended>
    requires { command.what ≢ W.Repl }
    ensures same_inputs { SameInputs inputs.old inputs.new }
    ensures same_outputs { SameOutputs outputs.old outputs.new }
    ensures runs { OfPlans command F.tells (F.tree inputs.old.files.now) (RunsPlanned result
        (course Rosie F.Source I.Source O.Sink E.Sink inputs.old inputs.new outputs.old
        outputs.new)) }
    ensures rest { OfPlans command F.tells (F.tree inputs.old.files.now)
        (λ p. KnowsInputs p.plan F.tells I.tells (I.rest inputs.old.input.now)
        → GoesOn result (ReadsInput p.plan → I.rest inputs.new.input.now ≡ [])) }
    ensures asked { OfPlans command F.tells (F.tree inputs.old.files.now)
        (λ p. RunAsked result (course Rosie F.Source I.Source O.Sink E.Sink inputs.old inputs.new
        outputs.old outputs.new) p (F.asked inputs.old.files.now) (F.asked inputs.new.files.now)) }
    ensures past_end { I.ended inputs.old.input.now ≡ false →
        I.asked inputs.new.input.now ≡ I.asked inputs.old.input.now }
    ensures unhidden { OfPlans command F.tells (F.tree inputs.old.files.now)
        (λ p. RunHidesNoRead result
        (span_of F.Source inputs.old.files.now inputs.new.files.now) p
        (F.asked inputs.old.files.now) (F.asked inputs.new.files.now)) }
    ensures unread { OfPlans command F.tells (F.tree inputs.old.files.now)
        (λ p. IgnoresInput p.plan → inputs.new.input.now ≡ inputs.old.input.now) }
    ensures unnamed { reads_standard (asked_names command.what) ≡ false →
        inputs.new.input.now ≡ inputs.old.input.now }
    ensures untouched { needs_nothing command.what ≡ true →
        (inputs.new.files.now ≡ inputs.old.files.now) ×
        (inputs.new.input.now ≡ inputs.old.input.now) }
    ensures idle { is_idle command.what ≡ true → outputs.new.steps.now ≡ outputs.old.steps.now }
    ensures unrun { OfPlans command F.tells (F.tree inputs.old.files.now)
        (λ p. IsIdlePlan p.plan → outputs.new.steps.now ≡ outputs.old.steps.now) }
    ensures cause { DevicesReadCause F.Source I.Source result inputs.old inputs.new }
    ensures sinks { DevicesWriteCause O.Sink E.Sink result outputs.old outputs.new }
{
    match plan_command(alloc, command, inputs.files) {
        Ok(mut plan) => run_plan(alloc, &mut plan, inputs, outputs),
        Err(unready) => match unready {
            Unready::NoMemory => Err(Ended::NoMemory),
            Unready::Refused(line) => refuse(line, outputs.out, outputs.err),
            Unready::ReadFault(path) => {
                let file = text_of(&path);
                Err(cut(alloc, Tool::Rosie, ReadStop::ReadFault, file))
            }
        },
    }
}

/// Runs a session to its end.
fn replay<F: Files, I: Source, O: Sink, E: Sink, L: Ledger>(
    alloc: Global,
    folders: &LibPath,
    inputs: &mut Inputs<'_, F, I>,
    outputs: &mut Outputs<'_, O, E, L>,
) -> Status
    ensures same_inputs { SameInputs inputs.old inputs.new }
    ensures same_outputs { SameOutputs outputs.old outputs.new }
    ensures answers { Answers (call_over (IsReplayed folders.now (F.tree inputs.old.files.now))
        F.Source I.Source O.Sink E.Sink
        inputs.old inputs.new outputs.old outputs.new result) }
    ensures goes_on { result ≢ Refused }
    ensures out_flushed { Flushes O.Sink result outputs.new.out.now }
    ensures err_flushed { Flushes E.Sink result outputs.new.err.now }
{
    let run = run_session(alloc, folders, inputs, outputs);
    finish(outputs.out, outputs.err, run)
}

/// Runs a session: each line of the input is a command, and is answered before the run waits
/// for the next. Imports are searched for in `folders`, and `steps` counts the machine's steps.
pub fn session<F: Files, I: Source, O: Sink, E: Sink, L: Ledger>(
    alloc: Global,
    files: &mut F,
    folders: &LibPath,
    input: &mut I,
    out: &mut O,
    err: &mut E,
    steps: &mut Steps<L>,
) -> Status
    ensures answers { Answers (call (IsReplayed folders.now (F.tree files.old))
        F.Source I.Source O.Sink E.Sink
        files.old files.new input.old input.new out.old out.new err.old err.new steps.old steps.new
        result) }
    // A session is never refused, whatever the files and the input contain.
    ensures goes_on { result ≢ Refused }
    ensures out_flushed { Flushes O.Sink result out.new }
    ensures err_flushed { Flushes E.Sink result err.new }
{
    let mut inputs = Inputs { files, input };
    let mut outputs = outputs_of(out, err, steps);
    replay(alloc, folders, &mut inputs, &mut outputs)
}

/// Carries out a command. A session has no plan: it reads its files as its lines arrive.
fn run_command<F: Files, I: Source, O: Sink, E: Sink, L: Ledger>(
    alloc: Global,
    command: Command,
    inputs: &mut Inputs<'_, F, I>,
    outputs: &mut Outputs<'_, O, E, L>,
) -> Status
    ensures same_inputs { SameInputs inputs.old inputs.new }
    ensures same_outputs { SameOutputs outputs.old outputs.new }
    ensures answers { Answers (call_over
        (IsPlannedAs command command.what (F.tree inputs.old.files.now))
        F.Source I.Source O.Sink E.Sink
        inputs.old inputs.new outputs.old outputs.new result) }
    ensures unread { OfPlans command F.tells (F.tree inputs.old.files.now)
        (λ p. IgnoresInput p.plan → inputs.new.input.now ≡ inputs.old.input.now) }
    ensures unnamed { reads_standard (asked_names command.what) ≡ false →
        inputs.new.input.now ≡ inputs.old.input.now }
    ensures untouched { needs_nothing command.what ≡ true →
        (inputs.new.files.now ≡ inputs.old.files.now) ×
        (inputs.new.input.now ≡ inputs.old.input.now) }
    ensures idle { is_idle command.what ≡ true → outputs.new.steps.now ≡ outputs.old.steps.now }
    ensures unrun { OfPlans command F.tells (F.tree inputs.old.files.now)
        (λ p. IsIdlePlan p.plan → outputs.new.steps.now ≡ outputs.old.steps.now) }
    ensures goes_on { is_session command.what ≡ true → result ≢ Refused }
    ensures out_flushed { Flushes O.Sink result outputs.new.out.now }
    ensures err_flushed { Flushes E.Sink result outputs.new.err.now }
{
    match command.what {
        What::Repl => replay(alloc, &command.folders, inputs, outputs),
        _ => {
            let run = run_planned(alloc, command, inputs, outputs);
            finish(outputs.out, outputs.err, run)
        }
    }
}

/// Carries out the command that the words name, taking the inputs as one value and the outputs as
/// another.
fn run_words<F: Files, I: Source, O: Sink, E: Sink, L: Ledger>(
    alloc: Global,
    words: &[String],
    inputs: &mut Inputs<'_, F, I>,
    outputs: &mut Outputs<'_, O, E, L>,
) -> Status
    ensures same_inputs { SameInputs inputs.old inputs.new }
    ensures same_outputs { SameOutputs outputs.old outputs.new }
    ensures answers { Answers (call_over
        (IsPlanned (command_in words.now) (F.tree inputs.old.files.now))
        F.Source I.Source O.Sink E.Sink
        inputs.old inputs.new outputs.old outputs.new result) }
    ensures unread { (p : Planned) → IsTold F.tells p.asked
        → IsPlanned (command_in words.now) (F.tree inputs.old.files.now) p → IgnoresInput p.plan →
        inputs.new.input.now ≡ inputs.old.input.now }
    ensures unnamed { LeavesStandard (command_in words.now) → inputs.new.input.now ≡ inputs.old.input.now }
    ensures untouched { NeedsNothing (command_in words.now) →
        (inputs.new.files.now ≡ inputs.old.files.now) ×
        (inputs.new.input.now ≡ inputs.old.input.now) }
    ensures idle { IsIdle (command_in words.now) → outputs.new.steps.now ≡ outputs.old.steps.now }
    ensures unrun { (p : Planned) → IsTold F.tells p.asked
        → IsPlanned (command_in words.now) (F.tree inputs.old.files.now) p → IsIdlePlan p.plan →
        outputs.new.steps.now ≡ outputs.old.steps.now }
    ensures goes_on { IsSession (command_in words.now) → result ≢ Refused }
    ensures out_flushed { Flushes O.Sink result outputs.new.out.now }
    ensures err_flushed { Flushes E.Sink result outputs.new.err.now }
{
    match read_command(alloc, words) {
        Ok(line) => match line {
            CommandLine::Refuse(text) => {
                let run = refuse(text, outputs.out, outputs.err);
                finish(outputs.out, outputs.err, run)
            }
            CommandLine::Do(command) => run_command(alloc, command, inputs, outputs),
        },
        Err(_) => finish(outputs.out, outputs.err, Err(Ended::NoMemory)),
    }
}

/// Carries out the command that the words name. `words` holds the words after the program's name,
/// `input` is the standard input, and `steps` counts the machine's steps.
///
/// # Examples
///
/// ```
/// # use rosie_cli::{Status, rosie};
/// # use rosie_io::{Bytes, Calls, MemorySink, SureFiles, SureSource, Tree};
/// # use rpl_machine::Steps;
/// # use std::marker::Brand;
/// # use std::sync::ledger::Blank;
/// let mut words = Vec::new(alloc);
/// words.push(String::from_str(alloc, "grep")?)?;
/// words.push(String::from_str(alloc, "\"ab\"")?)?;
/// let mut files = SureFiles::new(Tree::new(alloc));
/// let mut input = SureSource::new(Bytes::from_slice(alloc, b"cab\ncat\n".as_slice())?);
/// let mut out = MemorySink::new(alloc, 100, 100, Calls::new(alloc))?;
/// let mut err = MemorySink::new(alloc, 100, 100, Calls::new(alloc))?;
/// let mut steps = Steps::<Brand>::new(Blank::new(1));
/// let status = rosie(
///     alloc, &words, &mut files, &mut input, &mut out, &mut err, &mut steps,
/// );
/// assert!(rt; matches!(status, Status::Matched) && out.written() == b"cab\n".as_slice());
/// ```
pub fn rosie<F: Files, I: Source, O: Sink, E: Sink, L: Ledger>(
    alloc: Global,
    words: &[String],
    files: &mut F,
    input: &mut I,
    out: &mut O,
    err: &mut E,
    steps: &mut Steps<L>,
) -> Status
    // What the call writes, returns and reads follows from the report that the words ask for: see
    // `specs/Rosie.antt`.
    ensures answers { Answers (call (IsPlanned (command_in words.now) (F.tree files.old))
        F.Source I.Source O.Sink E.Sink
        files.old files.new input.old input.new out.old out.new err.old err.new steps.old steps.new
        result) }

    // If the standard input isn't among the inputs, none of it is read. If the words don't name the
    // standard input, none of it is read, whatever the files contain. If the words are refused, or
    // ask for a class, no file is opened either.
    ensures unread { (p : Planned) → IsTold F.tells p.asked
        → IsPlanned (command_in words.now) (F.tree files.old) p → IgnoresInput p.plan →
        input.new ≡ input.old }
    ensures unnamed { LeavesStandard (command_in words.now) → input.new ≡ input.old }
    ensures untouched { NeedsNothing (command_in words.now) → (files.new ≡ files.old) ×
        (input.new ≡ input.old) }

    // Unless the words ask for code, tests or a sample to be run, no machine steps are taken,
    // whatever the files contain. If the words do ask for one of these but loading is refused, no
    // machine steps are taken either, provided that the contents of the files are visible or no
    // path is asked for.
    ensures idle { IsIdle (command_in words.now) → steps.new ≡ steps.old }
    ensures unrun { (p : Planned) → IsTold F.tells p.asked
        → IsPlanned (command_in words.now) (F.tree files.old) p → IsIdlePlan p.plan →
        steps.new ≡ steps.old }

    // A session is never refused, whatever the files and the input contain.
    ensures goes_on { IsSession (command_in words.now) → result ≢ Refused }

    // Everything is flushed, unless a write failed or memory ran out.
    ensures out_flushed { Flushes O.Sink result out.new }
    ensures err_flushed { Flushes E.Sink result err.new }
{
    let mut inputs = Inputs { files, input };
    let mut outputs = outputs_of(out, err, steps);
    run_words(alloc, words, &mut inputs, &mut outputs)
}

// The call that runs the whole program.
ghost use Rattle.std.specs.Prelude.{◌≡◌, ◌≢◌, ◌∷◌, [], ℕ, List, Ok, true, false, IfErr, IfOk};
ghost use Rattle.rpl_columns.specs.Rows.{header};
ghost use Rattle.rosie_run.specs.Causes.{Flushes};
ghost use Rattle.rosie_run.specs.Devices.{DevicesReadCause, DevicesWriteCause, SameInputs, SameOutputs};
ghost use Rattle.rosie_run.specs.Devices.{course};
ghost use Rattle.rosie_run.specs.Inputs.{AreTold, reads_standard};
ghost use Rattle.rosie_run.specs.Outputs.{shown, telling};
ghost use Rattle.rosie_run.specs.Report.{Piece, stop_piece};
ghost use Rattle.rosie_run.specs.Runs.{GoesOn, IsNoCut, Runs, RunWriteCause};
ghost use Rattle.rosie_run.specs.Where.{Nowhere};
ghost use Rattle.rosie_run.specs.declared.tool.Tool.TheVariants.{RosieColumns};
ghost use Rattle.rosie_columns_cli.specs.Endings.{status_in};
ghost use Rattle.rosie_columns_cli.specs.Faults.{refusal};
ghost use Rattle.rosie_columns_cli.specs.Report.{by_lines, header_text, inputs_of, last_text};
ghost use Rattle.rosie_columns_cli.specs.RosieColumns.{Answers, IsRefused, call, names};
ghost use Rattle.rosie_columns_cli.specs.Words.{reading, words_of};
ghost use Rattle.rosie_columns_cli.specs.declared.fault.WordFault.TheVariants as V;
ghost use Rattle.rosie_columns_cli.specs.inside.Running.{RunsAsked, RunsRows, call_over};

use crate::NoMemory;
use crate::ending::Ending;
use crate::fault::{WordFault, refusal};
use crate::job::ColumnsJob;
use crate::words::{Asked, read_words};
use rosie_io::{Files, Sink, Source};
use rosie_run::{
    Ended, Inputs, Mark, Outputs, Reading, Tally, Tool, Wanted, finish, run_inputs, say,
};
use rpl_columns::put_header;
use rpl_machine::Steps;
use std::alloc::Global;
use std::sync::ledger::Ledger;

/// Returns the outputs of a run, built from these parts. This is a separate function because the
/// prover can prove nothing about a value that holds three references and is built in place.
fn outputs_of<'a, O: Sink, E: Sink, L: Ledger>(
    out: &'a mut O,
    err: &'a mut E,
    steps: &'a mut Steps<L>,
) -> Outputs<'a, O, E, L>
    ensures same_out { result.out.ghost_name ≡ out.entry.ghost_name }
    ensures same_err { result.err.ghost_name ≡ err.entry.ghost_name }
    ensures same_steps { result.steps.ghost_name ≡ steps.entry.ghost_name }
    ensures out { result.out.now ≡ out.old }
    ensures err { result.err.now ≡ err.old }
    ensures steps { result.steps.now ≡ steps.old }
{
    Outputs {
        out,
        err,
        steps,
        pending: false,
    }
}

/// The greatest number of bytes in a line: as many as an answer from `rosie` may contain.
const MAX_LINE_BYTES: usize = 67_108_864;

/// Returns the settings with which the inputs are read.
fn by_lines() -> Reading
    ensures { result ≡ by_lines }
{
    Reading {
        tool: Tool::RosieColumns,
        whole: false,
        most: MAX_LINE_BYTES,
    }
}

/// Returns the header, or an empty text if no header is wanted.
fn header_of(alloc: Global, asked: &Asked) -> Result<Vec<u8>, NoMemory>
    ensures { IfOk result (λ text. text.items ≡ header_text asked.now) }
{
    let mut header = Vec::new(alloc);
    if !asked.no_header {
        put_header(&mut header, &asked.sheet)?;
    }
    Ok(header)
}

/// Writes the row or the message for each line. If any line is a tree, sets `last` to the text for
/// the end of the run, which lists the columns for which no tree had a node.
fn run_rows<F: Files, I: Source, O: Sink, E: Sink, L: Ledger>(
    alloc: Global,
    asked: &Asked,
    last: &mut Vec<u8>,
    inputs: &mut Inputs<'_, F, I>,
    outputs: &mut Outputs<'_, O, E, L>,
) -> Result<Tally, Ended>
    requires { last.old.items ≡ [] }
    ensures same_inputs { SameInputs inputs.old inputs.new }
    ensures same_outputs { SameOutputs outputs.old outputs.new }
    ensures runs { RunsRows result asked.now (course RosieColumns F.Source I.Source O.Sink E.Sink
        inputs.old inputs.new outputs.old outputs.new) }
    ensures last { AreTold (inputs_of asked.now) F.tells I.tells → GoesOn result (last.new.items
        ≡ last_text asked.now (F.tree inputs.old.files.now) (I.rest inputs.old.input.now)) }
    ensures rest { AreTold (inputs_of asked.now) F.tells I.tells → GoesOn result
        (reads_standard (inputs_of asked.now) ≡ true → I.rest inputs.new.input.now ≡ []) }
    ensures unread { reads_standard (inputs_of asked.now) ≡ false →
        inputs.new.input.now ≡ inputs.old.input.now }
    ensures idle { outputs.new.steps.now ≡ outputs.old.steps.now }
    ensures cause { DevicesReadCause F.Source I.Source result inputs.old inputs.new }
    ensures sinks { DevicesWriteCause O.Sink E.Sink result outputs.old outputs.new }
{
    let Ok(mut job) = ColumnsJob::new(alloc, &asked.sheet) else {
        return Err(Ended::NoMemory);
    };
    let names = asked.names.as_slice();
    let reading = by_lines();
    let tally = match run_inputs(alloc, &mut job, Wanted { names, reading }, inputs, outputs) {
        Ok(tally) => tally,
        Err(ended) => return Err(ended),
    };
    if !tally.hit {
        return Ok(tally);
    }
    let Ok(text) = job.absent() else {
        return Err(Ended::NoMemory);
    };
    *last = text;
    Ok(tally)
}

/// Writes the header, the rows, and, at the end, the text that lists the columns for which no tree
/// had a node. Also stores that text in `last`.
fn run_asked<F: Files, I: Source, O: Sink, E: Sink, L: Ledger>(
    alloc: Global,
    asked: &Asked,
    last: &mut Vec<u8>,
    inputs: &mut Inputs<'_, F, I>,
    outputs: &mut Outputs<'_, O, E, L>,
) -> Result<Tally, Ended>
    requires { last.old.items ≡ [] }
    ensures same_inputs { SameInputs inputs.old inputs.new }
    ensures same_outputs { SameOutputs outputs.old outputs.new }
    ensures runs { RunsAsked result asked.now (course RosieColumns F.Source I.Source O.Sink E.Sink
        inputs.old inputs.new outputs.old outputs.new) }
    ensures last { AreTold (inputs_of asked.now) F.tells I.tells → GoesOn result (last.new.items
        ≡ last_text asked.now (F.tree inputs.old.files.now) (I.rest inputs.old.input.now)) }
    ensures rest { AreTold (inputs_of asked.now) F.tells I.tells → GoesOn result
        (reads_standard (inputs_of asked.now) ≡ true → I.rest inputs.new.input.now ≡ []) }
    ensures unread { reads_standard (inputs_of asked.now) ≡ false →
        inputs.new.input.now ≡ inputs.old.input.now }
    ensures idle { outputs.new.steps.now ≡ outputs.old.steps.now }
    ensures cause { DevicesReadCause F.Source I.Source result inputs.old inputs.new }
    ensures sinks { DevicesWriteCause O.Sink E.Sink result outputs.old outputs.new }
{
    let Ok(header) = header_of(alloc, asked) else {
        return Err(Ended::NoMemory);
    };
    let first = match say(outputs.out, outputs.err, &header, &[], Mark::Miss) {
        Ok(first) => first,
        Err(ended) => return Err(ended),
    };
    let rows = match run_rows(alloc, asked, last, inputs, outputs) {
        Ok(rows) => rows,
        Err(ended) => return Err(ended),
    };
    let tally = first.and(rows);
    if tally.stop {
        return Ok(tally);
    }
    match say(outputs.out, outputs.err, &[], last, Mark::Miss) {
        Ok(end) => Ok(tally.and(end)),
        Err(ended) => Err(ended),
    }
}

/// Refuses the command line because of this fault.
fn refuse<O: Sink, E: Sink>(
    alloc: Global,
    fault: WordFault,
    out: &mut O,
    err: &mut E,
) -> Result<Tally, Ended>
    ensures runs { (ps : List Piece) (n : ℕ) →
        (fault ≢ V.NoMemory → ps ≡ stop_piece (refusal fault) ∷ []) → Runs result
        (telling RosieColumns O.Sink E.Sink) ps Nowhere
        (shown O.Sink E.Sink out.old err.old n)
        (shown O.Sink E.Sink out.new err.new n) }
    ensures stops { IfOk result (λ tally. tally.stop ≡ true) }
    ensures no_cut { IfErr result IsNoCut }
    ensures sinks { RunWriteCause result (O.faults out.old) (O.faults out.new) (E.faults err.old)
        (E.faults err.new) }
{
    if let WordFault::NoMemory = fault {
        return Err(Ended::NoMemory);
    }
    match refusal(alloc, &fault) {
        Ok(text) => say(out, err, &[], text.as_bytes(), Mark::Stop),
        Err(_) => Err(Ended::NoMemory),
    }
}

/// Runs the program for a parsed command line, and finishes the run.
fn answer<F: Files, I: Source, O: Sink, E: Sink, L: Ledger>(
    alloc: Global,
    asked: &Asked,
    inputs: &mut Inputs<'_, F, I>,
    outputs: &mut Outputs<'_, O, E, L>,
) -> Ending
    ensures same_inputs { SameInputs inputs.old inputs.new }
    ensures same_outputs { SameOutputs outputs.old outputs.new }
    ensures answers { Answers (call_over (Ok asked.now) F.Source I.Source O.Sink E.Sink
        inputs.old inputs.new outputs.old outputs.new result) }
    ensures unread { reads_standard (inputs_of asked.now) ≡ false →
        inputs.new.input.now ≡ inputs.old.input.now }
    ensures idle { outputs.new.steps.now ≡ outputs.old.steps.now }
    ensures out_flushed { Flushes O.Sink (status_in result) outputs.new.out.now }
    ensures err_flushed { Flushes E.Sink (status_in result) outputs.new.err.now }
{
    let mut last = Vec::new(alloc);
    let run = run_asked(alloc, asked, &mut last, inputs, outputs);
    let status = finish(outputs.out, outputs.err, run);
    Ending::of(status, !last.is_empty())
}

/// Runs the program, taking the inputs as one value and the outputs as another.
fn run_words<F: Files, I: Source, O: Sink, E: Sink, L: Ledger>(
    alloc: Global,
    words: &[String],
    inputs: &mut Inputs<'_, F, I>,
    outputs: &mut Outputs<'_, O, E, L>,
) -> Ending
    ensures same_inputs { SameInputs inputs.old inputs.new }
    ensures same_outputs { SameOutputs outputs.old outputs.new }
    ensures answers { Answers (call_over (reading (words_of words.now))
        F.Source I.Source O.Sink E.Sink
        inputs.old inputs.new outputs.old outputs.new result) }
    ensures unread { reads_standard (names (reading (words_of words.now))) ≡ false →
        inputs.new.input.now ≡ inputs.old.input.now }
    ensures untouched { IsRefused (reading (words_of words.now)) →
        (inputs.new.files.now ≡ inputs.old.files.now) ×
        (inputs.new.input.now ≡ inputs.old.input.now) }
    ensures idle { outputs.new.steps.now ≡ outputs.old.steps.now }
    ensures out_flushed { Flushes O.Sink (status_in result) outputs.new.out.now }
    ensures err_flushed { Flushes E.Sink (status_in result) outputs.new.err.now }
{
    match read_words(alloc, words) {
        Ok(asked) => answer(alloc, &asked, inputs, outputs),
        Err(fault) => {
            let run = refuse(alloc, fault, outputs.out, outputs.err);
            Ending::Ran(finish(outputs.out, outputs.err, run))
        }
    }
}

/// Runs the program. `words` holds the words after the program's name, and `input` is standard
/// input. The call takes no machine steps.
pub fn columns<F: Files, I: Source, O: Sink, E: Sink, L: Ledger>(
    alloc: Global,
    words: &[String],
    files: &mut F,
    input: &mut I,
    out: &mut O,
    err: &mut E,
    steps: &mut Steps<L>,
) -> Ending
    // The report that the words ask for determines what the call writes, returns and reads: see
    // `specs/RosieColumns.antt`.
    ensures answers { Answers (call (reading (words_of words.now)) F.Source I.Source O.Sink E.Sink
        files.old files.new input.old input.new out.old out.new err.old err.new steps.old steps.new
        result) }

    // If standard input isn't among the inputs, none of it is read. If the command line is refused,
    // nothing is opened.
    ensures unread { reads_standard (names (reading (words_of words.now))) ≡ false →
        input.new ≡ input.old }
    ensures untouched { IsRefused (reading (words_of words.now)) → (files.new ≡ files.old) ×
        (input.new ≡ input.old) }

    // The call takes no machine steps.
    ensures idle { steps.new ≡ steps.old }

    // Everything is flushed, unless a write failed or memory ran out.
    ensures out_flushed { Flushes O.Sink (status_in result) out.new }
    ensures err_flushed { Flushes E.Sink (status_in result) err.new }
{
    let mut inputs = Inputs { files, input };
    let mut outputs = outputs_of(out, err, steps);
    run_words(alloc, words, &mut inputs, &mut outputs)
}

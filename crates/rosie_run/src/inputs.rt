// Runs a job on the lines of the inputs, one input after the other.
ghost use Rattle.std.specs.Prelude.{◌≡◌, ◌++◌, ◌-◌, ◌^◌, ◌<◌, ◌≤◌, List, ℕ, [], Err, true, false};
ghost use Rattle.std.specs.Prelude.{◌∷◌, encode_utf8_all, IfErr, IfOk};
ghost use Rattle.rosie_io.specs.Answering.{Keeps};
ghost use Rattle.rosie_io.specs.Opening.{file_of};
ghost use Rattle.rosie_run.specs.Asked.{AsksFor, AsksInputs, files_among};
ghost use Rattle.rosie_run.specs.Devices.{DevicesReadCause, DevicesWriteCause, RunsInputs, SameInputs};
ghost use Rattle.rosie_run.specs.Devices.{SameOutputs, course};
ghost use Rattle.rosie_run.specs.Runs.{RunFilesCause, GoesOn, HidesNoRead};
ghost use Rattle.rosie_run.specs.Going.{CutSays};
ghost use Rattle.rosie_run.specs.Given.{bytes_given, file_given, inputs_given, one_given};
ghost use Rattle.rosie_run.specs.Inputs.{is_standard, left_after};
ghost use Rattle.rosie_run.specs.Inputs.{AreTold, reads_standard, names_of};
ghost use Rattle.rosie_run.specs.Sources.{moment_of, span_of};
ghost use Rattle.rosie_run.specs.inside.Showing.{SameLines, reading_of, shows};
ghost use Rattle.rosie_run.specs.Passing.{IsPrepared};
ghost use Rattle.rosie_run.specs.inside.Where.{RunsFile, RunsOne, RunsSource};

use crate::line_job::LineJob;
use crate::lines::{Lines, Messages, Reading, SourceLines};
use crate::running::run_pieces;
use crate::saying::say;
use crate::{Ended, Mark, Outputs, Tally};
use rosie_io::{Files, LineReader, PathAnswer, Sink, Source};
use rpl_text::Chars;
use std::alloc::Global;
use std::sync::ledger::Ledger;

/// The sources that a run reads from.
#[derive(Drop)]
pub struct Inputs<'a, F, I> {
    /// The files that the names of inputs can refer to.
    pub files: &'a mut F,
    /// The standard input.
    pub input: &'a mut I,
}

/// The inputs of a run, and how their lines are read.
#[derive(Clone, Copy, Debug)]
pub struct Wanted<'a> {
    /// The names of the inputs, in the order in which they are read.
    pub names: &'a [Chars],
    pub reading: Reading,
}

/// Runs the job on each line of a source that is already open.
fn run_source<J: LineJob, S: Source, O: Sink, E: Sink, L: Ledger>(
    lines: &mut Lines<'_, J>,
    file: &str,
    source: &mut S,
    outputs: &mut Outputs<'_, O, E, L>,
) -> Result<Tally, Ended>
    requires { IsPrepared lines.old.messages.now file.now }
    ensures same_lines { SameLines lines.old lines.new }
    ensures same_outputs { SameOutputs outputs.old outputs.new }
    ensures keeps { Keeps lines.old.reader.now lines.new.reader.now }
    ensures same { J.makes lines.new.job.now ≡ J.makes lines.old.job.now }
    ensures runs { S.tells → RunsSource result (J.makes lines.old.job.now) (reading_of lines.old)
        file.now
        (span_of S.Source source.old source.new)
        (shows lines.old.messages.now.tool O.Sink E.Sink outputs.old outputs.new) }
    ensures last { S.tells → GoesOn result ((more : List (List ℕ)) →
        J.last_text lines.new.job.now more ≡ J.last_text lines.old.job.now
        (bytes_given (reading_of lines.old) (S.rest source.old) ++ more)) }
    ensures rest { S.tells → GoesOn result (S.rest source.new ≡ []) }
    ensures cause { RunFilesCause result (moment_of S.Source source.old)
        (moment_of S.Source source.new) }
    ensures idle { J.idle → outputs.new.steps.now ≡ outputs.old.steps.now }
    ensures sinks { DevicesWriteCause O.Sink E.Sink result outputs.old outputs.new }
    ensures taken { S.taken source.new < 2 ^ 64 - 1 → S.taken source.old ≤ S.taken source.new }
    ensures tree { S.tree source.new ≡ S.tree source.old }
    ensures past_end { S.ended source.old ≡ false → S.asked source.new ≡ S.asked source.old }
    ensures says { IfErr result (CutSays lines.old.messages.now.tool file.now) }
    ensures opens { S.failed_opens source.new ≡ S.failed_opens source.old }
{
    lines.reader.restart();
    let mut source_lines = SourceLines::new(file, lines.job, lines.reader, lines.messages, source);
    run_pieces(&mut source_lines, outputs)
}

/// Runs the job on each line of a file. If there is no such file, writes a message that says so,
/// and ends the run.
fn run_file<J: LineJob, F: Files, O: Sink, E: Sink, L: Ledger>(
    lines: &mut Lines<'_, J>,
    path: &str,
    files: &mut F,
    outputs: &mut Outputs<'_, O, E, L>,
) -> Result<Tally, Ended>
    ensures same_lines { SameLines lines.old lines.new }
    ensures same_outputs { SameOutputs outputs.old outputs.new }
    ensures runs { F.tells → RunsFile result (J.makes lines.old.job.now) (reading_of lines.old)
        path.now
        (F.tree files.old) (span_of F.Source files.old files.new)
        (shows lines.old.messages.now.tool O.Sink E.Sink outputs.old outputs.new) }
    ensures last { F.tells → GoesOn result ((more : List (List ℕ)) →
        J.last_text lines.new.job.now more ≡ J.last_text lines.old.job.now
        (file_given (reading_of lines.old) (file_of path.now (F.tree files.old)) ++ more)) }
    ensures cause { RunFilesCause result (moment_of F.Source files.old)
        (moment_of F.Source files.new) }
    ensures idle { J.idle → outputs.new.steps.now ≡ outputs.old.steps.now }
    ensures sinks { DevicesWriteCause O.Sink E.Sink result outputs.old outputs.new }
    ensures taken { F.taken files.new < 2 ^ 64 - 1 → F.taken files.old ≤ F.taken files.new }
    ensures closed { IfOk result (λ _. F.is_open files.new ≡ false) }
    ensures tree { F.tree files.new ≡ F.tree files.old }
    ensures asked { AsksFor (path.now ∷ []) result (F.asked files.old) (F.asked files.new) }
    ensures says { IfErr result (CutSays lines.old.messages.now.tool path.now) }
    ensures keeps { Keeps lines.old.reader.now lines.new.reader.now }
    ensures same { J.makes lines.new.job.now ≡ J.makes lines.old.job.now }
{
    lines.messages.prepare(path)?;
    match files.open_path(path) {
        PathAnswer::Opened => {
            match run_source(lines, path, files, outputs) {
                Ok(tally) => {
                    files.close();
                    Ok(tally)
                }
                Err(ended) => Err(ended),
            }
        }
        PathAnswer::Missing => {
            let text = lines.messages.missing(path)?;
            say(outputs.out, outputs.err, &[], text.as_bytes(), Mark::Stop)
        }
        PathAnswer::Failed => Err(lines.messages.end_of_read()),
    }
}

/// Runs the job on each line of one input. The standard input is read only once; `read` says
/// whether it has been read.
fn run_one<J: LineJob, F: Files, I: Source, O: Sink, E: Sink, L: Ledger>(
    lines: &mut Lines<'_, J>,
    name: &str,
    read: &mut bool,
    inputs: &mut Inputs<'_, F, I>,
    outputs: &mut Outputs<'_, O, E, L>,
) -> Result<Tally, Ended>
    ensures same_lines { SameLines lines.old lines.new }
    ensures same_inputs { SameInputs inputs.old inputs.new }
    ensures same_outputs { SameOutputs outputs.old outputs.new }
    ensures runs { RunsOne result (J.makes lines.old.job.now) (reading_of lines.old) name.now
        read.old
        (course lines.old.messages.now.tool F.Source I.Source O.Sink E.Sink inputs.old inputs.new
        outputs.old outputs.new) }
    ensures last { (is_standard name.now ≡ false → F.tells) →
        (is_standard name.now ≡ true → I.tells) →
        (read.old ≡ true → I.rest inputs.old.input.now ≡ []) → GoesOn result
        ((more : List (List ℕ)) → J.last_text lines.new.job.now more
        ≡ J.last_text lines.old.job.now (one_given (reading_of lines.old)
        (F.tree inputs.old.files.now) (I.rest inputs.old.input.now) name.now ++ more)) }
    ensures rest { (is_standard name.now ≡ true → I.tells) →
        (read.old ≡ true → I.rest inputs.old.input.now ≡ []) → GoesOn result
        (I.rest inputs.new.input.now ≡ left_after name.now (I.rest inputs.old.input.now)) }
    ensures cause { DevicesReadCause F.Source I.Source result inputs.old inputs.new }
    ensures idle { J.idle → outputs.new.steps.now ≡ outputs.old.steps.now }
    ensures sinks { DevicesWriteCause O.Sink E.Sink result outputs.old outputs.new }
    ensures input_taken { I.taken inputs.new.input.now < 2 ^ 64 - 1 →
        I.taken inputs.old.input.now ≤ I.taken inputs.new.input.now }
    ensures files_taken { F.taken inputs.new.files.now < 2 ^ 64 - 1 →
        F.taken inputs.old.files.now ≤ F.taken inputs.new.files.now }
    ensures tree { F.tree inputs.new.files.now ≡ F.tree inputs.old.files.now }
    ensures asked { AsksFor (files_among (name.now ∷ [])) result
        (F.asked inputs.old.files.now) (F.asked inputs.new.files.now) }
    ensures past_end { (read.old ≡ false → I.ended inputs.old.input.now ≡ false) →
        I.asked inputs.new.input.now ≡ I.asked inputs.old.input.now }
    ensures unhidden { HidesNoRead result (moment_of F.Source inputs.old.files.now)
        (moment_of F.Source inputs.new.files.now) }
    ensures says { IfErr result (CutSays lines.old.messages.now.tool name.now) }
    ensures reads { is_standard name.now ≡ true → read.new ≡ true }
    ensures stays { is_standard name.now ≡ false → (read.new ≡ read.old) ×
        (inputs.new.input.now ≡ inputs.old.input.now) }
    ensures keeps { Keeps lines.old.reader.now lines.new.reader.now }
    ensures same { J.makes lines.new.job.now ≡ J.makes lines.old.job.now }
{
    if name == "-" {
        if *read {
            return Ok(Tally::new());
        }
        *read = true;
        lines.messages.prepare(name)?;
        return run_source(lines, name, inputs.input, outputs);
    }
    run_file(lines, name, inputs.files, outputs)
}

/// Returns the text of a name.
fn text_of(name: &Chars) -> &str
    ensures { result.now ≡ encode_utf8_all name.now }
{
    name.as_str()
}

/// Runs the job on each line of the named inputs, one input after the other, up to the line that
/// ends the run.
pub fn run_inputs<J: LineJob, F: Files, I: Source, O: Sink, E: Sink, L: Ledger>(
    alloc: Global,
    job: &mut J,
    wanted: Wanted,
    inputs: &mut Inputs<'_, F, I>,
    outputs: &mut Outputs<'_, O, E, L>,
) -> Result<Tally, Ended>
    requires { wanted.reading.most ≤ 2 ^ 30 }
    ensures same_inputs { SameInputs inputs.old inputs.new }
    ensures same_outputs { SameOutputs outputs.old outputs.new }
    ensures same { J.makes job.new ≡ J.makes job.old }
    ensures runs { RunsInputs result (J.makes job.old) wanted.entry.reading
        (names_of encode_utf8_all wanted.entry.names.now)
        (course wanted.entry.reading.tool F.Source I.Source O.Sink E.Sink inputs.old inputs.new
        outputs.old outputs.new) }
    ensures last { AreTold (names_of encode_utf8_all wanted.entry.names.now) F.tells I.tells →
        GoesOn result (J.last_text job.new [] ≡ J.last_text job.old (inputs_given
        wanted.entry.reading (F.tree inputs.old.files.now) (I.rest inputs.old.input.now)
        (names_of encode_utf8_all wanted.entry.names.now))) }
    ensures rest { AreTold (names_of encode_utf8_all wanted.entry.names.now) F.tells I.tells →
        GoesOn result
        (reads_standard (names_of encode_utf8_all wanted.entry.names.now) ≡ true →
        I.rest inputs.new.input.now ≡ []) }
    ensures unread { reads_standard (names_of encode_utf8_all wanted.entry.names.now) ≡ false →
        inputs.new.input.now ≡ inputs.old.input.now }
    ensures cause { DevicesReadCause F.Source I.Source result inputs.old inputs.new }
    ensures idle { J.idle → outputs.new.steps.now ≡ outputs.old.steps.now }
    ensures sinks { DevicesWriteCause O.Sink E.Sink result outputs.old outputs.new }
    ensures tree { F.tree inputs.new.files.now ≡ F.tree inputs.old.files.now }
    ensures asked { AsksInputs result (J.makes job.old) wanted.entry.reading
        (names_of encode_utf8_all wanted.entry.names.now)
        (course wanted.entry.reading.tool F.Source I.Source O.Sink E.Sink inputs.old inputs.new
        outputs.old outputs.new)
        (F.asked inputs.old.files.now) (F.asked inputs.new.files.now) }
    ensures past_end { I.ended inputs.old.input.now ≡ false →
        I.asked inputs.new.input.now ≡ I.asked inputs.old.input.now }
    ensures unhidden { HidesNoRead result (moment_of F.Source inputs.old.files.now)
        (moment_of F.Source inputs.new.files.now) }
{
    let Ok(mut reader) = LineReader::new(alloc, wanted.reading.whole, wanted.reading.most) else {
        return Err(Ended::NoMemory);
    };
    let mut messages = Messages::new(alloc, wanted.reading.tool);
    let mut lines = Lines::new(job, &mut reader, &mut messages);
    let mut tally = Tally::new();
    let mut read = false;
    'inputs: for name in wanted.names {
        match run_one(&mut lines, text_of(name), &mut read, inputs, outputs) {
            Ok(part) => {
                tally = tally.and(part);
                if tally.stop {
                    return Ok(tally);
                }
            }
            Err(ended) => return Err(ended),
        }
    }
    Ok(tally)
}

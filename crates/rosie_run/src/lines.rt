// The lines of a source, as pieces.
ghost use Rattle.std.specs.Prelude.{◌≡◌, ◌+◌, ◌-◌, ◌^◌, ◌≤◌, ℕ, List, codes, length};
ghost use Rattle.std.specs.Prelude.{string_bytes, IfErr, IfOk, OnOk};
ghost use Rattle.rosie_run.specs.Going.{IsSaidBy, OnPiece};
ghost use Rattle.rosie_run.specs.Lines.{input_message, line_message};
ghost use Rattle.rosie_run.specs.Parts.{whole_of};
ghost use Rattle.rosie_run.specs.Report.{fault_piece};
ghost use Rattle.rosie_run.specs.Runs.{IsCutOf};
ghost use Rattle.rosie_io.specs.declared.stop.ReadStop.TheVariants.{ReadFault, Spent};
ghost use Rattle.rosie_run.specs.FromLines.{ComesFrom, LeavesLines, SameLines};
ghost use Rattle.rosie_run.specs.Passing.{IsPrepared, IsStop, MakesOf, MakesPiece};
ghost use Rattle.rosie_run.specs.Passing.{SaysOf, kept_err, kept_out};

use crate::line_job::{InputLine, LineJob};
use crate::saying::cut;
use crate::write::{input_message, line_message};
use crate::{Ended, Mark, NoMemory, PieceSource, Tool};
use rosie_io::{Line, LineFault, LineReader, ReadStop, Source};
use rpl_machine::Steps;
use std::alloc::Global;
use std::mem;
use std::sync::ledger::Ledger;

/// How the lines of an input are read.
#[derive(Clone, Copy, Debug)]
pub struct Reading {
    /// The program that runs.
    pub tool: Tool,
    /// Whether the whole input is one line.
    pub whole: bool,
    /// The greatest number of bytes that a line may have.
    pub most: usize,
}

/// The run's own messages about an input. They are kept apart from `SourceLines`: if that value
/// owned memory, nothing could be proved about its job and its source once it is dropped.
#[derive(Drop)]
pub(crate) struct Messages {
    alloc: Global,
    /// The program that runs.
    tool: Tool,
    /// The message about the last line, if the job can't be run on that line.
    fault: Option<String>,
    /// The message for a failed read. It is prepared before the input is opened, so that a lack
    /// of memory can't hide a failed read.
    read_failed: String,
}

/// A job, and the reader of the lines that the job is run on.
#[derive(Drop)]
pub(crate) struct Lines<'a, J> {
    /// The job, which makes each line's piece.
    pub(crate) job: &'a mut J,
    /// The reader of the lines.
    pub(crate) reader: &'a mut LineReader,
    pub(crate) messages: &'a mut Messages,
}

/// The lines of a source that is already open, as pieces.
#[derive(Drop)]
pub(crate) struct SourceLines<'a, J, S> {
    /// The name by which messages refer to the source.
    file: &'a str,
    /// The job, which makes each line's piece.
    job: &'a mut J,
    /// The reader of the lines.
    reader: &'a mut LineReader,
    messages: &'a mut Messages,
    source: &'a mut S,
}

impl Messages {
    /// Returns a value that holds no message yet.
    pub(crate) fn new(alloc: Global, tool: Tool) -> Messages
        ensures { result.tool ≡ tool }
    {
        Messages {
            alloc,
            tool,
            fault: None,
            read_failed: String::new(alloc),
        }
    }

    /// Prepares the message for a failed read of an input.
    pub(crate) fn prepare(&mut self, file: &str) -> Result<(), NoMemory>
        ensures tool { self.new.tool ≡ self.old.tool }
        ensures prepared { OnOk result (IsPrepared self.new file.now) }
    {
        self.read_failed = input_message(self.alloc, self.tool, file, "read failed")?;
        Ok(())
    }

    /// Returns the reason why a run ends after a failed read.
    pub(crate) fn end_of_read(&mut self) -> Ended
        ensures stops { IsStop ReadFault result }
        ensures cut { (file : List ℕ) → IsPrepared self.old file →
            IsCutOf result self.old.tool ReadFault file }
        ensures says { (file : List ℕ) → IsPrepared self.old file →
            IsSaidBy self.old.tool file result }
        ensures tool { self.new.tool ≡ self.old.tool }
    {
        let text = mem::replace(&mut self.read_failed, String::new(self.alloc));
        Ended::Cut(ReadStop::ReadFault, text)
    }

    /// Returns the reason why a run ends when no more reads are allowed from an input.
    fn end_of_reads(&self, file: &str) -> Ended
        ensures { IsCutOf result self.now.tool Spent file.now }
    {
        cut(self.alloc, self.tool, ReadStop::Spent, file)
    }

    /// Returns the message that reports a missing file.
    pub(crate) fn missing(&self, file: &str) -> Result<String, NoMemory>
        ensures { IfOk result (λ text. string_bytes text
            ≡ input_message self.now.tool file.now (codes "no such file")) }
    {
        input_message(self.alloc, self.tool, file, "no such file")
    }

    /// Keeps the message about a line. The message is the line's whole piece.
    fn say(&mut self, file: &str, number: u64, why: &str) -> Result<Option<Mark>, Ended>
        ensures tool { self.new.tool ≡ self.old.tool }
        ensures stays { self.new.read_failed ≡ self.old.read_failed }
        ensures says { (name : List ℕ) → IfErr result (IsSaidBy self.old.tool name) }
        ensures makes { (out err : List ℕ) (n : ℕ) → MakesPiece result
            (fault_piece (line_message self.old.tool file.now number why.now))
            (kept_out self.new.fault out) (kept_err self.new.fault err) n n }
    {
        let text = line_message(self.alloc, self.tool, file, number, why)?;
        self.fault = Some(text);
        Ok(Some(Mark::Fault))
    }
}

impl<'a, J: LineJob> Lines<'a, J> {
    /// Combines a job, the reader of its lines and the messages of the run.
    pub(crate) fn new(
        job: &'a mut J,
        reader: &'a mut LineReader,
        messages: &'a mut Messages,
    ) -> Lines<'a, J>
        ensures same_job { result.job.ghost_name ≡ job.entry.ghost_name }
        ensures same_reader { result.reader.ghost_name ≡ reader.entry.ghost_name }
        ensures same_messages { result.messages.ghost_name ≡ messages.entry.ghost_name }
        ensures job { result.job.now ≡ job.old }
        ensures reader { result.reader.now ≡ reader.old }
        ensures messages { result.messages.now ≡ messages.old }
    {
        Lines {
            job,
            reader,
            messages,
        }
    }
}

impl<'a, J: LineJob, S: Source> SourceLines<'a, J, S> {
    /// Returns, as pieces, the lines of `source` that `reader` has not read yet.
    pub(crate) fn new(
        file: &'a str,
        job: &'a mut J,
        reader: &'a mut LineReader,
        messages: &'a mut Messages,
        source: &'a mut S,
    ) -> SourceLines<'a, J, S>
        ensures same_job { result.job.ghost_name ≡ job.entry.ghost_name }
        ensures same_reader { result.reader.ghost_name ≡ reader.entry.ghost_name }
        ensures same_messages { result.messages.ghost_name ≡ messages.entry.ghost_name }
        ensures same_source { result.source.ghost_name ≡ source.entry.ghost_name }
        ensures job { result.job.now ≡ job.old }
        ensures reader { result.reader.now ≡ reader.old }
        ensures messages { result.messages.now ≡ messages.old }
        ensures source { result.source.now ≡ source.old }
        ensures file { result.file.now ≡ file.entry.now }
    {
        SourceLines {
            file,
            job,
            reader,
            messages,
            source,
        }
    }

    /// Makes the next piece from the reader's result. Returns `None` if there is no further line.
    #[inline(always)]
    fn make_of<L: Ledger>(
        &mut self,
        found: Result<Line, LineFault>,
        steps: &mut Steps<L>,
    ) -> Result<Option<Mark>, Ended>
        requires fits { length self.old.reader.now.text ≤ 2 ^ 30 }
        requires prepared { IsPrepared self.old.messages.now self.old.file.now }
        ensures same_lines { SameLines self.old self.new }
        ensures same { J.makes self.new.job.now ≡ J.makes self.old.job.now }
        ensures reader { self.new.reader.now ≡ self.old.reader.now }
        ensures source { self.new.source.now ≡ self.old.source.now }
        ensures tool { self.new.messages.now.tool ≡ self.old.messages.now.tool }
        ensures prepared { OnPiece result (IsPrepared self.new.messages.now self.new.file.now) }
        ensures says { IfErr result (IsSaidBy self.old.messages.now.tool self.old.file.now) }
        ensures last { SaysOf found result (J.last_text self.new.job.now)
            (J.last_text self.old.job.now) self.old.reader.now.text }
        ensures idle { J.idle → steps.new ≡ steps.old }
        ensures makes { MakesOf found result (J.makes self.old.job.now)
            self.old.messages.now.tool self.old.file.now self.old.reader.now.number
            self.old.reader.now.text
            (kept_out self.new.messages.now.fault
            (whole_of (J.out_text self.new.job.now) (J.out_rest self.new.job.now)))
            (kept_err self.new.messages.now.fault (J.err_text self.new.job.now))
            steps.old steps.new }
    {
        match found {
            Ok(Line::Text) => {
                self.messages.fault = None;
                let line = InputLine {
                    file: self.file,
                    number: self.reader.number(),
                    text: self.reader.line(),
                    is_ascii: self.reader.is_ascii(),
                };
                let mark = self.job.answer(line, steps)?;
                Ok(Some(mark))
            }
            Ok(Line::End) => Ok(None),
            Err(fault) => match fault {
                LineFault::TooLong { line } => self.messages.say(self.file, line, "line too long"),
                LineFault::NotText { line } => self.messages.say(self.file, line, "not UTF-8"),
                LineFault::NoMemory => Err(Ended::NoMemory),
                LineFault::Stopped(ReadStop::ReadFault) => Err(self.messages.end_of_read()),
                LineFault::Stopped(ReadStop::Spent) => Err(self.messages.end_of_reads(self.file)),
            },
        }
    }
}

impl<'a, J: LineJob, S: Source> PieceSource for SourceLines<'a, J, S> {
    ghost use Rattle.std.specs.Prelude.{refl};
    ghost use Rattle.rosie_run.specs.FromLines.{GoesOnFrom, begins_lines};

    ghost comes = { λ s ps. ComesFrom J.makes S.Source s ps };

    ghost same = { λ s z. SameLines s z };

    ghost leaves = { λ how s z k. LeavesLines J.makes J.last_text S.Source how s z k };

    ghost goes_on = { λ s. GoesOnFrom s };

    ghost bound = { λ s. 2 ^ 48 + 1 - s.reader.now.number };

    ghost out_text = { λ s. kept_out s.messages.now.fault (J.out_text s.job.now) };

    ghost err_text = { λ s. kept_err s.messages.now.fault (J.err_text s.job.now) };

    ghost out_rest = { λ s. kept_out s.messages.now.fault (J.out_rest s.job.now) };

    ghost tool = { λ s. s.messages.now.tool };

    ghost source_name = { λ s. s.file.now };

    ghost idle = { J.idle };

    #[inline(always)]
    fn is_ready(&self) -> bool {
        self.reader.is_ready()
    }

    #[inline(always)]
    fn next<L: Ledger>(&mut self, steps: &mut Steps<L>) -> Result<Option<Mark>, Ended> {
        let found = self.reader.next(self.source);
        self.make_of(found, steps)
    }

    #[inline(always)]
    fn next_part(&mut self) -> Result<bool, NoMemory> {
        match &self.messages.fault {
            Some(_) => Ok(false),
            None => self.job.next_part(),
        }
    }

    #[inline(always)]
    fn out(&self) -> &[u8] {
        match &self.messages.fault {
            Some(_) => &[],
            None => self.job.out(),
        }
    }

    #[inline(always)]
    fn err(&self) -> &[u8] {
        match &self.messages.fault {
            Some(text) => text.as_bytes(),
            None => self.job.err(),
        }
    }

    ghost begins = { λ s. ((refl, refl, refl, refl, refl), begins_lines J.makes J.last_text S.Source s) };
}

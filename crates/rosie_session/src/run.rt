// Makes the replies to the lines of a session, as pieces.
ghost use Rattle.std.specs.Prelude.{⊤, ◌≡◌, ◌+◌, ◌-◌, ◌^◌, ◌≤◌, [], ℕ, List, Some, false, length, IfErr, IfOk};
ghost use Rattle.rosie_repl.specs.Edits.{edit_of};
ghost use Rattle.rosie_repl.specs.Session.{begun};
ghost use Rattle.rosie_repl.specs.States.{session_of};
ghost use Rattle.rosie_run.specs.Devices.{DevicesReadCause, DevicesWriteCause, SameInputs, SameOutputs};
ghost use Rattle.rosie_run.specs.Devices.{course};
ghost use Rattle.rosie_run.specs.Going.{IsNoStop, IsSaidBy, OnPiece};
ghost use Rattle.rosie_run.specs.Runs.{GoesOn};
ghost use Rattle.rosie_run.specs.Sources.{moment_of};
ghost use Rattle.rosie_io.specs.declared.stop.ReadStop.TheVariants.{ReadFault, Spent};
ghost use Rattle.rosie_run.specs.declared.tool.Tool.TheVariants.{Rosie};
ghost use Rattle.rosie_run.specs.Passing.{IsStop, IsStopOrMemory, MakesPiece};
ghost use Rattle.rosie_run.specs.Report.{fault_piece, is_stop};
ghost use Rattle.rosie_session.specs.Asked.{AsksSession};
ghost use Rattle.rosie_session.specs.Replay.{edit_turn, session_fault};
ghost use Rattle.rosie_session.specs.Runs.{RunsSession};
ghost use Rattle.rosie_session.specs.inside.Passing.{AsksOf, AsksTurn, ComesFrom, FilesOf};
ghost use Rattle.rosie_session.specs.inside.Passing.{GoesOnFrom, IsPrepared};
ghost use Rattle.rosie_session.specs.inside.Passing.{LeavesSession, MakesOf, MakesTurn};
ghost use Rattle.rosie_session.specs.inside.Passing.{SameSession, TextFiles, name_of};
ghost use Rattle.rosie_session.specs.inside.Turning.{OfTurn};

use crate::replies::wrong;
use crate::reply::Reply;
use crate::session_end::SessionEnd;
use crate::turn::{LineContext, answer};
use rosie_io::{Files, Line, LineFault, LineReader, Sink, Source};
use rosie_repl::State;
use rosie_run::{
    Ended, Inputs, Mark, NoMemory, Outputs, PieceSource, ReadStop, Tally, Tool, cut, input_fault,
    run_pieces,
};
use rpl_machine::Steps;
use rpl_package::LibPath;
use rpl_print::text_of;
use rpl_text::Chars;
use std::alloc::Global;
use std::mem;
use std::sync::ledger::Ledger;

/// The greatest number of bytes that a line of a session may contain.
const MAX_COMMAND_BYTES: usize = 1_048_576;

/// The state that a session keeps from line to line. This state is kept apart from the value that
/// holds the files and the input: if that value owned memory, nothing could be proved about the
/// files and the input after the run.
#[derive(Drop)]
struct SessionMemory {
    alloc: Global,
    state: State,
    /// Reads the session's input line by line.
    reader: LineReader,
    /// The last reply.
    reply: Reply,
    /// The file that couldn't be read, if the failed read ended the session.
    unread: Option<Chars>,
    /// The message for a failed read of the input. It is prepared before the first read, so that
    /// a lack of memory can't hide a failed read.
    read_failed: String,
}

/// A source of pieces: the replies to the lines of a session.
#[derive(Drop)]
struct SessionLines<'a, F, I> {
    folders: &'a LibPath,
    kept: &'a mut SessionMemory,
    files: &'a mut F,
    input: &'a mut I,
}

impl SessionMemory {
    /// Returns the state of a session that has read nothing.
    fn new(alloc: Global) -> Result<SessionMemory, NoMemory>
        ensures state { IfOk result (λ kept. session_of kept.state ≡ begun) }
        ensures reader { IfOk result (λ kept. kept.reader ≡ record {
          held = record { bytes = []; ended = false; reads = 0 };
          text = [];
          whole = false;
          most = 1048576;
          number = 0;
          done = false;
        }) }
        ensures prepared { IfOk result IsPrepared }
    {
        let read_failed = input_fault(alloc, "-", "read failed")?;
        let reader = LineReader::new(alloc, false, MAX_COMMAND_BYTES)?;
        Ok(SessionMemory {
            alloc,
            state: State::new(alloc),
            reader,
            reply: Reply {
                out: Vec::new(alloc),
                err: Vec::new(alloc),
                mark: Mark::Miss,
            },
            unread: None,
            read_failed,
        })
    }

    /// Stores the reply to a line, and returns the reply's mark.
    fn keep(&mut self, reply: Reply) -> Mark
        ensures kept { self.new ≡ record self.old { reply = reply } }
        ensures mark { result ≡ reply.mark }
        ensures goes_on { is_stop result ≡ false }
    {
        self.reply = reply;
        self.reply.mark
    }

    /// Stores a reply that says what is wrong with a line.
    fn wrong(&mut self, number: u64, text: &str) -> Result<Option<Mark>, Ended>
        ensures kept { self.new ≡ record self.old { reply = self.new.reply } }
        ensures says { (name : List ℕ) → IfErr result (IsSaidBy Rosie name) }
        ensures goes_on { IsNoStop result }
        ensures makes { (n : ℕ) → MakesPiece result
            (fault_piece (session_fault number text.now)) self.new.reply.out.items
            self.new.reply.err.items n n }
    {
        let reply = wrong(self.alloc, number, text)?;
        Ok(Some(self.keep(reply)))
    }

    /// Returns the reason why a session ends after a failed read of the input.
    fn end_of_read(&mut self) -> Ended
        ensures kept { self.new ≡ record self.old { read_failed = self.new.read_failed } }
        ensures stops { IsStop ReadFault result }
        ensures says { IsPrepared self.old → IsSaidBy Rosie (name_of self.new.unread) result }
    {
        let text = mem::replace(&mut self.read_failed, String::new(self.alloc));
        Ended::Cut(ReadStop::ReadFault, text)
    }

    /// Returns the reason why a session ends once it has made the greatest allowed number of reads.
    fn end_of_reads(&self) -> Ended
        ensures stops { IsStopOrMemory Spent result }
        ensures says { IsPrepared self.now → IsSaidBy Rosie (name_of self.now.unread) result }
    {
        cut(self.alloc, Tool::Rosie, ReadStop::Spent, "-")
    }

    /// Returns the reason why a session ends if a line needs a file that couldn't be read.
    fn end_at(&mut self, path: Chars) -> Ended
        ensures kept { self.new ≡ record self.old { unread = Some path } }
        ensures stops { IsStopOrMemory ReadFault result }
        ensures says { IsSaidBy Rosie (name_of self.new.unread) result }
    {
        let ended = cut(self.alloc, Tool::Rosie, ReadStop::ReadFault, text_of(&path));
        self.unread = Some(path);
        ended
    }
}

impl<'a, F: Files, I: Source> SessionLines<'a, F, I> {
    /// Combines the folders, the state, the files and the input of a session.
    fn new(
        folders: &'a LibPath,
        kept: &'a mut SessionMemory,
        files: &'a mut F,
        input: &'a mut I,
    ) -> SessionLines<'a, F, I>
        ensures same_kept { result.kept.ghost_name ≡ kept.entry.ghost_name }
        ensures same_files { result.files.ghost_name ≡ files.entry.ghost_name }
        ensures same_input { result.input.ghost_name ≡ input.entry.ghost_name }
        ensures kept { result.kept.now ≡ kept.old }
        ensures files { result.files.now ≡ files.old }
        ensures input { result.input.now ≡ input.old }
        ensures folders { result.folders.now ≡ folders.entry.now }
    {
        SessionLines {
            folders,
            kept,
            files,
            input,
        }
    }

    /// Makes the reply to the line of text that the reader holds.
    fn answer_text<L: Ledger>(&mut self, steps: &mut Steps<L>) -> Result<Option<Mark>, Ended>
        requires { length self.old.kept.now.reader.text ≤ 2 ^ 30 }
        ensures same { SameSession self.old self.new }
        ensures reader { self.new.kept.now.reader ≡ self.old.kept.now.reader }
        ensures input { self.new.input.now ≡ self.old.input.now }
        ensures prepared { IsPrepared self.old.kept.now →
            OnPiece result (IsPrepared self.new.kept.now) }
        ensures says { IfErr result (IsSaidBy Rosie (name_of self.new.kept.now.unread)) }
        ensures goes_on { IsNoStop result }
        ensures files { TextFiles result self.new.kept.now.unread
            (moment_of F.Source self.old.files.now) (moment_of F.Source self.new.files.now) }
        ensures tree { F.tree self.new.files.now ≡ F.tree self.old.files.now }
        ensures makes { OfTurn F.tells (F.tree self.old.files.now) self.old.folders.now
            (λ w. edit_turn w self.old.kept.now.reader.number
            (session_of self.old.kept.now.state) (edit_of self.old.kept.now.reader.text))
            (λ t. MakesTurn result t (session_of self.new.kept.now.state)
            self.new.kept.now.reply.out.items self.new.kept.now.reply.err.items
            steps.old steps.new) }
        ensures asked { OfTurn F.tells (F.tree self.old.files.now) self.old.folders.now
            (λ w. edit_turn w self.old.kept.now.reader.number
            (session_of self.old.kept.now.state) (edit_of self.old.kept.now.reader.text))
            (λ t. AsksTurn result self.new.kept.now.unread t.asked
            (F.asked self.old.files.now) (F.asked self.new.files.now)) }
    {
        let base = LineContext {
            alloc: self.kept.alloc,
            folders: self.folders,
            number: self.kept.reader.number(),
        };
        let SessionMemory { state, reader, .. } = &mut *self.kept;
        match answer(&base, state, reader.line(), self.files, steps) {
            Ok(reply) => Ok(Some(self.kept.keep(reply))),
            Err(session_end) => match session_end {
                SessionEnd::NoMemory => Err(Ended::NoMemory),
                SessionEnd::Unread(path) => Err(self.kept.end_at(path)),
            },
        }
    }

    /// Makes the next reply from the reader's result. Returns `None` if there is no further line.
    fn make_of<L: Ledger>(
        &mut self,
        found: Result<Line, LineFault>,
        steps: &mut Steps<L>,
    ) -> Result<Option<Mark>, Ended>
        requires fits { length self.old.kept.now.reader.text ≤ 2 ^ 30 }
        requires prepared { IsPrepared self.old.kept.now }
        ensures same { SameSession self.old self.new }
        ensures reader { self.new.kept.now.reader ≡ self.old.kept.now.reader }
        ensures input { self.new.input.now ≡ self.old.input.now }
        ensures prepared { OnPiece result (IsPrepared self.new.kept.now) }
        ensures says { IfErr result (IsSaidBy Rosie (name_of self.new.kept.now.unread)) }
        ensures goes_on { IsNoStop result }
        ensures files { FilesOf found result self.new.kept.now.unread
            (moment_of F.Source self.old.files.now) (moment_of F.Source self.new.files.now) }
        ensures tree { F.tree self.new.files.now ≡ F.tree self.old.files.now }
        ensures makes { MakesOf F.tells (F.tree self.old.files.now) self.old.folders.now found result
            self.old.kept.now.reader.number self.old.kept.now.reader.text
            (session_of self.old.kept.now.state) (session_of self.new.kept.now.state)
            self.new.kept.now.reply.out.items self.new.kept.now.reply.err.items
            steps.old steps.new }
        ensures asked { AsksOf F.tells (F.tree self.old.files.now) self.old.folders.now found result
            self.old.kept.now.reader.number self.old.kept.now.reader.text
            (session_of self.old.kept.now.state) self.new.kept.now.unread
            (F.asked self.old.files.now) (F.asked self.new.files.now) }
    {
        match found {
            Ok(line) => match line {
                Line::Text => self.answer_text(steps),
                Line::End => Ok(None),
            },
            Err(fault) => match fault {
                LineFault::TooLong { line } => self.kept.wrong(line, "line too long"),
                LineFault::NotText { line } => self.kept.wrong(line, "not UTF-8"),
                LineFault::NoMemory => Err(Ended::NoMemory),
                LineFault::Stopped(ReadStop::ReadFault) => Err(self.kept.end_of_read()),
                LineFault::Stopped(ReadStop::Spent) => Err(self.kept.end_of_reads()),
            },
        }
    }
}

impl<'a, F: Files, I: Source> PieceSource for SessionLines<'a, F, I> {
    ghost use Rattle.std.specs.Prelude.{refl};
    ghost use Rattle.rosie_session.specs.inside.Passing.{begins_session};

    ghost comes = { λ s ps. ComesFrom F.Source I.Source s ps };

    ghost same = { λ s z. SameSession s z };

    ghost leaves = { λ how s z k. LeavesSession F.Source I.Source how s z k };

    ghost goes_on = { λ s. GoesOnFrom s };

    ghost bound = { λ s. 2 ^ 48 + 1 - s.kept.now.reader.number };

    ghost out_text = { λ s. s.kept.now.reply.out.items };

    ghost err_text = { λ s. s.kept.now.reply.err.items };

    ghost tool = { λ _. Rosie };

    ghost source_name = { λ s. name_of s.kept.now.unread };

    ghost never_stops = { ⊤ };

    fn is_ready(&self) -> bool {
        self.kept.reader.is_ready()
    }

    fn next<L: Ledger>(&mut self, steps: &mut Steps<L>) -> Result<Option<Mark>, Ended> {
        let found = self.kept.reader.next(self.input);
        self.make_of(found, steps)
    }

    #[inline(always)]
    fn next_part(&mut self) -> Result<bool, NoMemory> {
        Ok(false)
    }

    #[inline(always)]
    fn out(&self) -> &[u8] {
        self.kept.reply.out.as_slice()
    }

    #[inline(always)]
    fn err(&self) -> &[u8] {
        self.kept.reply.err.as_slice()
    }

    ghost begins = { λ s. ((refl, refl, refl, refl), begins_session F.Source I.Source s) };
}

/// Runs a session: each line of the input is a command, and is answered before the run waits for
/// the next line. `folders` lists the folders that are searched for imports.
///
/// The output is what `specs/Replay.antt` defines, given the results of loading the files. If
/// reading or writing ends the session, or memory runs out, the output is a prefix of the output
/// that `specs/Replay.antt` defines. No file is opened other than those that the lines ask for, in
/// the order of the lines.
pub fn run_session<F: Files, I: Source, O: Sink, E: Sink, L: Ledger>(
    alloc: Global,
    folders: &LibPath,
    inputs: &mut Inputs<'_, F, I>,
    outputs: &mut Outputs<'_, O, E, L>,
) -> Result<Tally, Ended>
    ensures same_inputs { SameInputs inputs.old inputs.new }
    ensures same_outputs { SameOutputs outputs.old outputs.new }
    ensures runs { RunsSession result folders.now (course Rosie F.Source I.Source O.Sink E.Sink
        inputs.old inputs.new outputs.old outputs.new) }
    ensures asked { AsksSession result folders.now (course Rosie F.Source I.Source O.Sink E.Sink
        inputs.old inputs.new outputs.old outputs.new)
        (F.asked inputs.old.files.now) (F.asked inputs.new.files.now) }
    ensures past_end { I.ended inputs.old.input.now ≡ false →
        I.asked inputs.new.input.now ≡ I.asked inputs.old.input.now }
    ensures rest { I.tells → GoesOn result (I.rest inputs.new.input.now ≡ []) }
    ensures goes_on { IfOk result (λ tally. tally.stop ≡ false) }
    ensures cause { DevicesReadCause F.Source I.Source result inputs.old inputs.new }
    ensures sinks { DevicesWriteCause O.Sink E.Sink result outputs.old outputs.new }
    ensures tree { F.tree inputs.new.files.now ≡ F.tree inputs.old.files.now }
{
    let mut kept = SessionMemory::new(alloc)?;
    let mut lines = SessionLines::new(folders, &mut kept, inputs.files, inputs.input);
    run_pieces(&mut lines, outputs)
}

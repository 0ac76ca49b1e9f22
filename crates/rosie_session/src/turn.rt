// The reply to a line of text.
ghost use Rattle.std.specs.Prelude.{◌≡◌, ◌+◌, ◌≤◌, ◌^◌, ℕ, List, Some, IfOk, OnOk, chars, length};
ghost use Rattle.rosie_io.specs.Loading.{NotFewer};
ghost use Rattle.rosie_jobs.specs.Jobs.{matcher_of};
ghost use Rattle.rosie_jobs.specs.Lines.{Job};
ghost use Rattle.rosie_jobs.specs.Makers.{Matches};
ghost use Rattle.rosie_run.specs.Unready.{CauseIn, HasAsked};
ghost use Rattle.rosie_repl.specs.Edits.{Try, edit_of, in_chars};
ghost use Rattle.rosie_repl.specs.Seen.{edit_seen};
ghost use Rattle.rosie_repl.specs.Session as S;
ghost use Rattle.rosie_repl.specs.Session.{Session};
ghost use Rattle.rosie_repl.specs.States.{session_of};
ghost use Rattle.rosie_session.specs.Replay.{edit_turn, job_piece, load_turn, out_or_no, plain, try_turn};
ghost use Rattle.rosie_session.specs.Replay.{undo_turn};
ghost use Rattle.rosie_session.specs.inside.Turning.{Asks, change_of, IsReply, Judges, Leaves};
ghost use Rattle.rosie_session.specs.inside.Turning.{OfMade, OfTurn, Says, StepsBy, Turns};

use crate::loading::{load_goal, load_texts};
use crate::replies::{NAME, accepted, refused, wrong};
use crate::reply::Reply;
use crate::session_end::SessionEnd;
use rosie_io::Files;
use rosie_jobs::{InputLine, LineJob, MatchJob};
use rosie_repl::{Edit, State, read_edit};
use rosie_run::{Mark, NoMemory, Unready};
use rpl_machine::Steps;
use rpl_package::LibPath;
use std::alloc::Global;
use std::sync::ledger::Ledger;

/// The context in which a line of a session is answered: the folders that are searched for imports,
/// and the number of the line.
#[derive(Clone, Copy)]
pub(crate) struct LineContext<'a> {
    pub(crate) alloc: Global,
    pub(crate) folders: &'a LibPath,
    pub(crate) number: u64,
}

/// A tried line, and the pattern that it is matched with.
#[derive(Clone, Copy)]
struct Trial<'a> {
    pattern: &'a str,
    line: &'a str,
}

/// Loads the changed state: a new pattern together with the texts, or, after any other change, the
/// texts alone.
fn load_change<F: Files>(
    alloc: Global,
    folders: &LibPath,
    state: &State,
    edit: &Edit<'_>,
    files: &mut F,
) -> Result<(), Unready>
    ensures judges { (before : Session) → OfTurn F.tells (F.tree files.old) folders.now
        (λ w. load_turn w (in_chars (edit_seen edit.now)) before (session_of state.now))
        (λ t. Judges result t before (session_of state.now)) }
    ensures asked { (before : Session) → OfTurn F.tells (F.tree files.old) folders.now
        (λ w. load_turn w (in_chars (edit_seen edit.now)) before (session_of state.now))
        (λ t. HasAsked (F.asked files.old) (F.asked files.new) result t.asked) }
    ensures cause { CauseIn F.Source result files.old files.new }
    ensures taken { NotFewer (F.taken files.old) (F.taken files.new) }
    ensures tree { F.tree files.new ≡ F.tree files.old }
{
    match *edit {
        Edit::Pattern(pattern) => match load_goal(alloc, folders, state, pattern, files) {
            Ok(_) => Ok(()),
            Err(unready) => Err(unready),
        },
        _ => load_texts(alloc, folders, state, files),
    }
}

/// Keeps a change if loading finds no fault, and undoes it otherwise.
fn judge<F: Files>(
    alloc: Global,
    folders: &LibPath,
    state: &mut State,
    edit: &Edit<'_>,
    files: &mut F,
) -> Result<Reply, SessionEnd>
    ensures turns { OfMade F.tells (F.tree files.old) folders.now (in_chars (edit_seen edit.now))
        (session_of state.old) (λ t. Turns result t (session_of state.new)) }
    ensures asked { OfMade F.tells (F.tree files.old) folders.now (in_chars (edit_seen edit.now))
        (session_of state.old)
        (λ t. Asks result t.asked (F.asked files.old) (F.asked files.new)) }
    ensures leaves { Leaves F.Source result files.old files.new }
{
    match load_change(alloc, folders, state, edit, files) {
        Ok(()) => Ok(accepted(alloc, state)?),
        Err(unready) => match unready {
            Unready::NoMemory => Err(SessionEnd::NoMemory),
            Unready::Refused(line) => {
                state.undo();
                Ok(refused(alloc, line))
            }
            Unready::ReadFault(path) => Err(SessionEnd::Unread(path)),
        },
    }
}

/// Makes a change, and keeps it if loading finds no fault.
fn change<F: Files>(
    base: &LineContext<'_>,
    state: &mut State,
    edit: &Edit<'_>,
    files: &mut F,
) -> Result<Reply, SessionEnd>
    ensures turns { OfTurn F.tells (F.tree files.old) base.now.folders.now
        (λ w. change_of w base.now.number (session_of state.old) (in_chars (edit_seen edit.now)))
        (λ t. Turns result t (session_of state.new)) }
    ensures asked { OfTurn F.tells (F.tree files.old) base.now.folders.now
        (λ w. change_of w base.now.number (session_of state.old) (in_chars (edit_seen edit.now)))
        (λ t. Asks result t.asked (F.asked files.old) (F.asked files.new)) }
    ensures leaves { Leaves F.Source result files.old files.new }
{
    if state.change(edit)? {
        return judge(base.alloc, base.folders, state, edit, files);
    }
    Ok(wrong(base.alloc, base.number, "bad command")?)
}

/// Restores the state from before the last change.
fn undo(alloc: Global, state: &mut State, number: u64) -> Result<Reply, NoMemory>
    ensures { IfOk result (λ reply. Says reply (undo_turn number (session_of state.old)
        (S.undone (session_of state.old))) (session_of state.new)) }
{
    if state.undo() {
        return accepted(alloc, state);
    }
    wrong(alloc, number, "nothing to undo")
}

/// Returns a copy of the bytes.
fn copy_of(alloc: Global, bytes: &[u8]) -> Result<Vec<u8>, NoMemory>
    ensures { IfOk result (λ copy. copy.items ≡ bytes.now) }
{
    let mut copy = Vec::new(alloc);
    copy.extend_from_slice(bytes)?;
    Ok(copy)
}

/// Returns the text that is written to `out` for a tried line: its answer, or `no` if the line
/// doesn't match.
fn told(alloc: Global, mark: Mark, text: &[u8]) -> Result<Vec<u8>, NoMemory>
    ensures { IfOk result (λ told. told.items ≡ out_or_no mark text.now) }
{
    match mark {
        Mark::Miss => {
            let no = copy_of(alloc, b"no\n")?;
            Ok(no)
        }
        _ => {
            let same = copy_of(alloc, text)?;
            Ok(same)
        }
    }
}

/// Runs a job on a line, and makes the reply. The reply is `no` if the line doesn't match.
fn try_job<L: Ledger>(
    alloc: Global,
    job: &mut MatchJob,
    number: u64,
    line: &str,
    steps: &mut Steps<L>,
) -> Result<Reply, NoMemory>
    requires { length line.now ≤ 2 ^ 30 }
    ensures reply { (ran : Job) → matcher_of job.old ≡ Matches plain ran
        → IfOk result (λ reply. IsReply reply (job_piece ran number line.now)) }
    ensures cost { (ran : Job) → matcher_of job.old ≡ Matches plain ran
        → OnOk result (steps.new ≡ steps.old + (job_piece ran number line.now).cost) }
{
    let line = InputLine {
        file: NAME,
        number,
        text: line,
        is_ascii: false,
    };
    let mark = job.answer(line, steps)?;
    let text = job.out();
    let fault = job.err();
    Ok(Reply {
        out: told(alloc, mark, text)?,
        err: copy_of(alloc, fault)?,
        mark,
    })
}

/// Loads a pattern with the kept texts, and matches a line with the pattern.
fn try_with<F: Files, L: Ledger>(
    base: &LineContext<'_>,
    state: &State,
    trial: &Trial<'_>,
    files: &mut F,
    steps: &mut Steps<L>,
) -> Result<Reply, SessionEnd>
    requires { length trial.now.line.now ≤ 2 ^ 30 }
    ensures turns { OfTurn F.tells (F.tree files.old) base.now.folders.now
        (λ w. try_turn w base.now.number (session_of state.now)
        (Some (chars trial.now.pattern.now)) trial.now.line.now)
        (λ t. Turns result t (session_of state.now)) }
    ensures steps { OfTurn F.tells (F.tree files.old) base.now.folders.now
        (λ w. try_turn w base.now.number (session_of state.now)
        (Some (chars trial.now.pattern.now)) trial.now.line.now)
        (λ t. StepsBy result t steps.old steps.new) }
    ensures asked { OfTurn F.tells (F.tree files.old) base.now.folders.now
        (λ w. try_turn w base.now.number (session_of state.now)
        (Some (chars trial.now.pattern.now)) trial.now.line.now)
        (λ t. Asks result t.asked (F.asked files.old) (F.asked files.new)) }
    ensures leaves { Leaves F.Source result files.old files.new }
{
    match load_goal(base.alloc, base.folders, state, trial.pattern, files) {
        Ok(mut job) => Ok(try_job(base.alloc, &mut job, base.number, trial.line, steps)?),
        Err(unready) => match unready {
            Unready::NoMemory => Err(SessionEnd::NoMemory),
            Unready::Refused(text) => Ok(refused(base.alloc, text)),
            Unready::ReadFault(path) => Err(SessionEnd::Unread(path)),
        },
    }
}

/// Carries out a command.
fn obey<F: Files, L: Ledger>(
    base: &LineContext<'_>,
    state: &mut State,
    edit: &Edit<'_>,
    files: &mut F,
    steps: &mut Steps<L>,
) -> Result<Reply, SessionEnd>
    requires { (line : List ℕ) → edit_seen edit.now ≡ Try line → length line ≤ 2 ^ 30 }
    ensures turns { OfTurn F.tells (F.tree files.old) base.now.folders.now
        (λ w. edit_turn w base.now.number (session_of state.old) (Some (edit_seen edit.now)))
        (λ t. Turns result t (session_of state.new)) }
    ensures steps { OfTurn F.tells (F.tree files.old) base.now.folders.now
        (λ w. edit_turn w base.now.number (session_of state.old) (Some (edit_seen edit.now)))
        (λ t. StepsBy result t steps.old steps.new) }
    ensures asked { OfTurn F.tells (F.tree files.old) base.now.folders.now
        (λ w. edit_turn w base.now.number (session_of state.old) (Some (edit_seen edit.now)))
        (λ t. Asks result t.asked (F.asked files.old) (F.asked files.new)) }
    ensures leaves { Leaves F.Source result files.old files.new }
{
    match *edit {
        Edit::Try(line) => match state.pattern() {
            None => Ok(wrong(base.alloc, base.number, "no pattern")?),
            Some(pattern) => try_with(base, state, &Trial { pattern, line }, files, steps),
        },
        Edit::Undo => Ok(undo(base.alloc, state, base.number)?),
        _ => change(base, state, edit, files),
    }
}

/// Makes the reply to a line of text.
pub(crate) fn answer<F: Files, L: Ledger>(
    base: &LineContext<'_>,
    state: &mut State,
    line: &str,
    files: &mut F,
    steps: &mut Steps<L>,
) -> Result<Reply, SessionEnd>
    requires { length line.now ≤ 2 ^ 30 }
    ensures turns { OfTurn F.tells (F.tree files.old) base.now.folders.now
        (λ w. edit_turn w base.now.number (session_of state.old) (edit_of line.now))
        (λ t. Turns result t (session_of state.new)) }
    ensures steps { OfTurn F.tells (F.tree files.old) base.now.folders.now
        (λ w. edit_turn w base.now.number (session_of state.old) (edit_of line.now))
        (λ t. StepsBy result t steps.old steps.new) }
    ensures asked { OfTurn F.tells (F.tree files.old) base.now.folders.now
        (λ w. edit_turn w base.now.number (session_of state.old) (edit_of line.now))
        (λ t. Asks result t.asked (F.asked files.old) (F.asked files.new)) }
    ensures leaves { Leaves F.Source result files.old files.new }
{
    match read_edit(line) {
        None => Ok(wrong(base.alloc, base.number, "bad command")?),
        Some(edit) => obey(base, state, &edit, files, steps),
    }
}

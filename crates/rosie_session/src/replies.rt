// The replies to accepted and to refused commands.
ghost use Rattle.std.specs.Prelude.{IfOk, string_bytes};
ghost use Rattle.rosie_repl.specs.States.{session_of};
ghost use Rattle.rosie_run.specs.Report.{fault_piece};
ghost use Rattle.rosie_session.specs.Replay.{ok_piece, session_fault};
ghost use Rattle.rosie_session.specs.inside.Turning.{IsReply};

use crate::reply::Reply;
use rosie_repl::State;
use rosie_run::{Mark, NoMemory, line_fault};
use std::alloc::Global;

/// The name of a session in its error lines.
pub(crate) const NAME: &str = "(session)";

/// Returns the reply to an accepted command, which states the number of texts that are kept now.
pub(crate) fn accepted(alloc: Global, state: &State) -> Result<Reply, NoMemory>
    ensures { IfOk result (λ reply. IsReply reply (ok_piece (session_of state.now))) }
{
    let count = state.len();
    let text = format!(in alloc; "ok {count}\n")?;
    Ok(Reply {
        out: text.into_bytes(),
        err: Vec::new(alloc),
        mark: Mark::Miss,
    })
}

/// Returns the reply to a refused command. `line` says why the command is refused.
pub(crate) fn refused(alloc: Global, line: String) -> Reply
    ensures { IsReply result (fault_piece (string_bytes line)) }
{
    Reply {
        out: Vec::new(alloc),
        err: line.into_bytes(),
        mark: Mark::Fault,
    }
}

/// Returns the reply to a refused command. `text` says what is wrong with line `number`.
pub(crate) fn wrong(alloc: Global, number: u64, text: &str) -> Result<Reply, NoMemory>
    ensures { IfOk result (λ reply. IsReply reply (fault_piece (session_fault number text.now))) }
{
    let line = line_fault(alloc, NAME, number, text)?;
    Ok(refused(alloc, line))
}

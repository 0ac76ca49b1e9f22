// The end of a run.
ghost use Rattle.std.specs.Prelude.{ℕ};
ghost use Rattle.rosie_run.specs.Causes.{Flushes};
ghost use Rattle.rosie_run.specs.Outputs.{shown, telling};
ghost use Rattle.rosie_run.specs.declared.tool.Tool.{Tool};
ghost use Rattle.rosie_run.specs.Closing.{Closes, ClosesCause};

use crate::write::{close_with, flush_both};
use crate::{Ended, Status, Tally};
use rosie_io::{ReadStop, Sink};

/// Ends a run and returns its status. Flushes the outputs, unless memory ran out or a write failed.
/// If reading ended the run, the line that says so is written last.
pub fn finish<O: Sink, E: Sink>(out: &mut O, err: &mut E, run: Result<Tally, Ended>) -> Status
    ensures closes { (tool : Tool) (n : ℕ) → Closes run result (telling tool O.Sink E.Sink)
        (shown O.Sink E.Sink out.old err.old n)
        (shown O.Sink E.Sink out.new err.new n) }
    ensures cause { ClosesCause run result (O.faults out.old) (O.faults out.new) (E.faults err.old)
        (E.faults err.new) }
    ensures out_flushed { Flushes O.Sink result out.new }
    ensures err_flushed { Flushes E.Sink result err.new }
{
    match run {
        Ok(tally) => match flush_both(out, err) {
            Ok(()) => tally.status(),
            Err(_) => Status::WriteFault,
        },
        Err(ended) => match ended {
            Ended::NoMemory => Status::NoMemory,
            Ended::WriteFault => Status::WriteFault,
            Ended::Cut(why, text) => match close_with(out, err, text.as_str()) {
                Ok(()) => match why {
                    ReadStop::ReadFault => Status::ReadFault,
                    ReadStop::Spent => Status::Spent,
                },
                Err(_) => Status::WriteFault,
            },
        },
    }
}

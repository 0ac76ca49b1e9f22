// A piece that is made without reading any input.
ghost use Rattle.std.specs.Prelude.{ℕ, ◌≡◌, [], ◌∷◌, IfErr, IfOk};
ghost use Rattle.rosie_run.specs.Runs.{RunWriteCause, Runs, IsCutOf, IsNoCut};
ghost use Rattle.rosie_run.specs.Outputs.{shown, telling};
ghost use Rattle.rosie_run.specs.Report.{is_stop};
ghost use Rattle.rosie_run.specs.Where.{Nowhere};
ghost use Rattle.rosie_run.specs.declared.tool.Tool.{Tool};

use crate::write::{input_message, write_both};
use crate::{Ended, Mark, Tally, Tool};
use rosie_io::{ReadStop, Sink};
use std::alloc::Global;

/// Writes one piece: a refusal, or a text that is the whole answer.
pub fn say<O: Sink, E: Sink>(
    out: &mut O,
    err: &mut E,
    out_text: &[u8],
    err_text: &[u8],
    mark: Mark,
) -> Result<Tally, Ended>
    ensures runs { (tool : Tool) (n : ℕ) → Runs result (telling tool O.Sink E.Sink)
        (record { out = out_text.now; err = err_text.now; mark = mark; cost = 0 } ∷ []) Nowhere
        (shown O.Sink E.Sink out.old err.old n)
        (shown O.Sink E.Sink out.new err.new n) }
    ensures stops { IfOk result (λ tally. tally.stop ≡ is_stop mark) }
    ensures no_cut { IfErr result IsNoCut }
    ensures sinks { RunWriteCause result (O.faults out.old) (O.faults out.new) (E.faults err.old)
        (E.faults err.new) }
{
    match write_both(out, err, out_text, err_text) {
        Ok(()) => Ok(Tally::new().with(mark)),
        Err(_) => Err(Ended::WriteFault),
    }
}

/// Returns the reason why a run ends when reading stops it. The reason contains the line that
/// reports the stop, or is `NoMemory` if there is not enough memory for that line. `file` is the
/// name of the input that was read.
pub fn cut(alloc: Global, tool: Tool, why: ReadStop, file: &str) -> Ended
    ensures { IsCutOf result tool why file.now }
{
    let text = match why {
        ReadStop::ReadFault => input_message(alloc, tool, file, "read failed"),
        ReadStop::Spent => input_message(alloc, tool, file, "reads spent"),
    };
    match text {
        Ok(text) => Ended::Cut(why, text),
        Err(_) => Ended::NoMemory,
    }
}

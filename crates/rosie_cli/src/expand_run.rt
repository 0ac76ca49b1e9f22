//! The run of `expand`.

ghost use Rattle.std.specs.Prelude.{◌≡◌, ◌∷◌, [], IfErr};
ghost use Rattle.rosie_inspect.specs.Expanded.{text_of};
ghost use Rattle.rosie_run.specs.Devices.{DevicesWriteCause, SameOutputs};
ghost use Rattle.rosie_run.specs.Outputs.{shown, telling};
ghost use Rattle.rosie_run.specs.Report.{text_piece};
ghost use Rattle.rosie_run.specs.Runs.{IsNoCut, Runs};
ghost use Rattle.rosie_run.specs.Where.{Nowhere};
ghost use Rattle.rosie_run.specs.declared.tool.Tool.TheVariants.{Rosie};

use rosie_inspect::{Expanding, Expansion};
use rosie_io::Sink;
use rosie_run::{Ended, NoMemory, Outputs, Tally, TextSource, Tool, write_text};
use std::alloc::Global;
use std::sync::ledger::Ledger;

/// The text of an expansion, as a source that a run can write from.
#[derive(Drop)]
struct ExpandedText<'a> {
    text: Expanding<'a>,
}

impl TextSource for ExpandedText<'_> {
    ghost use Rattle.rosie_inspect.specs.Items.{left_of};

    ghost left = { λ s. left_of s.text };

    fn push_next(&mut self, out: &mut String) -> Result<bool, NoMemory> {
        self.text.push_next(out)
    }
}

/// Writes the text of an expansion while the text is being made.
pub(crate) fn run_expansion<O: Sink, E: Sink, L: Ledger>(
    alloc: Global,
    expansion: &Expansion,
    outputs: &mut Outputs<'_, O, E, L>,
) -> Result<Tally, Ended>
    ensures same_outputs { SameOutputs outputs.old outputs.new }
    ensures runs { Runs result (telling Rosie O.Sink E.Sink)
        (text_piece (text_of expansion.now) ∷ []) Nowhere
        (shown O.Sink E.Sink outputs.old.out.now outputs.old.err.now outputs.old.steps.now)
        (shown O.Sink E.Sink outputs.new.out.now outputs.new.err.now outputs.new.steps.now) }
    ensures idle { outputs.new.steps.now ≡ outputs.old.steps.now }
    ensures no_cut { IfErr result IsNoCut }
    ensures sinks { DevicesWriteCause O.Sink E.Sink result outputs.old outputs.new }
{
    let text = expansion.text(alloc)?;
    write_text(alloc, Tool::Rosie, ExpandedText { text }, outputs)
}

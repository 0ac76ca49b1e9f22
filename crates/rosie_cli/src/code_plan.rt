//! The plan for a code file that is run on each line.

ghost use Rattle.std.specs.Prelude.{encode_utf8_all};
ghost use Rattle.rpl_package.specs.Asking.{IsTold};
ghost use Rattle.rosie_cli.specs.Planned.{IsCodeLines, input_names};
ghost use Rattle.rosie_cli.specs.Plans.{Planned};
ghost use Rattle.rosie_cli.specs.inside.Planning.{Leaves, Plans, PlansOver};

use crate::goal_plan::input_names;
use crate::plan::Plan;
use rosie_io::Files;
use rosie_jobs::{MatchJob, load_code};
use rosie_run::Unready;
use rosie_words::{Paths, Settings};
use rpl_text::Chars;
use std::alloc::Global;

/// Plans the run of a code file, given by its path, on each line of the inputs.
pub(crate) fn plan_code<F: Files>(
    alloc: Global,
    path: Chars,
    settings: Settings,
    inputs: Paths,
    files: &mut F,
) -> Result<Plan, Unready>
    ensures plans { (p : Planned) → IsTold F.tells p.asked
        → IsCodeLines settings (encode_utf8_all path) (input_names inputs) (F.tree files.old) p →
        Plans (F.asked files.old) (F.asked files.new) result p }
    ensures over { PlansOver result (input_names inputs) }
    ensures leaves { Leaves F.Source result files.old files.new }
{
    let names = input_names(alloc, inputs)?;
    let program = load_code(alloc, files, path)?;
    let whole = settings.whole;
    let job = MatchJob::of_code(alloc, settings, program)?;
    Ok(Plan::Match { job, whole, names })
}

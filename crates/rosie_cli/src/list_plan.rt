//! The plan of `list`.

ghost use Rattle.rpl_package.specs.Asking.{IsTold};
ghost use Rattle.rosie_cli.specs.Planned.{IsListed};
ghost use Rattle.rosie_cli.specs.Plans.{Planned};
ghost use Rattle.rosie_cli.specs.inside.Planning.{Leaves, Plans, PlansText};

use crate::plan::Plan;
use rosie_inspect::names_text;
use rosie_io::Files;
use rosie_prepare::prepare_rules;
use rosie_run::Unready;
use rpl_package::{LibPath, Roots};
use std::alloc::Global;

/// Plans `list`, which prints the names that a pattern may use with these roots.
pub(crate) fn plan_list<F: Files>(
    alloc: Global,
    roots: &Roots,
    folders: &LibPath,
    files: &mut F,
) -> Result<Plan, Unready>
    ensures plans { (p : Planned) → IsTold F.tells p.asked
        → IsListed roots.now folders.now (F.tree files.old) p →
        Plans (F.asked files.old) (F.asked files.new) result p }
    ensures text { PlansText result }
    ensures leaves { Leaves F.Source result files.old files.new }
{
    let ready = prepare_rules(alloc, files, folders, roots)?;
    Ok(Plan::Answer(names_text(alloc, &ready.packages)?))
}

//! The plan of `sample`, which matches its own lines with its own rules.

ghost use Rattle.std.specs.Prelude.{◌≡◌, ◌∷◌, [], IfOk, chars};
ghost use Rattle.rosie_jobs.specs.SampleCounts.{sample_rules};
ghost use Rattle.rosie_prepare.specs.Views.{request_seen};
ghost use Rattle.rpl_names.specs.declared.roots.Root.TheVariants.{Given};
ghost use Rattle.rpl_package.specs.Asking.{IsTold};
ghost use Rattle.rosie_cli.specs.Planned.{sample_request, IsRunning};
ghost use Rattle.rosie_cli.specs.Plans.{Planned};
ghost use Rattle.rosie_cli.specs.inside.Planning.{names_for, run_of, wanted_text, Leaves, Plans};
ghost use Rattle.rosie_cli.specs.inside.Planning.{PlansOver};

use crate::goal_plan::{Purpose, plan_goal};
use crate::plan::Plan;
use rosie_io::Files;
use rosie_jobs::{sample_pattern, sample_rules};
use rosie_prepare::PatternRequest;
use rosie_run::{NoMemory, Unready};
use rpl_package::{Goal, LibPath, Root, Roots};
use rpl_text::Chars;
use std::alloc::Global;

/// Returns the roots of a sample: the text of its rules.
fn sample_roots(alloc: Global) -> Result<Roots, NoMemory>
    ensures { IfOk result (λ roots. roots ≡ Given (chars sample_rules) ∷ []) }
{
    let mut roots = Roots::new(alloc);
    roots.push(Root::Given(Chars::from_str(alloc, sample_rules())?))?;
    Ok(roots)
}

/// Returns the request for a text as the pattern, which is matched from the start of a line.
fn request_for<'a>(roots: &'a Roots, folders: &'a LibPath, text: &'a str) -> PatternRequest<'a>
    ensures { request_seen result ≡ wanted_text roots.now folders.now text.now }
{
    PatternRequest {
        roots,
        folders,
        goal: Goal {
            text,
            fixed: false,
            find: false,
        },
    }
}

/// Plans a sample, whose pattern is run for this purpose.
pub(crate) fn plan_sample<F: Files>(
    alloc: Global,
    folders: &LibPath,
    purpose: Purpose,
    files: &mut F,
) -> Result<Plan, Unready>
    ensures plans { (p : Planned) → IsTold F.tells p.asked
        → IsRunning (run_of purpose) (sample_request folders.now) (F.tree files.old) p →
        Plans (F.asked files.old) (F.asked files.new) result p }
    ensures over { PlansOver result (names_for purpose) }
    ensures leaves { Leaves F.Source result files.old files.new }
{
    let roots = sample_roots(alloc)?;
    let request = request_for(&roots, folders, sample_pattern());
    plan_goal(alloc, &request, purpose, files)
}

//! The plan of `test`.

ghost use Rattle.std.specs.Prelude.{[]};
ghost use Rattle.rpl_package.specs.Asking.{IsTold};
ghost use Rattle.rosie_cli.specs.Plans.{Planned};
ghost use Rattle.rosie_cli.specs.Planned.{IsTesting};
ghost use Rattle.rosie_cli.specs.inside.Planning.{Leaves, Plans, PlansOver};

use crate::plan::Plan;
use rosie_io::Files;
use rosie_run::Unready;
use rosie_suites::load_suite;
use rpl_package::LibPath;
use rpl_text::Chars;
use std::alloc::Global;

/// Plans `test`, which runs the tests of a file, with imports from these folders. If `budget` is
/// given, it limits the number of steps that each test may take.
pub(crate) fn plan_tests<F: Files>(
    alloc: Global,
    file: Chars,
    folders: &LibPath,
    budget: Option<u64>,
    files: &mut F,
) -> Result<Plan, Unready>
    ensures plans { (p : Planned) → IsTold F.tells p.asked
        → IsTesting folders.now file budget (F.tree files.old) p →
        Plans (F.asked files.old) (F.asked files.new) result p }
    ensures over { PlansOver result [] }
    ensures leaves { Leaves F.Source result files.old files.new }
{
    let suite = load_suite(alloc, files, folders, file, budget)?;
    Ok(Plan::Test(suite))
}

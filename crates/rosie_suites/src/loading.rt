// Loads the tests of a file, each with the rule that it tests.
ghost use Rattle.std.specs.Prelude.{◌≡◌, ◌<◌, ◌≤◌, ◌∷◌, [], ℕ, List, Ok, IfErr, IfOk};
ghost use Rattle.std.specs.Prelude.{encode_utf8_all, false, length};
ghost use Rattle.std.specs.List.{All};
ghost use Rattle.rosie_io.specs.Loading.{NotFewer};
ghost use Rattle.rosie_prepare.specs.Answers.{Prepares};
ghost use Rattle.rosie_run.specs.Unready.{CauseIn, HasAsked};
ghost use Rattle.rosie_prepare.specs.Prepared.{OrLine};
ghost use Rattle.rpl_expand.specs.Sets.{table_of};
ghost use Rattle.rpl_forms.specs.Rows.{rows_of};
ghost use Rattle.rpl_names.specs.Sets.{set_seen};
ghost use Rattle.rpl_names.specs.declared.roots.Root.TheVariants.{File};
ghost use Rattle.rpl_unittest.specs.Comments.{HasTests};
ghost use Rattle.rosie_suites.specs.Budgets.{SuitePays};
ghost use Rattle.rosie_suites.specs.Seen.{bench_of, suite_of, trials_of};
ghost use Rattle.rosie_suites.specs.Suites as S;
ghost use Rattle.rosie_suites.specs.inside.Steps.{IsBadTest, IsOwn};

use crate::reading::read_again;
use crate::suite::Suite;
use crate::trial::trials_of;
use rosie_io::Files;
use rosie_prepare::{PreparedRules, prepare_rules};
use rosie_run::{NoMemory, Unready, line_fault};
use rpl_package::{LibPath, Root, Roots};
use rpl_print::text_of;
use rpl_text::Chars;
use rpl_unittest::{TestFault, Tests, read_tests};
use std::alloc::Global;

/// Returns the file as the only root.
fn one_root(alloc: Global, file: &Chars) -> Result<Roots, NoMemory>
    ensures { IfOk result (λ roots. roots ≡ File file.now ∷ []) }
{
    let mut roots = Roots::new(alloc);
    roots.push(Root::File(file.copy(alloc)?))?;
    Ok(roots)
}

/// Returns the tests in the comments of the file's text, or the line that reports the first
/// malformed test comment.
fn tests_in(alloc: Global, file: &Chars, text: &str) -> Result<Tests, Unready>
    ensures tests { IfOk result (HasTests text.now) }
    ensures short { IfOk result (λ tests. All (λ t. length (encode_utf8_all t.text)
        ≤ length text.now) tests) }
    ensures bad { IfErr result (IsBadTest file.now text.now) }
{
    match read_tests(alloc, text) {
        Ok(tests) => Ok(tests),
        Err(fault) => match fault {
            TestFault::NoMemory => Err(Unready::NoMemory),
            TestFault::BadTest { line } => {
                let told = line_fault(alloc, text_of(file), line, "bad test")?;
                Err(Unready::Refused(told))
            }
        },
    }
}

/// Returns the tests in the file's text, each with the rule that it tests, or the line that reports
/// the first malformed test comment.
fn suite_over(
    alloc: Global,
    ready: PreparedRules,
    file: Chars,
    budget: Option<u64>,
    text: &str,
) -> Result<Suite, Unready>
    requires rows { rows_of ready.rules ≡ table_of (set_seen ready.packages) }
    requires root { 0 < length (set_seen ready.packages).roots }
    requires short { length text.now ≤ 1048576 }
    ensures prepares { (r : OrLine S.Suite) → S.ComesAgain (set_seen ready.packages) file budget
        (Ok text.now) r
        → Prepares suite_of result r }
    ensures own { IfErr result IsOwn }
{
    let PreparedRules { packages, rules } = ready;
    let Some(number) = packages.root_module(0) else {
        unreachable!()
    };
    let Some(name) = packages.package(number) else {
        unreachable!()
    };
    let prefix = Chars::from_str(alloc, name)?;
    let tests = tests_in(alloc, &file, text)?;
    let trials = trials_of(alloc, &packages, &rules, number, tests)?;
    Ok(Suite {
        file,
        prefix,
        budget,
        rules,
        trials,
    })
}

/// Loads the tests of a file, each with the rule that it tests. Returns the line that reports
/// the first fault, if there is one.
///
/// The file is loaded as the only root, with imports from these folders, and is read once more for
/// its test comments. Each test is run with the rule that has the test's name in the file's own
/// module. `budget` is the greatest number of machine steps that a test may take; the default is a
/// million plus a thousand for each character in the test's text.
pub fn load_suite<F: Files>(
    alloc: Global,
    files: &mut F,
    folders: &LibPath,
    file: Chars,
    budget: Option<u64>,
) -> Result<Suite, Unready>
    ensures prepares { F.tells → (asked : List (List ℕ)) → (r : OrLine S.Suite)
        → S.IsSuite (F.tree files.old) folders.now file budget asked r →
        Prepares suite_of result r }
    ensures asked { F.tells → (asked : List (List ℕ)) → (r : OrLine S.Suite)
        → S.IsSuite (F.tree files.old) folders.now file budget asked r →
        HasAsked (F.asked files.old) (F.asked files.new) result asked }
    ensures due { IfOk result (λ suite. SuitePays (bench_of suite) (trials_of suite)) }
    ensures cause { CauseIn F.Source result files.old files.new }
    ensures taken { NotFewer (F.taken files.old) (F.taken files.new) }
    ensures tree { F.tree files.new ≡ F.tree files.old }
    ensures closed { F.is_open files.old ≡ false → F.is_open files.new ≡ false }
{
    let roots = one_root(alloc, &file)?;
    match prepare_rules(alloc, files, folders, &roots) {
        Ok(ready) => match read_again(alloc, files, &file) {
            Ok(text) => suite_over(alloc, ready, file, budget, text.as_str()),
            Err(unready) => Err(unready),
        },
        Err(unready) => Err(unready),
    }
}

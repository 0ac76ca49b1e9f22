// A test, and the rule that it tests.
ghost use Rattle.std.specs.Prelude.{◌≡◌, ◌≤◌, encode_utf8_all, length, map, List, IfOk};
ghost use Rattle.std.specs.List.{All};
ghost use Rattle.rpl_core.specs.Table.{bodies_of};
ghost use Rattle.rpl_expand.specs.Sets.{table_of};
ghost use Rattle.rpl_forms.specs.Rows.{rows_of};
ghost use Rattle.rpl_names.specs.Owned.{own};
ghost use Rattle.rpl_names.specs.Sets.{set_seen};
ghost use Rattle.rosie_suites.specs.Tried.{subject_for, trial_of};
ghost use Rattle.rosie_suites.specs.Suites.{AreTrials};
ghost use Rattle.rosie_suites.specs.Trials as T;
ghost use Rattle.rosie_suites.specs.inside.Ready.{AreBound, AreReady, IsBound, IsReady, IsText};

use crate::goal::checked_goal;
use rosie_run::NoMemory;
use rpl_check::Checked;
use rpl_package::{PackageSet, Target};
use rpl_unittest::{Test, Tests};
use std::alloc::Global;

/// A test, and the rule that it tests.
#[derive(Drop)]
pub(crate) struct Trial {
    pub(crate) test: Test,
    /// The rule that the test is run with, or `None` if no statement of the file binds the test's
    /// name or the name is that of a hidden rule.
    pub(crate) target: Option<Target>,
}

/// Returns the test unchanged. The call tells the prover that the test's text consists of
/// characters.
fn with_text(test: Test) -> Test
    requires { length (encode_utf8_all test.text) ≤ 1048576 }
    ensures same { result ≡ test }
    ensures text { IsText result.text }
{
    // Once the text is read like this, the prover knows that it consists of characters.
    let _text = test.text.as_str();
    test
}

/// Checks the goal of a target, if there is one. The goal isn't kept: since the goal is small, it
/// is built again when it is compiled.
fn check_goal(alloc: Global, rules: &Checked, target: Option<Target>) -> Result<(), NoMemory>
    requires { IsBound (bodies_of rules.now) target }
    ensures { IfOk result (λ _. ∥ IsReady (subject_for (bodies_of rules.now) target) ∥₁) }
{
    let Some(target) = target else {
        return Ok(());
    };
    let _goal = checked_goal(alloc, rules, target)?;
    Ok(())
}

/// Returns a trial for each test. Each test's rule is looked up by name in the module with this
/// number.
pub(crate) fn trials_of(
    alloc: Global,
    packages: &PackageSet,
    rules: &Checked,
    number: usize,
    tests: Tests,
) -> Result<Vec<Trial>, NoMemory>
    requires rows { rows_of rules.now ≡ table_of (set_seen packages.now) }
    requires short { All (λ t. length (encode_utf8_all t.text) ≤ 1048576) tests }
    ensures trials { IfOk result (λ ts. (due : List T.Trial)
        → AreTrials (bodies_of rules.now) (own (set_seen packages.now) number) tests due
        → due ≡ map (trial_of (bodies_of rules.now)) ts.items) }
    ensures ready { IfOk result (λ ts. ∥ AreReady (map (trial_of (bodies_of rules.now)) ts.items)
        ∥₁) }
    ensures bound { IfOk result (λ ts. ∥ AreBound (bodies_of rules.now) ts.items ∥₁) }
{
    let mut trials = Vec::new(alloc);
    for test in tests.into_vec() {
        let test = with_text(test);
        let target = packages.own(number, test.name.as_str());
        check_goal(alloc, rules, target)?;
        trials.push(Trial { test, target })?;
    }
    Ok(trials)
}

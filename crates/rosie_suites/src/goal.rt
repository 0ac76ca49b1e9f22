// The goal for testing a rule.
ghost use Rattle.std.specs.Prelude.{◌≡◌, ℕ, List, IfOk};
ghost use Rattle.rpl_check.specs.Checked.{IsWhole};
ghost use Rattle.rpl_check.specs.Goal.{peg_of};
ghost use Rattle.rpl_core.specs.Table.{bodies_of};
ghost use Rattle.rpl_core.specs.View.{core_of};
ghost use Rattle.rpl_expand.specs.LoadLaws.{IsRuleOf};
ghost use Rattle.rpl_compile_laws.specs.Laws.{IsCapture};
ghost use Rattle.rosie_suites.specs.Suites.{goal_of};

use rosie_run::NoMemory;
use rpl_check::{Checked, CheckedPeg, check_pattern};
use rpl_core::Peg;
use rpl_package::Target;
use rpl_text::Chars;
use std::alloc::Global;

/// Returns a call of the rule, inside the root capture `*` if the rule makes no node.
fn goal_of(alloc: Global, target: Target) -> Result<Peg, NoMemory>
    ensures { IfOk result (λ goal. core_of goal ≡ goal_of target) }
{
    let call = Peg::Call(target.rule);
    if target.captures {
        return Ok(call);
    }
    let root = Chars::from_str(alloc, "*")?;
    Ok(Peg::Capture(root, Box::new(alloc, call)?))
}

/// Returns the goal for testing a rule of the table. The goal can be compiled as it is: each match
/// makes one tree, and the check never finds a fault in a call of a rule.
pub(crate) fn checked_goal(
    alloc: Global,
    rules: &Checked,
    target: Target,
) -> Result<CheckedPeg, NoMemory>
    requires { ∥ IsRuleOf (bodies_of rules.now) target ∥₁ }
    ensures goal { IfOk result (λ goal. core_of (peg_of goal) ≡ goal_of target) }
    ensures whole { IfOk result (λ goal. IsWhole (bodies_of rules.now) (core_of (peg_of goal))) }
    ensures root { IfOk result (λ goal. (label : List ℕ)
        × IsCapture (bodies_of rules.now) label (core_of (peg_of goal))) }
{
    let goal = goal_of(alloc, target)?;
    match check_pattern(alloc, rules, goal) {
        Ok(goal) => Ok(goal),
        Err(_) => unreachable!(),
    }
}

// The second and third passes of preparation: the expansion and the check.
ghost use Rattle.std.specs.Prelude.{◌≡◌, ◌<◌, ℕ, List, IfErr, IfOk, None, Ok, length, true};
ghost use Rattle.std.specs.Option.{option_map};
ghost use Rattle.rosie_prepare.specs.Lines as L;
ghost use Rattle.rosie_prepare.specs.Prepared.{GoalPasses, OrLine, Ready, TablePasses};
ghost use Rattle.rosie_prepare.specs.Prepared.{goal_in, table_too_large};
ghost use Rattle.rosie_prepare.specs.Answers.{Prepares};
ghost use Rattle.rosie_prepare.specs.Views.{ready_seen};
ghost use Rattle.rosie_prepare.specs.Steps.{Finds, IsOwn, both_seen};
ghost use Rattle.rpl_check.specs.Blocks.{first_fault};
ghost use Rattle.rpl_check.specs.Checked.{IsWhole};
ghost use Rattle.rpl_facts.specs.Facts.{Facts};
ghost use Rattle.rpl_check.specs.Faults.{goal_fault};
ghost use Rattle.rpl_check.specs.Goal.{peg_of};
ghost use Rattle.rpl_core.specs.Listed.{blocks_in, bodies_in, rules_of};
ghost use Rattle.rpl_core.specs.Order.{IsInOrder};
ghost use Rattle.rpl_core.specs.Programs.{calls};
ghost use Rattle.rpl_core.specs.Table.{bodies_of};
ghost use Rattle.rpl_core.specs.View.{core_of};
ghost use Rattle.rpl_expand.specs.Faults.{size_fault};
ghost use Rattle.rpl_expand.specs.Sets.{table_of};
ghost use Rattle.rpl_forms.specs.Rows.{rows_of};
ghost use Rattle.rpl_names.specs.Roots.{Packages};
ghost use Rattle.rpl_names.specs.Sets.{set_seen};
ghost use Rattle.rpl_compile_laws.specs.Laws.{IsCapture};
ghost use Rattle.rpl_syntax.specs.View.{expr_of};

use crate::prepared::{Prepared, PreparedRules};
use crate::{check_line, expand_line};
use rosie_run::Unready;
use rpl_check::{Checked, CheckedPeg, check, check_pattern};
use rpl_core::{Peg, Rules};
use rpl_expand::{expand, expand_pattern};
use rpl_package::PackageSet;
use rpl_syntax::Expr;
use std::alloc::Global;

/// Returns the rule table of the packages, or an error if a rule is too large. The table is in
/// order.
fn expand_rules(alloc: Global, packages: &PackageSet) -> Result<Rules, Unready>
    ensures exactly { Finds (option_map (L.expand_line (set_seen packages.now))
        (table_too_large (set_seen packages.now))) result }
    ensures table { IfOk result (λ rules. rows_of (rules_of rules)
        ≡ table_of (set_seen packages.now)) }
    ensures order { IfOk result (λ rules. IsInOrder (bodies_in rules) (blocks_in rules)) }
{
    match expand(alloc, packages) {
        Ok(rules) => Ok(rules),
        Err(fault) => Err(Unready::Refused(expand_line(alloc, packages, &fault)?)),
    }
}

/// Returns the core of a pattern that may use the rule table, or an error if the pattern is too
/// large. The core calls only rules of the table, and makes one tree for a whole match.
fn expand_goal(
    alloc: Global,
    packages: &PackageSet,
    rules: &Rules,
    expr: &Expr,
) -> Result<Peg, Unready>
    requires { rows_of (rules_of rules.now) ≡ table_of (set_seen packages.now) }
    ensures exactly { Finds (option_map (L.expand_line (set_seen packages.now))
        (size_fault None (goal_in (set_seen packages.now) (expr_of expr.now)))) result }
    ensures goal { IfOk result (λ goal. core_of goal
        ≡ goal_in (set_seen packages.now) (expr_of expr.now)) }
    ensures calls { IfOk result (λ goal. (r : ℕ) → calls (core_of goal) r ≡ true →
        r < length (rules_of rules.now)) }
    ensures root { IfOk result (λ goal. (label : List ℕ) ×
        IsCapture (bodies_in rules.now) label (core_of goal)) }
{
    match expand_pattern(alloc, packages, rules, expr) {
        Ok(goal) => Ok(goal),
        Err(fault) => Err(Unready::Refused(expand_line(alloc, packages, &fault)?)),
    }
}

/// Returns the rule table of the packages, or an error if the check finds a fault.
fn check_rules(alloc: Global, packages: &PackageSet, rules: Rules) -> Result<Checked, Unready>
    requires { IsInOrder (bodies_in rules) (blocks_in rules) }
    ensures exactly { (d : Facts (bodies_in rules))
        × Finds (option_map (L.check_line (set_seen packages.now))
        (first_fault d (blocks_in rules))) result }
    ensures same { IfOk result (λ checked. checked ≡ rules_of rules) }
{
    match check(alloc, rules) {
        Ok(checked) => Ok(checked),
        Err(fault) => Err(Unready::Refused(check_line(alloc, packages, &fault)?)),
    }
}

/// Returns the core of a pattern, or an error if the check finds a fault.
fn checked_core(
    alloc: Global,
    packages: &PackageSet,
    rules: &Checked,
    goal: Peg,
) -> Result<CheckedPeg, Unready>
    requires { (r : ℕ) → calls (core_of goal) r ≡ true → r < length rules.now }
    ensures exactly { (d : Facts (bodies_of rules.now)) ×
        Finds (option_map (L.check_line (set_seen packages.now))
        (goal_fault d.empties d.halting (core_of goal))) result }
    ensures same { IfOk result (λ checked. peg_of checked ≡ goal) }
    ensures whole { IfOk result (λ checked. IsWhole (bodies_of rules.now)
        (core_of (peg_of checked))) }
{
    match check_pattern(alloc, rules, goal) {
        Ok(checked) => Ok(checked),
        Err(fault) => Err(Unready::Refused(check_line(alloc, packages, &fault)?)),
    }
}

/// Returns the rules of the packages, or an error if a rule is too large or the check finds a
/// fault.
pub(crate) fn pass_rules(alloc: Global, packages: PackageSet) -> Result<PreparedRules, Unready>
    ensures prepares { (r : OrLine Packages)
        → TablePasses (Ok (set_seen packages)) r
        → Prepares (λ p. set_seen p.packages) result r }
    ensures table { IfOk result (λ p. rows_of p.rules ≡ table_of (set_seen p.packages)) }
    ensures packages { IfOk result (λ p. set_seen p.packages ≡ set_seen packages) }
    ensures own { IfErr result IsOwn }
{
    let rules = expand_rules(alloc, &packages)?;
    let rules = check_rules(alloc, &packages, rules)?;
    Ok(PreparedRules { packages, rules })
}

/// Returns the rule table of the packages and the core of the pattern, or an error if a rule or the
/// pattern is too large, or if the check finds a fault.
fn pass_both(
    alloc: Global,
    packages: &PackageSet,
    expr: &Expr,
) -> Result<(Checked, CheckedPeg), Unready>
    ensures prepares { (r : OrLine Ready)
        → GoalPasses (Ok (expr_of expr.now, set_seen packages.now)) r
        → Prepares (both_seen (set_seen packages.now) (expr_of expr.now)) result r }
    ensures whole { IfOk result (λ both. IsWhole (bodies_of both.0) (core_of (peg_of both.1))) }
    ensures root { IfOk result (λ both. (label : List ℕ)
        × IsCapture (bodies_of both.0) label (core_of (peg_of both.1))) }
    ensures own { IfErr result IsOwn }
{
    let rules = expand_rules(alloc, packages)?;
    let goal = expand_goal(alloc, packages, &rules, expr)?;
    let rules = check_rules(alloc, packages, rules)?;
    let goal = checked_core(alloc, packages, &rules, goal)?;
    Ok((rules, goal))
}

/// Returns the pattern and its packages, ready to be compiled, or an error if a rule or the pattern
/// is too large, or if the check finds a fault.
pub(crate) fn pass_goal(
    alloc: Global,
    packages: PackageSet,
    expr: Expr,
) -> Result<Prepared, Unready>
    ensures prepares { (r : OrLine Ready)
        → GoalPasses (Ok (expr_of expr, set_seen packages)) r
        → Prepares ready_seen result r }
    ensures whole { IfOk result (λ p. IsWhole (bodies_of p.rules) (core_of (peg_of p.goal))) }
    ensures root { IfOk result (λ p. (label : List ℕ) ×
        IsCapture (bodies_of p.rules) label (core_of (peg_of p.goal))) }
    ensures packages { IfOk result (λ p. set_seen p.packages ≡ set_seen packages) }
    ensures expr { IfOk result (λ p. expr_of p.expr ≡ expr_of expr) }
    ensures own { IfErr result IsOwn }
{
    let (rules, goal) = pass_both(alloc, &packages, &expr)?;
    Ok(Prepared {
        packages,
        expr,
        rules,
        goal,
    })
}

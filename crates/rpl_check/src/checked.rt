// Tables and patterns without faults.
ghost use Rattle.std.specs.Prelude.{◌≡◌, ℕ, ◌<◌, true, is_some, length, IfErr, IfOk};
ghost use Rattle.rpl_core.specs.Listed.{blocks_in, bodies_in, rules_of};
ghost use Rattle.rpl_core.specs.Programs.{calls};
ghost use Rattle.rpl_core.specs.Table.{bodies_of};
ghost use Rattle.rpl_core.specs.View.{core_of};
ghost use Rattle.rpl_check.specs.Answers.{Answers, fault_named};
ghost use Rattle.rpl_check.specs.Checked.{IsWhole};
ghost use Rattle.rpl_facts.specs.Facts.{Facts};
ghost use Rattle.rpl_check.specs.Blocks.{first_fault};
ghost use Rattle.rpl_check.specs.Faults.{goal_fault};
ghost use Rattle.rpl_check.specs.Goal.{peg_of};
ghost use Rattle.rpl_core.specs.Marks.{marked};
ghost use Rattle.rpl_core.specs.Order.{IsInOrder};

use crate::behinds::first_cause;
use crate::fault::CheckFault;
use crate::groups::check_table;
use crate::inside::{has_empty_loop, predicates_stay};
use rpl_core::{Peg, Rules};
use rpl_facts::{Fact, work_out};
use std::alloc::Global;
use std::marker::Model;

/// A table of rules without faults, with marks for the rules that may be empty and for those that
/// may halt. Contracts see a checked table as the list of its rules.
#[derive(Drop)]
pub struct Checked {
    rules: Rules,
    empties: Vec<bool>,
    halting: Vec<bool>,
}

impl Model for Checked {
    ghost use Rattle.std.specs.Coded.{codes};
    ghost use Rattle.std.specs.Prelude.{List};
    ghost use Rattle.rpl_core.specs.Listed.{bodies_in, rules_of};
    ghost use Rattle.rpl_core.specs.contracts.peg.Peg as e;
    ghost use Rattle.rpl_core.specs.declared.rules.Rule.{Rule};
    ghost use Rattle.rpl_check.specs.inside.Accepted.{IsAccepted};
    ghost use Rattle.rpl_core.specs.Marks.{marked};

    ghost Value = { List Rule };

    ghost coded = { Prim.hlevel (codes, e.the_row.coded) };

    ghost view = { λ a. rules_of a.rules };

    ghost invariant = { λ a. IsAccepted (bodies_in a.rules) (marked a.empties.items)
        (marked a.halting.items) };
}

impl Checked {
    /// Returns the rules.
    pub fn rules(&self) -> &Rules
        ensures { rules_of result.now ≡ self.now }
    {
        &self.rules
    }
}

/// Returns the table if it has no fault, and its first fault otherwise.
///
/// Blocks, and rules outside blocks, are checked in the order of the table. In each block, the
/// look-behinds of all rules are checked first, then left recursion, then empty loops, then halts
/// under predicates. The table must be in order, as every expanded table is.
///
/// # Examples
///
/// ```
/// use rpl_check::{CheckFault, check, check_pattern};
/// use rpl_core::{Peg, Rules};
/// let checked = check(alloc, Rules::new(alloc))?;
/// assert!(rt; check_pattern(alloc, &checked, Peg::End).is_ok());
/// let endless = Peg::Many(Box::new(alloc, Peg::End)?);
/// let refused = check_pattern(alloc, &checked, endless);
/// assert!(rt; matches!(refused, Err(CheckFault::EmptyLoop { rule: None })));
/// ```
pub fn check(alloc: Global, rules: Rules) -> Result<Checked, CheckFault>
    requires { IsInOrder (bodies_in rules) (blocks_in rules) }
    ensures exactly { (d : Facts (bodies_in rules)) ×
        Answers (first_fault d (blocks_in rules)) result }
    ensures same { IfOk result (λ c. c ≡ rules_of rules) }
{
    let empties = work_out(alloc, &rules, Fact::MayBeEmpty)?;
    let halting = work_out(alloc, &rules, Fact::MayHalt)?;
    check_table(alloc, &rules, &empties, &halting)?;
    Ok(Checked {
        rules,
        empties,
        halting,
    })
}

/// A pattern without faults over a checked table.
#[derive(Drop)]
pub struct CheckedPeg {
    peg: Peg,
}

impl CheckedPeg {
    /// Returns the pattern.
    pub fn peg(&self) -> &Peg
        ensures { result.now ≡ peg_of self.now }
    {
        &self.peg
    }
}

/// Checks a pattern, and returns its first fault, if any: a bad look-behind, an empty loop, or a
/// halt under a predicate.
fn check_goal(peg: &Peg, empties: &[bool], halting: &[bool]) -> Result<(), CheckFault>
    ensures exactly { Answers (goal_fault (marked empties.now) (marked halting.now)
        (core_of peg.now)) result }
    ensures memory { IfErr result (λ e. is_some (fault_named e) ≡ true) }
{
    if let Some(cause) = first_cause(peg) {
        return Err(CheckFault::LookBehind { rule: None, cause });
    }
    if has_empty_loop(peg, empties) {
        return Err(CheckFault::EmptyLoop { rule: None });
    }
    if !predicates_stay(peg, halting) {
        return Err(CheckFault::HaltInside { rule: None });
    }
    Ok(())
}

/// Returns the pattern if it has no fault, and its first fault otherwise. A pattern without faults
/// has a meaning on every text. Each call in the pattern must name a rule of the table. Never
/// returns `NoMemory`.
pub fn check_pattern(_alloc: Global, checked: &Checked, peg: Peg) -> Result<CheckedPeg, CheckFault>
    requires { (r : ℕ) → calls (core_of peg) r ≡ true → r < length checked.now }
    ensures exactly { (d : Facts (bodies_of checked.now))
        × Answers (goal_fault d.empties d.halting (core_of peg)) result }
    ensures memory { IfErr result (λ e. is_some (fault_named e) ≡ true) }
    ensures same { IfOk result (λ g. peg_of g ≡ peg) }
    ensures whole { IfOk result (λ g. IsWhole (bodies_of checked.now) (core_of (peg_of g))) }
{
    check_goal(&peg, &checked.empties, &checked.halting)?;
    Ok(CheckedPeg { peg })
}

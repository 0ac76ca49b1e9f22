// The rules that a goal reaches.
ghost use Rattle.std.specs.Prelude.{IfOk, OnOk, nat_eq};
ghost use Rattle.rpl_core.specs.Listed.{rules_of};
ghost use Rattle.rpl_core.specs.Programs.{calls, calls_any};
ghost use Rattle.rpl_core.specs.Table.{bodies_of};
ghost use Rattle.rpl_core.specs.View.{core_of, cores};
ghost use Rattle.rpl_core.specs.Marked.{CallsAreRules, HasReached, MarksReached};
ghost use Rattle.rpl_core.specs.inside.Searching.{Finds};

use crate::NoMemory;
use crate::peg::Peg;
use crate::rules::Rules;
use std::alloc::Global;
use std::collections::BTreeSet;

/// The rules found so far, and those among them whose bodies have not been searched yet.
#[derive(Drop)]
struct RuleSearch {
    found: BTreeSet<u32>,
    waiting: Vec<u32>,
}

impl RuleSearch {
    /// Adds the rule to the rules found so far.
    fn find(&mut self, rule: u32) -> Result<(), NoMemory>
        ensures { OnOk result (Finds (λ r. nat_eq rule r) self.old self.new) }
    {
        if self.found.insert(rule)? {
            self.waiting.push(rule)?;
        }
        Ok(())
    }
}

/// Finds the rules that the pattern calls.
#[cycle(find)]
fn find_calls(search: &mut RuleSearch, peg: &Peg) -> Result<(), NoMemory>
    ensures { OnOk result (Finds (calls (core_of peg.now)) search.old search.new) }
{
    match peg {
        Peg::Call(rule) => search.find(*rule),
        Peg::Seq(parts) => find_all(search, parts.as_slice()),
        Peg::Choice(parts) => find_all(search, parts.as_slice()),
        Peg::Many(body) => find_calls(search, body),
        Peg::Not(body) => find_calls(search, body),
        Peg::And(body) => find_calls(search, body),
        Peg::Behind { body, .. } => find_calls(search, body),
        Peg::Capture(_, body) => find_calls(search, body),
        Peg::Set(_) | Peg::Note(_) | Peg::Start | Peg::End | Peg::Halt => Ok(()),
    }
}

/// Finds the rules that the parts call.
#[cycle(find)]
fn find_all(search: &mut RuleSearch, parts: &[Peg]) -> Result<(), NoMemory>
    ensures { OnOk result (Finds (calls_any (cores parts.now)) search.old search.new) }
{
    for part in parts {
        find_calls(search, part)?;
    }
    Ok(())
}

/// Returns the rules of the table that the goal reaches. The cost depends only on the reached
/// rules, not on the length of the table.
pub fn reached_rules(alloc: Global, rules: &Rules, goal: &Peg) -> Result<BTreeSet<u32>, NoMemory>
    requires { CallsAreRules (bodies_of (rules_of rules.now)) (core_of goal.now) }
    ensures { IfOk result (HasReached (bodies_of (rules_of rules.now)) (core_of goal.now)) }
{
    let mut search = RuleSearch {
        found: BTreeSet::new(alloc),
        waiting: Vec::new(alloc),
    };
    find_calls(&mut search, goal)?;
    while let Some(number) = search.waiting.pop() {
        if let Some(rule) = rules.get(number) {
            find_calls(&mut search, &rule.body)?;
        }
    }
    let RuleSearch { found, .. } = search;
    Ok(found)
}

/// Returns a list that says, for each rule of the table, whether the goal reaches that rule.
pub fn reached(alloc: Global, rules: &Rules, goal: &Peg) -> Result<Vec<bool>, NoMemory>
    requires { CallsAreRules (bodies_of (rules_of rules.now)) (core_of goal.now) }
    ensures { IfOk result (λ marks. MarksReached (bodies_of (rules_of rules.now)) (core_of goal.now)
        marks.items) }
{
    let found = reached_rules(alloc, rules, goal)?;
    let mut marks = Vec::new(alloc);
    for number in 0..rules.len() {
        marks.push(found.contains(&(number as u32)))?;
    }
    Ok(marks)
}

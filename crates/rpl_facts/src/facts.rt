// The rules that may be empty, and those that may halt.
ghost use Rattle.std.specs.Prelude.{◌≡◌, ◌<◌, false, true, slice_get};
ghost use Rattle.rpl_core.specs.Listed.{bodies_in};
ghost use Rattle.rpl_core.specs.View.{core_of, cores};
ghost use Rattle.rpl_compile_laws.specs.Static as S;
ghost use Rattle.rpl_facts.specs.Facts.{passes};
ghost use Rattle.rpl_core.specs.Marks.{marked};
ghost use Rattle.rpl_facts.specs.Tests.{test_of};

use rpl_core::{Peg, Rules};

/// A property that is determined for every rule.
#[derive(Clone, Copy)]
pub enum Fact {
    /// The rule may succeed without taking a character.
    MayBeEmpty,
    /// The rule may end the whole match.
    MayHalt,
}

/// Returns whether `rule` is marked in `marks`, which has an entry for each rule of a table. A
/// number without an entry is not marked.
pub fn is_marked(marks: &[bool], rule: u32) -> bool
    ensures { result ≡ marked marks.now rule }
{
    if (rule as usize) < marks.len() {
        marks[rule as usize]
    } else {
        false
    }
}

/// Returns whether the pattern may succeed without taking a character, assuming that exactly the
/// marked rules may do so.
#[cycle(empty)]
pub fn may_be_empty(peg: &Peg, empties: &[bool]) -> bool
    ensures { result ≡ S.may_be_empty (marked empties.now) (core_of peg.now) }
{
    match peg {
        Peg::Set(_) | Peg::Halt => false,
        Peg::Many(_) | Peg::Not(_) | Peg::And(_) | Peg::Behind { .. } => true,
        Peg::Note(_) | Peg::Start | Peg::End => true,
        Peg::Call(rule) => is_marked(empties, *rule),
        Peg::Capture(_, body) => may_be_empty(body, empties),
        Peg::Seq(parts) => all_may_be_empty(parts.as_slice(), empties),
        Peg::Choice(parts) => any_may_be_empty(parts.as_slice(), empties),
    }
}

/// Returns whether every part may be empty.
#[cycle(empty)]
fn all_may_be_empty(parts: &[Peg], empties: &[bool]) -> bool
    ensures { result ≡ S.all_may_be_empty (marked empties.now) (cores parts.now) }
{
    for part in parts {
        if !may_be_empty(part, empties) {
            return false;
        }
    }
    true
}

/// Returns whether any part may be empty.
#[cycle(empty)]
fn any_may_be_empty(parts: &[Peg], empties: &[bool]) -> bool
    ensures { result ≡ S.any_may_be_empty (marked empties.now) (cores parts.now) }
{
    for part in parts {
        if may_be_empty(part, empties) {
            return true;
        }
    }
    false
}

/// Returns whether the pattern may end the whole match, assuming that exactly the marked rules may
/// do so.
#[cycle(halt)]
pub fn may_halt(peg: &Peg, halting: &[bool]) -> bool
    ensures { result ≡ S.may_halt (marked halting.now) (core_of peg.now) }
{
    match peg {
        Peg::Halt => true,
        Peg::Set(_) | Peg::Note(_) | Peg::Start | Peg::End => false,
        Peg::Call(rule) => is_marked(halting, *rule),
        Peg::Many(body) | Peg::Not(body) | Peg::And(body) => may_halt(body, halting),
        Peg::Behind { body, .. } => may_halt(body, halting),
        Peg::Capture(_, body) => may_halt(body, halting),
        Peg::Seq(parts) => any_may_halt(parts.as_slice(), halting),
        Peg::Choice(parts) => any_may_halt(parts.as_slice(), halting),
    }
}

/// Returns whether any part may end the whole match.
#[cycle(halt)]
fn any_may_halt(parts: &[Peg], halting: &[bool]) -> bool
    ensures { result ≡ S.any_may_halt (marked halting.now) (cores parts.now) }
{
    for part in parts {
        if may_halt(part, halting) {
            return true;
        }
    }
    false
}

/// Returns whether the fact holds for the pattern, assuming that it holds for exactly the marked
/// rules.
fn holds(peg: &Peg, fact: Fact, marks: &[bool]) -> bool
    ensures { result ≡ test_of fact (marked marks.now) (core_of peg.now) }
{
    match fact {
        Fact::MayBeEmpty => may_be_empty(peg, marks),
        Fact::MayHalt => may_halt(peg, marks),
    }
}

/// Returns whether the fact holds for the body of the rule with this number, or `false` if there is
/// no such rule.
pub(crate) fn rule_holds(rules: &Rules, number: u32, fact: Fact, marks: &[bool]) -> bool
    ensures { result ≡ passes (test_of fact (marked marks.now))
        (slice_get (bodies_in rules.now) number) }
{
    match rules.get(number) {
        Some(rule) => holds(&rule.body, fact, marks),
        None => false,
    }
}

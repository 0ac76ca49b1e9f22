// Tests whether the rules of a table are in order, and whether a pattern calls only rules of the
// table.
ghost use Rattle.std.specs.Prelude.{◌≡◌, ℕ, ◌<◌, ◌↔◌, IsTrue, None, true, nat_lt, length};
ghost use Rattle.std.specs.Prelude.{slice_get};
ghost use Rattle.rpl_core.specs.Listed.{blocks_in, bodies_in, rules_of};
ghost use Rattle.rpl_core.specs.Programs.{calls};
ghost use Rattle.rpl_core.specs.View.{core_of, cores};
ghost use Rattle.rpl_core.specs.Order as O;
ghost use Rattle.rpl_core.specs.Order.{IsInOrder, block_at};
ghost use Rattle.rpl_core.specs.inside.Standing as S;

use crate::peg::Peg;
use crate::rules::Rules;

/// Returns the block of the rule with this number, if the rule exists and is in a block.
fn block_of(rules: &Rules, number: u32) -> Option<u32>
    ensures { result ≡ block_at (slice_get (blocks_in rules.now) number) }
{
    match rules.get(number) {
        Some(rule) => rule.block,
        None => None,
    }
}

/// Returns whether both rules are in the same block.
fn same_block(rules: &Rules, one: u32, other: u32) -> bool
    ensures { result ≡ O.same_block
        (block_at (slice_get (blocks_in rules.now) one))
        (block_at (slice_get (blocks_in rules.now) other)) }
{
    match (block_of(rules, one), block_of(rules, other)) {
        (Some(block), Some(other)) => block == other,
        _ => false,
    }
}

/// Returns whether the rule is in the same block as the next rule.
pub fn joins_next(rules: &Rules, number: u32) -> bool
    requires { number < length (rules_of rules.now) }
    ensures { result ≡ O.joins_next (blocks_in rules.now) number }
{
    same_block(rules, number, number + 1)
}

/// Returns whether the rule is in no block.
pub fn is_outside(rules: &Rules, number: u32) -> bool
    ensures { IsTrue result ↔ (block_at (slice_get (blocks_in rules.now) number) ≡ None) }
{
    match block_of(rules, number) {
        Some(_) => false,
        None => true,
    }
}

/// Returns whether the rule may call the other rule.
fn may_call(rules: &Rules, number: u32, other: u32) -> bool
    ensures { result ≡ S.may_call (blocks_in rules.now) number other }
{
    other < number || same_block(rules, number, other)
}

/// Returns whether the rule may call each rule that the pattern calls.
#[cycle(only)]
fn calls_only(peg: &Peg, rules: &Rules, number: u32) -> bool
    ensures { result ≡ S.calls_only (S.may_call (blocks_in rules.now) number) (core_of peg.now) }
{
    match peg {
        Peg::Call(rule) => may_call(rules, number, *rule),
        Peg::Set(_) | Peg::Note(_) | Peg::Start | Peg::End | Peg::Halt => true,
        Peg::Many(body) | Peg::Not(body) | Peg::And(body) => calls_only(body, rules, number),
        Peg::Behind { body, .. } => calls_only(body, rules, number),
        Peg::Capture(_, body) => calls_only(body, rules, number),
        Peg::Seq(parts) => all_call_only(parts.as_slice(), rules, number),
        Peg::Choice(parts) => all_call_only(parts.as_slice(), rules, number),
    }
}

/// Returns whether the rule may call each rule that the parts call.
#[cycle(only)]
fn all_call_only(parts: &[Peg], rules: &Rules, number: u32) -> bool
    ensures { result ≡ S.all_call_only (S.may_call (blocks_in rules.now) number) (cores parts.now) }
{
    for part in parts {
        if !calls_only(part, rules, number) {
            return false;
        }
    }
    true
}

/// Returns whether the rule may call each rule that its body calls.
fn body_calls_only(rules: &Rules, number: u32) -> bool
    ensures { result ≡ S.body_calls_only
        (S.may_call (blocks_in rules.now) number)
        (slice_get (bodies_in rules.now) number) }
{
    match rules.get(number) {
        Some(rule) => calls_only(&rule.body, rules, number),
        None => true,
    }
}

/// Returns whether an earlier rule is in the same block as this rule. The block of every earlier
/// rule must be below `next`, so a block that isn't below `next` contains no earlier rule.
fn has_mate(rules: &Rules, number: u32, next: u64) -> bool
    requires { S.AreBelow (blocks_in rules.now) number next }
    ensures { result ≡ S.has_mate (blocks_in rules.now) number number }
{
    if is_new(rules, number, next) {
        return false;
    }
    let mut other = number;
    while other > 0 {
        other -= 1;
        if same_block(rules, number, other) {
            return true;
        }
    }
    false
}

/// Returns whether the rule is in no block, or in a block that isn't below `next`.
fn is_new(rules: &Rules, number: u32, next: u64) -> bool
    ensures { result ≡ S.is_new next (block_at (slice_get (blocks_in rules.now) number)) }
{
    match block_of(rules, number) {
        Some(block) => u64::from(block) >= next,
        None => true,
    }
}

/// Returns whether the rule shares its block with an earlier rule, but not with the rule directly
/// before it.
fn is_split(rules: &Rules, number: u32, next: u64) -> bool
    requires inside { number < length (rules_of rules.now) }
    requires below { S.AreBelow (blocks_in rules.now) number next }
    ensures { result ≡ S.is_split (blocks_in rules.now) number }
{
    if number == 0 || is_outside(rules, number) {
        return false;
    }
    !joins_next(rules, number - 1) && has_mate(rules, number, next)
}

/// Returns whether the rule is in order: its body calls only rules that the rule may call, and the
/// rule is not split from its block.
fn stands(rules: &Rules, number: u32, next: u64) -> bool
    requires inside { number < length (rules_of rules.now) }
    requires below { S.AreBelow (blocks_in rules.now) number next }
    ensures { result ≡ S.stands (bodies_in rules.now) (blocks_in rules.now) number }
{
    body_calls_only(rules, number) && !is_split(rules, number, next)
}

/// Returns the greater of `next` and the block number of the rule plus one, or `next` if the rule
/// is in no block.
fn above(rules: &Rules, number: u32, next: u64) -> u64
    ensures { result ≡ S.above next (block_at (slice_get (blocks_in rules.now) number)) }
{
    match block_of(rules, number) {
        Some(block) => next.max(u64::from(block) + 1),
        None => next,
    }
}

/// Returns whether the table is in order: the rules of a block are adjacent, and each rule calls
/// only earlier rules and rules in its own block. A caller that already knows that its table is in
/// order can skip this call. Number blocks in ascending order if you can: the first rule of a block
/// is compared with every earlier rule unless the block's number is greater than that of every
/// earlier block.
pub fn is_in_order(rules: &Rules) -> bool
    ensures { IsTrue result ↔ IsInOrder (bodies_in rules.now) (blocks_in rules.now) }
{
    let mut next = 0;
    for number in 0..rules.len() as u32 {
        if !stands(rules, number, next) {
            return false;
        }
        next = above(rules, number, next);
    }
    true
}

/// Returns whether every rule that the pattern calls is among the first `count` rules.
#[cycle(within)]
fn calls_within(peg: &Peg, count: usize) -> bool
    ensures { result ≡ S.calls_only (λ r. nat_lt r count) (core_of peg.now) }
{
    match peg {
        Peg::Call(rule) => (*rule as usize) < count,
        Peg::Set(_) | Peg::Note(_) | Peg::Start | Peg::End | Peg::Halt => true,
        Peg::Many(body) | Peg::Not(body) | Peg::And(body) => calls_within(body, count),
        Peg::Behind { body, .. } => calls_within(body, count),
        Peg::Capture(_, body) => calls_within(body, count),
        Peg::Seq(parts) => all_call_within(parts.as_slice(), count),
        Peg::Choice(parts) => all_call_within(parts.as_slice(), count),
    }
}

/// Returns whether every rule that the parts call is among the first `count` rules.
#[cycle(within)]
fn all_call_within(parts: &[Peg], count: usize) -> bool
    ensures { result ≡ S.all_call_only (λ r. nat_lt r count) (cores parts.now) }
{
    for part in parts {
        if !calls_within(part, count) {
            return false;
        }
    }
    true
}

/// Returns whether the pattern calls only rules of the table.
pub fn calls_are_rules(rules: &Rules, peg: &Peg) -> bool
    ensures { IsTrue result ↔ ((r : ℕ) → calls (core_of peg.now) r ≡ true →
        r < length (rules_of rules.now)) }
{
    calls_within(peg, rules.len())
}

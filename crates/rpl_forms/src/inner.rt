// Inlined bodies: the form that rules take inside a look-behind. Captures and notes are dropped,
// and calls are replaced by the inlined bodies of earlier rules. Every rule's inlined body is
// counted, but an inlined body is built only if a look-behind needs it.
ghost use Rattle.std.specs.Prelude.{◌≡◌, ◌<◌, ◌+◌, IfOk, IfSome, OnOk, [], ◌∷◌, ◌++◌};
ghost use Rattle.std.specs.Prelude.{length, slice_get, take};
ghost use Rattle.rpl_core.specs.Core as C;
ghost use Rattle.rpl_core.specs.Listed.{rules_of};
ghost use Rattle.rpl_core.specs.View.{core_of, cores, listed};
ghost use Rattle.rpl_forms.specs.Counting.{Counts, CountsAll, IsFirst, KnowsInners};
ghost use Rattle.rpl_forms.specs.Counting.{KnowsNext, known_of};
ghost use Rattle.rpl_forms.specs.Counting.{seen, seen_all};
ghost use Rattle.rpl_forms.specs.Inlining.{Inners, called, inlined, inlined_all, inner};
ghost use Rattle.rpl_forms.specs.Rows.{inners_of};

use crate::NoMemory;
use crate::count::{add, capture, leaf, node, none};
use crate::size::{Count, Inner};
use rpl_core::{Peg, Pegs, Rule, Rules};
use std::alloc::Global;

/// Returns what is known about the inlined body of a rule, if the rule has an inlined body.
fn inner_of(known: &[Option<Inner>], rule: u32) -> Option<Inner>
    ensures { result ≡ known_of (slice_get known.now rule) }
{
    match known.get(rule as usize) {
        Some(inner) => *inner,
        None => None,
    }
}

/// Returns the count of a call or, inside a look-behind, of the called rule's inlined body.
pub fn count_call(known: &[Option<Inner>], in_lookbehind: bool, rule: u32) -> Count
    ensures { (I : Inners) → KnowsInners known.now I →
        Counts result (seen in_lookbehind I (C.Call rule)) }
{
    if !in_lookbehind {
        return leaf();
    }
    match inner_of(known, rule) {
        Some(inner) => inner.count,
        None => leaf(),
    }
}

/// Returns the count of a pattern or, inside a look-behind, of its inlined form.
#[cycle(weigh)]
fn weigh(known: &[Option<Inner>], in_lookbehind: bool, peg: &Peg) -> Count
    ensures { (I : Inners) → KnowsInners known.now I →
        Counts result (seen in_lookbehind I (core_of peg.now)) }
{
    match peg {
        Peg::Set(_) | Peg::Note(_) | Peg::Start | Peg::End | Peg::Halt => leaf(),
        Peg::Call(number) => count_call(known, in_lookbehind, *number),
        Peg::Many(body) => {
            let of = weigh(known, in_lookbehind, body);
            node(of)
        }
        Peg::Not(body) => {
            let of = weigh(known, in_lookbehind, body);
            node(of)
        }
        Peg::And(body) => {
            let of = weigh(known, in_lookbehind, body);
            node(of)
        }
        Peg::Behind { body, .. } => {
            let of = weigh(known, false, body);
            node(of)
        }
        Peg::Capture(_, body) => {
            let of = weigh(known, in_lookbehind, body);
            capture(in_lookbehind, of)
        }
        Peg::Seq(parts) => {
            let all = weigh_all(known, in_lookbehind, parts.as_slice());
            node(all)
        }
        Peg::Choice(parts) => {
            let all = weigh_all(known, in_lookbehind, parts.as_slice());
            node(all)
        }
    }
}

/// Returns the count of several patterns or, inside a look-behind, of their inlined forms.
#[cycle(weigh)]
fn weigh_all(known: &[Option<Inner>], in_lookbehind: bool, parts: &[Peg]) -> Count
    ensures { (I : Inners) → KnowsInners known.now I →
        CountsAll result (seen_all in_lookbehind I (cores parts.now)) }
{
    let mut sum = none();
    for part in parts {
        sum = add(sum, weigh(known, in_lookbehind, part));
    }
    sum
}

/// Returns the rule that the pattern calls, if the pattern is only a call or a capture of a call.
fn called_alone(peg: &Peg) -> Option<u32>
    ensures { IfSome result (λ r. (I : Inners) →
        inlined I (core_of peg.now) ≡ inlined I (C.Call r)) }
{
    match peg {
        Peg::Call(rule) => Some(*rule),
        Peg::Capture(_, body) => match &**body {
            Peg::Call(rule) => Some(*rule),
            _ => None,
        },
        _ => None,
    }
}

/// Returns the first rule in the chain of calls that ends with the next rule of the table, whose
/// body is `body`. The first and the last rule of a chain have the same inlined body, so a chain of
/// calls, however long, is followed in one step.
fn first_in_chain(known: &[Option<Inner>], body: &Peg) -> u32
    requires { length known.now < 0xffff_ffff }
    ensures { (I : Inners) → KnowsInners known.now I → length known.now ≡ length I
        → IsFirst result I (core_of body.now) }
{
    let own = known.len() as u32;
    let Some(rule) = called_alone(body) else {
        return own;
    };
    match inner_of(known, rule) {
        Some(inner) => inner.rule,
        None => own,
    }
}

/// Returns what is known about the inlined body of the next rule of the table, if the rule has an
/// inlined body.
fn next_inner(known: &[Option<Inner>], rule: &Rule) -> Option<Inner>
    requires { length known.now < 0xffff_ffff }
    ensures { (I : Inners) → KnowsInners known.now I → length known.now ≡ length I
        → KnowsNext I result (inner I rule.now.block (core_of rule.now.body)) }
{
    match rule.block {
        Some(_) => None,
        None => Some(Inner {
            count: weigh(known, true, &rule.body),
            rule: first_in_chain(known, &rule.body),
        }),
    }
}

/// Appends what is known about the next rule in the table.
pub fn push_inner(known: &mut Vec<Option<Inner>>, rule: &Rule) -> Result<(), NoMemory>
    requires { length known.old.items < 0xffff_ffff }
    ensures knows { OnOk result ((I : Inners) → KnowsInners known.old.items I →
        length known.old.items ≡ length I
        → KnowsInners known.new.items (I ++ inner I rule.now.block (core_of rule.now.body) ∷ [])) }
    ensures as_many { OnOk result (length known.new.items ≡ length known.old.items + 1) }
{
    let next = next_inner(known, rule);
    known.push(next)?;
    Ok(())
}

/// Returns what is known about each rule in a table.
pub fn inners(alloc: Global, rules: &Rules) -> Result<Vec<Option<Inner>>, NoMemory>
    ensures knows { IfOk result (λ v. KnowsInners v.items (inners_of (rules_of rules.now))) }
    ensures as_many { IfOk result (λ v. length v.items ≡ length (rules_of rules.now)) }
{
    let mut known = Vec::new(alloc);
    for number in 0..rules.len() as u32 {
        let Some(rule) = rules.get(number) else {
            return Ok(known);
        };
        push_inner(&mut known, rule)?;
    }
    Ok(known)
}

/// Returns a box with the inlined form of the pattern.
#[cycle(inline)]
fn boxed(
    alloc: Global,
    rules: &Rules,
    known: &[Option<Inner>],
    limit: u32,
    body: &Peg,
) -> Result<Box<Peg>, NoMemory>
    requires { KnowsInners known.now (inners_of (rules_of rules.now)) }
    ensures { IfOk result (λ b. core_of b.value
        ≡ inlined (take limit (inners_of (rules_of rules.now))) (core_of body.now)) }
{
    let body = inline(alloc, rules, known, limit, body)?;
    Ok(Box::new(alloc, body)?)
}

/// Returns the inlined form of each part.
#[cycle(inline)]
fn inline_all(
    alloc: Global,
    rules: &Rules,
    known: &[Option<Inner>],
    limit: u32,
    parts: &[Peg],
) -> Result<Pegs, NoMemory>
    requires { KnowsInners known.now (inners_of (rules_of rules.now)) }
    ensures { IfOk result (λ ps. cores (listed ps)
        ≡ inlined_all (take limit (inners_of (rules_of rules.now))) (cores parts.now)) }
{
    let mut others = Pegs::new(alloc);
    for part in parts {
        others.push(inline(alloc, rules, known, limit, part)?)?;
    }
    Ok(others)
}

/// Returns the inlined body of the called rule, built directly from the first rule in the called
/// rule's chain of calls.
#[cycle(inline)]
fn inline_call(
    alloc: Global,
    rules: &Rules,
    known: &[Option<Inner>],
    limit: u32,
    number: u32,
) -> Result<Peg, NoMemory>
    requires { KnowsInners known.now (inners_of (rules_of rules.now)) }
    ensures { IfOk result (λ p. core_of p
        ≡ called number (slice_get (take limit (inners_of (rules_of rules.now))) number)) }
{
    if number >= limit {
        return Ok(Peg::Call(number));
    }
    let Some(inner) = inner_of(known, number) else {
        return Ok(Peg::Call(number));
    };
    let Some(rule) = rules.get(inner.rule) else {
        return Ok(Peg::Call(number));
    };
    inline(alloc, rules, known, inner.rule, &rule.body)
}

/// Returns the inlined form of the pattern: without captures and notes, and with calls of the
/// first `limit` rules replaced by their inlined bodies.
#[cycle(inline)]
fn inline(
    alloc: Global,
    rules: &Rules,
    known: &[Option<Inner>],
    limit: u32,
    peg: &Peg,
) -> Result<Peg, NoMemory>
    requires { KnowsInners known.now (inners_of (rules_of rules.now)) }
    ensures { IfOk result (λ p. core_of p ≡ inlined (take limit (inners_of (rules_of rules.now)))
        (core_of peg.now)) }
{
    match peg {
        Peg::Set(set) => Ok(Peg::Set(set.copy(alloc)?)),
        Peg::Seq(parts) => Ok(Peg::Seq(inline_all(alloc, rules, known, limit, parts.as_slice())?)),
        Peg::Choice(parts) => {
            let parts = inline_all(alloc, rules, known, limit, parts.as_slice())?;
            Ok(Peg::Choice(parts))
        }
        Peg::Many(body) => Ok(Peg::Many(boxed(alloc, rules, known, limit, body)?)),
        Peg::Not(body) => Ok(Peg::Not(boxed(alloc, rules, known, limit, body)?)),
        Peg::And(body) => Ok(Peg::And(boxed(alloc, rules, known, limit, body)?)),
        Peg::Behind { .. } => peg.copy(alloc),
        Peg::Call(number) => inline_call(alloc, rules, known, limit, *number),
        Peg::Capture(_, body) => inline(alloc, rules, known, limit, body),
        Peg::Note(_) => Ok(Peg::Seq(Pegs::new(alloc))),
        Peg::Start => Ok(Peg::Start),
        Peg::End => Ok(Peg::End),
        Peg::Halt => Ok(Peg::Halt),
    }
}

/// Returns a call or, inside a look-behind, the inlined body of the called rule.
pub fn call(
    alloc: Global,
    rules: &Rules,
    known: &[Option<Inner>],
    in_lookbehind: bool,
    rule: u32,
) -> Result<Peg, NoMemory>
    requires { KnowsInners known.now (inners_of (rules_of rules.now)) }
    ensures { IfOk result (λ p. core_of p ≡ seen in_lookbehind (inners_of (rules_of rules.now))
        (C.Call rule)) }
{
    if !in_lookbehind {
        return Ok(Peg::Call(rule));
    }
    inline_call(alloc, rules, known, rules.len() as u32, rule)
}

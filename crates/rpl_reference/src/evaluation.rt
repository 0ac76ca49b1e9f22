// The meaning of a pattern, computed as it is defined, evaluation by evaluation.
ghost use Rattle.std.specs.Prelude.{◌≡◌, ◌+◌, ◌-◌, ◌^◌, ◌<◌, drop, slice_get, IfOk};
ghost use Rattle.rpl_core.specs.Core as C;
ghost use Rattle.rpl_core.specs.Meaning as M;
ghost use Rattle.rpl_core.specs.View.{core_of, cores};
ghost use Rattle.rpl_core.specs.Listed.{bodies_in};
ghost use Rattle.rpl_reference.specs.Outcomes.{IsOutcome, outcome_of};
ghost use Rattle.rpl_reference.specs.inside.Below.{core_at, all_at, first_at};

use crate::forest::{Forest, noted};
use crate::outcome::{
    Outcome, ends_here, found, if_fails, if_matches, more, only_if, plus, prefixed, stays, under,
};
use rpl_classes::Set;
use rpl_core::{Peg, Rules};
use std::alloc::{AllocError, Global};

/// Returns the outcome of a pattern at a place in the text, with the work that it takes. A place is
/// a character number, counted from 0. `depth` limits how deeply further turns and calls can be
/// nested. Work saturates at `u64::MAX`.
pub fn evaluate(over: &Over<'_>, depth: u32, e: &Peg, place: usize) -> Result<Outcome, AllocError>
    ensures { IfOk result (IsOutcome (M.peg depth (bodies_in over.now.rules.now) over.now.text.now
        (core_of e.now) place)) }
{
    evaluate_core(over, depth, e, place)
}

/// The context of an evaluation: the rules that can be called, and the text.
#[derive(Clone, Copy)]
pub struct Over<'a> {
    pub alloc: Global,
    pub rules: &'a Rules,
    pub text: &'a [char],
}

/// Consecutive lengths of a look-behind, in characters: `count` lengths, beginning with `first`.
#[derive(Clone, Copy)]
struct Lengths {
    count: usize,
    first: usize,
}

/// Matches the character at `place`, if that character is in `set`.
fn one_char(set: &Set, text: &[char], place: usize) -> Outcome
    ensures { outcome_of result ≡ M.one_char (slice_get text.now place) set.now place }
{
    if place < text.len() && set.has(text[place]) {
        found(place + 1)
    } else {
        Outcome::Fail { work: 1 }
    }
}

/// Evaluates a pattern at a place.
#[cycle(evaluate)]
fn evaluate_core(over: &Over<'_>, depth: u32, e: &Peg, place: usize) -> Result<Outcome, AllocError>
    ensures { IfOk result
        (IsOutcome (core_at depth (bodies_in over.now.rules.now) over.now.text.now (core_of e.now)
        place)) }
{
    match e {
        Peg::Set(set) => Ok(one_char(set, over.text, place)),
        Peg::Seq(parts) => {
            let o = evaluate_all(over, depth, parts.as_slice(), 0, place)?;
            Ok(more(1, o))
        }
        Peg::Choice(parts) => { evaluate_first(over, depth, parts.as_slice(), 0, place) }
        Peg::Many(body) => evaluate_turns(over, depth, body, place),
        Peg::Not(body) => {
            let o = evaluate_core(over, depth, body, place)?;
            Ok(if_fails(o, place))
        }
        Peg::And(body) => {
            let o = evaluate_core(over, depth, body, place)?;
            Ok(if_matches(o, place))
        }
        Peg::Behind { least, most, body } => {
            let first = *least as usize;
            let count = (*most as usize + 1).saturating_sub(first);
            let o = evaluate_lengths(over, depth, body, Lengths { count, first }, place)?;
            Ok(more(1, o))
        }
        Peg::Call(rule) => evaluate_call(over, depth, *rule, place),
        Peg::Capture(label, body) => {
            let o = evaluate_core(over, depth, body, place)?;
            under(over.alloc, label, place, o)
        }
        Peg::Note(text) => Ok(Outcome::At {
            work: 1,
            place,
            trees: noted(over.alloc, text, place)?,
        }),
        Peg::Start => Ok(only_if(place == 0, place)),
        Peg::End => Ok(only_if(place == over.text.len(), place)),
        Peg::Halt => Ok(Outcome::HaltAt {
            work: 1,
            place,
            trees: Forest::NoTree,
        }),
    }
}

/// Evaluates the turns of a repeated body, each further turn one level deeper.
#[cycle(evaluate)]
fn evaluate_turns(
    over: &Over<'_>,
    depth: u32,
    body: &Peg,
    place: usize,
) -> Result<Outcome, AllocError>
    ensures { IfOk result
        (IsOutcome (core_at depth (bodies_in over.now.rules.now) over.now.text.now
        (C.Many (core_of body.now)) place)) }
{
    match evaluate_core(over, depth, body, place)? {
        Outcome::Open => Ok(Outcome::Open),
        Outcome::Fail { work } => Ok(stays(work, place)),
        Outcome::At {
            work,
            place: next,
            trees,
        } => {
            if depth == 0 {
                return Ok(Outcome::Open);
            }
            let rest = evaluate_turns(over, depth - 1, body, next)?;
            prefixed(over.alloc, plus(1, work), trees, rest)
        }
        Outcome::HaltAt { work, place, trees } => Ok(Outcome::HaltAt {
            work: plus(1, work),
            place,
            trees,
        }),
    }
}

/// Evaluates the body of a rule, one level deeper.
#[cycle(evaluate)]
fn evaluate_call(
    over: &Over<'_>,
    depth: u32,
    rule: u32,
    place: usize,
) -> Result<Outcome, AllocError>
    ensures { IfOk result
        (IsOutcome (core_at depth (bodies_in over.now.rules.now) over.now.text.now (C.Call rule)
        place)) }
{
    match over.rules.get(rule) {
        None => Ok(Outcome::Open),
        Some(rule) => {
            if depth == 0 {
                return Ok(Outcome::Open);
            }
            let o = evaluate_core(over, depth - 1, &rule.body, place)?;
            Ok(more(1, o))
        }
    }
}

/// Evaluates the parts one after the other, starting at the index `from`.
#[cycle(evaluate)]
fn evaluate_all(
    over: &Over<'_>,
    depth: u32,
    parts: &[Peg],
    from: usize,
    place: usize,
) -> Result<Outcome, AllocError>
    ensures { IfOk result (IsOutcome
        (all_at depth (bodies_in over.now.rules.now) over.now.text.now (cores (drop from parts.now))
        place)) }
{
    if from >= parts.len() {
        return Ok(Outcome::At {
            work: 0,
            place,
            trees: Forest::NoTree,
        });
    }
    match evaluate_core(over, depth, &parts[from], place)? {
        Outcome::At {
            work,
            place: next,
            trees,
        } => {
            let rest = evaluate_all(over, depth, parts, from + 1, next)?;
            prefixed(over.alloc, work, trees, rest)
        }
        Outcome::Open => Ok(Outcome::Open),
        Outcome::Fail { work } => Ok(Outcome::Fail { work }),
        Outcome::HaltAt { work, place, trees } => Ok(Outcome::HaltAt { work, place, trees }),
    }
}

/// Returns the outcome of the first alternative that succeeds, starting at the index `from`.
#[cycle(evaluate)]
fn evaluate_first(
    over: &Over<'_>,
    depth: u32,
    ways: &[Peg],
    from: usize,
    place: usize,
) -> Result<Outcome, AllocError>
    ensures { IfOk result (IsOutcome
        (first_at depth (bodies_in over.now.rules.now) over.now.text.now
        (cores (drop from ways.now)) place)) }
{
    if from >= ways.len() {
        return Ok(Outcome::Fail { work: 1 });
    }
    let o = evaluate_core(over, depth, &ways[from], place)?;
    if from + 1 == ways.len() {
        return Ok(o);
    }
    match o {
        Outcome::Fail { work } => {
            let rest = evaluate_first(over, depth, ways, from + 1, place)?;
            Ok(more(plus(1, work), rest))
        }
        Outcome::Open => Ok(Outcome::Open),
        Outcome::At { work, place, trees } => Ok(Outcome::At {
            work: plus(1, work),
            place,
            trees,
        }),
        Outcome::HaltAt { work, place, trees } => Ok(Outcome::HaltAt {
            work: plus(1, work),
            place,
            trees,
        }),
    }
}

/// Tries `count` lengths of a look-behind, in ascending order from `first`. For a length of `n`
/// characters, evaluates the body at the place that is `n` characters before `place`.
#[cycle(evaluate)]
fn evaluate_lengths(
    over: &Over<'_>,
    depth: u32,
    body: &Peg,
    lengths: Lengths,
    place: usize,
) -> Result<Outcome, AllocError>
    requires { lengths.first + lengths.count < 2 ^ 64 }
    ensures { IfOk result (IsOutcome (M.lengths lengths.count lengths.first
        (core_at depth (bodies_in over.now.rules.now) over.now.text.now (core_of body.now))
        place)) }
{
    let Lengths { count, first } = lengths;
    if count == 0 {
        return Ok(Outcome::Fail { work: 0 });
    }
    let others = Lengths {
        count: count - 1,
        first: first + 1,
    };
    if place < first {
        let rest = evaluate_lengths(over, depth, body, others, place)?;
        return Ok(more(1, rest));
    }
    let o = evaluate_core(over, depth, body, place - first)?;
    let rest = evaluate_lengths(over, depth, body, others, place)?;
    Ok(ends_here(o, place, rest))
}

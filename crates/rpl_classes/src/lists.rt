// Brackets that are lists of characters.
ghost use Rattle.std.specs.Prelude.{◌≡◌, ◌&&◌, true, false, not, chars, MatchOption};
ghost use Rattle.rpl_text.specs.Places.{IsPlace};
ghost use Rattle.rpl_classes.specs.Norm.{norm};
ghost use Rattle.rpl_classes.specs.Symbols.{symbols_from, begins, rest};
ghost use Rattle.rpl_classes.specs.Lists.{is_range, changed, each, list};
ghost use Rattle.rpl_classes.specs.inside.Scanned.{TakesMember, RangeFound, StepsList, Gives, Ends};

use crate::fault::SetFault;
use crate::set::Set;
use crate::symbols::{Symbol, accept, symbol_at};
use std::alloc::Global;

/// Returns the list's character at `place`, and the place after it.
fn member_at(text: &str, place: usize) -> Option<(char, usize)>
    requires { IsPlace (chars text.now) place }
    ensures { TakesMember (chars text.now) place result }
{
    let (symbol, next) = symbol_at(text, place);
    match symbol {
        Symbol::Plain(c) => if c == '[' || c == ']' {
            None
        } else {
            Some((c, next))
        },
        Symbol::Escaped(c) => Some((c, next)),
        Symbol::End => None,
    }
}

/// A list of exactly three symbols, `x-y`.
#[derive(Clone, Copy)]
struct DashRange {
    low: char,
    /// The place of the `-`.
    dash: usize,
    high: char,
    /// The place after the `]`.
    next: usize,
}

/// Parses a list `x-y` at `place`, including its `]`.
fn range_at(text: &str, place: usize) -> Option<DashRange>
    requires { IsPlace (chars text.now) place }
    ensures { let t = chars text.now in
        MatchOption result (is_range (symbols_from t place) ≡ false)
        (λ r. RangeFound t place r.low r.dash r.high r.next) }
{
    let (low, dash) = member_at(text, place)?;
    let behind = accept(text, dash, '-')?;
    let (high, end) = member_at(text, behind)?;
    let next = accept(text, end, ']')?;
    Some(DashRange {
        low,
        dash,
        high,
        next,
    })
}

/// Returns whether there is an unescaped `-` at `place` that is neither first nor last in its list.
fn is_inner_dash(text: &str, place: usize, is_first: bool) -> bool
    requires { IsPlace (chars text.now) place }
    ensures { let s = symbols_from (chars text.now) place in
        result ≡ (begins 45 s && (not is_first && not (begins 93 (rest s)))) }
{
    match accept(text, place, '-') {
        Some(next) => !is_first && accept(text, next, ']').is_none(),
        None => false,
    }
}

/// Reads the next character of a list that is not `x-y`, or the end of the list. Returns the
/// character at `at` and the place after it; if the list ends there, returns `None` and the place
/// after its `]`.
fn list_step(text: &str, at: usize, is_first: bool) -> Result<(Option<char>, usize), SetFault>
    requires { IsPlace (chars text.now) at }
    ensures { StepsList (chars text.now) at is_first result }
{
    if let Some(next) = accept(text, at, ']') {
        return if is_first {
            Err(SetFault::BadSet { at })
        } else {
            Ok((None, next))
        };
    }
    let Some((c, next)) = member_at(text, at) else {
        return Err(SetFault::BadSet { at });
    };
    if is_inner_dash(text, at, is_first) {
        return Err(SetFault::BadRange { at });
    }
    Ok((Some(c), next))
}

/// Parses a list that is not `x-y`, including its `]`, character by character.
fn each_at(alloc: Global, text: &str, place: usize) -> Result<(Set, usize), SetFault>
    requires { IsPlace (chars text.now) place }
    ensures value { Gives (chars text.now) result
        (changed norm (each true (symbols_from (chars text.now) place))) }
    ensures place { Ends (chars text.now) place result }
{
    let mut ranges = Vec::new(alloc);
    let mut at = place;
    loop {
        let (member, next) = list_step(text, at, at == place)?;
        match member {
            Some(c) => ranges.push((c as u32, c as u32))?,
            None => return Ok((Set::from_ranges(alloc, &ranges)?, next)),
        }
        at = next;
    }
}

/// Parses the list at `place`, including its `]`. Returns its set and the place after the `]`.
pub(crate) fn list_at(alloc: Global, text: &str, place: usize) -> Result<(Set, usize), SetFault>
    requires { IsPlace (chars text.now) place }
    ensures value { Gives (chars text.now) result (list (symbols_from (chars text.now) place)) }
    ensures place { Ends (chars text.now) place result }
{
    let Some(range) = range_at(text, place) else {
        return each_at(alloc, text, place);
    };
    if range.low > range.high {
        return Err(SetFault::BadRange { at: range.dash });
    }
    Ok((Set::range(alloc, range.low, range.high)?, range.next))
}

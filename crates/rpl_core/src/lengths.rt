// Computes the least and the greatest number of characters that a pattern takes, with calls and
// repetitions counted as 0. Tests whether a pattern contains calls or repetitions.
ghost use Rattle.std.specs.Prelude.{◌≡◌, min};
ghost use Rattle.rpl_core.specs.Lengths as L;
ghost use Rattle.rpl_core.specs.View.{core_of, cores};

use crate::peg::Peg;

/// The cap on the greatest length: one more than the greatest number of characters that the body of
/// a look-behind can take.
const LONGEST: u32 = 256;

/// The cap on the least length: the greatest number of characters that a pattern of 65,536 parts
/// can require.
const LONGEST_LEAST: u32 = 65_536;

/// Returns whether the pattern calls a rule.
#[cycle(call)]
pub fn has_call(peg: &Peg) -> bool
    ensures { result ≡ L.has_call (core_of peg.now) }
{
    match peg {
        Peg::Call(_) => true,
        Peg::Set(_) | Peg::Note(_) | Peg::Start | Peg::End | Peg::Halt => false,
        Peg::Many(body) | Peg::Not(body) | Peg::And(body) => has_call(body),
        Peg::Behind { body, .. } => has_call(body),
        Peg::Capture(_, body) => has_call(body),
        Peg::Seq(parts) => any_has_call(parts.as_slice()),
        Peg::Choice(parts) => any_has_call(parts.as_slice()),
    }
}

/// Returns whether any part calls a rule.
#[cycle(call)]
fn any_has_call(parts: &[Peg]) -> bool
    ensures { result ≡ L.any_has_call (cores parts.now) }
{
    for part in parts {
        if has_call(part) {
            return true;
        }
    }
    false
}

/// Returns whether the pattern contains a repetition.
#[cycle(repetition)]
pub fn has_repetition(peg: &Peg) -> bool
    ensures { result ≡ L.has_repetition (core_of peg.now) }
{
    match peg {
        Peg::Many(_) => true,
        Peg::Set(_) | Peg::Call(_) | Peg::Note(_) | Peg::Start | Peg::End | Peg::Halt => false,
        Peg::Not(body) | Peg::And(body) => has_repetition(body),
        Peg::Behind { body, .. } => has_repetition(body),
        Peg::Capture(_, body) => has_repetition(body),
        Peg::Seq(parts) => any_has_repetition(parts.as_slice()),
        Peg::Choice(parts) => any_has_repetition(parts.as_slice()),
    }
}

/// Returns whether any part contains a repetition.
#[cycle(repetition)]
fn any_has_repetition(parts: &[Peg]) -> bool
    ensures { result ≡ L.any_has_repetition (cores parts.now) }
{
    for part in parts {
        if has_repetition(part) {
            return true;
        }
    }
    false
}

/// Returns the greatest number of characters that a pattern without calls or repetitions takes,
/// capped at 256.
#[cycle(greatest)]
pub fn greatest_length(peg: &Peg) -> u32
    ensures { result ≡ min 256 (L.greatest (core_of peg.now)) }
{
    match peg {
        Peg::Set(_) => 1,
        Peg::Many(_) | Peg::Not(_) | Peg::And(_) | Peg::Behind { .. } | Peg::Call(_) => 0,
        Peg::Note(_) | Peg::Start | Peg::End | Peg::Halt => 0,
        Peg::Capture(_, body) => greatest_length(body),
        Peg::Seq(parts) => greatest_sum(parts.as_slice()),
        Peg::Choice(parts) => greatest_of(parts.as_slice()),
    }
}

/// Returns the sum of the greatest lengths of the parts, capped at 256.
#[cycle(greatest)]
fn greatest_sum(parts: &[Peg]) -> u32
    ensures { result ≡ min 256 (L.greatest_sum (cores parts.now)) }
{
    let mut sum = 0;
    for part in parts {
        sum = (sum + greatest_length(part)).min(LONGEST);
    }
    sum
}

/// Returns the maximum of the greatest lengths of the parts, capped at 256.
#[cycle(greatest)]
fn greatest_of(parts: &[Peg]) -> u32
    ensures { result ≡ min 256 (L.greatest_of (cores parts.now)) }
{
    let mut most = 0;
    for part in parts {
        most = most.max(greatest_length(part));
    }
    most
}

/// Returns the least number of characters that a pattern without calls or repetitions takes, capped
/// at 65,536.
#[cycle(least)]
pub fn least_length(peg: &Peg) -> u32
    ensures { result ≡ min 65536 (L.least (core_of peg.now)) }
{
    match peg {
        Peg::Set(_) => 1,
        Peg::Many(_) | Peg::Not(_) | Peg::And(_) | Peg::Behind { .. } | Peg::Call(_) => 0,
        Peg::Note(_) | Peg::Start | Peg::End | Peg::Halt => 0,
        Peg::Capture(_, body) => least_length(body),
        Peg::Seq(parts) => least_sum(parts.as_slice()),
        Peg::Choice(parts) => least_of(parts.as_slice()),
    }
}

/// Returns the sum of the least lengths of the parts, capped at 65,536.
#[cycle(least)]
fn least_sum(parts: &[Peg]) -> u32
    ensures { result ≡ min 65536 (L.least_sum (cores parts.now)) }
{
    let mut sum = 0;
    for part in parts {
        sum = (sum + least_length(part)).min(LONGEST_LEAST);
    }
    sum
}

/// Returns the minimum of the least lengths of the parts, capped at 65,536.
#[cycle(least)]
fn least_of(parts: &[Peg]) -> u32
    ensures { result ≡ min 65536 (L.least_of (cores parts.now)) }
{
    let mut few = LONGEST_LEAST;
    for part in parts {
        few = few.min(least_length(part));
    }
    few
}

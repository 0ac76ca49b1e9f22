// Faults of look-behinds.
ghost use Rattle.std.specs.Option.{option_or};
ghost use Rattle.std.specs.Prelude.{◌≡◌, nat_lt};
ghost use Rattle.rpl_core.specs.Lengths.{greatest};
ghost use Rattle.rpl_core.specs.View.{core_of, cores};
ghost use Rattle.rpl_check.specs.Answers.{some_cause};
ghost use Rattle.rpl_check.specs.Causes as C;
ghost use Rattle.rpl_check.specs.inside.Behinds as B;

use crate::fault::BehindCause;
use rpl_core::{Peg, greatest_length, has_call, has_repetition};

/// The greatest number of characters that the body of a look-behind can take.
const MAX_LENGTH: u32 = 255;

/// Returns whether the body of a look-behind can take too many characters.
fn is_too_long(body: &Peg) -> bool
    ensures { result ≡ nat_lt 255 (greatest (core_of body.now)) }
{
    greatest_length(body) > MAX_LENGTH
}

/// Returns whether the body of any look-behind in the pattern can take too many characters.
#[cycle(long)]
fn has_long_behind(peg: &Peg) -> bool
    ensures { result ≡ B.has_long_behind (core_of peg.now) }
{
    match peg {
        Peg::Set(_) | Peg::Call(_) | Peg::Note(_) | Peg::Start | Peg::End | Peg::Halt => false,
        Peg::Many(body) | Peg::Not(body) | Peg::And(body) => has_long_behind(body),
        Peg::Behind { body, .. } => is_too_long(body) || has_long_behind(body),
        Peg::Capture(_, body) => has_long_behind(body),
        Peg::Seq(parts) => any_has_long_behind(parts.as_slice()),
        Peg::Choice(parts) => any_has_long_behind(parts.as_slice()),
    }
}

/// Returns whether the body of any look-behind in the parts can take too many characters.
#[cycle(long)]
fn any_has_long_behind(parts: &[Peg]) -> bool
    ensures { result ≡ B.any_has_long_behind (cores parts.now) }
{
    for part in parts {
        if has_long_behind(part) {
            return true;
        }
    }
    false
}

/// Returns the fault of the look-behind with this body, or else the fault of the first bad
/// look-behind inside the body.
///
/// If a body contains no call and no repetition, neither do the look-behinds inside it. So only the
/// lengths of the inner look-behinds are checked, and each length is computed only as far down as
/// the next look-behind. Each part is therefore visited only a few times, however deeply
/// look-behinds are nested.
fn behind_cause(body: &Peg) -> Option<BehindCause>
    ensures { some_cause result ≡ option_or (C.cause_of (core_of body.now))
        (C.first_cause (core_of body.now)) }
{
    if has_call(body) {
        Some(BehindCause::Recursive)
    } else if has_repetition(body) {
        Some(BehindCause::Repetition)
    } else if is_too_long(body) || has_long_behind(body) {
        Some(BehindCause::TooLong)
    } else {
        None
    }
}

/// Returns the fault of the first bad look-behind in the pattern. An outer look-behind comes before
/// the look-behinds inside it.
#[cycle(cause)]
pub(crate) fn first_cause(peg: &Peg) -> Option<BehindCause>
    ensures { some_cause result ≡ C.first_cause (core_of peg.now) }
{
    match peg {
        Peg::Set(_) | Peg::Call(_) | Peg::Note(_) | Peg::Start | Peg::End | Peg::Halt => None,
        Peg::Many(body) | Peg::Not(body) | Peg::And(body) => first_cause(body),
        Peg::Behind { body, .. } => behind_cause(body),
        Peg::Capture(_, body) => first_cause(body),
        Peg::Seq(parts) => first_cause_in(parts.as_slice()),
        Peg::Choice(parts) => first_cause_in(parts.as_slice()),
    }
}

/// Returns the fault of the first bad look-behind in the parts.
#[cycle(cause)]
fn first_cause_in(parts: &[Peg]) -> Option<BehindCause>
    ensures { some_cause result ≡ C.first_cause_in (cores parts.now) }
{
    for part in parts {
        if let Some(cause) = first_cause(part) {
            return Some(cause);
        }
    }
    None
}

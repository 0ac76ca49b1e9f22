// Empty loops, and halts under predicates.
ghost use Rattle.std.specs.Prelude.{◌≡◌};
ghost use Rattle.rpl_core.specs.View.{core_of, cores};
ghost use Rattle.rpl_compile_laws.specs.Static as S;
ghost use Rattle.rpl_check.specs.Loops as L;
ghost use Rattle.rpl_core.specs.Marks.{marked};

use rpl_core::Peg;
use rpl_facts::{may_be_empty, may_halt};

/// Returns whether the pattern repeats a body that may be empty, assuming that exactly the marked
/// rules may be empty.
#[cycle(empty_loop)]
pub(crate) fn has_empty_loop(peg: &Peg, empties: &[bool]) -> bool
    ensures { result ≡ L.has_empty_loop (marked empties.now) (core_of peg.now) }
{
    match peg {
        Peg::Set(_) | Peg::Call(_) | Peg::Note(_) | Peg::Start | Peg::End | Peg::Halt => false,
        Peg::Many(body) => may_be_empty(body, empties) || has_empty_loop(body, empties),
        Peg::Not(body) | Peg::And(body) => has_empty_loop(body, empties),
        Peg::Behind { body, .. } => has_empty_loop(body, empties),
        Peg::Capture(_, body) => has_empty_loop(body, empties),
        Peg::Seq(parts) => any_has_empty_loop(parts.as_slice(), empties),
        Peg::Choice(parts) => any_has_empty_loop(parts.as_slice(), empties),
    }
}

/// Returns whether any part repeats a body that may be empty.
#[cycle(empty_loop)]
fn any_has_empty_loop(parts: &[Peg], empties: &[bool]) -> bool
    ensures { result ≡ L.any_has_empty_loop (marked empties.now) (cores parts.now) }
{
    for part in parts {
        if has_empty_loop(part, empties) {
            return true;
        }
    }
    false
}

/// Returns whether no predicate in the pattern can halt, assuming that exactly the marked rules may
/// halt. A body for which `may_halt` is false contains no predicate that can halt, so no part is
/// visited twice.
#[cycle(stay)]
pub(crate) fn predicates_stay(peg: &Peg, halting: &[bool]) -> bool
    ensures { result ≡ S.predicates_stay (marked halting.now) (core_of peg.now) }
{
    match peg {
        Peg::Set(_) | Peg::Call(_) | Peg::Note(_) | Peg::Start | Peg::End | Peg::Halt => true,
        Peg::Not(body) => !may_halt(body, halting),
        Peg::And(body) => !may_halt(body, halting),
        Peg::Behind { body, .. } => !may_halt(body, halting),
        Peg::Many(body) => predicates_stay(body, halting),
        Peg::Capture(_, body) => predicates_stay(body, halting),
        Peg::Seq(parts) => all_predicates_stay(parts.as_slice(), halting),
        Peg::Choice(parts) => all_predicates_stay(parts.as_slice(), halting),
    }
}

/// Returns whether no predicate in the parts can halt.
#[cycle(stay)]
fn all_predicates_stay(parts: &[Peg], halting: &[bool]) -> bool
    ensures { result ≡ S.all_predicates_stay (marked halting.now) (cores parts.now) }
{
    for part in parts {
        if !predicates_stay(part, halting) {
            return false;
        }
    }
    true
}

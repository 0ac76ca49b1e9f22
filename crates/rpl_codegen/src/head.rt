// Patterns that consist of a single set.
ghost use Rattle.std.specs.Option.{option_copied};
ghost use Rattle.std.specs.Prelude.{◌≡◌};
ghost use Rattle.rpl_core.specs.Head as H;
ghost use Rattle.rpl_core.specs.View.{core_of};

use rpl_classes::Set;
use rpl_core::Peg;

/// Returns the set if the pattern is a single set, and `None` otherwise.
pub(crate) fn lone_set(peg: &Peg) -> Option<&Set>
    ensures { option_copied result ≡ H.lone_set (core_of peg.now) }
{
    match peg {
        Peg::Set(set) => Some(set),
        Peg::Seq(_) | Peg::Choice(_) | Peg::Many(_) | Peg::Not(_) | Peg::And(_) => None,
        Peg::Behind { .. } | Peg::Call(_) | Peg::Capture(_, _) | Peg::Note(_) => None,
        Peg::Start | Peg::End | Peg::Halt => None,
    }
}

// The reasons why a table or a pattern is refused.
ghost use Rattle.std.specs.Prelude.{◌≡◌};

use crate::NoMemory;
use thiserror::Error;

/// The reason why a look-behind is refused.
#[derive(Clone, Copy, Debug, PartialEq, Eq)]
pub enum BehindCause {
    /// Its body calls a rule.
    Recursive,
    /// Its body contains a repetition.
    Repetition,
    /// Its body can take more than 255 characters.
    TooLong,
}

/// The reason why a table of rules or a pattern is refused. `rule` is the number of the rule that
/// contains the fault, or `None` if the fault is in the pattern itself.
#[derive(Debug, Drop, Error)]
pub enum CheckFault {
    /// Memory ran out.
    #[error("out of memory")]
    NoMemory,
    /// A look-behind whose length has no bound or too high a bound.
    #[error("look-behind")]
    LookBehind {
        rule: Option<u32>,
        cause: BehindCause,
    },
    /// The rules of a block that reach themselves before they take a character, in the order of the
    /// table.
    #[error("left recursion")]
    LeftRecursion {
        rules: Vec<u32>,
    },
    /// A repetition whose body may be empty.
    #[error("empty loop")]
    EmptyLoop {
        rule: Option<u32>,
    },
    /// A predicate whose body may halt.
    #[error("halt under a predicate")]
    HaltInside {
        rule: Option<u32>,
    },
}

impl From<NoMemory> for CheckFault {
    ghost use Rattle.rpl_check.specs.declared.fault.CheckFault.TheVariants as V;

    ghost from_gives = { λ _ e. e ≡ V.NoMemory };

    fn from(_error: NoMemory) -> CheckFault {
        CheckFault::NoMemory
    }
}

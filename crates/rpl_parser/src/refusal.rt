// The reasons why tokens are refused.
ghost use Rattle.std.specs.Prelude.{◌≡◌};
ghost use Rattle.rpl_parser.specs.inside.Refusals.{fault_at};
ghost use Rattle.rpl_parser.specs.declared.refusal.Refusal.TheVariants.{Memory};

use crate::fault::{ParseFault, ParseKind};
use std::alloc::{AllocError, AllocFailed};

/// The reason why tokens are refused, without the byte offset.
#[derive(Clone, Copy, Debug)]
pub enum Refusal {
    /// Memory ran out.
    Memory,
    /// The tokens do not spell what is expected.
    Syntax,
}

impl Refusal {
    /// Converts the refusal to the fault of a pattern or a statement that begins at the byte offset
    /// `place`.
    pub fn fault_at(self, place: usize) -> ParseFault
        ensures { result ≡ fault_at self place }
    {
        match self {
            Refusal::Memory => ParseFault {
                at: 0,
                kind: ParseKind::NoMemory,
            },
            Refusal::Syntax => ParseFault {
                at: place,
                kind: ParseKind::Syntax,
            },
        }
    }
}

impl From<AllocError> for Refusal {
    ghost from_gives = { λ _ refusal. refusal ≡ Memory };

    fn from(_cause: AllocError) -> Refusal {
        Refusal::Memory
    }
}

impl<T: Drop> From<AllocFailed<T>> for Refusal {
    ghost from_gives = { λ _ refusal. refusal ≡ Memory };

    fn from(_cause: AllocFailed<T>) -> Refusal {
        Refusal::Memory
    }
}

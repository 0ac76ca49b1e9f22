// The reasons why bytes cannot be read as a program.
ghost use Rattle.std.specs.Prelude.{◌≡◌};
ghost use Rattle.rpl_codefile.specs.declared.fault.CodeFault.TheVariants as F;

use rpl_core::NoMemory;
use std::alloc::AllocFailed;
use thiserror::Error;

/// The reason why the bytes could not be read as a program.
#[derive(Clone, Copy, Debug, PartialEq, Eq, Error)]
pub enum CodeFault {
    #[error("out of memory")]
    NoMemory,
    /// The bytes spell no code.
    #[error("not a code file")]
    NotCode,
    /// The bytes spell code that isn't safe.
    #[error("unsafe code")]
    NotSafe,
}

impl From<NoMemory> for CodeFault {
    ghost from_gives = { λ _ e. e ≡ F.NoMemory };

    fn from(_error: NoMemory) -> CodeFault {
        CodeFault::NoMemory
    }
}

impl<T: Drop> From<AllocFailed<T>> for CodeFault {
    ghost from_gives = { λ _ e. e ≡ F.NoMemory };

    fn from(_error: AllocFailed<T>) -> CodeFault {
        CodeFault::NoMemory
    }
}

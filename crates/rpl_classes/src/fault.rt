// The reasons why a text denotes no set.
ghost use Rattle.std.specs.Prelude.{◌≡◌};
ghost use Rattle.rpl_classes.specs.declared.fault.SetFault.TheVariants.{NoMemory as OutOfMemory};

use crate::NoMemory;
use std::alloc::AllocFailed;
use thiserror::Error;

/// The reason why a bracket or a name denotes no set. `at` is a byte offset in the bracket's text;
/// for a name it is 0.
///
/// # Examples
///
/// ```
/// use rpl_classes::{SetFault, read_bracket};
/// let fault = read_bracket(alloc, "[:digits:]");
/// assert!(rt; matches!(fault, Err(SetFault::UnknownClass { at: 0 })));
/// assert!(rt; matches!(read_bracket(alloc, "[z-a]"), Err(SetFault::BadRange { at: 2 })));
/// assert!(rt; matches!(read_bracket(alloc, "[z"), Err(SetFault::BadSet { at: 2 })));
/// ```
#[derive(Clone, Copy, Debug, PartialEq, Eq, Error)]
pub enum SetFault {
    /// Memory ran out.
    #[error("out of memory")]
    NoMemory,
    /// No class has this name; `at` is the offset of the bracket's `[`.
    #[error("unknown class")]
    UnknownClass {
        /// The offset where the bracket begins.
        at: usize,
    },
    /// A `-` between characters that doesn't form a range with them.
    #[error("bad range")]
    BadRange {
        /// The offset of the `-`.
        at: usize,
    },
    /// An unexpected character, or the end of the text where a character is expected.
    #[error("bad set")]
    BadSet {
        /// The offset of that character, or of the end.
        at: usize,
    },
}

impl From<NoMemory> for SetFault {
    ghost from_gives = { λ _ fault. fault ≡ OutOfMemory };

    fn from(_cause: NoMemory) -> SetFault {
        SetFault::NoMemory
    }
}

impl<T: Drop> From<AllocFailed<T>> for SetFault {
    ghost from_gives = { λ _ fault. fault ≡ OutOfMemory };

    fn from(_cause: AllocFailed<T>) -> SetFault {
        SetFault::NoMemory
    }
}

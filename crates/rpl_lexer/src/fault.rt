// Faults of texts that cannot be split into tokens.
ghost use Rattle.std.specs.Prelude.{◌≡◌};
ghost use Rattle.rpl_lexer.specs.declared.fault.LexKind.TheVariants.{NoMemory as OutOfMemory};

use crate::NoMemory;
use std::alloc::AllocFailed;
use thiserror::Error;

/// The kind of a fault.
///
/// # Examples
///
/// ```
/// use rpl_lexer::{LexKind, lex};
/// assert!(rt; matches!(lex(alloc, "\"\\q\""), Err(fault) if fault.kind == LexKind::BadEscape));
/// assert!(rt; matches!(lex(alloc, "\"ab"), Err(fault) if fault.kind == LexKind::OpenText));
/// ```
#[derive(Clone, Copy, Debug, PartialEq, Eq, Error)]
pub enum LexKind {
    /// Memory ran out.
    #[error("out of memory")]
    NoMemory,
    /// No token begins with this character, or a `{` begins malformed bounds.
    #[error("bad character")]
    BadChar,
    /// A quoted text or a bracket is not closed before the next line feed or the end of the text.
    #[error("text without end")]
    OpenText,
    /// A backslash in a quoted text or a bracket does not begin an escape.
    #[error("bad escape")]
    BadEscape,
    /// A number exceeds 2^64 - 1.
    #[error("number too wide")]
    NumberTooWide,
    /// There are more than 262,144 tokens.
    #[error("too many tokens")]
    TooManyTokens,
}

/// The first fault of a text.
///
/// # Examples
///
/// ```
/// use rpl_lexer::{LexFault, LexKind, lex};
/// let fault = LexFault {
///     at: 4,
///     kind: LexKind::BadChar,
/// };
/// assert!(rt; matches!(lex(alloc, "day % month"), Err(found) if found == fault));
/// ```
#[derive(Clone, Copy, Debug, PartialEq, Eq, Error)]
#[error("{kind} at byte {at}")]
pub struct LexFault {
    /// The byte offset of the fault; 0 if memory ran out.
    pub at: usize,
    /// The kind of the fault.
    pub kind: LexKind,
}

impl From<NoMemory> for LexFault {
    ghost from_gives = { λ _ fault. fault ≡ record { at = 0; kind = OutOfMemory } };

    fn from(_cause: NoMemory) -> LexFault {
        LexFault {
            at: 0,
            kind: LexKind::NoMemory,
        }
    }
}

impl<T: Drop> From<AllocFailed<T>> for LexFault {
    ghost from_gives = { λ _ fault. fault ≡ record { at = 0; kind = OutOfMemory } };

    fn from(_cause: AllocFailed<T>) -> LexFault {
        LexFault {
            at: 0,
            kind: LexKind::NoMemory,
        }
    }
}

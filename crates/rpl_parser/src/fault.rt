// Faults of texts that cannot be parsed.
ghost use Rattle.std.specs.Prelude.{◌≡◌};
ghost use Rattle.rpl_parser.specs.declared.fault.ParseKind.TheVariants.{NoMemory as OutOfMemory};

use rpl_classes::SetFault;
use std::alloc::{AllocError, AllocFailed};
use thiserror::Error;

/// The kind of a parse fault.
///
/// # Examples
///
/// ```
/// # use rpl_lexer::lex;
/// use rpl_parser::{ParseKind, parse_pattern};
/// let text = "day{4,2}";
/// let fault = parse_pattern(alloc, text, &lex(alloc, text)?);
/// let bounds = ParseKind::BadBounds { least: 4, most: 2 };
/// assert!(rt; matches!(fault, Err(fault) if fault.kind == bounds));
/// ```
#[derive(Clone, Copy, Debug, PartialEq, Eq, Error)]
pub enum ParseKind {
    /// Memory ran out.
    #[error("out of memory")]
    NoMemory,
    /// The nesting level exceeds 100 at this token.
    #[error("nested too deep")]
    TooDeep,
    /// The pattern or statement that begins here is not valid syntax, or the statement is valid but
    /// not allowed here.
    #[error("syntax")]
    Syntax,
    /// The lower number of the bounds exceeds the upper number, or one of the two numbers exceeds
    /// 255. If there is no upper number, `most` equals `least`.
    #[error("bad bounds")]
    BadBounds {
        /// The number before the comma, or 0 if there is none.
        least: u64,
        /// The number after the comma, or `least` if there is none.
        most: u64,
    },
    /// A bracket is not a valid set. The offset in `SetFault` is relative to the start of the
    /// bracket.
    #[error("{0}")]
    Class(SetFault),
    /// The version of the module is not supported.
    #[error("version")]
    Version,
}

/// The first fault in the tokens of a text.
///
/// # Examples
///
/// ```
/// # use rpl_lexer::lex;
/// use rpl_parser::{ParseFault, ParseKind, parse_pattern};
/// let text = " (day";
/// let tokens = lex(alloc, text)?;
/// let fault = ParseFault {
///     at: 1,
///     kind: ParseKind::Syntax,
/// };
/// assert!(rt; matches!(parse_pattern(alloc, text, &tokens), Err(found) if found == fault));
/// ```
#[derive(Clone, Copy, Debug, PartialEq, Eq, Error)]
#[error("{kind} at byte {at}")]
pub struct ParseFault {
    /// The byte offset of the fault in the whole text; 0 if memory ran out.
    pub at: usize,
    /// The kind of the fault.
    pub kind: ParseKind,
}

impl From<AllocError> for ParseFault {
    ghost from_gives = { λ _ fault. fault ≡ record { at = 0; kind = OutOfMemory } };

    fn from(_cause: AllocError) -> ParseFault {
        ParseFault {
            at: 0,
            kind: ParseKind::NoMemory,
        }
    }
}

impl<T: Drop> From<AllocFailed<T>> for ParseFault {
    ghost from_gives = { λ _ fault. fault ≡ record { at = 0; kind = OutOfMemory } };

    fn from(_cause: AllocFailed<T>) -> ParseFault {
        ParseFault {
            at: 0,
            kind: ParseKind::NoMemory,
        }
    }
}

// The outcome of a trace.
ghost use Rattle.std.specs.Prelude.{◌≡◌};

use crate::text::TraceText;
use rpl_text::Chars;
use std::alloc::AllocError;
use thiserror::Error;

/// The text of a trace, with one line per evaluation, and the byte offset where the match ends,
/// if there is a match.
#[derive(Drop)]
pub struct Trace {
    pub printed: Chars,
    pub end: Option<usize>,
}

/// A trace whose lines are still to be printed, and the byte offset where the match ends, if there
/// is a match.
#[derive(Drop)]
pub struct Traced<'a> {
    pub text: TraceText<'a>,
    pub end: Option<usize>,
}

/// The reason why a trace is refused.
#[derive(Clone, Copy, Debug, PartialEq, Eq, Error)]
pub enum TraceFault {
    /// Memory ran out.
    #[error("out of memory")]
    NoMemory,
    /// The number of evaluations exceeds the limit.
    #[error("trace too long")]
    TraceTooLong,
}

impl From<AllocError> for TraceFault {
    ghost use Rattle.rpl_trace.specs.declared.answer.TraceFault.TheVariants.{NoMemory};

    ghost from_gives = { λ _ e. e ≡ NoMemory };

    fn from(_: AllocError) -> TraceFault {
        TraceFault::NoMemory
    }
}

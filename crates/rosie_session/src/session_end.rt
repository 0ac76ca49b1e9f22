// The reason why a line of a session has no answer.
ghost use Rattle.std.specs.Prelude.{◌≡◌};

use rpl_text::Chars;
use std::alloc::AllocError;

/// The reason why a line of a session has no answer.
#[derive(Drop)]
pub(crate) enum SessionEnd {
    NoMemory,
    /// The file at this path could not be opened or read.
    Unread(Chars),
}

impl From<AllocError> for SessionEnd {
    ghost use Rattle.rosie_session.specs.declared.session_end.SessionEnd.TheVariants.{NoMemory};

    ghost from_gives = { λ _ session_end. session_end ≡ NoMemory };

    fn from(_error: AllocError) -> SessionEnd {
        SessionEnd::NoMemory
    }
}

//! The faults in a command line.

ghost use Rattle.std.specs.Prelude.{◌≡◌};
ghost use Rattle.rosie_words.specs.declared.fault.UsageFault.TheVariants.{NoMemory};

use rpl_text::Chars;
use std::alloc::{AllocError, AllocFailed};
use thiserror::Error;

/// The first fault in the words of a command line.
///
/// Faults in single words come first, in the order of the words. Faults in the words as a whole
/// follow, in the order of the variants from `NoCommand` on, and a `BadValue` for an argument comes
/// last. `fault_line` returns the line that reports a fault.
///
/// # Examples
///
/// ```
/// use rosie_words::{UsageFault, read_words};
/// assert!(rt; matches!(read_words(alloc, &[]), Err(UsageFault::NoCommand)));
/// let words = [String::from_str(alloc, "serve")?];
/// assert!(rt; matches!(read_words(alloc, &words), Err(UsageFault::UnknownCommand(word))
///     if word.as_str() == "serve"));
/// ```
#[derive(Debug, Drop, Error)]
pub enum UsageFault {
    /// There is not enough memory to parse the words.
    #[error("out of memory")]
    NoMemory,
    /// This option doesn't exist.
    #[error("unknown option")]
    UnknownOption(Chars),
    /// This option takes no value, but is given one after `=`.
    #[error("unexpected value")]
    UnexpectedValue(Chars),
    /// This option takes the next word as its value, but there is no next word.
    #[error("missing value")]
    MissingValue(Chars),
    /// This value of an option, or this argument of `sample`, is malformed.
    #[error("bad value")]
    BadValue(Chars),
    /// There is no argument, so no command is named.
    #[error("no command")]
    NoCommand,
    /// This word, the first argument, is not a command.
    #[error("unknown command")]
    UnknownCommand(Chars),
    /// The command doesn't take this option.
    #[error("not for this command")]
    NotForCommand(Chars),
    /// The command needs more arguments than were given.
    #[error("missing argument")]
    MissingArgument,
    /// The command takes fewer arguments than were given.
    #[error("too many arguments")]
    TooManyArguments,
}

impl From<AllocError> for UsageFault {
    ghost from_gives = { λ _ fault. fault ≡ NoMemory };

    fn from(_error: AllocError) -> UsageFault {
        UsageFault::NoMemory
    }
}

impl<T: Drop> From<AllocFailed<T>> for UsageFault {
    ghost from_gives = { λ _ fault. fault ≡ NoMemory };

    fn from(_error: AllocFailed<T>) -> UsageFault {
        UsageFault::NoMemory
    }
}

ghost use Rattle.std.specs.Prelude.{◌≡◌};
ghost use Rattle.rpl_encode.specs.declared.fault.EncodeFault.TheVariants.{NoMemory};

use rpl_core::NoMemory;
use thiserror::Error;

/// The reason why no text was written.
///
/// # Examples
///
/// ```
/// use rpl_core::NoMemory;
/// use rpl_encode::EncodeFault;
/// assert!(rt; EncodeFault::from(NoMemory) == EncodeFault::NoMemory);
/// ```
#[derive(Clone, Copy, Debug, PartialEq, Eq, Error)]
pub enum EncodeFault {
    /// There is not enough memory.
    #[error("out of memory")]
    NoMemory,
    /// The text has more than 67,108,864 bytes.
    #[error("answer too long")]
    AnswerTooLong,
}

impl From<NoMemory> for EncodeFault {
    ghost from_gives = { λ _ e. e ≡ NoMemory };

    fn from(_error: NoMemory) -> EncodeFault {
        EncodeFault::NoMemory
    }
}

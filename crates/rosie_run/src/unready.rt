// The reasons why there is nothing to run.
use crate::NoMemory;
use rpl_text::Chars;

/// The reason why there is nothing to run.
#[derive(Debug, Drop)]
pub enum Unready {
    /// There is not enough memory.
    NoMemory,
    /// What was to be run is refused. The text is the line that reports the refusal, with its line
    /// feed.
    Refused(String),
    /// The file at this path could not be opened or read.
    ReadFault(Chars),
}

impl From<NoMemory> for Unready {
    ghost use Rattle.std.specs.Prelude.{◌≡◌};
    ghost use Rattle.rosie_run.specs.declared.unready.Unready.TheVariants as V;

    ghost from_gives = { λ _ unready. unready ≡ V.NoMemory };

    fn from(_error: NoMemory) -> Unready {
        Unready::NoMemory
    }
}

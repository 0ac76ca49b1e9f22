// The outcomes of runs.
use thiserror::Error;

/// The outcome of a run, with the number of steps it took.
#[derive(Clone, Copy, Debug, PartialEq, Eq)]
pub enum Answer {
    /// A match that ends at this place.
    At { place: usize, steps: u64 },
    /// No match.
    Fail { steps: u64 },
}

/// The reason why a run has no answer.
#[derive(Clone, Copy, Debug, PartialEq, Eq, Error)]
pub enum RunFault {
    #[error("out of memory")]
    NoMemory,
    /// The run needs more steps than its budget allows. It stopped after taking every step that the
    /// budget allowed.
    #[error("budget spent")]
    Budget,
}

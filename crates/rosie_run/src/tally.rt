// The tally of the pieces of a run.
ghost use Rattle.std.specs.Prelude.{◌≡◌, []};
ghost use Rattle.rosie_run.specs.Tallies.{tally_of, counted, added};
ghost use Rattle.rosie_run.specs.Report.{flags_status};

use crate::{Mark, Status};

/// The tally of the pieces so far.
#[derive(Clone, Copy, Debug, PartialEq, Eq)]
pub struct Tally {
    /// Whether a piece ended the run.
    pub stop: bool,
    /// Whether a piece reports that there is no answer.
    pub fault: bool,
    /// Whether a piece is a hit.
    pub hit: bool,
}

impl Tally {
    /// Returns an empty tally, in which no piece is counted yet.
    #[tactic(auto, unfolding(crate::specs::Report::has))]
    pub fn new() -> Tally
        ensures { result ≡ tally_of [] }
    {
        Tally {
            stop: false,
            fault: false,
            hit: false,
        }
    }

    /// Returns this tally with one more piece counted.
    pub fn with(self, mark: Mark) -> Tally
        ensures { result ≡ counted self mark }
    {
        match mark {
            Mark::Hit => Tally { hit: true, ..self },
            Mark::Miss => self,
            Mark::Fault => Tally {
                fault: true,
                ..self
            },
            Mark::Stop => Tally { stop: true, ..self },
        }
    }

    /// Returns the combined tally of the pieces in this tally and the pieces in `other`.
    pub fn and(self, other: Tally) -> Tally
        ensures { result ≡ added self other }
    {
        Tally {
            stop: self.stop || other.stop,
            fault: self.fault || other.fault,
            hit: self.hit || other.hit,
        }
    }

    /// Returns the status of a run that reached its end.
    pub fn status(self) -> Status
        ensures { result ≡ flags_status self.stop self.fault self.hit }
    {
        if self.stop {
            Status::Refused
        } else if self.fault {
            Status::LineFault
        } else if self.hit {
            Status::Matched
        } else {
            Status::NoMatch
        }
    }
}

// The ways in which the program ends.
ghost use Rattle.std.specs.Prelude.{◌≡◌};
ghost use Rattle.rosie_columns_cli.specs.Endings.{ending_of, number_of};

use rosie_run::Status;

/// The way in which the program ends.
#[derive(Clone, Copy)]
pub enum Ending {
    /// The program ends with the run's status.
    Ran(Status),
    /// Every line was a tree, but at least one column took no node from any tree.
    Absent,
}

impl Ending {
    /// Returns the ending of a run, given whether some column was never found.
    pub(crate) fn of(status: Status, is_absent: bool) -> Ending
        ensures { result ≡ ending_of status is_absent }
    {
        match (status, is_absent) {
            (Status::Matched, true) => Ending::Absent,
            (status, _) => Ending::Ran(status),
        }
    }

    /// Returns the exit status of the process.
    pub fn code(self) -> u8
        ensures { result ≡ number_of self }
    {
        match self {
            Ending::Ran(status) => status.code(),
            Ending::Absent => 8,
        }
    }
}

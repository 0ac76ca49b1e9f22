// The program that a run belongs to.
ghost use Rattle.std.specs.Prelude.{◌≡◌};
ghost use Rattle.rosie_run.specs.Tools.{name_of};

/// The program that a run belongs to. Messages begin with its name.
#[derive(Clone, Copy, Debug, PartialEq, Eq)]
pub enum Tool {
    Rosie,
    RosieColumns,
}

impl Tool {
    /// Returns the name of the program.
    pub fn name(self) -> &'static str
        ensures { result.now ≡ name_of self }
    {
        match self {
            Tool::Rosie => "rosie",
            Tool::RosieColumns => "rosie-columns",
        }
    }
}

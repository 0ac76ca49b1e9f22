// A text that is made in short portions.
ghost use Rattle.std.specs.Prelude.{ℕ, List, string_bytes};
ghost use Rattle.rosie_run.specs.Parts.{Pushes};

use crate::NoMemory;

/// A text that is the whole answer of a command. The text is made in short portions, so that it is
/// never in memory as a whole.
pub trait TextSource {
    /// The text that is still to come.
    ghost left: { Self → List ℕ };

    /// Appends the next portion of the text to `out`. Returns whether there was one. A portion is
    /// never empty.
    fn push_next(&mut self, out: &mut String) -> Result<bool, NoMemory>
        ensures { Pushes result (left self.old) (left self.new) (string_bytes out.old)
            (string_bytes out.new) };
}

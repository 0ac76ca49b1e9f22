// The work of a command on each line.
ghost use Rattle.std.specs.Prelude.{◌≡◌, ◌≤◌, ◌^◌, ◌+◌, ◌∷◌, [], ℕ, List, length, IfOk, OnOk};
ghost use Rattle.std.specs.Prelude.{IsTrue};
ghost use Rattle.std.specs.Str.{IsAscii};
ghost use Rattle.rosie_run.specs.Made.{IsMade};
ghost use Rattle.rosie_run.specs.Parts.{GivesPart, whole_of};
ghost use Rattle.rosie_run.specs.Report.{Piece};

use crate::{Mark, NoMemory};
use rpl_machine::Steps;
use std::sync::ledger::Ledger;

/// A line of an input, as a job receives it.
#[derive(Clone, Copy, Debug)]
pub struct InputLine<'a> {
    /// The name by which messages refer to the input.
    pub file: &'a str,
    /// The number of the line in the input, counted from 1.
    pub number: u64,
    /// The line, without its line feed: at most 2^30 bytes.
    pub text: &'a str,
    /// Whether all bytes of the text are known to be ASCII and so need not be checked. If the field
    /// is `false`, the bytes may still be ASCII.
    pub is_ascii: bool,
}

/// The work of a command on each line. A job makes the texts of a line's piece and writes nothing:
/// the run writes the texts. A job may make a long text for `out` in parts.
pub trait LineJob {
    /// The piece that the job makes for a line, given the input's name, the line's number and the
    /// line's text.
    ghost makes: { Self → List ℕ → ℕ → List ℕ → Piece };

    /// Whether the job is known to take no machine steps.
    ghost idle: { Type 0 } = { ⊥ };

    /// The most recently made part of the last piece's text for `out`.
    ghost out_text: { Self → List ℕ };

    /// The last piece's text for `err`.
    ghost err_text: { Self → List ℕ };

    /// The rest of the last piece's text for `out`: the parts that are still to be made.
    ghost out_rest: { Self → List ℕ } = { λ _. [] };

    /// The text that the job adds after the last line, given the lines that are still to come.
    ghost last_text: { Self → List (List ℕ) → List ℕ } = { λ _ _. [] };

    /// Makes the piece of a line, and the first part of the piece's text for `out`.
    fn answer<L: Ledger>(
        &mut self,
        line: InputLine<'_>,
        steps: &mut Steps<L>,
    ) -> Result<Mark, NoMemory>
        requires fits { length line.text.now ≤ 2 ^ 30 }
        requires ascii { IsTrue line.is_ascii → IsAscii line.text.now }
        ensures same { makes self.new ≡ makes self.old }
        ensures made { IfOk result (λ mark. IsMade mark
            (whole_of (out_text self.new) (out_rest self.new)) (err_text self.new)
            (makes self.old line.entry.file.now line.entry.number line.entry.text.now)) }
        ensures last { OnOk result ((more : List (List ℕ)) → last_text self.new more
            ≡ last_text self.old (line.entry.text.now ∷ more)) }
        ensures steps { OnOk result (steps.new ≡ steps.old
            + (makes self.old line.entry.file.now line.entry.number line.entry.text.now).cost) }
        ensures idle { idle → steps.new ≡ steps.old };

    /// Makes the next part of the last piece's text for `out`, and returns whether there was one. A
    /// part is never empty.
    fn next_part(&mut self) -> Result<bool, NoMemory>
        ensures part { GivesPart result (out_rest self.old) (out_text self.new)
            (out_rest self.new) }
        ensures err_text { err_text self.new ≡ err_text self.old }
        ensures same { makes self.new ≡ makes self.old }
        ensures last { last_text self.new ≡ last_text self.old };

    /// Returns the most recently made part of the last piece's text for `out`.
    fn out(&self) -> &[u8]
        ensures { result.now ≡ out_text self.now };

    /// Returns the last piece's text for `err`.
    fn err(&self) -> &[u8]
        ensures { result.now ≡ err_text self.now };
}

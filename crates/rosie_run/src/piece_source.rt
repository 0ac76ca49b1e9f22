// The pieces of a command's report.
ghost use Rattle.std.specs.Prelude.{◌≡◌, ◌<◌, [], ℕ, IfErr, List};
ghost use Rattle.rosie_run.specs.Going.{Gives, Going, How, IsNoStop, IsSaidBy, OnPiece, count_of};
ghost use Rattle.rosie_run.specs.Going.{how_of, how_of_part};
ghost use Rattle.rosie_run.specs.Parts.{GivesPart, whole_of};
ghost use Rattle.rosie_run.specs.Report.{Piece};
ghost use Rattle.rosie_run.specs.declared.tool.Tool.{Tool};

use crate::{Ended, Mark, NoMemory};
use rpl_machine::Steps;
use std::sync::ledger::Ledger;

/// A source that makes the pieces of a run, one after the other. The source keeps the pieces' texts
/// in its own memory and writes nothing: the run writes the texts. The source may make a long text
/// for `out` in parts.
pub trait PieceSource {
    /// Whether the list is known to hold exactly the pieces that are still to come.
    ghost comes: { Self → List Piece → Type 0 };

    /// Whether the two values agree on whatever a run must not change, such as the job and the
    /// input.
    ghost same: { Self → Self → Type 0 };

    /// Whether a run that makes this number of pieces may change the source from the first value to
    /// the second. `How` says whether the run continues, or why it ended.
    ghost leaves: { How → Self → Self → ℕ → Type 0 };

    /// Whether the source may be asked for a piece.
    ghost goes_on: { Self → Type 0 } = { λ _. Unit {0} };

    /// An upper bound on the number of pieces to come.
    ghost bound: { Self → ℕ };

    /// The most recently made part of the last piece's text for `out`.
    ghost out_text: { Self → List ℕ };

    /// The last piece's text for `err`.
    ghost err_text: { Self → List ℕ };

    /// The rest of the last piece's text for `out`: the parts that are still to be made.
    ghost out_rest: { Self → List ℕ } = { λ _. [] };

    /// The program that runs.
    ghost tool: { Self → Tool };

    /// The name of the source's input, which is printed if a failed read ends the run.
    ghost source_name: { Self → List ℕ };

    /// Whether the source is known to take no machine steps.
    ghost idle: { Type 0 } = { ⊥ };

    /// Whether it is known that no piece of the source ends the run.
    ghost never_stops: { Type 0 } = { ⊥ };

    /// Returns whether the next piece can be made without waiting for input.
    fn is_ready(&self) -> bool;

    /// Makes the next piece and the first part of the piece's text for `out`. Returns the piece's
    /// kind, or `None` if there is no further piece. Returns an error if there is not enough
    /// memory, or if reading ends the run. If reading ends the run, the error contains the line
    /// that says so.
    fn next<L: Ledger>(&mut self, steps: &mut Steps<L>) -> Result<Option<Mark>, Ended>
        requires { goes_on self.old }
        ensures gives { (ps : List Piece) → comes self.old ps → Gives result ps (comes self.new)
            (whole_of (out_text self.new) (out_rest self.new)) (err_text self.new)
            steps.old steps.new }
        ensures says { IfErr result (λ ended. IsSaidBy (tool self.old) (source_name self.new)
            ended) }
        ensures same { (s : Self) → same s self.old → same s self.new }
        ensures left { (s : Self) (k : ℕ) → leaves Going s self.old k
            → leaves (how_of result) s self.new (count_of result k) }
        ensures goes_on { OnPiece result (goes_on self.new) }
        ensures tool { tool self.new ≡ tool self.old }
        ensures idle { idle → steps.new ≡ steps.old }
        ensures never_stops { never_stops → IsNoStop result }
        ensures fewer { OnPiece result (bound self.new < bound self.old) };

    /// Makes the next part of the last piece's text for `out`, and returns whether there was one. A
    /// part is never empty.
    fn next_part(&mut self) -> Result<bool, NoMemory>
        ensures part { GivesPart result (out_rest self.old) (out_text self.new)
            (out_rest self.new) }
        ensures err_text { err_text self.new ≡ err_text self.old }
        ensures comes { (ps : List Piece) → comes self.old ps → comes self.new ps }
        ensures same { (s : Self) → same s self.old → same s self.new }
        ensures left { (s : Self) (k : ℕ) → leaves Going s self.old k
            → leaves (how_of_part result) s self.new k }
        ensures goes_on { goes_on self.old → goes_on self.new }
        ensures tool { tool self.new ≡ tool self.old }
        ensures source_name { source_name self.new ≡ source_name self.old }
        ensures bound { bound self.new ≡ bound self.old };

    /// Returns the most recently made part of the last piece's text for `out`.
    fn out(&self) -> &[u8]
        ensures { result.now ≡ out_text self.now };

    /// Returns the last piece's text for `err`.
    fn err(&self) -> &[u8]
        ensures { result.now ≡ err_text self.now };

    /// The proof that `same` and `leaves` hold at the beginning of a run.
    ghost begins: { (s : Self) → same s s × leaves Going s s 0 };
}

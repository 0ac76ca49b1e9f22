// The only loop that writes the pieces of a run, one after the other.
ghost use Rattle.std.specs.Prelude.{◌≡◌, ◌+◌, [], IfErr, IfOk, List, OnOk, false};
ghost use Rattle.std.specs.Prelude.{length};
ghost use Rattle.rosie_io.specs.Appending.{Appends};
ghost use Rattle.rosie_io.specs.Counts.{capped};
ghost use Rattle.rosie_run.specs.Closing.{OutFirst};
ghost use Rattle.rosie_run.specs.Devices.{DevicesWriteCause, SameOutputs};
ghost use Rattle.rosie_run.specs.Going.{CutSays, LeavesRun, StoodAt};
ghost use Rattle.rosie_run.specs.Outputs.{shown, telling};
ghost use Rattle.rosie_run.specs.Parts.{whole_of};
ghost use Rattle.rosie_run.specs.Report.{Piece};
ghost use Rattle.rosie_run.specs.Runs.{IsNoCut, Runs};
ghost use Rattle.rosie_run.specs.inside.Writing.{BothWritesCause, KeepsPiece, WritesCause};
ghost use Rattle.rosie_run.specs.inside.Writing.{how_of_write};

use crate::write::{flush_before_wait, write_behind};
use crate::{Ended, Outputs, PieceSource, Tally};
use rosie_io::{Sink, write_all};
use std::sync::ledger::Ledger;

/// Writes the last piece's text for `out`, each part as soon as it is made. If the text isn't
/// empty, sets `pending` to `true`.
#[inline(always)]
fn write_parts<P: PieceSource, O: Sink>(
    pieces: &mut P,
    pending: &mut bool,
    out: &mut O,
) -> Result<(), Ended>
    ensures keeps { KeepsPiece P.PieceSource (how_of_write result) pieces.old pieces.new }
    ensures out { O.tells → Appends result (O.written out.old) (O.written out.new)
        (whole_of (P.out_text pieces.old) (P.out_rest pieces.old)) }
    ensures number { O.counts → OnOk result (O.number out.new ≡ capped (O.number out.old
        + length (whole_of (P.out_text pieces.old) (P.out_rest pieces.old)))) }
    ensures pending { pending.new ≡ false → (pending.old ≡ false) × (P.out_text pieces.old ≡ []) }
    ensures none { OnOk result (pending.new ≡ false → P.out_rest pieces.old ≡ []) }
    ensures no_cut { IfErr result IsNoCut }
    ensures cause { WritesCause result (O.faults out.old) (O.faults out.new) }
{
    'parts: loop {
        let part = pieces.out();
        *pending |= !part.is_empty();
        write_all(out, part)?;
        if !pieces.next_part()? {
            return Ok(());
        }
    }
}

/// Writes the texts of the last piece. If either text isn't empty, sets `pending` to `true`.
#[inline(always)]
fn write_piece<P: PieceSource, O: Sink, E: Sink>(
    pieces: &mut P,
    pending: &mut bool,
    out: &mut O,
    err: &mut E,
) -> Result<(), Ended>
    ensures keeps { KeepsPiece P.PieceSource (how_of_write result) pieces.old pieces.new }
    ensures out { O.tells → Appends result (O.written out.old) (O.written out.new)
        (whole_of (P.out_text pieces.old) (P.out_rest pieces.old)) }
    ensures err { E.tells → Appends result (E.written err.old) (E.written err.new)
        (P.err_text pieces.old) }
    ensures number { O.counts → OnOk result (O.number out.new ≡ capped (O.number out.old
        + length (whole_of (P.out_text pieces.old) (P.out_rest pieces.old)))) }
    ensures order { O.counts → E.tells → OutFirst (E.written err.old) (E.written err.new)
        (O.flushed out.new)
        (O.number out.new) }
    ensures pending { pending.new ≡ false → (pending.old ≡ false) ×
        (P.out_text pieces.old ≡ []) × (P.err_text pieces.old ≡ []) }
    ensures none { OnOk result (pending.new ≡ false → P.out_rest pieces.old ≡ []) }
    ensures no_cut { IfErr result IsNoCut }
    ensures cause { BothWritesCause result (O.faults out.old) (O.faults out.new)
        (E.faults err.old) (E.faults err.new) }
{
    *pending |= !pieces.err().is_empty();
    write_parts(pieces, pending, out)?;
    write_behind(out, err, pieces.err())?;
    Ok(())
}

/// Writes the pieces one after the other, until there are no more or one of them ends the run.
/// Flushes the outputs before waiting for more input.
pub fn run_pieces<P: PieceSource, O: Sink, E: Sink, L: Ledger>(
    pieces: &mut P,
    outputs: &mut Outputs<'_, O, E, L>,
) -> Result<Tally, Ended>
    requires { P.goes_on pieces.old }
    ensures same { P.same pieces.old pieces.new }
    ensures same_outputs { SameOutputs outputs.old outputs.new }
    ensures runs { (ps : List Piece) → P.comes pieces.old ps → Runs result
        (telling (P.tool pieces.old) O.Sink E.Sink) ps
        (StoodAt (λ how k. P.leaves how pieces.old pieces.new k) (P.source_name pieces.new))
        (shown O.Sink E.Sink outputs.old.out.now outputs.old.err.now outputs.old.steps.now)
        (shown O.Sink E.Sink outputs.new.out.now outputs.new.err.now outputs.new.steps.now) }
    ensures left { LeavesRun result (λ how k. P.leaves how pieces.old pieces.new k) }
    ensures idle { P.idle → outputs.new.steps.now ≡ outputs.old.steps.now }
    ensures never_stops { P.never_stops → IfOk result (λ tally. tally.stop ≡ false) }
    ensures says { IfErr result (CutSays (P.tool pieces.old) (P.source_name pieces.new)) }
    ensures sinks { DevicesWriteCause O.Sink E.Sink result outputs.old outputs.new }
{
    let mut tally = Tally::new();
    'run: loop {
        match flush_before_wait(
            &mut outputs.pending,
            pieces.is_ready(),
            outputs.out,
            outputs.err,
        ) {
            Ok(()) => {}
            Err(_) => return Err(Ended::WriteFault),
        }
        let mark = match pieces.next(outputs.steps) {
            Ok(Some(mark)) => mark,
            Ok(None) => return Ok(tally),
            Err(ended) => return Err(ended),
        };
        match write_piece(pieces, &mut outputs.pending, outputs.out, outputs.err) {
            Ok(()) => {}
            Err(ended) => return Err(ended),
        }
        tally = tally.with(mark);
        if tally.stop {
            return Ok(tally);
        }
    }
}

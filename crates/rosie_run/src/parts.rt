// A text that is written in parts, as it is made.
ghost use Rattle.std.specs.Prelude.{◌≡◌, ◌++◌, ◌∷◌, ◌≤◌, ◌<◌, [], IfErr, OnOk, drop, length};
ghost use Rattle.std.specs.Prelude.{string_bytes};
ghost use Rattle.rosie_run.specs.Devices.{DevicesWriteCause, SameOutputs};
ghost use Rattle.rosie_run.specs.Outputs.{shown, telling};
ghost use Rattle.rosie_run.specs.Parts.{IsParted};
ghost use Rattle.rosie_run.specs.Report.{text_piece};
ghost use Rattle.rosie_run.specs.Runs.{IsNoCut, Runs};
ghost use Rattle.rosie_run.specs.Where.{Nowhere};

use crate::{Ended, Mark, NoMemory, Outputs, PieceSource, Tally, TextSource, Tool, run_pieces};
use rosie_io::Sink;
use rpl_machine::Steps;
use std::alloc::Global;
use std::sync::ledger::Ledger;

/// The greatest number of bytes in a part.
const PART_BYTES: usize = 65_536;

/// A source of pieces that splits a text into parts. Each part is one piece.
#[derive(Drop)]
struct Parts<T: Drop> {
    tool: Tool,
    /// The source of the text that is still to be made.
    text: T,
    /// The most recently made portion of the text. The first `from` bytes of the portion are
    /// already in a part.
    bit: String,
    from: usize,
    /// The most recently made part.
    part: Vec<u8>,
    ghost within: { from ≤ length (string_bytes bit) },
}

impl<T: TextSource + Drop> Parts<T> {
    /// Moves bytes of the last portion to the part, until the part is full or the portion is used
    /// up.
    fn move_bit(&mut self) -> Result<(), NoMemory>
        requires { length self.old.part.items ≤ PART_BYTES }
        ensures left { OnOk result (self.new.part.items
            ++ drop self.new.from (string_bytes self.new.bit)
            ≡ self.old.part.items ++ drop self.old.from (string_bytes self.old.bit)) }
        ensures full { OnOk result (length self.new.part.items < PART_BYTES
            → drop self.new.from (string_bytes self.new.bit) ≡ []) }
        ensures fits { OnOk result (length self.new.part.items ≤ PART_BYTES) }
        ensures same { (self.new.text ≡ self.old.text) × (self.new.tool ≡ self.old.tool) }
    {
        let rest = &self.bit.as_bytes()[self.from..];
        let count = rest.len().min(PART_BYTES - self.part.len());
        self.part.extend_from_slice(&rest[..count])?;
        self.from += count;
        Ok(())
    }

    /// Makes the next part. The part is full unless the text ends with it.
    fn fill(&mut self) -> Result<(), NoMemory>
        requires { self.old.part.items ≡ [] }
        ensures left { OnOk result (self.new.part.items
            ++ drop self.new.from (string_bytes self.new.bit) ++ T.left self.new.text
            ≡ drop self.old.from (string_bytes self.old.bit) ++ T.left self.old.text) }
        ensures full { OnOk result (length self.new.part.items < PART_BYTES
            → drop self.new.from (string_bytes self.new.bit) ++ T.left self.new.text ≡ []) }
        ensures fits { OnOk result (length self.new.part.items ≤ PART_BYTES) }
        ensures same { self.new.tool ≡ self.old.tool }
    {
        'bits: loop {
            self.move_bit()?;
            if self.part.len() == PART_BYTES {
                return Ok(());
            }
            self.from = 0;
            self.bit.clear();
            if !self.text.push_next(&mut self.bit)? {
                return Ok(());
            }
        }
    }
}

impl<T: TextSource + Drop> PieceSource for Parts<T> {
    ghost use Rattle.std.specs.Prelude.{◌++◌, [], drop, length, string_bytes};
    ghost use Rattle.rosie_run.specs.Going.{NeverReads};
    ghost use Rattle.rosie_run.specs.Parts.{IsParted};

    ghost comes = { λ s ps. IsParted (drop s.from (string_bytes s.bit) ++ T.left s.text) ps };

    ghost same = { λ _ _. Unit {0} };

    ghost leaves = { λ how _ _ _. NeverReads how };

    ghost bound = { λ s. length (drop s.from (string_bytes s.bit) ++ T.left s.text) };

    ghost out_text = { λ s. s.part.items };

    ghost err_text = { λ _. [] };

    ghost tool = { λ s. s.tool };

    ghost source_name = { λ _. [] };

    ghost idle = { Unit {0} };

    ghost never_stops = { Unit {0} };

    fn is_ready(&self) -> bool {
        true
    }

    fn next<L: Ledger>(&mut self, _steps: &mut Steps<L>) -> Result<Option<Mark>, Ended> {
        self.part.clear();
        self.fill()?;
        if self.part.is_empty() {
            return Ok(None);
        }
        Ok(Some(Mark::Hit))
    }

    #[inline(always)]
    fn next_part(&mut self) -> Result<bool, NoMemory> {
        Ok(false)
    }

    #[inline(always)]
    fn out(&self) -> &[u8] {
        &self.part
    }

    #[inline(always)]
    fn err(&self) -> &[u8] {
        &[]
    }

    ghost begins = { λ _. (tt, tt) };
}

/// Writes a text that is the whole answer of a command. Each part, of at most 64 KiB, is written as
/// soon as it is made.
pub fn write_text<T: TextSource + Drop, O: Sink, E: Sink, L: Ledger>(
    alloc: Global,
    tool: Tool,
    text: T,
    outputs: &mut Outputs<'_, O, E, L>,
) -> Result<Tally, Ended>
    ensures same_outputs { SameOutputs outputs.old outputs.new }
    ensures runs { Runs result (telling tool O.Sink E.Sink) (text_piece (T.left text) ∷ []) Nowhere
        (shown O.Sink E.Sink outputs.old.out.now outputs.old.err.now outputs.old.steps.now)
        (shown O.Sink E.Sink outputs.new.out.now outputs.new.err.now outputs.new.steps.now) }
    ensures idle { outputs.new.steps.now ≡ outputs.old.steps.now }
    ensures no_cut { IfErr result IsNoCut }
    ensures sinks { DevicesWriteCause O.Sink E.Sink result outputs.old outputs.new }
{
    let part = Vec::with_capacity(alloc, PART_BYTES)?;
    let mut parts = Parts {
        tool,
        text,
        bit: String::new(alloc),
        from: 0,
        part,
    };
    match run_pieces(&mut parts, outputs) {
        // An empty text has no parts, but it is still an answer.
        Ok(tally) => Ok(tally.with(Mark::Hit)),
        Err(ended) => Err(ended),
    }
}

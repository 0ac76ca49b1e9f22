// Writes whole texts to the outputs.
ghost use Rattle.std.specs.Prelude.{◌≡◌, ◌+◌, IfOk, OnOk, false, length, string_bytes, true};
ghost use Rattle.rosie_io.specs.Counts.{capped};
ghost use Rattle.rosie_io.specs.Appending.{Appends, HasCause};
ghost use Rattle.rosie_run.specs.Lines.{input_fault, input_message, line_fault, line_message};
ghost use Rattle.rosie_run.specs.Closing.{OutFirst};
ghost use Rattle.rosie_run.specs.inside.Showing.{BothCause};

use crate::{NoMemory, Tool};
use rosie_io::{FlushAnswer, Sink, WriteFault, write_all};
use std::alloc::Global;

/// Flushes one output.
fn flush<S: Sink>(sink: &mut S) -> Result<(), WriteFault>
    ensures bytes { S.tells → S.written sink.new ≡ S.written sink.old }
    ensures number { S.counts → S.number sink.new ≡ S.number sink.old }
    ensures flushed { S.counts → OnOk result (S.flushed sink.new ≡ S.number sink.new) }
    ensures cause { HasCause result (S.faults sink.old) (S.faults sink.new) }
{
    match sink.flush() {
        FlushAnswer::Done => Ok(()),
        FlushAnswer::Failed => Err(WriteFault),
    }
}

/// Writes the two texts of a piece. `out` is flushed before anything is written to `err`, so that
/// the texts appear in the right order if the outputs share a screen or a pipe.
#[inline(always)]
pub(crate) fn write_both<O: Sink, E: Sink>(
    out: &mut O,
    err: &mut E,
    out_text: &[u8],
    err_text: &[u8],
) -> Result<(), WriteFault>
    ensures out { O.tells → Appends result (O.written out.old) (O.written out.new) out_text.now }
    ensures err { E.tells → Appends result (E.written err.old) (E.written err.new) err_text.now }
    ensures number { O.counts → OnOk result (O.number out.new
        ≡ capped (O.number out.old + length out_text.now)) }
    ensures order { O.counts → E.tells → OutFirst (E.written err.old) (E.written err.new)
        (O.flushed out.new)
        (O.number out.new) }
    ensures cause { BothCause result (O.faults out.old) (O.faults out.new) (E.faults err.old)
        (E.faults err.new) }
{
    write_all(out, out_text)?;
    write_behind(out, err, err_text)
}

/// Writes `text` to `err`. Unless `text` is empty, flushes `out` first, so that earlier output
/// comes before it.
#[inline(always)]
pub(crate) fn write_behind<O: Sink, E: Sink>(
    out: &mut O,
    err: &mut E,
    text: &[u8],
) -> Result<(), WriteFault>
    ensures out { O.tells → O.written out.new ≡ O.written out.old }
    ensures err { E.tells → Appends result (E.written err.old) (E.written err.new) text.now }
    ensures number { O.counts → O.number out.new ≡ O.number out.old }
    ensures order { O.counts → E.tells → OutFirst (E.written err.old) (E.written err.new)
        (O.flushed out.new)
        (O.number out.new) }
    ensures cause { BothCause result (O.faults out.old) (O.faults out.new) (E.faults err.old)
        (E.faults err.new) }
{
    if text.is_empty() {
        return Ok(());
    }
    flush(out)?;
    write_all(err, text)
}

/// Flushes both outputs.
pub(crate) fn flush_both<O: Sink, E: Sink>(out: &mut O, err: &mut E) -> Result<(), WriteFault>
    ensures out { O.tells → O.written out.new ≡ O.written out.old }
    ensures err { E.tells → E.written err.new ≡ E.written err.old }
    ensures out_number { O.counts → O.number out.new ≡ O.number out.old }
    ensures out_flushed { O.counts → OnOk result (O.flushed out.new ≡ O.number out.new) }
    ensures err_flushed { E.counts → OnOk result (E.flushed err.new ≡ E.number err.new) }
    ensures cause { BothCause result (O.faults out.old) (O.faults out.new) (E.faults err.old)
        (E.faults err.new) }
{
    flush(out)?;
    flush(err)
}

/// Writes a text and flushes it.
fn write_last<S: Sink>(sink: &mut S, text: &[u8]) -> Result<(), WriteFault>
    ensures bytes { S.tells → Appends result (S.written sink.old) (S.written sink.new) text.now }
    ensures flushed { S.counts → OnOk result (S.flushed sink.new ≡ S.number sink.new) }
    ensures cause { HasCause result (S.faults sink.old) (S.faults sink.new) }
{
    write_all(sink, text)?;
    flush(sink)
}

/// Flushes `out`, then writes the last line to `err` and flushes `err`.
pub(crate) fn close_with<O: Sink, E: Sink>(
    out: &mut O,
    err: &mut E,
    text: &str,
) -> Result<(), WriteFault>
    ensures out { O.tells → O.written out.new ≡ O.written out.old }
    ensures err { E.tells → Appends result (E.written err.old) (E.written err.new) text.now }
    ensures out_number { O.counts → O.number out.new ≡ O.number out.old }
    ensures out_flushed { O.counts → OnOk result (O.flushed out.new ≡ O.number out.new) }
    ensures err_flushed { E.counts → OnOk result (E.flushed err.new ≡ E.number err.new) }
    ensures order { O.counts → E.tells → OutFirst (E.written err.old) (E.written err.new)
        (O.flushed out.new)
        (O.number out.new) }
    ensures cause { BothCause result (O.faults out.old) (O.faults out.new) (E.faults err.old)
        (E.faults err.new) }
{
    flush(out)?;
    write_last(err, text.as_bytes())
}

/// Flushes both outputs if output is pending and the next piece may have to wait for input.
pub(crate) fn flush_before_wait<O: Sink, E: Sink>(
    pending: &mut bool,
    ready: bool,
    out: &mut O,
    err: &mut E,
) -> Result<(), WriteFault>
    ensures out { O.tells → O.written out.new ≡ O.written out.old }
    ensures err { E.tells → E.written err.new ≡ E.written err.old }
    ensures number { O.counts → O.number out.new ≡ O.number out.old }
    ensures out_flushed { O.counts → OnOk result (ready ≡ false → pending.old ≡ true
        → O.flushed out.new ≡ O.number out.new) }
    ensures err_flushed { E.counts → OnOk result (ready ≡ false → pending.old ≡ true
        → E.flushed err.new ≡ E.number err.new) }
    ensures stays { ready ≡ true → pending.new ≡ pending.old }
    ensures cause { BothCause result (O.faults out.old) (O.faults out.new) (E.faults err.old)
        (E.faults err.new) }
{
    if !*pending || ready {
        return Ok(());
    }
    *pending = false;
    flush_both(out, err)
}

/// Returns the message about a line of an input. `text` says what is wrong with the line.
#[tactic(auto, unfolding(crate::specs::Lines::line_message))]
pub fn line_message(
    alloc: Global,
    tool: Tool,
    file: &str,
    number: u64,
    text: &str,
) -> Result<String, NoMemory>
    ensures { IfOk result (λ line. string_bytes line ≡ line_message tool file.now number text.now) }
{
    let tool = tool.name();
    format!(in alloc; "{tool}: {file}:{number}: {text}\n")
}

/// Returns the message about an input. `text` says what is wrong with the input.
#[tactic(auto, unfolding(crate::specs::Lines::input_message))]
pub fn input_message(alloc: Global, tool: Tool, file: &str, text: &str) -> Result<String, NoMemory>
    ensures { IfOk result (λ line. string_bytes line ≡ input_message tool file.now text.now) }
{
    let tool = tool.name();
    format!(in alloc; "{tool}: {file}: {text}\n")
}

/// Returns the message from `rosie` about a line of an input.
pub fn line_fault(alloc: Global, file: &str, number: u64, text: &str) -> Result<String, NoMemory>
    ensures { IfOk result (λ line. string_bytes line ≡ line_fault file.now number text.now) }
{
    line_message(alloc, Tool::Rosie, file, number, text)
}

/// Returns the message from `rosie` about an input.
pub fn input_fault(alloc: Global, file: &str, text: &str) -> Result<String, NoMemory>
    ensures { IfOk result (λ line. string_bytes line ≡ input_fault file.now text.now) }
{
    input_message(alloc, Tool::Rosie, file, text)
}

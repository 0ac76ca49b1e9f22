// The text of one instruction.
ghost use Rattle.std.specs.Prelude.{◌≡◌, ◌++◌, [], OnOk, decimal, slice_index_or};
ghost use Rattle.std.specs.Prelude.{string_bytes};
ghost use Rattle.std.specs.Str.{encode_utf8_all};
ghost use Rattle.rpl_core.specs.Numbers.{instr_of};
ghost use Rattle.rpl_core.specs.Program.{labels_of, sets_of};
ghost use Rattle.rpl_print.specs.Sets.{set_text};
ghost use Rattle.rosie_inspect.specs.Listing.{instr_text};

use crate::kept_set::KeptSet;
use rpl_core::{Instr, NoMemory, Program};
use rpl_print::{push_decimal, push_quoted};

/// Appends the text of an instruction of a program.
pub(crate) fn push_instr(
    out: &mut String,
    kept: &mut KeptSet,
    program: &Program,
    instr: Instr,
) -> Result<(), NoMemory>
    ensures { let written = instr_text (instr_of (sets_of program.now) (labels_of program.now)
        instr) in
        OnOk result (string_bytes out.new ≡ string_bytes out.old ++ written) }
{
    match instr {
        Instr::Set(set) => push_with_set(out, kept, "set ", program, set),
        Instr::Span(set) => push_with_set(out, kept, "span ", program, set),
        Instr::TestSet(to, set) => {
            push_numbered(out, "testset ", to)?;
            push_with_set(out, kept, " ", program, set)
        }
        Instr::Choice(to) => push_numbered(out, "choice ", to),
        Instr::Commit(to) => push_numbered(out, "commit ", to),
        Instr::PartialCommit(to) => push_numbered(out, "partialcommit ", to),
        Instr::BackCommit(to) => push_numbered(out, "backcommit ", to),
        Instr::Back(count) => push_numbered(out, "back ", count),
        Instr::Meet(to) => push_numbered(out, "meet ", to),
        Instr::Call(to) => push_numbered(out, "call ", to),
        Instr::Open(label) => {
            out.push_str("open ")?;
            out.push_str(label_of(program, label))
        }
        Instr::Note(text) => {
            out.push_str("note ")?;
            push_quoted(out, label_of(program, text))
        }
        Instr::Start => out.push_str("start"),
        Instr::End => out.push_str("end"),
        Instr::FailTwice => out.push_str("failtwice"),
        Instr::Fail => out.push_str("fail"),
        Instr::Return => out.push_str("return"),
        Instr::Close => out.push_str("close"),
        Instr::Finish => out.push_str("finish"),
        Instr::Halt => out.push_str("halt"),
    }
}

/// Appends a word and a number.
fn push_numbered(out: &mut String, word: &str, number: u32) -> Result<(), NoMemory>
    ensures { OnOk result (string_bytes out.new ≡ string_bytes out.old
        ++ (word.now ++ decimal number)) }
{
    out.push_str(word)?;
    push_decimal(out, number as u64)
}

/// Appends a word and the set with this number.
fn push_with_set(
    out: &mut String,
    kept: &mut KeptSet,
    word: &str,
    program: &Program,
    number: u32,
) -> Result<(), NoMemory>
    ensures { let set = slice_index_or (sets_of program.now) number [] in
        OnOk result (string_bytes out.new ≡ string_bytes out.old ++ (word.now ++ set_text set)) }
{
    out.push_str(word)?;
    match program.set(number) {
        Some(set) => {
            kept.push(out, set)?;
            Ok(())
        }
        None => out.push_str("none"),
    }
}

/// Returns the text that the program refers to by this number.
fn label_of(program: &Program, number: u32) -> &str
    ensures { result.now ≡ encode_utf8_all (slice_index_or (labels_of program.now) number []) }
{
    program.label(number).unwrap_or("")
}

// Writes the spelling of each part of a file, and of the whole file.
ghost use Rattle.std.specs.Prelude.{◌≡◌, [], ◌∷◌, ◌++◌, ◌<◌, ◌^◌, OnOk, IfOk, chars, length};
ghost use Rattle.std.specs.List.{All, flat_map};
ghost use Rattle.rpl_codefile.specs.Spelling.{FitsFile, FitsSet, FitsText, Short, ShortRange};
ghost use Rattle.rpl_codefile.specs.Spelling.{counted, file_of, instr};
ghost use Rattle.rpl_codefile.specs.Spelling.{magic, number, range, set, spelling, text};

use rosie_io::Bytes;
use rpl_classes::Set;
use rpl_core::{Instr, Instrs, Labels, NoMemory, Sets};
use rpl_text::Chars;
use std::alloc::Global;

/// Appends a number as four big-endian bytes.
fn put_number(out: &mut Bytes, n: u32) -> Result<(), NoMemory>
    ensures short { n < 2 ^ 32 }
    ensures bytes { OnOk result (out.new ≡ out.old ++ number n) }
{
    out.extend_from_slice(&n.to_be_bytes())
}

/// Appends an instruction with one operand.
fn put_one(out: &mut Bytes, byte: u8, n: u32) -> Result<(), NoMemory>
    ensures short { n < 2 ^ 32 }
    ensures bytes { OnOk result (out.new ≡ out.old ++ byte ∷ number n) }
{
    out.push(byte)?;
    put_number(out, n)
}

/// Appends an instruction without operands.
fn put_bare(out: &mut Bytes, byte: u8) -> Result<(), NoMemory>
    ensures { OnOk result (out.new ≡ out.old ++ byte ∷ []) }
{
    out.push(byte)
}

/// Appends an instruction: its byte, then its operands in the order in which they are printed.
fn put_instr(out: &mut Bytes, item: Instr) -> Result<(), NoMemory>
    ensures short { OnOk result (Short item) }
    ensures bytes { OnOk result (out.new ≡ out.old ++ instr item) }
{
    match item {
        Instr::Set(set) => put_one(out, 0x01, set),
        Instr::Start => put_bare(out, 0x02),
        Instr::End => put_bare(out, 0x03),
        Instr::Choice(to) => put_one(out, 0x04, to),
        Instr::Commit(to) => put_one(out, 0x05, to),
        Instr::FailTwice => put_bare(out, 0x06),
        Instr::BackCommit(to) => put_one(out, 0x07, to),
        Instr::Fail => put_bare(out, 0x08),
        Instr::Back(length) => put_one(out, 0x09, length),
        Instr::Meet(to) => put_one(out, 0x0a, to),
        Instr::Call(to) => put_one(out, 0x0b, to),
        Instr::Return => put_bare(out, 0x0c),
        Instr::Open(label) => put_one(out, 0x0d, label),
        Instr::Close => put_bare(out, 0x0e),
        Instr::Note(text) => put_one(out, 0x0f, text),
        Instr::Finish => put_bare(out, 0x10),
        Instr::PartialCommit(to) => put_one(out, 0x11, to),
        Instr::Span(set) => put_one(out, 0x12, set),
        Instr::TestSet(to, set) => {
            put_one(out, 0x13, to)?;
            put_number(out, set)
        }
        Instr::Halt => put_bare(out, 0x14),
    }
}

/// Appends a range: its lowest and its highest value.
fn put_range(out: &mut Bytes, item: (u32, u32)) -> Result<(), NoMemory>
    ensures short { OnOk result (ShortRange item) }
    ensures bytes { OnOk result (out.new ≡ out.old ++ range item) }
{
    put_number(out, item.0)?;
    put_number(out, item.1)
}

/// Appends ranges.
fn put_ranges(out: &mut Bytes, ranges: &[(u32, u32)]) -> Result<(), NoMemory>
    ensures short { OnOk result (All ShortRange ranges.now) }
    ensures bytes { OnOk result (out.new ≡ out.old ++ flat_map range ranges.now) }
{
    for item in ranges {
        put_range(out, *item)?;
    }
    Ok(())
}

/// Appends a set: the number of its ranges, and then each range. A set never has more ranges than
/// there are characters.
fn put_set(out: &mut Bytes, item: &Set) -> Result<(), NoMemory>
    ensures fits { OnOk result (FitsSet item.now) }
    ensures bytes { OnOk result (out.new ≡ out.old ++ set item.now) }
{
    let ranges = item.ranges();
    put_number(out, ranges.len() as u32)?;
    put_ranges(out, ranges)
}

/// Appends the number of bytes as eight big-endian bytes, followed by the bytes themselves.
fn put_bytes(out: &mut Bytes, bytes: &[u8]) -> Result<(), NoMemory>
    ensures short { OnOk result (length bytes.now < 2 ^ 64) }
    ensures bytes { OnOk result (out.new ≡ out.old ++ counted bytes.now) }
{
    out.extend_from_slice(&(bytes.len() as u64).to_be_bytes())?;
    out.extend_from_slice(bytes)
}

/// Appends a text in UTF-8.
fn put_text(out: &mut Bytes, item: &str) -> Result<(), NoMemory>
    ensures fits { OnOk result (FitsText (chars item.now)) }
    ensures bytes { OnOk result (out.new ≡ out.old ++ text (chars item.now)) }
{
    put_bytes(out, item.as_bytes())
}

/// Appends sets.
fn put_sets(out: &mut Bytes, sets: &[Set]) -> Result<(), NoMemory>
    ensures fits { OnOk result (All FitsSet sets.now) }
    ensures bytes { OnOk result (out.new ≡ out.old ++ flat_map set sets.now) }
{
    for item in sets {
        put_set(out, item)?;
    }
    Ok(())
}

/// Appends texts.
fn put_texts(out: &mut Bytes, texts: &[Chars]) -> Result<(), NoMemory>
    ensures fits { OnOk result (All FitsText texts.now) }
    ensures bytes { OnOk result (out.new ≡ out.old ++ flat_map text texts.now) }
{
    for item in texts {
        put_text(out, item.as_str())?;
    }
    Ok(())
}

/// Appends instructions.
fn put_instrs(out: &mut Bytes, code: &[Instr]) -> Result<(), NoMemory>
    ensures short { OnOk result (All Short code.now) }
    ensures bytes { OnOk result (out.new ≡ out.old ++ flat_map instr code.now) }
{
    for item in code {
        put_instr(out, *item)?;
    }
    Ok(())
}

/// Appends the eight bytes that every file begins with.
fn put_magic(out: &mut Bytes) -> Result<(), NoMemory>
    ensures { OnOk result (out.new ≡ out.old ++ magic) }
{
    out.extend_from_slice(b"RPLCODE1")
}

/// Returns the spelling of these parts.
pub(crate) fn write_parts(
    alloc: Global,
    code: &Instrs,
    sets: &Sets,
    texts: &Labels,
) -> Result<Bytes, NoMemory>
    requires code_few { length code.now < 2 ^ 32 }
    requires sets_few { length sets.now < 2 ^ 32 }
    requires texts_few { length texts.now < 2 ^ 32 }
    ensures fits { OnOk result (FitsFile (file_of code.now sets.now texts.now)) }
    ensures bytes { IfOk result (λ bytes. bytes ≡ spelling (file_of code.now sets.now texts.now)) }
{
    let mut out = Bytes::new(alloc);
    put_magic(&mut out)?;
    put_number(&mut out, sets.len() as u32)?;
    put_sets(&mut out, sets.as_slice())?;
    put_number(&mut out, texts.len() as u32)?;
    put_texts(&mut out, texts.as_slice())?;
    put_number(&mut out, code.len() as u32)?;
    put_instrs(&mut out, code.as_slice())?;
    Ok(out)
}

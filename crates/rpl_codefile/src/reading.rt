// Reads a file from left to right. Some bytes are read without a fault although they aren't a
// spelling, so the caller writes the result out again and compares the bytes.
ghost use Rattle.std.specs.Prelude.{◌≡◌};
ghost use Rattle.std.specs.Int.{w32, w64};
ghost use Rattle.rpl_codefile.specs.Spelling.{file_of};
ghost use Rattle.rpl_codefile.specs.inside.Reading.{Gives, bare, file_at, instr_at, items_at};
ghost use Rattle.rpl_codefile.specs.inside.Reading.{number_at, one_at};
ghost use Rattle.rpl_codefile.specs.inside.Reading.{range_at, set_at, text_at, two_at, with_number};

use crate::fault::CodeFault;
use rpl_classes::Set;
use rpl_core::{Instr, Instrs, Labels, Sets};
use rpl_text::Chars;
use std::alloc::Global;

/// Reads a four-byte big-endian number. Returns the number and the bytes after it.
fn u32_at(bytes: &[u8]) -> Result<(u32, &[u8]), CodeFault>
    ensures { Gives (λ x. (x.0, x.1.now)) result (number_at w32 bytes.now) }
{
    if bytes.len() < 4 {
        return Err(CodeFault::NotCode);
    }
    let (front, rest) = bytes.split_at(4);
    let number = u32::from_be_bytes([front[0], front[1], front[2], front[3]]);
    Ok((number, rest))
}

/// Reads an eight-byte big-endian number. Returns the number and the bytes after it.
fn u64_at(bytes: &[u8]) -> Result<(u64, &[u8]), CodeFault>
    ensures { Gives (λ x. (x.0, x.1.now)) result (number_at w64 bytes.now) }
{
    if bytes.len() < 8 {
        return Err(CodeFault::NotCode);
    }
    let (front, rest) = bytes.split_at(8);
    let number = u64::from_be_bytes([
        front[0], front[1], front[2], front[3], front[4], front[5], front[6], front[7],
    ]);
    Ok((number, rest))
}

/// If this byte encodes an instruction without operands, returns that instruction.
fn bare_of(byte: u8) -> Option<Instr>
    ensures { result ≡ bare byte }
{
    match byte {
        0x02 => Some(Instr::Start),
        0x03 => Some(Instr::End),
        0x06 => Some(Instr::FailTwice),
        0x08 => Some(Instr::Fail),
        0x0c => Some(Instr::Return),
        0x0e => Some(Instr::Close),
        0x10 => Some(Instr::Finish),
        0x14 => Some(Instr::Halt),
        _ => None,
    }
}

/// If this byte encodes an instruction with one operand, returns that instruction with the operand
/// `n`.
fn one_of(byte: u8, n: u32) -> Option<Instr>
    ensures { result ≡ with_number byte n }
{
    match byte {
        0x01 => Some(Instr::Set(n)),
        0x04 => Some(Instr::Choice(n)),
        0x05 => Some(Instr::Commit(n)),
        0x07 => Some(Instr::BackCommit(n)),
        0x09 => Some(Instr::Back(n)),
        0x0a => Some(Instr::Meet(n)),
        0x0b => Some(Instr::Call(n)),
        0x0d => Some(Instr::Open(n)),
        0x0f => Some(Instr::Note(n)),
        0x11 => Some(Instr::PartialCommit(n)),
        0x12 => Some(Instr::Span(n)),
        _ => None,
    }
}

/// Reads the rest of an instruction that begins with `byte` and has one operand.
fn read_one(byte: u8, bytes: &[u8]) -> Result<(Instr, &[u8]), CodeFault>
    ensures { Gives (λ x. (x.0, x.1.now)) result (one_at byte bytes.now) }
{
    let (number, rest) = u32_at(bytes)?;
    match one_of(byte, number) {
        Some(instr) => Ok((instr, rest)),
        None => Err(CodeFault::NotCode),
    }
}

/// Reads the rest of `testset`, which has two operands.
fn read_two(bytes: &[u8]) -> Result<(Instr, &[u8]), CodeFault>
    ensures { Gives (λ x. (x.0, x.1.now)) result (two_at bytes.now) }
{
    let (to, rest) = u32_at(bytes)?;
    let (set, rest) = u32_at(rest)?;
    Ok((Instr::TestSet(to, set), rest))
}

/// Reads an instruction.
#[tactic(auto, unfolding(crate::specs::inside::Reading::instr_at))]
fn read_instr(bytes: &[u8]) -> Result<(Instr, &[u8]), CodeFault>
    ensures { Gives (λ x. (x.0, x.1.now)) result (instr_at bytes.now) }
{
    match bytes {
        [] => Err(CodeFault::NotCode),
        [byte, rest @ ..] => match bare_of(*byte) {
            Some(instr) => Ok((instr, rest)),
            None => {
                if *byte == 0x13 {
                    read_two(rest)
                } else {
                    read_one(*byte, rest)
                }
            }
        },
    }
}

/// Reads a range.
#[tactic(auto, unfolding(crate::specs::inside::Reading::range_at))]
fn read_range(bytes: &[u8]) -> Result<((u32, u32), &[u8]), CodeFault>
    ensures { Gives (λ x. (x.0, x.1.now)) result (range_at bytes.now) }
{
    let (low, rest) = u32_at(bytes)?;
    let (high, rest) = u32_at(rest)?;
    Ok(((low, high), rest))
}

/// Reads `count` ranges.
fn read_ranges(
    alloc: Global,
    count: u32,
    bytes: &[u8],
) -> Result<(Vec<(u32, u32)>, &[u8]), CodeFault>
    ensures { Gives (λ x. (x.0.items, x.1.now)) result (items_at range_at count bytes.now) }
{
    let mut ranges = Vec::new(alloc);
    let mut rest = bytes;
    for _ in 0..count {
        let (range, after) = read_range(rest)?;
        ranges.push(range)?;
        rest = after;
    }
    Ok((ranges, rest))
}

/// Reads a set and puts it into normal form, however its ranges are written.
#[tactic(auto, unfolding(crate::specs::inside::Reading::set_at))]
fn read_set(alloc: Global, bytes: &[u8]) -> Result<(Set, &[u8]), CodeFault>
    ensures { Gives (λ x. (x.0, x.1.now)) result (set_at bytes.now) }
{
    let (count, rest) = u32_at(bytes)?;
    let (ranges, rest) = read_ranges(alloc, count, rest)?;
    let set = Set::from_ranges(alloc, &ranges)?;
    Ok((set, rest))
}

/// Reads `count` sets.
fn read_sets(alloc: Global, count: u32, bytes: &[u8]) -> Result<(Sets, &[u8]), CodeFault>
    ensures { Gives (λ x. (x.0, x.1.now)) result (items_at set_at count bytes.now) }
{
    let mut sets = Sets::new(alloc);
    let mut rest = bytes;
    for _ in 0..count {
        let (set, after) = read_set(alloc, rest)?;
        sets.push(set)?;
        rest = after;
    }
    Ok((sets, rest))
}

/// Reads a text.
#[tactic(auto, unfolding(crate::specs::inside::Reading::text_at))]
fn read_text(alloc: Global, bytes: &[u8]) -> Result<(Chars, &[u8]), CodeFault>
    ensures { Gives (λ x. (x.0, x.1.now)) result (text_at bytes.now) }
{
    let (len, rest) = u64_at(bytes)?;
    let len = len as usize;
    if rest.len() < len {
        return Err(CodeFault::NotCode);
    }
    let (text, rest) = rest.split_at(len);
    match std::str::from_utf8(text) {
        Ok(text) => Ok((Chars::from_str(alloc, text)?, rest)),
        Err(_) => Err(CodeFault::NotCode),
    }
}

/// Reads `count` texts.
fn read_texts(alloc: Global, count: u32, bytes: &[u8]) -> Result<(Labels, &[u8]), CodeFault>
    ensures { Gives (λ x. (x.0, x.1.now)) result (items_at text_at count bytes.now) }
{
    let mut texts = Labels::new(alloc);
    let mut rest = bytes;
    for _ in 0..count {
        let (text, after) = read_text(alloc, rest)?;
        texts.push(text)?;
        rest = after;
    }
    Ok((texts, rest))
}

/// Reads `count` instructions.
fn read_instrs(alloc: Global, count: u32, bytes: &[u8]) -> Result<(Instrs, &[u8]), CodeFault>
    ensures { Gives (λ x. (x.0, x.1.now)) result (items_at instr_at count bytes.now) }
{
    let mut instrs = Instrs::new(alloc);
    let mut rest = bytes;
    for _ in 0..count {
        let (instr, after) = read_instr(rest)?;
        instrs.push(instr)?;
        rest = after;
    }
    Ok((instrs, rest))
}

/// Reads the bytes of a code file after the first eight.
#[tactic(auto, unfolding(crate::specs::inside::Reading::file_at))]
pub(crate) fn read_file(alloc: Global, bytes: &[u8]) -> Result<(Instrs, Sets, Labels), CodeFault>
    ensures { Gives (λ x. file_of x.0 x.1 x.2) result (file_at bytes.now) }
{
    let (count, rest) = u32_at(bytes)?;
    let (sets, rest) = read_sets(alloc, count, rest)?;
    let (count, rest) = u32_at(rest)?;
    let (texts, rest) = read_texts(alloc, count, rest)?;
    let (count, rest) = u32_at(rest)?;
    let (code, _rest) = read_instrs(alloc, count, rest)?;
    Ok((code, sets, texts))
}

// Checks that the tables of a file contain exactly what the code in the file uses, each item once
// and in the order of first use. No hashes are used, since a malicious file could be built to
// defeat them.
ghost use Rattle.std.specs.Prelude.{◌≡◌, ◌↔◌, IsTrue, IfOk, Some};
ghost use Rattle.rpl_codefile.specs.inside.Tables.{Apart, AreParts, IsOrdered, come, number_in};
ghost use Rattle.rpl_codefile.specs.inside.Tables.{set_number};
ghost use Rattle.rpl_codefile.specs.inside.Tables.{text_number, with_next};

use regex_class::ClassRange;
use rpl_classes::Set;
use rpl_core::{Instr, Instrs, Labels, NoMemory, Program, Sets};
use rpl_text::Chars;
use std::alloc::Global;
use std::collections::BTreeSet;

/// One of the two tables in a file.
#[derive(Clone, Copy)]
pub(crate) enum Table {
    Sets,
    Texts,
}

/// If an instruction refers to a set, returns the number of that set.
fn set_number(item: Instr) -> Option<u32>
    ensures { result ≡ set_number item }
{
    match item {
        Instr::Set(set) | Instr::Span(set) | Instr::TestSet(_, set) => Some(set),
        _ => None,
    }
}

/// If an instruction refers to a text, returns the number of that text.
fn text_number(item: Instr) -> Option<u32>
    ensures { result ≡ text_number item }
{
    match item {
        Instr::Open(text) | Instr::Note(text) => Some(text),
        _ => None,
    }
}

/// If an instruction refers to an entry in this table, returns the number of that entry.
fn number_in(table: Table, item: Instr) -> Option<u32>
    ensures { result ≡ number_in table item }
{
    match table {
        Table::Sets => set_number(item),
        Table::Texts => text_number(item),
    }
}

/// Returns how many different numbers have occurred, including `number` if it is given. Exactly the
/// numbers below `came` must have occurred before `number`. Returns `None` if some number smaller
/// than `number` has not occurred yet.
fn with_next(came: u64, number: Option<u32>) -> Option<u64>
    ensures { result ≡ with_next came number }
{
    match number {
        Some(number) if u64::from(number) > came => None,
        Some(number) if u64::from(number) == came => Some(came + 1),
        _ => Some(came),
    }
}

/// Returns how many entries in the table the code uses, or `None` if their first uses aren't in the
/// order of the table.
fn count_used(table: Table, code: &[Instr]) -> Option<u64>
    ensures { result ≡ come (number_in table) 0 code.now }
{
    let mut came = 0;
    for item in code {
        came = with_next(came, number_in(table, *item))?;
    }
    Some(came)
}

/// Returns whether the code uses all `count` entries of the table, and whether their first uses
/// come in the order of the table.
fn uses_all(table: Table, code: &[Instr], count: usize) -> bool
    ensures { IsTrue result ↔ (come (number_in table) 0 code.now ≡ Some count) }
{
    match count_used(table, code) {
        Some(used) => used == count as u64,
        None => false,
    }
}

/// Returns whether all the sets are distinct.
fn are_sets_apart(alloc: Global, sets: &[Set]) -> Result<bool, NoMemory>
    ensures { IfOk result (λ apart. IsTrue apart ↔ Apart sets.now) }
{
    let mut known: BTreeSet<Vec<ClassRange>> = BTreeSet::new(alloc);
    for set in sets {
        if !known.insert(Vec::from_slice(alloc, set.ranges())?)? {
            return Ok(false);
        }
    }
    Ok(true)
}

/// Returns whether all the texts are distinct.
fn are_texts_apart(alloc: Global, texts: &[Chars]) -> Result<bool, NoMemory>
    ensures { IfOk result (λ apart. IsTrue apart ↔ Apart texts.now) }
{
    let mut known: BTreeSet<String> = BTreeSet::new(alloc);
    for text in texts {
        if !known.insert(String::from_str(alloc, text.as_str())?)? {
            return Ok(false);
        }
    }
    Ok(true)
}

/// Returns whether the number of instructions is at least one and within the limit, all numbers in
/// the code are in range, and the code uses each set and each text and first uses them in the order
/// of the tables.
fn is_ordered(code: &Instrs, sets: &Sets, texts: &Labels) -> bool
    ensures { IsTrue result ↔ IsOrdered code.now sets.now texts.now }
{
    !code.is_empty()
        && code.len() <= 1_048_576
        && Program::are_in_range(code, sets, texts)
        && uses_all(Table::Sets, code.as_slice(), sets.len())
        && uses_all(Table::Texts, code.as_slice(), texts.len())
}

/// Returns whether all the sets are distinct and all the texts are distinct.
fn are_apart(alloc: Global, sets: &Sets, texts: &Labels) -> Result<bool, NoMemory>
    ensures { IfOk result (λ apart. IsTrue apart ↔ Apart sets.now × Apart texts.now) }
{
    Ok(are_sets_apart(alloc, sets.as_slice())? && are_texts_apart(alloc, texts.as_slice())?)
}

/// Returns whether these parts are valid parts of a code file.
pub(crate) fn are_parts(
    alloc: Global,
    code: &Instrs,
    sets: &Sets,
    texts: &Labels,
) -> Result<bool, NoMemory>
    ensures { IfOk result (λ are. IsTrue are ↔ AreParts code.now sets.now texts.now) }
{
    if !is_ordered(code, sets, texts) {
        return Ok(false);
    }
    are_apart(alloc, sets, texts)
}

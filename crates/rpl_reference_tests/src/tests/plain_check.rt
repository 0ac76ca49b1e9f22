// A second check, slow and plain. The rules that may be empty form the least closed set of rules:
// the rules that all closed sets have in common. The same is true of the rules that may halt. To
// find these rules, the check tries every set of rules.
use rpl_check::BehindCause;
use rpl_core::{Peg, Rules};
use std::alloc::{AllocError, Global};

/// The greatest number of rules in a generated table.
const MOST: u32 = 3;

/// A set of rules of a table: for each rule, whether the set contains it.
type Marks = [bool; 3];

/// The fault of a table or a pattern, if there is one. A rule is given by its number, the pattern
/// by `None`.
#[derive(Clone, Copy, PartialEq, Eq)]
pub(crate) enum Verdict {
    Unordered,
    Behind(Option<u32>, BehindCause),
    Left(Marks),
    Loop(Option<u32>),
    Halt(Option<u32>),
    NoCode,
    Fine,
}

/// Every set of rules.
static SETS: [Marks; 8] = [
    [false, false, false],
    [false, false, true],
    [false, true, false],
    [false, true, true],
    [true, false, false],
    [true, false, true],
    [true, true, false],
    [true, true, true],
];

fn has(marks: &Marks, rule: u32) -> bool {
    match marks.get(rule as usize) {
        Some(mark) => *mark,
        None => false,
    }
}

fn both(one: &Marks, other: &Marks) -> Marks {
    [one[0] && other[0], one[1] && other[1], one[2] && other[2]]
}

/// Adds a pattern and all patterns in it, in reading order.
#[cycle(all)]
fn push_all<'a>(peg: &'a Peg, all: &mut Vec<&'a Peg>) -> Result<(), AllocError> {
    all.push(peg)?;
    match peg {
        Peg::Seq(parts) | Peg::Choice(parts) => push_parts(parts.as_slice(), all),
        Peg::Many(body) | Peg::Not(body) | Peg::And(body) => push_all(body, all),
        Peg::Behind { body, .. } | Peg::Capture(_, body) => push_all(body, all),
        Peg::Set(_) | Peg::Call(_) | Peg::Note(_) | Peg::Start | Peg::End | Peg::Halt => Ok(()),
    }
}

#[cycle(all)]
fn push_parts<'a>(parts: &'a [Peg], all: &mut Vec<&'a Peg>) -> Result<(), AllocError> {
    for part in parts {
        push_all(part, all)?;
    }
    Ok(())
}

fn all_in<'a>(alloc: Global, peg: &'a Peg) -> Result<Vec<&'a Peg>, AllocError> {
    let mut all = Vec::new(alloc);
    push_all(peg, &mut all)?;
    Ok(all)
}

/// Returns whether the pattern may succeed without taking a character, assuming that only the
/// marked rules may do so.
#[cycle(empty)]
fn may_be_empty(peg: &Peg, empties: &Marks) -> bool {
    match peg {
        Peg::Set(_) | Peg::Halt => false,
        Peg::Seq(parts) => empty_parts(parts.as_slice(), empties) == parts.as_slice().len(),
        Peg::Choice(parts) => empty_parts(parts.as_slice(), empties) > 0,
        Peg::Call(rule) => has(empties, *rule),
        Peg::Capture(_, body) => may_be_empty(body, empties),
        Peg::Many(_) | Peg::Not(_) | Peg::And(_) | Peg::Behind { .. } => true,
        Peg::Note(_) | Peg::Start | Peg::End => true,
    }
}

/// Returns how many of the parts may be empty.
#[cycle(empty)]
fn empty_parts(parts: &[Peg], empties: &Marks) -> usize {
    let mut count = 0usize;
    for part in parts {
        if may_be_empty(part, empties) {
            count = count.saturating_add(1);
        }
    }
    count
}

/// Marks the rules that the pattern may call before it has taken a character.
#[cycle(here)]
fn mark_called_here(peg: &Peg, empties: &Marks, called: &mut Marks) {
    match peg {
        Peg::Call(rule) => {
            if *rule < MOST {
                called[*rule as usize] = true;
            }
        }
        Peg::Seq(parts) => mark_in_front(parts.as_slice(), empties, called),
        Peg::Choice(parts) => mark_in_each(parts.as_slice(), empties, called),
        Peg::Many(body) | Peg::Not(body) | Peg::And(body) => mark_called_here(
            body, empties, called,
        ),
        Peg::Behind { body, .. } | Peg::Capture(_, body) => mark_called_here(body, empties, called),
        Peg::Set(_) | Peg::Note(_) | Peg::Start | Peg::End | Peg::Halt => {}
    }
}

#[cycle(here)]
fn mark_in_front(parts: &[Peg], empties: &Marks, called: &mut Marks) {
    for part in parts {
        mark_called_here(part, empties, called);
        if !may_be_empty(part, empties) {
            return;
        }
    }
}

#[cycle(here)]
fn mark_in_each(parts: &[Peg], empties: &Marks, called: &mut Marks) {
    for part in parts {
        mark_called_here(part, empties, called);
    }
}

/// A fact about patterns. Whether a fact holds for a pattern depends on the rules for which the
/// fact holds.
#[derive(Clone, Copy)]
enum Fact {
    MayBeEmpty,
    MayHalt,
}

/// Returns whether the fact holds for the pattern, assuming that the marked rules are exactly those
/// for which it holds.
fn has_fact(alloc: Global, fact: Fact, peg: &Peg, marks: &Marks) -> Result<bool, AllocError> {
    match fact {
        Fact::MayBeEmpty => Ok(may_be_empty(peg, marks)),
        Fact::MayHalt => {
            for part in &all_in(alloc, peg)? {
                match part {
                    Peg::Halt => return Ok(true),
                    Peg::Call(rule) => {
                        if has(marks, *rule) {
                            return Ok(true);
                        }
                    }
                    _ => {}
                }
            }
            Ok(false)
        }
    }
}

/// Assumes that the fact holds for exactly the rules in the set, and returns whether the set then
/// contains each rule for whose body the fact holds.
fn is_closed(alloc: Global, fact: Fact, rules: &Rules, marks: &Marks) -> Result<bool, AllocError> {
    for number in 0..MOST {
        if let Some(rule) = rules.get(number) {
            if has_fact(alloc, fact, &rule.body, marks)? && !has(marks, number) {
                return Ok(false);
            }
        }
    }
    Ok(true)
}

/// Returns the rules for which the fact holds: the least closed set.
fn rules_with(alloc: Global, fact: Fact, rules: &Rules) -> Result<Marks, AllocError> {
    let mut least = [true; 3];
    for marks in &SETS {
        if is_closed(alloc, fact, rules, marks)? {
            least = both(&least, marks);
        }
    }
    Ok(least)
}

/// Returns whether the rule reaches itself before it has taken a character. For each rule that is
/// reached, the rules that it calls before it has taken a character are reached too. They are added
/// in three rounds, which are enough for three rules.
fn reaches_itself(rules: &Rules, empties: &Marks, number: u32) -> bool {
    let mut reached = [false; 3];
    if let Some(rule) = rules.get(number) {
        mark_called_here(&rule.body, empties, &mut reached);
    }
    for _ in 0..MOST {
        for other in 0..MOST {
            if has(&reached, other) {
                if let Some(rule) = rules.get(other) {
                    mark_called_here(&rule.body, empties, &mut reached);
                }
            }
        }
    }
    has(&reached, number)
}

/// Returns the fault in the body of a look-behind, if there is one. The body's length isn't
/// checked, since no generated body is longer than 255 characters.
fn cause_of(alloc: Global, body: &Peg) -> Result<Option<BehindCause>, AllocError> {
    let mut repeats = false;
    for part in &all_in(alloc, body)? {
        match part {
            Peg::Call(_) => return Ok(Some(BehindCause::Recursive)),
            Peg::Many(_) => repeats = true,
            _ => {}
        }
    }
    Ok(if repeats {
        Some(BehindCause::Repetition)
    } else {
        None
    })
}

/// Returns the fault of the first invalid look-behind, if there is one.
fn first_cause(alloc: Global, peg: &Peg) -> Result<Option<BehindCause>, AllocError> {
    for part in &all_in(alloc, peg)? {
        if let Peg::Behind { body, .. } = part {
            if let Some(cause) = cause_of(alloc, body)? {
                return Ok(Some(cause));
            }
        }
    }
    Ok(None)
}

/// Returns whether the pattern repeats a body that may be empty.
fn has_empty_loop(alloc: Global, peg: &Peg, empties: &Marks) -> Result<bool, AllocError> {
    for part in &all_in(alloc, peg)? {
        if let Peg::Many(body) = part {
            if may_be_empty(body, empties) {
                return Ok(true);
            }
        }
    }
    Ok(false)
}

/// Returns whether any predicate in the pattern may halt.
fn has_halt_inside(alloc: Global, peg: &Peg, halting: &Marks) -> Result<bool, AllocError> {
    for part in &all_in(alloc, peg)? {
        let halts = match part {
            Peg::Not(body) | Peg::And(body) => has_fact(alloc, Fact::MayHalt, body, halting)?,
            Peg::Behind { body, .. } => has_fact(alloc, Fact::MayHalt, body, halting)?,
            _ => false,
        };
        if halts {
            return Ok(true);
        }
    }
    Ok(false)
}

/// A table, and the rules for which each fact holds.
#[derive(Clone, Copy)]
struct Known<'a> {
    rules: &'a Rules,
    empties: Marks,
    halting: Marks,
}

/// A kind of fault that a rule or a pattern has on its own.
#[derive(Clone, Copy)]
enum Kind {
    Behind,
    Loop,
    Halt,
}

/// Returns the pattern's fault of this kind, if there is one.
fn own_fault(
    alloc: Global,
    known: &Known<'_>,
    kind: Kind,
    peg: &Peg,
    rule: Option<u32>,
) -> Result<Option<Verdict>, AllocError> {
    let (is_bad, fault) = match kind {
        Kind::Behind => {
            return match first_cause(alloc, peg)? {
                Some(cause) => Ok(Some(Verdict::Behind(rule, cause))),
                None => Ok(None),
            };
        }
        Kind::Loop => (
            has_empty_loop(alloc, peg, &known.empties)?,
            Verdict::Loop(rule),
        ),
        Kind::Halt => (
            has_halt_inside(alloc, peg, &known.halting)?,
            Verdict::Halt(rule),
        ),
    };
    Ok(if is_bad { Some(fault) } else { None })
}

/// Returns the first fault of this kind among the rules from `first` up to, but not including,
/// `end`.
fn first_own(
    alloc: Global,
    known: &Known<'_>,
    kind: Kind,
    first: u32,
    end: u32,
) -> Result<Option<Verdict>, AllocError> {
    for number in first..end {
        if let Some(rule) = known.rules.get(number) {
            let fault = own_fault(alloc, known, kind, &rule.body, Some(number))?;
            if fault.is_some() {
                return Ok(fault);
            }
        }
    }
    Ok(None)
}

/// Returns the fault that names the rules that reach themselves before they take a character, if
/// there are any.
fn left_fault(known: &Known<'_>, first: u32, end: u32) -> Option<Verdict> {
    let mut marks = [false; 3];
    for number in first..end {
        if number < MOST && reaches_itself(known.rules, &known.empties, number) {
            marks[number as usize] = true;
        }
    }
    if marks == [false; 3] {
        return None;
    }
    Some(Verdict::Left(marks))
}

/// Returns the first fault of the rules of a block, or of a rule outside blocks.
fn group_fault(
    alloc: Global,
    known: &Known<'_>,
    first: u32,
    end: u32,
) -> Result<Option<Verdict>, AllocError> {
    let behind = first_own(alloc, known, Kind::Behind, first, end)?;
    if behind.is_some() {
        return Ok(behind);
    }
    let left = left_fault(known, first, end);
    if left.is_some() {
        return Ok(left);
    }
    let empty_loop = first_own(alloc, known, Kind::Loop, first, end)?;
    if empty_loop.is_some() {
        return Ok(empty_loop);
    }
    first_own(alloc, known, Kind::Halt, first, end)
}

fn block_of(rules: &Rules, number: u32) -> Option<u32> {
    match rules.get(number) {
        Some(rule) => rule.block,
        None => None,
    }
}

fn share_block(rules: &Rules, one: u32, other: u32) -> bool {
    match (block_of(rules, one), block_of(rules, other)) {
        (Some(block), Some(other)) => block == other,
        _ => false,
    }
}

/// Returns whether the rule calls only earlier rules and rules of its block.
fn calls_back(alloc: Global, rules: &Rules, number: u32) -> Result<bool, AllocError> {
    let Some(rule) = rules.get(number) else {
        return Ok(true);
    };
    for part in &all_in(alloc, &rule.body)? {
        if let Peg::Call(other) = part {
            if *other >= number && !share_block(rules, number, *other) {
                return Ok(false);
            }
        }
    }
    Ok(true)
}

/// Returns whether the rules of each block are next to each other, and call only earlier rules
/// and those of their block.
fn is_in_order(alloc: Global, rules: &Rules) -> Result<bool, AllocError> {
    for number in 0..MOST {
        if !calls_back(alloc, rules, number)? {
            return Ok(false);
        }
    }
    Ok(!share_block(rules, 0, 2) || share_block(rules, 0, 1))
}

/// Returns the first fault of the table.
fn table_fault(alloc: Global, known: &Known<'_>) -> Result<Option<Verdict>, AllocError> {
    let mut first = 0;
    for end in 1..MOST + 1 {
        if !share_block(known.rules, end - 1, end) {
            let fault = group_fault(alloc, known, first, end)?;
            if fault.is_some() {
                return Ok(fault);
            }
            first = end;
        }
    }
    Ok(None)
}

/// Returns the verdict on the table, or, if the table has no fault, on the pattern.
pub(crate) fn verdict_on(alloc: Global, rules: &Rules, goal: &Peg) -> Result<Verdict, AllocError> {
    if !is_in_order(alloc, rules)? {
        return Ok(Verdict::Unordered);
    }
    let known = Known {
        rules,
        empties: rules_with(alloc, Fact::MayBeEmpty, rules)?,
        halting: rules_with(alloc, Fact::MayHalt, rules)?,
    };
    if let Some(fault) = table_fault(alloc, &known)? {
        return Ok(fault);
    }
    for kind in &[Kind::Behind, Kind::Loop, Kind::Halt] {
        if let Some(fault) = own_fault(alloc, &known, *kind, goal, None)? {
            return Ok(fault);
        }
    }
    Ok(Verdict::Fine)
}

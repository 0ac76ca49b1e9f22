// Generated goals, rules and texts. A pattern is built from templates, in which each word comes
// after its parts: `S` is a set, `P` the pattern built last, and `C` a call of a rule. An entry
// that appears more than once in a table is chosen more often.
//
// A goal that `make` returns has a meaning on every text. A repeated body contains a set that it
// can't skip, so each iteration takes a character. A rule begins with a set, so recursion ends. No
// predicate contains a halt, since all predicates are leaves if there are halts. One text in nine
// is long; its goal calls no rule, since a rule that calls itself in two ways can take twice as
// many steps for each further character. In a goal that `make_wild` returns, anything may be wrong,
// even the order of the table.
use crate::tests::names::is_new;
use rand::RngExt;
use rand::seq::IndexedRandom;
use rand_pcg::Pcg32;
use rpl_classes::Set;
use rpl_core::{Peg, Pegs, Rule, Rules};
use rpl_text::Chars;
use std::alloc::{AllocError, Global};

/// The sets, each given by its first and its last character.
static SETS: [[char; 2]; 10] = [
    ['a', 'a'],
    ['a', 'a'],
    ['b', 'b'],
    ['b', 'b'],
    ['c', 'c'],
    ['\u{e9}', '\u{e9}'],
    ['a', 'b'],
    ['b', 'c'],
    ['a', '\u{e9}'],
    ['\u{e9}', '\u{1f642}'],
];

/// The letters of the short texts.
static LETTERS: [&str; 5] = ["a", "a", "b", "c", "\u{e9}"];

/// The letters of the long texts, each of one to four bytes.
static WIDE_LETTERS: [&str; 6] = ["a", "b", "c", "\u{e9}", "\u{20ac}", "\u{1f642}"];

/// Patterns without parts.
static LEAVES: [&str; 16] = [
    "S",
    "S",
    "S",
    "C",
    "C",
    "C",
    "start",
    "end",
    "seq0",
    "note",
    "S many",
    "S not",
    "S S choice2 and",
    "S behind:1:1",
    "S S seq2 S choice2 behind:1:2",
    "S S seq2 behind:0:3",
];

/// Patterns around one part.
static WRAPS: [&str; 9] = [
    "P cap:x",
    "P cap:y",
    "S P seq2",
    "P S seq2",
    "S P choice2",
    "P S choice2",
    "S P seq2 many",
    "S P seq2 S choice2 many",
    "P seq0 choice2",
];

/// Patterns of two parts.
static JOINS: [&str; 6] = [
    "P P seq2",
    "P P seq2",
    "P P choice2",
    "P S P seq3",
    "P P S choice3",
    "P P seq2 C choice2",
];

/// Patterns that look ahead. The last one searches for what its second part matches.
static PREDICATES: [&str; 5] = [
    "P not",
    "P and",
    "P not not",
    "P not S seq2",
    "P not any seq2 many P seq2",
];

/// Templates for goals that search for a part, a set, or a text between two parts.
static SEARCHES: [&str; 4] = [
    "P not any seq2 many P seq2",
    "S not any seq2 many P seq2 cap:*",
    "S S S choice3 not any seq2 many P seq2",
    "P P choice2 not any seq2 many S cap:x seq2",
];

/// Patterns that end the match.
static HALTS: [&str; 4] = [
    "halt",
    "S halt seq2",
    "P halt seq2",
    "S halt seq2 P choice2",
];

/// Templates for the body of a rule.
static RULES: [&str; 3] = ["S P seq2", "S P seq2 S choice2", "S P seq2 cap:r"];

/// Templates for a goal.
static GOALS: [&str; 4] = ["P", "P cap:*", "C P choice2 cap:*", "P C seq2 cap:*"];

/// Patterns that the check may refuse.
static WILD: [&str; 14] = [
    "P many",
    "S P seq2 many",
    "C P seq2",
    "C",
    "P C seq2",
    "P C choice2",
    "seq0 P choice2",
    "S many P seq2",
    "P S choice2",
    "P behind:0:2",
    "P not",
    "P and P choice2",
    "P halt seq2",
    "S P seq2 cap:x",
];

/// For each of three rules, the number of its block, counted from 1, or 0 if it is in none. In
/// the last two rows the rules of one block are not next to each other.
static BLOCKS: [[u32; 3]; 8] = [
    [0, 0, 0],
    [1, 1, 1],
    [1, 1, 1],
    [1, 1, 0],
    [0, 1, 1],
    [1, 2, 2],
    [1, 0, 1],
    [1, 2, 1],
];

/// Returns the random generator for goals. Its seed is fixed, so each run generates the same goals.
pub(crate) fn generator() -> Pcg32 {
    Pcg32::new(20_261_127, 0)
}

/// Returns a random word of the list, or the empty word if the list is empty.
fn pick(random: &mut Pcg32, words: &[&'static str]) -> &'static str {
    words.choose(random).copied().unwrap_or("")
}

/// The limits of a goal: how many rules there are, and whether the goal and the rules may halt.
#[derive(Clone, Copy)]
struct Limits {
    rules: u32,
    may_halt: bool,
}

/// A goal with its rules, and a text.
#[derive(Drop)]
pub(crate) struct Made {
    pub(crate) rules: Rules,
    pub(crate) goal: Peg,
    pub(crate) text: String,
}

/// Returns one of the sets in `SETS`, chosen at random.
fn set(alloc: Global, random: &mut Pcg32) -> Result<Peg, AllocError> {
    let ends = SETS.choose(random).unwrap_or(&SETS[0]);
    let low = ends[0];
    let high = ends[1];
    if high < low {
        return Ok(Peg::Start);
    }
    Ok(Peg::Set(Set::range(alloc, low, high)?))
}

/// Returns the set of all characters.
fn any(alloc: Global) -> Result<Peg, AllocError> {
    Ok(Peg::Set(Set::range(alloc, '\0', '\u{10ffff}')?))
}

/// Returns a call of a random rule, or a set if there is no rule.
fn call(alloc: Global, random: &mut Pcg32, limits: Limits) -> Result<Peg, AllocError> {
    if limits.rules == 0 {
        return set(alloc, random);
    }
    Ok(Peg::Call(random.random_range(0..limits.rules)))
}

/// Removes and returns the last pattern. If none is left, returns the empty pattern.
fn last(alloc: Global, stack: &mut Vec<Peg>) -> Peg {
    match stack.pop() {
        Some(peg) => peg,
        None => Peg::Seq(Pegs::new(alloc)),
    }
}

/// Removes and returns the last `count` patterns, in order.
fn last_of(alloc: Global, stack: &mut Vec<Peg>, count: u32) -> Result<Pegs, AllocError> {
    let mut taken = Vec::new(alloc);
    for _ in 0..count {
        taken.push(last(alloc, stack))?;
    }
    let mut parts = Pegs::new(alloc);
    for _ in 0..count {
        parts.push(last(alloc, &mut taken))?;
    }
    Ok(parts)
}

/// Returns the pattern that the word builds around the last pattern.
fn around(alloc: Global, stack: &mut Vec<Peg>, word: &str) -> Result<Peg, AllocError> {
    let body = Box::new(alloc, last(alloc, stack))?;
    if let Some(label) = word.strip_prefix("cap:") {
        return Ok(Peg::Capture(Chars::from_str(alloc, label)?, body));
    }
    let (least, most) = match word {
        "many" => return Ok(Peg::Many(body)),
        "not" => return Ok(Peg::Not(body)),
        "and" => return Ok(Peg::And(body)),
        "behind:1:1" => (1, 1),
        "behind:1:2" => (1, 2),
        "behind:0:2" => (0, 2),
        _ => (0, 3),
    };
    Ok(Peg::Behind { least, most, body })
}

/// Returns the pattern that the word builds from the patterns before it.
fn join(alloc: Global, stack: &mut Vec<Peg>, word: &str) -> Result<Peg, AllocError> {
    match word {
        "start" => Ok(Peg::Start),
        "end" => Ok(Peg::End),
        "halt" => Ok(Peg::Halt),
        "note" => Ok(Peg::Note(Chars::from_str(alloc, "n")?)),
        "seq0" => Ok(Peg::Seq(Pegs::new(alloc))),
        "seq2" => Ok(Peg::Seq(last_of(alloc, stack, 2)?)),
        "seq3" => Ok(Peg::Seq(last_of(alloc, stack, 3)?)),
        "choice2" => Ok(Peg::Choice(last_of(alloc, stack, 2)?)),
        "choice3" => Ok(Peg::Choice(last_of(alloc, stack, 3)?)),
        _ => around(alloc, stack, word),
    }
}

/// Returns the pattern of a template. If no pattern is left for a `P`, a set takes its place.
fn fill(
    alloc: Global,
    random: &mut Pcg32,
    limits: Limits,
    template: &str,
    parts: &mut Vec<Peg>,
) -> Result<Peg, AllocError> {
    let mut stack = Vec::new(alloc);
    for word in template.split_whitespace() {
        let peg = match word {
            "S" => set(alloc, random)?,
            "C" => call(alloc, random, limits)?,
            "any" => any(alloc)?,
            "P" => match parts.pop() {
                Some(part) => part,
                None => set(alloc, random)?,
            },
            _ => join(alloc, &mut stack, word)?,
        };
        stack.push(peg)?;
    }
    Ok(last(alloc, &mut stack))
}

/// Returns a template for the next part.
fn template(random: &mut Pcg32, limits: Limits) -> &'static str {
    match random.random_range(0..10) {
        0..=3 => pick(random, &LEAVES),
        4..=6 => pick(random, &WRAPS),
        7..=8 => pick(random, &JOINS),
        _ => {
            if limits.may_halt {
                pick(random, &HALTS)
            } else {
                pick(random, &PREDICATES)
            }
        }
    }
}

/// Builds some random parts, joins them, and returns the template `last` filled with the result.
fn pattern(
    alloc: Global,
    random: &mut Pcg32,
    limits: Limits,
    last: &str,
) -> Result<Peg, AllocError> {
    let mut parts = Vec::new(alloc);
    for _ in 0..random.random_range(2..9) {
        let template = template(random, limits);
        let part = fill(alloc, random, limits, template, &mut parts)?;
        parts.push(part)?;
    }
    for _ in 1..parts.len() {
        let join = pick(random, &JOINS);
        let part = fill(alloc, random, limits, join, &mut parts)?;
        parts.push(part)?;
    }
    fill(alloc, random, limits, last, &mut parts)
}

/// Adds a rule with this body, unless there are already 100 rules or a rule with the new rule's
/// name.
fn push_rule(
    alloc: Global,
    rules: &mut Rules,
    block: Option<u32>,
    body: Peg,
) -> Result<(), AllocError> {
    let number = rules.len();
    let name = format!(in alloc; "r{number}")?;
    let name = Chars::from_str(alloc, name.as_str())?;
    if number > 99 || !is_new(rules, &name) {
        return Ok(());
    }
    rules.push(Rule { name, block, body })
}

/// Returns a table of random rules. They are all in one block, so that each rule may call every
/// rule.
fn rules(alloc: Global, random: &mut Pcg32, limits: Limits) -> Result<Rules, AllocError> {
    let mut rules = Rules::new(alloc);
    for _ in 0..limits.rules {
        let last = pick(random, &RULES);
        let body = pattern(alloc, random, limits, last)?;
        push_rule(alloc, &mut rules, Some(0), body)?;
    }
    Ok(rules)
}

/// Returns a text of at most six letters.
fn text(alloc: Global, random: &mut Pcg32) -> Result<String, AllocError> {
    let mut text = String::new(alloc);
    for _ in 0..random.random_range(0..7) {
        text.push_str(pick(random, &LETTERS))?;
    }
    Ok(text)
}

/// Returns a text of 40 to 140 letters, in runs of equal letters.
fn long_text(alloc: Global, random: &mut Pcg32) -> Result<String, AllocError> {
    let mut text = String::new(alloc);
    let mut letter = "a";
    for _ in 0..random.random_range(40..141) {
        if random.random_range(0..5) == 0 {
            letter = pick(random, &WIDE_LETTERS);
        }
        text.push_str(letter)?;
    }
    Ok(text)
}

/// Returns the template of the next goal.
fn goal_template(random: &mut Pcg32, limits: Limits) -> &'static str {
    if !limits.may_halt && random.random_range(0..2) == 0 {
        return pick(random, &SEARCHES);
    }
    pick(random, &GOALS)
}

/// Returns the next goal, with its rules and a text.
pub(crate) fn make(alloc: Global, random: &mut Pcg32) -> Result<Made, AllocError> {
    let limits = Limits {
        rules: random.random_range(0..3),
        may_halt: random.random_range(0..3) == 0,
    };
    let rules = rules(alloc, random, limits)?;
    let last = goal_template(random, limits);
    let goal = pattern(alloc, random, limits, last)?;
    let text = if limits.rules == 0 && random.random_range(0..3) == 0 {
        long_text(alloc, random)?
    } else {
        text(alloc, random)?
    };
    Ok(Made { rules, goal, text })
}

/// Returns a pattern in which anything may be wrong.
fn wild_pattern(alloc: Global, random: &mut Pcg32, limits: Limits) -> Result<Peg, AllocError> {
    let mut parts = Vec::new(alloc);
    for _ in 0..random.random_range(0..4) {
        let template = pick(random, &WILD);
        let part = fill(alloc, random, limits, template, &mut parts)?;
        parts.push(part)?;
    }
    let last = pick(random, &WILD);
    fill(alloc, random, limits, last, &mut parts)
}

/// Returns the next goal with up to three rules and a text. The goal and the rules may contain any
/// fault, and the rules may be out of order.
pub(crate) fn make_wild(alloc: Global, random: &mut Pcg32) -> Result<Made, AllocError> {
    let limits = Limits {
        rules: random.random_range(0..4),
        may_halt: true,
    };
    let blocks = BLOCKS.choose(random).unwrap_or(&BLOCKS[0]);
    let mut rules = Rules::new(alloc);
    for number in 0..limits.rules.min(3) {
        let block = blocks[number as usize].checked_sub(1);
        let body = wild_pattern(alloc, random, limits)?;
        push_rule(alloc, &mut rules, block, body)?;
    }
    let goal = wild_pattern(alloc, random, limits)?;
    let text = text(alloc, random)?;
    Ok(Made { rules, goal, text })
}

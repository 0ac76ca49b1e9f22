// The result of a goal: the verdict of the check and the compiler, and the goal's ending on a line
// according to its meaning and to both machines.
ghost use Rattle.std.specs.Prelude.{◌≡◌, ◌<◌};
ghost use Rattle.rpl_machine.specs.Known.{IsMemoOf};

use crate::tests::shown::{show_match, show_outcome, show_plain};
use rpl_check::{CheckFault, check, check_pattern};
use rpl_codegen::compile;
use rpl_core::{Peg, Program, Rules, calls_are_rules, is_in_order};
use rpl_machine::{Answer, Memo, Scratch, Steps, run};
use rpl_reference::{Outcome, Over, evaluate};
use rpl_text::Text;
use std::alloc::{AllocError, Global};
use std::marker::Brand;
use std::sync::ledger::{Blank, Ledger};

/// The greatest number of steps that a run may take.
const BUDGET: u64 = 100_000;

/// The greatest number of calls of rules and iterations of repetitions that may be nested: `DEPTH`
/// on a short text, and `LONG_DEPTH` on a text of up to 140 characters.
const DEPTH: u32 = 40;

const LONG_DEPTH: u32 = 180;

/// An answer as text, and its cost in work or in steps. The text is `open` if no answer is found
/// within the depth limit or the budget.
#[derive(Drop)]
pub(crate) struct Ending {
    pub(crate) shown: String,
    pub(crate) cost: u64,
}

/// Returns the ending that says that no answer was found.
fn open(alloc: Global) -> Result<Ending, AllocError> {
    let shown = String::from_str(alloc, "open")?;
    Ok(Ending { shown, cost: 0 })
}

/// Returns the characters of the line.
fn characters(alloc: Global, line: &str) -> Result<Vec<char>, AllocError> {
    let mut chars = Vec::new(alloc);
    for c in line.chars() {
        chars.push(c)?;
    }
    Ok(chars)
}

/// Returns the ending according to the goal's meaning, with the work as its cost.
pub(crate) fn meant(
    alloc: Global,
    rules: &Rules,
    goal: &Peg,
    line: &str,
) -> Result<Ending, AllocError> {
    let chars = characters(alloc, line)?;
    let over = Over {
        alloc,
        rules,
        text: &chars,
    };
    let depth = if chars.len() < 40 { DEPTH } else { LONG_DEPTH };
    let outcome = evaluate(&over, depth, goal, 0)?;
    let cost = match &outcome {
        Outcome::Open => 0,
        Outcome::Fail { work } | Outcome::At { work, .. } | Outcome::HaltAt { work, .. } => *work,
    };
    let shown = show_outcome(alloc, &outcome)?;
    Ok(Ending { shown, cost })
}

/// The result for a goal over a table. It is the code, the verdict that calls or blocks are out of
/// order, the first fault, or nothing if memory runs out or the code is too long.
#[derive(Drop)]
pub(crate) enum Judged {
    Code(Program),
    Unordered,
    Fault(CheckFault),
    NoCode,
}

/// Returns the verdict of the check and the compiler on a goal.
pub(crate) fn judge(alloc: Global, rules: Rules, goal: Peg) -> Judged {
    if !is_in_order(&rules) {
        return Judged::Unordered;
    }
    let checked = match check(alloc, rules) {
        Ok(checked) => checked,
        Err(fault) => return Judged::Fault(fault),
    };
    if !calls_are_rules(checked.rules(), &goal) {
        return Judged::Unordered;
    }
    let goal = match check_pattern(alloc, &checked, goal) {
        Ok(goal) => goal,
        Err(fault) => return Judged::Fault(fault),
    };
    match compile(alloc, &checked, &goal) {
        Ok(program) => Judged::Code(program),
        Err(_) => Judged::NoCode,
    }
}

/// Returns the ending according to the plain machine, with the number of steps.
pub(crate) fn plain(alloc: Global, program: &Program, line: &str) -> Result<Ending, AllocError> {
    let chars = characters(alloc, line)?;
    let Some(answer) = rpl_reference::run(alloc, program, &chars, BUDGET)? else {
        return open(alloc);
    };
    let cost = match &answer {
        rpl_reference::Answer::Fail { steps } | rpl_reference::Answer::At { steps, .. } => *steps,
    };
    let shown = show_plain(alloc, &answer)?;
    Ok(Ending { shown, cost })
}

/// Returns the answer of the machine, if there is one. The machine's steps are counted in the
/// ledger `L`.
fn answer_on<L: Ledger>(
    program: &Program,
    line: Text<'_>,
    scratch: &mut Scratch,
    blank: Blank,
) -> Option<Answer>
    requires name { blank.name ≡ L.name }
    requires parts { blank.parts ≡ L.parts }
    requires some { 0 < blank.parts }
{
    let mut steps = Steps::<L>::new(blank);
    run(program, line, BUDGET, scratch, &mut steps).ok()
}

/// Returns the answer of the machine, if there is one. The run uses what the memo knows about the
/// program, and adds to it.
fn learned_on<L: Ledger>(
    program: &Program,
    line: Text<'_>,
    memo: &mut Memo,
    scratch: &mut Scratch,
    blank: Blank,
) -> Option<Answer>
    requires name { blank.name ≡ L.name }
    requires parts { blank.parts ≡ L.parts }
    requires some { 0 < blank.parts }
    requires memo { IsMemoOf program.now memo.old }
    ensures { IsMemoOf program.now memo.new }
{
    let mut steps = Steps::<L>::new(blank);
    memo.run(program, line, BUDGET, scratch, &mut steps).ok()
}

/// Returns the ending for the machine's answer. If there is no answer, the ending is `open`.
fn make_ending(
    alloc: Global,
    program: &Program,
    line: &str,
    answer: Option<Answer>,
    scratch: &Scratch,
) -> Result<Ending, AllocError> {
    match answer {
        Some(Answer::At { place, steps }) => {
            let shown = show_match(alloc, program, line, scratch.captures(), place)?;
            Ok(Ending { shown, cost: steps })
        }
        Some(Answer::Fail { steps }) => {
            let shown = String::from_str(alloc, "fail")?;
            Ok(Ending { shown, cost: steps })
        }
        None => open(alloc),
    }
}

/// Returns the ending according to the machine, with the number of steps.
pub(crate) fn real(
    alloc: Global,
    program: &Program,
    line: &str,
    scratch: &mut Scratch,
) -> Result<Ending, AllocError> {
    let answer = answer_on::<Brand>(program, Text::new(line), scratch, Blank::new(1));
    make_ending(alloc, program, line, answer, scratch)
}

/// Returns whether two endings have equal texts and equal costs.
fn is_same(one: &Ending, other: &Ending) -> bool {
    one.cost == other.cost && one.shown.as_str() == other.shown.as_str()
}

/// Returns whether two runs of the machine that share what they learn about the program's searches
/// both have the ending `due`. The first run learns, and the second run uses what the first one
/// learned.
pub(crate) fn is_learned(
    alloc: Global,
    program: &Program,
    line: &str,
    scratch: &mut Scratch,
    due: &Ending,
) -> Result<bool, AllocError> {
    let Ok(mut memo) = Memo::new(alloc) else {
        return Ok(false);
    };
    let answer = learned_on::<Brand>(program, Text::new(line), &mut memo, scratch, Blank::new(1));
    let first = make_ending(alloc, program, line, answer, scratch)?;
    let answer = learned_on::<Brand>(program, Text::new(line), &mut memo, scratch, Blank::new(1));
    let second = make_ending(alloc, program, line, answer, scratch)?;
    Ok(is_same(&first, due) && is_same(&second, due))
}

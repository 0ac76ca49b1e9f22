// Decides the verdict on a test from what was matched in the test's text.
ghost use Rattle.std.specs.Prelude.{◌≡◌, Some, None, nat_lt, not, length, IfOk, if◌then◌else◌};
ghost use Rattle.rpl_core.specs.Captures.{all_named};
ghost use Rattle.rpl_core.specs.Forest as F;
ghost use Rattle.rpl_core.specs.Program.{labels_of};
ghost use Rattle.rpl_encode.specs.Answer.{answer, max_answer_bytes};
ghost use Rattle.rpl_tree.specs.Trees.{trees_in, label_in};
ghost use Rattle.rpl_encode.specs.declared.style.Style.TheVariants.{Json};
ghost use Rattle.rosie_suites.specs.inside.Ready.{AreOfTree, by_found};

use crate::verdict::Verdict;
use rosie_run::NoMemory;
use rpl_core::Program;
use rpl_encode::{AnswerText, EncodeFault, Fronts, Style};
use rpl_machine::Scratch;
use rpl_print::text_of;
use rpl_tree::Forest;
use rpl_unittest::{Test, built_as_one_tree, judge};
use std::alloc::{AllocError, Global};

/// The initial capacity of the machine's lists, in entries.
const ENTRIES: u64 = 65_536;

/// The memory that tests run in. All of it is reused from test to test.
#[derive(Drop)]
pub(crate) struct Tester {
    alloc: Global,
    pub(crate) scratch: Scratch,
    forest: Forest,
    answer: AnswerText,
}

/// Returns the verdict on a test, given whether it passes.
fn met_or_not(met: bool) -> Verdict
    ensures { result ≡ (if met then Verdict.Met else Verdict.Unmet) }
{
    if met { Verdict::Met } else { Verdict::Unmet }
}

/// Returns whether the answer in JSON is within the limit on its length.
fn fits(
    alloc: Global,
    kept: &mut AnswerText,
    text: &str,
    forest: &Forest,
    program: &Program,
) -> Result<bool, NoMemory>
    ensures { let trees = trees_in (labels_of program.now) forest.now in IfOk result (λ fits. fits
        ≡ not (nat_lt max_answer_bytes (length (answer Json text.now (Some trees))))) }
{
    let fronts = Fronts::new(alloc, program)?;
    match kept.fill(Style::Json, text, Some(forest), &fronts) {
        Ok(()) => Ok(true),
        Err(fault) => match fault {
            EncodeFault::AnswerTooLong => Ok(false),
            EncodeFault::NoMemory => Err(AllocError),
        },
    }
}

/// Returns the verdict on a test whose text doesn't match.
pub(crate) fn judge_none(test: &Test, prefix: &str, program: &Program) -> Verdict
    ensures { result ≡ by_found prefix.now test.now None }
{
    met_or_not(judge(test, prefix, None, program))
}

impl Tester {
    pub(crate) fn new(alloc: Global) -> Result<Tester, NoMemory> {
        let mut scratch = Scratch::new(alloc);
        scratch.reserve(ENTRIES)?;
        Ok(Tester {
            alloc,
            scratch,
            forest: Forest::new(alloc),
            answer: AnswerText::new(alloc),
        })
    }

    /// Returns the verdict on a test whose text matched, given the captures of the last run.
    pub(crate) fn judge_match(
        &mut self,
        test: &Test,
        prefix: &str,
        program: &Program,
    ) -> Result<Verdict, NoMemory>
        requires { ∥ AreOfTree (labels_of program.now) self.old.scratch.captures ∥₁ }
        ensures { IfOk result (λ verdict. (f : F.Forest)
            → all_named (label_in (labels_of program.now)) self.old.scratch.captures ≡ F.flat f
            → verdict ≡ by_found prefix.now test.now (Some f)) }
    {
        built_as_one_tree();
        self.forest.fill(self.scratch.captures())?;
        if !fits(
            self.alloc,
            &mut self.answer,
            text_of(&test.text),
            &self.forest,
            program,
        )? {
            return Ok(Verdict::LongAnswer);
        }
        Ok(met_or_not(judge(test, prefix, Some(&self.forest), program)))
    }
}

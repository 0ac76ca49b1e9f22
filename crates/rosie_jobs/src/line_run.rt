//! Runs a program on a line, and prints the answer.

ghost use Rattle.std.specs.Prelude.{◌≡◌, ◌≤◌, ◌^◌, ◌+◌, Some, length, chars};
ghost use Rattle.std.specs.Prelude.{IfOk, OnOk, IsTrue};
ghost use Rattle.std.specs.Str.{IsAscii, IsUtf8};
ghost use Rattle.rpl_core.specs.Forest as F;
ghost use Rattle.rpl_core.specs.Meaning.{Outcome};
ghost use Rattle.rpl_core.specs.Program.{instructions, labels_of};
ghost use Rattle.rpl_machine.specs.Known.{IsRunnerOf, KeepsCaptures};
ghost use Rattle.rosie_jobs.specs.Lines.{budget_of, budget_or, steps_made, ran};
ghost use Rattle.rosie_jobs.specs.inside.Printed.{answer_with, piece_of};
ghost use Rattle.rosie_jobs.specs.inside.Printed.{Catches, HasMade, IsShown, NeedsTrees, Printed};

use crate::texts::{RunEnd, Texts};
use rosie_run::{InputLine, Mark, NoMemory};
use rosie_words::Settings;
use rpl_core::Program;
use rpl_encode::Fronts;
use rpl_machine::{Answer, RunFault, Runner, Scratch, Steps};
use rpl_text::Text;
use std::alloc::{AllocError, Global};
use std::sync::ledger::Ledger;

/// The greatest number of bytes in a line, or in the input if the whole input is one line.
pub const MAX_LINE_BYTES: usize = 16_777_216;

/// The initial capacity of the machine's lists, in entries.
const ENTRIES: u64 = 65_536;

/// Runs a program on one line after another, and prints the matches. All memory is reused from
/// line to line.
#[derive(Drop)]
pub(crate) struct LineRun {
    pub(crate) settings: Settings,
    scratch: Scratch,
    pub(crate) fronts: Fronts,
    pub(crate) texts: Texts,
}

/// Returns the text of a line. The prover knows that the result of a call is valid UTF-8, but
/// doesn't know this about a field.
#[inline(always)]
fn text_of(line: InputLine<'_>) -> &str
    ensures { result.now ≡ line.entry.text.now }
{
    line.text
}

/// Returns the number of characters in a line. If all bytes of the line are known to be ASCII, the
/// number of characters is the number of bytes.
fn characters(line: &str, is_ascii: bool) -> u64
    requires fits { length line.now ≤ 2 ^ 30 }
    requires ascii { IsTrue is_ascii → IsAscii line.now }
    ensures exact { result ≡ length (chars line.now) }
    ensures few { result ≤ length line.now }
{
    if is_ascii {
        return line.len() as u64;
    }
    line.chars().count() as u64
}

/// Returns the number of steps that a line may take: the given number, or, by default, a million
/// plus a thousand for each character in the line. If `is_ascii` is `true`, all bytes of the line
/// must be ASCII.
pub fn budget_or(given: Option<u64>, line: &str, is_ascii: bool) -> u64
    requires fits { length line.now ≤ 2 ^ 30 }
    requires ascii { IsTrue is_ascii → IsAscii line.now }
    ensures { result ≡ budget_or given (chars line.now) }
{
    match given {
        Some(budget) => budget,
        None => 1_000_000 + 1_000 * characters(line, is_ascii),
    }
}

impl LineRun {
    /// Returns the memory for running this program.
    pub(crate) fn new(
        alloc: Global,
        settings: Settings,
        program: &Program,
    ) -> Result<LineRun, NoMemory>
        ensures settings { IfOk result (λ made. made.settings ≡ settings) }
        ensures fronts { IfOk result (λ made. made.fronts ≡ labels_of program.now) }
    {
        let mut scratch = Scratch::new(alloc);
        scratch.reserve(ENTRIES)?;
        Ok(LineRun {
            settings,
            scratch,
            fronts: Fronts::new(alloc, program)?,
            texts: Texts::new(alloc),
        })
    }

    /// Prints the answer of the last run, which matched. Returns whether the answer is within the
    /// limit on its length.
    fn print_match(&mut self, line: &str) -> Result<bool, NoMemory>
        ensures settings { self.new.settings ≡ self.old.settings }
        ensures fronts { self.new.fronts ≡ self.old.fronts }
        ensures printed { IfOk result (λ fits. (f : F.Forest)
            → (NeedsTrees self.old.settings.style
            → Catches self.old.scratch.captures self.old.fronts line.now f)
            → Printed fits (answer_with self.old.settings line.now f) self.new.texts.answer) }
    {
        let style = self.settings.style;
        self.texts
            .print_match(style, line, self.scratch.captures(), &self.fronts)
    }

    /// Runs the program on a line, and makes the line's piece from the outcome. The runner must
    /// keep the captures if the style needs them.
    #[inline(always)]
    pub(crate) fn answer<L: Ledger>(
        &mut self,
        program: &Program,
        runner: &mut Runner,
        line: InputLine<'_>,
        steps: &mut Steps<L>,
    ) -> Result<Mark, NoMemory>
        requires runner { IsRunnerOf program.now runner.old }
        requires captures { NeedsTrees self.old.settings.style → KeepsCaptures runner.old }
        requires fits { length line.text.now ≤ 2 ^ 30 }
        requires ascii { IsTrue line.is_ascii → IsAscii line.text.now }
        requires fronts { self.old.fronts ≡ labels_of program.now }
        ensures runner { IsRunnerOf program.now runner.new }
        ensures captures { KeepsCaptures runner.old → KeepsCaptures runner.new }
        ensures same { self.new.settings ≡ self.old.settings }
        ensures fronts { self.new.fronts ≡ self.old.fronts }
        ensures text { IsUtf8 line.entry.text.now }
        ensures made { let a = ran self.old.settings (instructions program.now) line.entry.text.now
            in (o : Outcome) → IsShown a o → IfOk result
            (λ mark. HasMade mark self.new.texts (piece_of self.old.settings line.entry o a)) }
        ensures steps { OnOk result (steps.new ≡ steps.old + steps_made
            (budget_of self.old.settings (chars line.entry.text.now))
            (ran self.old.settings (instructions program.now) line.entry.text.now)) }
    {
        let settings = self.settings;
        let text = line.text;
        let budget = budget_or(settings.budget, text, line.is_ascii);
        match runner.run(
            program,
            Text::new(text_of(line)),
            budget,
            &mut self.scratch,
            steps,
        ) {
            Ok(answer) => match answer {
                Answer::At { steps, .. } => {
                    let fits = self.print_match(text)?;
                    let end = RunEnd { hit: true, steps };
                    self.texts.say(settings, line, fits, end)
                }
                Answer::Fail { steps } => {
                    let fits = self.texts.print_miss(settings.style, text, &self.fronts)?;
                    let end = RunEnd { hit: false, steps };
                    self.texts.say(settings, line, fits, end)
                }
            },
            Err(fault) => match fault {
                RunFault::Budget => self.texts.fault(line, "budget spent"),
                RunFault::NoMemory => Err(AllocError),
            },
        }
    }
}

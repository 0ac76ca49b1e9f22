//! The two texts of a line's piece.

ghost use Rattle.std.specs.Prelude.{◌≡◌, ◌++◌, ℕ, [], if◌then◌else◌, ◌&&◌, codes};
ghost use Rattle.std.specs.Prelude.{string_bytes};
ghost use Rattle.std.specs.Prelude.{Some, None, IfOk, OnOk};
ghost use Rattle.std.specs.Fmt.{decimal};
ghost use Rattle.rosie_run.specs.Lines.{line_fault};
ghost use Rattle.rpl_encode.specs.Answer.{answer};
ghost use Rattle.rpl_encode.specs.Labels.{Suffice};
ghost use Rattle.rpl_core.specs.Forest.{Forest};
ghost use Rattle.rosie_jobs.specs.Lines.{told, unanswered, said};
ghost use Rattle.rosie_jobs.specs.inside.Printed.{HasMade, Printed};

use rosie_run::{InputLine, Mark, NoMemory, line_fault};
use rosie_words::Settings;
use rpl_core::Caught;
use rpl_encode::{AnswerText, EncodeFault, Fronts, Style};
use std::alloc::{AllocError, Global};

/// The texts for the last line, in memory that is reused from line to line.
#[derive(Drop)]
pub(crate) struct Texts {
    alloc: Global,
    /// The text for `out`.
    pub(crate) answer: AnswerText,
    /// The text for `err`.
    pub(crate) told: String,
}

/// How the machine's run over a line ended.
#[derive(Clone, Copy)]
pub(crate) struct RunEnd {
    /// Whether the line matched.
    pub(crate) hit: bool,
    /// The number of steps that the run took.
    pub(crate) steps: u64,
}

/// Returns the mark of a line that has an answer.
fn mark_of(hit: bool) -> Mark
    ensures { result ≡ (if hit then Mark.Hit else Mark.Miss) }
{
    if hit { Mark::Hit } else { Mark::Miss }
}

impl Texts {
    /// Returns empty texts.
    pub(crate) fn new(alloc: Global) -> Texts {
        Texts {
            alloc,
            answer: AnswerText::new(alloc),
            told: String::new(alloc),
        }
    }

    /// Prints the answer to a line that matched with these captures. Returns whether the answer is
    /// within the limit on its length.
    pub(crate) fn print_match(
        &mut self,
        style: Style,
        line: &str,
        captures: &[Caught],
        fronts: &Fronts,
    ) -> Result<bool, NoMemory>
        ensures { IfOk result (λ fits. (f : Forest) → Suffice style fronts.now captures.now f
            → Printed fits (answer style line.now (Some f)) self.new.answer) }
    {
        match self.answer.fill_match(style, line, captures, fronts) {
            Ok(()) => Ok(true),
            Err(fault) => match fault {
                EncodeFault::AnswerTooLong => Ok(false),
                EncodeFault::NoMemory => Err(AllocError),
            },
        }
    }

    /// Prints the answer to a line that didn't match. Returns whether the answer is within the
    /// limit on its length.
    pub(crate) fn print_miss(
        &mut self,
        style: Style,
        line: &str,
        fronts: &Fronts,
    ) -> Result<bool, NoMemory>
        ensures { IfOk result (λ fits. Printed fits (answer style line.now None) self.new.answer) }
    {
        match self.answer.fill(style, line, None, fronts) {
            Ok(()) => Ok(true),
            Err(fault) => match fault {
                EncodeFault::AnswerTooLong => Ok(false),
                EncodeFault::NoMemory => Err(AllocError),
            },
        }
    }

    /// Reports that a line has no answer, and why.
    #[inline(never)]
    pub(crate) fn fault(&mut self, line: InputLine<'_>, text: &str) -> Result<Mark, NoMemory>
        ensures { (cost : ℕ) →
            IfOk result (λ mark. HasMade mark self.new
            (unanswered (line_fault line.entry.file.now line.entry.number text.now) cost)) }
    {
        self.told = line_fault(self.alloc, line.file, line.number, text)?;
        self.answer = AnswerText::new(self.alloc);
        Ok(Mark::Fault)
    }

    /// Adds the line to the report if `tells` is `true`.
    #[inline(always)]
    fn tell_line(&mut self, line: &str, tells: bool) -> Result<(), NoMemory>
        ensures told { OnOk result (string_bytes self.new.told ≡ string_bytes self.old.told
            ++ (if tells then line.now ++ codes "\n" else [])) }
        ensures answer { self.new.answer ≡ self.old.answer }
    {
        if !tells {
            return Ok(());
        }
        self.told.push_str(line)?;
        self.told.push_str("\n")
    }

    /// Adds the number of steps to the report if `tells` is `true`.
    #[inline(always)]
    fn tell_steps(&mut self, steps: u64, tells: bool) -> Result<(), NoMemory>
        ensures told { OnOk result (string_bytes self.new.told ≡ string_bytes self.old.told
            ++ (if tells then codes "steps " ++ (decimal steps ++ codes "\n") else [])) }
        ensures answer { self.new.answer ≡ self.old.answer }
    {
        if !tells {
            return Ok(());
        }
        let text = format!(in self.alloc; "steps {steps}\n")?;
        self.told.push_str(text.as_str())
    }

    /// Makes the report that is written to `err` along with the answer to a line.
    #[inline(always)]
    fn tell(
        &mut self,
        settings: Settings,
        line: &str,
        hit: bool,
        steps: u64,
    ) -> Result<(), NoMemory>
        ensures told { OnOk result (string_bytes self.new.told ≡ told settings line.now hit steps) }
        ensures answer { self.new.answer ≡ self.old.answer }
    {
        self.told.clear();
        self.tell_line(line, settings.all && !hit)?;
        self.tell_steps(steps, settings.steps)
    }

    /// Completes the texts for a line whose answer has been printed.
    #[inline(always)]
    pub(crate) fn say(
        &mut self,
        settings: Settings,
        line: InputLine<'_>,
        fits: bool,
        end: RunEnd,
    ) -> Result<Mark, NoMemory>
        ensures { (cost : ℕ) →
            IfOk result (λ mark. HasMade mark self.new
            (said settings line.entry.file.now line.entry.number line.entry.text.now fits
            self.old.answer end.hit end.steps cost)) }
    {
        if !fits {
            return self.fault(line, "answer too long");
        }
        self.tell(settings, line.text, end.hit, end.steps)?;
        Ok(mark_of(end.hit))
    }
}

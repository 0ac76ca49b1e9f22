//! A job that matches lines.

ghost use Rattle.std.specs.Prelude.{◌≡◌, string_bytes, IfOk};
ghost use Rattle.rpl_core.specs.Program.{instructions, labels_of};
ghost use Rattle.rpl_safe.specs.Safe.{IsSafe};
ghost use Rattle.rosie_jobs.specs.Meant.{IsKnown};
ghost use Rattle.rosie_jobs.specs.inside.Printed.{NeedsTrees};
ghost use Rattle.rpl_machine.specs.Known.{IsRunnerOf, KeepsCaptures};

use crate::job::{CheckedGoal, Job};
use crate::line_run::LineRun;
use rosie_run::{InputLine, LineJob, Mark, NoMemory};
use rosie_words::Settings;
use rpl_core::Program;
use rpl_encode::Style;
use rpl_machine::{Runner, Steps};
use std::alloc::Global;
use std::sync::ledger::Ledger;

/// A job that runs code on each line, and prints what the code matched. All memory is reused from
/// line to line.
#[derive(Drop)]
pub struct MatchJob {
    /// The goal of the code, if there is one. Only contracts read this field.
    goal: Option<CheckedGoal>,
    program: Program,
    /// The runner, which remembers what earlier runs have learned about the program. It keeps
    /// captures if the style needs them.
    runs: Runner,
    line: LineRun,
    ghost known: { ∥ IsKnown goal (instructions program) ∥₁ },
    ghost learnt: { IsRunnerOf program runs },
    ghost captures: { NeedsTrees line.settings.style → KeepsCaptures runs },
    ghost fronts: { line.fronts ≡ labels_of program },
}

/// Returns the runner of a program whose matches are printed in this style. The runner keeps no
/// captures if the text printed for a match doesn't depend on the match's trees.
fn runner_for(alloc: Global, style: Style, program: &Program) -> Result<Runner, NoMemory>
    ensures runner { IfOk result (λ made. IsRunnerOf program.now made) }
    ensures captures { IfOk result (λ made. NeedsTrees style → KeepsCaptures made) }
{
    if style.ignores_trees() {
        return Runner::without_captures(alloc, program);
    }
    Runner::new(alloc)
}

impl MatchJob {
    ghost use Rattle.rosie_jobs.specs.Jobs.{job_of, matcher_of};
    ghost use Rattle.rosie_jobs.specs.Budgets.{Pays};
    ghost use Rattle.rosie_jobs.specs.Makers.{Matches, RunsCode};

    /// Returns the job that matches lines against a goal, with these settings.
    pub fn new(alloc: Global, settings: Settings, job: Job) -> Result<MatchJob, NoMemory>
        ensures maker { IfOk result (λ made. matcher_of made ≡ Matches settings (job_of job)) }
        ensures due { IfOk result (λ made. Pays (matcher_of made)) }
    {
        let line = LineRun::new(alloc, settings, &job.program)?;
        let runs = runner_for(alloc, settings.style, &job.program)?;
        let Job { goal, program } = job;
        Ok(MatchJob {
            goal: Some(goal),
            program,
            runs,
            line,
        })
    }

    /// Returns the job that runs safe code without a goal, with these settings.
    pub fn of_code(
        alloc: Global,
        settings: Settings,
        program: Program,
    ) -> Result<MatchJob, NoMemory>
        requires { IsSafe (instructions program) }
        ensures { IfOk result (λ made. matcher_of made ≡ RunsCode settings (instructions program)) }
    {
        let line = LineRun::new(alloc, settings, &program)?;
        let runs = runner_for(alloc, settings.style, &program)?;
        Ok(MatchJob {
            goal: None,
            program,
            runs,
            line,
        })
    }
}

impl LineJob for MatchJob {
    ghost use Rattle.rosie_jobs.specs.Jobs.{matcher_of};
    ghost use Rattle.rosie_jobs.specs.Makers.{makes_of};

    ghost makes = { λ j. makes_of (matcher_of j) };

    ghost out_text = { λ j. j.line.texts.answer };

    ghost err_text = { λ j. string_bytes j.line.texts.told };

    #[inline(always)]
    fn answer<L: Ledger>(
        &mut self,
        line: InputLine<'_>,
        steps: &mut Steps<L>,
    ) -> Result<Mark, NoMemory> {
        self.line.answer(&self.program, &mut self.runs, line, steps)
    }

    #[inline(always)]
    fn next_part(&mut self) -> Result<bool, NoMemory> {
        Ok(false)
    }

    #[inline(always)]
    fn out(&self) -> &[u8] {
        self.line.texts.answer.as_slice()
    }

    #[inline(always)]
    fn err(&self) -> &[u8] {
        self.line.texts.told.as_bytes()
    }
}

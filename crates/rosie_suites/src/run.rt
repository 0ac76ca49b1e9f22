// Runs the tests, piece by piece.
ghost use Rattle.std.specs.Prelude.{◌≡◌, ◌+◌, ◌-◌, ◌<◌, [], false, length, string_bytes, true};
ghost use Rattle.std.specs.Prelude.{IfErr, IfOk, OnOk};
ghost use Rattle.rosie_run.specs.Devices.{DevicesWriteCause, SameOutputs};
ghost use Rattle.rosie_run.specs.Going.{GivesPiece};
ghost use Rattle.rosie_run.specs.Made.{IsMade};
ghost use Rattle.rosie_run.specs.Outputs.{shown, telling};
ghost use Rattle.rosie_run.specs.Runs.{IsNoCut, Runs};
ghost use Rattle.rosie_run.specs.Where.{Nowhere};
ghost use Rattle.rosie_run.specs.declared.tool.Tool.TheVariants.{Rosie};
ghost use Rattle.rpl_core.specs.Table.{bodies_of};
ghost use Rattle.rosie_suites.specs.Trials as T;
ghost use Rattle.rosie_suites.specs.inside.Ready.{IsBound, IsReady, IsReadyJob, IsReadyTrial};
ghost use Rattle.rosie_suites.specs.inside.Ready.{IsText};
ghost use Rattle.rosie_suites.specs.inside.Running.{IsUnderWay, pieces_from};

use crate::subject::{Compiled, Subject, Subjects};
use crate::suite::Suite;
use crate::telling::{counts_mark, err_text, mark_of, out_text};
use crate::tester::{Tester, judge_none};
use crate::trial::Trial;
use crate::verdict::Verdict;
use rosie_io::Sink;
use rosie_jobs::budget_or;
use rosie_run::{Ended, Mark, NoMemory, Outputs, PieceSource, Tally, run_pieces};
use rpl_machine::{Answer, RunFault, Steps, run};
use rpl_print::text_of;
use rpl_text::Text;
use rpl_unittest::{Test, counts_line};
use std::alloc::{AllocError, Global};
use std::sync::ledger::Ledger;

/// The state kept from test to test: the compiled rules of earlier tests, and the memory that
/// tests run in.
#[derive(Drop)]
struct SuiteMemory {
    alloc: Global,
    subjects: Subjects,
    tester: Tester,
}

/// A run of a suite's tests, one after the other. At the end, the run reports how many tests
/// failed.
#[derive(Drop)]
struct SuiteRun<'a> {
    suite: &'a Suite,
    kept: SuiteMemory,
    /// The number of tests that were run.
    passed: usize,
    /// The number of tests that failed.
    unmet: u64,
    /// Whether the counts have been reported.
    is_done: bool,
    /// The texts of the last piece.
    out: String,
    err: String,
}

impl Suite {
    ghost use Rattle.rosie_suites.specs.Seen.{bench_of, trials_of};
    ghost use Rattle.rosie_suites.specs.Tried.{subject_for, trial_of};
    ghost use Rattle.rosie_suites.specs.inside.Entries.{AreSound, job_of, subject_of};

    /// Returns the verdict on a test whose goal has been compiled.
    fn try_goal<L: Ledger>(
        &self,
        test: &Test,
        compiled: &Compiled,
        tester: &mut Tester,
        steps: &mut Steps<L>,
    ) -> Result<Verdict, NoMemory>
        requires ready { ∥ IsReadyJob (job_of (bodies_of self.now.rules) compiled.now) ∥₁ }
        requires text { IsText test.now.text }
        ensures verdict { IfOk result (λ verdict. verdict
            ≡ T.verdict_of (bench_of self.now) test.now
            (T.HasCode (job_of (bodies_of self.now.rules) compiled.now))) }
        ensures steps { OnOk result (steps.new ≡ steps.old + T.cost_of (bench_of self.now) test.now
            (T.HasCode (job_of (bodies_of self.now.rules) compiled.now))) }
    {
        let text = text_of(&test.text);
        let prefix = text_of(&self.prefix);
        let program = &compiled.program;
        let budget = budget_or(self.budget, text, false);
        match run(program, Text::new(text), budget, &mut tester.scratch, steps) {
            Ok(answer) => match answer {
                Answer::At { .. } => tester.judge_match(test, prefix, program),
                Answer::Fail { .. } => Ok(judge_none(test, prefix, program)),
            },
            Err(fault) => match fault {
                RunFault::Budget => Ok(Verdict::Spent),
                RunFault::NoMemory => Err(AllocError),
            },
        }
    }

    /// Returns the verdict on a test that is run with this subject.
    fn try_subject<L: Ledger>(
        &self,
        test: &Test,
        subject: &Subject,
        tester: &mut Tester,
        steps: &mut Steps<L>,
    ) -> Result<Verdict, NoMemory>
        requires ready { ∥ IsReady (subject_of (bodies_of self.now.rules) subject.now) ∥₁ }
        requires text { IsText test.now.text }
        ensures verdict { IfOk result (λ verdict. verdict
            ≡ T.verdict_of (bench_of self.now) test.now
            (subject_of (bodies_of self.now.rules) subject.now)) }
        ensures steps { OnOk result (steps.new ≡ steps.old + T.cost_of (bench_of self.now) test.now
            (subject_of (bodies_of self.now.rules) subject.now)) }
    {
        match subject {
            Subject::Unbound => Ok(Verdict::Unmet),
            Subject::TooLong => Ok(Verdict::LongCode),
            Subject::Runs(compiled) => self.try_goal(test, compiled, tester, steps),
        }
    }

    /// Returns the verdict on a test, whose rule may have been compiled for an earlier test.
    fn try_test<L: Ledger>(
        &self,
        trial: &Trial,
        kept: &mut SuiteMemory,
        steps: &mut Steps<L>,
    ) -> Result<Verdict, NoMemory>
        requires bound { IsBound (bodies_of self.now.rules) trial.now.target }
        requires ready { ∥ IsReadyTrial (trial_of (bodies_of self.now.rules) trial.now) ∥₁ }
        requires sound { AreSound (bodies_of self.now.rules) kept.old.subjects.entries.items }
        ensures sound { OnOk result (AreSound (bodies_of self.now.rules)
            kept.new.subjects.entries.items) }
        ensures verdict { IfOk result (λ verdict. verdict ≡ T.verdict_in (bench_of self.now)
            (trial_of (bodies_of self.now.rules) trial.now)) }
        ensures steps { OnOk result (steps.new ≡ steps.old + T.cost_of (bench_of self.now)
            trial.now.test
            (subject_for (bodies_of self.now.rules) trial.now.target)) }
    {
        let place = kept
            .subjects
            .place_for(kept.alloc, &self.rules, trial.target)?;
        let subject = &kept.subjects.entries[place].subject;
        self.try_subject(&trial.test, subject, &mut kept.tester, steps)
    }

    /// Runs the tests one after the other, writes a line for each one that fails, and writes the
    /// counts at the end. Code that is too long ends the run. Each rule is compiled when its first
    /// test is run. All compiled code is dropped once its total length exceeds the greatest length
    /// allowed for the code of one rule.
    pub fn run<O: Sink, E: Sink, L: Ledger>(
        &self,
        alloc: Global,
        outputs: &mut Outputs<'_, O, E, L>,
    ) -> Result<Tally, Ended>
        ensures same_outputs { SameOutputs outputs.old outputs.new }
        ensures runs { Runs result (telling Rosie O.Sink E.Sink)
            (T.suite_pieces (bench_of self.now) (trials_of self.now)) Nowhere
            (shown O.Sink E.Sink outputs.old.out.now outputs.old.err.now outputs.old.steps.now)
            (shown O.Sink E.Sink outputs.new.out.now outputs.new.err.now outputs.new.steps.now) }
        ensures no_cut { IfErr result IsNoCut }
        ensures sinks { DevicesWriteCause O.Sink E.Sink result outputs.old outputs.new }
    {
        let mut suite_run = SuiteRun::new(alloc, self)?;
        run_pieces(&mut suite_run, outputs)
    }
}

impl<'a> SuiteRun<'a> {
    ghost use Rattle.rosie_suites.specs.Seen.{bench_of, trials_of};

    /// Returns a run in which no test has been run yet.
    fn new(alloc: Global, suite: &'a Suite) -> Result<SuiteRun<'a>, NoMemory>
        ensures suite { IfOk result (λ run. run.suite.now ≡ suite.now) }
        ensures passed { IfOk result (λ run. run.passed ≡ 0) }
        ensures opened { IfOk result (λ run. run.is_done ≡ false) }
        ensures under_way { IfOk result IsUnderWay }
    {
        let subjects = Subjects::new(alloc, &suite.rules)?;
        let tester = Tester::new(alloc)?;
        Ok(SuiteRun {
            suite,
            kept: SuiteMemory {
                alloc,
                subjects,
                tester,
            },
            passed: 0,
            unmet: 0,
            is_done: false,
            out: String::new(alloc),
            err: String::new(alloc),
        })
    }

    /// Runs the next test, and makes its report.
    fn try_next<L: Ledger>(&mut self, steps: &mut Steps<L>) -> Result<Mark, NoMemory>
        requires more { self.old.passed < length self.old.suite.now.trials.items }
        requires under_way { IsUnderWay self.old }
        ensures suite { self.new.suite.now ≡ self.old.suite.now }
        ensures is_done { self.new.is_done ≡ self.old.is_done }
        ensures under_way { OnOk result (IsUnderWay self.new) }
        ensures passed { OnOk result (self.new.passed ≡ self.old.passed + 1) }
        ensures gives { IfOk result (λ mark.
            GivesPiece (pieces_from self.old.suite.now self.old.passed)
            (λ ps. ps ≡ pieces_from self.old.suite.now (self.old.passed + 1)) mark
            (string_bytes self.new.out) (string_bytes self.new.err) steps.old steps.new) }
    {
        let suite = self.suite;
        let trial = &suite.trials[self.passed];
        let verdict = suite.try_test(trial, &mut self.kept, steps)?;
        let file = text_of(&suite.file);
        let out = out_text(self.kept.alloc, file, &trial.test, verdict)?;
        let err = err_text(self.kept.alloc, file, &trial.test, verdict)?;
        self.out = out;
        self.err = err;
        self.passed += 1;
        self.unmet += one_if_unmet(verdict);
        Ok(mark_of(verdict))
    }

    /// Reports how many tests there are, and how many failed.
    fn say_counts(&mut self) -> Result<Mark, NoMemory>
        ensures suite { self.new.suite.now ≡ self.old.suite.now }
        ensures passed { self.new.passed ≡ self.old.passed }
        ensures kept { self.new.kept ≡ self.old.kept }
        ensures unmet { self.new.unmet ≡ self.old.unmet }
        ensures is_done { OnOk result (self.new.is_done ≡ true) }
        ensures made { IfOk result (λ mark. IsMade mark (string_bytes self.new.out)
            (string_bytes self.new.err)
            (T.counts_piece (bench_of self.old.suite.now).file
            (length (trials_of self.old.suite.now)) self.old.unmet)) }
    {
        let alloc = self.kept.alloc;
        let file = text_of(&self.suite.file);
        let text = counts_line(alloc, file, self.suite.trials.len() as u64, self.unmet)?;
        self.out = text;
        self.err = String::new(alloc);
        self.is_done = true;
        Ok(counts_mark(self.unmet))
    }
}

impl<'a> PieceSource for SuiteRun<'a> {
    ghost use Rattle.rosie_run.specs.Going.{NeverReads};
    ghost use Rattle.rosie_suites.specs.inside.Running.{ComesBy, one_left};

    ghost comes = { λ s ps. ComesBy s.is_done s ps };

    ghost same = { λ _ _. Unit {0} };

    ghost leaves = { λ how _ _ _. NeverReads how };

    ghost goes_on = { λ s. IsUnderWay s };

    ghost bound = { λ s. (length s.suite.now.trials.items - s.passed) + one_left s.is_done };

    ghost out_text = { λ s. string_bytes s.out };

    ghost err_text = { λ s. string_bytes s.err };

    ghost tool = { λ _. Rosie };

    ghost source_name = { λ _. [] };

    fn is_ready(&self) -> bool {
        true
    }

    fn next<L: Ledger>(&mut self, steps: &mut Steps<L>) -> Result<Option<Mark>, Ended> {
        if self.is_done {
            return Ok(None);
        }
        if self.passed < self.suite.trials.len() {
            let mark = self.try_next(steps)?;
            return Ok(Some(mark));
        }
        let mark = self.say_counts()?;
        Ok(Some(mark))
    }

    #[inline(always)]
    fn next_part(&mut self) -> Result<bool, NoMemory> {
        Ok(false)
    }

    #[inline(always)]
    fn out(&self) -> &[u8] {
        self.out.as_bytes()
    }

    #[inline(always)]
    fn err(&self) -> &[u8] {
        self.err.as_bytes()
    }

    ghost begins = { λ _. (tt, tt) };
}

/// Returns 1 for a test that failed, and 0 for any other.
fn one_if_unmet(verdict: Verdict) -> u64
    ensures { result ≡ T.one_if_unmet verdict }
{
    match verdict {
        Verdict::Unmet => 1,
        _ => 0,
    }
}

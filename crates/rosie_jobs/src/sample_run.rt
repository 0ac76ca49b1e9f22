// Runs a sample, piece by piece: matches the lines, and reports the counts at the end.
ghost use Rattle.std.specs.Prelude.{◌≡◌, ◌+◌, ◌-◌, ◌<◌, [], None, IfErr, IfOk, OnOk, cond, List, string_bytes};
ghost use Rattle.rosie_jobs.specs.Jobs.{matcher_of};
ghost use Rattle.rosie_run.specs.Devices.{DevicesWriteCause, SameOutputs};
ghost use Rattle.rosie_run.specs.Going.{GivesPiece};
ghost use Rattle.rosie_run.specs.Outputs.{shown, telling};
ghost use Rattle.rosie_run.specs.Report.{Piece, is_hit};
ghost use Rattle.rosie_run.specs.Runs.{IsNoCut, Runs};
ghost use Rattle.rosie_run.specs.Where.{Nowhere};
ghost use Rattle.rosie_run.specs.declared.tool.Tool.TheVariants.{Rosie};
ghost use Rattle.rosie_jobs.specs.inside.SamplePassing.{CountsFit, IsLeft, SameRun};

use crate::match_job::MatchJob;
use crate::sample::Sample;
use crate::sample_text::counts_text;
use rosie_io::Sink;
use rosie_run::{
    Ended, InputLine, LineJob, Mark, NoMemory, Outputs, PieceSource, Tally, run_pieces,
};
use rpl_machine::Steps;
use std::alloc::Global;
use std::sync::ledger::Ledger;

/// A job, and the lines of a sample that the job runs on, one after the other.
#[derive(Drop)]
pub struct SampleRun {
    alloc: Global,
    job: MatchJob,
    sample: Sample,
    lines: u32,
    /// The number of lines that the job has run on, the number of them that match, and the
    /// number of bytes in their answers.
    passed: u32,
    matched: u64,
    bytes: u64,
    /// The text of the counts, once they have been reported.
    text: Option<String>,
}

/// Returns 1 for a line that matches, and 0 for any other.
fn one_if_hit(mark: Mark) -> u64
    ensures { result ≡ cond (is_hit mark) 1 0 }
{
    match mark {
        Mark::Hit => 1,
        _ => 0,
    }
}

impl SampleRun {
    ghost use Rattle.rosie_jobs.specs.SampleViews.{report_of, sampled_of};

    /// Returns the run of a job on the first `lines` lines of the sample with this seed.
    pub fn new(alloc: Global, job: MatchJob, seed: u32, lines: u32) -> SampleRun
        ensures sampled { sampled_of result ≡ record
            { maker = matcher_of job; seed = seed; lines = lines } }
    {
        SampleRun {
            alloc,
            job,
            sample: Sample::new(alloc, seed),
            lines,
            passed: 0,
            matched: 0,
            bytes: 0,
            text: None,
        }
    }

    /// Matches the next line. Nothing is written to `out` for this line.
    fn next_line<L: Ledger>(&mut self, steps: &mut Steps<L>) -> Result<Mark, NoMemory>
        requires more { self.old.passed < self.old.lines }
        requires fits { CountsFit self.old }
        ensures fits { OnOk result (CountsFit self.new) }
        ensures same { SameRun self.old self.new }
        ensures passed { OnOk result (self.new.passed ≡ self.old.passed + 1) }
        ensures gives { (ps : List Piece) → IsLeft self.old ps
            → IfOk result (λ mark. GivesPiece ps (IsLeft self.new) mark []
            (string_bytes self.new.job.line.texts.told) steps.old steps.new) }
    {
        self.sample.advance()?;
        let line = InputLine {
            file: "-",
            number: self.passed as u64 + 1,
            text: self.sample.line(),
            is_ascii: false,
        };
        let mark = self.job.answer(line, steps)?;
        self.passed += 1;
        self.matched += one_if_hit(mark);
        self.bytes += self.job.out().len() as u64;
        Ok(mark)
    }

    /// Matches the lines of the run, starting at the sample's current position, and reports the
    /// counts.
    pub fn run<O: Sink, E: Sink, L: Ledger>(
        &mut self,
        outputs: &mut Outputs<'_, O, E, L>,
    ) -> Result<Tally, Ended>
        ensures same_outputs { SameOutputs outputs.old outputs.new }
        ensures runs { Runs result (telling Rosie O.Sink E.Sink) (report_of self.old) Nowhere
            (shown O.Sink E.Sink outputs.old.out.now outputs.old.err.now outputs.old.steps.now)
            (shown O.Sink E.Sink outputs.new.out.now outputs.new.err.now outputs.new.steps.now) }
        ensures no_cut { IfErr result IsNoCut }
        ensures sinks { DevicesWriteCause O.Sink E.Sink result outputs.old outputs.new }
    {
        self.passed = 0;
        self.matched = 0;
        self.bytes = 0;
        self.text = None;
        run_pieces(self, outputs)
    }
}

impl PieceSource for SampleRun {
    ghost use Rattle.rosie_jobs.specs.inside.SamplePassing.{ComesBy, one_left, said_err, said_out};
    ghost use Rattle.rosie_run.specs.Going.{NeverReads};

    ghost comes = { λ s ps. ComesBy s.text s ps };

    ghost same = { λ _ _. Unit {0} };

    ghost leaves = { λ how _ _ _. NeverReads how };

    ghost goes_on = { λ s. CountsFit s };

    ghost bound = { λ s. (s.lines - s.passed) + one_left s.text };

    ghost out_text = { λ s. said_out s.text };

    ghost err_text = { λ s. said_err s.text (string_bytes s.job.line.texts.told) };

    ghost tool = { λ _. Rosie };

    ghost source_name = { λ _. [] };

    fn is_ready(&self) -> bool {
        true
    }

    fn next<L: Ledger>(&mut self, steps: &mut Steps<L>) -> Result<Option<Mark>, Ended> {
        match &self.text {
            Some(_) => return Ok(None),
            None => {}
        }
        if self.passed < self.lines {
            let mark = self.next_line(steps)?;
            return Ok(Some(mark));
        }
        let text = counts_text(self.alloc, self.lines, self.matched, self.bytes)?;
        self.text = Some(text);
        Ok(Some(Mark::Miss))
    }

    #[inline(always)]
    fn next_part(&mut self) -> Result<bool, NoMemory> {
        Ok(false)
    }

    fn out(&self) -> &[u8] {
        match &self.text {
            Some(text) => text.as_bytes(),
            None => &[],
        }
    }

    fn err(&self) -> &[u8] {
        match &self.text {
            Some(_) => &[],
            None => self.job.err(),
        }
    }

    ghost begins = { λ _. (tt, tt) };
}

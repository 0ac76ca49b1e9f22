//! A job that traces lines.

ghost use Rattle.std.specs.Prelude.{⊤, ◌≡◌, string_bytes};
ghost use Rattle.std.specs.Prelude.{if◌then◌else◌, is_some};

use crate::job::Job;
use crate::trace_parts::TraceParts;
use rosie_run::{InputLine, LineJob, Mark, NoMemory, line_fault};
use rpl_machine::Steps;
use rpl_text::Text;
use rpl_trace::{TraceFault, Traced, begin_trace};
use std::alloc::{AllocError, Global};
use std::sync::ledger::Ledger;

/// A job that traces a goal on each line. Once all evaluations for a line are complete, the job
/// makes the text of the trace in parts of at most 64 KiB.
#[derive(Drop)]
pub struct TraceJob<'a> {
    alloc: Global,
    limit: u32,
    job: &'a Job,
    /// The output for the last line.
    out: TraceParts<'a>,
    err: String,
}

/// Returns the mark of a line. `end` is the end of the line's match, if there is one.
fn mark_of(end: Option<usize>) -> Mark
    ensures { result ≡ (if is_some end then Mark.Hit else Mark.Miss) }
{
    match end {
        Some(_) => Mark::Hit,
        None => Mark::Miss,
    }
}

impl<'a> TraceJob<'a> {
    ghost use Rattle.rosie_jobs.specs.Jobs.{job_of, rule_names, tracer_of};
    ghost use Rattle.rosie_jobs.specs.Makers.{Traces};

    /// Returns the job that traces a goal. `limit` bounds the work on a line.
    pub fn new(alloc: Global, job: &'a Job, limit: u32) -> TraceJob<'a>
        ensures maker { tracer_of result ≡ Traces limit (rule_names job.now) (job_of job.now) }
    {
        TraceJob {
            alloc,
            limit,
            job,
            out: TraceParts::new(alloc),
            err: String::new(alloc),
        }
    }
}

impl LineJob for TraceJob<'_> {
    ghost use Rattle.rosie_jobs.specs.Jobs.{tracer_of};
    ghost use Rattle.rosie_jobs.specs.Makers.{makes_of};
    ghost use Rattle.rosie_jobs.specs.Tracing.{part_of, rest_of};

    ghost makes = { λ j. makes_of (tracer_of j) };

    ghost idle = { ⊤ };

    ghost out_text = { λ j. part_of j.out };

    ghost err_text = { λ j. string_bytes j.err };

    ghost out_rest = { λ j. rest_of j.out };

    fn answer<L: Ledger>(
        &mut self,
        line: InputLine<'_>,
        _steps: &mut Steps<L>,
    ) -> Result<Mark, NoMemory> {
        let job = self.job;
        let goal = &job.goal;
        let text = Text::new(line.text);
        match begin_trace(self.alloc, &goal.rules, &goal.peg, text, self.limit) {
            Ok(traced) => {
                let Traced { text, end } = traced;
                self.out.begin(line.number, text)?;
                self.err.clear();
                Ok(mark_of(end))
            }
            Err(fault) => match fault {
                TraceFault::TraceTooLong => {
                    self.err = line_fault(self.alloc, line.file, line.number, "trace too long")?;
                    self.out.clear();
                    Ok(Mark::Stop)
                }
                TraceFault::NoMemory => Err(AllocError),
            },
        }
    }

    #[inline(always)]
    fn next_part(&mut self) -> Result<bool, NoMemory> {
        self.out.next()
    }

    #[inline(always)]
    fn out(&self) -> &[u8] {
        self.out.part()
    }

    #[inline(always)]
    fn err(&self) -> &[u8] {
        self.err.as_bytes()
    }
}

//! The plan of a command that runs a pattern on lines.

ghost use Rattle.std.specs.Prelude.{◌≡◌, Ok, IfErr, IfOk, List, encode_utf8_all};
ghost use Rattle.rosie_jobs.specs.Jobs.{IsJobOf, job_of, rule_names};
ghost use Rattle.rosie_prepare.specs.Views.{ready_seen, request_seen};
ghost use Rattle.rosie_prepare.specs.Steps.{IsOwn};
ghost use Rattle.rosie_run.specs.Inputs.{names_of};
ghost use Rattle.rpl_check.specs.Goal.{peg_of};
ghost use Rattle.rpl_codegen.specs.Compiled.{HasLongCode};
ghost use Rattle.rpl_core.specs.Table.{bodies_of, names_of as names_of_rules};
ghost use Rattle.rpl_core.specs.View.{core_of};
ghost use Rattle.rpl_forms.specs.Rows.{Row};
ghost use Rattle.rpl_package.specs.Asking.{IsTold};
ghost use Rattle.rosie_cli.specs.Planned.{input_names, IsRun, IsRunning};
ghost use Rattle.rpl_forms.specs.Table.{full_names};
ghost use Rattle.rosie_cli.specs.Plans.{Planned};
ghost use Rattle.rosie_cli.specs.inside.Planning.{names_for, plan_of, run_of, IsReady, IsTracing};
ghost use Rattle.rosie_cli.specs.inside.Planning.{Leaves, MakesEach, Plans, PlansIdle, PlansOver};

use crate::plan::{Plan, uncompiled};
use rosie_io::Files;
use rosie_jobs::{Job, MatchJob, SampleRun};
use rosie_prepare::{PatternRequest, Prepared, prepare};
use rosie_run::{NoMemory, Unready};
use rosie_words::{Paths, Settings};
use rpl_codegen::CompileFault;
use rpl_text::Chars;
use std::alloc::Global;

/// The purpose for which a pattern is run.
#[derive(Drop)]
pub(crate) enum Purpose {
    /// The pattern is matched against each line of the inputs.
    Match(Settings, Paths),
    /// The pattern is traced on each line of the inputs. The fields are the limit on the work for
    /// a line, whether a whole input is one line, and the inputs.
    Trace(u32, bool, Paths),
    /// The pattern is matched against the lines of a sample. The fields are the settings, the
    /// seed, and the number of lines.
    Sample(Settings, u32, u32),
}

/// Returns the names of the inputs. If none are given, the standard input is the only one.
pub(crate) fn input_names(alloc: Global, mut inputs: Paths) -> Result<Paths, NoMemory>
    ensures { IfOk result (λ names. names_of encode_utf8_all names ≡ input_names inputs) }
{
    if !inputs.is_empty() {
        return Ok(inputs);
    }
    inputs.push(Chars::from_str(alloc, "-")?)?;
    Ok(inputs)
}

/// Plans the run of a compiled goal.
fn plan_job(alloc: Global, job: Job, purpose: Purpose) -> Result<Plan, NoMemory>
    ensures made { IfOk result (λ plan. (rules : List Row) → full_names rules ≡ rule_names job
        → run_of purpose rules (job_of job) ≡ plan_of plan) }
    ensures idle { IsTracing purpose → PlansIdle result }
    ensures over { PlansOver result (names_for purpose) }
{
    match purpose {
        Purpose::Match(settings, inputs) => {
            let names = input_names(alloc, inputs)?;
            let job = MatchJob::new(alloc, settings, job)?;
            let whole = settings.whole;
            Ok(Plan::Match { job, whole, names })
        }
        Purpose::Trace(limit, whole, inputs) => {
            let names = input_names(alloc, inputs)?;
            Ok(Plan::Trace {
                job,
                limit,
                whole,
                names,
            })
        }
        Purpose::Sample(settings, seed, lines) => {
            let job = MatchJob::new(alloc, settings, job)?;
            let run = SampleRun::new(alloc, job, seed, lines);
            Ok(Plan::Sample(run))
        }
    }
}

/// Compiles a prepared goal. The rules are used for this goal alone. Returns an error if the goal's
/// code is too long.
fn compile_goal(alloc: Global, ready: Prepared) -> Result<Job, CompileFault>
    requires { IsReady ready }
    ensures job { IfOk result (λ job. IsJobOf (bodies_of ready.rules) (core_of (peg_of ready.goal))
        (job_of job)) }
    ensures names { IfOk result (λ job. rule_names job ≡ names_of_rules ready.rules) }
    ensures too_long { IfErr result (λ e. e ≡ CompileFault.CodeTooLong
        → HasLongCode (bodies_of ready.rules) (core_of (peg_of ready.goal))) }
{
    Job::new(alloc, ready.rules, ready.goal)
}

/// Plans the run of a prepared goal. Returns an error if the goal's code is too long.
fn plan_ready(alloc: Global, ready: Prepared, purpose: Purpose) -> Result<Plan, Unready>
    requires { IsReady ready }
    ensures makes { MakesEach result (IsRun (run_of purpose) (Ok (ready_seen ready))) }
    ensures own { IfErr result IsOwn }
    ensures idle { IsTracing purpose → PlansIdle result }
    ensures over { PlansOver result (names_for purpose) }
{
    match compile_goal(alloc, ready) {
        Ok(job) => Ok(plan_job(alloc, job, purpose)?),
        Err(fault) => Err(uncompiled(alloc, fault)),
    }
}

/// Plans the run of a pattern for the given purpose.
pub(crate) fn plan_goal<F: Files>(
    alloc: Global,
    request: &PatternRequest<'_>,
    purpose: Purpose,
    files: &mut F,
) -> Result<Plan, Unready>
    ensures plans { (p : Planned) → IsTold F.tells p.asked
        → IsRunning (run_of purpose) (request_seen request.now) (F.tree files.old) p →
        Plans (F.asked files.old) (F.asked files.new) result p }
    ensures idle { IsTracing purpose → PlansIdle result }
    ensures over { PlansOver result (names_for purpose) }
    ensures leaves { Leaves F.Source result files.old files.new }
{
    let ready = prepare(alloc, files, request)?;
    plan_ready(alloc, ready, purpose)
}

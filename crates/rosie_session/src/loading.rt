// Loads the kept texts, alone or with a pattern.
ghost use Rattle.std.specs.Prelude.{◌≡◌, IfErr, IfOk, Ok, chars};
ghost use Rattle.rosie_io.specs.Loading.{NotFewer};
ghost use Rattle.rosie_jobs.specs.Jobs.{IsJobOf, job_of};
ghost use Rattle.rosie_jobs.specs.Lines.{Job as Ran};
ghost use Rattle.rosie_run.specs.Unready.{CauseIn, HasAsked};
ghost use Rattle.rosie_prepare.specs.Prepared.{OrLine};
ghost use Rattle.rosie_prepare.specs.Views.{ready_seen};
ghost use Rattle.rosie_repl.specs.Session.{Session};
ghost use Rattle.rosie_repl.specs.States.{session_of};
ghost use Rattle.rosie_session.specs.Loading.{Compiles, given};
ghost use Rattle.rosie_session.specs.Replay.{judged};
ghost use Rattle.rosie_session.specs.inside.Turning.{GivesJob, IsOwn, Judges, OfLoad, OfTurn};
ghost use Rattle.rpl_check.specs.Checked.{IsWhole};
ghost use Rattle.rpl_check.specs.Goal.{peg_of};
ghost use Rattle.rpl_codegen.specs.Compiled.{HasLongCode};
ghost use Rattle.rpl_core.specs.Table.{bodies_of};
ghost use Rattle.rpl_core.specs.View.{core_of};

use rosie_io::Files;
use rosie_jobs::{Job, MatchJob};
use rosie_prepare::{PatternRequest, Prepared, compile_line, prepare, prepare_rules};
use rosie_repl::State;
use rosie_run::{NoMemory, Unready};
use rosie_words::Settings;
use rpl_codegen::CompileFault;
use rpl_encode::Style;
use rpl_package::{Goal, LibPath, Root, Roots};
use rpl_text::Chars;
use std::alloc::Global;

/// The settings for a tried line: its match is printed as JSON, and its budget is the default.
const PLAIN: Settings = Settings {
    style: Style::Json,
    whole: false,
    all: false,
    steps: false,
    budget: None,
};

/// Returns the kept texts, each as a root.
fn roots_of(alloc: Global, state: &State) -> Result<Roots, NoMemory>
    ensures { IfOk result (λ roots. roots ≡ given (session_of state.now).now.texts) }
{
    let mut roots = Roots::new(alloc);
    for index in 0..state.len() {
        if let Some(text) = state.text(index) {
            roots.push(Root::Given(Chars::from_str(alloc, text)?))?;
        }
    }
    Ok(roots)
}

/// Loads only the kept texts, without a pattern. If there is a fault, returns the line that reports
/// the first one.
pub(crate) fn load_texts<F: Files>(
    alloc: Global,
    folders: &LibPath,
    state: &State,
    files: &mut F,
) -> Result<(), Unready>
    ensures judges { (before after : Session) → OfTurn F.tells (F.tree files.old) folders.now
        (λ w. judged before after (w.texts (session_of state.now).now.texts))
        (λ t. Judges result t before after) }
    ensures asked { (before after : Session) → OfTurn F.tells (F.tree files.old) folders.now
        (λ w. judged before after (w.texts (session_of state.now).now.texts))
        (λ t. HasAsked (F.asked files.old) (F.asked files.new) result t.asked) }
    ensures cause { CauseIn F.Source result files.old files.new }
    ensures taken { NotFewer (F.taken files.old) (F.taken files.new) }
    ensures tree { F.tree files.new ≡ F.tree files.old }
{
    let roots = roots_of(alloc, state)?;
    prepare_rules(alloc, files, folders, &roots)?;
    Ok(())
}

/// Compiles a prepared goal, and consumes the prepared rules. Returns an error if the goal's code
/// is too long.
fn compile_ready(alloc: Global, ready: Prepared) -> Result<Job, CompileFault>
    requires { IsWhole (bodies_of ready.rules) (core_of (peg_of ready.goal)) }
    ensures job { IfOk result (λ job. IsJobOf (bodies_of ready.rules) (core_of (peg_of ready.goal))
        (job_of job)) }
    ensures too_long { IfErr result (λ e. e ≡ CompileFault.CodeTooLong
        → HasLongCode (bodies_of ready.rules) (core_of (peg_of ready.goal))) }
{
    Job::new(alloc, ready.rules, ready.goal)
}

/// Returns the job of a prepared goal, or an error if the goal's code is too long.
fn make_job(alloc: Global, ready: Prepared) -> Result<MatchJob, Unready>
    requires { IsWhole (bodies_of ready.rules) (core_of (peg_of ready.goal)) }
    ensures gives { (answer : OrLine Ran) → Compiles (Ok (ready_seen ready)) answer →
        GivesJob result answer }
    ensures own { IfErr result IsOwn }
{
    match compile_ready(alloc, ready) {
        Ok(job) => {
            let made = MatchJob::new(alloc, PLAIN, job)?;
            Ok(made)
        }
        Err(fault) => match fault {
            CompileFault::CodeTooLong => {
                let line = compile_line(alloc)?;
                Err(Unready::Refused(line))
            }
            CompileFault::NoMemory => Err(Unready::NoMemory),
        },
    }
}

/// Loads a pattern with the kept texts. Returns the pattern's job, or the line that reports the
/// first fault.
pub(crate) fn load_goal<F: Files>(
    alloc: Global,
    folders: &LibPath,
    state: &State,
    pattern: &str,
    files: &mut F,
) -> Result<MatchJob, Unready>
    ensures gives { OfLoad F.tells (F.tree files.old) folders.now
        (λ w. w.goal (session_of state.now).now.texts (chars pattern.now))
        (λ l. GivesJob result l.answer) }
    ensures asked { OfLoad F.tells (F.tree files.old) folders.now
        (λ w. w.goal (session_of state.now).now.texts (chars pattern.now))
        (λ l. HasAsked (F.asked files.old) (F.asked files.new) result l.asked) }
    ensures cause { CauseIn F.Source result files.old files.new }
    ensures taken { NotFewer (F.taken files.old) (F.taken files.new) }
    ensures tree { F.tree files.new ≡ F.tree files.old }
{
    let roots = roots_of(alloc, state)?;
    let request = PatternRequest {
        roots: &roots,
        folders,
        goal: Goal {
            text: pattern,
            fixed: false,
            find: false,
        },
    };
    let ready = prepare(alloc, files, &request)?;
    make_job(alloc, ready)
}

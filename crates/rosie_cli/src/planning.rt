//! How a command is planned.

ghost use Rattle.std.specs.Prelude.{◌≡◌, ◌≢◌, true};
ghost use Rattle.rosie_prepare.specs.Views.{request_seen};
ghost use Rattle.rosie_words.specs.declared.command.What.TheVariants as W;
ghost use Rattle.rpl_package.specs.Asking.{IsTold};
ghost use Rattle.rosie_cli.specs.Planned.{asked_names, IsRunning};
ghost use Rattle.rosie_cli.specs.Plans.{Planned};
ghost use Rattle.rosie_cli.specs.Words.{is_idle, needs_nothing};
ghost use Rattle.rosie_cli.specs.inside.Planning.{names_for, run_of, wanted, IsTracing, Leaves};
ghost use Rattle.rosie_cli.specs.inside.Planning.{Plans, PlansIdle, PlansOver, PlansSaid};
ghost use Rattle.rosie_cli.specs.inside.Running.{OfPlans};

use crate::class_plan::plan_class;
use crate::code_plan::plan_code;
use crate::compile_plan::plan_compiled;
use crate::expand_plan::plan_expansion;
use crate::goal_plan::{Purpose, plan_goal};
use crate::list_plan::plan_list;
use crate::plan::Plan;
use crate::sample_plan::plan_sample;
use crate::test_plan::plan_tests;
use rosie_io::Files;
use rosie_prepare::PatternRequest;
use rosie_run::Unready;
use rosie_words::{Command, What};
use rpl_package::{Goal, LibPath, Roots};
use rpl_print::text_of;
use rpl_text::Chars;
use std::alloc::Global;

/// The context in which a pattern is read, as the options specify it.
#[derive(Clone, Copy)]
struct PlanContext<'a> {
    alloc: Global,
    roots: &'a Roots,
    folders: &'a LibPath,
    fixed: bool,
}

impl<'a> PlanContext<'a> {
    /// Returns the request for a pattern, which is matched from the start of a line or, if `find`
    /// is `true`, searched for.
    fn request(&self, pattern: &'a Chars, find: bool) -> PatternRequest<'a>
        ensures { request_seen result ≡ wanted self.now.roots.now self.now.folders.now
            self.now.fixed find pattern.now }
    {
        PatternRequest {
            roots: self.roots,
            folders: self.folders,
            goal: Goal {
                text: text_of(pattern),
                fixed: self.fixed,
                find,
            },
        }
    }

    /// Plans the run of a pattern for the given purpose.
    fn plan<F: Files>(
        &self,
        pattern: &Chars,
        find: bool,
        purpose: Purpose,
        files: &mut F,
    ) -> Result<Plan, Unready>
        ensures plans { (p : Planned) → IsTold F.tells p.asked → IsRunning (run_of purpose)
            (wanted self.now.roots.now self.now.folders.now self.now.fixed find pattern.now)
            (F.tree files.old) p → Plans (F.asked files.old) (F.asked files.new) result p }
        ensures idle { IsTracing purpose → PlansIdle result }
        ensures over { PlansOver result (names_for purpose) }
        ensures leaves { Leaves F.Source result files.old files.new }
    {
        plan_goal(self.alloc, &self.request(pattern, find), purpose, files)
    }
}

/// Returns the context with these options.
fn base_of<'a>(
    alloc: Global,
    roots: &'a Roots,
    folders: &'a LibPath,
    fixed: bool,
) -> PlanContext<'a>
    ensures { (result.roots.now ≡ roots.now) × (result.folders.now ≡ folders.now)
        × (result.fixed ≡ fixed) }
{
    PlanContext {
        alloc,
        roots,
        folders,
        fixed,
    }
}

/// Plans a command. A session has no plan: it reads its files as its lines arrive.
pub(crate) fn plan_command<F: Files>(
    alloc: Global,
    command: Command,
    files: &mut F,
) -> Result<Plan, Unready>
    requires { command.what ≢ W.Repl }
    ensures plans { OfPlans command F.tells (F.tree files.old)
        (Plans (F.asked files.old) (F.asked files.new) result) }
    ensures idle { is_idle command.what ≡ true → PlansIdle result }
    ensures over { PlansOver result (asked_names command.what) }
    ensures said { needs_nothing command.what ≡ true → PlansSaid result }
    ensures untouched { needs_nothing command.what ≡ true → files.new ≡ files.old }
    ensures leaves { Leaves F.Source result files.old files.new }
{
    let Command {
        what,
        roots,
        folders,
        settings,
        fixed,
        code,
        limit,
        code_file,
    } = command;
    let base = base_of(alloc, &roots, &folders, fixed);
    match what {
        What::Match { pattern, inputs } => match code_file {
            Some(path) => plan_code(alloc, path, settings, inputs, files),
            None => base.plan(&pattern, false, Purpose::Match(settings, inputs), files),
        },
        What::Grep { pattern, inputs } => {
            base.plan(&pattern, true, Purpose::Match(settings, inputs), files)
        }
        What::Trace { pattern, inputs } => {
            let purpose = Purpose::Trace(limit, settings.whole, inputs);
            base.plan(&pattern, false, purpose, files)
        }
        What::Sample { seed, lines } => {
            let purpose = Purpose::Sample(settings, seed, lines);
            plan_sample(alloc, &folders, purpose, files)
        }
        What::Expand { pattern } => {
            plan_expansion(alloc, &base.request(&pattern, false), code, files)
        }
        What::Compile { pattern } => plan_compiled(alloc, &base.request(&pattern, false), files),
        What::Test { file } => plan_tests(alloc, file, &folders, settings.budget, files),
        What::List => plan_list(alloc, &roots, &folders, files),
        What::Class { name } => plan_class(alloc, &name),
        What::Repl => unreachable!(),
    }
}

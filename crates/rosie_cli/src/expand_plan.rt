//! The plan of `expand`.

ghost use Rattle.std.specs.Prelude.{◌≡◌, Ok, IfErr, IfOk};
ghost use Rattle.rosie_prepare.specs.Views.{ready_seen, request_seen};
ghost use Rattle.rosie_prepare.specs.Steps.{IsOwn};
ghost use Rattle.rpl_package.specs.Asking.{IsTold};
ghost use Rattle.rosie_inspect.specs.Expanded.{pattern_text};
ghost use Rattle.rosie_inspect.specs.Expansions.{IsExpansion};
ghost use Rattle.rosie_cli.specs.Planned.{IsExpanded, Expands};
ghost use Rattle.rosie_cli.specs.Plans.{Planned};
ghost use Rattle.rosie_cli.specs.inside.Planning.{IsReady, Leaves, MakesEach, Plans, PlansText};

use crate::plan::{Plan, uncompiled};
use rosie_inspect::Expansion;
use rosie_io::Files;
use rosie_prepare::{PatternRequest, Prepared, prepare};
use rosie_run::Unready;
use rpl_codegen::compile;
use rpl_core::{NoMemory, Program};
use std::alloc::Global;

/// Returns the expansion of a prepared pattern, with the pattern's program if one is given.
fn expansion_of(
    alloc: Global,
    ready: Prepared,
    program: Option<Program>,
) -> Result<Expansion, NoMemory>
    requires { IsReady ready }
    ensures pattern { let seen = ready_seen ready in
        IfOk result (λ e. IsExpansion seen.rules seen.expr seen.goal (pattern_text e)) }
    ensures program { IfOk result (λ e. e.program ≡ program) }
{
    let Prepared {
        expr,
        rules,
        goal,
        ..
    } = ready;
    Expansion::new(alloc, expr, rules, goal, program)
}

/// Plans the output for a prepared pattern: its core, and its program if `wants_code` is `true`.
fn plan_text(alloc: Global, ready: Prepared, wants_code: bool) -> Result<Plan, Unready>
    requires { IsReady ready }
    ensures makes { MakesEach result (Expands wants_code (Ok (ready_seen ready))) }
    ensures own { IfErr result IsOwn }
    ensures text { PlansText result }
{
    if !wants_code {
        let expansion = expansion_of(alloc, ready, None)?;
        return Ok(Plan::Expand(expansion));
    }
    match compile(alloc, &ready.rules, &ready.goal) {
        Ok(program) => {
            let expansion = expansion_of(alloc, ready, Some(program))?;
            Ok(Plan::Expand(expansion))
        }
        Err(fault) => Err(uncompiled(alloc, fault)),
    }
}

/// Plans `expand`, which prints the expansion of a pattern.
pub(crate) fn plan_expansion<F: Files>(
    alloc: Global,
    request: &PatternRequest<'_>,
    wants_code: bool,
    files: &mut F,
) -> Result<Plan, Unready>
    ensures plans { (p : Planned) → IsTold F.tells p.asked
        → IsExpanded (request_seen request.now) wants_code (F.tree files.old) p →
        Plans (F.asked files.old) (F.asked files.new) result p }
    ensures text { PlansText result }
    ensures leaves { Leaves F.Source result files.old files.new }
{
    let ready = prepare(alloc, files, request)?;
    plan_text(alloc, ready, wants_code)
}

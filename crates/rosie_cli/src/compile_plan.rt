//! The plan of `compile`.

ghost use Rattle.std.specs.Prelude.{Ok, IfErr};
ghost use Rattle.rosie_prepare.specs.Views.{ready_seen, request_seen};
ghost use Rattle.rosie_prepare.specs.Steps.{IsOwn};
ghost use Rattle.rpl_package.specs.Asking.{IsTold};
ghost use Rattle.rosie_cli.specs.Planned.{CompilesTo, IsCompiled};
ghost use Rattle.rosie_cli.specs.Plans.{Planned};
ghost use Rattle.rosie_cli.specs.inside.Planning.{IsReady, Leaves, MakesEach, Plans, PlansText};

use crate::plan::{Plan, uncompiled};
use rosie_io::Files;
use rosie_prepare::{PatternRequest, Prepared, prepare};
use rosie_run::Unready;
use rpl_codefile::write_code;
use rpl_codegen::compile;
use std::alloc::Global;

/// Plans to write the code file of a prepared pattern.
fn plan_file(alloc: Global, ready: &Prepared) -> Result<Plan, Unready>
    requires { IsReady ready.now }
    ensures makes { MakesEach result (CompilesTo (Ok (ready_seen ready.now))) }
    ensures own { IfErr result IsOwn }
    ensures text { PlansText result }
{
    match compile(alloc, &ready.rules, &ready.goal) {
        Ok(program) => Ok(Plan::Write(write_code(alloc, &program)?)),
        Err(fault) => Err(uncompiled(alloc, fault)),
    }
}

/// Plans `compile`, which writes the code file of a pattern.
pub(crate) fn plan_compiled<F: Files>(
    alloc: Global,
    request: &PatternRequest<'_>,
    files: &mut F,
) -> Result<Plan, Unready>
    ensures plans { (p : Planned) → IsTold F.tells p.asked
        → IsCompiled (request_seen request.now) (F.tree files.old) p →
        Plans (F.asked files.old) (F.asked files.new) result p }
    ensures text { PlansText result }
    ensures leaves { Leaves F.Source result files.old files.new }
{
    let ready = prepare(alloc, files, request)?;
    plan_file(alloc, &ready)
}

//! A goal with its code.

ghost use Rattle.std.specs.Prelude.{◌≡◌, IfErr, IfOk};
ghost use Rattle.rpl_check.specs.Checked.{IsWhole};
ghost use Rattle.rpl_check.specs.Goal.{peg_of};
ghost use Rattle.rpl_codegen.specs.Compiled.{HasLongCode};
ghost use Rattle.rpl_core.specs.Table.{bodies_of};
ghost use Rattle.rpl_core.specs.View.{core_of};
ghost use Rattle.rpl_core.specs.Program.{instructions};
ghost use Rattle.rosie_jobs.specs.Meant.{IsMeant, IsTotal, job_with};

use rpl_check::{Checked, CheckedPeg};
use rpl_codegen::{CompileFault, compile};
use rpl_core::Program;
use std::alloc::Global;

/// A checked goal, and the rules that it may call.
#[derive(Drop)]
pub(crate) struct CheckedGoal {
    pub(crate) rules: Checked,
    pub(crate) peg: CheckedPeg,
}

/// A goal and its code. The code does what the goal means, and the goal has a meaning for every
/// text.
#[derive(Drop)]
pub struct Job {
    pub(crate) goal: CheckedGoal,
    pub(crate) program: Program,
    ghost meant: { ∥ IsMeant (job_with goal (instructions program)) ∥₁ },
    ghost total: { IsTotal (job_with goal (instructions program)) },
}

impl Job {
    ghost use Rattle.rosie_jobs.specs.Jobs.{job_of, rule_names, IsJobOf};
    ghost use Rattle.rpl_core.specs.Table.{names_of};

    /// Compiles a goal that was checked against these rules. Returns an error if the goal's code is
    /// too long, or if there is not enough memory.
    pub fn new(alloc: Global, rules: Checked, goal: CheckedPeg) -> Result<Job, CompileFault>
        requires { IsWhole (bodies_of rules) (core_of (peg_of goal)) }
        ensures job { IfOk result (λ job. IsJobOf (bodies_of rules) (core_of (peg_of goal))
            (job_of job)) }
        ensures names { IfOk result (λ job. rule_names job ≡ names_of rules) }
        ensures too_long { IfErr result (λ e. e ≡ CompileFault.CodeTooLong
            → HasLongCode (bodies_of rules) (core_of (peg_of goal))) }
    {
        let program = compile(alloc, &rules, &goal)?;
        let goal = CheckedGoal { rules, peg: goal };
        Ok(Job { goal, program })
    }
}

// Compiles a checked goal.
ghost use Rattle.std.specs.Prelude.{◌≡◌, ◌≤◌, IfErr, IfOk, length};
ghost use Rattle.rpl_check.specs.Checked.{IsWhole};
ghost use Rattle.rpl_check.specs.Goal.{peg_of};
ghost use Rattle.rpl_core.specs.Program.{code_of, instructions, labels_of, sets_of};
ghost use Rattle.rpl_core.specs.Programs.{IsCode};
ghost use Rattle.rpl_core.specs.Table.{bodies_of};
ghost use Rattle.rpl_core.specs.View.{core_of};
ghost use Rattle.rpl_codegen.specs.Compiled.{DoesAsMeant, HasLongCode, IsSafeIfCapture};
ghost use Rattle.rpl_intern.specs.Uses.{KeepsOnce, labels_in, sets_in};

use crate::whole::{CompileFault, compile_goal};
use rpl_check::{Checked, CheckedPeg};
use rpl_core::Program;
use std::alloc::Global;

/// Returns the code of a goal that was checked against the table of rules in `checked`: the goal's
/// own code, `finish`, and the code of each rule that the goal reaches, in the order of the table.
/// Equal sets and equal texts are stored once, in the order of their first use.
///
/// On every text, the code does what the goal means. No further premise is needed, since the check
/// has shown that the goal has a meaning on every text.
///
/// # Examples
///
/// ```
/// use rpl_check::{check, check_pattern};
/// use rpl_codegen::compile;
/// use rpl_core::{Instr, Peg, Rules};
/// let checked = check(alloc, Rules::new(alloc))?;
/// let goal = check_pattern(alloc, &checked, Peg::End)?;
/// let program = compile(alloc, &checked, &goal)?;
/// assert!(rt; matches!(program.code(), [Instr::End, Instr::Finish]));
/// ```
pub fn compile(alloc: Global, checked: &Checked, goal: &CheckedPeg) -> Result<Program, CompileFault>
    requires { IsWhole (bodies_of checked.now) (core_of (peg_of goal.now)) }
    ensures code { IfOk result (λ p. IsCode (bodies_of checked.now) (core_of (peg_of goal.now))
        (instructions p)) }
    ensures meant { IfOk result (λ p.
        DoesAsMeant (bodies_of checked.now) (core_of (peg_of goal.now)) (instructions p)) }
    ensures safe { IfOk result (λ p.
        IsSafeIfCapture (bodies_of checked.now) (core_of (peg_of goal.now)) (instructions p)) }
    ensures fits { IfOk result (λ p. length (code_of p) ≤ 1048576) }
    ensures sets { IfOk result (λ p. KeepsOnce (sets_in (instructions p)) (sets_of p)) }
    ensures labels { IfOk result (λ p. KeepsOnce (labels_in (instructions p)) (labels_of p)) }
    ensures too_long { IfErr result (λ e. e ≡ CompileFault.CodeTooLong
        → HasLongCode (bodies_of checked.now) (core_of (peg_of goal.now))) }
{
    compile_goal(alloc, checked.rules(), goal.peg())
}

// The verifier of a program's code.
ghost use Rattle.std.specs.Prelude.{◌↔◌, ◌≤◌, IfOk, IsTrue, length};
ghost use Rattle.rpl_core.specs.Program.{code_of, instructions};
ghost use Rattle.rpl_safe.specs.Safe.{IsSafe};

use crate::finding::find_marks;
use crate::whole_tree::{all_pass, head};
use rpl_core::{NoMemory, Program};
use std::alloc::Global;

/// Returns whether the program's code is safe. Takes time and memory linear in the number of
/// instructions.
pub fn is_safe(alloc: Global, program: &Program) -> Result<bool, NoMemory>
    requires { length (code_of program.now) ≤ 1048576 }
    ensures { IfOk result (λ safe. IsTrue safe ↔ IsSafe (instructions program.now)) }
{
    match head(program) {
        None => Ok(false),
        Some(called) => match find_marks(alloc, program)? {
            None => Ok(false),
            Some(marks) => Ok(all_pass(program, &marks, called)),
        },
    }
}

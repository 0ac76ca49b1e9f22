// The text of a program.
ghost use Rattle.std.specs.Prelude.{◌≡◌, ◌++◌, IfOk, OnOk, chars, string_bytes};
ghost use Rattle.rpl_core.specs.Program.{instructions};
ghost use Rattle.rosie_inspect.specs.Listing.{lines};

use crate::instruction::push_instr;
use crate::kept_set::KeptSet;
use rpl_core::{NoMemory, Program};
use rpl_print::push_decimal;
use rpl_text::Chars;
use std::alloc::Global;

/// Appends the text of a program.
fn push_program(out: &mut String, program: &Program) -> Result<(), NoMemory>
    ensures { OnOk result (string_bytes out.new ≡ string_bytes out.old
        ++ lines 0 (instructions program.now)) }
{
    let mut kept = KeptSet::new(*out.allocator())?;
    for (address, instr) in program.code().iter().enumerate() {
        push_decimal(out, address as u64)?;
        out.push(' ')?;
        push_instr(out, &mut kept, program, *instr)?;
        out.push('\n')?;
    }
    Ok(())
}

/// Returns the text of a program, one line per instruction. Addresses start at 0.
pub fn print_program(alloc: Global, program: &Program) -> Result<Chars, NoMemory>
    ensures { IfOk result (λ text. text ≡ chars (lines 0 (instructions program.now))) }
{
    let mut out = String::new(alloc);
    push_program(&mut out, program)?;
    Chars::from_str(alloc, &out)
}

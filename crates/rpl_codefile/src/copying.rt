// Copies a program's code and renumbers its sets and texts. Each set and each text is stored once,
// in the order of first use.
ghost use Rattle.std.specs.Prelude.{◌≡◌, [], ◌∷◌, ◌<◌, ◌≤◌, OnOk, IfOk, length, slice_index_or};
ghost use Rattle.std.specs.Prelude.{true};
ghost use Rattle.rpl_core.specs.Numbers.{in_range, instr_of};
ghost use Rattle.rpl_core.specs.Program.{code_of, instructions, labels_of, sets_of};
ghost use Rattle.rpl_intern.specs.Written.{Adds};

use rpl_classes::Set;
use rpl_core::{Instr, NoMemory, Program};
use rpl_intern::Draft;
use rpl_text::Chars;
use std::alloc::Global;

/// Returns the set with this number.
fn set_of(program: &Program, number: u32) -> &Set
    requires { number < length (sets_of program.now) }
    ensures { result.now ≡ slice_index_or (sets_of program.now) number [] }
{
    match program.set(number) {
        Some(set) => set,
        None => unreachable!(),
    }
}

/// Returns a copy of the text with this number.
fn text_of(alloc: Global, program: &Program, number: u32) -> Result<Chars, NoMemory>
    requires { number < length (labels_of program.now) }
    ensures { IfOk result (λ text. text ≡ slice_index_or (labels_of program.now) number []) }
{
    match program.label(number) {
        Some(text) => Chars::from_str(alloc, text),
        None => unreachable!(),
    }
}

/// Writes an instruction of the program to the draft, with the number that its set or text has in
/// the draft.
fn copy_instr(
    alloc: Global,
    draft: &mut Draft,
    program: &Program,
    item: Instr,
) -> Result<(), NoMemory>
    requires room { length draft.old.code < 1048576 }
    requires in_range { in_range (length (code_of program.now)) (length (sets_of program.now))
        (length (labels_of program.now)) item ≡ true }
    ensures { OnOk result (Adds draft.old draft.new
        (instr_of (sets_of program.now) (labels_of program.now) item ∷ [])) }
{
    match item {
        Instr::Set(set) => draft.put_set(alloc, set_of(program, set)),
        Instr::Span(set) => draft.put_span(alloc, set_of(program, set)),
        Instr::TestSet(to, set) => draft.put_test(alloc, to, set_of(program, set)),
        Instr::Open(label) => draft.put_open(alloc, &text_of(alloc, program, label)?),
        Instr::Note(text) => draft.put_note(alloc, &text_of(alloc, program, text)?),
        _ => draft.put(item),
    }
}

/// Writes the instructions of the program to the draft, with the numbers that their sets and texts
/// have in the draft.
pub(crate) fn copy_code(alloc: Global, draft: &mut Draft, program: &Program) -> Result<(), NoMemory>
    requires empty { length draft.old.code ≡ 0 }
    requires limit { length (code_of program.now) ≤ 1048576 }
    ensures { OnOk result (Adds draft.old draft.new (instructions program.now)) }
{
    let code = program.code();
    for item in code {
        copy_instr(alloc, draft, program, *item)?;
    }
    Ok(())
}

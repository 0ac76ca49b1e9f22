// Writes and reads code files.
ghost use Rattle.std.specs.Prelude.{◌≡◌, ◌↔◌, IsTrue, ◌<◌, ◌≤◌, IfOk, Err, length};
ghost use Rattle.rpl_core.specs.Program.{code_of, instructions};
ghost use Rattle.rpl_safe.specs.Safe.{IsSafe};
ghost use Rattle.rpl_codefile.specs.Spelling.{Spells, SpellsNone, SpellsUnsafe};
ghost use Rattle.rpl_codefile.specs.inside.Reading.{Reads};

use crate::copying::copy_code;
use crate::fault::CodeFault;
use crate::reading::read_file;
use crate::tables::are_parts;
use crate::writing::write_parts;
use rosie_io::Bytes;
use rpl_core::{NoMemory, Program};
use rpl_intern::Draft;
use rpl_safe::is_safe;
use std::alloc::Global;

/// Returns the one spelling of the program's code. This spelling contains exactly the sets and
/// texts that the code uses, each once and in the order of first use, no matter what the program's
/// own tables contain.
pub fn write_code(alloc: Global, program: &Program) -> Result<Bytes, NoMemory>
    requires some { 0 < length (code_of program.now) }
    requires limit { length (code_of program.now) ≤ 1048576 }
    ensures { IfOk result (λ bytes. Spells (instructions program.now) bytes) }
{
    let mut draft = Draft::new(alloc);
    copy_code(alloc, &mut draft, program)?;
    let _code = program.code();
    let Draft { code, sets, labels } = draft;
    let sets = sets.sets(alloc)?;
    let texts = labels.labels(alloc)?;
    write_parts(alloc, &code, &sets, &texts)
}

/// Returns whether both slices contain the same bytes.
fn same_bytes(a: &[u8], b: &[u8]) -> bool
    ensures { IsTrue result ↔ (a.now ≡ b.now) }
{
    a == b
}

/// Returns the program whose code the bytes spell, whether or not that code is safe.
fn read_spelled(alloc: Global, bytes: &[u8]) -> Result<Program, CodeFault>
    ensures { Reads bytes.now result }
{
    if bytes.len() < 8 {
        return Err(CodeFault::NotCode);
    }
    let (_magic, rest) = bytes.split_at(8);
    let (code, sets, texts) = read_file(alloc, rest)?;
    if !are_parts(alloc, &code, &sets, &texts)? {
        return Err(CodeFault::NotCode);
    }
    let written = write_parts(alloc, &code, &sets, &texts)?;
    if same_bytes(written.as_slice(), bytes) {
        Ok(Program::new(code, sets, texts))
    } else {
        Err(CodeFault::NotCode)
    }
}

/// Returns the program in a code file. Returns `NotCode` exactly when the bytes spell no code, and
/// `NotSafe` exactly when they spell code that isn't safe.
///
/// # Examples
///
/// ```
/// use rpl_codefile::{CodeFault, read_code, write_code};
/// let bytes = b"RPLCODE1\0\0\0\0\0\0\0\x01\0\0\0\0\0\0\0\x01*\0\0\0\x03\x0d\0\0\0\0\x0e\x10";
/// let program = read_code(alloc, bytes.as_slice())?;
/// assert!(rt; program.label(0) == Some("*") && program.code().len() == 3);
/// assert!(rt; write_code(alloc, &program)?.as_slice() == bytes.as_slice());
/// assert!(rt; matches!(read_code(alloc, b"not code".as_slice()), Err(CodeFault::NotCode)));
/// ```
pub fn read_code(alloc: Global, bytes: &[u8]) -> Result<Program, CodeFault>
    ensures ok { IfOk result (λ p. Spells (instructions p) bytes.now × IsSafe (instructions p)) }
    ensures not_code { result ≡ Err CodeFault.NotCode → SpellsNone bytes.now }
    ensures not_safe { result ≡ Err CodeFault.NotSafe → SpellsUnsafe bytes.now }
{
    let program = read_spelled(alloc, bytes)?;
    if is_safe(alloc, &program)? {
        Ok(program)
    } else {
        Err(CodeFault::NotSafe)
    }
}

// Loads a program from a code file.
ghost use Rattle.std.specs.Prelude.{◌≡◌, ◌≢◌, ◌<◌, ◌≤◌, ◌-◌, ◌^◌, false};
ghost use Rattle.std.specs.Prelude.{◌∷◌, [], IfOk, encode_utf8_all};
ghost use Rattle.rosie_jobs.specs.Answers.{Loads};
ghost use Rattle.rosie_jobs.specs.inside.Telling.{IsToldOfFile, Reads, Refuses};
ghost use Rattle.rosie_io.specs.Opening.{file_of};
ghost use Rattle.rosie_run.specs.Unready.{CauseIn, HasAsked};
ghost use Rattle.rpl_core.specs.Program.{instructions};
ghost use Rattle.rpl_safe.specs.Safe.{IsSafe};

use rosie_io::{FileFault, Files, read_bytes};
use rosie_run::{Unready, input_fault};
use rpl_codefile::{CodeFault, read_code};
use rpl_core::Program;
use rpl_print::text_of;
use rpl_text::Chars;
use std::alloc::Global;

/// The greatest length of a code file, in bytes.
const MAX_CODE_BYTES: usize = 67_108_864;

/// Returns `Refused` with the line that reports this message for the file, or `NoMemory` if there
/// is not enough memory for that line.
fn refused(alloc: Global, path: &str, text: &str) -> Unready
    ensures { Refuses path.now text.now result }
{
    match input_fault(alloc, path, text) {
        Ok(line) => Unready::Refused(line),
        Err(_) => Unready::NoMemory,
    }
}

/// Turns a fault in reading a code file into the reason why no program is loaded. The fault must
/// not be `NotText`, since a code file need not be text.
fn of_file(alloc: Global, path: Chars, fault: FileFault) -> Unready
    requires { fault ≢ FileFault.NotText }
    ensures { IsToldOfFile path fault result }
{
    match fault {
        FileFault::Missing => refused(alloc, text_of(&path), "no such file"),
        FileFault::TooLong => refused(alloc, text_of(&path), "text too long"),
        FileFault::ReadFault => Unready::ReadFault(path),
        FileFault::NoMemory => Unready::NoMemory,
        FileFault::NotText => unreachable!(),
    }
}

/// Reads the program that these bytes encode.
fn program_of(alloc: Global, path: &str, bytes: &[u8]) -> Result<Program, Unready>
    ensures { Reads path.now bytes.now result }
{
    match read_code(alloc, bytes) {
        Ok(program) => Ok(program),
        Err(fault) => match fault {
            CodeFault::NotCode => Err(refused(alloc, path, "not a code file")),
            CodeFault::NotSafe => Err(refused(alloc, path, "unsafe code")),
            CodeFault::NoMemory => Err(Unready::NoMemory),
        },
    }
}

/// Loads the program from the code file at `path`. The program's code is safe. If no program can be
/// loaded, the error gives the reason. A read fault names `path`.
pub fn load_code<F: Files>(alloc: Global, files: &mut F, path: Chars) -> Result<Program, Unready>
    ensures loads { let name = encode_utf8_all path
        in F.tells → Loads name (file_of name (F.tree files.old)) result }
    ensures asked { HasAsked (F.asked files.old) (F.asked files.new) result
        (encode_utf8_all path ∷ []) }
    ensures safe { IfOk result (λ program. IsSafe (instructions program)) }
    ensures cause { CauseIn F.Source result files.old files.new }
    ensures taken { F.taken files.new < 2 ^ 64 - 1 → F.taken files.old ≤ F.taken files.new }
    ensures tree { F.tree files.new ≡ F.tree files.old }
    ensures closed { F.is_open files.new ≡ false }
{
    let name = text_of(&path);
    match read_bytes(alloc, files, name, MAX_CODE_BYTES) {
        Ok(bytes) => program_of(alloc, name, bytes.as_slice()),
        Err(fault) => Err(of_file(alloc, path, fault)),
    }
}

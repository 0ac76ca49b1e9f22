// Reads the file a second time.
ghost use Rattle.std.specs.Prelude.{◌≡◌, ◌≤◌, ◌∷◌, [], IfOk, encode_utf8_all, false, length};
ghost use Rattle.std.specs.Prelude.{string_bytes};
ghost use Rattle.rosie_prepare.specs.Lines.{load_line};
ghost use Rattle.rosie_io.specs.Loading.{NotFewer};
ghost use Rattle.rosie_io.specs.Opening.{file_of};
ghost use Rattle.rosie_run.specs.Unready.{CauseIn, HasAsked};
ghost use Rattle.rpl_scope.specs.Faults.{fault_at};
ghost use Rattle.rosie_suites.specs.inside.Steps.{IsRefusal, Rereads};

use rosie_io::{FileFault, Files, read_file};
use rosie_prepare::load_line;
use rosie_run::Unready;
use rpl_package::{LoadFault, LoadKind};
use rpl_print::text_of;
use rpl_text::Chars;
use std::alloc::Global;

/// The greatest number of bytes that an RPL file may have.
const MAX_FILE_BYTES: usize = 1_048_576;

/// Returns a refusal of the whole file, or `NoMemory` if there is not enough memory for the line
/// that reports it.
fn refused(alloc: Global, file: &Chars, kind: LoadKind) -> Unready
    ensures { IsRefusal result (load_line (fault_at file.now 0 kind)) }
{
    let Ok(file) = file.copy(alloc) else {
        return Unready::NoMemory;
    };
    let fault = LoadFault { file, at: 0, kind };
    match load_line(alloc, &fault) {
        Ok(line) => Unready::Refused(line),
        Err(_) => Unready::NoMemory,
    }
}

/// Reads the text of a loaded file once more. If the file is refused here, the line that reports
/// this is the one that loading would have given.
pub(crate) fn read_again<F: Files>(
    alloc: Global,
    files: &mut F,
    file: &Chars,
) -> Result<String, Unready>
    ensures reads { F.tells → Rereads string_bytes result file.now
        (file_of (encode_utf8_all file.now) (F.tree files.old)) }
    ensures short { IfOk result (λ text. length (string_bytes text) ≤ 1048576) }
    ensures asked { HasAsked (F.asked files.old) (F.asked files.new) result
        (encode_utf8_all file.now ∷ []) }
    ensures cause { CauseIn F.Source result files.old files.new }
    ensures taken { NotFewer (F.taken files.old) (F.taken files.new) }
    ensures tree { F.tree files.new ≡ F.tree files.old }
    ensures closed { F.is_open files.new ≡ false }
{
    match read_file(alloc, files, text_of(file), MAX_FILE_BYTES) {
        Ok(text) => Ok(text),
        Err(fault) => match fault {
            FileFault::NoMemory => Err(Unready::NoMemory),
            FileFault::Missing => Err(refused(alloc, file, LoadKind::RootMissing)),
            FileFault::TooLong => Err(refused(alloc, file, LoadKind::FileTooLong)),
            FileFault::NotText => Err(refused(alloc, file, LoadKind::NotText)),
            FileFault::ReadFault => Err(Unready::ReadFault(file.copy(alloc)?)),
        },
    }
}

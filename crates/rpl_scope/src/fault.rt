// Load faults.
ghost use Rattle.std.specs.Prelude.{◌≡◌};
ghost use Rattle.rpl_scope.specs.Faults.{IsStop, fault_at};
ghost use Rattle.rpl_scope.specs.declared.fault.Stop.TheVariants.{Memory as OutOfMemory};

use rpl_lexer::LexKind;
use rpl_macro::MacroFault;
use rpl_parser::ParseKind;
use rpl_text::Chars;
use std::alloc::{AllocError, AllocFailed, Global};
use thiserror::Error;

/// The kind of a fault in the roots, in the files that they import, or in the pattern.
#[derive(Debug, Drop, Error)]
pub enum LoadKind {
    #[error("out of memory")]
    NoMemory,
    /// No folder contains the imported file.
    #[error("import not found")]
    ImportMissing { path: Chars },
    /// The import names a module that is still being loaded.
    #[error("import cycle")]
    ImportCycle { path: Chars },
    /// The text exceeds 1,048,576 bytes.
    #[error("text too long")]
    FileTooLong,
    #[error("not UTF-8")]
    NotText,
    /// A name, prefix or package name is already bound.
    #[error("duplicate name")]
    Duplicate { name: Chars },
    /// The name is not bound.
    #[error("unknown name")]
    UnknownName { name: Chars },
    /// The name is bound, but not visible here.
    #[error("hidden name")]
    HiddenName { name: Chars },
    /// The number of modules would exceed 1,024.
    #[error("too many packages")]
    TooManyPackages,
    /// Reading a file failed for a reason other than a missing file.
    #[error("read failed")]
    ReadFault,
    #[error("{0}")]
    Lex(LexKind),
    #[error("{0}")]
    Parse(ParseKind),
    /// A macro is used incorrectly.
    #[error("{fault}")]
    Macro { name: Chars, fault: MacroFault },
    /// The file of a root is missing.
    #[error("no such file")]
    RootMissing,
}

/// The first fault, with its file, its byte offset in that file, and its kind.
#[derive(Debug, Drop, Error)]
#[error("{kind} at byte {at}")]
pub struct LoadFault {
    pub file: Chars,
    pub at: usize,
    pub kind: LoadKind,
}

/// A position in a file: the byte offset `at`.
#[derive(Clone, Copy)]
pub struct Place<'a> {
    pub file: &'a Chars,
    pub at: usize,
}

/// The error that the functions of this crate return.
#[derive(Debug, Drop)]
pub enum Stop {
    /// Memory ran out.
    Memory,
    Fault(LoadFault),
}

impl From<AllocError> for Stop {
    ghost from_gives = { λ _ stop. stop ≡ OutOfMemory };

    fn from(_cause: AllocError) -> Stop {
        Stop::Memory
    }
}

impl<T: Drop> From<AllocFailed<T>> for Stop {
    ghost from_gives = { λ _ stop. stop ≡ OutOfMemory };

    fn from(_cause: AllocFailed<T>) -> Stop {
        Stop::Memory
    }
}

/// Returns a fault at a byte offset in a file.
pub fn fault_at(alloc: Global, file: &Chars, at: usize, kind: LoadKind) -> Stop
    ensures { IsStop result (fault_at file.now at kind) }
{
    match file.copy(alloc) {
        Ok(file) => Stop::Fault(LoadFault { file, at, kind }),
        Err(_) => Stop::Memory,
    }
}

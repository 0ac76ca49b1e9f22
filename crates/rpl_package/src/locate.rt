// Finds and reads the file of an import.
ghost use Rattle.std.specs.Prelude.{◌≡◌, IfOk, IfErr, false, [], ◌∷◌, ◌++◌, encode_utf8_all};
ghost use Rattle.rosie_io.specs.Opening.{file_of};
ghost use Rattle.rpl_package.specs.Asking.{IfTold, IsTold};
ghost use Rattle.rpl_names.specs.Loading.{file_in, find, paths_tried, search, world};
ghost use Rattle.rpl_package.specs.inside.Reading.{ReadsFile, Locates, IsQuiet};
ghost use Rattle.rpl_package.specs.inside.Leaving.{LeavesFiles};
ghost use Rattle.rpl_package.specs.inside.Stopping.{Searches, StopFor};

use crate::reading::Read;
use rosie_io::{FileFault, Files, read_file};
use rpl_scope::{LoadKind, NoMemory, Stop, fault_at};
use rpl_text::Chars;
use std::alloc::Global;

/// The largest number of bytes that a text may have.
pub const MAX_TEXT_BYTES: usize = 1_048_576;

/// A file that exists, and the result of reading it.
#[derive(Drop)]
pub struct Located {
    pub file: Chars,
    pub read: Read,
}

/// Returns the path of an import's file in a folder.
fn file_in(alloc: Global, folder: &Chars, path: &Chars) -> Result<Chars, NoMemory>
    ensures { IfOk result (λ file. file ≡ file_in folder.now path.now) }
{
    let mut text = String::from_str(alloc, folder.as_str())?;
    text.push_str("/")?;
    text.push_str(path.as_str())?;
    text.push_str(".rpl")?;
    Chars::from_str(alloc, &text)
}

/// Reads a file, if it exists, and closes it.
pub fn read_in<F: Files>(alloc: Global, files: &mut F, file: &Chars) -> Result<Option<Read>, Stop>
    ensures found { F.tells →
        IfOk result (λ r. ReadsFile r (file_of (encode_utf8_all file.now) (F.tree files.old))) }
    ensures quiet { IfErr result IsQuiet }
    ensures asks { IfErr result (StopFor file.now) }
    ensures asked { F.asked files.new ≡ F.asked files.old ++ encode_utf8_all file.now ∷ [] }
    ensures files { LeavesFiles F.Source result files.old files.new }
    ensures closed { F.is_open files.new ≡ false }
{
    match read_file(alloc, files, file.as_str(), MAX_TEXT_BYTES) {
        Ok(text) => Ok(Some(Read::Text(text))),
        Err(FileFault::Missing) => Ok(None),
        Err(FileFault::TooLong) => Ok(Some(Read::TooLong)),
        Err(FileFault::NotText) => Ok(Some(Read::NotText)),
        Err(FileFault::NoMemory) => Err(Stop::Memory),
        Err(FileFault::ReadFault) => Err(fault_at(alloc, file, 0, LoadKind::ReadFault)),
    }
}

/// Reads an import's file from the first folder that contains it, and closes the file.
#[inline(never)]
pub fn locate<F: Files>(
    alloc: Global,
    files: &mut F,
    folders: &[Chars],
    path: &Chars,
) -> Result<Option<Located>, Stop>
    ensures found { IsTold F.tells (paths_tried (F.tree files.old) folders.now path.now) →
        IfOk result (λ l. Locates l (find (F.tree files.old) folders.now path.now)) }
    ensures quiet { IfErr result IsQuiet }
    ensures asked { IfTold F.tells (Searches (F.asked files.old) (F.asked files.new) result)
        (search (world (F.tree files.old) folders.now) path.now) }
    ensures files { LeavesFiles F.Source result files.old files.new }
{
    for folder in folders {
        let file = file_in(alloc, folder, path)?;
        if let Some(read) = read_in(alloc, files, &file)? {
            return Ok(Some(Located { file, read }));
        }
    }
    Ok(None)
}

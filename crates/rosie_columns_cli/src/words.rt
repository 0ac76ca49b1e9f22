// The words of the command line.
ghost use Rattle.std.specs.Prelude.{◌≡◌, ◌≢◌, [], Ok, Err, IfOk, IfErr, OnOk};
ghost use Rattle.rpl_columns.specs.Columns.{column_of};
ghost use Rattle.rosie_columns_cli.specs.Words.{finished_at, format_named, has_columns, last_of};
ghost use Rattle.rosie_columns_cli.specs.Words.{reading, role_of, start, taken, taken_as, wholly};
ghost use Rattle.rosie_columns_cli.specs.Words.{with_column, with_format, words_of};
ghost use Rattle.rosie_columns_cli.specs.declared.fault.WordFault.TheVariants as E;
ghost use Rattle.rosie_columns_cli.specs.declared.words.Front.TheVariants as F;

use crate::NoMemory;
use crate::fault::WordFault;
use rpl_columns::{Column, Columns, Format, Sheet, spelled};
use rpl_text::Chars;
use std::alloc::Global;
use std::marker::Model;

/// The names of inputs. Contracts see them as a list.
#[derive(Drop)]
pub struct Names {
    held: Vec<Chars>,
}

impl Model for Names {
    ghost use Rattle.std.specs.Prelude.{ℕ, List};

    ghost Value = { List (List ℕ) };

    ghost view = { λ n. n.held.items };
}

impl Names {
    ghost use Rattle.std.specs.Prelude.{[], ◌∷◌, ◌++◌, chars};

    /// Returns an empty list of names.
    fn new(alloc: Global) -> Names
        ensures { result ≡ [] }
    {
        Names {
            held: Vec::new(alloc),
        }
    }

    /// Adds a name.
    fn push(&mut self, alloc: Global, name: &str) -> Result<(), NoMemory>
        ensures { OnOk result (self.new ≡ self.old ++ chars name.now ∷ []) }
    {
        let name = Chars::from_str(alloc, name)?;
        match self.held.push(name) {
            Ok(()) => Ok(()),
            Err(_) => Err(NoMemory),
        }
    }

    pub fn as_slice(&self) -> &[Chars]
        ensures { result.now ≡ self.now }
    {
        self.held.as_slice()
    }
}

/// A parsed command line.
#[derive(Drop)]
pub struct Asked {
    pub sheet: Sheet,
    /// Whether to omit the row of column names.
    pub no_header: bool,
    /// The names of the inputs.
    pub names: Names,
}

/// The state of the parse after the words read so far.
#[derive(Clone, Copy)]
pub(crate) enum Front {
    /// An option or a column may follow.
    Free,
    /// The name of a format must follow.
    Format,
    /// The text that joins the texts of a cell must follow.
    Joint,
    /// All further words are names of inputs.
    Names,
}

/// The role of a word at a position where an option may occur.
#[derive(Clone, Copy)]
pub(crate) enum Role {
    Column,
    Output,
    Join,
    NoHeader,
    Names,
    Unknown,
}

/// Returns the role of a word at a position where an option may occur.
fn role_of(word: &str) -> Role
    ensures { result ≡ role_of word.now }
{
    match word {
        "-o" | "--output" => Role::Output,
        "-j" | "--join" => Role::Join,
        "-n" | "--no-header" => Role::NoHeader,
        "--" => Role::Names,
        _ => {
            if let [b'-', ..] = word.as_bytes() {
                Role::Unknown
            } else {
                Role::Column
            }
        }
    }
}

/// Returns the format with this name.
fn format_named(name: &str) -> Option<Format>
    ensures { result ≡ format_named name.now }
{
    match name {
        "csv" => Some(Format::Csv),
        "tsv" => Some(Format::Tsv),
        "json" => Some(Format::Json),
        _ => None,
    }
}

/// The result of parsing the words read so far.
#[derive(Drop)]
pub(crate) struct Reader {
    front: Front,
    asked: Asked,
}

impl Reader {
    /// Returns the state before the first word.
    fn new(alloc: Global) -> Reader
        ensures { result ≡ start }
    {
        let sheet = Sheet {
            format: Format::Csv,
            columns: Columns::new(alloc),
            joint: None,
        };
        let asked = Asked {
            sheet,
            no_header: false,
            names: Names::new(alloc),
        };
        Reader {
            front: Front::Free,
            asked,
        }
    }

    /// Parses a word as a column, and adds the column.
    fn take_column(&mut self, alloc: Global, word: &str) -> Result<(), WordFault>
        requires { self.old.front ≡ F.Free }
        ensures ok { OnOk result (with_column self.old.asked word.now (column_of word.now)
            ≡ Ok self.new) }
        ensures fault { IfErr result (λ e. e ≢ E.NoMemory →
            with_column self.old.asked word.now (column_of word.now) ≡ Err e) }
    {
        match Column::of_word(alloc, word)? {
            Some(column) => {
                self.asked.sheet.columns.push(column)?;
                Ok(())
            }
            None => Err(WordFault::BadColumn(Chars::from_str(alloc, word)?)),
        }
    }

    /// Parses a word as the name of a format, and sets the format.
    fn take_format(&mut self, alloc: Global, word: &str) -> Result<(), WordFault>
        ensures ok { OnOk result (with_format self.old.asked word.now (format_named word.now)
            ≡ Ok self.new) }
        ensures fault { IfErr result (λ e. e ≢ E.NoMemory →
            with_format self.old.asked word.now (format_named word.now) ≡ Err e) }
    {
        match format_named(word) {
            Some(format) => {
                self.asked.sheet.format = format;
                self.front = Front::Free;
                Ok(())
            }
            None => Err(WordFault::BadValue(Chars::from_str(alloc, word)?)),
        }
    }

    /// Parses a word at a position where an option may occur.
    fn take_free(&mut self, alloc: Global, word: &str) -> Result<(), WordFault>
        requires { self.old.front ≡ F.Free }
        ensures ok { OnOk result (taken_as self.old.asked word.now (role_of word.now)
            ≡ Ok self.new) }
        ensures fault { IfErr result (λ e. e ≢ E.NoMemory →
            taken_as self.old.asked word.now (role_of word.now) ≡ Err e) }
    {
        match role_of(word) {
            Role::Column => return self.take_column(alloc, word),
            Role::Output => self.front = Front::Format,
            Role::Join => self.front = Front::Joint,
            Role::NoHeader => self.asked.no_header = true,
            Role::Names => self.front = Front::Names,
            Role::Unknown => {
                return Err(WordFault::UnknownOption(Chars::from_str(alloc, word)?));
            }
        }
        Ok(())
    }

    /// Parses one more word.
    fn take(&mut self, alloc: Global, word: &str) -> Result<(), WordFault>
        ensures ok { OnOk result (taken self.old word.now ≡ Ok self.new) }
        ensures fault { IfErr result (λ e. e ≢ E.NoMemory → taken self.old word.now ≡ Err e) }
    {
        match self.front {
            Front::Free => self.take_free(alloc, word),
            Front::Format => self.take_format(alloc, word),
            Front::Joint => {
                self.asked.sheet.joint = Some(spelled(alloc, word)?);
                self.front = Front::Free;
                Ok(())
            }
            Front::Names => {
                self.asked.names.push(alloc, word)?;
                Ok(())
            }
        }
    }

    /// Ends the parse after the last word, which is `last`.
    fn finish(self, alloc: Global, last: &str) -> Result<Asked, WordFault>
        ensures ok { IfOk result (λ a. finished_at self.front last.now self.asked
            ≡ Ok a) }
        ensures fault { IfErr result (λ e. e ≢ E.NoMemory →
            finished_at self.front last.now self.asked ≡ Err e) }
    {
        match self.front {
            Front::Format | Front::Joint => {
                Err(WordFault::MissingValue(Chars::from_str(alloc, last)?))
            }
            Front::Free | Front::Names => whole(alloc, self.asked),
        }
    }
}

/// Returns whether the sheet has at least one column or needs none. A sheet needs no column if its
/// format is JSON and its `joint` is `None`: all fields are written then.
fn has_columns(sheet: &Sheet) -> bool
    ensures { result ≡ has_columns sheet.now.columns sheet.now.format sheet.now.joint }
{
    if sheet.columns.as_slice().len() != 0 {
        return true;
    }
    match (sheet.format, &sheet.joint) {
        (Format::Json, None) => true,
        _ => false,
    }
}

/// Returns the parsed command line if it names at least one column or needs none. If no input is
/// named, makes standard input the only input.
fn whole(alloc: Global, asked: Asked) -> Result<Asked, WordFault>
    ensures ok { IfOk result (λ a. wholly asked ≡ Ok a) }
    ensures fault { IfErr result (λ e. e ≢ E.NoMemory → wholly asked ≡ Err e) }
{
    if !has_columns(&asked.sheet) {
        return Err(WordFault::NoColumn);
    }
    let mut asked = asked;
    if asked.names.as_slice().len() == 0 {
        asked.names.push(alloc, "-")?;
    }
    Ok(asked)
}

/// Returns the last word, or an empty text if there are no words.
fn last_of(words: &[String]) -> &str
    ensures { result.now ≡ last_of [] (words_of words.now) }
{
    match words.last() {
        Some(word) => word.as_str(),
        None => "",
    }
}

/// Parses the words after the program's name. Returns the first fault, if there is one.
pub fn read_words(alloc: Global, words: &[String]) -> Result<Asked, WordFault>
    ensures ok { IfOk result (λ asked. reading (words_of words.now) ≡ Ok asked) }
    ensures fault { IfErr result (λ e. e ≢ E.NoMemory → reading (words_of words.now) ≡ Err e) }
{
    let mut reader = Reader::new(alloc);
    for word in words {
        reader.take(alloc, word.as_str())?;
    }
    reader.finish(alloc, last_of(words))
}

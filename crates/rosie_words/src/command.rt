//! A parsed command line.

use crate::lists::Paths;
use crate::settings::Settings;
use rpl_names::{LibPath, Roots};
use rpl_text::Chars;

/// A command and its arguments.
///
/// # Examples
///
/// ```
/// use rosie_words::{What, read_words};
/// let mut words = Vec::new(alloc);
/// for word in ["sample", "7", "20"] {
///     words.push(String::from_str(alloc, word)?)?;
/// }
/// let command = read_words(alloc, &words)?;
/// assert!(rt; matches!(command.what, What::Sample { seed: 7, lines: 20 }));
/// ```
#[derive(Debug, Drop)]
pub enum What {
    /// Matches each line from its start. If a code file is given, there is no pattern, and
    /// `pattern` is empty.
    Match { pattern: Chars, inputs: Paths },
    /// Searches each line for the pattern.
    Grep { pattern: Chars, inputs: Paths },
    /// Runs the tests that a file contains.
    Test { file: Chars },
    /// Lists the names that a pattern may use.
    List,
    /// Prints the expansion of a pattern.
    Expand { pattern: Chars },
    /// Prints how each line was matched.
    Trace { pattern: Chars, inputs: Paths },
    /// Generates a sample input and matches it.
    Sample { seed: u32, lines: u32 },
    /// Executes the commands of a session.
    Repl,
    /// Writes the code of a pattern.
    Compile { pattern: Chars },
    /// Prints the ranges of a named set of characters.
    Class { name: Chars },
}

/// A parsed command line, with the defaults filled in.
///
/// # Examples
///
/// ```
/// use rosie_words::read_words;
/// let mut words = Vec::new(alloc);
/// for word in ["trace", "--limit", "50", "-w", "day"] {
///     words.push(String::from_str(alloc, word)?)?;
/// }
/// let command = read_words(alloc, &words)?;
/// assert!(rt; command.limit == 50 && command.settings.whole && !command.settings.all);
/// ```
#[derive(Debug, Drop)]
pub struct Command {
    /// The command and its arguments.
    pub what: What,
    /// The files from `-f` and the texts from `--rpl`, in the order in which they were given.
    pub roots: Roots,
    /// The folders from `--libpath`; by default only the folder `.`.
    pub folders: LibPath,
    /// The settings for every line.
    pub settings: Settings,
    /// `-F`: the pattern is a literal text.
    pub fixed: bool,
    /// `--code`: the program is printed too.
    pub code: bool,
    /// `--limit`: the greatest amount of work allowed for the trace of a line; by default 10,000.
    pub limit: u32,
    /// `--code-file`: the file that contains the program.
    pub code_file: Option<Chars>,
}

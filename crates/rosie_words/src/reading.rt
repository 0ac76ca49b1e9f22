//! Parses the command line.

ghost use Rattle.std.specs.Prelude.{◌≡◌, ◌≢◌, [], ◌∷◌, List, map, OnOk, IfOk, IfErr, Some};
ghost use Rattle.std.specs.Prelude.{None, Ok, Err};
ghost use Rattle.rosie_words.specs.Table.{Word};
ghost use Rattle.rosie_words.specs.Roles.{role, fault, value_fault, given, option_in, argument_in};
ghost use Rattle.rosie_words.specs.Reading.{words_of, reading};
ghost use Rattle.rosie_words.specs.Seen.{front_of, role_of, IsFair, half_of, text};
ghost use Rattle.rosie_words.specs.Taken.{Adds, Takes, Starts, seen, stray_word, chosen_from};
ghost use Rattle.rosie_words.specs.Taken.{finished};
ghost use Rattle.rosie_words.specs.declared.fault.UsageFault.TheVariants as E;

use crate::NoMemory;
use crate::command::Command;
use crate::fault::UsageFault;
use crate::option_values::OptionValues;
use crate::role::{Front, Role};
use crate::table::{CommandName, OptionName, command_named};
use crate::what::what;
use rpl_text::Chars;
use std::alloc::Global;

/// An option, and the word in which it was given.
#[derive(Clone, Copy)]
struct Given<'a> {
    option: OptionName,
    word: &'a str,
}

/// Finds the first option that the command doesn't take, and returns the word in which it was
/// given. Returns `None` if the command takes all of the options. `has_code` says whether a code
/// file was given.
fn stray<'a>(options: &[Given<'a>], command: CommandName, has_code: bool) -> Option<&'a str>
    ensures { half_of result ≡ stray_word command has_code (map seen options.now) }
{
    for given in options {
        if !given.option.is_for(command, has_code) {
            return Some(given.word);
        }
    }
    None
}

/// Returns the command that these options and arguments specify.
fn choose(
    alloc: Global,
    values: OptionValues,
    options: &[Given<'_>],
    arguments: &[&str],
) -> Result<Command, UsageFault>
    ensures ok { IfOk result (λ c. chosen_from values (map seen options.now)
        (map text arguments.now) ≡ Ok c) }
    ensures fault { IfErr result (λ e. e ≢ E.NoMemory →
        chosen_from values (map seen options.now) (map text arguments.now) ≡ Err e) }
{
    let [name, arguments @ ..] = arguments else {
        return Err(UsageFault::NoCommand);
    };
    let Some(command) = command_named(name) else {
        return Err(UsageFault::UnknownCommand(Chars::from_str(alloc, name)?));
    };
    let has_code = values.code_file.is_some();
    if let Some(word) = stray(options, command, has_code) {
        return Err(UsageFault::NotForCommand(Chars::from_str(alloc, word)?));
    }
    let what = what(alloc, command, has_code, arguments)?;
    Ok(values.into_command(command, what))
}

/// The state of the parse after the words processed so far.
#[derive(Drop)]
struct Reader<'a> {
    front: Front<'a>,
    values: OptionValues,
    options: Vec<Given<'a>>,
    arguments: Vec<&'a str>,
}

impl<'a> Reader<'a> {
    /// Returns the state before the first word.
    fn new(alloc: Global) -> Result<Reader<'a>, NoMemory>
        ensures { IfOk result Starts }
    {
        Ok(Reader {
            front: Front::Free,
            values: OptionValues::new(alloc)?,
            options: Vec::new(alloc),
            arguments: Vec::new(alloc),
        })
    }

    /// Processes one more option.
    fn set(
        &mut self,
        alloc: Global,
        option: OptionName,
        word: &'a str,
        value: &str,
    ) -> Result<(), UsageFault>
        ensures sound { OnOk result (value_fault option value.now ≡ None) }
        ensures ok { OnOk result (Adds self.old self.new (given option word.now value.now ∷ [])
            []) }
        ensures fault { IfErr result (λ e. e ≢ E.NoMemory → value_fault option value.now ≡ Some e) }
    {
        self.values.set(alloc, option, value)?;
        self.options.push(Given { option, word })?;
        Ok(())
    }

    /// Processes one more word, given its role.
    fn apply(&mut self, alloc: Global, role: Role<'a>, word: &'a str) -> Result<(), UsageFault>
        requires { IsFair role }
        ensures sound { OnOk result (fault (role_of role.entry) word.now ≡ None) }
        ensures ok { OnOk result (Adds self.old self.new (option_in (role_of role.entry) word.now)
            (argument_in (role_of role.entry) word.now)) }
        ensures fault { IfErr result (λ e. e ≢ E.NoMemory →
            fault (role_of role.entry) word.now ≡ Some e) }
    {
        match role {
            Role::EndOfOptions | Role::Waiting(_) => Ok(()),
            Role::Argument => {
                self.arguments.push(word)?;
                Ok(())
            }
            Role::Unknown => Err(UsageFault::UnknownOption(Chars::from_str(alloc, word)?)),
            Role::Unexpected => Err(UsageFault::UnexpectedValue(Chars::from_str(alloc, word)?)),
            Role::Plain(option) => self.set(alloc, option, word, ""),
            Role::Full(option, value) => self.set(alloc, option, word, value),
            Role::Value(option, name) => self.set(alloc, option, name, word),
        }
    }

    /// Processes one more word.
    fn take(&mut self, alloc: Global, word: &'a str) -> Result<(), UsageFault>
        ensures ok { OnOk result (Takes self.old self.new word.now) }
        ensures fault { IfErr result (λ e. e ≢ E.NoMemory →
            fault (role (front_of self.old.front) word.now) word.now ≡ Some e) }
    {
        let role = self.front.role(word);
        self.apply(alloc, role, word)?;
        self.front = self.front.next(role, word);
        Ok(())
    }

    /// Ends the parse after the last word. Returns the command, or the first fault that is found
    /// only after all words have been processed.
    fn finish(self, alloc: Global) -> Result<Command, UsageFault>
        ensures ok { IfOk result (λ c. finished self.entry ≡ Ok c) }
        ensures fault { IfErr result (λ e. e ≢ E.NoMemory → finished self.entry ≡ Err e) }
    {
        if let Front::Owed(_, word) = self.front {
            return Err(UsageFault::MissingValue(Chars::from_str(alloc, word)?));
        }
        choose(alloc, self.values, &self.options, &self.arguments)
    }
}

/// Parses the words of a command line. Returns the command and its options, with the defaults
/// filled in.
///
/// `words` holds the words after the program's name. The error is the first fault in the words, or
/// `NoMemory`.
///
/// # Examples
///
/// ```
/// use rosie_words::{What, read_words};
/// use rpl_encode::Style;
/// let mut words = Vec::new(alloc);
/// for word in ["match", "--steps", "-o", "line", "-f", "dates.rpl", "day"] {
///     words.push(String::from_str(alloc, word)?)?;
/// }
/// let command = read_words(alloc, &words)?;
/// assert!(rt; command.settings.steps && command.settings.style == Style::Line);
/// assert!(rt; command.roots.len() == 1);
/// assert!(rt; matches!(command.what, What::Match { .. }));
/// ```
pub fn read_words(alloc: Global, words: &[String]) -> Result<Command, UsageFault>
    ensures ok { IfOk result (λ command. reading (words_of words.now) ≡ Ok command) }
    ensures fault { IfErr result (λ fault. fault ≢ E.NoMemory →
        reading (words_of words.now) ≡ Err fault) }
{
    let mut reader = Reader::new(alloc)?;
    for word in words {
        reader.take(alloc, word.as_str())?;
    }
    reader.finish(alloc)
}

/// Proves that, by definition, no list of words has `NoMemory` as its fault.
pub fn no_reading_is_out_of_memory()
    ensures { (words : List Word) → reading words ≢ Err E.NoMemory }
{}

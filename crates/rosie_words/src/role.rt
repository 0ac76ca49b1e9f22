//! Determines the role of each word, which depends on the words before it.

ghost use Rattle.std.specs.Prelude.{◌≡◌};
ghost use Rattle.rosie_words.specs.Roles.{is_option, is_long, name_of, value_of, option_role, role};
ghost use Rattle.rosie_words.specs.Roles.{next};
ghost use Rattle.rosie_words.specs.Seen.{front_of, role_of, half_of, IsFair};
ghost use Rattle.rosie_words.specs.Table.{option_named};

use crate::table::{OptionName, option_named};

/// The state of the parse after the words processed so far.
#[derive(Clone, Copy)]
pub(crate) enum Front<'a> {
    /// An option may follow.
    Free,
    /// The value of this option must follow. The second field is the word that named the option.
    Owed(OptionName, &'a str),
    /// All words that follow are arguments.
    Ended,
}

/// The role of a word.
#[derive(Clone, Copy)]
pub(crate) enum Role<'a> {
    /// The `--` that ends the options.
    EndOfOptions,
    /// An argument.
    Argument,
    /// An option that doesn't exist.
    Unknown,
    /// An option that takes no value.
    Plain(OptionName),
    /// An option that takes no value, but is given one after `=`.
    Unexpected,
    /// An option with its value after `=`.
    Full(OptionName, &'a str),
    /// An option whose value is the next word.
    Waiting(OptionName),
    /// The value of the option that the previous word named. The second field is that previous
    /// word.
    Value(OptionName, &'a str),
}

/// Returns whether the word is a dash followed by at least one more byte.
fn is_option(word: &str) -> bool
    ensures { result ≡ is_option word.now }
{
    matches!(word.as_bytes(), [b'-', _, ..])
}

/// Returns whether the word begins with two dashes.
fn is_long(word: &str) -> bool
    ensures { result ≡ is_long word.now }
{
    matches!(word.as_bytes(), [b'-', b'-', ..])
}

/// Returns the name of the option in a word and, if the word contains a value too, that value.
fn halves(word: &str) -> (&str, Option<&str>)
    ensures name { result.0.now ≡ name_of word.now }
    ensures value { half_of result.1 ≡ value_of word.now }
{
    if !is_long(word) {
        return (word, None);
    }
    match word.split_once('=') {
        Some((name, value)) => (name, Some(value)),
        None => (word, None),
    }
}

/// Returns the role of a word that is an option.
fn option_role(word: &str) -> Role<'_>
    ensures value { role_of result ≡ option_role (option_named (name_of word.now))
        (value_of word.now) }
    ensures fair { IsFair result }
{
    let (name, value) = halves(word);
    match (option_named(name), value) {
        (None, _) => Role::Unknown,
        (Some(option), Some(value)) => {
            if option.takes_value() {
                Role::Full(option, value)
            } else {
                Role::Unexpected
            }
        }
        (Some(option), None) => {
            if option.takes_value() {
                Role::Waiting(option)
            } else {
                Role::Plain(option)
            }
        }
    }
}

impl<'a> Front<'a> {
    /// Returns the role of the next word, given the state before it.
    pub(crate) fn role(self, word: &'a str) -> Role<'a>
        ensures value { role_of result ≡ role (front_of self.entry) word.now }
        ensures fair { IsFair result }
    {
        match self {
            Front::Free if word == "--" => Role::EndOfOptions,
            Front::Free if is_option(word) => option_role(word),
            Front::Free | Front::Ended => Role::Argument,
            Front::Owed(option, name) => Role::Value(option, name),
        }
    }

    /// Returns the state after a word, given the word's role.
    pub(crate) fn next(self, role: Role<'a>, word: &'a str) -> Front<'a>
        ensures { front_of result ≡ next (front_of self.entry) (role_of role.entry) word.now }
    {
        match (self, role) {
            (Front::Ended, _) | (Front::Free, Role::EndOfOptions) => Front::Ended,
            (Front::Free, Role::Waiting(option)) => Front::Owed(option, word),
            (Front::Free | Front::Owed(..), _) => Front::Free,
        }
    }
}

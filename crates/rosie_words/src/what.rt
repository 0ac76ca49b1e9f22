//! Determines the command and its arguments.

ghost use Rattle.std.specs.Prelude.{◌≡◌, ◌≢◌, map, Some, None, IfOk, IfErr, Ok, Err, chars};
ghost use Rattle.rosie_words.specs.Arguments.{none, only, pattern_inputs_of, sample_of, sample};
ghost use Rattle.rosie_words.specs.Arguments.{what};
ghost use Rattle.rosie_words.specs.Values.{number_in};
ghost use Rattle.rosie_words.specs.Seen.{text, pattern_inputs_seen};
ghost use Rattle.rosie_words.specs.declared.fault.UsageFault.TheVariants as E;

use crate::NoMemory;
use crate::command::What;
use crate::fault::UsageFault;
use crate::lists::Paths;
use crate::table::CommandName;
use crate::value::{bad_value, number_in};
use rpl_text::Chars;
use std::alloc::Global;

/// The greatest seed of a sample.
const MAX_SEED: u32 = 2_147_483_647;

/// The greatest number of lines in a sample.
const MAX_LINES: u32 = 1_000_000;

/// Returns the words as paths.
fn paths(alloc: Global, words: &[&str]) -> Result<Paths, NoMemory>
    ensures { IfOk result (λ p. p ≡ map chars (map text words.now)) }
{
    let mut paths = Paths::new(alloc);
    for word in words {
        paths.push(Chars::from_str(alloc, word)?)?;
    }
    Ok(paths)
}

/// Returns an error if there are any arguments.
fn none(arguments: &[&str]) -> Result<(), UsageFault>
    ensures ok { IfOk result (λ _. none (map text arguments.now) ≡ Ok tt) }
    ensures fault { IfErr result (λ e. none (map text arguments.now) ≡ Err e) }
{
    if arguments.is_empty() {
        Ok(())
    } else {
        Err(UsageFault::TooManyArguments)
    }
}

/// Returns the only argument, or an error if there is none or more than one.
fn only(alloc: Global, arguments: &[&str]) -> Result<Chars, UsageFault>
    ensures ok { IfOk result (λ word. only (map text arguments.now) ≡ Ok word) }
    ensures fault { IfErr result (λ e. e ≢ E.NoMemory → only (map text arguments.now) ≡ Err e) }
{
    match arguments {
        [] => Err(UsageFault::MissingArgument),
        [word] => Ok(Chars::from_str(alloc, word)?),
        [_, _, ..] => Err(UsageFault::TooManyArguments),
    }
}

/// A pattern and the input files.
#[derive(Drop)]
struct PatternInputs {
    pattern: Chars,
    inputs: Paths,
}

/// Returns the pattern and the input files among the arguments.
fn pattern_inputs_of(alloc: Global, arguments: &[&str]) -> Result<PatternInputs, UsageFault>
    ensures ok { IfOk result (λ s. pattern_inputs_of (map text arguments.now)
        ≡ Ok (pattern_inputs_seen s)) }
    ensures fault { IfErr result (λ e. e ≢ E.NoMemory → pattern_inputs_of (map text arguments.now)
        ≡ Err e) }
{
    match arguments {
        [] => Err(UsageFault::MissingArgument),
        [pattern, inputs @ ..] => Ok(PatternInputs {
            pattern: Chars::from_str(alloc, pattern)?,
            inputs: paths(alloc, inputs)?,
        }),
    }
}

/// Returns the number that an argument spells. Returns an error if the argument doesn't spell a
/// number, or if the number is greater than `most`.
fn number_argument(alloc: Global, word: &str, most: u32) -> Result<u32, UsageFault>
    ensures ok { IfOk result (λ n. number_in 0 most word.now ≡ Some n) }
    ensures fault { IfErr result (λ e. e ≢ E.NoMemory →
        (number_in 0 most word.now ≡ None) × (e ≡ E.BadValue (chars word.now))) }
{
    match number_in(word, 0, u64::from(most)) {
        Some(number) => Ok(number as u32),
        None => Err(bad_value(alloc, word)),
    }
}

/// Returns the command `sample`, with the seed and the number of lines that these words spell.
fn sample_of(alloc: Global, seed: &str, lines: &str) -> Result<What, UsageFault>
    ensures ok { IfOk result (λ w. sample_of seed.now lines.now ≡ Ok w) }
    ensures fault { IfErr result (λ e. e ≢ E.NoMemory → sample_of seed.now lines.now ≡ Err e) }
{
    Ok(What::Sample {
        seed: number_argument(alloc, seed, MAX_SEED)?,
        lines: number_argument(alloc, lines, MAX_LINES)?,
    })
}

/// Returns the command `sample`, given its arguments.
fn sample(alloc: Global, arguments: &[&str]) -> Result<What, UsageFault>
    ensures ok { IfOk result (λ w. sample (map text arguments.now) ≡ Ok w) }
    ensures fault { IfErr result (λ e. e ≢ E.NoMemory → sample (map text arguments.now) ≡ Err e) }
{
    match arguments {
        [] | [_] => Err(UsageFault::MissingArgument),
        [seed, lines] => sample_of(alloc, seed, lines),
        [_, _, _, ..] => Err(UsageFault::TooManyArguments),
    }
}

/// Returns the command with its arguments. `has_code` says whether a code file was given.
pub(crate) fn what(
    alloc: Global,
    command: CommandName,
    has_code: bool,
    arguments: &[&str],
) -> Result<What, UsageFault>
    ensures ok { IfOk result (λ w. what command has_code (map text arguments.now) ≡ Ok w) }
    ensures fault { IfErr result (λ e. e ≢ E.NoMemory →
        what command has_code (map text arguments.now) ≡ Err e) }
{
    match command {
        CommandName::Match => {
            if has_code {
                let pattern = Chars::from_str(alloc, "")?;
                let inputs = paths(alloc, arguments)?;
                return Ok(What::Match { pattern, inputs });
            }
            let PatternInputs { pattern, inputs } = pattern_inputs_of(alloc, arguments)?;
            Ok(What::Match { pattern, inputs })
        }
        CommandName::Grep => {
            let PatternInputs { pattern, inputs } = pattern_inputs_of(alloc, arguments)?;
            Ok(What::Grep { pattern, inputs })
        }
        CommandName::Trace => {
            let PatternInputs { pattern, inputs } = pattern_inputs_of(alloc, arguments)?;
            Ok(What::Trace { pattern, inputs })
        }
        CommandName::Test => Ok(What::Test {
            file: only(alloc, arguments)?,
        }),
        CommandName::List => {
            none(arguments)?;
            Ok(What::List)
        }
        CommandName::Expand => Ok(What::Expand {
            pattern: only(alloc, arguments)?,
        }),
        CommandName::Sample => sample(alloc, arguments),
        CommandName::Repl => {
            none(arguments)?;
            Ok(What::Repl)
        }
        CommandName::Compile => Ok(What::Compile {
            pattern: only(alloc, arguments)?,
        }),
        CommandName::Class => Ok(What::Class {
            name: only(alloc, arguments)?,
        }),
    }
}

// The lines that report tests.
ghost use Rattle.std.specs.Prelude.{◌≡◌, ◌++◌, IfOk, OnOk, string_bytes};
ghost use Rattle.rpl_unittest.specs.Lines as L;

use crate::test::{Test, Verb};
use rpl_lexer::NoMemory;
use rpl_print::{push_decimal, push_quoted, push_text, text_of};
use rpl_text::Chars;
use std::alloc::Global;

/// Returns the word for a verb.
fn word_of(verb: Verb) -> &'static str
    ensures { result.now ≡ L.word_of verb }
{
    match verb {
        Verb::Accepts => "accepts",
        Verb::Rejects => "rejects",
        Verb::Includes => "includes",
        Verb::Excludes => "excludes",
    }
}

/// Appends the part that the test names, followed by a space. If the test names no part, appends
/// nothing.
fn push_part(line: &mut String, part: &Option<Chars>) -> Result<(), NoMemory>
    ensures { OnOk result (string_bytes line.new ≡ string_bytes line.old ++ L.part_text part.now) }
{
    match part {
        None => Ok(()),
        Some(part) => {
            push_text(line, part)?;
            line.push(' ')
        }
    }
}

/// Returns the line that reports a failing test, as `rosie test` writes it: `FILE:LINE: NAME VERB
/// PART TEXT`. PART is omitted if the test names no part, and TEXT is a JSON string.
pub fn failed_line(alloc: Global, file: &str, test: &Test) -> Result<String, NoMemory>
    ensures { IfOk result (λ line. string_bytes line ≡ L.failed_line file.now test.now) }
{
    let mut line = String::new(alloc);
    line.push_str(file)?;
    line.push_str(":")?;
    push_decimal(&mut line, test.line)?;
    line.push_str(": ")?;
    push_text(&mut line, &test.name)?;
    line.push_str(" ")?;
    line.push_str(word_of(test.verb))?;
    line.push_str(" ")?;
    push_part(&mut line, &test.part)?;
    push_quoted(&mut line, text_of(&test.text))?;
    line.push_str("\n")?;
    Ok(line)
}

/// Returns the last line that `rosie test` prints: how many tests the file contains, and how many
/// of them fail.
pub fn counts_line(alloc: Global, file: &str, tests: u64, failed: u64) -> Result<String, NoMemory>
    ensures { IfOk result (λ line. string_bytes line ≡ L.counts_line file.now tests failed) }
{
    let mut line = String::new(alloc);
    line.push_str(file)?;
    line.push_str(": ")?;
    push_decimal(&mut line, tests)?;
    line.push_str(" tests, ")?;
    push_decimal(&mut line, failed)?;
    line.push_str(" failed\n")?;
    Ok(line)
}

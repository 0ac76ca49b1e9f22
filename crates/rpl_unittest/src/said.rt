// Builds the tests of a test comment from its words.
ghost use Rattle.std.specs.Prelude.{◌≡◌, ◌++◌, map, IfOk, OnOk, option_map, chars};
ghost use Rattle.rpl_unittest.specs.Comments as S;
ghost use Rattle.rpl_unittest.specs.inside.Words.{words_seen, bytes_of, tests_said, test_for};
ghost use Rattle.rpl_unittest.specs.inside.Words.{texts_in, Adds, Tells};

use crate::question::{Question, are_texts, read_question, text_in};
use crate::test::{Test, Tests};
use crate::word::{Word, words};
use rpl_lexer::{LexKind, NoMemory, lex};
use rpl_text::Chars;
use std::alloc::Global;

/// Returns the characters of the part, if there is a part.
fn part_chars(alloc: Global, part: Option<&str>) -> Result<Option<Chars>, NoMemory>
    ensures { IfOk result (λ p. p ≡ option_map chars (bytes_of part.entry)) }
{
    match part {
        None => Ok(None),
        Some(part) => Ok(Some(Chars::from_str(alloc, part)?)),
    }
}

/// Returns the test that the comment on this line states for one of its texts.
fn make_test(
    alloc: Global,
    line: u64,
    asked: &Question<'_, '_>,
    text: &Chars,
) -> Result<Test, NoMemory>
    ensures { IfOk result (λ test. test ≡ test_for line asked.now text.now) }
{
    Ok(Test {
        line,
        name: Chars::from_str(alloc, asked.name)?,
        verb: asked.verb,
        part: part_chars(alloc, asked.part)?,
        text: text.copy(alloc)?,
    })
}

/// Adds a test for each text of the comment.
fn push_tests(
    alloc: Global,
    tests: &mut Tests,
    line: u64,
    asked: &Question<'_, '_>,
) -> Result<(), NoMemory>
    ensures { let texts = texts_in (words_seen asked.now.texts.now) in
        OnOk result (tests.new ≡ tests.old ++ map (test_for line asked.now) texts) }
{
    for word in asked.texts {
        if let Some(text) = text_in(word) {
            tests.push(make_test(alloc, line, asked, text)?)?;
        }
    }
    Ok(())
}

/// Adds the tests of a test comment, given the comment's words. Returns whether the comment is well
/// formed.
fn push_words(
    alloc: Global,
    tests: &mut Tests,
    line: u64,
    words: &[Word<'_>],
) -> Result<bool, NoMemory>
    ensures { let said = tests_said line (S.reading_of (words_seen words.now)) in
        IfOk result (λ done. Adds tests.old tests.new said done) }
{
    match read_question(words) {
        None => Ok(false),
        Some(asked) => {
            if !are_texts(asked.texts) {
                return Ok(false);
            }
            push_tests(alloc, tests, line, &asked)?;
            Ok(true)
        }
    }
}

/// Adds the tests of a test comment. `rest` is the text after the comment's dashes. Returns whether
/// the comment is well formed.
pub(crate) fn push_comment(
    alloc: Global,
    tests: &mut Tests,
    line: u64,
    rest: &str,
) -> Result<bool, NoMemory>
    ensures { IfOk result (λ done. Tells line rest.now tests.old tests.new done) }
{
    match lex(alloc, rest) {
        Ok(tokens) => {
            let words = words(alloc, rest, &tokens)?;
            push_words(alloc, tests, line, &words)
        }
        Err(fault) => {
            if fault.kind == LexKind::NoMemory {
                Err(NoMemory)
            } else {
                Ok(false)
            }
        }
    }
}

// Parses a test comment.
ghost use Rattle.std.specs.Prelude.{◌≡◌, true, option_and_then};
ghost use Rattle.std.specs.Option.{option_copied};
ghost use Rattle.rpl_unittest.specs.Comments as S;
ghost use Rattle.rpl_unittest.specs.inside.Words.{word_seen, words_seen, first_seen, part_seen};
ghost use Rattle.rpl_unittest.specs.inside.Words.{reading_by};
ghost use Rattle.rpl_unittest.specs.inside.Words.{text_in, fits, are_texts};

use crate::test::Verb;
use crate::word::Word;
use rpl_text::Chars;

/// The assertion that a test comment makes. Its texts are kept as they are written.
#[derive(Drop)]
pub(crate) struct Question<'a, 'b> {
    pub(crate) name: &'a str,
    pub(crate) verb: Verb,
    pub(crate) part: Option<&'a str>,
    pub(crate) texts: &'b [Word<'a>],
}

/// If the words begin with a name, returns that name and the words after it.
fn name_first<'a, 'b>(words: &'b [Word<'a>]) -> Option<(&'a str, &'b [Word<'a>])>
    ensures { first_seen result ≡ S.name_first (words_seen words.now) }
{
    match words {
        [] => None,
        [first, rest @ ..] => match first {
            Word::Name(name) => Some((name, rest)),
            Word::Qualified(_) => None,
            Word::Local => None,
            Word::Text(_) => None,
            Word::Comma => None,
            Word::Other => None,
        },
    }
}

/// If the words begin with a part, returns that part and the words after it.
fn part_first<'a, 'b>(words: &'b [Word<'a>]) -> Option<(&'a str, &'b [Word<'a>])>
    ensures { first_seen result ≡ S.part_first (words_seen words.now) }
{
    match words {
        [] => None,
        [first, rest @ ..] => match first {
            Word::Name(name) => Some((name, rest)),
            Word::Qualified(name) => Some((name, rest)),
            Word::Local => None,
            Word::Text(_) => None,
            Word::Comma => None,
            Word::Other => None,
        },
    }
}

/// If the words begin with `local`, returns the words after it. Otherwise, returns all words.
fn past_local<'a, 'b>(words: &'b [Word<'a>]) -> &'b [Word<'a>]
    ensures { words_seen result.now ≡ S.past_local (words_seen words.now) }
{
    match words {
        [] => words,
        [first, rest @ ..] => match first {
            Word::Local => rest,
            Word::Name(_) => words,
            Word::Qualified(_) => words,
            Word::Text(_) => words,
            Word::Comma => words,
            Word::Other => words,
        },
    }
}

/// Returns the verb that a word names.
fn verb_of(word: &str) -> Option<Verb>
    ensures { result ≡ S.verb_of word.now }
{
    if word == "accepts" {
        Some(Verb::Accepts)
    } else if word == "rejects" {
        Some(Verb::Rejects)
    } else if word == "includes" {
        Some(Verb::Includes)
    } else if word == "excludes" {
        Some(Verb::Excludes)
    } else {
        None
    }
}

/// Returns the part that the verb takes, or no part if the verb takes none, together with the
/// remaining words. Returns `None` if the verb takes a part but the words don't begin with one.
fn part_for<'a, 'b>(verb: Verb, words: &'b [Word<'a>]) -> Option<(Option<&'a str>, &'b [Word<'a>])>
    ensures { part_seen result ≡ S.part_for verb (words_seen words.now) }
{
    match verb {
        Verb::Accepts | Verb::Rejects => Some((None, words)),
        Verb::Includes | Verb::Excludes => match part_first(words) {
            None => None,
            Some((part, rest)) => Some((Some(part), rest)),
        },
    }
}

/// Parses words that begin with the pattern's name.
fn of_name<'a, 'b>(words: &'b [Word<'a>]) -> Option<Question<'a, 'b>>
    ensures { reading_by result ≡ option_and_then S.of_name (S.name_first (words_seen words.now)) }
{
    let Some((name, rest)) = name_first(words) else {
        return None;
    };
    let Some((word, rest)) = name_first(rest) else {
        return None;
    };
    let Some(verb) = verb_of(word) else {
        return None;
    };
    let Some((part, texts)) = part_for(verb, rest) else {
        return None;
    };
    Some(Question {
        name,
        verb,
        part,
        texts,
    })
}

/// Parses the words of a test comment.
pub(crate) fn read_question<'a, 'b>(words: &'b [Word<'a>]) -> Option<Question<'a, 'b>>
    ensures { reading_by result ≡ S.reading_of (words_seen words.now) }
{
    let Some((word, rest)) = name_first(words) else {
        return None;
    };
    if word == "test" {
        of_name(past_local(rest))
    } else {
        None
    }
}

/// If the word is a text, returns the characters of that text.
pub(crate) fn text_in<'a>(word: &'a Word<'_>) -> Option<&'a Chars>
    ensures { option_copied result ≡ text_in (word_seen word.now) }
{
    match word {
        Word::Text(text) => Some(text),
        Word::Name(_) => None,
        Word::Qualified(_) => None,
        Word::Local => None,
        Word::Comma => None,
        Word::Other => None,
    }
}

/// Returns whether the word may come next: a text if `wants_text` is set, and a comma
/// otherwise.
fn fits(wants_text: bool, word: &Word<'_>) -> bool
    ensures { result ≡ fits wants_text (word_seen word.now) }
{
    match word {
        Word::Text(_) => wants_text,
        Word::Comma => !wants_text,
        Word::Name(_) => false,
        Word::Qualified(_) => false,
        Word::Local => false,
        Word::Other => false,
    }
}

/// Returns whether the words are one or more texts, separated by commas.
pub(crate) fn are_texts(words: &[Word<'_>]) -> bool
    ensures { result ≡ are_texts true (words_seen words.now) }
{
    let mut wants_text = true;
    for word in words {
        if !fits(wants_text, word) {
            return false;
        }
        wants_text = !wants_text;
    }
    !wants_text
}

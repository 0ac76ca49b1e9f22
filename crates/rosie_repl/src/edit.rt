// The commands of a session.
ghost use Rattle.std.specs.Prelude.{◌≡◌};
ghost use Rattle.rosie_repl.specs.Edits as S;
ghost use Rattle.rosie_repl.specs.Seen.{some_seen};

use rpl_text::read_number;

/// A command of a session. Texts are numbered from 1.
#[derive(Clone, Copy, Debug)]
pub enum Edit<'a> {
    /// `+ TEXT`: adds the text after the last one.
    Add(&'a str),
    /// `= K TEXT`: replaces text number K with this text.
    Replace(u64, &'a str),
    /// `- K`: removes text number K.
    Remove(u64),
    /// `? PATTERN`: replaces the kept pattern, if any, with this pattern.
    Pattern(&'a str),
    /// `> LINE`: matches the line with the kept pattern.
    Try(&'a str),
    /// `u`: undoes the last accepted change.
    Undo,
}

/// Parses the rest of an `=` command: a number, a space and the new text.
fn replaces(rest: &str) -> Option<Edit<'_>>
    ensures { some_seen result ≡ S.replaces rest.now }
{
    match rest.split_once(' ') {
        Some((number, text)) => {
            let number = read_number(number.as_bytes())?;
            Some(Edit::Replace(number, text))
        }
        None => None,
    }
}

/// Parses a command, given its sign and the rest of the line.
fn by_sign<'a>(sign: &str, rest: &'a str) -> Option<Edit<'a>>
    ensures { some_seen result ≡ S.by_sign sign.now rest.now }
{
    match sign {
        "+" => Some(Edit::Add(rest)),
        "=" => replaces(rest),
        "-" => Some(Edit::Remove(read_number(rest.as_bytes())?)),
        "?" => Some(Edit::Pattern(rest)),
        ">" => Some(Edit::Try(rest)),
        _ => None,
    }
}

/// Parses a line as a command. Returns `None` exactly when the line has none of the six forms of a
/// command. A text's number may be any number below 2^64. A text, a pattern or a line consists of
/// everything after the space that precedes it, and may be empty.
pub fn read_edit(line: &str) -> Option<Edit<'_>>
    ensures { some_seen result ≡ S.edit_of line.now }
{
    match line.split_once(' ') {
        Some((sign, rest)) => by_sign(sign, rest),
        None => { if line == "u" { Some(Edit::Undo) } else { None } }
    }
}

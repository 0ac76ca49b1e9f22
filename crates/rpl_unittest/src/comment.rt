// Recognizes the lines that are test comments.
ghost use Rattle.std.specs.Prelude.{◌≡◌, ◌≤◌, length};
ghost use Rattle.std.specs.Option.{option_copied};
ghost use Rattle.rpl_lexer.specs.Bytes.{is_space, run};
ghost use Rattle.rpl_unittest.specs.Comments.{behind, trimmed, goes_on, comment_of};

/// Returns the number of leading spaces and tabs.
fn spaces(bytes: &[u8]) -> usize
    ensures value { result ≡ run is_space bytes.now }
    ensures inside { result ≤ length bytes.now }
{
    let mut count = 0;
    for byte in bytes {
        if *byte != b' ' && *byte != b'\t' {
            break;
        }
        count += 1;
    }
    count
}

/// Returns the bytes without leading spaces and tabs.
fn past_spaces(bytes: &[u8]) -> &[u8]
    ensures { result.now ≡ trimmed bytes.now }
{
    &bytes[spaces(bytes)..]
}

/// If the bytes begin with `front`, returns the bytes after `front`.
fn past<'a>(front: &[u8], bytes: &'a [u8]) -> Option<&'a [u8]>
    ensures { option_copied result ≡ behind front.now bytes.now }
{
    match front {
        [] => Some(bytes),
        [first, fronts @ ..] => match bytes {
            [] => None,
            [byte, rest @ ..] => {
                if *first == *byte {
                    past(fronts, rest)
                } else {
                    None
                }
            }
        },
    }
}

/// Returns whether `rest` is `Some` and begins with a space or a tab.
fn goes_on(rest: Option<&[u8]>) -> bool
    ensures { result ≡ goes_on (option_copied rest.entry) }
{
    matches!(rest, Some([b' ' | b'\t', ..]))
}

/// If the line is a test comment, returns the bytes after its dashes.
fn comment_of(line: &[u8]) -> Option<&[u8]>
    ensures { option_copied result ≡ comment_of line.now }
{
    match past(b"--", past_spaces(line)) {
        None => None,
        Some(rest) => {
            if goes_on(past(b"test", past_spaces(rest))) {
                Some(rest)
            } else {
                None
            }
        }
    }
}

/// If the line is a test comment, returns the text after its dashes.
pub(crate) fn comment_in(line: &str) -> Option<&str>
    ensures { option_copied result ≡ comment_of line.now }
{
    match comment_of(line.as_bytes()) {
        None => None,
        Some(rest) => Some(&line[line.len() - rest.len()..]),
    }
}

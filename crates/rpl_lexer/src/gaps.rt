// Blanks and comments between tokens.
ghost use Rattle.std.specs.Prelude.{◌≡◌, ◌≤◌, ℕ, List, length, drop, false};
ghost use Rattle.rpl_lexer.specs.Gaps.{gap, goes_on, dash_next};

fn dash_at(bytes: &[u8], place: usize) -> bool
    ensures { result ≡ dash_next (drop place bytes.now) }
{
    place < bytes.len() && bytes[place] == b'-'
}

/// Returns `None` if a gap of blanks and comments ends before the byte. Otherwise returns whether a
/// comment is open after the byte. `comment` says whether a comment is open before the byte, and
/// `dash` says whether a `-` follows the byte.
fn goes_on(comment: bool, b: u8, dash: bool) -> Option<bool>
    ensures { (bs : List ℕ) → dash ≡ dash_next bs → result ≡ goes_on comment b bs }
{
    if comment {
        Some(b != b'\n')
    } else if b == b' ' || b == b'\t' || b == b'\r' || b == b'\n' {
        Some(false)
    } else if b == b'-' && dash {
        Some(true)
    } else {
        None
    }
}

/// Returns the length in bytes of the leading blanks and comments.
pub(crate) fn gap_len(bytes: &[u8]) -> usize
    ensures value { result ≡ gap false bytes.now }
    ensures inside { result ≤ length bytes.now }
{
    let mut comment = false;
    for i in 0..bytes.len() {
        match goes_on(comment, bytes[i], dash_at(bytes, i + 1)) {
            Some(now) => comment = now,
            None => return i,
        }
    }
    bytes.len()
}

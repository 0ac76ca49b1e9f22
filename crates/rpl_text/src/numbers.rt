// Decimal numbers.
ghost use Rattle.std.specs.Prelude.{◌≡◌};
ghost use Rattle.std.specs.List.{list_all};
ghost use Rattle.std.specs.Char.{is_ascii_digit};
ghost use Rattle.rpl_text.specs.Numbers.{value, are_digits, narrow, number_of};

/// Returns whether every byte is a digit.
fn all_digits(word: &[u8]) -> bool
    ensures { result ≡ list_all is_ascii_digit word.now }
{
    word.iter().all(|byte| byte.is_ascii_digit())
}

/// Returns whether `word` consists of at least one digit and nothing else.
fn are_digits(word: &[u8]) -> bool
    ensures { result ≡ are_digits word.now }
{
    !word.is_empty() && all_digits(word)
}

/// Returns the number that the digits spell, or `None` if it does not fit in 64 bits. Each byte
/// counts as its distance from the digit `0`, or as 0 if it is below that digit. The caller must
/// therefore check that all bytes are digits.
pub fn value_of_digits(digits: &[u8]) -> Option<u64>
    ensures { result ≡ narrow (value 0 digits.now) }
{
    let mut number: u64 = 0;
    for i in 0..digits.len() {
        let tens = number.checked_mul(10)?;
        number = tens.checked_add(u64::from(digits[i]).saturating_sub(48))?;
    }
    Some(number)
}

/// Parses a word as a decimal number, which can have leading zeros. Returns `None` exactly when the
/// word is empty, contains a byte that is not a digit, or spells a number that does not fit in 64
/// bits.
pub fn read_number(word: &[u8]) -> Option<u64>
    ensures { result ≡ number_of word.now }
{
    if are_digits(word) {
        value_of_digits(word)
    } else {
        None
    }
}

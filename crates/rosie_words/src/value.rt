//! The values of options.

ghost use Rattle.std.specs.Prelude.{◌≡◌, ◌<◌, ◌≤◌, ◌^◌};
ghost use Rattle.std.specs.Prelude.{◌≢◌, chars};
ghost use Rattle.rosie_words.specs.declared.fault.UsageFault.TheVariants as E;
ghost use Rattle.rosie_words.specs.Values.{style_named, number_in};

use crate::fault::UsageFault;
use rpl_encode::Style;
use rpl_text::Chars;
use std::alloc::Global;

/// Returns the style that a word names.
pub(crate) fn style_named(word: &str) -> Option<Style>
    ensures { result ≡ style_named word.now }
{
    match word {
        "json" => Some(Style::Json),
        "line" => Some(Style::Line),
        "matches" => Some(Style::Matches),
        "subs" => Some(Style::Subs),
        "data" => Some(Style::Plain),
        "bool" => Some(Style::Bool),
        _ => None,
    }
}

/// Returns the number that a word spells in decimal digits, if that number is at least `least` and
/// at most `most`.
pub(crate) fn number_in(word: &str, least: u64, most: u64) -> Option<u64>
    requires { most ≤ 2 ^ 40 }
    ensures { result ≡ number_in least most word.now }
{
    if word.is_empty() {
        return None;
    }
    let mut number: u64 = 0;
    for byte in word.as_bytes() {
        if !byte.is_ascii_digit() {
            return None;
        }
        number = number * 10 + u64::from(*byte - b'0');
        if most < number {
            return None;
        }
    }
    (least <= number).then_some(number)
}

/// Returns the fault for a malformed value.
pub(crate) fn bad_value(alloc: Global, value: &str) -> UsageFault
    ensures { result ≢ E.NoMemory → result ≡ E.BadValue (chars value.now) }
{
    match Chars::from_str(alloc, value) {
        Ok(value) => UsageFault::BadValue(value),
        Err(_) => UsageFault::NoMemory,
    }
}

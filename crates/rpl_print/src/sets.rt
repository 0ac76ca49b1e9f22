// Sets of characters.
ghost use Rattle.std.specs.Prelude.{◌≡◌, ◌++◌, ◌∷◌, OnErr, OnOk, flat_map, string_bytes};
ghost use Rattle.rpl_print.specs.Sets.{range_text, set_text};
ghost use Rattle.rpl_print.specs.inside.Behind.{StandsBefore};

use crate::words::push_hexadecimal;
use rpl_classes::Set;
use rpl_text::NoMemory;

/// Appends a set: its ranges in hexadecimal, separated by spaces, or `none` if it is empty.
pub fn push_set(out: &mut String, set: &Set) -> Result<(), NoMemory>
    ensures ok { OnOk result (string_bytes out.new ≡ string_bytes out.old ++ set_text set.now) }
    ensures err { OnErr result (string_bytes out.new ≡ string_bytes out.old) }
{
    let before = out.len();
    match push_ranges(out, set.ranges()) {
        Ok(()) => Ok(()),
        Err(fault) => {
            out.truncate(before);
            Err(fault)
        }
    }
}

/// Appends all ranges of a set, or `none` if it has no ranges.
fn push_ranges(out: &mut String, ranges: &[(u32, u32)]) -> Result<(), NoMemory>
    ensures ok { OnOk result (string_bytes out.new ≡ string_bytes out.old ++ set_text ranges.now) }
    ensures stays { StandsBefore (string_bytes out.old) (string_bytes out.new) }
{
    match ranges {
        [] => out.push_str("none"),
        [first, rest @ ..] => {
            push_range(out, *first)?;
            push_more(out, rest)
        }
    }
}

/// Appends ranges, each with a space before it.
fn push_more(out: &mut String, ranges: &[(u32, u32)]) -> Result<(), NoMemory>
    ensures ok { OnOk result (string_bytes out.new ≡ string_bytes out.old
        ++ flat_map (λ r. 32 ∷ range_text r) ranges.now) }
    ensures stays { StandsBefore (string_bytes out.old) (string_bytes out.new) }
{
    for range in ranges {
        out.push(' ')?;
        push_range(out, *range)?;
    }
    Ok(())
}

/// Appends a range as its first and last character, or as its only character.
fn push_range(out: &mut String, range: (u32, u32)) -> Result<(), NoMemory>
    ensures ok { OnOk result (string_bytes out.new ≡ string_bytes out.old ++ range_text range) }
    ensures stays { StandsBefore (string_bytes out.old) (string_bytes out.new) }
{
    push_hexadecimal(out, range.0)?;
    if range.0 != range.1 {
        out.push('-')?;
        push_hexadecimal(out, range.1)?;
    }
    Ok(())
}

// The text of a class of characters.
ghost use Rattle.std.specs.Prelude.{◌≡◌, ◌++◌, [], OnOk, flat_map, string_bytes};
ghost use Rattle.rosie_inspect.specs.Classes.{class_text, line_of};
ghost use Rattle.rpl_print.specs.Sets.{range_text};

use rpl_classes::Set;
use rpl_core::NoMemory;
use rpl_print::push_hexadecimal;

/// Appends a range: its first and its last character, or its only character.
fn push_range(out: &mut String, range: (u32, u32)) -> Result<(), NoMemory>
    ensures { OnOk result (string_bytes out.new ≡ string_bytes out.old ++ range_text range) }
{
    let (first, last) = range;
    push_hexadecimal(out, first)?;
    if first == last {
        return Ok(());
    }
    out.push('-')?;
    push_hexadecimal(out, last)
}

/// Appends ranges, one per line.
fn push_ranges(out: &mut String, ranges: &[(u32, u32)]) -> Result<(), NoMemory>
    ensures { OnOk result (string_bytes out.new ≡ string_bytes out.old
        ++ flat_map line_of ranges.now) }
{
    for range in ranges {
        push_range(out, *range)?;
        out.push('\n')?;
    }
    Ok(())
}

/// Appends the text of a set: its ranges in hexadecimal, one per line, or `none` if the set has no
/// characters.
pub fn push_class(out: &mut String, set: &Set) -> Result<(), NoMemory>
    ensures { OnOk result (string_bytes out.new ≡ string_bytes out.old ++ class_text set.now) }
{
    match set.ranges() {
        [] => out.push_str("none\n"),
        ranges => push_ranges(out, ranges),
    }
}

// The line that is made from a number.
ghost use Rattle.std.specs.Prelude.{◌≡◌, ◌++◌, ◌<◌, [], OnOk, nat_lt, if◌then◌else◌, codes};
ghost use Rattle.std.specs.Prelude.{string_bytes};
ghost use Rattle.rosie_jobs.specs.SampleLines.{two_digits, level, date, dated, undated, line_of};

use rosie_run::NoMemory;
use rpl_print::push_decimal;

/// Returns the zero to print before a one-digit number, or the empty text for any other number.
fn zero_before(number: u32) -> &'static str
    ensures { result.now ≡ (if nat_lt number 10 then codes "0" else []) }
{
    if number < 10 { "0" } else { "" }
}

/// Appends a number as two digits.
fn push_two_digits(out: &mut String, number: u32) -> Result<(), NoMemory>
    ensures { OnOk result (string_bytes out.new ≡ string_bytes out.old ++ two_digits number) }
{
    out.push_str(zero_before(number))?;
    push_decimal(out, number as u64)
}

/// Returns the name of a level.
fn level(number: u32) -> &'static str
    ensures { result.now ≡ level number }
{
    match number {
        0 => "INFO",
        1 => "WARN",
        _ => "ERROR",
    }
}

/// Appends the date that is made from a line's number.
fn push_date(out: &mut String, number: u32) -> Result<(), NoMemory>
    ensures { OnOk result (string_bytes out.new ≡ string_bytes out.old ++ date number) }
{
    out.push_str("2024-")?;
    push_two_digits(out, 1 + number % 12)?;
    out.push_str("-")?;
    push_two_digits(out, 1 + number % 28)
}

/// Appends a line with a date and a level.
fn push_dated(out: &mut String, number: u32) -> Result<(), NoMemory>
    ensures { OnOk result (string_bytes out.new ≡ string_bytes out.old ++ dated number) }
{
    push_date(out, number)?;
    out.push_str(" ")?;
    out.push_str(level(number % 4))?;
    out.push_str(" ")?;
    push_decimal(out, number as u64)
}

/// Appends a line without a date or a level.
fn push_undated(out: &mut String, number: u32) -> Result<(), NoMemory>
    ensures { OnOk result (string_bytes out.new ≡ string_bytes out.old ++ undated number) }
{
    out.push_str("no date ")?;
    push_decimal(out, number as u64)
}

/// Appends the line that is made from a number.
#[tactic(auto, unfolding(crate::specs::SampleLines::line_of))]
pub(crate) fn push_line(out: &mut String, number: u32) -> Result<(), NoMemory>
    ensures { OnOk result (string_bytes out.new ≡ string_bytes out.old ++ line_of number) }
{
    if number % 4 == 3 {
        push_undated(out, number)
    } else {
        push_dated(out, number)
    }
}

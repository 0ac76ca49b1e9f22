// Prints a core as text.
ghost use Rattle.std.specs.Prelude.{◌≡◌, ◌++◌, ◌∷◌, IfOk, OnOk, codes, decimal};
ghost use Rattle.std.specs.Prelude.{encode_utf8_all, slice_get};
ghost use Rattle.std.specs.Prelude.{string_bytes};
ghost use Rattle.rpl_core.specs.Listed.{rules_of};
ghost use Rattle.rpl_core.specs.Table.{names_of};
ghost use Rattle.rpl_core.specs.View.{core_of, cores};
ghost use Rattle.rpl_expand.specs.Printed.{in_brackets, printed, printed_all, text_if};
ghost use Rattle.rpl_print.specs.Quoted as Q;
ghost use Rattle.rpl_print.specs.Sets.{set_text};

use crate::NoMemory;
use rpl_classes::Set;
use rpl_core::{Peg, Rules};
use rpl_print::{push_decimal, push_quoted, push_set, push_text, text_of};
use rpl_text::Chars;
use std::alloc::Global;

/// Appends a set in parentheses.
fn push_class(out: &mut String, set: &Set) -> Result<(), NoMemory>
    ensures { OnOk result (string_bytes out.new
        ≡ string_bytes out.old ++ in_brackets (codes "(set ") (set_text set.now)) }
{
    out.push_str("(set ")?;
    push_set(out, set)?;
    out.push(')')
}

/// Appends a call of a rule, written with the name of the rule.
fn push_call(out: &mut String, rules: &Rules, rule: u32) -> Result<(), NoMemory>
    ensures { OnOk result (string_bytes out.new
        ≡ string_bytes out.old ++ in_brackets (codes "(call ")
        (text_if (slice_get (names_of (rules_of rules.now)) rule))) }
{
    out.push_str("(call ")?;
    if let Some(rule) = rules.get(rule) {
        push_text(out, &rule.name)?;
    }
    out.push(')')
}

/// Appends a note that contains `text`.
fn push_note(out: &mut String, text: &Chars) -> Result<(), NoMemory>
    ensures { OnOk result (string_bytes out.new
        ≡ string_bytes out.old ++ in_brackets
        (codes "(note ") (Q.quoted (encode_utf8_all text.now))) }
{
    out.push_str("(note ")?;
    push_quoted(out, text_of(text))?;
    out.push(')')
}

/// Appends the opening text `head`, a pattern, and the closing parenthesis.
#[cycle(print)]
fn push_body(out: &mut String, rules: &Rules, head: &str, body: &Peg) -> Result<(), NoMemory>
    ensures { OnOk result (string_bytes out.new
        ≡ string_bytes out.old ++ in_brackets head.now
        (printed (names_of (rules_of rules.now)) (core_of body.now))) }
{
    out.push_str(head)?;
    push_peg(out, rules, body)?;
    out.push(')')
}

/// Appends the opening text `head`, the patterns, and the closing parenthesis.
#[cycle(print)]
fn push_group(out: &mut String, rules: &Rules, head: &str, parts: &[Peg]) -> Result<(), NoMemory>
    ensures { OnOk result (string_bytes out.new
        ≡ string_bytes out.old ++ in_brackets head.now
        (printed_all (names_of (rules_of rules.now)) (cores parts.now))) }
{
    out.push_str(head)?;
    push_parts(out, rules, parts)?;
    out.push(')')
}

/// Appends the patterns, each preceded by a space.
#[cycle(print)]
fn push_parts(out: &mut String, rules: &Rules, parts: &[Peg]) -> Result<(), NoMemory>
    ensures { OnOk result (string_bytes out.new
        ≡ string_bytes out.old ++ printed_all (names_of (rules_of rules.now)) (cores parts.now)) }
{
    for part in parts {
        out.push(' ')?;
        push_peg(out, rules, part)?;
    }
    Ok(())
}

/// Appends a look-behind.
#[cycle(print)]
fn push_behind(
    out: &mut String,
    rules: &Rules,
    least: u32,
    most: u32,
    body: &Peg,
) -> Result<(), NoMemory>
    ensures { OnOk result (string_bytes out.new
        ≡ string_bytes out.old ++ in_brackets (codes "(behind ")
        (decimal least ++ 32 ∷ decimal most ++ 32 ∷ printed (names_of (rules_of rules.now))
        (core_of body.now))) }
{
    out.push_str("(behind ")?;
    push_decimal(out, u64::from(least))?;
    out.push(' ')?;
    push_decimal(out, u64::from(most))?;
    push_body(out, rules, " ", body)
}

/// Appends a capture.
#[cycle(print)]
fn push_capture(out: &mut String, rules: &Rules, name: &Chars, body: &Peg) -> Result<(), NoMemory>
    ensures { OnOk result (string_bytes out.new
        ≡ string_bytes out.old ++ in_brackets (codes "(capture ")
        (encode_utf8_all name.now ++ 32 ∷ printed (names_of (rules_of rules.now))
        (core_of body.now))) }
{
    out.push_str("(capture ")?;
    push_text(out, name)?;
    push_body(out, rules, " ", body)
}

/// Appends the text of a pattern over a table of rules. A call of a rule that is not in the table
/// is printed without a name.
#[cycle(print)]
pub fn push_peg(out: &mut String, rules: &Rules, peg: &Peg) -> Result<(), NoMemory>
    ensures { OnOk result (string_bytes out.new
        ≡ string_bytes out.old ++ printed (names_of (rules_of rules.now)) (core_of peg.now)) }
{
    match peg {
        Peg::Set(set) => push_class(out, set),
        Peg::Seq(parts) => push_group(out, rules, "(seq", parts.as_slice()),
        Peg::Choice(parts) => push_group(out, rules, "(choice", parts.as_slice()),
        Peg::Many(body) => push_body(out, rules, "(many ", body),
        Peg::Not(body) => push_body(out, rules, "(not ", body),
        Peg::And(body) => push_body(out, rules, "(and ", body),
        Peg::Behind { least, most, body } => push_behind(out, rules, *least, *most, body),
        Peg::Call(rule) => push_call(out, rules, *rule),
        Peg::Capture(name, body) => push_capture(out, rules, name, body),
        Peg::Note(text) => push_note(out, text),
        Peg::Start => out.push_str("start"),
        Peg::End => out.push_str("end"),
        Peg::Halt => out.push_str("halt"),
    }
}

/// Returns the text of a pattern over a table of rules, as `rosie expand` writes it, for example
/// `(seq (set 61) (call ~))`. A call is printed with the full name of its rule; a call of a rule
/// that is not in the table is printed without a name.
pub fn print_peg(alloc: Global, rules: &Rules, peg: &Peg) -> Result<Chars, NoMemory>
    ensures { IfOk result (λ t. encode_utf8_all t ≡ printed (names_of (rules_of rules.now))
        (core_of peg.now)) }
{
    let mut out = String::new(alloc);
    push_peg(&mut out, rules, peg)?;
    Chars::from_str(alloc, &out)
}

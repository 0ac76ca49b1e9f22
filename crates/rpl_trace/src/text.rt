// The text of a trace, built line by line.
ghost use Rattle.std.specs.Prelude.{◌≡◌, ◌++◌, ◌<◌, [], OnOk, IfOk, IsTrue, false, length, reverse};
ghost use Rattle.std.specs.Prelude.{slice_index_or, string_bytes};
ghost use Rattle.std.specs.Str.{encode_utf8_all};
ghost use Rattle.rpl_core.specs.Listed.{rules_of};
ghost use Rattle.rpl_core.specs.Table.{names_of};
ghost use Rattle.rpl_core.specs.View.{core_of};
ghost use Rattle.rpl_trace.specs.Kinds.{kind_of, kind_seen};
ghost use Rattle.rpl_trace.specs.Left.{end_text, offset_text, text_of_line};
ghost use Rattle.rpl_trace.specs.Printed as P;

use crate::event::{End, Kind};
use crate::lines::Line;
use itoa::Buffer;
use rpl_core::{NoMemory, Peg, Rules};
use rpl_print::{push_decimal, push_quoted, push_set, push_text, text_of};
use std::alloc::Global;

/// Appends a place, counted from 1.
fn push_place(out: &mut String, place: usize) -> Result<(), NoMemory>
    ensures { OnOk result (string_bytes out.new ≡ string_bytes out.old ++ offset_text place) }
{
    let mut buffer = Buffer::new();
    out.push_str(buffer.format(place as u128 + 1))
}

/// Appends the outcome of an evaluation.
fn push_end(out: &mut String, end: End) -> Result<(), NoMemory>
    ensures { OnOk result (string_bytes out.new ≡ string_bytes out.old ++ end_text end) }
{
    match end {
        End::Fails => out.push_str("fail"),
        End::At(place) => push_place(out, place),
        End::Halts(_) => out.push_str("halt"),
    }
}

/// Appends the full name of a rule.
fn push_name(out: &mut String, rules: &Rules, rule: u32) -> Result<(), NoMemory>
    ensures { OnOk result (string_bytes out.new
        ≡ string_bytes out.old ++ encode_utf8_all
        (slice_index_or (names_of (rules_of rules.now)) rule [])) }
{
    match rules.get(rule) {
        Some(rule) => push_text(out, &rule.name),
        None => Ok(()),
    }
}

/// Appends the kind of a pattern.
fn push_peg(out: &mut String, rules: &Rules, peg: &Peg) -> Result<(), NoMemory>
    ensures { OnOk result (string_bytes out.new
        ≡ string_bytes out.old ++ P.kind_text (names_of (rules_of rules.now))
        (kind_of (core_of peg.now))) }
{
    match peg {
        Peg::Set(set) => {
            out.push_str("set ")?;
            push_set(out, set)
        }
        Peg::Seq(_) => out.push_str("seq"),
        Peg::Choice(_) => out.push_str("choice"),
        Peg::Many(_) => out.push_str("many"),
        Peg::Not(_) => out.push_str("not"),
        Peg::And(_) => out.push_str("and"),
        Peg::Behind { least, most, .. } => {
            out.push_str("behind ")?;
            push_decimal(out, *least as u64)?;
            out.push_str(" ")?;
            push_decimal(out, *most as u64)
        }
        Peg::Call(rule) => {
            out.push_str("call ")?;
            push_name(out, rules, *rule)
        }
        Peg::Capture(label, _) => {
            out.push_str("capture ")?;
            push_text(out, label)
        }
        Peg::Note(text) => {
            out.push_str("note ")?;
            push_quoted(out, text_of(text))
        }
        Peg::Start => out.push_str("start"),
        Peg::End => out.push_str("end"),
        Peg::Halt => out.push_str("halt"),
    }
}

/// Appends the kind of an evaluation.
fn push_kind(out: &mut String, rules: &Rules, kind: Kind<'_>) -> Result<(), NoMemory>
    ensures { OnOk result (string_bytes out.new
        ≡ string_bytes out.old ++ P.kind_text (names_of (rules_of rules.now))
        (kind_seen kind.entry)) }
{
    match kind {
        Kind::Of(peg) => push_peg(out, rules, peg),
        Kind::Choice => out.push_str("choice"),
        Kind::Turn => out.push_str("turn"),
        Kind::Length(length) => {
            out.push_str("length ")?;
            push_decimal(out, length as u64)
        }
    }
}

/// Appends a line.
fn push_line(out: &mut String, rules: &Rules, line: Line<'_>) -> Result<(), NoMemory>
    ensures { OnOk result (string_bytes out.new
        ≡ string_bytes out.old ++ text_of_line (names_of (rules_of rules.now)) line.entry) }
{
    push_decimal(out, line.depth as u64)?;
    out.push_str(" ")?;
    push_kind(out, rules, line.kind)?;
    out.push_str(" ")?;
    push_place(out, line.start)?;
    out.push_str(" ")?;
    push_end(out, line.end)?;
    out.push_str("\n")
}

/// The remaining text of a trace. The text is built line by line, so the whole text is never in
/// memory at once.
#[derive(Drop)]
pub struct TraceText<'a> {
    rules: &'a Rules,
    /// The lines, in reverse order.
    lines: Vec<Line<'a>>,
}

impl<'a> TraceText<'a> {
    ghost use Rattle.rpl_trace.specs.Left.{left_of, text_of_lines};

    /// Returns the text of lines that are given in reverse order.
    pub(crate) fn new(rules: &'a Rules, lines: Vec<Line<'a>>) -> TraceText<'a>
        ensures { left_of result ≡ text_of_lines (names_of (rules_of rules.entry.now))
            (reverse lines.entry.items) }
    {
        TraceText { rules, lines }
    }

    /// Appends the next line of the text, if there is one. Returns whether a line was appended.
    pub fn push_next(&mut self, out: &mut String) -> Result<bool, NoMemory>
        ensures text { IfOk result (λ some. string_bytes out.old ++ left_of self.old
            ≡ string_bytes out.new ++ left_of self.new) }
        ensures grows { IfOk result (λ some. IsTrue some
            → length (string_bytes out.old) < length (string_bytes out.new)) }
        ensures ends { IfOk result (λ some. some ≡ false → (left_of self.old ≡ [])
            × (left_of self.new ≡ []) × (string_bytes out.new ≡ string_bytes out.old)) }
    {
        match self.lines.pop() {
            Some(line) => {
                push_line(out, self.rules, line)?;
                Ok(true)
            }
            None => Ok(false),
        }
    }

    /// Returns all of the remaining text.
    pub(crate) fn whole(mut self, alloc: Global) -> Result<String, NoMemory>
        ensures { IfOk result (λ out. string_bytes out ≡ left_of self.entry) }
    {
        let mut out = String::new(alloc);
        'lines: while self.push_next(&mut out)? {}
        Ok(out)
    }
}

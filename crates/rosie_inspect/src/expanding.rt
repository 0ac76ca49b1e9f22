// The text of an expansion, made token by token.
ghost use Rattle.std.specs.Prelude.{◌≡◌, ◌<◌, ◌^◌, ◌++◌, ◌∷◌, [], Bool, List, IfOk, IsTrue};
ghost use Rattle.std.specs.Prelude.{MatchOption, OnOk, codes, decimal, drop, encode_utf8_all, false};
ghost use Rattle.std.specs.Prelude.{length, slice_get, string_bytes};
ghost use Rattle.rpl_core.specs.Listed.{rules_of};
ghost use Rattle.rpl_core.specs.Marked.{marked};
ghost use Rattle.rpl_core.specs.Program.{instructions};
ghost use Rattle.rpl_core.specs.Table.{names_of};
ghost use Rattle.rpl_core.specs.View.{core_of, cores};
ghost use Rattle.rpl_core.specs.declared.rules.Rule.{Rule};
ghost use Rattle.rpl_expand.specs.Printed.{in_brackets, printed, printed_all};
ghost use Rattle.rpl_forms.specs.Rows.{row_at, rows_of};
ghost use Rattle.rpl_print.specs.Sets.{set_text};
ghost use Rattle.rosie_inspect.specs.Expansions.{line_if, rule_line, rule_lines};
ghost use Rattle.rosie_inspect.specs.Items.{Turns, head_text, item_text, left_of, rule_text};
ghost use Rattle.rosie_inspect.specs.Items.{stack_text};
ghost use Rattle.rosie_inspect.specs.Listing.{code_line, code_text, lines};

use crate::instruction::push_instr;
use crate::kept_set::KeptSet;
use rpl_classes::Set;
use rpl_core::{Instr, NoMemory, Peg, Program, Rule, Rules};
use rpl_expand::push_peg;
use rpl_print::{push_decimal, push_text};
use rpl_syntax::{Expr, print_expr};
use rpl_text::Chars;
use std::alloc::Global;

/// An item of the text that is still to be made.
#[derive(Clone, Copy)]
pub(crate) enum Item<'a> {
    /// The pattern as it is written, and the beginning of the line that gives the pattern's core.
    Pattern(&'a Expr),
    /// A core.
    Core(&'a Peg),
    /// A list of parts, with a space before each part, and the closing bracket.
    Parts(&'a [Peg]),
    /// A closing bracket.
    Close,
    /// The end of a line.
    Feed,
    /// The line of this marked rule, and the lines of the marked rules after it.
    RuleLine {
        rule: &'a Rule,
        next: usize,
    },
    /// The line of this instruction, and the lines of the instructions after it.
    CodeLine {
        program: &'a Program,
        instr: Instr,
        address: usize,
        next: usize,
    },
}

/// The text of an expansion, part of which may already have been made.
#[derive(Drop)]
pub struct Expanding<'a> {
    alloc: Global,
    rules: &'a Rules,
    marks: &'a [bool],
    /// The items that are still to be made, as a stack: the last item is made next.
    todo: Vec<Item<'a>>,
    kept: KeptSet,
}

/// Pushes an item onto the stack, so that its text is produced next.
pub(crate) fn push_item<'a>(todo: &mut Vec<Item<'a>>, item: Item<'a>) -> Result<(), NoMemory>
    ensures { (rs : List Rule) (bs : List Bool) → OnOk result (stack_text rs bs todo.new.items
        ≡ item_text rs bs item.entry ++ stack_text rs bs todo.old.items) }
{
    todo.push(item)?;
    Ok(())
}

/// Returns the rule with this number, if it is marked.
fn marked_rule<'a>(rules: &'a Rules, marks: &[bool], number: usize) -> Option<&'a Rule>
    requires { number < 2 ^ 32 }
    ensures { let names = names_of (rules_of rules.now) in
        let line = line_if names (marked marks.now number)
        (slice_get (rows_of (rules_of rules.now)) number) in
        MatchOption result (line ≡ []) (λ rule. line ≡ rule_line names (row_at rule.now)) }
{
    if number < marks.len() && marks[number] {
        rules.get(number as u32)
    } else {
        None
    }
}

/// Adds the lines of the marked rules from this number on.
pub(crate) fn push_rules<'a>(
    todo: &mut Vec<Item<'a>>,
    rules: &'a Rules,
    marks: &[bool],
    from: usize,
) -> Result<(), NoMemory>
    ensures { let rs = rules_of rules.now in let bs = marks.now in
        OnOk result (stack_text rs bs todo.new.items
        ≡ rule_lines (names_of rs) (marked bs) from (drop from (rows_of rs))
        ++ stack_text rs bs todo.old.items) }
{
    for number in from..rules.len() {
        match marked_rule(rules, marks, number) {
            Some(rule) => {
                let next = number + 1;
                push_item(todo, Item::RuleLine { rule, next })?;
                return Ok(());
            }
            None => {}
        }
    }
    Ok(())
}

/// Adds the lines of a program from this address on.
pub(crate) fn push_code<'a>(
    todo: &mut Vec<Item<'a>>,
    program: &'a Program,
    address: usize,
) -> Result<(), NoMemory>
    ensures { (rs : List Rule) (bs : List Bool) → OnOk result (stack_text rs bs todo.new.items
        ≡ lines address (drop address (instructions program.now))
        ++ stack_text rs bs todo.old.items) }
{
    let code = program.code();
    if address >= code.len() {
        return Ok(());
    }
    let item = Item::CodeLine {
        program,
        instr: code[address],
        address,
        next: address + 1,
    };
    push_item(todo, item)?;
    Ok(())
}

/// Adds the lines of a program, if there is one.
pub(crate) fn push_program_if<'a>(
    todo: &mut Vec<Item<'a>>,
    program: &'a Option<Program>,
) -> Result<(), NoMemory>
    ensures { (rs : List Rule) (bs : List Bool) → OnOk result (stack_text rs bs todo.new.items
        ≡ code_text program.now ++ stack_text rs bs todo.old.items) }
{
    match program {
        Some(program) => push_code(todo, program, 0),
        None => Ok(()),
    }
}

/// Appends a set in brackets.
fn push_class(out: &mut String, kept: &mut KeptSet, set: &Set) -> Result<(), NoMemory>
    ensures { OnOk result (string_bytes out.new
        ≡ string_bytes out.old ++ in_brackets (codes "(set ") (set_text set.now)) }
{
    out.push_str("(set ")?;
    kept.push(out, set)?;
    out.push(')')
}

/// Appends the pattern as it is written, and the beginning of the line that gives the pattern's
/// core.
fn push_head(alloc: Global, out: &mut String, expr: &Expr) -> Result<(), NoMemory>
    ensures { OnOk result (string_bytes out.new ≡ string_bytes out.old ++ head_text expr.now) }
{
    out.push_str("pattern ")?;
    push_text(out, &print_expr(alloc, expr)?)?;
    out.push_str("\n* = ")
}

/// Appends the beginning of a rule's line, up to the rule's core.
fn push_name(out: &mut String, rule: &Rule) -> Result<(), NoMemory>
    ensures { OnOk result (string_bytes out.new
        ≡ string_bytes out.old ++ (encode_utf8_all rule.now.name ++ codes " = ")) }
{
    push_text(out, &rule.name)?;
    out.push_str(" = ")
}

/// Appends the line of an instruction.
fn push_line(
    out: &mut String,
    kept: &mut KeptSet,
    program: &Program,
    instr: Instr,
    address: usize,
) -> Result<(), NoMemory>
    ensures { OnOk result (string_bytes out.new
        ≡ string_bytes out.old ++ code_line program.now instr address) }
{
    push_decimal(out, address as u64)?;
    out.push(' ')?;
    push_instr(out, kept, program, instr)?;
    out.push('\n')
}

impl<'a> Expanding<'a> {
    /// Returns a text that consists of these items, none of which has been made yet.
    pub(crate) fn new(
        alloc: Global,
        rules: &'a Rules,
        marks: &'a [bool],
        todo: Vec<Item<'a>>,
        kept: KeptSet,
    ) -> Expanding<'a>
        ensures { left_of result ≡ stack_text (rules_of rules.entry.now) marks.entry.now
            todo.entry.items }
    {
        Expanding {
            alloc,
            rules,
            marks,
            todo,
            kept,
        }
    }

    /// Makes the text of the pattern as it is written, and the beginning of the line that gives the
    /// pattern's core.
    fn make_head(&mut self, out: &mut String, expr: &Expr) -> Result<(), NoMemory>
        ensures { OnOk result (Turns (head_text expr.now) (left_of self.old) (left_of self.new)
            (string_bytes out.old) (string_bytes out.new)) }
    {
        push_head(self.alloc, out, expr)?;
        Ok(())
    }

    /// Appends a bracket or a line feed.
    fn make_mark(&mut self, out: &mut String, mark: &str) -> Result<(), NoMemory>
        requires { 0 < length mark.now }
        ensures { OnOk result (Turns mark.now (left_of self.old) (left_of self.new)
            (string_bytes out.old) (string_bytes out.new)) }
    {
        out.push_str(mark)?;
        Ok(())
    }

    /// Makes the head of a bracketed core, and leaves the rest of the core to be made next.
    fn make_body(&mut self, out: &mut String, head: &str, body: &'a Peg) -> Result<(), NoMemory>
        requires { 0 < length head.now }
        ensures { OnOk result (Turns (in_brackets head.now
            (printed (names_of (rules_of self.old.rules.now)) (core_of body.entry.now)))
            (left_of self.old) (left_of self.new) (string_bytes out.old) (string_bytes out.new)) }
    {
        out.push_str(head)?;
        push_item(&mut self.todo, Item::Close)?;
        push_item(&mut self.todo, Item::Core(body))?;
        Ok(())
    }

    /// Makes the head of a bracketed list of parts, and leaves the parts to be made next.
    fn make_group(&mut self, out: &mut String, head: &str, parts: &'a [Peg]) -> Result<(), NoMemory>
        requires { 0 < length head.now }
        ensures { OnOk result (Turns (in_brackets head.now
            (printed_all (names_of (rules_of self.old.rules.now)) (cores parts.entry.now)))
            (left_of self.old) (left_of self.new) (string_bytes out.old) (string_bytes out.new)) }
    {
        out.push_str(head)?;
        push_item(&mut self.todo, Item::Parts(parts))?;
        Ok(())
    }

    /// Makes the head of a look-behind, and leaves the rest of the look-behind to be made next.
    fn make_behind(
        &mut self,
        out: &mut String,
        least: u32,
        most: u32,
        body: &'a Peg,
    ) -> Result<(), NoMemory>
        ensures { OnOk result (Turns (in_brackets (codes "(behind ")
            (decimal least ++ 32 ∷ decimal most ++ 32
            ∷ printed (names_of (rules_of self.old.rules.now)) (core_of body.entry.now)))
            (left_of self.old) (left_of self.new) (string_bytes out.old) (string_bytes out.new)) }
    {
        out.push_str("(behind ")?;
        push_decimal(out, least as u64)?;
        out.push_str(" ")?;
        push_decimal(out, most as u64)?;
        self.make_body(out, " ", body)?;
        Ok(())
    }

    /// Makes the head of a capture, and leaves the rest of the capture to be made next.
    fn make_capture(
        &mut self,
        out: &mut String,
        name: &Chars,
        body: &'a Peg,
    ) -> Result<(), NoMemory>
        ensures { OnOk result (Turns (in_brackets (codes "(capture ") (encode_utf8_all name.now
            ++ 32 ∷ printed (names_of (rules_of self.old.rules.now)) (core_of body.entry.now)))
            (left_of self.old) (left_of self.new) (string_bytes out.old) (string_bytes out.new)) }
    {
        out.push_str("(capture ")?;
        push_text(out, name)?;
        self.make_body(out, " ", body)?;
        Ok(())
    }

    /// Makes the text of a core that contains no other core.
    fn make_leaf(&mut self, out: &mut String, peg: &Peg) -> Result<(), NoMemory>
        ensures { OnOk result (Turns (printed (names_of (rules_of self.old.rules.now))
            (core_of peg.now)) (left_of self.old) (left_of self.new) (string_bytes out.old)
            (string_bytes out.new)) }
    {
        push_peg(out, self.rules, peg)?;
        Ok(())
    }

    /// Makes the text of a set in brackets.
    fn make_class(&mut self, out: &mut String, set: &Set) -> Result<(), NoMemory>
        ensures { OnOk result (Turns (in_brackets (codes "(set ") (set_text set.now))
            (left_of self.old) (left_of self.new) (string_bytes out.old) (string_bytes out.new)) }
    {
        push_class(out, &mut self.kept, set)?;
        Ok(())
    }

    /// Makes the next token of a core.
    fn make_core(&mut self, out: &mut String, peg: &'a Peg) -> Result<(), NoMemory>
        ensures { OnOk result (Turns (printed (names_of (rules_of self.old.rules.now))
            (core_of peg.entry.now)) (left_of self.old) (left_of self.new) (string_bytes out.old)
            (string_bytes out.new)) }
    {
        match peg {
            Peg::Set(set) => self.make_class(out, set),
            Peg::Seq(parts) => self.make_group(out, "(seq", parts.as_slice()),
            Peg::Choice(parts) => self.make_group(out, "(choice", parts.as_slice()),
            Peg::Many(body) => self.make_body(out, "(many ", body),
            Peg::Not(body) => self.make_body(out, "(not ", body),
            Peg::And(body) => self.make_body(out, "(and ", body),
            Peg::Behind { least, most, body } => self.make_behind(out, *least, *most, body),
            Peg::Capture(name, body) => self.make_capture(out, name, body),
            Peg::Call(_) | Peg::Note(_) => self.make_leaf(out, peg),
            Peg::Start | Peg::End | Peg::Halt => self.make_leaf(out, peg),
        }
    }

    /// Makes the next token of a list of parts: the space before the first part, or the closing
    /// bracket.
    fn make_parts(&mut self, out: &mut String, parts: &'a [Peg]) -> Result<(), NoMemory>
        ensures { OnOk result (Turns (printed_all (names_of (rules_of self.old.rules.now))
            (cores parts.entry.now) ++ 41 ∷ []) (left_of self.old) (left_of self.new)
            (string_bytes out.old) (string_bytes out.new)) }
    {
        match parts {
            [] => self.make_mark(out, ")"),
            [first, rest @ ..] => {
                out.push_str(" ")?;
                push_item(&mut self.todo, Item::Parts(rest))?;
                push_item(&mut self.todo, Item::Core(first))?;
                Ok(())
            }
        }
    }

    /// Makes the beginning of a rule's line, up to the rule's core, and leaves the rest of the line
    /// to be made next.
    fn make_rule(&mut self, out: &mut String, rule: &'a Rule, next: usize) -> Result<(), NoMemory>
        ensures { OnOk result (Turns (rule_text (rules_of self.old.rules.now) self.old.marks.now
            rule.entry.now next) (left_of self.old) (left_of self.new) (string_bytes out.old)
            (string_bytes out.new)) }
    {
        push_name(out, rule)?;
        push_rules(&mut self.todo, self.rules, self.marks, next)?;
        push_item(&mut self.todo, Item::Feed)?;
        push_item(&mut self.todo, Item::Core(&rule.body))?;
        Ok(())
    }

    /// Makes the line of an instruction.
    fn make_line(
        &mut self,
        out: &mut String,
        program: &'a Program,
        instr: Instr,
        places: (usize, usize),
    ) -> Result<(), NoMemory>
        ensures { OnOk result (Turns (code_line program.entry.now instr places.0
            ++ lines places.1 (drop places.1 (instructions program.entry.now)))
            (left_of self.old) (left_of self.new) (string_bytes out.old) (string_bytes out.new)) }
    {
        let (address, next) = places;
        push_line(out, &mut self.kept, program, instr, address)?;
        push_code(&mut self.todo, program, next)?;
        Ok(())
    }

    /// Makes the next token of an item.
    fn make(&mut self, out: &mut String, item: Item<'a>) -> Result<(), NoMemory>
        ensures { OnOk result (Turns (item_text (rules_of self.old.rules.now) self.old.marks.now
            item.entry) (left_of self.old) (left_of self.new) (string_bytes out.old)
            (string_bytes out.new)) }
    {
        match item {
            Item::Pattern(expr) => self.make_head(out, expr),
            Item::Core(peg) => self.make_core(out, peg),
            Item::Parts(parts) => self.make_parts(out, parts),
            Item::Close => self.make_mark(out, ")"),
            Item::Feed => self.make_mark(out, "\n"),
            Item::RuleLine { rule, next } => self.make_rule(out, rule, next),
            Item::CodeLine {
                program,
                instr,
                address,
                next,
            } => self.make_line(out, program, instr, (address, next)),
        }
    }

    /// Appends the next token of the text. Returns whether there was one.
    pub fn push_next(&mut self, out: &mut String) -> Result<bool, NoMemory>
        ensures text { IfOk result (λ some. string_bytes out.old ++ left_of self.old
            ≡ string_bytes out.new ++ left_of self.new) }
        ensures grows { IfOk result (λ some. IsTrue some
            → length (string_bytes out.old) < length (string_bytes out.new)) }
        ensures ends { IfOk result (λ some. some ≡ false → (left_of self.old ≡ [])
            × (left_of self.new ≡ []) × (string_bytes out.new ≡ string_bytes out.old)) }
    {
        match self.todo.pop() {
            Some(item) => {
                self.make(out, item)?;
                Ok(true)
            }
            None => Ok(false),
        }
    }
}

// Printing expressions as texts that can be read back.
ghost use Rattle.std.specs.Prelude.{◌≡◌, [], ◌∷◌, ◌++◌, IfOk, OnOk};
ghost use Rattle.rpl_syntax.specs.Printed.{is_joined, is_compound, in_braces, printed};
ghost use Rattle.rpl_syntax.specs.Printed.{items_printed, parts_printed};
ghost use Rattle.rpl_syntax.specs.Printed.{sign_char};
ghost use Rattle.rpl_syntax.specs.inside.Pieces.{item_printed, body_printed, part_of_choice};
ghost use Rattle.rpl_syntax.specs.inside.Pieces.{item_of_group};
ghost use Rattle.rpl_syntax.specs.View.{expr_of, shown};

use crate::NoMemory;
use crate::expr::{Expr, Exprs, Sign};
use crate::printer::Printer;
use rpl_text::Chars;
use std::alloc::Global;

/// Returns whether the expression is a choice or an `&`.
fn is_choice_or_both(e: &Expr) -> bool
    ensures { result ≡ is_joined (expr_of e.now) }
{
    matches!(e, Expr::Choice(_) | Expr::Both(..))
}

/// Returns whether the expression needs braces if a quantifier follows it.
fn needs_braces(e: &Expr) -> bool
    ensures { result ≡ is_compound (expr_of e.now) }
{
    matches!(
        e,
        Expr::Choice(_)
            | Expr::Both(..)
            | Expr::Prefix(..)
            | Expr::Repeat { .. }
            | Expr::Macro { .. }
    )
}

impl Printer {
    /// Prints the sign of a predicate.
    fn sign(&mut self, sign: Sign) -> Result<(), NoMemory>
        ensures { OnOk result (self.new ≡ self.old ++ sign_char sign ∷ []) }
    {
        match sign {
            Sign::Not => self.put('!'),
            Sign::Ahead => self.put('>'),
            Sign::Behind => self.put('<'),
        }
    }

    /// Prints a sign with a space on each side.
    fn between_parts(&mut self, sign: char) -> Result<(), NoMemory>
        ensures { OnOk result (self.new ≡ self.old ++ 32 ∷ sign ∷ 32 ∷ []) }
    {
        self.put(' ')?;
        self.put(sign)?;
        self.put(' ')
    }

    /// Prints an expression that stands alone, or is the last part of a choice or of an `&`.
    #[cycle(print)]
    fn expression(&mut self, e: &Expr) -> Result<(), NoMemory>
        ensures { OnOk result (self.new ≡ self.old ++ printed (expr_of e.now)) }
    {
        match e {
            Expr::Text(text) | Expr::Note(text) => self.literal(text),
            Expr::Class { set, negated } => self.class(set, *negated),
            Expr::Any => self.put('.'),
            Expr::Start => self.put('^'),
            Expr::End => self.put('$'),
            Expr::Boundary => self.put('~'),
            Expr::Name(name) => self.name(name),
            Expr::Cooked(items) => self.group('(', items, ')'),
            Expr::Raw(items) => self.group('{', items, '}'),
            Expr::Choice(parts) => self.parts(parts),
            Expr::Both(first, second) => {
                self.item(first)?;
                self.between_parts('&')?;
                self.expression(second)
            }
            Expr::Prefix(sign, item) => {
                self.sign(*sign)?;
                self.item(item)
            }
            Expr::Repeat { body, least, most } => {
                self.body(body)?;
                self.quantifier(*least, *most)
            }
            Expr::Macro { name, arg } => {
                self.name(name)?;
                self.put(':')?;
                self.item(arg)
            }
            Expr::Marked(_, body) => self.expression(body),
        }
    }

    /// Prints an expression that is an item, with braces around a choice or an `&`.
    #[cycle(print)]
    fn item(&mut self, e: &Expr) -> Result<(), NoMemory>
        ensures { OnOk result (self.new ≡ self.old ++ item_printed (expr_of e.now)) }
    {
        self.braced(e, is_choice_or_both(e))
    }

    /// Prints the body of a quantifier, with braces unless it is an atom.
    #[cycle(print)]
    fn body(&mut self, e: &Expr) -> Result<(), NoMemory>
        ensures { OnOk result (self.new ≡ self.old ++ body_printed (expr_of e.now)) }
    {
        self.braced(e, needs_braces(e))
    }

    /// Prints an expression, in braces if `braces` is true.
    #[cycle(print)]
    fn braced(&mut self, e: &Expr, braces: bool) -> Result<(), NoMemory>
        ensures { OnOk result (self.new ≡ self.old ++ in_braces braces (printed (expr_of e.now))) }
    {
        if braces {
            self.put('{')?;
            self.expression(e)?;
            self.put('}')
        } else {
            self.expression(e)
        }
    }

    /// Prints the items between an opening and a closing sign.
    #[cycle(print)]
    fn group(&mut self, opening: char, items: &Exprs, closing: char) -> Result<(), NoMemory>
        ensures { OnOk result (self.new ≡ self.old
            ++ (opening ∷ items_printed (shown items.now) ++ closing ∷ [])) }
    {
        self.put(opening)?;
        self.items(items)?;
        self.put(closing)
    }

    /// Prints the items of a group.
    #[cycle(print)]
    fn items(&mut self, items: &Exprs) -> Result<(), NoMemory>
        ensures { OnOk result (self.new ≡ self.old ++ items_printed (shown items.now)) }
    {
        let count = items.items.len();
        for (index, item) in items.items.iter().enumerate() {
            self.item_of_group(item, index + 1 < count)?;
        }
        Ok(())
    }

    /// Prints an item of a group, and a space if another item follows.
    #[cycle(print)]
    fn item_of_group(&mut self, item: &Expr, more: bool) -> Result<(), NoMemory>
        ensures { OnOk result (self.new ≡ self.old ++ item_of_group more (expr_of item.now)) }
    {
        self.item(item)?;
        if more { self.put(' ') } else { Ok(()) }
    }

    /// Prints the parts of a choice.
    #[cycle(print)]
    fn parts(&mut self, parts: &Exprs) -> Result<(), NoMemory>
        ensures { OnOk result (self.new ≡ self.old ++ parts_printed (shown parts.now)) }
    {
        let count = parts.items.len();
        for (index, part) in parts.items.iter().enumerate() {
            self.part_of_choice(part, index + 1 < count)?;
        }
        Ok(())
    }

    /// Prints a part of a choice, and the slash if another part follows.
    #[cycle(print)]
    fn part_of_choice(&mut self, part: &Expr, more: bool) -> Result<(), NoMemory>
        ensures { OnOk result (self.new ≡ self.old ++ part_of_choice more (expr_of part.now)) }
    {
        if more {
            self.item(part)?;
            self.between_parts('/')
        } else {
            self.expression(part)
        }
    }
}

/// Returns the text of an expression, as defined in `specs/Printed.antt`. Expressions that only
/// macros create have no spelling: `Marked` is printed as its body, and `Note` as its text.
pub fn print_expr(alloc: Global, e: &Expr) -> Result<Chars, NoMemory>
    ensures { IfOk result (λ text. text ≡ printed (expr_of e.now)) }
{
    let mut printer = Printer::new(alloc);
    printer.expression(e)?;
    printer.finish(alloc)
}

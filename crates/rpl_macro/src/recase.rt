// An expression in another casing.
ghost use Rattle.rpl_classes.specs.Algebra.{folded};
ghost use Rattle.std.specs.Prelude.{◌≡◌, [], ◌∷◌, IfOk, chars, false, if◌then◌else◌};
ghost use Rattle.rpl_text.specs.Ascii.{is_letter};
ghost use Rattle.rpl_syntax.specs.View.{expr_of, exprs_all, shown};
ghost use Rattle.rpl_syntax.specs.Expression as M;
ghost use Rattle.rpl_macro.specs.Casings.{recased, recased_all, either_case, either_cases};
ghost use Rattle.rpl_macro.specs.Casings.{every_case, single};
ghost use Rattle.rpl_macro.specs.Casings.{has_letter, keeps_text};
ghost use Rattle.rpl_macro.specs.Casings as S;
ghost use Rattle.rpl_macro.specs.Kinds.{kind_of};
ghost use Rattle.rpl_classes.specs.Norm.{norm};

use crate::NoMemory;
use crate::casing::Casing;
use crate::kind::Macro;
use rpl_classes::Set;
use rpl_syntax::{Expr, Exprs, wrap};
use rpl_text::Chars;
use std::alloc::Global;

/// Returns the character `c` as a text.
fn lone(alloc: Global, c: char) -> Result<Expr, NoMemory>
    ensures { IfOk result (λ e. expr_of e ≡ M.Text (c ∷ [])) }
{
    let mut text = String::new(alloc);
    text.push(c)?;
    Ok(Expr::Text(Chars::from_str(alloc, &text)?))
}

/// Returns the class that contains the characters `first` and `second`.
fn pair(alloc: Global, first: u32, second: u32) -> Result<Expr, NoMemory>
    ensures { IfOk result (λ e. expr_of e ≡ M.Class (norm ((first, first) ∷ (second, second) ∷ []))
        false) }
{
    let set = Set::from_ranges(alloc, &[(first, first), (second, second)])?;
    Ok(Expr::Class {
        set,
        negated: false,
    })
}

/// If `c` is an ASCII letter, returns the class that contains both of its cases. Otherwise, returns
/// `c` as a text.
fn either(alloc: Global, c: char) -> Result<Expr, NoMemory>
    ensures { IfOk result (λ e. expr_of e ≡ either_case c) }
{
    let number = c as u32;
    if 0x41 <= number && number <= 0x5a {
        pair(alloc, number, number + 32)
    } else if 0x61 <= number && number <= 0x7a {
        pair(alloc, number, number - 32)
    } else {
        lone(alloc, c)
    }
}

/// Returns whether `c` is an ASCII letter.
fn is_letter(c: char) -> bool
    ensures { result ≡ is_letter c }
{
    let number = c as u32;
    (0x41 <= number && number <= 0x5a) || (0x61 <= number && number <= 0x7a)
}

/// Returns the class that contains the character `c` in every case.
fn every(alloc: Global, c: char) -> Result<Expr, NoMemory>
    ensures { IfOk result (λ e. expr_of e ≡ M.Class (folded (single c)) false) }
{
    let alone = Set::range(alloc, c, c)?;
    let set = alone.fold(alloc)?;
    Ok(Expr::Class {
        set,
        negated: false,
    })
}

/// Converts a text to the given casing.
fn text_in(alloc: Global, casing: Casing, text: &str) -> Result<Expr, NoMemory>
    ensures { IfOk result (λ e. expr_of e ≡ S.text_in casing (chars text.now)) }
{
    match casing {
        Casing::Plain => Ok(Expr::Text(Chars::from_str(alloc, text)?)),
        Casing::Ascii if has_letter(text) => Ok(wrap(true, either_cases(alloc, text)?)),
        Casing::Ascii => Ok(Expr::Text(Chars::from_str(alloc, text)?)),
        Casing::Folded if text.is_empty() => Ok(Expr::Text(Chars::from_str(alloc, text)?)),
        Casing::Folded => Ok(wrap(true, every_case(alloc, text)?)),
    }
}

/// Returns whether the text contains an ASCII letter.
fn has_letter(text: &str) -> bool
    ensures { result ≡ has_letter (chars text.now) }
{
    let mut found = false;
    for c in text.chars() {
        found = found || is_letter(c);
    }
    found
}

/// Returns each character of the text, with ASCII letters in both cases.
fn either_cases(alloc: Global, text: &str) -> Result<Exprs, NoMemory>
    ensures { IfOk result (λ ps. shown ps ≡ either_cases (chars text.now)) }
{
    let mut parts = Exprs::new(alloc);
    for c in text.chars() {
        parts.push(either(alloc, c)?)?;
    }
    Ok(parts)
}

/// Returns each character of the text in every case.
fn every_case(alloc: Global, text: &str) -> Result<Exprs, NoMemory>
    ensures { IfOk result (λ ps. shown ps ≡ every_case (chars text.now)) }
{
    let mut parts = Exprs::new(alloc);
    for c in text.chars() {
        parts.push(every(alloc, c)?)?;
    }
    Ok(parts)
}

/// Converts an expression to the given casing, and returns it in a box.
#[cycle(recase)]
fn boxed(alloc: Global, casing: Casing, body: &Expr) -> Result<Box<Expr>, NoMemory>
    ensures { IfOk result (λ b. expr_of b.value ≡ recased casing (expr_of body.now)) }
{
    let body = recase(alloc, casing, body)?;
    Ok(Box::new(alloc, body)?)
}

/// Converts each expression to the given casing.
#[cycle(recase)]
fn recase_all(alloc: Global, casing: Casing, parts: &[Expr]) -> Result<Exprs, NoMemory>
    ensures { IfOk result (λ ps. shown ps ≡ recased_all casing (exprs_all parts.now)) }
{
    let mut others = Exprs::new(alloc);
    for part in parts {
        others.push(recase(alloc, casing, part)?)?;
    }
    Ok(others)
}

/// Converts the argument of a macro to the given casing, unless the macro's argument must be a
/// text.
#[cycle(recase)]
fn argument(alloc: Global, casing: Casing, name: &str, arg: &Expr) -> Result<Box<Expr>, NoMemory>
    ensures { IfOk result (λ b. expr_of b.value ≡
        (if keeps_text (kind_of (chars name.now)) then expr_of arg.now else recased casing
        (expr_of arg.now))) }
{
    if keeps_text(name) {
        let arg = arg.copy(alloc)?;
        return Ok(Box::new(alloc, arg)?);
    }
    boxed(alloc, casing, arg)
}

/// Returns whether there is a macro with the name `name` whose argument must be a text.
fn keeps_text(name: &str) -> bool
    ensures { result ≡ keeps_text (kind_of (chars name.now)) }
{
    match Macro::named(name) {
        Some(kind) => kind.takes_text(),
        None => false,
    }
}

/// Converts an expression to the given casing.
#[cycle(recase)]
pub(crate) fn recase(alloc: Global, casing: Casing, e: &Expr) -> Result<Expr, NoMemory>
    ensures { IfOk result (λ o. expr_of o ≡ recased casing (expr_of e.now)) }
{
    match e {
        Expr::Text(text) => text_in(alloc, casing, text.as_str()),
        Expr::Class { set, negated } => Ok(Expr::Class {
            set: casing.set(alloc, set)?,
            negated: *negated,
        }),
        // These have no characters of their own.
        Expr::Any | Expr::Start | Expr::End | Expr::Boundary | Expr::Name(_) => e.copy(alloc),
        Expr::Cooked(items) => {
            let items = recase_all(alloc, casing, items.as_slice())?;
            Ok(wrap(false, items))
        }
        Expr::Raw(items) => {
            let items = recase_all(alloc, casing, items.as_slice())?;
            Ok(wrap(true, items))
        }
        Expr::Choice(parts) => {
            let parts = recase_all(alloc, casing, parts.as_slice())?;
            Ok(Expr::Choice(parts))
        }
        Expr::Both(first, second) => {
            let first = boxed(alloc, casing, first)?;
            Ok(Expr::Both(first, boxed(alloc, casing, second)?))
        }
        Expr::Prefix(sign, item) => Ok(Expr::Prefix(*sign, boxed(alloc, casing, item)?)),
        Expr::Repeat { body, least, most } => Ok(Expr::Repeat {
            body: boxed(alloc, casing, body)?,
            least: *least,
            most: *most,
        }),
        Expr::Macro { name, arg } => {
            let arg = argument(alloc, casing, name.name.as_str(), arg)?;
            Ok(Expr::Macro {
                name: name.copy(alloc)?,
                arg,
            })
        }
        Expr::Marked(mark, body) => Ok(Expr::Marked(*mark, boxed(alloc, casing, body)?)),
        Expr::Note(text) => Ok(Expr::Note(text.copy(alloc)?)),
    }
}

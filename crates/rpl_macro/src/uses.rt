// The expression that a macro builds from its argument.
ghost use Rattle.std.specs.Prelude.{◌≡◌, IfOk, chars, None};
ghost use Rattle.rpl_syntax.specs.Expression as M;
ghost use Rattle.rpl_syntax.specs.View.{expr_of};
ghost use Rattle.rpl_syntax.specs.declared.expr.Mark.TheVariants.{Hit, Skip};
ghost use Rattle.rpl_macro.specs.Kinds.{kind_of};
ghost use Rattle.rpl_macro.specs.Macros as S;
ghost use Rattle.rpl_macro.specs.Macros.{applied_if, found, kept, passed, text_of, use_fault};

use crate::NoMemory;
use crate::casing::Casing;
use crate::fault::MacroFault;
use crate::kind::Macro;
use crate::recase::recase;
use rpl_syntax::{Expr, Exprs, Mark, QName, Sign, wrap};
use rpl_text::Chars;
use std::alloc::Global;

/// Returns the fault in a use of the macro with the name `name`, if there is one. A use has a fault
/// if there is no such macro. A use of `message` or `error` also has a fault if its argument is not
/// a text.
pub fn check_use(name: &str, arg: &Expr) -> Option<MacroFault>
    ensures { result ≡ use_fault (kind_of (chars name.now)) (expr_of arg.now) }
{
    let Some(kind) = Macro::named(name) else {
        return Some(MacroFault::UnknownMacro);
    };
    if kind.takes_text() && !matches!(arg, Expr::Text(_)) {
        return Some(MacroFault::BadArguments);
    }
    None
}

/// Returns a group of two items: `first`, followed by `second`.
fn pair(alloc: Global, first: Expr, second: Expr) -> Result<Expr, NoMemory>
    ensures { IfOk result (λ e. expr_of e
        ≡ M.Raw (M.Cons (expr_of first) (M.one (expr_of second)))) }
{
    let mut items = Exprs::new(alloc);
    items.push(first)?;
    items.push(second)?;
    Ok(wrap(true, items))
}

/// Returns a repetition that consumes characters for as long as the argument does not match.
fn passed(alloc: Global, arg: &Expr) -> Result<Expr, NoMemory>
    ensures { IfOk result (λ e. expr_of e ≡ passed (expr_of arg.now)) }
{
    let arg = arg.copy(alloc)?;
    let not = Expr::Prefix(Sign::Not, Box::new(alloc, arg)?);
    let body = pair(alloc, not, Expr::Any)?;
    Ok(Expr::Repeat {
        body: Box::new(alloc, body)?,
        least: 0,
        most: None,
    })
}

/// Returns `before` followed by the argument, which is marked as the text that was searched for.
fn hit(alloc: Global, before: Expr, arg: Expr) -> Result<Expr, NoMemory>
    ensures { IfOk result (λ e. expr_of e
        ≡ M.Raw (M.Cons (expr_of before) (M.one (M.Marked Hit (expr_of arg))))) }
{
    let hit = Expr::Marked(Mark::Hit, Box::new(alloc, arg)?);
    pair(alloc, before, hit)
}

/// Returns a search for the first match of the argument.
fn found(alloc: Global, arg: Expr) -> Result<Expr, NoMemory>
    ensures { IfOk result (λ e. expr_of e ≡ found (expr_of arg)) }
{
    let before = passed(alloc, &arg)?;
    hit(alloc, before, arg)
}

/// Returns the expression that consumes the text before the argument, marked as skipped.
fn skipped(alloc: Global, arg: &Expr) -> Result<Expr, NoMemory>
    ensures { IfOk result (λ e. expr_of e ≡ M.Marked Skip (passed (expr_of arg.now))) }
{
    let before = passed(alloc, arg)?;
    Ok(Expr::Marked(Mark::Skip, Box::new(alloc, before)?))
}

/// Returns a search for the first match of the argument. The search keeps the text before the
/// match.
fn kept(alloc: Global, arg: Expr) -> Result<Expr, NoMemory>
    ensures { IfOk result (λ e. expr_of e ≡ kept (expr_of arg)) }
{
    let before = skipped(alloc, &arg)?;
    hit(alloc, before, arg)
}

/// Returns a search for one or more matches of the argument, one after the other.
fn all_found(alloc: Global, arg: Expr) -> Result<Expr, NoMemory>
    ensures { IfOk result (λ e. expr_of e ≡ M.Repeat (M.Raw (M.one (found (expr_of arg)))) 1 None) }
{
    let mut items = Exprs::new(alloc);
    items.push(found(alloc, arg)?)?;
    Ok(Expr::Repeat {
        body: Box::new(alloc, wrap(true, items))?,
        least: 1,
        most: None,
    })
}

/// Returns a message whose text is the argument.
fn note(alloc: Global, arg: Expr) -> Result<Expr, NoMemory>
    ensures { IfOk result (λ e. expr_of e ≡ M.Note (text_of (expr_of arg))) }
{
    match arg {
        Expr::Text(text) => Ok(Expr::Note(text)),
        _ => Ok(Expr::Note(Chars::empty(alloc))),
    }
}

/// Returns a name that refers to the built-in rule `halt`, regardless of what the plain name `halt`
/// is bound to.
fn halt(alloc: Global) -> Result<Expr, NoMemory>
    ensures { IfOk result (λ e. expr_of e ≡ M.Name S.halt) }
{
    Ok(Expr::Name(QName {
        prefix: Some(Chars::empty(alloc)),
        name: Chars::from_str(alloc, "halt")?,
        at: 0,
    }))
}

/// Returns a message whose text is the argument, followed by `halt`, which ends the match.
fn error(alloc: Global, arg: Expr) -> Result<Expr, NoMemory>
    ensures { IfOk result (λ e. expr_of e ≡ S.failed (text_of (expr_of arg))) }
{
    let message = note(alloc, arg)?;
    pair(alloc, message, halt(alloc)?)
}

/// Returns the expression that the macro with the name `name` builds from its argument.
///
/// Applies the macro's equation once; macros inside the argument are left as they are. `find`,
/// `findall` and `keepto` duplicate their argument, so a caller that applies nested macros must
/// first limit the number of macros.
pub fn apply(alloc: Global, name: &str, arg: Expr) -> Result<Expr, NoMemory>
    requires { use_fault (kind_of (chars name.now)) (expr_of arg) ≡ None }
    ensures { IfOk result (λ e. expr_of e ≡ applied_if (kind_of (chars name.now)) (expr_of arg)) }
{
    let Some(kind) = Macro::named(name) else {
        return Ok(arg);
    };
    match kind {
        Macro::Find => found(alloc, arg),
        Macro::FindAll => all_found(alloc, arg),
        Macro::KeepTo => kept(alloc, arg),
        Macro::Ci => recase(alloc, Casing::Ascii, &arg),
        Macro::Uci => recase(alloc, Casing::Folded, &arg),
        Macro::Message => note(alloc, arg),
        Macro::Error => error(alloc, arg),
    }
}

// The names and the uses of macros in expressions.
ghost use Rattle.std.specs.Prelude.{◌≡◌, ◌++◌, map, OnOk};
ghost use Rattle.rpl_syntax.specs.View.{expr_of, exprs_all};
ghost use Rattle.rpl_scope.specs.Bodies.{names, names_all, uses, uses_all};
ghost use Rattle.rpl_scope.specs.Seen.{use_seen};

use crate::NoMemory;
use rpl_syntax::{Expr, QName};

/// A use of a macro: its name and its argument.
#[derive(Clone, Copy)]
pub struct Use<'a> {
    pub name: &'a QName,
    pub arg: &'a Expr,
}

/// Appends the names in an expression to `all`, from left to right.
#[cycle(names)]
pub fn push_names<'a>(e: &'a Expr, all: &mut Vec<&'a QName>) -> Result<(), NoMemory>
    ensures { OnOk result (map (λ q. q.now) all.new.items ≡ map (λ q. q.now) all.old.items
        ++ names (expr_of e.now)) }
{
    match e {
        Expr::Name(q) => {
            all.push(q)?;
            Ok(())
        }
        Expr::Cooked(items) => push_all_names(items.as_slice(), all),
        Expr::Raw(items) => push_all_names(items.as_slice(), all),
        Expr::Choice(parts) => push_all_names(parts.as_slice(), all),
        Expr::Both(p, q) => {
            push_names(p, all)?;
            push_names(q, all)
        }
        Expr::Prefix(_, p) | Expr::Marked(_, p) => push_names(p, all),
        Expr::Repeat { body, .. } => push_names(body, all),
        Expr::Macro { arg, .. } => push_names(arg, all),
        Expr::Text(_) | Expr::Class { .. } | Expr::Note(_) => Ok(()),
        Expr::Any | Expr::Start | Expr::End | Expr::Boundary => Ok(()),
    }
}

#[cycle(names)]
fn push_all_names<'a>(es: &'a [Expr], all: &mut Vec<&'a QName>) -> Result<(), NoMemory>
    ensures { OnOk result (map (λ q. q.now) all.new.items ≡ map (λ q. q.now) all.old.items
        ++ names_all (exprs_all es.now)) }
{
    for e in es {
        push_names(e, all)?;
    }
    Ok(())
}

/// Appends the uses of macros in an expression to `all`, from left to right.
#[cycle(uses)]
pub fn push_uses<'a>(e: &'a Expr, all: &mut Vec<Use<'a>>) -> Result<(), NoMemory>
    ensures { OnOk result (map use_seen all.new.items ≡ map use_seen all.old.items
        ++ uses (expr_of e.now)) }
{
    match e {
        Expr::Cooked(items) => push_all_uses(items.as_slice(), all),
        Expr::Raw(items) => push_all_uses(items.as_slice(), all),
        Expr::Choice(parts) => push_all_uses(parts.as_slice(), all),
        Expr::Both(p, q) => {
            push_uses(p, all)?;
            push_uses(q, all)
        }
        Expr::Prefix(_, p) | Expr::Marked(_, p) => push_uses(p, all),
        Expr::Repeat { body, .. } => push_uses(body, all),
        Expr::Macro { name, arg } => {
            all.push(Use { name, arg })?;
            push_uses(arg, all)
        }
        Expr::Text(_) | Expr::Class { .. } | Expr::Name(_) | Expr::Note(_) => Ok(()),
        Expr::Any | Expr::Start | Expr::End | Expr::Boundary => Ok(()),
    }
}

#[cycle(uses)]
fn push_all_uses<'a>(es: &'a [Expr], all: &mut Vec<Use<'a>>) -> Result<(), NoMemory>
    ensures { OnOk result (map use_seen all.new.items ≡ map use_seen all.old.items
        ++ uses_all (exprs_all es.now)) }
{
    for e in es {
        push_uses(e, all)?;
    }
    Ok(())
}

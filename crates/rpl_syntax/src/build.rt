// Groups, sequences and choices of expressions.
ghost use Rattle.std.specs.Prelude.{◌≡◌};
ghost use Rattle.rpl_syntax.specs.Expression.{wrapped, joined, chosen};
ghost use Rattle.rpl_syntax.specs.View.{shown, expr_of};

use crate::expr::{Expr, Exprs};

/// Returns the items as one group: raw if `raw` is true, and cooked otherwise.
pub fn wrap(raw: bool, items: Exprs) -> Expr
    ensures { expr_of result ≡ wrapped raw (shown items) }
{
    if raw {
        Expr::Raw(items)
    } else {
        Expr::Cooked(items)
    }
}

/// Returns a sequence of the items, or the item itself if there is only one.
pub fn join(raw: bool, items: Exprs) -> Expr
    ensures { expr_of result ≡ joined raw (shown items) }
{
    let mut items = items;
    if items.items.len() == 1 {
        return items.items.swap_remove(0);
    }
    wrap(raw, items)
}

/// Returns a choice of the parts, or the part itself if there is only one.
pub fn choose(parts: Exprs) -> Expr
    ensures { expr_of result ≡ chosen (shown parts) }
{
    let mut parts = parts;
    if parts.items.len() == 1 {
        return parts.items.swap_remove(0);
    }
    Expr::Choice(parts)
}

// Computes the size and the depth of a core before the core is built.
ghost use Rattle.std.specs.Prelude.{◌≡◌, chars, true, length, ◌<◌};
ghost use Rattle.rpl_core.specs.Core as C;
ghost use Rattle.rpl_core.specs.Core.{Core, Cores};
ghost use Rattle.rpl_macro.specs.declared.casing.Casing.{Casing};
ghost use Rattle.rpl_forms.specs.Counting.{Adds, Counts, CountsAll, KnowsInners, seen};
ghost use Rattle.rpl_forms.specs.Counting.{seen_all};
ghost use Rattle.rpl_expand.specs.inside.Items.{alone, between};
ghost use Rattle.rpl_expand.specs.Expansion.{core, cores, spaced};
ghost use Rattle.rpl_expand.specs.Expansion as E;
ghost use Rattle.rpl_forms.specs.Forms.{seq_of};
ghost use Rattle.rpl_forms.specs.Inlining.{Inners};
ghost use Rattle.rpl_expand.specs.inside.Scopes.{scope_seen};
ghost use Rattle.rpl_syntax.specs.View.{expr_of, exprs_all};

use crate::scope::Scope;
use rpl_forms::count::{
    add, applied, capture, cooked_repeat, leaf, node, none, pair, repeat, text,
};
use rpl_forms::inner::count_call;
use rpl_forms::{Count, Inner};
use rpl_macro::Macro;
use rpl_syntax::{Expr, Sign};

/// Returns the number of characters in a text.
fn characters(text: &str) -> usize
    ensures { result ≡ length (chars text.now) }
{
    text.chars().count()
}

/// Returns whether the expression is a predicate.
pub(crate) fn is_prefix(e: &Expr) -> bool
    ensures { result ≡ E.is_prefix (expr_of e.now) }
{
    matches!(e, Expr::Prefix(_, _))
}

/// Returns whether the expression is a cooked group.
pub(crate) fn is_cooked(e: &Expr) -> bool
    ensures { result ≡ E.is_cooked (expr_of e.now) }
{
    matches!(e, Expr::Cooked(_))
}

/// The scope of an expression, what is known about the inlined body of each rule, and whether the
/// expression is inside a look-behind.
#[derive(Clone, Copy)]
pub(crate) struct Around<'a> {
    pub(crate) scope: &'a Scope<'a>,
    pub(crate) known: &'a [Option<Inner>],
    pub(crate) in_lookbehind: bool,
}

impl Around<'_> {
    /// Returns the count of a call of a rule. Inside a look-behind, returns the count of the rule's
    /// inlined body instead.
    fn call(&self, rule: u32) -> Count
        ensures { (I : Inners) → KnowsInners self.now.known.now I
            → Counts result (seen self.now.in_lookbehind I (C.Call rule)) }
    {
        count_call(self.known, self.in_lookbehind, rule)
    }
}

/// Returns the count of an expression's core. Inside a look-behind, returns the count of the core's
/// inlined form.
#[cycle(measure)]
pub(crate) fn measure(around: &Around<'_>, e: &Expr) -> Count
    ensures { (c : Casing) (I : Inners) → KnowsInners around.now.known.now I
        → Counts result (seen around.now.in_lookbehind I
        (core c (scope_seen around.now.scope.now I) (expr_of e.now))) }
{
    match e {
        Expr::Text(chars) => text(characters(chars.as_str())),
        Expr::Class { .. } | Expr::Any | Expr::Start | Expr::End | Expr::Note(_) => leaf(),
        Expr::Boundary => around.call(around.scope.boundary),
        Expr::Name(name) => around.call(around.scope.rule(name)),
        Expr::Cooked(items) => measure_cooked(around, items.as_slice()),
        Expr::Raw(items) => measure_raw(around, items.as_slice()),
        Expr::Choice(parts) => node(measure_all(around, parts.as_slice())),
        Expr::Both(first, second) => {
            let before = node(measure(around, first));
            let last = measure(around, second);
            pair(before, last)
        }
        Expr::Prefix(sign, item) => match sign {
            Sign::Behind => {
                let inside = Around {
                    in_lookbehind: true,
                    ..*around
                };
                node(measure(&inside, item))
            }
            _ => node(measure(around, item)),
        },
        Expr::Repeat { body, least, most } => {
            let of = measure(around, body);
            if is_cooked(body) {
                let boundary = around.call(around.scope.boundary);
                cooked_repeat(boundary, of, *least, *most)
            } else {
                repeat(of, *least, *most)
            }
        }
        Expr::Macro { name, arg } => {
            let of = measure(around, arg);
            let kind = Macro::named(name.name.as_str());
            applied(around.known, around.in_lookbehind, kind, of)
        }
        Expr::Marked(_, body) => capture(around.in_lookbehind, measure(around, body)),
    }
}

/// Returns the count of a raw group.
#[cycle(measure)]
fn measure_raw(around: &Around<'_>, items: &[Expr]) -> Count
    ensures { (c : Casing) (I : Inners) → KnowsInners around.now.known.now I
        → Counts result (seen around.now.in_lookbehind I
        (seq_of (cores c (scope_seen around.now.scope.now I) (exprs_all items.now)))) }
{
    match items {
        [item] => measure(around, item),
        _ => {
            let all = measure_all(around, items);
            node(all)
        }
    }
}

/// Returns the count of a cooked group.
#[cycle(measure)]
fn measure_cooked(around: &Around<'_>, items: &[Expr]) -> Count
    ensures { (c : Casing) (I : Inners) → KnowsInners around.now.known.now I
        → Counts result (seen around.now.in_lookbehind I
        (seq_of (spaced c (scope_seen around.now.scope.now I) (exprs_all items.now)))) }
{
    match items {
        [item] => measure(around, item),
        _ => {
            let all = measure_spaced(around, items);
            node(all)
        }
    }
}

/// Returns the total count of several expressions.
#[cycle(measure)]
fn measure_all(around: &Around<'_>, parts: &[Expr]) -> Count
    ensures { (c : Casing) (I : Inners) → KnowsInners around.now.known.now I
        → CountsAll result (seen_all around.now.in_lookbehind I
        (cores c (scope_seen around.now.scope.now I) (exprs_all parts.now))) }
{
    let mut sum = none();
    for part in parts {
        sum = add(sum, measure(around, part));
    }
    sum
}

/// Returns the total count of the items of a cooked group and the boundaries between them.
#[cycle(measure)]
fn measure_spaced(around: &Around<'_>, items: &[Expr]) -> Count
    ensures { (c : Casing) (I : Inners) → KnowsInners around.now.known.now I
        → CountsAll result (seen_all around.now.in_lookbehind I
        (spaced c (scope_seen around.now.scope.now I) (exprs_all items.now))) }
{
    let mut sum = none();
    let boundary = around.call(around.scope.boundary);
    for number in 0..items.len() {
        let item = measure(around, &items[number]);
        sum = add_item(sum, item, boundary, stands_alone(items, number));
    }
    sum
}

/// Returns whether the item at index `number` stands alone, that is, whether it is the last item or
/// a predicate. No boundary follows an item that stands alone.
pub(crate) fn stands_alone(items: &[Expr], number: usize) -> bool
    requires { number < length items.now }
    ensures { result ≡ alone items.now number }
{
    number + 1 == items.len() || is_prefix(&items[number])
}

/// Adds the count of an item to `sum` and, unless `alone` is true, also the count of the boundary
/// after the item.
fn add_item(sum: Count, item: Count, boundary: Count, alone: bool) -> Count
    ensures { (p b : Core) (rest whole : Cores) → Counts item p → Counts boundary b
        → Adds sum (C.Then p (between alone b rest)) whole → Adds result rest whole }
{
    let with_item = add(sum, item);
    if alone {
        return with_item;
    }
    add(with_item, boundary)
}

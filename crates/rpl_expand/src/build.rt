// Builds the core of an expression. Inside a look-behind, builds the inlined form of the core.
ghost use Rattle.std.specs.Prelude.{◌≡◌, ◌≤◌, IfOk, OnOk, IsTrue, Some, chars};
ghost use Rattle.rpl_core.specs.Core as C;
ghost use Rattle.rpl_core.specs.View.{core_of, cores, listed};
ghost use Rattle.rpl_expand.specs.Expansion as E;
ghost use Rattle.rpl_expand.specs.inside.Bases.{Knows, base_scope, core_at, cores_at, shown};
ghost use Rattle.rpl_expand.specs.inside.Bases.{spaced_at};
ghost use Rattle.rpl_expand.specs.inside.Items.{ahead, between, core_if};
ghost use Rattle.rpl_forms.specs.Forms as F;
ghost use Rattle.rpl_macro.specs.Macros.{text_of};
ghost use Rattle.rpl_syntax.specs.View.{expr_of, exprs_all};

use crate::NoMemory;
use crate::base::Base;
use crate::measure::{is_cooked, stands_alone};
use crate::mode::Mode;
use rpl_core::{Peg, Pegs};
use rpl_forms::make::{
    any, append, behind, choice, class, cooked_once, cooked_repeat, error, marked, message, note,
    pair, repeat, searched, seq, text,
};
use rpl_macro::Macro;
use rpl_syntax::{Expr, Sign};
use std::alloc::Global;

/// The least and the greatest number of turns in a repetition. `most` is `None` if the number is
/// unlimited.
#[derive(Clone, Copy)]
struct Turns {
    least: u32,
    most: Option<u32>,
}

impl Turns {
    /// Returns whether the repetition has no turns, that is, whether it requires and allows none.
    fn is_never(self) -> bool
        ensures least { IsTrue result → self.least ≡ 0 }
        ensures most { IsTrue result → self.most ≡ Some 0 }
    {
        match self.most {
            Some(most) => self.least == 0 && most == 0,
            None => false,
        }
    }

    /// Returns whether `least` is at most one and `most` is one. In that case, a repeated cooked
    /// group needs no boundary between turns.
    fn is_once(self) -> bool
        ensures least { IsTrue result → self.least ≤ 1 }
        ensures most { IsTrue result → self.most ≡ Some 1 }
    {
        match self.most {
            Some(most) => self.least <= 1 && most == 1,
            None => false,
        }
    }
}

/// Returns the boundary that follows an item, or `None` if `alone` is true.
fn boundary_behind(
    alloc: Global,
    base: &Base<'_>,
    in_lookbehind: bool,
    alone: bool,
) -> Result<Option<Peg>, NoMemory>
    requires { Knows base.now }
    ensures { IfOk result (λ o. core_if o
        ≡ between alone (shown base.now in_lookbehind (C.Call base.now.scope.boundary)) C.NoMore) }
{
    if alone {
        return Ok(None);
    }
    Ok(Some(base.call(alloc, in_lookbehind, base.scope.boundary)?))
}

/// Appends an item, and then the boundary that follows it, if there is one.
fn append_item(parts: &mut Pegs, item: Peg, behind: Option<Peg>) -> Result<(), NoMemory>
    ensures { OnOk result (cores (listed parts.new)
        ≡ F.joined (cores (listed parts.old)) (C.Then (core_of item) (core_if behind))) }
{
    append(parts, item)?;
    match behind {
        Some(boundary) => append(parts, boundary),
        None => Ok(()),
    }
}

/// Returns the lookahead predicate with the given sign and body.
fn predicate(alloc: Global, sign: Sign, body: Peg) -> Result<Peg, NoMemory>
    ensures { IfOk result (λ p. core_of p ≡ ahead sign (core_of body)) }
{
    match sign {
        Sign::Not => Ok(Peg::Not(Box::new(alloc, body)?)),
        _ => Ok(Peg::And(Box::new(alloc, body)?)),
    }
}

/// Returns the core of an expression over the rules of a table. Inside a look-behind, returns the
/// inlined form of the core.
#[cycle(build)]
pub(crate) fn build(alloc: Global, base: &Base<'_>, mode: Mode, e: &Expr) -> Result<Peg, NoMemory>
    requires { Knows base.now }
    ensures { IfOk result (λ p. core_of p ≡ core_at base.now mode (expr_of e.now)) }
{
    match e {
        Expr::Text(chars) => text(alloc, mode.casing, chars.as_str()),
        Expr::Class { set, negated } => class(base.sets, mode.casing, set, *negated),
        Expr::Any => any(alloc),
        Expr::Start => Ok(Peg::Start),
        Expr::End => Ok(Peg::End),
        Expr::Boundary => base.call(alloc, mode.in_lookbehind, base.scope.boundary),
        Expr::Name(name) => base.call(alloc, mode.in_lookbehind, base.scope.rule(name)),
        Expr::Cooked(items) => build_cooked(alloc, base, mode, items.as_slice()),
        Expr::Raw(items) => build_raw(alloc, base, mode, items.as_slice()),
        Expr::Choice(parts) => {
            let parts = build_all(alloc, base, mode, parts.as_slice())?;
            Ok(choice(parts))
        }
        Expr::Both(first, second) => {
            let first = build(alloc, base, mode, first)?;
            let before = Peg::And(Box::new(alloc, first)?);
            let last = build(alloc, base, mode, second)?;
            pair(alloc, before, last)
        }
        Expr::Prefix(Sign::Behind, item) => behind(alloc, build(alloc, base, mode.behind(), item)?),
        Expr::Prefix(sign, item) => predicate(alloc, *sign, build(alloc, base, mode, item)?),
        Expr::Repeat { body, least, most } => {
            let turns = Turns {
                least: *least,
                most: *most,
            };
            build_repeat(alloc, base, mode, body, turns)
        }
        Expr::Macro { name, arg } => {
            let kind = Macro::named(name.name.as_str());
            build_macro(alloc, base, mode, kind, arg)
        }
        Expr::Marked(mark, body) => {
            let body = build(alloc, base, mode, body)?;
            marked(alloc, mode.in_lookbehind, *mark, body)
        }
        Expr::Note(text) => note(alloc, mode.in_lookbehind, text),
    }
}

/// Returns the core of a repetition. If the repetition has no turns, its body is ignored and can
/// have any size.
#[cycle(build)]
fn build_repeat(
    alloc: Global,
    base: &Base<'_>,
    mode: Mode,
    body: &Expr,
    turns: Turns,
) -> Result<Peg, NoMemory>
    requires { Knows base.now }
    ensures { IfOk result (λ p. core_of p
        ≡ shown base.now mode.in_lookbehind
        (F.repeated (E.is_cooked (expr_of body.now)) (C.Call base.now.scope.boundary)
        (E.core mode.casing (base_scope base.now) (expr_of body.now)) turns.least turns.most)) }
{
    if turns.is_never() {
        return Ok(seq(Pegs::new(alloc)));
    }
    let turn = build(alloc, base, mode, body)?;
    if !is_cooked(body) {
        return repeat(alloc, turn, turns.least, turns.most);
    }
    if turns.is_once() {
        return cooked_once(alloc, turn, turns.least);
    }
    let boundary = base.call(alloc, mode.in_lookbehind, base.scope.boundary)?;
    cooked_repeat(alloc, boundary, turn, turns.least, turns.most)
}

/// Returns the core of a macro applied to its argument.
#[cycle(build)]
fn build_macro(
    alloc: Global,
    base: &Base<'_>,
    mode: Mode,
    kind: Option<Macro>,
    arg: &Expr,
) -> Result<Peg, NoMemory>
    requires { Knows base.now }
    ensures { IfOk result (λ p. core_of p
        ≡ shown base.now mode.in_lookbehind (F.macro_core kind (text_of (expr_of arg.now))
        (E.core (F.casing_under kind mode.casing) (base_scope base.now) (expr_of arg.now)))) }
{
    match kind {
        Some(Macro::Message) => message(alloc, mode.in_lookbehind, arg),
        Some(Macro::Error) => error(alloc, base.rules, base.known, mode.in_lookbehind, arg),
        _ => {
            let body = build(alloc, base, mode.under(kind), arg)?;
            searched(alloc, mode.in_lookbehind, kind, body)
        }
    }
}

/// Returns the core of a raw group.
#[cycle(build)]
fn build_raw(alloc: Global, base: &Base<'_>, mode: Mode, items: &[Expr]) -> Result<Peg, NoMemory>
    requires { Knows base.now }
    ensures { IfOk result (λ p. core_of p
        ≡ shown base.now mode.in_lookbehind
        (F.seq_of (E.cores mode.casing (base_scope base.now) (exprs_all items.now)))) }
{
    match items {
        [item] => build(alloc, base, mode, item),
        _ => {
            let parts = build_all(alloc, base, mode, items)?;
            Ok(seq(parts))
        }
    }
}

/// Returns the core of a cooked group.
#[cycle(build)]
fn build_cooked(alloc: Global, base: &Base<'_>, mode: Mode, items: &[Expr]) -> Result<Peg, NoMemory>
    requires { Knows base.now }
    ensures { IfOk result (λ p. core_of p
        ≡ shown base.now mode.in_lookbehind
        (F.seq_of (E.spaced mode.casing (base_scope base.now) (exprs_all items.now)))) }
{
    match items {
        [item] => build(alloc, base, mode, item),
        _ => {
            let parts = build_spaced(alloc, base, mode, items)?;
            Ok(seq(parts))
        }
    }
}

/// Returns the cores of several expressions.
#[cycle(build)]
fn build_all(alloc: Global, base: &Base<'_>, mode: Mode, items: &[Expr]) -> Result<Pegs, NoMemory>
    requires { Knows base.now }
    ensures { IfOk result (λ ps. cores (listed ps) ≡ cores_at base.now mode (exprs_all items.now)) }
{
    let mut parts = Pegs::new(alloc);
    for item in items {
        let part = build(alloc, base, mode, item)?;
        append(&mut parts, part)?;
    }
    Ok(parts)
}

/// Returns the cores of a cooked group's items, with the boundaries between them.
#[cycle(build)]
fn build_spaced(
    alloc: Global,
    base: &Base<'_>,
    mode: Mode,
    items: &[Expr],
) -> Result<Pegs, NoMemory>
    requires { Knows base.now }
    ensures { IfOk result (λ ps. cores (listed ps)
        ≡ spaced_at base.now mode (exprs_all items.now)) }
{
    let mut parts = Pegs::new(alloc);
    for number in 0..items.len() {
        let part = build(alloc, base, mode, &items[number])?;
        let alone = stands_alone(items, number);
        let behind = boundary_behind(alloc, base, mode.in_lookbehind, alone)?;
        append_item(&mut parts, part, behind)?;
    }
    Ok(parts)
}

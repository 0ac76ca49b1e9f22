// Patterns built from the patterns of their parts. There is one function for each form.
ghost use Rattle.std.specs.Prelude.{◌≡◌, ◌≤◌, false, IfOk, OnOk, chars, List, ℕ};
ghost use Rattle.rpl_core.specs.Core as C;
ghost use Rattle.rpl_core.specs.Core.{Core};
ghost use Rattle.rpl_core.specs.Listed.{rules_of};
ghost use Rattle.rpl_core.specs.View.{core_of, cores, listed};
ghost use Rattle.rpl_forms.specs.Counting.{KnowsInners, seen};
ghost use Rattle.rpl_forms.specs.Forms as F;
ghost use Rattle.rpl_forms.specs.Inlining.{Inners};
ghost use Rattle.rpl_forms.specs.Rows.{inners_of};
ghost use Rattle.rpl_macro.specs.Casings.{keeps_text, set_in, single};
ghost use Rattle.rpl_macro.specs.Macros.{text_of};
ghost use Rattle.rpl_syntax.specs.View.{expr_of};

use crate::NoMemory;
use crate::class_sets::ClassSets;
use crate::inner::call;
use crate::size::{HALT, Inner};
use rpl_classes::Set;
use rpl_core::{Peg, Pegs, Rules, greatest_length, has_call, has_repetition, least_length};
use rpl_macro::{Casing, Macro};
use rpl_syntax::{Expr, Mark};
use rpl_text::Chars;
use std::alloc::Global;

/// Returns the sequence of `parts`.
pub fn seq(parts: Pegs) -> Peg
    ensures { core_of result ≡ C.Seq (cores (listed parts)) }
{
    Peg::Seq(parts)
}

/// Returns the choice between `parts`, which takes the first part that succeeds.
pub fn choice(parts: Pegs) -> Peg
    ensures { core_of result ≡ C.Choice (cores (listed parts)) }
{
    Peg::Choice(parts)
}

/// Appends a pattern.
pub fn append(parts: &mut Pegs, part: Peg) -> Result<(), NoMemory>
    ensures { OnOk result (cores (listed parts.new)
        ≡ F.joined (cores (listed parts.old)) (C.Then (core_of part) C.NoMore)) }
{
    parts.push(part)?;
    Ok(())
}

/// Appends a pattern `number` times.
pub fn append_copies(
    alloc: Global,
    parts: &mut Pegs,
    number: u32,
    part: &Peg,
) -> Result<(), NoMemory>
    ensures { OnOk result (cores (listed parts.new)
        ≡ F.joined (cores (listed parts.old)) (F.copies number (core_of part.now) C.NoMore)) }
{
    for _turn in 0..number {
        append(parts, part.copy(alloc)?)?;
    }
    Ok(())
}

/// Returns the sequence of two patterns.
pub fn pair(alloc: Global, first: Peg, second: Peg) -> Result<Peg, NoMemory>
    ensures { IfOk result (λ p. core_of p ≡ F.pair (core_of first) (core_of second)) }
{
    let mut parts = Pegs::new(alloc);
    append(&mut parts, first)?;
    append(&mut parts, second)?;
    Ok(seq(parts))
}

/// Returns `some` as an optional pattern: if `some` fails, the empty text is matched.
pub fn or_nothing(alloc: Global, some: Peg) -> Result<Peg, NoMemory>
    ensures { IfOk result (λ p. core_of p ≡ F.or_nothing (core_of some)) }
{
    let mut parts = Pegs::new(alloc);
    append(&mut parts, some)?;
    append(&mut parts, seq(Pegs::new(alloc)))?;
    Ok(choice(parts))
}

/// Returns a pattern repeated any number of times.
fn many(alloc: Global, body: Peg) -> Result<Peg, NoMemory>
    ensures { IfOk result (λ p. core_of p ≡ C.Many (core_of body)) }
{
    Ok(Peg::Many(Box::new(alloc, body)?))
}

/// Returns the pattern for one character in the given casing.
fn character(alloc: Global, casing: Casing, c: char) -> Result<Peg, NoMemory>
    ensures { IfOk result (λ p. core_of p ≡ C.Set (set_in casing (single c))) }
{
    let alone = Set::range(alloc, c, c)?;
    let set = casing.set(alloc, &alone)?;
    Ok(Peg::Set(set))
}

/// Returns the patterns for the characters of a text in the given casing.
fn characters(alloc: Global, casing: Casing, text: &str) -> Result<Pegs, NoMemory>
    ensures { IfOk result (λ ps. cores (listed ps) ≡ F.sets casing (chars text.now)) }
{
    let mut parts = Pegs::new(alloc);
    for c in text.chars() {
        append(&mut parts, character(alloc, casing, c)?)?;
    }
    Ok(parts)
}

/// Returns the sequence of `parts` or, if there is only one part, a copy of that part.
fn group(alloc: Global, parts: Pegs) -> Result<Peg, NoMemory>
    ensures { IfOk result (λ p. core_of p ≡ F.seq_of (cores (listed parts))) }
{
    if parts.len() != 1 {
        return Ok(seq(parts));
    }
    match parts.get(0) {
        Some(part) => part.copy(alloc),
        None => Ok(seq(Pegs::new(alloc))),
    }
}

/// Returns the pattern for a text in the given casing.
pub fn text(alloc: Global, casing: Casing, text: &str) -> Result<Peg, NoMemory>
    ensures { IfOk result (λ p. core_of p ≡ F.text_core casing (chars text.now)) }
{
    group(alloc, characters(alloc, casing, text)?)
}

/// Returns the pattern for a class in the given casing or, if `negated` is true, for the complement
/// of the class.
pub fn class(sets: &ClassSets, casing: Casing, set: &Set, negated: bool) -> Result<Peg, NoMemory>
    ensures { IfOk result (λ p. core_of p ≡ C.Set (F.signed negated (set_in casing set.now))) }
{
    Ok(Peg::Set(sets.set(casing, set, negated)?))
}

/// Returns the pattern for any one character.
pub fn any(alloc: Global) -> Result<Peg, NoMemory>
    ensures { IfOk result (λ p. core_of p ≡ C.Set F.any) }
{
    Ok(Peg::Set(Set::all(alloc)?))
}

/// Returns a pattern repeated `least` or more times.
fn endless(alloc: Global, body: Peg, least: u32) -> Result<Peg, NoMemory>
    ensures { IfOk result (λ p. core_of p ≡ F.endless (core_of body) least) }
{
    if least == 0 {
        return many(alloc, body);
    }
    let mut parts = Pegs::new(alloc);
    append_copies(alloc, &mut parts, least, &body)?;
    append(&mut parts, many(alloc, body)?)?;
    Ok(seq(parts))
}

/// Appends `number` optional copies of a pattern.
fn append_options(alloc: Global, parts: &mut Pegs, number: u32, part: Peg) -> Result<(), NoMemory>
    ensures { OnOk result (cores (listed parts.new)
        ≡ F.joined (cores (listed parts.old))
        (F.copies number (F.or_nothing (core_of part)) C.NoMore)) }
{
    let option = or_nothing(alloc, part)?;
    append_copies(alloc, parts, number, &option)
}

/// Returns a pattern repeated `least` times, and then up to `more` further times.
fn bounded(alloc: Global, body: Peg, least: u32, more: u32) -> Result<Peg, NoMemory>
    ensures { IfOk result (λ p. core_of p
        ≡ C.Seq (F.copies least (core_of body)
        (F.copies more (F.or_nothing (core_of body)) C.NoMore))) }
{
    let mut parts = Pegs::new(alloc);
    append_copies(alloc, &mut parts, least, &body)?;
    append_options(alloc, &mut parts, more, body)?;
    Ok(seq(parts))
}

/// Returns a pattern repeated from `least` to `most` times, or `least` or more times if `most` is
/// `None`.
pub fn repeat(alloc: Global, body: Peg, least: u32, most: Option<u32>) -> Result<Peg, NoMemory>
    ensures { IfOk result (λ p. core_of p ≡ F.repeat (core_of body) least most) }
{
    match most {
        None => endless(alloc, body, least),
        Some(most) => bounded(alloc, body, least, most.saturating_sub(least)),
    }
}

/// Returns a further turn of a cooked group: the boundary and a copy of the group.
fn further_turn(alloc: Global, boundary: Peg, body: &Peg) -> Result<Peg, NoMemory>
    ensures { IfOk result (λ p. core_of p ≡ F.pair (core_of boundary) (core_of body.now)) }
{
    let again = body.copy(alloc)?;
    pair(alloc, boundary, again)
}

/// Returns `first`, followed by `number` copies of `next`.
fn with_copies(alloc: Global, first: Peg, number: u32, next: &Peg) -> Result<Pegs, NoMemory>
    ensures { IfOk result (λ ps. cores (listed ps)
        ≡ C.Then (core_of first) (F.copies number (core_of next.now) C.NoMore)) }
{
    let mut parts = Pegs::new(alloc);
    append(&mut parts, first)?;
    append_copies(alloc, &mut parts, number, next)?;
    Ok(parts)
}

/// Returns a cooked group repeated `least` or more times, with the boundary between its turns.
fn cooked_endless(alloc: Global, boundary: Peg, body: Peg, least: u32) -> Result<Peg, NoMemory>
    ensures { IfOk result (λ p. core_of p ≡ F.cooked_endless (core_of boundary) (core_of body)
        least) }
{
    let turn = further_turn(alloc, boundary, &body)?;
    if least == 0 {
        let turns = many(alloc, turn)?;
        let some = pair(alloc, body, turns)?;
        return or_nothing(alloc, some);
    }
    let mut parts = with_copies(alloc, body, least - 1, &turn)?;
    append(&mut parts, many(alloc, turn)?)?;
    Ok(seq(parts))
}

/// Returns one turn of a cooked group, followed by `further` turns and then by `more` optional
/// turns.
fn cooked_turns(
    alloc: Global,
    boundary: Peg,
    body: Peg,
    further: u32,
    more: u32,
) -> Result<Peg, NoMemory>
    ensures { IfOk result (λ p. core_of p ≡ F.cooked_turns (core_of boundary) (core_of body) further
        more) }
{
    let turn = further_turn(alloc, boundary, &body)?;
    let mut parts = with_copies(alloc, body, further, &turn)?;
    append_options(alloc, &mut parts, more, turn)?;
    Ok(seq(parts))
}

/// Returns a cooked group repeated from `least` to `most` times.
fn cooked_bounded(
    alloc: Global,
    boundary: Peg,
    body: Peg,
    least: u32,
    most: u32,
) -> Result<Peg, NoMemory>
    ensures { IfOk result (λ p. core_of p ≡ F.cooked_bounded (core_of boundary) (core_of body) least
        most) }
{
    if least > 0 {
        return cooked_turns(alloc, boundary, body, least - 1, most.saturating_sub(least));
    }
    if most == 0 {
        return Ok(seq(Pegs::new(alloc)));
    }
    let turns = cooked_turns(alloc, boundary, body, 0, most - 1)?;
    or_nothing(alloc, turns)
}

/// Returns a cooked group repeated at most once, which needs no boundary.
pub fn cooked_once(alloc: Global, body: Peg, least: u32) -> Result<Peg, NoMemory>
    requires { least ≤ 1 }
    ensures { IfOk result (λ p. (b : Core) →
        core_of p ≡ F.cooked_bounded b (core_of body) least 1) }
{
    let mut parts = Pegs::new(alloc);
    append(&mut parts, body)?;
    if least == 0 {
        return or_nothing(alloc, seq(parts));
    }
    Ok(seq(parts))
}

/// Returns a cooked group repeated from `least` to `most` times, or `least` or more times if
/// `most` is `None`.
pub fn cooked_repeat(
    alloc: Global,
    boundary: Peg,
    body: Peg,
    least: u32,
    most: Option<u32>,
) -> Result<Peg, NoMemory>
    ensures { IfOk result (λ p. core_of p ≡ F.cooked_repeat (core_of boundary) (core_of body) least
        most) }
{
    match most {
        None => cooked_endless(alloc, boundary, body, least),
        Some(most) => cooked_bounded(alloc, boundary, body, least, most),
    }
}

/// Returns the type of the trees that are made for parts marked with `mark`.
fn mark_name(alloc: Global, mark: Mark) -> Result<Chars, NoMemory>
    ensures { IfOk result (λ n. n ≡ F.mark_name mark) }
{
    match mark {
        Mark::Hit => Chars::from_str(alloc, "find.*"),
        Mark::Skip => Chars::from_str(alloc, "find.<search>"),
    }
}

/// Returns a marked part of a search. A match of the part becomes a node, except in a look-behind.
pub fn marked(alloc: Global, in_lookbehind: bool, mark: Mark, body: Peg) -> Result<Peg, NoMemory>
    ensures { IfOk result (λ q. (I : Inners) (p : Core) → core_of body ≡ seen in_lookbehind I p
        → core_of q ≡ seen in_lookbehind I (C.Capture (F.mark_name mark) p)) }
{
    if in_lookbehind {
        return Ok(body);
    }
    let name = mark_name(alloc, mark)?;
    Ok(Peg::Capture(name, Box::new(alloc, body)?))
}

/// Returns the pattern for the characters that a search skips.
fn passed(alloc: Global, body: &Peg) -> Result<Peg, NoMemory>
    ensures { IfOk result (λ p. core_of p ≡ F.passed (core_of body.now)) }
{
    let not = Peg::Not(Box::new(alloc, body.copy(alloc)?)?);
    let step = pair(alloc, not, any(alloc)?)?;
    many(alloc, step)
}

/// Returns a search for `body`.
fn found(alloc: Global, in_lookbehind: bool, body: Peg) -> Result<Peg, NoMemory>
    ensures { IfOk result (λ q. (I : Inners) (p : Core) → core_of body ≡ seen in_lookbehind I p
        → core_of q ≡ seen in_lookbehind I (F.found p)) }
{
    let before = passed(alloc, &body)?;
    let hit = marked(alloc, in_lookbehind, Mark::Hit, body)?;
    pair(alloc, before, hit)
}

/// Returns a search for `body`. The search keeps what it skips.
fn kept(alloc: Global, in_lookbehind: bool, body: Peg) -> Result<Peg, NoMemory>
    ensures { IfOk result (λ q. (I : Inners) (p : Core) → core_of body ≡ seen in_lookbehind I p
        → core_of q ≡ seen in_lookbehind I (F.kept p)) }
{
    let before = passed(alloc, &body)?;
    let before = marked(alloc, in_lookbehind, Mark::Skip, before)?;
    let hit = marked(alloc, in_lookbehind, Mark::Hit, body)?;
    pair(alloc, before, hit)
}

/// Returns a search for `body`, repeated one or more times.
fn all_found(alloc: Global, in_lookbehind: bool, body: Peg) -> Result<Peg, NoMemory>
    ensures { IfOk result (λ q. (I : Inners) (p : Core) → core_of body ≡ seen in_lookbehind I p
        → core_of q ≡ seen in_lookbehind I (F.endless (F.found p) 1)) }
{
    let search = found(alloc, in_lookbehind, body)?;
    endless(alloc, search, 1)
}

/// Returns the result of a macro that searches or that changes case, given the macro's argument. If
/// the macro changes case, the argument is already in the new case.
pub fn searched(
    alloc: Global,
    in_lookbehind: bool,
    kind: Option<Macro>,
    body: Peg,
) -> Result<Peg, NoMemory>
    requires { keeps_text kind ≡ false }
    ensures { IfOk result (λ q. (I : Inners) (t : List ℕ) (p : Core) →
        core_of body ≡ seen in_lookbehind I p
        → core_of q ≡ seen in_lookbehind I (F.macro_core kind t p)) }
{
    match kind {
        Some(Macro::Find) => found(alloc, in_lookbehind, body),
        Some(Macro::FindAll) => all_found(alloc, in_lookbehind, body),
        Some(Macro::KeepTo) => kept(alloc, in_lookbehind, body),
        _ => Ok(body),
    }
}

/// Returns a message, which becomes a node except in a look-behind.
pub fn note(alloc: Global, in_lookbehind: bool, text: &Chars) -> Result<Peg, NoMemory>
    ensures { IfOk result (λ q. (I : Inners) → core_of q ≡ seen in_lookbehind I (C.Note text.now)) }
{
    if in_lookbehind {
        return Ok(seq(Pegs::new(alloc)));
    }
    Ok(Peg::Note(text.copy(alloc)?))
}

/// Returns a message with the argument's text. The argument's text is copied as it is; no pattern
/// is built for its characters.
pub fn message(alloc: Global, in_lookbehind: bool, arg: &Expr) -> Result<Peg, NoMemory>
    ensures { IfOk result (λ q. (I : Inners) →
        core_of q ≡ seen in_lookbehind I (C.Note (text_of (expr_of arg.now)))) }
{
    match arg {
        Expr::Text(text) => note(alloc, in_lookbehind, text),
        _ => note(alloc, in_lookbehind, &Chars::empty(alloc)),
    }
}

/// Returns a message followed by the end of the match.
pub fn error(
    alloc: Global,
    rules: &Rules,
    known: &[Option<Inner>],
    in_lookbehind: bool,
    arg: &Expr,
) -> Result<Peg, NoMemory>
    requires { KnowsInners known.now (inners_of (rules_of rules.now)) }
    ensures { IfOk result (λ q. core_of q
        ≡ seen in_lookbehind (inners_of (rules_of rules.now))
        (F.pair (C.Note (text_of (expr_of arg.now))) (C.Call F.halt_rule))) }
{
    let told = message(alloc, in_lookbehind, arg)?;
    let end = call(alloc, rules, known, in_lookbehind, HALT)?;
    pair(alloc, told, end)
}

/// Returns a look-behind whose body is `body`.
pub fn behind(alloc: Global, body: Peg) -> Result<Peg, NoMemory>
    ensures { IfOk result (λ p. core_of p ≡ F.behind (core_of body)) }
{
    let mut lengths = (0, 0);
    if !has_call(&body) && !has_repetition(&body) {
        lengths = (least_length(&body), greatest_length(&body));
    }
    Ok(Peg::Behind {
        least: lengths.0,
        most: lengths.1,
        body: Box::new(alloc, body)?,
    })
}

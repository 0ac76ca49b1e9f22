// Sizes and depths of cores, computed from those of their parts. There is one function for each
// form.
ghost use Rattle.std.specs.Prelude.{◌≡◌, ℕ, List, length};
ghost use Rattle.rpl_core.specs.Core as C;
ghost use Rattle.rpl_core.specs.Core.{Core, Cores};
ghost use Rattle.rpl_macro.specs.declared.casing.Casing.{Casing};
ghost use Rattle.rpl_forms.specs.Forms.{macro_core};
ghost use Rattle.rpl_forms.specs.Counting.{Adds, Counts, CountsAll, KnowsInners, seen};
ghost use Rattle.rpl_forms.specs.Forms as F;
ghost use Rattle.rpl_forms.specs.Inlining.{Inners};
ghost use Rattle.rpl_forms.specs.Sizes.{deep, nodes};

use crate::inner::count_call;
use crate::size::{Count, HALT, Inner, MAX_DEPTH, MAX_SIZE};
use rpl_macro::Macro;

/// Returns the count of a core without parts.
pub fn leaf() -> Count
    ensures { (p : Core) → nodes p ≡ 1 → deep p ≡ 1 → Counts result p }
{
    Count { size: 1, depth: 1 }
}

/// Returns the count of an empty list of cores.
pub fn none() -> Count
    ensures all { CountsAll result C.NoMore }
    ensures start { (ps : Cores) → Adds result ps ps }
{
    Count { size: 0, depth: 0 }
}

/// Returns the count of a core whose parts together have the count `of`.
pub fn node(of: Count) -> Count
    ensures seq { (ps : Cores) → CountsAll of ps → Counts result (C.Seq ps) }
    ensures choice { (ps : Cores) → CountsAll of ps → Counts result (C.Choice ps) }
    ensures many { (p : Core) → Counts of p → Counts result (C.Many p) }
    ensures not { (p : Core) → Counts of p → Counts result (C.Not p) }
    ensures and { (p : Core) → Counts of p → Counts result (C.And p) }
    ensures capture { (p : Core) (c : List ℕ) → Counts of p → Counts result (C.Capture c p) }
    ensures behind { (p : Core) (l m : ℕ) → Counts of p → Counts result (C.Behind l m p) }
{
    Count {
        size: (of.size + 1).min(MAX_SIZE + 1),
        depth: (of.depth + 1).min(MAX_DEPTH + 1),
    }
}

/// Returns the count of a core followed by other cores, whose count is `rest`.
fn front(first: Count, rest: Count) -> Count
    ensures { (p : Core) (ps : Cores) → Counts first p → CountsAll rest ps →
        CountsAll result (C.Then p ps) }
{
    Count {
        size: (first.size + rest.size).min(MAX_SIZE + 1),
        depth: first.depth.max(rest.depth),
    }
}

/// Adds the count of the next core to the sum of the previous counts.
pub fn add(sum: Count, next: Count) -> Count
    ensures { (p : Core) (rest whole : Cores) → Counts next p → Adds sum (C.Then p rest) whole
        → Adds result rest whole }
{
    Count {
        size: (sum.size + next.size).min(MAX_SIZE + 1),
        depth: sum.depth.max(next.depth),
    }
}

/// Returns the count of `number` copies of a core followed by other cores, whose count is `rest`.
fn copies(number: u32, part: Count, rest: Count) -> Count
    ensures { (p : Core) (ps : Cores) → Counts part p → CountsAll rest ps →
        CountsAll result (F.copies number p ps) }
{
    if number == 0 {
        return rest;
    }
    let size = number as u64 * part.size as u64 + rest.size as u64;
    Count {
        size: size.min(MAX_SIZE as u64 + 1) as u32,
        depth: part.depth.max(rest.depth),
    }
}

/// Returns the count of a sequence of two cores.
pub fn pair(first: Count, second: Count) -> Count
    ensures { (p q : Core) → Counts first p → Counts second q → Counts result (F.pair p q) }
{
    let last = front(second, none());
    let both = front(first, last);
    node(both)
}

/// Returns the count of an optional core.
fn or_nothing(of: Count) -> Count
    ensures { (p : Core) → Counts of p → Counts result (F.or_nothing p) }
{
    let last = front(leaf(), none());
    let both = front(of, last);
    node(both)
}

/// Returns the count of a text of `number` characters.
pub fn text(number: usize) -> Count
    ensures { (c : Casing) (t : List ℕ) → length t ≡ number → Counts result (F.text_core c t) }
{
    if number < 2 {
        return leaf();
    }
    Count {
        size: number.min(MAX_SIZE as usize) as u32 + 1,
        depth: 2,
    }
}

/// Returns the count of a core repeated `least` or more times.
fn endless(of: Count, least: u32) -> Count
    ensures { (p : Core) → Counts of p → Counts result (F.endless p least) }
{
    let many = node(of);
    if least == 0 {
        return many;
    }
    let last = front(many, none());
    let rest = copies(least - 1, of, last);
    let all = front(of, rest);
    node(all)
}

/// Returns the count of a core repeated `least` times, and then up to `more` further times.
fn bounded(of: Count, least: u32, more: u32) -> Count
    ensures { (p : Core) → Counts of p
        → Counts result (C.Seq (F.copies least p (F.copies more (F.or_nothing p) C.NoMore))) }
{
    let last = copies(more, or_nothing(of), none());
    let all = copies(least, of, last);
    node(all)
}

/// Returns the count of a core repeated from `least` to `most` times, or `least` or more times if
/// `most` is `None`.
pub fn repeat(of: Count, least: u32, most: Option<u32>) -> Count
    ensures { (p : Core) → Counts of p → Counts result (F.repeat p least most) }
{
    match most {
        None => endless(of, least),
        Some(most) => bounded(of, least, most.saturating_sub(least)),
    }
}

/// Returns the count of a cooked group repeated `least` or more times, with the boundary between
/// its turns.
fn cooked_endless(boundary: Count, of: Count, least: u32) -> Count
    ensures { (b p : Core) → Counts boundary b → Counts of p →
        Counts result (F.cooked_endless b p least) }
{
    let turn = pair(boundary, of);
    let many = node(turn);
    if least == 0 {
        let some = pair(of, many);
        return or_nothing(some);
    }
    let last = front(many, none());
    let rest = copies(least - 1, turn, last);
    let all = front(of, rest);
    node(all)
}

/// Returns the count of one turn of a cooked group followed by `further` turns and then by `more`
/// optional turns.
fn cooked_turns(boundary: Count, of: Count, further: u32, more: u32) -> Count
    ensures { (b p : Core) → Counts boundary b → Counts of p →
        Counts result (F.cooked_turns b p further more) }
{
    let turn = pair(boundary, of);
    let last = copies(more, or_nothing(turn), none());
    let rest = copies(further, turn, last);
    let all = front(of, rest);
    node(all)
}

/// Returns the count of a cooked group repeated from `least` to `most` times.
fn cooked_bounded(boundary: Count, of: Count, least: u32, most: u32) -> Count
    ensures { (b p : Core) → Counts boundary b → Counts of p →
        Counts result (F.cooked_bounded b p least most) }
{
    if least > 0 {
        return cooked_turns(boundary, of, least - 1, most.saturating_sub(least));
    }
    if most == 0 {
        return leaf();
    }
    let turns = cooked_turns(boundary, of, 0, most - 1);
    or_nothing(turns)
}

/// Returns the count of a cooked group repeated from `least` to `most` times, or `least` or more
/// times if `most` is `None`.
pub fn cooked_repeat(boundary: Count, of: Count, least: u32, most: Option<u32>) -> Count
    ensures { (b p : Core) → Counts boundary b → Counts of p →
        Counts result (F.cooked_repeat b p least most) }
{
    match most {
        None => cooked_endless(boundary, of, least),
        Some(most) => cooked_bounded(boundary, of, least, most),
    }
}

/// Returns the count of a capture of a core. Inside a look-behind, captures are dropped.
pub fn capture(in_lookbehind: bool, of: Count) -> Count
    ensures { (p : Core) (c : List ℕ) (I : Inners) → Counts of (seen in_lookbehind I p)
        → Counts result (seen in_lookbehind I (C.Capture c p)) }
{
    if in_lookbehind {
        return of;
    }
    node(of)
}

/// Returns the count of the pattern for the characters that a search skips.
fn passed(of: Count) -> Count
    ensures { (p : Core) → Counts of p → Counts result (F.passed p) }
{
    let not = node(of);
    let step = pair(not, leaf());
    node(step)
}

/// Returns the count of a search.
fn found(in_lookbehind: bool, of: Count) -> Count
    ensures { (p : Core) (I : Inners) → Counts of (seen in_lookbehind I p)
        → Counts result (seen in_lookbehind I (F.found p)) }
{
    let before = passed(of);
    let hit = capture(in_lookbehind, of);
    pair(before, hit)
}

/// Returns the count of a search that keeps what it skips.
fn kept(in_lookbehind: bool, of: Count) -> Count
    ensures { (p : Core) (I : Inners) → Counts of (seen in_lookbehind I p)
        → Counts result (seen in_lookbehind I (F.kept p)) }
{
    let before = capture(in_lookbehind, passed(of));
    let hit = capture(in_lookbehind, of);
    pair(before, hit)
}

/// Returns the count of a message followed by the end of the match.
fn error(known: &[Option<Inner>], in_lookbehind: bool) -> Count
    ensures { (I : Inners) (t : List ℕ) → KnowsInners known.now I
        → Counts result (seen in_lookbehind I (F.pair (C.Note t) (C.Call F.halt_rule))) }
{
    let end = count_call(known, in_lookbehind, HALT);
    pair(leaf(), end)
}

/// Returns the count of a macro's result, given the count of its argument.
pub fn applied(
    known: &[Option<Inner>],
    in_lookbehind: bool,
    kind: Option<Macro>,
    of: Count,
) -> Count
    ensures { (I : Inners) (t : List ℕ) (p : Core) → KnowsInners known.now I →
        Counts of (seen in_lookbehind I p)
        → Counts result (seen in_lookbehind I (macro_core kind t p)) }
{
    match kind {
        None | Some(Macro::Ci) | Some(Macro::Uci) => of,
        Some(Macro::Find) => found(in_lookbehind, of),
        Some(Macro::FindAll) => repeat(found(in_lookbehind, of), 1, None),
        Some(Macro::KeepTo) => kept(in_lookbehind, of),
        Some(Macro::Message) => leaf(),
        Some(Macro::Error) => error(known, in_lookbehind),
    }
}

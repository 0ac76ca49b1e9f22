// Brackets: classes, compounds and lists.
ghost use Rattle.std.specs.Prelude.{◌≡◌, ◌+◌, ◌≤◌, slice_range, false, chars, if◌then◌else◌};
ghost use Rattle.std.specs.Prelude.{MatchOption, IfOk};
ghost use Rattle.rpl_text.specs.Places.{index, IsPlace};
ghost use Rattle.rpl_classes.specs.Symbols.{symbols_from};
ghost use Rattle.rpl_classes.specs.Algebra.{others};
ghost use Rattle.rpl_classes.specs.Brackets.{is_name, is_class, class, bracket_of};
ghost use Rattle.rpl_classes.specs.Laws.{reading, content};
ghost use Rattle.rpl_classes.specs.inside.Scanned.{NameFound, ClassFound, Gives, with_place};
ghost use Rattle.rpl_classes.specs.inside.Stack.{signed, Begins, IsMarked, GivesSet};
ghost use Rattle.rpl_classes.specs.Faults.{IsRead};

use crate::NoMemory;
use crate::compounds::compound_set;
use crate::fault::SetFault;
use crate::lists::list_at;
use crate::named_sets::NamedSets;
use crate::set::Set;
use crate::symbols::{accept, skip_blanks, skip_word};
use rpl_text::Text;
use std::alloc::Global;

/// A class found in the text, directly after a bracket's `[`.
#[derive(Clone, Copy)]
struct ClassText {
    /// Whether a `^` precedes the name.
    negated: bool,
    /// The byte offset where the name starts.
    start: usize,
    end: usize,
    /// The place after the `]`.
    next: usize,
}

/// Parses the name of a class and the `:]` after it. Returns the end of the name and the place
/// after the `]`.
fn name_at(text: &str, start: usize) -> Option<(usize, usize)>
    requires { IsPlace (chars text.now) start }
    ensures { let t = chars text.now in
        MatchOption result (is_name (symbols_from t start) ≡ false)
        (λ r. NameFound t start r.0 r.1) }
{
    let end = skip_word(text, start);
    if end == start {
        return None;
    }
    let colon = accept(text, end, ':')?;
    let next = accept(text, colon, ']')?;
    Some((end, next))
}

/// Parses the class at `place`, which is directly after a bracket's `[`.
fn class_at(text: &str, place: usize) -> Option<ClassText>
    requires { IsPlace (chars text.now) place }
    ensures { let t = chars text.now in
        MatchOption result (is_class (symbols_from t place) ≡ false)
        (λ r. ClassFound t place r.negated r.start r.end r.next) }
{
    let name = accept(text, place, ':')?;
    let mark = accept(text, name, '^');
    let start = mark.unwrap_or(name);
    let (end, next) = name_at(text, start)?;
    Some(ClassText {
        negated: mark.is_some(),
        start,
        end,
        next,
    })
}

/// Returns the text between the places `from` and `to`.
fn part(text: &str, from: usize, to: usize) -> &str
    requires from { IsPlace (chars text.now) from }
    requires to { IsPlace (chars text.now) to }
    requires order { from ≤ to }
    ensures { let t = chars text.now in chars result.now
        ≡ slice_range t (index t from) (index t to) }
{
    Text::new(text).slice(from, to)
}

/// Returns the set of the class found at `inside`. The bracket begins at `at`.
fn class_set(
    sets: &mut NamedSets,
    text: &str,
    at: usize,
    inside: usize,
    found: ClassText,
) -> Result<Set, SetFault>
    requires { ClassFound (chars text.now) inside found.negated found.start found.end found.next }
    ensures { Gives (chars text.now) (with_place result found.next)
        (class at (symbols_from (chars text.now) inside)) }
{
    match sets.named(found.negated, part(text, found.start, found.end)) {
        Err(SetFault::UnknownClass { .. }) => Err(SetFault::UnknownClass { at }),
        Ok(set) => Ok(set),
        Err(fault) => Err(fault),
    }
}

/// Returns `set`, or its complement if `negated` is true.
pub(crate) fn signed_set(alloc: Global, negated: bool, set: Set) -> Result<Set, NoMemory>
    ensures { IfOk result (λ s. s ≡ (if negated then others set else set)) }
{
    if negated {
        set.complement(alloc)
    } else {
        Ok(set)
    }
}

/// The parsed start of a bracket.
pub(crate) enum Begun {
    /// A whole bracket: its set, and the place after its `]`.
    Whole(Set, usize),
    /// A compound: whether a `^` precedes it, and the place of its first member.
    Compound(bool, usize),
}

/// Parses what follows a bracket's `[` or `[^`: a list, or a compound up to its first member.
fn content_at(alloc: Global, text: &str, negated: bool, place: usize) -> Result<Begun, SetFault>
    requires { IsPlace (chars text.now) place }
    ensures value { let t = chars text.now in Begins t place
        (signed negated (content (symbols_from t place))) result }
    ensures mark { IfOk result (IsMarked negated) }
{
    let start = skip_blanks(text, place);
    if accept(text, start, '[').is_some() {
        return Ok(Begun::Compound(negated, start));
    }
    let (set, next) = list_at(alloc, text, place)?;
    Ok(Begun::Whole(signed_set(alloc, negated, set)?, next))
}

/// Parses the bracket at `place`; if it is a compound, only up to its first member.
pub(crate) fn begin_at(
    alloc: Global,
    sets: &mut NamedSets,
    text: &str,
    place: usize,
) -> Result<Begun, SetFault>
    requires { IsPlace (chars text.now) place }
    ensures { let t = chars text.now in Begins t (place + 1) (reading (symbols_from t place))
        result }
{
    let Some(inside) = accept(text, place, '[') else {
        return Err(SetFault::BadSet { at: place });
    };
    if let Some(found) = class_at(text, inside) {
        let set = class_set(sets, text, place, inside, found)?;
        return Ok(Begun::Whole(set, found.next));
    }
    let Some(behind) = accept(text, inside, '^') else {
        return content_at(alloc, text, false, inside);
    };
    content_at(alloc, text, true, behind)
}

/// Parses what follows the outermost `[` or `[^`, and returns the set that this content denotes.
fn content_set(
    alloc: Global,
    sets: &mut NamedSets,
    text: &str,
    place: usize,
) -> Result<Set, SetFault>
    requires { IsPlace (chars text.now) place }
    ensures { let t = chars text.now in GivesSet t (content (symbols_from t place)) result }
{
    match content_at(alloc, text, false, place)? {
        Begun::Whole(set, _) => Ok(set),
        Begun::Compound(_, first) => compound_set(alloc, sets, text, first),
    }
}

/// The result of reading a bracket.
///
/// # Examples
///
/// ```
/// use rpl_classes::read_bracket;
/// let bracket = read_bracket(alloc, "[^0-9]")?;
/// assert!(rt; bracket.negated && bracket.set.has('7') && !bracket.set.has('a'));
/// ```
#[derive(Debug, Drop)]
pub struct Bracket {
    /// The characters that the bracket denotes if a `^` after the outermost `[` is ignored.
    pub set: Set,
    /// Whether a `^` follows the outermost `[`. If so, the bracket denotes the characters that are
    /// not in `set`.
    pub negated: bool,
}

/// Parses a text that is one bracket, from its `[` to the matching `]`.
///
/// A bracket is one of three things: a class `[:name:]` or `[:^name:]`; a compound, whose content
/// begins with `[` after any blanks; or a list of characters and escapes. A compound consists of
/// brackets that are side by side or joined by the operators `&&` and `--`, which apply from left
/// to right. A list is a range only if it is `x-y` and nothing else. If there are several faults,
/// the first one in the text is returned. For a text that is not a bracket, the fault is `BadSet`
/// at the first unexpected character, or at the end of the text. Nothing after the matching `]` is
/// read. Nested brackets, however deep, don't lead to nested calls.
pub fn read_bracket(alloc: Global, text: &str) -> Result<Bracket, SetFault>
    ensures { IsRead (bracket_of (chars text.now)) result }
{
    let mut sets = NamedSets::new(alloc);
    read_bracket_with(alloc, &mut sets, text)
}

/// Parses a text that is one bracket, as `read_bracket` does. Named sets are looked up in `sets`
/// first and kept there, so that the brackets of a text share them.
pub fn read_bracket_with(
    alloc: Global,
    sets: &mut NamedSets,
    text: &str,
) -> Result<Bracket, SetFault>
    ensures { IsRead (bracket_of (chars text.now)) result }
{
    let Some(inside) = accept(text, 0, '[') else {
        return Err(SetFault::BadSet { at: 0 });
    };
    if let Some(found) = class_at(text, inside) {
        let set = class_set(sets, text, 0, inside, found)?;
        return Ok(Bracket {
            set,
            negated: false,
        });
    }
    let Some(behind) = accept(text, inside, '^') else {
        let set = content_set(alloc, sets, text, inside)?;
        return Ok(Bracket {
            set,
            negated: false,
        });
    };
    let set = content_set(alloc, sets, text, behind)?;
    Ok(Bracket { set, negated: true })
}

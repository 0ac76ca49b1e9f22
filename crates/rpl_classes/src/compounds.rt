// Compounds: brackets side by side or joined by operators. Open compounds are kept on a stack, so
// brackets can be nested to any depth. The ranges to keep and the ranges to remove are gathered as
// they are read, and are turned into a set only once, at the end of the compound.
ghost use Rattle.std.specs.Prelude.{◌≡◌, ◌++◌, [], chars, IfOk, IsTrue};
ghost use Rattle.rpl_text.specs.Places.{IsPlace};
ghost use Rattle.rpl_classes.specs.Norm.{norm};
ghost use Rattle.rpl_classes.specs.Algebra.{others};
ghost use Rattle.rpl_classes.specs.Symbols.{symbols_from};
ghost use Rattle.rpl_classes.specs.inside.Scanned.{AcceptsTwice};
ghost use Rattle.rpl_classes.specs.inside.Operators.{OperatorAt};
ghost use Rattle.rpl_classes.specs.inside.Stack.{left_set, joined_by, opened, framed, resume};
ghost use Rattle.rpl_classes.specs.inside.Stack.{Steps};
ghost use Rattle.rpl_classes.specs.inside.Stack.{GoesBehind, GivesSet};

use crate::NoMemory;
use crate::brackets::{Begun, begin_at, signed_set};
use crate::fault::SetFault;
use crate::gathered::Gathered;
use crate::named_sets::NamedSets;
use crate::set::Set;
use crate::symbols::{accept, skip_blanks};
use regex_class::ClassRange;
use std::alloc::Global;
use std::marker::Model;

/// An operator between two unions of brackets.
#[derive(Clone, Copy)]
pub(crate) enum Operator {
    Both,
    Without,
}

/// If the character `c` occurs twice in a row at `place`, returns the place after the second one.
fn accept_twice(text: &str, place: usize, c: char) -> Option<usize>
    requires { IsPlace (chars text.now) place }
    ensures { AcceptsTwice (chars text.now) place c result }
{
    let next = accept(text, place, c)?;
    accept(text, next, c)
}

/// Returns the operator at `place`, and the place after it.
fn operator_at(text: &str, place: usize) -> Option<(Operator, usize)>
    requires { IsPlace (chars text.now) place }
    ensures { OperatorAt (chars text.now) place result }
{
    if let Some(next) = accept_twice(text, place, '&') {
        return Some((Operator::Both, next));
    }
    let next = accept_twice(text, place, '-')?;
    Some((Operator::Without, next))
}

/// A union of brackets, and the characters that are not in it. Contracts see a `Complement` as the
/// ranges of the characters outside the union.
#[derive(Drop)]
pub(crate) struct Complement {
    union: Gathered,
    left_out: Set,
}

impl Model for Complement {
    ghost use Rattle.std.specs.Prelude.{◌≡◌, List};
    ghost use Rattle.regex_class.specs.Ranges.{Range};
    ghost use Rattle.rpl_classes.specs.Algebra.{others};
    ghost use Rattle.rpl_classes.specs.Norm.{norm};

    ghost Value = { List Range };

    ghost view = { λ c. c.left_out };

    ghost invariant = { λ c. c.left_out ≡ others (norm c.union) };
}

impl Complement {
    fn new(alloc: Global, union: Gathered) -> Result<Complement, NoMemory>
        ensures { IfOk result (λ c. c ≡ others (norm union)) }
    {
        let left_out = union.set(alloc)?.complement(alloc)?;
        Ok(Complement { union, left_out })
    }

    /// Returns `true` only if this is the complement of `union`. Compares the ranges of the two
    /// unions in the order in which they are listed, so the result can be `false` even if this is
    /// the complement.
    fn is_of(&self, union: &Gathered) -> bool
        ensures { IsTrue result → self.now ≡ others (norm union.now) }
    {
        self.union.same(union)
    }

    fn ranges(&self) -> &[ClassRange]
        ensures { result.now ≡ self.now }
    {
        self.left_out.ranges()
    }
}

/// Returns the complement of `union`. If `last` is recognized as that complement, returns `last`
/// instead of building a new complement.
fn complement_of(
    alloc: Global,
    last: Option<Complement>,
    union: Gathered,
) -> Result<Complement, NoMemory>
    ensures { IfOk result (λ c. c ≡ others (norm union)) }
{
    match last {
        Some(last) if last.is_of(&union) => Ok(last),
        _ => Complement::new(alloc, union),
    }
}

/// The left operand so far: the ranges kept, and the ranges to remove from them.
#[derive(Drop)]
pub(crate) struct Left {
    kept: Gathered,
    taken: Gathered,
    /// The complement that was removed last.
    last: Option<Complement>,
}

impl Left {
    /// Adds `ranges` to the ranges to remove.
    fn less(self, alloc: Global, ranges: &[ClassRange]) -> Result<Left, NoMemory>
        ensures kept { IfOk result (λ l. l.kept ≡ self.kept) }
        ensures taken { IfOk result (λ l. norm l.taken ≡ norm (self.taken ++ ranges.now)) }
    {
        let Left {
            kept,
            mut taken,
            last,
        } = self;
        taken.add(alloc, ranges)?;
        Ok(Left { kept, taken, last })
    }

    /// Adds the complement of `union` to the ranges to remove.
    fn within(self, alloc: Global, union: Gathered) -> Result<Left, NoMemory>
        ensures kept { IfOk result (λ l. l.kept ≡ self.kept) }
        ensures taken { IfOk result
            (λ l. norm l.taken ≡ norm (self.taken ++ others (norm union))) }
    {
        let Left {
            kept,
            mut taken,
            last,
        } = self;
        let last = complement_of(alloc, last, union)?;
        taken.add(alloc, last.ranges())?;
        Ok(Left {
            kept,
            taken,
            last: Some(last),
        })
    }

    /// Returns the remaining characters as a set.
    fn set(self, alloc: Global) -> Result<Set, NoMemory>
        ensures { IfOk result (λ s. s ≡ left_set self) }
    {
        let kept = self.kept.set(alloc)?;
        if self.taken.is_empty() {
            return Ok(kept);
        }
        kept.without(alloc, &self.taken.set(alloc)?)
    }
}

/// The part of a compound before a union: the left operand and the operator after it.
#[derive(Drop)]
pub(crate) struct Before {
    operator: Operator,
    left: Left,
}

/// Joins a union with the part before it. For `&&`, removes from the left operand the characters
/// that are not in the union.
fn joined(alloc: Global, before: Option<Before>, union: Gathered) -> Result<Left, NoMemory>
    ensures { IfOk result (λ l. left_set l ≡ joined_by before (norm union)) }
{
    let Some(Before { operator, left }) = before else {
        return Ok(Left {
            kept: union,
            taken: Gathered::new(alloc),
            last: None,
        });
    };
    match operator {
        Operator::Without => left.less(alloc, union.ranges()),
        Operator::Both => left.within(alloc, union),
    }
}

/// A compound whose `]` has not been read yet.
#[derive(Drop)]
pub(crate) struct Open {
    /// Whether a `^` precedes the compound.
    negated: bool,
    before: Option<Before>,
    /// The ranges of the current union, which consists of the brackets since the last operator.
    union: Gathered,
}

impl Open {
    fn new(alloc: Global, negated: bool) -> Open
        ensures negated { result.negated ≡ negated }
        ensures before { result.before ≡ None }
        ensures union { result.union ≡ [] }
    {
        Open {
            negated,
            before: None,
            union: Gathered::new(alloc),
        }
    }

    /// Adds the set of a bracket to the current union.
    fn add(self, alloc: Global, set: &Set) -> Result<Open, NoMemory>
        ensures negated { IfOk result (λ o. o.negated ≡ self.negated) }
        ensures before { IfOk result (λ o. o.before ≡ self.before) }
        ensures union { IfOk result (λ o. norm o.union ≡ norm (self.union ++ set.now)) }
    {
        let Open {
            negated,
            before,
            mut union,
        } = self;
        union.add(alloc, set.ranges())?;
        Ok(Open {
            negated,
            before,
            union,
        })
    }
}

/// What follows a member of a compound.
pub(crate) enum Step {
    /// Another member, which starts at this place.
    Member(Open, usize),
    /// The end of the compound: its set, and the place after its `]`.
    Closed(Set, usize),
}

/// Returns what follows a member of the compound, given the member's set and the place where it
/// ends.
fn step_from(
    alloc: Global,
    text: &str,
    compound: Open,
    set: Set,
    at: usize,
) -> Result<Step, SetFault>
    requires { IsPlace (chars text.now) at }
    ensures { let t = chars text.now in Steps t at (framed compound (Ok (set, symbols_from t at)))
        result }
{
    let Open {
        negated,
        before,
        union,
    } = compound.add(alloc, &set)?;
    let here = skip_blanks(text, at);
    if accept(text, here, '[').is_some() {
        return Ok(Step::Member(
            Open {
                negated,
                before,
                union,
            },
            here,
        ));
    }
    let left = joined(alloc, before, union)?;
    if let Some(next) = accept(text, here, ']') {
        let set = left.set(alloc)?;
        return Ok(Step::Closed(signed_set(alloc, negated, set)?, next));
    }
    let Some((operator, next)) = operator_at(text, here) else {
        return Err(SetFault::BadSet { at: here });
    };
    let further = Open {
        negated,
        before: Some(Before { operator, left }),
        union: Gathered::new(alloc),
    };
    Ok(Step::Member(further, skip_blanks(text, next)))
}

/// What follows a bracket.
pub(crate) enum Next {
    /// Another bracket, which starts at this place.
    Bracket(usize),
    /// The end of the outermost compound, with its set.
    End(Set),
}

/// Returns what follows a bracket in the innermost open compound, given the bracket's set and end.
/// Closes the compounds that end after the bracket.
fn go_on(
    alloc: Global,
    text: &str,
    stack: &mut Vec<Open>,
    set: Set,
    end: usize,
) -> Result<Next, SetFault>
    requires { IsPlace (chars text.now) end }
    ensures { let t = chars text.now in let whole = resume stack.old.items
        (Ok (set, symbols_from t end)) in
        GoesBehind t end whole stack.new.items result }
{
    let mut set = set;
    let mut at = end;
    while let Some(last) = stack.pop() {
        match step_from(alloc, text, last, set, at)? {
            Step::Member(compound, next) => {
                stack.push(compound)?;
                return Ok(Next::Bracket(next));
            }
            Step::Closed(closed, next) => {
                set = closed;
                at = next;
            }
        }
    }
    Ok(Next::End(set))
}

/// Returns the set of the compound whose first member starts at `place`.
pub(crate) fn compound_set(
    alloc: Global,
    sets: &mut NamedSets,
    text: &str,
    place: usize,
) -> Result<Set, SetFault>
    requires { IsPlace (chars text.now) place }
    ensures { let t = chars text.now in GivesSet t (opened t place) result }
{
    let mut stack = Vec::new(alloc);
    stack.push(Open::new(alloc, false))?;
    let mut at = place;
    loop {
        match begin_at(alloc, sets, text, at)? {
            Begun::Compound(negated, first) => {
                stack.push(Open::new(alloc, negated))?;
                at = first;
            }
            Begun::Whole(set, end) => match go_on(alloc, text, &mut stack, set, end)? {
                Next::Bracket(next) => at = next,
                Next::End(set) => return Ok(set),
            },
        }
    }
}

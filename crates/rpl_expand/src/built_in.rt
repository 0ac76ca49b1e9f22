// The built-in rules, which no statement defines: the boundary and `halt`.
ghost use Rattle.std.specs.Prelude.{◌≡◌, ◌≢◌, IfOk, chars, codes};
ghost use Rattle.rpl_core.specs.Core as C;
ghost use Rattle.rpl_core.specs.Listed.{rules_of};
ghost use Rattle.rpl_core.specs.View.{core_of};
ghost use Rattle.rpl_forms.specs.Forms as F;
ghost use Rattle.rpl_forms.specs.Rows.{rows_of};
ghost use Rattle.rpl_expand.specs.Table as T;

use crate::NoMemory;
use rpl_classes::Set;
use rpl_core::{Peg, Pegs, Rule, Rules};
use rpl_forms::make::{append, choice, pair};
use rpl_text::Chars;
use std::alloc::Global;

/// Returns the pattern for an ASCII blank.
fn blank(alloc: Global) -> Result<Peg, NoMemory>
    ensures { IfOk result (λ p. core_of p ≡ T.blank) }
{
    let set = Set::from_ranges(alloc, &[(0x9, 0xd), (0x20, 0x20)])?;
    Ok(Peg::Set(set))
}

/// Returns the pattern for an ASCII letter or digit.
fn word(alloc: Global) -> Result<Peg, NoMemory>
    ensures { IfOk result (λ p. core_of p ≡ T.word) }
{
    let set = Set::from_ranges(alloc, &[(0x30, 0x39), (0x41, 0x5a), (0x61, 0x7a)])?;
    Ok(Peg::Set(set))
}

/// Returns the pattern for an ASCII punctuation mark.
fn mark(alloc: Global) -> Result<Peg, NoMemory>
    ensures { IfOk result (λ p. core_of p ≡ T.mark) }
{
    let set = Set::from_ranges(
        alloc,
        &[(0x21, 0x2f), (0x3a, 0x40), (0x5b, 0x60), (0x7b, 0x7e)],
    )?;
    Ok(Peg::Set(set))
}

/// Returns a look-behind that matches `body` against the previous character.
fn before(alloc: Global, body: Peg) -> Result<Peg, NoMemory>
    ensures { IfOk result (λ p. core_of p ≡ C.Behind 1 1 (core_of body)) }
{
    Ok(Peg::Behind {
        least: 1,
        most: 1,
        body: Box::new(alloc, body)?,
    })
}

/// Returns a positive lookahead.
fn ahead(alloc: Global, body: Peg) -> Result<Peg, NoMemory>
    ensures { IfOk result (λ p. core_of p ≡ C.And (core_of body)) }
{
    Ok(Peg::And(Box::new(alloc, body)?))
}

/// Returns a negative lookahead.
fn absent(alloc: Global, body: Peg) -> Result<Peg, NoMemory>
    ensures { IfOk result (λ p. core_of p ≡ C.Not (core_of body)) }
{
    Ok(Peg::Not(Box::new(alloc, body)?))
}

/// Returns the pattern for one or more blanks.
fn blanks(alloc: Global) -> Result<Peg, NoMemory>
    ensures { IfOk result (λ p. core_of p ≡ F.pair T.blank (C.Many T.blank)) }
{
    let more = Peg::Many(Box::new(alloc, blank(alloc)?)?);
    pair(alloc, blank(alloc)?, more)
}

/// Returns the pattern for the start of a word.
fn word_start(alloc: Global) -> Result<Peg, NoMemory>
    ensures { IfOk result (λ p. core_of p ≡ F.pair (C.And T.word) (C.Not (C.Behind 1 1 T.word))) }
{
    let follows = ahead(alloc, word(alloc)?)?;
    let stands = before(alloc, word(alloc)?)?;
    let none = absent(alloc, stands)?;
    pair(alloc, follows, none)
}

/// Returns the pattern for the end of a run of blanks.
fn blanks_end(alloc: Global) -> Result<Peg, NoMemory>
    ensures { IfOk result (λ p. core_of p ≡ F.pair (C.Behind 1 1 T.blank) (C.Not T.blank)) }
{
    let stands = before(alloc, blank(alloc)?)?;
    let none = absent(alloc, blank(alloc)?)?;
    pair(alloc, stands, none)
}

/// Returns the pattern for the boundary between two words.
fn boundary(alloc: Global) -> Result<Peg, NoMemory>
    ensures { IfOk result (λ p. core_of p ≡ T.boundary) }
{
    let mut parts = Pegs::new(alloc);
    append(&mut parts, blanks(alloc)?)?;
    append(&mut parts, word_start(alloc)?)?;
    append(&mut parts, ahead(alloc, mark(alloc)?)?)?;
    append(&mut parts, before(alloc, mark(alloc)?)?)?;
    append(&mut parts, blanks_end(alloc)?)?;
    append(&mut parts, Peg::End)?;
    append(&mut parts, Peg::Start)?;
    Ok(choice(parts))
}

/// Returns a table of the two built-in rules. `halt` is the full name of the rule `halt`.
pub(crate) fn built_in(alloc: Global, halt: &str) -> Result<Rules, NoMemory>
    requires { chars halt.now ≢ codes "~" }
    ensures { IfOk result (λ rs. rows_of (rules_of rs) ≡ T.built_in (chars halt.now)) }
{
    let edge = Rule {
        name: Chars::from_str(alloc, "~")?,
        block: None,
        body: boundary(alloc)?,
    };
    let stop = Rule {
        name: Chars::from_str(alloc, halt)?,
        block: None,
        body: Peg::Halt,
    };
    let mut rules = Rules::new(alloc);
    rules.push(edge)?;
    rules.push(stop)?;
    Ok(rules)
}

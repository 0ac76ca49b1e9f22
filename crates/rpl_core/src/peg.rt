// Patterns without names, which the definitions call cores.
ghost use Rattle.std.specs.Option.{option_copied};
ghost use Rattle.std.specs.Prelude.{◌≡◌, [], ◌∷◌, ◌++◌, length, slice_get, OnOk, OnErr, IfOk};
ghost use Rattle.rpl_core.specs.View.{core_of, cores, listed};

use crate::NoMemory;
use rpl_classes::Set;
use rpl_text::Chars;
use std::alloc::Global;

/// Patterns in order, such as the parts of a sequence or a choice.
///
/// # Examples
///
/// ```
/// use rpl_core::{Peg, Pegs};
/// let mut parts = Pegs::new(alloc);
/// parts.push(Peg::Start)?;
/// parts.push(Peg::Call(7))?;
/// assert!(rt; parts.len() == 2 && matches!(parts.get(1), Some(Peg::Call(7))));
/// ```
#[cycle(peg)]
#[derive(Drop)]
pub struct Pegs {
    items: Vec<Peg>,
}

/// A parsing expression without names, as defined by `specs/Core.antt`; `specs/Meaning.antt`
/// defines its meaning.
///
/// # Examples
///
/// ```
/// use rpl_classes::Set;
/// use rpl_core::{Peg, Pegs, greatest_length, has_call, least_length};
/// let mut parts = Pegs::new(alloc);
/// parts.push(Peg::Set(Set::range(alloc, '0', '9')?))?;
/// parts.push(Peg::End)?;
/// let one_or_none = Peg::Choice(parts);
/// assert!(rt; least_length(&one_or_none) == 0 && greatest_length(&one_or_none) == 1);
/// assert!(rt; !has_call(&one_or_none) && has_call(&Peg::Call(0)));
/// ```
#[cycle(peg)]
#[derive(Drop)]
pub enum Peg {
    /// One character of the set.
    Set(Set),
    /// All parts, one after the other.
    Seq(Pegs),
    /// The first part that succeeds, out of two or more parts.
    Choice(Pegs),
    /// The body repeated as long as it succeeds.
    Many(Box<Peg>),
    /// Succeeds if the body fails. Takes no characters.
    Not(Box<Peg>),
    /// Succeeds if the body succeeds. Takes no characters.
    And(Box<Peg>),
    /// Succeeds if the body, when started `least` to `most` characters before this place, ends
    /// exactly at this place.
    Behind {
        least: u32,
        most: u32,
        body: Box<Peg>,
    },
    /// The body of the rule with this number.
    Call(u32),
    /// The body, whose match becomes one tree of this type.
    Capture(Chars, Box<Peg>),
    /// A tree of type `message` with this text. Takes no characters.
    Note(Chars),
    /// Succeeds only at the first place.
    Start,
    /// Succeeds only at the last place.
    End,
    /// Ends the whole match here, with the trees so far.
    Halt,
}

impl Pegs {
    /// Returns an empty list of patterns. Allocates no memory.
    pub fn new(alloc: Global) -> Pegs
        ensures { listed result ≡ [] }
    {
        Pegs {
            items: Vec::new(alloc),
        }
    }

    /// Adds a pattern at the end. If memory runs out, nothing changes.
    pub fn push(&mut self, item: Peg) -> Result<(), NoMemory>
        ensures ok { OnOk result (listed self.new ≡ listed self.old ++ item ∷ []) }
        ensures err { OnErr result (listed self.new ≡ listed self.old) }
    {
        self.items.push(item)?;
        Ok(())
    }

    /// Returns the number of patterns.
    pub fn len(&self) -> usize
        ensures { result ≡ length (listed self.now) }
    {
        self.items.len()
    }

    /// Returns the pattern at `index`, counted from 0.
    pub fn get(&self, index: usize) -> Option<&Peg>
        ensures { option_copied result ≡ slice_get (listed self.now) index }
    {
        self.items.get(index)
    }

    /// Returns all patterns.
    pub fn as_slice(&self) -> &[Peg]
        ensures { result.now ≡ listed self.now }
    {
        &self.items
    }

    /// Returns a copy of the patterns, with the same cores.
    #[cycle(copy)]
    pub fn copy(&self, alloc: Global) -> Result<Pegs, NoMemory>
        ensures { IfOk result (λ ps. cores (listed ps) ≡ cores (listed self.now)) }
    {
        let mut copies = Pegs::new(alloc);
        for part in &self.items {
            copies.push(part.copy(alloc)?)?;
        }
        Ok(copies)
    }
}

/// Returns a boxed copy of the pattern.
#[cycle(copy)]
fn boxed(alloc: Global, body: &Peg) -> Result<Box<Peg>, NoMemory>
    ensures { IfOk result (λ b. core_of b.value ≡ core_of body.now) }
{
    let copy = body.copy(alloc)?;
    Ok(Box::new(alloc, copy)?)
}

impl Peg {
    /// Returns a copy of the pattern, with the same core.
    #[cycle(copy)]
    pub fn copy(&self, alloc: Global) -> Result<Peg, NoMemory>
        ensures { IfOk result (λ p. core_of p ≡ core_of self.now) }
    {
        match self {
            Peg::Set(set) => Ok(Peg::Set(set.copy(alloc)?)),
            Peg::Seq(parts) => Ok(Peg::Seq(parts.copy(alloc)?)),
            Peg::Choice(parts) => Ok(Peg::Choice(parts.copy(alloc)?)),
            Peg::Many(body) => Ok(Peg::Many(boxed(alloc, body)?)),
            Peg::Not(body) => Ok(Peg::Not(boxed(alloc, body)?)),
            Peg::And(body) => Ok(Peg::And(boxed(alloc, body)?)),
            Peg::Behind { least, most, body } => Ok(Peg::Behind {
                least: *least,
                most: *most,
                body: boxed(alloc, body)?,
            }),
            Peg::Call(rule) => Ok(Peg::Call(*rule)),
            Peg::Capture(label, body) => {
                Ok(Peg::Capture(label.copy(alloc)?, boxed(alloc, body)?))
            }
            Peg::Note(text) => Ok(Peg::Note(text.copy(alloc)?)),
            Peg::Start => Ok(Peg::Start),
            Peg::End => Ok(Peg::End),
            Peg::Halt => Ok(Peg::Halt),
        }
    }
}

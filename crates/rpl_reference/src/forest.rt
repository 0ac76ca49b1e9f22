// Adjacent trees, as nested values.
ghost use Rattle.std.specs.Prelude.{◌≡◌, IfOk};
ghost use Rattle.rpl_core.specs.Forest as F;
ghost use Rattle.rpl_reference.specs.Outcomes.{forest_of};

use rpl_text::Chars;
use std::alloc::{AllocError, Global};

/// Adjacent trees. Places are character numbers, counted from 0.
#[derive(Drop)]
pub enum Forest {
    NoTree,
    /// A tree of the type `label`, the trees inside it, and the trees after it.
    Tree {
        label: Chars,
        start: usize,
        end: usize,
        subs: Box<Forest>,
        rest: Box<Forest>,
    },
    /// A note, and the trees after it.
    Noted {
        text: Chars,
        place: usize,
        rest: Box<Forest>,
    },
}

/// Returns a forest that consists of one tree.
pub fn tree(
    alloc: Global,
    label: &Chars,
    start: usize,
    end: usize,
    subs: Forest,
) -> Result<Forest, AllocError>
    ensures { IfOk result (λ f. forest_of f ≡ F.Tree label.now start end (forest_of subs)
        F.NoTree) }
{
    Ok(Forest::Tree {
        label: label.copy(alloc)?,
        start,
        end,
        subs: Box::new(alloc, subs)?,
        rest: Box::new(alloc, Forest::NoTree)?,
    })
}

/// Returns a forest that consists of one note.
pub fn noted(alloc: Global, text: &Chars, place: usize) -> Result<Forest, AllocError>
    ensures { IfOk result (λ f. forest_of f ≡ F.Noted text.now place F.NoTree) }
{
    Ok(Forest::Noted {
        text: text.copy(alloc)?,
        place,
        rest: Box::new(alloc, Forest::NoTree)?,
    })
}

/// Returns the trees of `first`, followed by the trees of `second`.
pub fn joined(alloc: Global, first: Forest, second: Forest) -> Result<Forest, AllocError>
    ensures { IfOk result (λ f. forest_of f ≡ F.joined (forest_of first) (forest_of second)) }
{
    match first {
        Forest::NoTree => Ok(second),
        Forest::Tree {
            label,
            start,
            end,
            subs,
            rest,
        } => {
            let rest = joined(alloc, Box::into_inner(rest), second)?;
            let rest = Box::new(alloc, rest)?;
            Ok(Forest::Tree {
                label,
                start,
                end,
                subs,
                rest,
            })
        }
        Forest::Noted { text, place, rest } => {
            let rest = joined(alloc, Box::into_inner(rest), second)?;
            let rest = Box::new(alloc, rest)?;
            Ok(Forest::Noted { text, place, rest })
        }
    }
}

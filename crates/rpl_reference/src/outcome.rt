// Outcomes, and the functions that combine them.
ghost use Rattle.std.specs.Prelude.{◌≡◌, ◌+◌, ◌-◌, ◌^◌, min, IfOk};
ghost use Rattle.rpl_core.specs.Meaning as M;
ghost use Rattle.rpl_core.specs.Forest.{NoTree};
ghost use Rattle.rpl_reference.specs.Outcomes.{forest_of, outcome_of, capped};

use crate::forest::{Forest, joined, tree};
use rpl_text::Chars;
use std::alloc::{AllocError, Global};

/// An outcome with its work. `At` and `HaltAt` hold the trees and the place after the match; `Open`
/// means that the depth did not suffice.
#[derive(Drop)]
pub enum Outcome {
    Open,
    Fail {
        work: u64,
    },
    At {
        work: u64,
        place: usize,
        trees: Forest,
    },
    HaltAt {
        work: u64,
        place: usize,
        trees: Forest,
    },
}

/// Returns the sum of two amounts of work, capped at `u64::MAX`.
pub fn plus(a: u64, b: u64) -> u64
    ensures { result ≡ min (a + b) (2 ^ 64 - 1) }
{
    a.saturating_add(b)
}

/// Returns the outcome `o` with `work` added to its work.
pub fn more(work: u64, o: Outcome) -> Outcome
    ensures { outcome_of result ≡ capped (M.more work (outcome_of o)) }
{
    match o {
        Outcome::Open => Outcome::Open,
        Outcome::Fail { work: w } => Outcome::Fail {
            work: plus(work, w),
        },
        Outcome::At {
            work: w,
            place,
            trees,
        } => Outcome::At {
            work: plus(work, w),
            place,
            trees,
        },
        Outcome::HaltAt {
            work: w,
            place,
            trees,
        } => Outcome::HaltAt {
            work: plus(work, w),
            place,
            trees,
        },
    }
}

/// Returns the outcome `o` with `work` added to its work, and with the trees in `before` placed
/// before its own trees.
pub fn prefixed(alloc: Global, work: u64, before: Forest, o: Outcome) -> Result<Outcome, AllocError>
    ensures { IfOk result (λ r. outcome_of r
        ≡ capped (M.prefixed work (forest_of before) (outcome_of o))) }
{
    match o {
        Outcome::Open => Ok(Outcome::Open),
        Outcome::Fail { work: w } => Ok(Outcome::Fail {
            work: plus(work, w),
        }),
        Outcome::At {
            work: w,
            place,
            trees,
        } => Ok(Outcome::At {
            work: plus(work, w),
            place,
            trees: joined(alloc, before, trees)?,
        }),
        Outcome::HaltAt {
            work: w,
            place,
            trees,
        } => Ok(Outcome::HaltAt {
            work: plus(work, w),
            place,
            trees: joined(alloc, before, trees)?,
        }),
    }
}

/// Returns a match with the work of a single core. The match ends at `place` and has no trees.
pub fn found(place: usize) -> Outcome
    ensures { outcome_of result ≡ M.At 1 place NoTree }
{
    Outcome::At {
        work: 1,
        place,
        trees: Forest::NoTree,
    }
}

/// Returns a match that takes no characters, and whose work is one more than `work`.
pub fn stays(work: u64, place: usize) -> Outcome
    ensures { outcome_of result ≡ capped (M.At (1 + work) place NoTree) }
{
    Outcome::At {
        work: plus(1, work),
        place,
        trees: Forest::NoTree,
    }
}

/// Returns a match at `place` if `holds` is true, and a failure otherwise.
pub fn only_if(holds: bool, place: usize) -> Outcome
    ensures { outcome_of result ≡ M.only_if holds place }
{
    if holds {
        found(place)
    } else {
        Outcome::Fail { work: 1 }
    }
}

/// Returns the outcome of a `Not` at `place`, given `o`, the outcome of its body.
pub fn if_fails(o: Outcome, place: usize) -> Outcome
    ensures { outcome_of result ≡ capped (M.if_fails (outcome_of o) place) }
{
    match o {
        Outcome::Open => Outcome::Open,
        Outcome::Fail { work } => stays(work, place),
        Outcome::At { work, .. } | Outcome::HaltAt { work, .. } => Outcome::Fail {
            work: plus(1, work),
        },
    }
}

/// Returns the outcome of an `And` at `place`, given `o`, the outcome of its body.
pub fn if_matches(o: Outcome, place: usize) -> Outcome
    ensures { outcome_of result ≡ capped (M.if_matches (outcome_of o) place) }
{
    match o {
        Outcome::Open => Outcome::Open,
        Outcome::At { work, .. } => stays(work, place),
        Outcome::Fail { work } | Outcome::HaltAt { work, .. } => Outcome::Fail {
            work: plus(1, work),
        },
    }
}

/// Returns the outcome `o` with its trees inside one tree that starts at `place`.
pub fn under(alloc: Global, label: &Chars, place: usize, o: Outcome) -> Result<Outcome, AllocError>
    ensures { IfOk result (λ r. outcome_of r ≡ capped (M.under label.now place (outcome_of o))) }
{
    match o {
        Outcome::Open => Ok(Outcome::Open),
        Outcome::Fail { work } => Ok(Outcome::Fail {
            work: plus(1, work),
        }),
        Outcome::At {
            work,
            place: end,
            trees,
        } => Ok(Outcome::At {
            work: plus(1, work),
            place: end,
            trees: tree(alloc, label, place, end, trees)?,
        }),
        Outcome::HaltAt {
            work,
            place: end,
            trees,
        } => Ok(Outcome::HaltAt {
            work: plus(1, work),
            place: end,
            trees: tree(alloc, label, place, end, trees)?,
        }),
    }
}

/// Returns a match at `place` if the body ends exactly there, and otherwise `others`, which is the
/// outcome of the other lengths.
pub fn ends_here(o: Outcome, place: usize, others: Outcome) -> Outcome
    ensures { outcome_of result ≡ capped (M.ends_here (outcome_of o) place (outcome_of others)) }
{
    match o {
        Outcome::Open => Outcome::Open,
        Outcome::Fail { work } => more(plus(1, work), others),
        Outcome::At {
            work,
            place: end,
            ..
        } => {
            if end == place {
                stays(work, place)
            } else {
                more(plus(1, work), others)
            }
        }
        Outcome::HaltAt { work, .. } => more(plus(1, work), others),
    }
}

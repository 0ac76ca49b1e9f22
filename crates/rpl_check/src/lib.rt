//! Checks patterns before they run: every pattern that passes has a meaning on every line, and all
//! other patterns are refused.
//!
//! `check` checks a whole table of rules, and `check_pattern` checks a pattern over that table.
//! Each returns exactly the first fault in a stated order: a look-behind without a fixed bound,
//! left recursion, a repetition whose body may be empty, or a halt under a predicate. A clause in
//! the contract of `check_pattern` and the law `never_open_law` state that a pattern that passes
//! has an outcome on every text, so the compiler needs no further premise. `specs/Faults.antt`
//! and `specs/Blocks.antt` define the faults, over the static facts that `rpl_facts` defines.
#![tactic(auto)]

mod behinds;
mod checked;
mod fault;
mod groups;
mod inside;
mod laws;
mod ranks;
mod recursion;
mod roots;

pub use checked::{Checked, CheckedPeg, check, check_pattern};
pub use fault::{BehindCause, CheckFault};
pub use laws::never_open_law;
pub use rpl_core::NoMemory;
pub use rpl_facts::{facts_law, one_facts_law};

//! The macros, and the expression that each builds from its argument.
//!
//! The loader calls `check_use` to check each use of a macro. The expansion asks which macro a name
//! refers to, and how a change of case affects a set. `apply` implements the equation of each macro
//! (`specs/Macros.antt`). The only failure is running out of memory.
#![tactic(auto)]

mod casing;
mod fault;
mod kind;
mod laws;
mod recase;
mod uses;

pub use casing::Casing;
pub use fault::MacroFault;
pub use kind::Macro;
pub use laws::{ci_is_once, uci_keeps_others};
pub use rpl_text::NoMemory;
pub use uses::{apply, check_use};

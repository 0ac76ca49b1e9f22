//! Scopes: the bindings of names in RPL texts, statement by statement.
//!
//! `rpl_package` uses this crate, but reads the texts and finds the imports itself. A module
//! consists of rules, names and prefixes. `bound` in `specs/Packages.antt` defines what a name
//! refers to at any point; for names without a prefix, `specs/Laws.antt` states the same meaning in
//! terms of the statements alone. Statements and imports are added to a module in the order of the
//! module's text, or refused with the first fault and its byte offset (`specs/Statements.antt`,
//! `specs/Imports.antt`). This crate reads no files. Apart from faults in the text, the only
//! failure is running out of memory.
#![tactic(auto)]

mod bodies;
mod checks;
mod enter;
mod fault;
mod imports;
mod laws;
mod module;
mod named;
mod names;
mod scope;
mod statements;
mod texts;

pub use bodies::{Use, push_names, push_uses};
pub use checks::{check_macros, check_names, written};
pub use fault::{LoadFault, LoadKind, Place, Stop, fault_at};
pub use imports::{Loaded, add_prefix, last_part, put_prefix, take_in};
pub use laws::{last_parts_end, names_are_seen, rules_are_laid};
pub use module::{Entry, Module, ModuleText, Prefix, Referent, Rule};
pub use named::Named;
pub use names::{ModuleNames, SharedNames};
pub use rpl_text::NoMemory;
pub use scope::{Found, Scope, find, find_plain};
pub use statements::enter_items;
pub use texts::same;

//! Loads packages: RPL texts, with each import loaded once.
//!
//! The commands use this crate. `load` reads the roots and everything that they import, and makes
//! a `PackageSet` (see `rpl_names`); `load_pattern` reads a pattern and adds the packages that it
//! names. If loading fails, the error is the first fault in the order that `rpl_names` defines, with
//! the file and the byte offset of that fault. A read fault occurs only if opening or reading a
//! file failed. Every file is closed, whether loading succeeds or fails, and the time that loading
//! takes is linear in the number of bytes read.
#![tactic(auto)]

mod edge;
mod loading;
mod locate;
mod opening;
mod pattern;
mod reading;
mod rollback;
mod rooted;
mod stock;
mod taken;
mod walk;

pub use edge::{load, load_pattern};
pub use pattern::Goal;
pub use rpl_macro::MacroFault;
pub use rpl_names::{LibPath, Listed, NameFault, Names, PackageSet, Root, Roots, RuleHead, Target};
pub use rpl_scope::{LoadFault, LoadKind, NoMemory};

//! Sets of packages: the texts of a set, its rule table, and the bindings of the names in its
//! texts.
//!
//! `rpl_package` loads the texts and makes the sets; the expansion and the commands query them. A
//! `PackageSet` resolves any name in any rule, lists the names that a pattern may use, and holds
//! the rule table. This crate reads no files. Apart from names that refer to no rule, the only
//! failure is running out of memory.
//!
//! `specs/` defines which set the roots and the patterns make, and the first fault if there is one.
//! Regardless of what the files contain, every set carries a proof that the steps of loading built
//! the set from texts that were read (`specs/Built.antt`). The laws about all sets rely on that
//! proof.
#![tactic(auto)]

mod names;
mod offers;
mod owned;
mod resolve;
mod roots;
mod set;
mod stock;
mod table;
mod targets;

pub use names::{Listed, Names};
pub use roots::{LibPath, Root, Roots};
pub use set::PackageSet;
pub use stock::{Head, Stock};
pub use table::{Row, Table, table_of};
pub use targets::{NameFault, RuleHead, Target};

//! Determines the static facts of a table of rules that `rpl_check` needs: which rules may succeed
//! without taking a character, and which may end the whole match.
//!
//! `specs/Facts.antt` defines the facts of a table, each as the least set that the rules give.
//! [`work_out`] finds exactly the rules for which a fact holds. `specs/Groups.antt` defines the
//! groups of a table: its blocks, and its rules outside blocks. [`group_end`] returns the end of
//! the group that begins with a given rule. The laws state that every table whose rules call only
//! rules of the table has static facts, and that no table has two sets of them.
#![tactic(auto)]

mod facts;
mod gates;
mod group;
mod laws;
mod rounds;

pub use facts::{Fact, is_marked, may_be_empty, may_halt};
pub use group::{Group, group_end};
pub use laws::{facts_law, one_facts_law};
pub use rounds::work_out;
pub use rpl_core::NoMemory;

//! Expands expressions into cores: resolves names, applies macros, inserts boundaries between
//! items, writes out repetition counts, and inlines the bodies of the rules that look-behinds name.
//!
//! The commands use this crate once a set of packages is loaded: `expand` builds the rule table of
//! the set, `expand_pattern` builds the core of a pattern over that table, and `print_peg` prints a
//! core. The table and the core are exactly those that the definitions in `specs/Expansion.antt`,
//! `specs/Table.antt` and `specs/Sets.antt` specify. If a core is too large, the error names the
//! first such core. Apart from a core that is too large, the only possible error is running out of
//! memory. The nodes of each core are counted before the core is built, so no core that is too
//! large is ever built; the code ensures this, but no contract states it. Function calls nest as
//! deeply as the expression and the core; the depth of a core is at most 1,024.
//!
//! The crate also proves laws about every loaded set of packages (`specs/LoadLaws.antt`). The crates
//! that prepare a command use these laws: where the expansion or a check requires a property that
//! every set has, a law proves that property, so nothing is checked at run time. The laws do not
//! mention files, so they also hold for sets that are loaded from real files. A law is the contract
//! of a function that has no parameters and an empty body.
#![tactic(auto)]

mod base;
mod build;
mod built_in;
mod fault;
mod growing;
mod laws;
mod load_laws;
mod measure;
mod mode;
mod print;
mod scope;
mod statement;
mod table;

pub use fault::ExpandFault;
pub use laws::{
    exactly_turns, group_of_one, least_within_nodes, macro_is_equation, printing_keeps_cores,
    still_calls_nothing, uci_keeps_others,
};
pub use load_laws::{
    cores_have_parts, loaded_is_bound, macros_are_equations, names_are_distinct, names_resolve,
    no_name_has_a_space, no_name_twice, nothing_is_missing, own_names_are_rules, scopes_are_over,
    tables_are_in_order, told_is_built, trees_are_made, walks_are_whole, what_is_read_fits,
};
pub use print::{print_peg, push_peg};
pub use rpl_text::NoMemory;
pub use table::{expand, expand_pattern};

//! Match trees, built from the captures of a run, for code that prints an answer.
//!
//! Given the capture list of some trees, [`build`] returns exactly those trees, as a flat list of
//! nodes in which each node precedes the nodes below it. The list represents exactly the given
//! captures: labels and notes keep their numbers. A note has no nodes below it. [`Forest::fill`]
//! does the same as [`build`], but reuses the forest's memory from line to line.
#![tactic(auto)]

mod building;
mod forest;
mod laws;
mod node;

pub use forest::{Forest, build};
pub use laws::trees_by_first_node;
pub use node::Node;
pub use rpl_core::{Caught, NoMemory};

//! Builds table rows from trees. [`read_tree`] finds the nodes of a line that is a tree written
//! exactly as `rosie` writes it, and [`put_row`] writes either the cells of the columns, in one of
//! three formats, or all fields of the tree.
//!
//! The reader allocates only the list of nodes, which is reused from line to line. The reader
//! refuses every line that isn't a tree written exactly as `rosie` writes it.
#![tactic(auto)]

mod bytes;
mod cell;
mod column;
mod fields;
mod format;
mod laws;
mod node;
mod row;
mod spelling;
mod tree;

pub use bytes::Bytes;
pub use column::{Column, Columns, Part, spelled};
pub use format::Format;
pub use laws::{nodes_are_taken, texts_are_read_back, trees_are_read};
pub use node::{Node, Parts, Span};
pub use row::{Room, Sheet, Tree, occurs, put_header, put_row};
pub use std::alloc::AllocError as NoMemory;
pub use tree::read_tree;

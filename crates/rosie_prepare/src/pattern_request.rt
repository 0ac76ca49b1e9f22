// The request to prepare a pattern.
use rpl_package::{Goal, LibPath, Roots};

/// A command's request to prepare a pattern.
#[derive(Clone, Copy)]
pub struct PatternRequest<'a> {
    /// The RPL files and texts to load, in order.
    pub roots: &'a Roots,
    /// The folders that are searched for imports, in order.
    pub folders: &'a LibPath,
    /// The text of the pattern, and how to read it.
    pub goal: Goal<'a>,
}

// The inputs for writing the nodes of a line.
use crate::escapes::Escapes;
use crate::front::Fronts;

/// The inputs for writing the objects of a line's nodes: the line, the escaped forms of its
/// parts, and the fronts of the types.
#[derive(Clone, Copy)]
pub(crate) struct Source<'a> {
    pub(crate) line: &'a [u8],
    pub(crate) escapes: &'a Escapes,
    pub(crate) fronts: &'a Fronts,
}

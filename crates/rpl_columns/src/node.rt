// The places of a node's parts in the line.
ghost use Rattle.std.specs.Prelude.{◌≡◌, slice_range};

/// A part of a line: the bytes from `from` up to, but not including, `to`.
#[derive(Clone, Copy)]
pub struct Span {
    pub from: usize,
    pub to: usize,
}

/// The places of a node's parts in the line. The spans of the type and of the text don't include
/// the quotes.
#[derive(Clone, Copy)]
pub struct Parts {
    pub label: Span,
    pub start: Span,
    pub end: Span,
    pub text: Span,
}

/// A node of a tree.
#[derive(Clone, Copy)]
pub struct Node {
    pub parts: Parts,
    /// The number of nodes that enclose this node.
    pub depth: usize,
    /// Whether this node encloses no other node.
    pub is_leaf: bool,
}

impl Span {
    /// Returns the bytes of the line at this span. A place after the end of the line counts as the
    /// end of the line.
    #[inline(always)]
    pub(crate) fn of(self, line: &[u8]) -> &[u8]
        ensures { result.now ≡ slice_range line.now self.from self.to }
    {
        let to = self.to.min(line.len());
        let from = self.from.min(to);
        &line[from..to]
    }
}

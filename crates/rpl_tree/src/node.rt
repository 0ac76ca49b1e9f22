// A node, and how nodes are created.
ghost use Rattle.std.specs.Prelude.{◌≡◌};
ghost use Rattle.rpl_tree.specs.inside.Building.{noted, opened};

/// A node of a match tree.
///
/// # Examples
///
/// ```
/// use rpl_core::Caught;
/// use rpl_tree::build;
/// let caught = [
///     Caught::Begin { label: 0, place: 0 },
///     Caught::Note { text: 1, place: 2 },
///     Caught::Finish { place: 5 },
/// ];
/// let forest = build(alloc, &caught)?;
/// assert!(rt; matches!(forest.get(0), Some(root) if root.end == 5 && root.below == 1));
/// assert!(rt; matches!(forest.get(1), Some(note) if note.note == Some(1) && note.start == 2));
/// ```
#[derive(Clone, Copy, Debug, PartialEq, Eq)]
pub struct Node {
    /// The number of one of the program's texts: the note's text if the node is a note, and
    /// otherwise the node's type.
    pub label: u32,
    /// The number of the note's text if the node is a note, otherwise `None`.
    pub note: Option<u32>,
    /// The byte offset where the node starts, counted from 0.
    pub start: usize,
    /// The byte offset where the node ends.
    pub end: usize,
    /// The number of nodes below this one, which directly follow it in the list.
    pub below: usize,
}

impl Node {
    /// Returns a node for a tree that begins at `start`. The new node has no nodes below it yet.
    pub(crate) fn opened(label: u32, start: usize) -> Node
        ensures { result ≡ opened label start }
    {
        Node {
            label,
            note: None,
            start,
            end: start,
            below: 0,
        }
    }

    /// Returns a node for a note.
    pub(crate) fn noted(text: u32, place: usize) -> Node
        ensures { result ≡ noted text place }
    {
        Node {
            label: text,
            note: Some(text),
            start: place,
            end: place,
            below: 0,
        }
    }
}

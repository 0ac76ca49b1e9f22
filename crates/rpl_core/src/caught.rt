// The captures of a run.

/// One capture of a run. A run's captures are listed in the order in which the machine added them.
/// `specs/Forest.antt` defines which list represents which trees. Places are byte offsets from the
/// start of the line.
///
/// # Examples
///
/// ```
/// use rpl_core::Caught;
/// use rpl_tree::build;
/// let caught = [Caught::Begin { label: 3, place: 1 }, Caught::Finish { place: 4 }];
/// let forest = build(alloc, &caught)?;
/// assert!(rt; matches!(forest.get(0), Some(tree)
///     if tree.label == 3 && tree.start == 1 && tree.end == 4));
/// ```
#[derive(Clone, Copy, Debug, PartialEq, Eq)]
pub enum Caught {
    /// The start of a tree whose type is text number `label`.
    Begin { label: u32, place: usize },
    /// The end of the innermost open tree.
    Finish { place: usize },
    /// A note whose text is text number `text`.
    Note { text: u32, place: usize },
}

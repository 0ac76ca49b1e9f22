// How to undo a change.
use rpl_text::Chars;

/// How to undo a change of the state.
#[derive(Drop)]
pub(crate) enum Undoing {
    /// A text was added at the end.
    Added,
    /// The text at this index was replaced. The old text is kept here.
    Replaced(usize, Chars),
    /// The text at this index was removed, and is kept here.
    Removed(usize, Chars),
    /// A pattern was set. The previous pattern, if any, is kept here.
    Patterned(Option<Chars>),
}

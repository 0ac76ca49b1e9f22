// The styles of an answer.
ghost use Rattle.std.specs.Prelude.{◌↔◌, IsTrue};
ghost use Rattle.rpl_encode.specs.Answer.{IgnoresTrees};

/// The form in which an answer is printed.
///
/// # Examples
///
/// ```
/// use rpl_encode::Style;
/// assert!(rt; Style::Line.ignores_trees() && Style::Bool.ignores_trees());
/// assert!(rt; !Style::Json.ignores_trees() && !Style::Subs.ignores_trees());
/// ```
#[derive(Clone, Copy, Debug, PartialEq, Eq)]
pub enum Style {
    /// The tree of the match, as one JSON object.
    Json,
    /// The whole line.
    Line,
    /// The text of each hit of a search, or the text of the match if there are no hits.
    Matches,
    /// The text of each node directly below the root.
    Subs,
    /// The text of the match.
    Plain,
    /// `true` or `false`.
    Bool,
}

impl Style {
    /// Returns whether the text of a match is the same whatever the match's trees are. If so, the
    /// trees need not be built.
    pub fn ignores_trees(self) -> bool
        ensures { IsTrue result ↔ IgnoresTrees self }
    {
        match self {
            Style::Line | Style::Bool => true,
            Style::Json | Style::Matches | Style::Subs | Style::Plain => false,
        }
    }
}

// The events of an evaluation.
use rpl_core::Peg;

/// The kind of an evaluation.
#[derive(Clone, Copy)]
pub(crate) enum Kind<'a> {
    /// The evaluation of a pattern.
    Of(&'a Peg),
    /// The remaining alternatives of a choice.
    Choice,
    /// A successful turn of a repetition.
    Turn,
    /// One of the lengths of a look-behind, in characters.
    Length(usize),
}

/// The end of an evaluation. Places are byte offsets.
#[derive(Clone, Copy)]
pub(crate) enum End {
    Fails,
    At(usize),
    Halts(usize),
}

/// An event of a trace.
#[derive(Clone, Copy)]
pub(crate) enum Event<'a> {
    /// An evaluation begins at `start`.
    Begins { kind: Kind<'a>, start: usize },
    /// The innermost open evaluation ends.
    Ends(End),
    /// The innermost open evaluation is not a turn after all, because its body does not succeed.
    /// The evaluation is removed, and the evaluations inside it take its place.
    Vanishes,
}

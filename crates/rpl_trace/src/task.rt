// The remaining tasks of a trace.
use rpl_core::Peg;

/// A task, which is given the end of the previous evaluation when the task runs. Places are byte
/// offsets, and lengths are numbers of characters.
#[derive(Clone, Copy)]
pub(crate) enum Task<'a> {
    /// Evaluate the pattern at the place where the previous match ended.
    Evaluate(&'a Peg),
    /// Evaluate the parts one after the other, starting where the previous match ended.
    Parts(&'a [Peg]),
    /// Try the remaining alternatives of a choice, if the previous alternative failed.
    Ways { parts: &'a [Peg], place: usize },
    /// Evaluate further turns of the body, after the turn that began at `place`.
    Turns { body: &'a Peg, place: usize },
    /// End a `Not`, given the end of its body.
    Not(usize),
    /// End an `And`, given the end of its body.
    And(usize),
    /// End the evaluation that tries one length of a look-behind, given the end of the
    /// look-behind's body. The length matches if the body ends exactly at the place of the
    /// look-behind.
    Meets(usize),
    /// Try the remaining lengths of a look-behind, if the previous length failed.
    Lengths(Lengths<'a>),
    /// End the innermost open evaluation with the end of the previous evaluation.
    Close,
}

/// Lengths of a look-behind at a place, in characters: `count` lengths, beginning with `length`.
#[derive(Clone, Copy)]
pub(crate) struct Lengths<'a> {
    pub(crate) body: &'a Peg,
    pub(crate) length: usize,
    pub(crate) count: usize,
    pub(crate) place: usize,
}

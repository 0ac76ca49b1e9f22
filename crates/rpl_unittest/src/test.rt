// A unit test.
use rpl_list::List;
use rpl_text::Chars;

/// What a test claims about its text.
#[derive(Clone, Copy, Debug, PartialEq, Eq)]
pub enum Verb {
    /// The text is matched to its end.
    Accepts,
    /// The text is not matched to its end.
    Rejects,
    /// The text is matched, with a node of the part's type below the root.
    Includes,
    /// The text is matched, without a node of the part's type below the root.
    Excludes,
}

/// A test of one text.
#[derive(Debug, Drop)]
pub struct Test {
    /// The line of the test's comment, counted from 1.
    pub line: u64,
    /// The name of the pattern that is tested.
    pub name: Chars,
    /// What the test claims about the text.
    pub verb: Verb,
    /// The part that follows `includes` or `excludes`. For the other verbs, `None`.
    pub part: Option<Chars>,
    /// The text that the pattern is matched against.
    pub text: Chars,
}

/// The tests of a file, in the order in which their texts occur in the file.
pub type Tests = List<Test>;

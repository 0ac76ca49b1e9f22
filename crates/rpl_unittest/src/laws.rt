// Laws about the tests of any file, and about any tree.
ghost use Rattle.rpl_unittest.specs.Laws.{OneAnswerLaw, BuiltAsOneTree};

/// Proves that each text has either exactly one list of tests or exactly one first malformed line,
/// and never both.
pub fn one_answer()
    ensures { OneAnswerLaw }
{}

/// Proves that, for the captures of one tree, `build` returns nodes that form one tree, as `judge`
/// requires.
pub fn built_as_one_tree()
    ensures { BuiltAsOneTree }
{}

// The laws of the printed texts.
ghost use Rattle.rosie_inspect.specs.Laws.{LinesFollowNames, OneExpansion, OneNamesText};

/// Proves that a list of names has at most one text.
pub fn one_names_text()
    ensures { OneNamesText }
{}

/// Proves that the lines of two different names are in the order of the names, if neither name
/// contains a space or a byte that sorts before the space.
pub fn lines_follow_names()
    ensures { LinesFollowNames }
{}

/// Proves that the expansion of a pattern with a given core over given rules has at most one text.
pub fn one_expansion()
    ensures { OneExpansion }
{}

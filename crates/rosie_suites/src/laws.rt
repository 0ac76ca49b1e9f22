// The laws of all test files.
ghost use Rattle.rosie_suites.specs.Laws.{OneSuite, TextsLaw};

/// Proves that, for every tree of files, loading a test file has at most one result.
pub fn one_suite()
    ensures { OneSuite }
{}

/// Proves that if a file is valid UTF-8, so is the text of each of its tests.
pub fn texts_law()
    ensures { TextsLaw }
{}

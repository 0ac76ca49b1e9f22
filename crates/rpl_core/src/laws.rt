// Laws that hold for the definitions alone.
ghost use Rattle.rpl_core.specs.Laws.{CodeLaw, DepthLaw, FlatLaw, HasCodeLaw, RunLaw};

/// If an evaluation has an outcome that isn't open at some depth, it has the same outcome, with the
/// same work, at every greater depth.
pub fn depth_law()
    ensures { DepthLaw }
{}

/// If a run ends within some bound on its steps, it ends in the same way under every bound that is
/// at least the number of steps it takes. The run doesn't end under any smaller bound.
pub fn run_law()
    ensures { RunLaw }
{}

/// A capture list represents at most one list of trees.
pub fn flat_law()
    ensures { FlatLaw }
{}

/// Over a given table of rules, the code of a goal is unique.
pub fn code_law()
    ensures { CodeLaw }
{}

/// Over any table of rules, every goal has code, so statements about its code are never vacuous.
pub fn has_code_law()
    ensures { HasCodeLaw }
{}

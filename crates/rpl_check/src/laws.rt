// A law about tables and patterns without faults.
ghost use Rattle.rpl_check.specs.Checked.{NeverOpenLaw};

/// A pattern that passes `check_pattern`, over a table that passes `check`, has a meaning on every
/// text: at the depth that is defined for the text and the table, its outcome isn't open.
pub fn never_open_law()
    ensures { NeverOpenLaw }
{}

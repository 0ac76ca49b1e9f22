// Laws that hold for safe code, by the definitions alone.
ghost use Rattle.rpl_safe.specs.Laws.{CodeIsSafeLaw, SafeMatchLaw, SafeRunLaw};

/// No run of safe code, on any text, reaches an address without an instruction, or an instruction
/// that lacks the stack entry that it pops. If a run of safe code ends with a match, its captures
/// are those of exactly one tree.
pub fn safe_run_law()
    ensures { SafeRunLaw }
{}

/// Each match that a run of safe code returns is one tree.
pub fn safe_match_law()
    ensures { SafeMatchLaw }
{}

/// If a goal is a capture, or a call of a rule whose body is a capture, the code of the goal is
/// safe, provided that the goal and all rules call only rules of the table.
pub fn code_is_safe_law()
    ensures { CodeIsSafeLaw }
{}

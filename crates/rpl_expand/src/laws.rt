// Laws that hold for every core.
ghost use Rattle.std.specs.Prelude.{◌≤◌};
ghost use Rattle.rpl_core.specs.Core.{Core};
ghost use Rattle.rpl_core.specs.Lengths.{least};
ghost use Rattle.rpl_expand.specs.Laws.{BracesKeepCores, ExactlyTurns, FoldsOnce, GroupOfOne};
ghost use Rattle.rpl_expand.specs.Laws.{HasParts, MacroIsEquation};
ghost use Rattle.rpl_expand.specs.Laws.{PrintingKeepsCores, PrintingKeepsPatterns};
ghost use Rattle.rpl_expand.specs.Laws.{StillCallsNothing, UciKeepsOthers};
ghost use Rattle.rpl_forms.specs.Sizes.{nodes};

/// The core of `{e}` is the core of `e`.
pub fn group_of_one()
    ensures { GroupOfOne }
{}

/// The braces that printing adds do not change the core of an expression, regardless of the casing
/// in which the expression is expanded. The core does not depend on the byte offsets of names,
/// provided that the byte offset of a name never affects what the name refers to. So the expression
/// that is read from a printed text has the same core as the expression that was printed. If an
/// expression over a set of packages can be written as text and its printed text does not have too
/// many tokens, that text is read as a pattern with the same core as the expression.
pub fn printing_keeps_cores()
    ensures braces { BracesKeepCores }
    ensures read { PrintingKeepsCores }
    ensures pattern { PrintingKeepsPatterns }
{}

/// The core of `e{n}` is a sequence of exactly n copies of the core of `e`, unless `e` is a `( )`
/// group.
pub fn exactly_turns()
    ensures { ExactlyTurns }
{}

/// The core of an expression calls no rule if the expression contains no names, no `~`, no `error`,
/// no adjacent items outside `{ }`, and no repeated `( )` groups.
pub fn still_calls_nothing()
    ensures { StillCallsNothing }
{}

/// Folding a set twice gives the same set as folding it once, and if a folded set contains an ASCII
/// letter, it contains both cases of that letter. It follows that the core of a macro is the core
/// of the expression that the macro's equation specifies, provided that the name that `error` uses
/// refers to the built-in `halt`. In every loaded set, the name that `error` uses refers to the
/// built-in `halt`.
pub fn macro_is_equation()
    ensures folding { FoldsOnce }
    ensures equation { MacroIsEquation }
{}

/// If each character of a text folds only to itself, the core of `uci` applied to that text is the
/// core of the text.
pub fn uci_keeps_others()
    ensures { UciKeepsOthers }
{}

/// If every choice in a core has a part, the core requires no more characters than it has nodes. In
/// a loaded set of packages every choice has a part (`cores_have_parts`). So the least length that a
/// look-behind states, which is capped at 65,536, is exactly the least length of its body.
pub fn least_within_nodes()
    ensures { (p : Core) → HasParts p → least p ≤ nodes p }
{}

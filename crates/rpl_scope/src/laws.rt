// Laws of scopes and paths.
ghost use Rattle.rpl_scope.specs.Laws.{ImportersSee, LastPartsEnd, PatternsSee, RulesAreLaid};
ghost use Rattle.rpl_scope.specs.Laws.{StatementsSee};

/// A statement sees the name of a rule in its own text in two cases only: if the statement is a
/// block that contains the rule, or if the rule is in an earlier statement and not before the `in`
/// of a block. A rule before the `in` of an earlier block is hidden. A pattern sees the names that
/// a statement added after the last one would see. Importers of the module see the names that a
/// pattern sees, except that local names are hidden from them. The law does not mention the numbers
/// that `find_plain` compares.
pub fn names_are_seen()
    ensures statements { StatementsSee }
    ensures patterns { PatternsSee }
    ensures importers { ImportersSee }
{}

/// The rules of a text are in the order of its statements, and the start of each rule is the number
/// of rules that the module has before that rule's statement.
pub fn rules_are_laid()
    ensures { RulesAreLaid }
{}

/// The last part of a path is exactly the text after its last `/`, or the whole path if it has no
/// `/`.
pub fn last_parts_end()
    ensures { LastPartsEnd }
{}

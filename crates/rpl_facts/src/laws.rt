// Laws about the static facts alone.
ghost use Rattle.rpl_facts.specs.Laws.{FactsLaw, OneFactsLaw};

/// Every table whose rules call only rules of the table has static facts, so no contract that
/// speaks of the facts of such a table is vacuous.
pub fn facts_law()
    ensures { FactsLaw }
{}

/// A table has at most one set of static facts.
pub fn one_facts_law()
    ensures { OneFactsLaw }
{}

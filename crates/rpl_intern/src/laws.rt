// Laws about the tables of sets and texts of any code.
ghost use Rattle.std.specs.Prelude.{ℕ, List};
ghost use Rattle.regex_class.specs.Ranges.{Range};
ghost use Rattle.rpl_intern.specs.Laws.{OneTable, TablesAreOfUses};

/// The table for a list of uses contains exactly the sets or texts that are used, each of them
/// once, in the order of their first use. A list of uses has at most one such table.
pub fn table_law()
    ensures sets { TablesAreOfUses (List Range) }
    ensures one_of_sets { OneTable (List Range) }
    ensures texts { TablesAreOfUses (List ℕ) }
    ensures one_of_texts { OneTable (List ℕ) }
{}

// Laws that follow from the definitions alone.
ghost use Rattle.rpl_columns.specs.Laws.{AreReadBack};
ghost use Rattle.rpl_columns.specs.Taken.{TakesNodes};
ghost use Rattle.rpl_columns.specs.Trees.{ReadsTrees};

/// Proves that any text, escaped as `rosie` escapes it, is read back unchanged.
pub fn texts_are_read_back()
    ensures { AreReadBack }
{}

/// Proves that nodes are found exactly in those lines that are trees as `rosie` writes them, and
/// that the nodes found in a line are the nodes of its tree.
pub fn trees_are_read()
    ensures { ReadsTrees }
{}

/// Proves that a column takes from the line of a tree exactly the nodes that the definition over
/// the tree itself assigns to the column.
pub fn nodes_are_taken()
    ensures { TakesNodes }
{}

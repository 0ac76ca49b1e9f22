// Laws that hold for flat lists of nodes.
ghost use Rattle.rpl_tree.specs.Laws.{AreTreesByFirstNode};

/// An empty list of nodes represents no trees. In any other list of nodes, the first node is the
/// root of the first tree, the next `below` nodes represent the trees below it, and the remaining
/// nodes represent the trees after it.
pub fn trees_by_first_node()
    ensures { AreTreesByFirstNode }
{}

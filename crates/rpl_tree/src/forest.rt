// The trees built from captures, as a flat list of nodes.
ghost use Rattle.std.specs.Prelude.{◌≡◌, [], length, slice_get, IfOk, OnErr, OnOk};
ghost use Rattle.rpl_tree.specs.Trees.{BuildsEach};

use crate::building::Building;
use crate::node::Node;
use rpl_core::{Caught, NoMemory};
use std::alloc::Global;
use std::marker::Model;

/// Match trees as a flat list of nodes. Each node precedes the nodes below it.
///
/// # Examples
///
/// ```
/// use rpl_core::Caught;
/// use rpl_tree::Forest;
/// let mut forest = Forest::new(alloc);
/// forest.fill(&[Caught::Begin { label: 4, place: 0 }, Caught::Finish { place: 2 }])?;
/// assert!(rt; forest.len() == 1 && matches!(forest.get(0), Some(node) if node.label == 4));
/// forest.fill(&[])?;
/// assert!(rt; forest.len() == 0);
/// ```
#[derive(Drop)]
pub struct Forest {
    building: Building,
}

impl Model for Forest {
    ghost use Rattle.std.specs.Prelude.{List};
    ghost use Rattle.rpl_tree.specs.declared.node.Node.{Node};

    ghost Value = { List Node };

    ghost view = { λ f. f.building.nodes.items };
}

impl Forest {
    /// Returns an empty forest. Allocates no memory.
    pub fn new(alloc: Global) -> Forest
        ensures { result ≡ [] }
    {
        Forest {
            building: Building::new(alloc),
        }
    }

    /// Returns the number of nodes.
    pub fn len(&self) -> usize
        ensures { result ≡ length self.now }
    {
        self.building.nodes.len()
    }

    /// Returns the node at `index`, counted from 0, or `None` if there is no such node.
    pub fn get(&self, index: usize) -> Option<Node>
        ensures { result ≡ slice_get self.now index }
    {
        self.building.nodes.get(index).copied()
    }

    /// Replaces the trees in the forest with those that the captures in `caught` represent. Reuses
    /// the memory that the forest already holds, if there is enough of it. If memory runs out, the
    /// forest is empty afterwards, and the old trees are gone.
    pub fn fill(&mut self, caught: &[Caught]) -> Result<(), NoMemory>
        ensures built { OnOk result (BuildsEach caught.now self.new) }
        ensures err { OnErr result (self.new ≡ []) }
    {
        match self.building.fill(caught) {
            Ok(()) => Ok(()),
            Err(fault) => {
                self.building.nodes.clear();
                Err(fault)
            }
        }
    }
}

/// Builds the trees that the captures in `caught` represent.
///
/// # Examples
///
/// ```
/// use rpl_core::Caught;
/// use rpl_tree::build;
/// let caught = [
///     Caught::Begin { label: 0, place: 0 },
///     Caught::Note { text: 1, place: 2 },
///     Caught::Finish { place: 5 },
/// ];
/// let forest = build(alloc, &caught)?;
/// assert!(rt; forest.len() == 2 && matches!(forest.get(1), Some(note) if note.start == 2));
/// ```
pub fn build(alloc: Global, caught: &[Caught]) -> Result<Forest, NoMemory>
    ensures { IfOk result (BuildsEach caught.now) }
{
    let mut forest = Forest::new(alloc);
    forest.fill(caught)?;
    Ok(forest)
}

// The nodes built so far, and which of them are open.
ghost use Rattle.std.specs.Prelude.{◌≡◌, [], OnOk, slice_get};
ghost use Rattle.rpl_tree.specs.Trees.{BuildsEach};
ghost use Rattle.rpl_tree.specs.inside.Building.{close_node};

use crate::node::Node;
use rpl_core::{Caught, NoMemory};
use std::alloc::Global;

/// The nodes built so far, and which of them are open.
#[derive(Drop)]
pub struct Building {
    pub nodes: Vec<Node>,
    /// The indices in `nodes` of the open nodes, the innermost last.
    pub open: Vec<usize>,
}

impl Building {
    ghost use Rattle.rpl_tree.specs.inside.Built.{built};
    ghost use Rattle.rpl_tree.specs.inside.Building.{taken_in};

    pub fn new(alloc: Global) -> Building
        ensures { result.nodes.items ≡ [] }
    {
        Building {
            nodes: Vec::new(alloc),
            open: Vec::new(alloc),
        }
    }

    fn begin(&mut self, label: u32, place: usize) -> Result<(), NoMemory>
        ensures { OnOk result (built self.new
            ≡ taken_in (built self.old) (Caught.Begin label place)) }
    {
        self.open.push(self.nodes.len())?;
        self.nodes.push(Node::opened(label, place))?;
        Ok(())
    }

    fn note(&mut self, text: u32, place: usize) -> Result<(), NoMemory>
        ensures { OnOk result (built self.new
            ≡ taken_in (built self.old) (Caught.Note text place)) }
    {
        self.nodes.push(Node::noted(text, place))?;
        Ok(())
    }

    fn finish(&mut self, place: usize)
        ensures { built self.new ≡ taken_in (built self.old) (Caught.Finish place) }
    {
        if let Some(at) = self.open.pop() {
            close(&mut self.nodes, at, place);
        }
    }

    fn take_in(&mut self, caught: Caught) -> Result<(), NoMemory>
        ensures { OnOk result (built self.new ≡ taken_in (built self.old) caught) }
    {
        match caught {
            Caught::Begin { label, place } => self.begin(label, place),
            Caught::Finish { place } => {
                self.finish(place);
                Ok(())
            }
            Caught::Note { text, place } => self.note(text, place),
        }
    }

    pub fn fill(&mut self, caught: &[Caught]) -> Result<(), NoMemory>
        ensures { OnOk result (BuildsEach caught.now self.new.nodes.items) }
    {
        self.nodes.clear();
        self.open.clear();
        for c in caught {
            self.take_in(*c)?;
        }
        Ok(())
    }
}

/// Ends the node at the index `at` at the place `place`, and stores the number of nodes below it.
/// These are all the nodes that were added after it.
fn close(nodes: &mut [Node], at: usize, place: usize)
    ensures { nodes.new ≡ close_node at place (slice_get nodes.old at) nodes.old }
{
    if at < nodes.len() {
        let below = nodes.len() - at - 1;
        let node = &mut nodes[at];
        node.end = place;
        node.below = below;
    }
}

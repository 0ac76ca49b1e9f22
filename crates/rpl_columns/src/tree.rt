// The nodes of a line that is a tree.
ghost use Rattle.std.specs.Prelude.{◌≡◌, ◌+◌, ◌≤◌, ◌<◌, length, drop, map, option_map};
ghost use Rattle.std.specs.Prelude.{IfSome, IfOk};
ghost use Rattle.rpl_columns.specs.Nodes.{closed, if_found, next_in, node_in, parts_seen};
ghost use Rattle.rpl_columns.specs.Nodes.{reached_seen, seen, step_in, step_seen, tree_in};

use crate::NoMemory;
use crate::node::{Node, Parts};
use crate::spelling::{after, after_number, after_string};

/// Parses a node up to the end of its text. Returns the node's parts, and the place after its text.
#[inline(always)]
#[tactic(auto, unfolding(crate::specs::Nodes::node_in))]
fn read_parts(line: &[u8], at: usize) -> Option<(Parts, usize)>
    requires { at ≤ length line.now }
    ensures rest { option_map (parts_seen line.now) result ≡ node_in (drop at line.now) }
    ensures within { IfSome result (λ r. (at < r.1) × (r.1 ≤ length line.now)) }
{
    let at = after(line, at, b"{\"type\":\"")?;
    let (label, at) = after_string(line, at, b"\",\"s\":")?;
    let (start, at) = after_number(line, at, b",\"e\":")?;
    let (end, at) = after_number(line, at, b",\"data\":\"")?;
    let (text, at) = after_string(line, at, b"\"")?;
    let parts = Parts {
        label,
        start,
        end,
        text,
    };
    Some((parts, at))
}

/// The place up to which a tree has been read, and the number of lists that are open there.
#[derive(Clone, Copy)]
struct Reached {
    at: usize,
    /// The number of lists of nodes that are open at this place.
    depth: usize,
}

/// Skips the ends of lists and of the nodes that contain them.
#[inline(always)]
#[tactic(auto, unfolding(crate::specs::Nodes::closed))]
fn close_lists(line: &[u8], reached: Reached) -> Reached
    requires { reached.at ≤ length line.now }
    ensures rest { reached_seen line.now result ≡ closed reached.depth (drop reached.at line.now) }
    ensures within { (reached.at ≤ result.at) × (result.at ≤ length line.now) }
    ensures depth { result.depth ≤ reached.depth }
{
    let mut at = reached.at;
    let mut depth = reached.depth;
    while depth > 0 {
        match after(line, at, b"]}") {
            Some(next) => {
                at = next;
                depth -= 1;
            }
            None => return Reached { at, depth },
        }
    }
    Reached { at, depth }
}

/// Advances from the end of a node without children to the next node or to the end of the tree.
#[inline(always)]
#[tactic(auto, unfolding(crate::specs::Nodes::next_in))]
fn next_node(line: &[u8], reached: Reached) -> Option<Reached>
    requires { reached.at ≤ length line.now }
    ensures rest { option_map (reached_seen line.now) result
        ≡ next_in reached.depth (drop reached.at line.now) }
    ensures within { IfSome result (λ r. (reached.at < r.at) × (r.at ≤ length line.now)) }
    ensures depth { IfSome result (λ r. r.depth ≤ reached.depth) }
{
    let at = after(line, reached.at, b"}")?;
    let depth = reached.depth;
    let closed = close_lists(line, Reached { at, depth });
    if closed.depth == 0 {
        return Some(closed);
    }
    let at = after(line, closed.at, b",")?;
    let depth = closed.depth;
    Some(Reached { at, depth })
}

/// Parses a node. Returns the node, and the state before the next node. If no list is open in that
/// state, the tree ends there.
#[inline(always)]
#[tactic(auto, unfolding(crate::specs::Nodes::step_in))]
fn read_step(line: &[u8], reached: Reached) -> Option<(Node, Reached)>
    requires { (reached.at ≤ length line.now) × (reached.depth ≤ reached.at) }
    ensures rest { option_map (step_seen line.now) result
        ≡ step_in reached.depth (drop reached.at line.now) }
    ensures within { IfSome result (λ r. (reached.at < r.1.at) × (r.1.at ≤ length line.now)
        × (r.1.depth ≤ r.1.at)) }
{
    let (parts, at) = read_parts(line, reached.at)?;
    let depth = reached.depth;
    match after(line, at, b",\"subs\":[") {
        Some(at) => {
            let node = Node {
                parts,
                depth,
                is_leaf: false,
            };
            let depth = depth + 1;
            Some((node, Reached { at, depth }))
        }
        None => {
            let next = next_node(line, Reached { at, depth })?;
            let node = Node {
                parts,
                depth,
                is_leaf: true,
            };
            Some((node, next))
        }
    }
}

/// Finds the nodes of the line's tree, in the order in which they are written. Returns whether the
/// line is a tree, written exactly as `rosie` writes it. If the line is not such a tree, `nodes`
/// holds some nodes from the start of the line.
pub fn read_tree(line: &[u8], nodes: &mut Vec<Node>) -> Result<bool, NoMemory>
    ensures { IfOk result (λ found. tree_in line.now
        ≡ if_found found (map (seen line.now) nodes.new.items)) }
{
    nodes.clear();
    let mut reached = Reached { at: 0, depth: 0 };
    while let Some((node, next)) = read_step(line, reached) {
        nodes.push(node)?;
        if next.depth == 0 {
            return Ok(next.at == line.len());
        }
        reached = next;
    }
    Ok(false)
}

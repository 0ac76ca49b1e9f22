// Writes a tree as JSON.
ghost use Rattle.std.specs.Prelude.{
  ◌≡◌,
  ◌+◌,
  ◌<◌,
  ◌++◌,
  ◌∷◌,
  [],
  ◌↔◌,
  true,
  drop,
  reverse,
  vec_len,
  OnOk,
  IsTrue,
  if◌then◌else◌,
};
ghost use Rattle.rpl_encode.specs.Labels.{match_text};
ghost use Rattle.rpl_encode.specs.Answer.{IsTooLong};
ghost use Rattle.rpl_encode.specs.inside.Escapes.{AreOf};
ghost use Rattle.rpl_encode.specs.inside.Walk.{rest_of};

use crate::answer::MAX_ANSWER_BYTES;
use crate::fault::EncodeFault;
use crate::node_text::put_node;
use crate::page::Page;
use crate::source::Source;
use crate::style::Style;
use rpl_core::NoMemory;
use rpl_tree::{Forest, Node};

/// Writes the object of the first tree and a line feed, or nothing if there is no tree.
/// `pending` is working memory.
pub(crate) fn put_tree(
    out: &mut Page,
    pending: &mut Vec<usize>,
    forest: &Forest,
    source: Source<'_>,
) -> Result<(), EncodeFault>
    requires { AreOf source.line.now source.escapes.now }
    ensures text { OnOk result (out.new
        ≡ out.old ++ match_text Style.Json source.entry.line.now source.entry.fronts.now
        forest.now) }
    ensures too_long { IsTooLong result
        (out.old ++ match_text Style.Json source.entry.line.now source.entry.fronts.now
        forest.now) }
{
    let Some(root) = forest.get(0) else {
        return Ok(());
    };
    let has_subs = has_subs(root, root.below, 1, forest.len());
    put_node(out, root, true, has_subs, source)?;
    open_root(pending, has_subs, root.below)?;
    put_below(out, pending, forest, source)?;
    Ok(out.put(b"\n")?)
}

/// Clears the open lists, then opens the list of the nodes below the root, if any are printed.
fn open_root(lists: &mut Vec<usize>, has_subs: bool, below: usize) -> Result<(), NoMemory>
    ensures { OnOk result (lists.new.items ≡ (if has_subs then below ∷ [] else [])) }
{
    lists.clear();
    if has_subs {
        open_list(lists, below)?;
    }
    Ok(())
}

/// Opens a list in which `count` nodes are still to be written.
fn open_list(pending: &mut Vec<usize>, count: usize) -> Result<(), NoMemory>
    ensures items { OnOk result (pending.new.items ≡ pending.old.items ++ count ∷ []) }
    ensures len { OnOk result (vec_len pending.new ≡ vec_len pending.old + 1) }
{
    pending.push(count)?;
    Ok(())
}

/// Returns whether any nodes are printed below this one. That is the case if this node isn't a
/// note, `below` isn't 0, and `next`, the index of the first node below this one, is less than
/// `count`.
fn has_subs(node: Node, below: usize, next: usize, count: usize) -> bool
    ensures { IsTrue result ↔ ((node.note ≡ None) × (0 < below) × (next < count)) }
{
    node.note.is_none() && below > 0 && next < count
}

/// Writes the nodes from the second on, and closes the open lists. `lists` holds the number of
/// nodes still to be written in each open list, the innermost last.
fn put_below(
    out: &mut Page,
    lists: &mut Vec<usize>,
    forest: &Forest,
    source: Source<'_>,
) -> Result<(), EncodeFault>
    requires { AreOf source.line.now source.escapes.now }
    ensures text { OnOk result
        (out.new
        ≡ out.old
        ++ rest_of (source.entry.fronts.now) source.entry.line.now
        (drop 1 forest.now) (reverse lists.old.items) true) }
    ensures too_long { IsTooLong result
        (out.old
        ++ rest_of (source.entry.fronts.now) source.entry.line.now
        (drop 1 forest.now) (reverse lists.old.items) true) }
{
    let count = forest.len();
    let mut index = 1;
    let mut is_first = true;
    // The number of nodes left in the innermost list. `lists` holds the numbers for the other open
    // lists.
    let mut innermost = lists.pop();
    while let Some(left) = innermost {
        if out.len() > MAX_ANSWER_BYTES {
            return Err(EncodeFault::AnswerTooLong);
        }
        match forest.get(index) {
            Some(node) if left > 0 => {
                // A node's list never extends past the end of its parent's list.
                let below = node.below.min(left - 1);
                let behind = left - 1 - below;
                index += 1;
                let has_subs = has_subs(node, below, index, count);
                put_node(out, node, is_first, has_subs, source)?;
                if has_subs {
                    open_list(lists, behind)?;
                    innermost = Some(below);
                } else {
                    index = index.saturating_add(below);
                    innermost = Some(behind);
                }
                is_first = has_subs;
            }
            _ => {
                out.put(b"]}")?;
                is_first = false;
                innermost = lists.pop();
            }
        }
    }
    Ok(())
}

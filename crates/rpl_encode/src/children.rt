// Writes the texts of the root and of the nodes directly below it.
ghost use Rattle.std.specs.Prelude.{◌≡◌, ◌<◌, ◌⊎◌, ◌++◌, [], ◌∷◌, slice_get, OnOk, IfOk, IfSome};
ghost use Rattle.std.specs.Prelude.{IfNone};
ghost use Rattle.rpl_encode.specs.Answer.{IsTooLong, line_by_line};
ghost use Rattle.rpl_tree.specs.Trees.{below_root, trees_in};
ghost use Rattle.rpl_encode.specs.inside.Children.{below_of_first, is_some_text, is_printed};
ghost use Rattle.rpl_encode.specs.inside.Children.{printed_texts};
ghost use Rattle.rpl_encode.specs.Labels.{match_text};

use crate::answer::MAX_ANSWER_BYTES;
use crate::fault::EncodeFault;
use crate::front::Fronts;
use crate::node_text::{label_of, text_of};
use crate::page::Page;
use crate::style::Style;
use rpl_core::NoMemory;
use rpl_tree::{Forest, Node};

/// The type of the nodes that are the hits of a search.
const HIT: &str = "find.*";

/// Writes the bytes and a line feed.
pub(crate) fn put_line(out: &mut Page, bytes: &[u8]) -> Result<(), NoMemory>
    ensures { OnOk result (out.new ≡ out.old ++ (bytes.now ++ 10 ∷ [])) }
{
    out.put(bytes)?;
    out.put(b"\n")
}

/// Writes the text of the first tree and a line feed, or nothing if there is no tree.
pub(crate) fn put_root_text(
    out: &mut Page,
    line: &[u8],
    forest: &Forest,
    fronts: &Fronts,
) -> Result<(), NoMemory>
    ensures { OnOk result
        (out.new
        ≡ out.old ++ (match_text Style.Plain line.now fronts.now forest.now)) }
{
    match forest.get(0) {
        Some(root) => put_line(out, text_of(root, line, fronts)),
        None => Ok(()),
    }
}

/// Writes the texts of the nodes directly below the root, or only those of the hits, each followed
/// by a line feed. Returns whether any text was written.
pub(crate) fn put_texts(
    out: &mut Page,
    only_hits: bool,
    line: &[u8],
    forest: &Forest,
    fronts: &Fronts,
) -> Result<bool, EncodeFault>
    ensures text { OnOk result
        (out.new
        ≡ out.old
        ++ (line_by_line (printed_texts only_hits line.now
        (below_root (trees_in fronts.now forest.now))))) }
    ensures too_long { IsTooLong result
        (out.old
        ++ line_by_line (printed_texts only_hits line.now
        (below_root (trees_in fronts.now forest.now)))) }
    ensures found { IfOk result
        (λ some. some
        ≡ is_some_text (printed_texts only_hits line.now
        (below_root (trees_in fronts.now forest.now)))) }
{
    let count = forest.len();
    let mut left = below_first(forest);
    let mut index = 1;
    let mut some = false;
    while let Some(node) = node_within(forest, index, left) {
        if out.len() > MAX_ANSWER_BYTES {
            return Err(EncodeFault::AnswerTooLong);
        }
        if wants(only_hits, node, fronts) {
            put_line(out, text_of(node, line, fronts))?;
            some = true;
        }
        let below = node.below.min(left - 1);
        left -= 1 + below;
        index = (index + 1).saturating_add(below);
    }
    Ok(some)
}

/// Returns the number of nodes below the first node. If that node is a note, returns 0.
fn below_first(forest: &Forest) -> usize
    ensures { result ≡ below_of_first forest.now }
{
    match forest.get(0) {
        Some(root) if root.note.is_none() => root.below,
        _ => 0,
    }
}

/// Returns the node with this index. Returns `None` if there is no such node, or if `left`, the
/// number of remaining nodes, is 0.
fn node_within(forest: &Forest, index: usize, left: usize) -> Option<Node>
    ensures some { IfSome result (λ node. (0 < left) × (slice_get forest.now index ≡ Some node)) }
    ensures none { IfNone result ((left ≡ 0) ⊎ (slice_get forest.now index ≡ None)) }
{
    if left > 0 { forest.get(index) } else { None }
}

/// Returns whether the text of the node is printed. If `only_hits` is set, only the texts of hits
/// are printed.
pub(crate) fn wants(only_hits: bool, node: Node, fronts: &Fronts) -> bool
    ensures { result ≡ is_printed fronts.now only_hits node }
{
    match node.note {
        _ if !only_hits => true,
        Some(_) => false,
        None => label_of(fronts, node.label) == HIT,
    }
}

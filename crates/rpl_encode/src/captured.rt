// Writes the texts of the root and of the trees directly below it, straight from the captures.
ghost use Rattle.std.specs.Prelude.{◌≡◌, ◌<◌, ◌++◌, ◌∷◌, [], ℕ, List, length, take};
ghost use Rattle.std.specs.Prelude.{IfNone, IfOk, IfSome, OnOk};
ghost use Rattle.rpl_core.specs.Forest.{Forest};
ghost use Rattle.rpl_encode.specs.Answer.{IsTooLong, line_by_line};
ghost use Rattle.rpl_encode.specs.Texts.{texts};
ghost use Rattle.rpl_encode.specs.inside.Captured.{BeginWith, EndsAt, IsFirst, NeverEnds};
ghost use Rattle.rpl_encode.specs.inside.Children.{is_some_text, printed_texts};
ghost use Rattle.rpl_tree.specs.Trees.{below_root, label_in};

use crate::answer::MAX_ANSWER_BYTES;
use crate::children::{put_line, wants};
use crate::fault::EncodeFault;
use crate::front::Fronts;
use crate::node_text::text_of;
use crate::page::Page;
use rpl_core::{Caught, NoMemory};
use rpl_tree::Node;

/// Returns the first capture and the captures after it.
fn first_of(captures: &[Caught]) -> Option<(Caught, &[Caught])>
    ensures some { IfSome result (λ x. captures.now ≡ x.0 ∷ x.1.now) }
    ensures none { IfNone result (captures.now ≡ []) }
{
    match captures {
        [first, rest @ ..] => Some((*first, rest)),
        [] => None,
    }
}

/// Returns the end of the tree that begins just before these captures, and the captures after that
/// tree. Returns `None` if the tree doesn't end.
fn tree_end(captures: &[Caught]) -> Option<(usize, &[Caught])>
    ensures some { IfSome result (λ x. EndsAt captures.now x.0 x.1.now) }
    ensures none { IfNone result (NeverEnds captures.now) }
    ensures fewer { IfSome result (λ x. length x.1.now < length captures.now) }
{
    // The number of trees that are open inside the tree whose end is sought.
    let mut depth: usize = 0;
    let mut rest = captures;
    while let Some((capture, left)) = first_of(rest) {
        match capture {
            Caught::Begin { .. } => depth += 1,
            Caught::Finish { place } => {
                if depth == 0 {
                    return Some((place, left));
                }
                depth -= 1;
            }
            Caught::Note { .. } => {}
        }
        rest = left;
    }
    None
}

/// Returns the node of the first tree, and the captures after that tree. The nodes below that node
/// aren't counted, so its field `below` is 0. Returns `None` if no tree begins here.
fn first_tree(captures: &[Caught]) -> Option<(Node, &[Caught])>
    ensures some { IfSome result (λ x. (name : ℕ → List ℕ) (f : Forest)
        → BeginWith name f captures.now → IsFirst name f x.0 x.1.now) }
    ensures none { IfNone result ((name : ℕ → List ℕ) (f : Forest)
        → BeginWith name f captures.now → f ≡ Forest.NoTree) }
    ensures fewer { IfSome result (λ x. length x.1.now < length captures.now) }
{
    let (first, rest) = first_of(captures)?;
    match first {
        Caught::Begin { label, place } => {
            let (end, after) = tree_end(rest)?;
            let node = Node {
                label,
                note: None,
                start: place,
                end,
                below: 0,
            };
            Some((node, after))
        }
        Caught::Finish { .. } => None,
        Caught::Note { text, place } => {
            let node = Node {
                label: text,
                note: Some(text),
                start: place,
                end: place,
                below: 0,
            };
            Some((node, rest))
        }
    }
}

/// Returns the captures inside the first tree, and those after it. Returns no captures if the first
/// tree is a note.
fn inside_root(captures: &[Caught]) -> &[Caught]
    ensures { (name : ℕ → List ℕ) (f : Forest) → BeginWith name f captures.now
        → BeginWith name (below_root f) result.now }
{
    match first_of(captures) {
        Some((Caught::Begin { .. }, inside)) => inside,
        _ => &[],
    }
}

/// Writes the texts of the trees directly below the root of these captures, or only those of the
/// hits, each followed by a line feed. Returns whether any text was written.
pub(crate) fn put_captured_texts(
    out: &mut Page,
    only_hits: bool,
    line: &[u8],
    captures: &[Caught],
    fronts: &Fronts,
) -> Result<bool, EncodeFault>
    ensures text { (f : Forest) → BeginWith (label_in fronts.now) f captures.now → OnOk result
        (out.new ≡ out.old ++ line_by_line (printed_texts only_hits line.now (below_root f))) }
    ensures too_long { (f : Forest) → BeginWith (label_in fronts.now) f captures.now
        → IsTooLong result
        (out.old ++ line_by_line (printed_texts only_hits line.now (below_root f))) }
    ensures found { (f : Forest) → BeginWith (label_in fronts.now) f captures.now → IfOk result
        (λ some. some ≡ is_some_text (printed_texts only_hits line.now (below_root f))) }
{
    let mut rest = inside_root(captures);
    let mut some = false;
    while let Some((node, after)) = first_tree(rest) {
        if out.len() > MAX_ANSWER_BYTES {
            return Err(EncodeFault::AnswerTooLong);
        }
        if wants(only_hits, node, fronts) {
            put_line(out, text_of(node, line, fronts))?;
            some = true;
        }
        rest = after;
    }
    Ok(some)
}

/// Writes the text of the first tree of these captures and a line feed, or nothing if there is no
/// tree.
pub(crate) fn put_captured_root(
    out: &mut Page,
    line: &[u8],
    captures: &[Caught],
    fronts: &Fronts,
) -> Result<(), NoMemory>
    ensures { (f : Forest) → BeginWith (label_in fronts.now) f captures.now → OnOk result
        (out.new ≡ out.old ++ line_by_line (take 1 (texts line.now f))) }
{
    match first_tree(captures) {
        Some((root, _)) => put_line(out, text_of(root, line, fronts)),
        None => Ok(()),
    }
}

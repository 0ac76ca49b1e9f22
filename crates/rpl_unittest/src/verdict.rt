// Decides whether a test's claim about its text is true, given the outcome of matching that text.
ghost use Rattle.std.specs.Prelude.{◌≡◌, ◌∷◌, ◌++◌, Some, drop};
ghost use Rattle.std.specs.Prelude.{option_map, slice_get};
ghost use Rattle.std.specs.Prelude.{IfSome};
ghost use Rattle.std.specs.Option.{option_copied};
ghost use Rattle.std.specs.List.{list_any};
ghost use Rattle.std.specs.Str.{encode_utf8_all, bytes_eq};
ghost use Rattle.rpl_core.specs.Program.{labels_of};
ghost use Rattle.rpl_tree.specs.Trees.{label_in, trees_in};
ghost use Rattle.rpl_unittest.specs.Seen.{AreOneTree};
ghost use Rattle.rpl_unittest.specs.Verdicts.{is_plain, is_type, is_whole, is_met, part_of};
ghost use Rattle.rpl_unittest.specs.inside.Nodes.{has_part, passes, type_at};

use crate::test::{Test, Verb};
use rpl_core::Program;
use rpl_print::text_of;
use rpl_text::Chars;
use rpl_tree::{Forest, Node};

/// Returns whether the part contains no dot.
fn is_plain(part: &str) -> bool
    ensures { result ≡ is_plain part.now }
{
    for byte in part.as_bytes() {
        if *byte == b'.' {
            return false;
        }
    }
    true
}

/// Returns whether the label consists of the prefix, a dot and the part.
fn is_joined(label: &[u8], prefix: &[u8], part: &[u8]) -> bool
    ensures { result ≡ bytes_eq label.now (prefix.now ++ 46 ∷ part.now) }
{
    let len = prefix.len();
    if label.len() <= len {
        return false;
    }
    if label[len] != b'.' {
        return false;
    }
    if &label[..len] != prefix {
        return false;
    }
    &label[len + 1..] == part
}

/// Returns whether the part means the type `label`. A part means the type with the same name as the
/// part and, if the part contains no dot, also the type whose name is the prefix, a dot and the
/// part.
fn is_type(prefix: &str, part: &str, label: &str) -> bool
    ensures { result ≡ is_type prefix.now part.now label.now }
{
    label == part
        || (is_plain(part) && is_joined(label.as_bytes(), prefix.as_bytes(), part.as_bytes()))
}

/// Returns the label with this number in the program.
fn label_of(program: &Program, number: u32) -> &str
    ensures { result.now ≡ encode_utf8_all (label_in (labels_of program.now) number) }
{
    program.label(number).unwrap_or("")
}

/// Returns the type of a node.
fn type_of(node: Node, program: &Program) -> &str
    ensures { result.now ≡ type_at (labels_of program.now) node }
{
    match node.note {
        Some(_) => "message",
        None => label_of(program, node.label),
    }
}

/// The type that a test names, given by a part and the name of the file's package.
#[derive(Clone, Copy)]
struct Asked<'a> {
    prefix: &'a str,
    part: &'a str,
}

/// Returns whether there is a node with this index whose type is the one that the test names.
fn is_here(forest: &Forest, index: usize, asked: Asked<'_>, program: &Program) -> bool
    ensures { result ≡ passes
        (has_part program.now asked.entry.prefix.now asked.entry.part.now)
        (slice_get forest.now index) }
{
    match forest.get(index) {
        Some(node) => is_type(asked.prefix, asked.part, type_of(node, program)),
        None => false,
    }
}

/// Returns whether the type of some node after the first is the one that the test names.
fn has_type(forest: &Forest, asked: Asked<'_>, program: &Program) -> bool
    ensures { result ≡ list_any
        (has_part program.now asked.entry.prefix.now asked.entry.part.now) (drop 1 forest.now) }
{
    let len = forest.len();
    for index in 1..len {
        if is_here(forest, index, asked, program) {
            return true;
        }
    }
    false
}

/// Returns whether the text is matched to its end.
fn is_whole(forest: &Forest, text: &str, program: &Program) -> bool
    requires { AreOneTree forest.now }
    ensures { result ≡ is_whole text.now (Some (trees_in (labels_of program.now) forest.now)) }
{
    match forest.get(0) {
        Some(root) => root.end == text.len(),
        None => false,
    }
}

/// Returns the text of the part, or an empty text if there is no part.
fn part_of(part: &Option<Chars>) -> &str
    ensures { result.now ≡ part_of part.now }
{
    match part {
        Some(part) => text_of(part),
        None => "",
    }
}

/// Returns whether a test passes, given the match of its text.
fn judge_match(verb: Verb, asked: Asked<'_>, text: &str, forest: &Forest, program: &Program) -> bool
    requires { AreOneTree forest.now }
    ensures { result ≡ is_met verb asked.entry.prefix.now asked.entry.part.now text.now
        (Some (trees_in (labels_of program.now) forest.now)) }
{
    match verb {
        Verb::Accepts => is_whole(forest, text, program),
        Verb::Rejects => !is_whole(forest, text, program),
        Verb::Includes => has_type(forest, asked, program),
        Verb::Excludes => !has_type(forest, asked, program),
    }
}

/// Returns whether the test passes. `found` is the match tree of the test's text, or `None` if the
/// text isn't matched. If there is a match, `found` must be one tree whose labels are numbered as
/// in `program`. `prefix` is the name of the file's package, or empty if the file has no package
/// name. A part without a dot means both the type with that name and the type with that name in the
/// file's package.
pub fn judge(test: &Test, prefix: &str, found: Option<&Forest>, program: &Program) -> bool
    requires { IfSome (option_copied found) AreOneTree }
    ensures { let trees = option_map (trees_in (labels_of program.now)) (option_copied found.entry) in
        result ≡ is_met test.now.verb prefix.now (part_of test.now.part)
        (encode_utf8_all test.now.text) trees }
{
    match found {
        None => matches!(test.verb, Verb::Rejects),
        Some(forest) => {
            let part = part_of(&test.part);
            let asked = Asked { prefix, part };
            judge_match(test.verb, asked, text_of(&test.text), forest, program)
        }
    }
}

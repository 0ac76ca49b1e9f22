// All fields of a tree, as a JSON object.
ghost use Rattle.std.specs.Prelude.{◌≡◌, ◌++◌, [], length, drop, map, OnOk};
ghost use Rattle.std.specs.Str.{bytes_eq};
ghost use Rattle.rpl_columns.specs.Cells.{between};
ghost use Rattle.rpl_columns.specs.Fields as F;
ghost use Rattle.rpl_columns.specs.Nodes.{part_of, seen};

use crate::cell::put;
use crate::row::put_separator;
use crate::spelling::are_same;
use crate::{NoMemory, Node, Tree};

/// Returns the last part of a type: the text after the last dot, or the whole type if it contains
/// no dot.
#[tactic(auto, using(crate::proofs::Naming::part_dot, crate::proofs::Naming::part_other))]
fn last_part(label: &[u8]) -> &[u8]
    ensures { result.now ≡ F.last_part label.now }
{
    let mut start = 0;
    for (index, byte) in label.iter().enumerate() {
        if *byte == b'.' {
            start = index + 1;
        }
    }
    &label[start..]
}

/// Returns the name of the field that a node belongs to.
fn key_of(line: &[u8], node: Node) -> &[u8]
    ensures { result.now ≡ F.key_of line.now node }
{
    last_part(node.parts.label.of(line))
}

/// Returns whether the two slices hold the same bytes.
fn are_equal(left: &[u8], right: &[u8]) -> bool
    ensures { result ≡ bytes_eq left.now right.now }
{
    left.len() == right.len() && are_same(left, right)
}

/// Returns whether one of these nodes belongs to the field with this name.
fn is_known(line: &[u8], known: &[Node], key: &[u8]) -> bool
    ensures { result ≡ F.is_known key.now (map (F.key_of line.now) known.now) }
{
    let mut is_any = false;
    for node in known {
        is_any |= are_equal(key, key_of(line, *node));
    }
    is_any
}

/// Returns whether a node is a leaf and belongs to a field to which none of the known nodes
/// belongs.
fn is_new(line: &[u8], known: &[Node], node: Node) -> bool
    ensures { result ≡ F.is_new (map (F.key_of line.now) known.now) node.is_leaf
        (F.key_of line.now node) }
{
    node.is_leaf && !is_known(line, known, key_of(line, node))
}

/// Finds one node for each field name, in the order in which the names first occur.
fn find_keys(keys: &mut Vec<Node>, line: &[u8], nodes: &[Node]) -> Result<(), NoMemory>
    ensures { OnOk result (map (F.key_of line.now) keys.new.items
        ≡ F.keys [] (map (seen line.now) nodes.now)) }
{
    keys.clear();
    for node in nodes {
        if is_new(line, keys, *node) {
            keys.push(*node)?;
        }
    }
    Ok(())
}

/// Returns whether a node belongs to the field with this name.
fn is_field(line: &[u8], key: &[u8], node: Node) -> bool
    ensures { result ≡ F.is_field key.now node.is_leaf (part_of line.now node.parts.label) }
{
    node.is_leaf && are_equal(key_of(line, node), key)
}

/// Returns the number of nodes in a field.
fn count_values(line: &[u8], key: &[u8], nodes: &[Node]) -> usize
    ensures { result ≡ length (F.values key.now (map (seen line.now) nodes.now)) }
{
    let mut count = 0;
    for node in nodes {
        if is_field(line, key, *node) {
            count += 1;
        }
    }
    count
}

/// Appends a text in quotes.
fn put_quoted(out: &mut Vec<u8>, text: &[u8]) -> Result<(), NoMemory>
    ensures { OnOk result (out.new.items ≡ out.old.items ++ F.in_quotes text.now) }
{
    put(out, b"\"")?;
    put(out, text)?;
    put(out, b"\"")
}

/// Appends the texts of a field, separated by commas.
fn put_values(out: &mut Vec<u8>, line: &[u8], key: &[u8], nodes: &[Node]) -> Result<(), NoMemory>
    ensures { OnOk result (out.new.items ≡ out.old.items
        ++ F.values_text (F.values key.now (map (seen line.now) nodes.now))) }
{
    let mut count = 0;
    for node in nodes {
        if is_field(line, key, *node) {
            put_separator(out, b',', count)?;
            put_quoted(out, node.parts.text.of(line))?;
            count += 1;
        }
    }
    Ok(())
}

/// Appends the value of a field: a string, or a list of strings if several nodes belong to the
/// field.
fn put_value(out: &mut Vec<u8>, line: &[u8], key: &[u8], nodes: &[Node]) -> Result<(), NoMemory>
    ensures { OnOk result (out.new.items ≡ out.old.items
        ++ F.value_text (F.values key.now (map (seen line.now) nodes.now))) }
{
    if count_values(line, key, nodes) == 1 {
        return put_values(out, line, key, nodes);
    }
    put(out, b"[")?;
    put_values(out, line, key, nodes)?;
    put(out, b"]")
}

/// Appends the name and the value of a field.
fn put_field(out: &mut Vec<u8>, line: &[u8], key: &[u8], nodes: &[Node]) -> Result<(), NoMemory>
    ensures { OnOk result (out.new.items ≡ out.old.items
        ++ F.field (map (seen line.now) nodes.now) key.now) }
{
    put_quoted(out, key)?;
    put(out, b":")?;
    put_value(out, line, key, nodes)
}

/// Appends the fields with these names, separated by commas.
fn put_members(
    out: &mut Vec<u8>,
    line: &[u8],
    keys: &[Node],
    nodes: &[Node],
) -> Result<(), NoMemory>
    ensures { OnOk result (out.new.items ≡ out.old.items ++ between 44
        (map (F.field (map (seen line.now) nodes.now)) (map (F.key_of line.now) keys.now))) }
{
    for (index, key) in keys.iter().enumerate() {
        put_separator(out, b',', index)?;
        put_field(out, line, key_of(line, *key), nodes)?;
    }
    Ok(())
}

/// Returns the nodes below the root.
fn below_root(nodes: &[Node]) -> &[Node]
    ensures { result.now ≡ drop 1 nodes.now }
{
    let from = nodes.len().min(1);
    &nodes[from..]
}

/// Appends all fields of a tree as a JSON object, and a line feed. `keys` serves only as reusable
/// memory.
#[tactic(auto, unfolding(crate::specs::Fields::fields_row))]
pub(crate) fn put_fields(
    out: &mut Vec<u8>,
    keys: &mut Vec<Node>,
    tree: Tree<'_>,
) -> Result<(), NoMemory>
    ensures { OnOk result (out.new.items ≡ out.old.items
        ++ F.fields_row (map (seen tree.entry.line.now) tree.entry.nodes.now)) }
{
    let nodes = below_root(tree.nodes);
    find_keys(keys, tree.line, nodes)?;
    put(out, b"{")?;
    put_members(out, tree.line, keys, nodes)?;
    put(out, b"}\n")
}

// Trees in JSON, read back by `serde_json`.
use crate::command::{NO_FAULT, Run, run_on};
use rosie_io::NoMemory;
use serde_json::Value;
use std::alloc::Global;
use std::test::Fail;

/// Returns this many nested pairs of parentheses.
fn nest(alloc: Global, pairs: usize) -> Result<String, NoMemory> {
    let mut line = "(".repeat(alloc, pairs)?;
    line.push_str(")".repeat(alloc, pairs)?.as_str())?;
    Ok(line)
}

/// Returns the command's answer to a line of nested pairs: a node for each pair, below the node of
/// the pair around it.
fn answer(alloc: Global, line: &str) -> Result<Vec<u8>, NoMemory> {
    let run = Run {
        words: "match -f nest.rpl p",
        input: line.as_bytes(),
        in_pieces: false,
    };
    Ok(run_on(alloc, &run, NO_FAULT)?.out)
}

fn text_of<'a>(node: &'a Value, name: &str) -> Option<&'a str> {
    node.get(name).and_then(Value::as_str)
}

fn number_of(node: &Value, name: &str) -> Option<u64> {
    node.get(name).and_then(Value::as_u64)
}

/// Returns the node below this one, if there is exactly one.
fn below(node: &Value) -> Option<&Value> {
    match node.get("subs").and_then(Value::as_array)?.as_slice() {
        [only] => Some(only),
        _ => None,
    }
}

/// Returns whether this is the node of the pair that is inside `around` other pairs. The nodes
/// below this node are not checked.
fn is_pair(node: &Value, line: &str, around: usize) -> bool {
    let end = line.len().saturating_sub(around);
    text_of(node, "type") == Some("p")
        && number_of(node, "s") == (around as u64).checked_add(1)
        && number_of(node, "e") == (end as u64).checked_add(1)
        && text_of(node, "data") == line.get(around..end)
}

/// Returns the number of members of the node.
fn members(node: &Value) -> usize {
    match node.as_object() {
        Some(members) => members.len(),
        None => 0,
    }
}

/// Returns whether this is the tree of a line of nested pairs, and no node of the tree has an
/// unexpected member.
fn is_tree(tree: &Value, line: &str) -> bool {
    let pairs = line.len() / 2;
    let mut node = tree;
    for around in 0..pairs {
        if !is_pair(node, line, around) {
            return false;
        }
        node = match below(node) {
            Some(inner) if members(node) == 5 => inner,
            Some(_) => return false,
            None => return members(node) == 4 && around + 1 == pairs,
        };
    }
    false
}

/// `serde_json` reads objects and lists nested up to 127 levels deep. A tree that is 64 nodes deep
/// needs exactly 127 levels, and a tree that is 65 nodes deep needs 129.
#[test]
fn trees_are_read_again(rt: HostRuntime) -> Result<(), Fail> {
    let alloc = rt.alloc();
    for pairs in [1, 2, 8, 63, 64] {
        let line = nest(alloc, pairs)?;
        let tree = Value::from_slice(alloc, answer(alloc, line.as_str())?.as_slice())?;
        assert!(rt; is_tree(&tree, line.as_str()), "{pairs} pairs");
    }
    let line = nest(alloc, 65)?;
    assert!(rt; Value::from_slice(alloc, answer(alloc, line.as_str())?.as_slice()).is_err());
    Ok(())
}

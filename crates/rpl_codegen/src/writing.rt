// Writes the code of each kind of pattern. Sizes are known beforehand, so each jump is written with
// its final target. Each function that writes a pattern takes the nodes of that pattern and of all
// patterns in it.
ghost use Rattle.std.specs.Prelude.{◌≡◌, ◌<◌, ◌+◌, ◌-◌, ◌*◌, ◌≤◌, OnOk, length};
ghost use Rattle.rpl_core.specs.Code as C;
ghost use Rattle.rpl_core.specs.Head as H;
ghost use Rattle.rpl_core.specs.View.{core_of};
ghost use Rattle.rpl_codegen.specs.inside.Sizes.{len, many_len, not_len, tried_len};
ghost use Rattle.rpl_codegen.specs.inside.Nodes.{behind_nodes, inner_nodes, nodes_in, tested_nodes};
ghost use Rattle.rpl_codegen.specs.inside.Taken.{Begins, Takes, head_at, left};
ghost use Rattle.rpl_intern.specs.Written.{Adds};
ghost use Rattle.rpl_codegen.specs.inside.Written.{GoesOn, Tries, Writes, capture_code, code_in};
ghost use Rattle.rpl_codegen.specs.inside.Written.{test_code};

use crate::NoMemory;
use crate::head::lone_set;
use crate::layout::Layout;
use crate::size::Nodes;
use rpl_core::{Instr, Peg, Pegs};
use rpl_intern::Draft;
use rpl_text::Chars;
use std::alloc::Global;

/// A look-behind: its lengths, its body, and the address where its code ends.
#[derive(Clone, Copy)]
struct Look<'a> {
    least: u32,
    most: u32,
    body: &'a Peg,
    end: u32,
}

/// The parts of a sequence or of a choice, and the address where the code of all of them ends.
#[derive(Clone, Copy)]
struct Row<'a> {
    parts: &'a Pegs,
    end: u32,
}

/// Writes the code of the pattern.
#[cycle(emit)]
pub(crate) fn emit(
    draft: &mut Draft,
    layout: &Layout,
    nodes: &mut Nodes,
    peg: &Peg,
) -> Result<(), NoMemory>
    requires room { length draft.old.code + len (core_of peg.now) ≤ 1048576 }
    requires nodes { Begins (left nodes.old) (nodes_in (core_of peg.now)) }
    ensures code { OnOk result (Writes draft.old draft.new (code_in layout.now peg.now)) }
    ensures nodes { OnOk result (Takes nodes.old nodes.new (nodes_in (core_of peg.now))) }
{
    let end = draft.next() + nodes.take();
    emit_inner(draft, layout, nodes, peg, end)
}

/// Writes the code of a pattern whose own node has already been taken. The code ends at the address
/// `end`.
#[cycle(emit)]
fn emit_inner(
    draft: &mut Draft,
    layout: &Layout,
    nodes: &mut Nodes,
    peg: &Peg,
    end: u32,
) -> Result<(), NoMemory>
    requires room { length draft.old.code + len (core_of peg.now) ≤ 1048576 }
    requires nodes { Begins (left nodes.old) (inner_nodes (core_of peg.now)) }
    requires end { end ≡ length draft.old.code + len (core_of peg.now) }
    ensures code { OnOk result (Writes draft.old draft.new (code_in layout.now peg.now)) }
    ensures nodes { OnOk result (Takes nodes.old nodes.new (inner_nodes (core_of peg.now))) }
{
    match peg {
        Peg::Set(set) => draft.put_set(layout.alloc(), set),
        Peg::Seq(parts) => emit_all(draft, layout, nodes, Row { parts, end }),
        Peg::Choice(parts) => emit_first(draft, layout, nodes, Row { parts, end }),
        Peg::Many(body) => emit_many(draft, layout, nodes, body),
        Peg::Not(body) => emit_not(draft, layout, nodes, body),
        Peg::And(body) => emit_and(draft, layout, nodes, body),
        Peg::Behind { least, most, body } => {
            let look = Look {
                least: *least,
                most: *most,
                body,
                end,
            };
            emit_behind(draft, layout, nodes, look)
        }
        Peg::Call(rule) => draft.put(Instr::Call(layout.address(*rule))),
        Peg::Capture(label, body) => emit_capture(draft, layout, nodes, label, body),
        Peg::Note(text) => draft.put_note(layout.alloc(), text),
        Peg::Start => draft.put(Instr::Start),
        Peg::End => draft.put(Instr::End),
        Peg::Halt => draft.put(Instr::Halt),
    }
}

/// Writes a sequence of parts. The next node always belongs to the next part that has code; the
/// other parts have no node.
#[cycle(emit)]
fn emit_all(
    draft: &mut Draft,
    layout: &Layout,
    nodes: &mut Nodes,
    row: Row<'_>,
) -> Result<(), NoMemory>
    requires room { length draft.old.code + len (core_of (Peg.Seq row.parts.now)) ≤ 1048576 }
    requires nodes { Begins (left nodes.old) (inner_nodes (core_of (Peg.Seq row.parts.now))) }
    requires end { row.end ≡ length draft.old.code + len (core_of (Peg.Seq row.parts.now)) }
    ensures code { OnOk result (Writes draft.old draft.new
        (code_in layout.now (Peg.Seq row.entry.parts.now))) }
    ensures nodes { OnOk result (Takes nodes.old nodes.new
        (inner_nodes (core_of (Peg.Seq row.entry.parts.now)))) }
{
    let parts = row.parts.as_slice();
    while draft.next() < row.end {
        let number = nodes.part();
        // Part number `number` always exists. This test only shows that the index is in bounds.
        if number >= parts.len() {
            return Ok(());
        }
        let behind = draft.next() + nodes.take();
        emit_inner(draft, layout, nodes, &parts[number], behind)?;
    }
    Ok(())
}

/// Writes a choice between the parts. If a part other than the last succeeds, its code jumps to the
/// end.
#[cycle(emit)]
fn emit_first(
    draft: &mut Draft,
    layout: &Layout,
    nodes: &mut Nodes,
    row: Row<'_>,
) -> Result<(), NoMemory>
    requires room { length draft.old.code + len (core_of (Peg.Choice row.parts.now)) ≤ 1048576 }
    requires nodes { Begins (left nodes.old) (inner_nodes (core_of (Peg.Choice row.parts.now))) }
    requires end { row.end ≡ length draft.old.code + len (core_of (Peg.Choice row.parts.now)) }
    ensures code { OnOk result (Writes draft.old draft.new
        (code_in layout.now (Peg.Choice row.entry.parts.now))) }
    ensures nodes { OnOk result (Takes nodes.old nodes.new
        (inner_nodes (core_of (Peg.Choice row.entry.parts.now)))) }
{
    let parts = row.parts.as_slice();
    if parts.is_empty() {
        return draft.put(Instr::Fail);
    }
    let last = parts.len() - 1;
    for number in 0..last {
        emit_tried(draft, layout, nodes, &parts[number], row.end)?;
    }
    emit(draft, layout, nodes, &parts[last])
}

/// Writes a part of a choice other than the last part. If the part has a head, first writes the
/// test of that head.
#[cycle(emit)]
fn emit_tried(
    draft: &mut Draft,
    layout: &Layout,
    nodes: &mut Nodes,
    part: &Peg,
    end: u32,
) -> Result<(), NoMemory>
    requires room { length draft.old.code + tried_len (H.head (core_of part.now))
        (len (core_of part.now))
        ≤ 1048576 }
    requires nodes { Begins (left nodes.old) (tested_nodes (core_of part.now)) }
    ensures goes_on { OnOk result (GoesOn draft.old draft.new end
        (C.tested_choice (H.head (core_of part.now)) (code_in layout.now part.now))) }
    ensures long { OnOk result (length draft.new.code
        ≡ length draft.old.code + tried_len (H.head (core_of part.now)) (len (core_of part.now))) }
    ensures nodes { OnOk result (Takes nodes.old nodes.new (tested_nodes (core_of part.now))) }
{
    let size = nodes.size();
    let tested = draft.next() + 2 + size + 1;
    emit_test(layout.alloc(), draft, nodes, tested)?;
    let other = draft.next() + 1 + size + 1;
    draft.put(Instr::Choice(other))?;
    let behind = draft.next() + nodes.take();
    emit_inner(draft, layout, nodes, part, behind)?;
    draft.put(Instr::Commit(end))
}

/// Writes the test of the next node's head, if the node has one.
fn emit_test(alloc: Global, draft: &mut Draft, nodes: &Nodes, other: u32) -> Result<(), NoMemory>
    requires room { length draft.old.code < 1048576 }
    requires nodes { 0 < length (left nodes.now) }
    ensures { OnOk result (Adds draft.old draft.new (test_code (head_at (left nodes.now)) other)) }
{
    if let Some(head) = nodes.head() {
        draft.put_test(alloc, other, head)?;
    }
    Ok(())
}

/// Writes a repetition of the body.
#[cycle(emit)]
fn emit_many(
    draft: &mut Draft,
    layout: &Layout,
    nodes: &mut Nodes,
    body: &Peg,
) -> Result<(), NoMemory>
    requires room { length draft.old.code + many_len (H.lone_set (core_of body.now))
        (len (core_of body.now))
        ≤ 1048576 }
    requires nodes { Begins (left nodes.old) (nodes_in (core_of body.now)) }
    ensures code { OnOk result (Writes draft.old draft.new
        (C.many_code (H.lone_set (core_of body.now)) (code_in layout.now body.now))) }
    ensures nodes { OnOk result (Takes nodes.old nodes.new (nodes_in (core_of body.now))) }
{
    if let Some(set) = lone_set(body) {
        nodes.take();
        return draft.put_span(layout.alloc(), set);
    }
    let start = draft.next();
    draft.put(Instr::Choice(start + 1 + nodes.size() + 1))?;
    emit(draft, layout, nodes, body)?;
    draft.put(Instr::PartialCommit(start + 1))
}

/// Writes a predicate that holds if the body fails.
#[cycle(emit)]
fn emit_not(
    draft: &mut Draft,
    layout: &Layout,
    nodes: &mut Nodes,
    body: &Peg,
) -> Result<(), NoMemory>
    requires room { length draft.old.code + not_len (H.lone_set (core_of body.now))
        (len (core_of body.now)) ≤ 1048576 }
    requires nodes { Begins (left nodes.old) (nodes_in (core_of body.now)) }
    ensures code { OnOk result (Writes draft.old draft.new
        (C.not_code (H.lone_set (core_of body.now)) (code_in layout.now body.now))) }
    ensures nodes { OnOk result (Takes nodes.old nodes.new (nodes_in (core_of body.now))) }
{
    let start = draft.next();
    if let Some(set) = lone_set(body) {
        nodes.take();
        draft.put_test(layout.alloc(), start + 2, set)?;
        return draft.put(Instr::Fail);
    }
    draft.put(Instr::Choice(start + 1 + nodes.size() + 1))?;
    emit(draft, layout, nodes, body)?;
    draft.put(Instr::FailTwice)
}

/// Writes a predicate that holds if the body succeeds.
#[cycle(emit)]
fn emit_and(
    draft: &mut Draft,
    layout: &Layout,
    nodes: &mut Nodes,
    body: &Peg,
) -> Result<(), NoMemory>
    requires room { length draft.old.code + (len (core_of body.now) + 3) ≤ 1048576 }
    requires nodes { Begins (left nodes.old) (nodes_in (core_of body.now)) }
    ensures code { OnOk result (Writes draft.old draft.new
        (C.and_code (code_in layout.now body.now))) }
    ensures nodes { OnOk result (Takes nodes.old nodes.new (nodes_in (core_of body.now))) }
{
    let fail = draft.next() + 1 + nodes.size() + 1;
    draft.put(Instr::Choice(fail))?;
    emit(draft, layout, nodes, body)?;
    draft.put(Instr::BackCommit(fail + 1))?;
    draft.put(Instr::Fail)
}

/// Writes a look-behind: the code for each length in turn, and then a `fail`, which is reached if
/// the body matches at none of these lengths. For each length, the nodes of the body are taken
/// again from the same starting point.
#[cycle(emit)]
fn emit_behind(
    draft: &mut Draft,
    layout: &Layout,
    nodes: &mut Nodes,
    look: Look<'_>,
) -> Result<(), NoMemory>
    requires room { length draft.old.code + ((look.most + 1 - look.least) *
        (len (core_of look.body.now) + 3) + 1)
        ≤ 1048576 }
    requires nodes { Begins (left nodes.old) (behind_nodes (look.most + 1 - look.least)
        (nodes_in (core_of look.body.now))) }
    requires end { look.end ≡ length draft.old.code
        + ((look.most + 1 - look.least) * (len (core_of look.body.now) + 3) + 1) }
    ensures code { OnOk result (Writes draft.old draft.new
        (C.behind_code (code_in layout.now look.entry.body.now)
        (look.entry.most + 1 - look.entry.least) look.entry.least)) }
    ensures nodes { OnOk result (Takes nodes.old nodes.new
        (behind_nodes (look.entry.most + 1 - look.entry.least)
        (nodes_in (core_of look.entry.body.now)))) }
{
    let start = nodes.next;
    for back in look.least as u64..look.most as u64 + 1 {
        nodes.next = start;
        emit_length(draft, layout, nodes, look, back as u32)?;
    }
    draft.put(Instr::Fail)
}

/// Writes the code for one length of a look-behind.
#[cycle(emit)]
fn emit_length(
    draft: &mut Draft,
    layout: &Layout,
    nodes: &mut Nodes,
    look: Look<'_>,
    back: u32,
) -> Result<(), NoMemory>
    requires room { length draft.old.code + (len (core_of look.body.now) + 3) ≤ 1048576 }
    requires nodes { Begins (left nodes.old) (nodes_in (core_of look.body.now)) }
    ensures goes_on { OnOk result (Tries draft.old draft.new
        (code_in layout.now look.entry.body.now) look.entry.end
        back) }
    ensures long { OnOk result (length draft.new.code
        ≡ length draft.old.code + (len (core_of look.entry.body.now) + 3)) }
    ensures nodes { OnOk result (Takes nodes.old nodes.new
        (nodes_in (core_of look.entry.body.now))) }
{
    let next = draft.next() + 2 + nodes.size() + 1;
    draft.put(Instr::Choice(next))?;
    draft.put(Instr::Back(back))?;
    emit(draft, layout, nodes, look.body)?;
    draft.put(Instr::Meet(look.end))
}

/// Writes a capture.
#[cycle(emit)]
fn emit_capture(
    draft: &mut Draft,
    layout: &Layout,
    nodes: &mut Nodes,
    label: &Chars,
    body: &Peg,
) -> Result<(), NoMemory>
    requires room { length draft.old.code + (len (core_of body.now) + 2) ≤ 1048576 }
    requires nodes { Begins (left nodes.old) (nodes_in (core_of body.now)) }
    ensures code { OnOk result (Writes draft.old draft.new
        (capture_code label.now (code_in layout.now body.now))) }
    ensures nodes { OnOk result (Takes nodes.old nodes.new (nodes_in (core_of body.now))) }
{
    draft.put_open(layout.alloc(), label)?;
    emit(draft, layout, nodes, body)?;
    draft.put(Instr::Close)
}

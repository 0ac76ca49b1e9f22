// Computes, before any code is written, the number of instructions in a pattern and in each pattern
// inside it, and the head that is tested before each of these patterns.
ghost use Rattle.std.specs.Option.{option_copied};
ghost use Rattle.std.specs.Prelude.{◌≡◌, ◌+◌, ◌-◌, ◌*◌, ◌<◌, ◌≤◌, [], ◌++◌, IfOk, OnOk, None, Some};
ghost use Rattle.std.specs.Prelude.{IsTrue, length, min, option_map, take};
ghost use Rattle.rpl_classes.specs.Norm.{norm};
ghost use Rattle.rpl_core.specs.Head as H;
ghost use Rattle.rpl_core.specs.View.{core_of, cores};
ghost use Rattle.rpl_codegen.specs.inside.Nodes.{behind_nodes, choice_nodes, inner_nodes, nodes_in};
ghost use Rattle.rpl_codegen.specs.inside.Nodes.{numbered_nodes, part_nodes, parts_nodes};
ghost use Rattle.rpl_codegen.specs.inside.Nodes.{tested_nodes};
ghost use Rattle.rpl_codegen.specs.inside.Sizes.{len, len_all, len_first, tried_len};

use crate::NoMemory;
use crate::head::lone_set;
use crate::heads::Heads;
use rpl_classes::Set;
use rpl_core::Peg;
use std::alloc::Global;

/// The greatest number of instructions that a program may have.
pub(crate) const MAX_CODE: u32 = 1_048_576;

/// Returns the sum of `a` and `b`, capped at one more than `MAX_CODE`.
pub(crate) fn capped(a: u32, b: u32) -> u32
    requires a { a ≤ 1048577 }
    requires b { b ≤ 1048577 }
    ensures { result ≡ min 1048577 (a + b) }
{
    (a + b).min(MAX_CODE + 1)
}

/// Returns the number of instructions in a look-behind whose body has `size` instructions, capped
/// at one more than the limit.
pub(crate) fn behind_size(size: u32, least: u32, most: u32) -> u32
    requires { size ≤ 1048577 }
    ensures { result ≡ min 1048577 ((most + 1 - least) * (size + 3) + 1) }
{
    let lengths = (most as u64 + 1).saturating_sub(least as u64);
    (lengths * (size as u64 + 3) + 1).min(MAX_CODE as u64 + 1) as u32
}

/// What is known about a pattern before its code is written: how many instructions it has, capped
/// at one more than the limit; its index in the sequence, if it is a part of one; and its head, if
/// it has one and is any part of a choice except the last.
#[derive(Drop)]
pub(crate) struct Node {
    size: u32,
    part: usize,
    head: Option<Set>,
}

/// The nodes, in the order in which their code is written, and the index of the next node.
#[derive(Drop)]
pub(crate) struct Nodes {
    list: Vec<Node>,
    pub(crate) next: usize,
}

impl Nodes {
    ghost use Rattle.rpl_codegen.specs.inside.Taken.{Takes, head_at, left, part_at, size_at};

    /// Returns the nodes in `list`. The first of them is the next node.
    pub(crate) fn new(list: Vec<Node>) -> Nodes
        ensures { left result ≡ list.items }
    {
        Nodes { list, next: 0 }
    }

    /// Returns the number of instructions in the next node's pattern.
    pub(crate) fn size(&self) -> u32
        requires { 0 < length (left self.now) }
        ensures { result ≡ size_at (left self.now) }
    {
        self.list[self.next].size
    }

    /// Returns the index of the next node's pattern in the sequence that contains it.
    pub(crate) fn part(&self) -> usize
        requires { 0 < length (left self.now) }
        ensures { result ≡ part_at (left self.now) }
    {
        self.list[self.next].part
    }

    /// Returns the head that is tested before the next node's pattern, if there is one.
    pub(crate) fn head(&self) -> Option<&Set>
        requires { 0 < length (left self.now) }
        ensures { option_copied result ≡ head_at (left self.now) }
    {
        self.list[self.next].head.as_ref()
    }

    /// Takes the next node, and returns the number of instructions in its pattern.
    pub(crate) fn take(&mut self) -> u32
        requires { 0 < length (left self.old) }
        ensures size { result ≡ size_at (left self.old) }
        ensures taken { Takes self.old self.new (take 1 (left self.old)) }
    {
        let size = self.size();
        self.next += 1;
        size
    }
}

/// The nodes of the patterns measured so far.
#[derive(Drop)]
pub(crate) struct Measured {
    pub(crate) nodes: Vec<Node>,
}

impl Measured {
    /// Returns a `Measured` without nodes.
    pub(crate) fn new(alloc: Global) -> Measured
        ensures { result.nodes.items ≡ [] }
    {
        Measured {
            nodes: Vec::new(alloc),
        }
    }
}

/// The number of instructions in a pattern, capped at one more than the limit, and the pattern's
/// head, if it has one. Both are computed in one pass, since the size of a pattern also depends on
/// the heads of the patterns inside it. A head that no test needs can be missing.
#[derive(Drop)]
pub(crate) struct Shape {
    pub(crate) size: u32,
    head: Option<Set>,
}

impl Shape {
    /// Returns how many instructions the pattern takes up as a part of a choice that is not the
    /// last, including the instructions written around the pattern.
    fn tried_size(&self) -> u32
        requires { self.now.size ≤ 1048577 }
        ensures { result ≡ min 1048577 (tried_len self.now.head self.now.size) }
    {
        match self.head {
            Some(_) => capped(self.size, 3),
            None => capped(self.size, 2),
        }
    }
}

/// Returns the shape of a pattern that has `size` instructions and no head.
fn headless(size: u32) -> Shape
    ensures size { result.size ≡ size }
    ensures head { result.head ≡ None }
{
    Shape { size, head: None }
}

/// Returns the shape of a set. The set is its own head, so the head shares the set's ranges.
fn set_shape(alloc: Global, set: &Set, wanted: bool) -> Result<Shape, NoMemory>
    ensures size { IfOk result (λ s. s.size ≡ 1) }
    ensures head { IfOk result (λ s. IsTrue wanted → s.head ≡ Some set.now) }
{
    if !wanted {
        return Ok(headless(1));
    }
    Ok(Shape {
        size: 1,
        head: Some(set.copy(alloc)?),
    })
}

/// Adds the nodes of the pattern and of all patterns in it to `measured`. Returns the pattern's
/// shape.
#[cycle(measure)]
pub(crate) fn measure(
    alloc: Global,
    measured: &mut Measured,
    peg: &Peg,
    wanted: bool,
) -> Result<Shape, NoMemory>
    ensures nodes { OnOk result (measured.new.nodes.items ≡ measured.old.nodes.items
        ++ nodes_in (core_of peg.now)) }
    ensures size { IfOk result (λ s. s.size ≡ min 1048577 (len (core_of peg.now))) }
    ensures head { IfOk result (λ s. IsTrue wanted → s.head ≡ H.head (core_of peg.now)) }
{
    let place = measured.nodes.len();
    measured.nodes.push(Node {
        size: 0,
        part: 0,
        head: None,
    })?;
    let shape = measure_inner(alloc, measured, peg, wanted)?;
    measured.nodes[place] = Node {
        size: shape.size,
        part: 0,
        head: None,
    };
    Ok(shape)
}

/// Adds the nodes of a part of a sequence. `number` is the part's number in the sequence. A part
/// without code gets no node, so `emit_all` skips it without visiting it.
#[cycle(measure)]
fn measure_part(
    alloc: Global,
    measured: &mut Measured,
    part: &Peg,
    number: usize,
    wanted: bool,
) -> Result<Shape, NoMemory>
    ensures nodes { OnOk result (measured.new.nodes.items ≡ measured.old.nodes.items
        ++ part_nodes (len (core_of part.now)) (numbered_nodes number (core_of part.now))) }
    ensures size { IfOk result (λ s. s.size ≡ min 1048577 (len (core_of part.now))) }
    ensures head { IfOk result (λ s. IsTrue wanted → s.head ≡ H.head (core_of part.now)) }
{
    let place = measured.nodes.len();
    measured.nodes.push(Node {
        size: 0,
        part: number,
        head: None,
    })?;
    let shape = measure_inner(alloc, measured, part, wanted)?;
    if shape.size == 0 {
        measured.nodes.truncate(place);
        return Ok(shape);
    }
    measured.nodes[place] = Node {
        size: shape.size,
        part: number,
        head: None,
    };
    Ok(shape)
}

/// Adds the nodes of a part of a choice, which must not be the last part, and adds the part's head
/// to the heads of the choice. The part's own node holds that head. Returns the number of
/// instructions in the part, including the instructions written around it.
#[cycle(measure)]
fn measure_tried(
    alloc: Global,
    measured: &mut Measured,
    heads: &mut Heads,
    part: &Peg,
) -> Result<u32, NoMemory>
    ensures nodes { OnOk result (measured.new.nodes.items
        ≡ measured.old.nodes.items ++ tested_nodes (core_of part.now)) }
    ensures size { IfOk result (λ n. n
        ≡ min 1048577 (tried_len (H.head (core_of part.now)) (len (core_of part.now)))) }
    ensures heads { OnOk result (option_map norm heads.new
        ≡ option_map norm (H.both_heads heads.old (H.head (core_of part.now)))) }
{
    let place = measured.nodes.len();
    measured.nodes.push(Node {
        size: 0,
        part: 0,
        head: None,
    })?;
    let shape = measure_inner(alloc, measured, part, true)?;
    heads.add(alloc, shape.head.as_ref())?;
    let tried = shape.tried_size();
    let Shape { size, head } = shape;
    measured.nodes[place] = Node {
        size,
        part: 0,
        head,
    };
    Ok(tried)
}

/// Adds the nodes of the patterns inside a pattern, but no node for that pattern itself. Returns
/// the shape of that pattern.
#[cycle(measure)]
fn measure_inner(
    alloc: Global,
    measured: &mut Measured,
    peg: &Peg,
    wanted: bool,
) -> Result<Shape, NoMemory>
    ensures nodes { OnOk result (measured.new.nodes.items ≡ measured.old.nodes.items
        ++ inner_nodes (core_of peg.now)) }
    ensures size { IfOk result (λ s. s.size ≡ min 1048577 (len (core_of peg.now))) }
    ensures head { IfOk result (λ s. IsTrue wanted → s.head ≡ H.head (core_of peg.now)) }
{
    match peg {
        Peg::Set(set) => set_shape(alloc, set, wanted),
        Peg::Call(_) | Peg::Note(_) | Peg::Start | Peg::End | Peg::Halt => Ok(headless(1)),
        Peg::Seq(parts) => measure_all(alloc, measured, parts.as_slice(), wanted),
        Peg::Choice(parts) => measure_first(alloc, measured, parts.as_slice(), wanted),
        Peg::Many(body) => {
            let inner = measure(alloc, measured, body, false)?;
            if lone_set(body).is_some() {
                Ok(headless(1))
            } else {
                Ok(headless(capped(inner.size, 2)))
            }
        }
        Peg::Not(body) => {
            let inner = measure(alloc, measured, body, false)?;
            if lone_set(body).is_some() {
                Ok(headless(2))
            } else {
                Ok(headless(capped(inner.size, 2)))
            }
        }
        Peg::And(body) => {
            let inner = measure(alloc, measured, body, false)?;
            Ok(headless(capped(inner.size, 3)))
        }
        Peg::Behind { least, most, body } => measure_behind(alloc, measured, *least, *most, body),
        Peg::Capture(_, body) => {
            let Shape { size, head } = measure(alloc, measured, body, wanted)?;
            Ok(Shape {
                size: capped(size, 2),
                head,
            })
        }
    }
}

/// Measures a look-behind. If there is no length to try, adds no nodes for the body.
#[cycle(measure)]
fn measure_behind(
    alloc: Global,
    measured: &mut Measured,
    least: u32,
    most: u32,
    body: &Peg,
) -> Result<Shape, NoMemory>
    ensures nodes { OnOk result (measured.new.nodes.items
        ≡ measured.old.nodes.items
        ++ behind_nodes (most + 1 - least) (nodes_in (core_of body.now))) }
    ensures size { IfOk result (λ s. s.size ≡ min 1048577
        ((most + 1 - least) * (len (core_of body.now) + 3) + 1)) }
    ensures head { IfOk result (λ s. s.head ≡ None) }
{
    if least > most {
        return Ok(headless(1));
    }
    let inner = measure(alloc, measured, body, false)?;
    Ok(headless(behind_size(inner.size, least, most)))
}

/// Measures a sequence of parts. The head of the sequence is the head of its first part.
#[cycle(measure)]
fn measure_all(
    alloc: Global,
    measured: &mut Measured,
    parts: &[Peg],
    wanted: bool,
) -> Result<Shape, NoMemory>
    ensures nodes { OnOk result (measured.new.nodes.items
        ≡ measured.old.nodes.items ++ parts_nodes 0 (cores parts.now)) }
    ensures size { IfOk result (λ s. s.size ≡ min 1048577 (len_all (cores parts.now))) }
    ensures head { IfOk result (λ s. IsTrue wanted → s.head ≡ H.first_head (cores parts.now)) }
{
    if parts.is_empty() {
        return Ok(headless(0));
    }
    let first = measure_part(alloc, measured, &parts[0], 0, wanted)?;
    let mut total = first.size;
    for number in 1..parts.len() {
        let part = measure_part(alloc, measured, &parts[number], number, false)?;
        total = capped(total, part.size);
    }
    Ok(Shape {
        size: total,
        head: first.head,
    })
}

/// Measures a choice between parts. The choice has a head if each part has one.
#[cycle(measure)]
fn measure_first(
    alloc: Global,
    measured: &mut Measured,
    parts: &[Peg],
    wanted: bool,
) -> Result<Shape, NoMemory>
    ensures nodes { OnOk result (measured.new.nodes.items
        ≡ measured.old.nodes.items ++ choice_nodes (cores parts.now)) }
    ensures size { IfOk result (λ s. s.size ≡ min 1048577 (len_first (cores parts.now))) }
    ensures head { IfOk result (λ s. IsTrue wanted
        → s.head ≡ option_map norm (H.all_heads (cores parts.now))) }
{
    let mut heads = Heads::new(alloc, wanted);
    if parts.is_empty() {
        let head = heads.set(alloc)?;
        return Ok(Shape { size: 1, head });
    }
    let last = parts.len() - 1;
    let mut total = 0;
    for number in 0..last {
        let tried = measure_tried(alloc, measured, &mut heads, &parts[number])?;
        total = capped(total, tried);
    }
    let end = measure(alloc, measured, &parts[last], wanted)?;
    heads.add(alloc, end.head.as_ref())?;
    let head = heads.set(alloc)?;
    Ok(Shape {
        size: capped(total, end.size),
        head,
    })
}

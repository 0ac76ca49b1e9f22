// The order in which to mark the rules of a block for which a fact holds: each rule comes after the
// rules on which its own mark depends.
//
// Only the running time depends on the order in which rules are marked, because a rule is marked
// only after the fact has been tested on its body. Each body is therefore walked twice: once for
// its gates, and once when its rule is marked.
ghost use Rattle.std.specs.Prelude.{◌-◌, ◌<◌, ◌≤◌};

use crate::NoMemory;
use crate::facts::{Fact, is_marked};
use crate::group::Group;
use rpl_core::Peg;
use std::alloc::Global;

/// The state of a pattern: the fact holds for the pattern, never holds for it, or holds for it once
/// the fact holds for enough of the rules that the pattern calls.
#[derive(Clone, Copy)]
enum Port {
    Open,
    Shut,
    Waits,
}

/// The gates of the patterns in a block. A gate opens once the fact is known to hold for its
/// pattern. `marks` covers the rules before the block. The first gates are those of the block's
/// rules. Every other gate comes after the gate above it and has a call below it. `calls` is the
/// number of calls noted so far.
#[derive(Drop)]
struct Gates<'a> {
    start: u32,
    end: u32,
    marks: &'a [bool],
    above: Vec<usize>,
    needs: Vec<usize>,
    callers: Vec<Vec<usize>>,
    calls: usize,
}

impl<'a> Gates<'a> {
    /// Creates one gate for each rule of the block.
    fn new(alloc: Global, start: u32, end: u32, marks: &'a [bool]) -> Result<Gates<'a>, NoMemory>
        requires { start ≤ end }
    {
        let mut callers = Vec::new(alloc);
        for _ in start..end {
            callers.push(Vec::new(alloc))?;
        }
        Ok(Gates {
            start,
            end,
            marks,
            above: vec![in alloc; 0; (end - start) as usize]?,
            needs: vec![in alloc; 0; (end - start) as usize]?,
            callers,
            calls: 0,
        })
    }

    /// Adds a gate below the gate `above`. The new gate cannot open before `set` is called.
    fn add(&mut self, above: usize) -> Result<usize, NoMemory> {
        let gate = self.needs.len();
        self.above.push(above)?;
        self.needs.push(0)?;
        Ok(gate)
    }

    /// If the number of noted calls is still `calls`, removes the gate `gate` and all later gates.
    /// None of the removed gates waits for a call.
    fn take_back(&mut self, gate: usize, calls: usize) {
        if self.calls == calls {
            self.above.truncate(gate);
            self.needs.truncate(gate);
        }
    }

    /// Makes the gate open once `needs` of the gates and calls below it have opened.
    fn set(&mut self, gate: usize, needs: usize) {
        if gate < self.needs.len() {
            self.needs[gate] = needs;
        }
    }

    /// Notes a call of `rule` below the gate, and returns the port of the call.
    fn call(&mut self, rule: u32, gate: usize) -> Result<Port, NoMemory> {
        if self.start <= rule && rule < self.end {
            let place = (rule - self.start) as usize;
            if place < self.callers.len() {
                self.callers[place].push(gate)?;
                self.calls = self.calls.saturating_add(1);
            }
            return Ok(Port::Waits);
        }
        if is_marked(self.marks, rule) {
            Ok(Port::Open)
        } else {
            Ok(Port::Shut)
        }
    }
}

/// Returns the port of a pattern below the gate, for the fact `MayBeEmpty`.
#[cycle(ports)]
fn empty_port(gates: &mut Gates, peg: &Peg, gate: usize) -> Result<Port, NoMemory> {
    match peg {
        Peg::Set(_) | Peg::Halt => Ok(Port::Shut),
        Peg::Many(_) | Peg::Not(_) | Peg::And(_) | Peg::Behind { .. } => Ok(Port::Open),
        Peg::Note(_) | Peg::Start | Peg::End => Ok(Port::Open),
        Peg::Call(rule) => gates.call(*rule, gate),
        Peg::Capture(_, body) => empty_port(gates, body, gate),
        Peg::Seq(parts) => all_empty_port(gates, parts.as_slice(), gate),
        Peg::Choice(parts) => any_empty_port(gates, parts.as_slice(), gate),
    }
}

/// Returns the port of a sequence of parts. The sequence may be empty if every part may be empty.
#[cycle(ports)]
fn all_empty_port(gates: &mut Gates, parts: &[Peg], above: usize) -> Result<Port, NoMemory> {
    let calls = gates.calls;
    let gate = gates.add(above)?;
    let mut needs: usize = 0;
    for part in parts {
        match empty_port(gates, part, gate)? {
            Port::Open => {}
            Port::Shut => {
                gates.take_back(gate, calls);
                return Ok(Port::Shut);
            }
            Port::Waits => needs = needs.saturating_add(1),
        }
    }
    if needs == 0 {
        gates.take_back(gate, calls);
        return Ok(Port::Open);
    }
    gates.set(gate, needs);
    Ok(Port::Waits)
}

/// Returns the port of a choice between parts. The choice may be empty if any part may be empty.
#[cycle(ports)]
fn any_empty_port(gates: &mut Gates, parts: &[Peg], above: usize) -> Result<Port, NoMemory> {
    let calls = gates.calls;
    let gate = gates.add(above)?;
    let mut waits = false;
    for part in parts {
        match empty_port(gates, part, gate)? {
            Port::Open => {
                gates.take_back(gate, calls);
                return Ok(Port::Open);
            }
            Port::Shut => {}
            Port::Waits => waits = true,
        }
    }
    if !waits {
        gates.take_back(gate, calls);
        return Ok(Port::Shut);
    }
    gates.set(gate, 1);
    Ok(Port::Waits)
}

/// Returns the port of a pattern below the gate, for the fact `MayHalt`. The gate opens as soon as
/// the fact holds for at least one rule that the pattern calls.
#[cycle(halts)]
fn halt_port(gates: &mut Gates, peg: &Peg, gate: usize) -> Result<Port, NoMemory> {
    match peg {
        Peg::Halt => Ok(Port::Open),
        Peg::Set(_) | Peg::Note(_) | Peg::Start | Peg::End => Ok(Port::Shut),
        Peg::Call(rule) => gates.call(*rule, gate),
        Peg::Many(body) | Peg::Not(body) | Peg::And(body) => halt_port(gates, body, gate),
        Peg::Behind { body, .. } => halt_port(gates, body, gate),
        Peg::Capture(_, body) => halt_port(gates, body, gate),
        Peg::Seq(parts) => any_halt_port(gates, parts.as_slice(), gate),
        Peg::Choice(parts) => any_halt_port(gates, parts.as_slice(), gate),
    }
}

/// Returns the port of several parts. The fact `MayHalt` holds for the parts if it holds for at
/// least one of them.
#[cycle(halts)]
fn any_halt_port(gates: &mut Gates, parts: &[Peg], gate: usize) -> Result<Port, NoMemory> {
    let mut waits = false;
    for part in parts {
        match halt_port(gates, part, gate)? {
            Port::Open => return Ok(Port::Open),
            Port::Shut => {}
            Port::Waits => waits = true,
        }
    }
    if waits {
        Ok(Port::Waits)
    } else {
        Ok(Port::Shut)
    }
}

/// Returns the port of the rule at `place` in the group. `place` is also the index of the rule's
/// gate.
fn rule_port(gates: &mut Gates, group: &Group, place: u32, fact: Fact) -> Result<Port, NoMemory>
    requires { place < group.now.end - group.now.start }
{
    let gate = place as usize;
    match group.rules.get(group.start + place) {
        Some(rule) => match fact {
            Fact::MayBeEmpty => empty_port(gates, &rule.body, gate),
            Fact::MayHalt => halt_port(gates, &rule.body, gate),
        },
        None => Ok(Port::Shut),
    }
}

/// Records that one of the gates and calls below the gate has opened. If that opens the gate, the
/// gates above it can also open. When the gate of a rule opens, the rule is appended to `order`.
fn open(
    above: &[usize],
    needs: &mut [usize],
    count: u32,
    gate: usize,
    order: &mut Vec<u32>,
) -> Result<(), NoMemory> {
    let mut gate = gate;
    while gate < needs.len() && needs[gate] > 0 {
        needs[gate] -= 1;
        if needs[gate] > 0 {
            return Ok(());
        }
        if gate < count as usize {
            order.push(gate as u32)?;
            return Ok(());
        }
        if gate >= above.len() || above[gate] >= gate {
            return Ok(());
        }
        gate = above[gate];
    }
    Ok(())
}

/// Opens the gates that wait for the rule at `place`.
fn open_callers(
    gates: &mut Gates,
    count: u32,
    place: u32,
    order: &mut Vec<u32>,
) -> Result<(), NoMemory> {
    if place as usize >= gates.callers.len() {
        return Ok(());
    }
    for gate in &gates.callers[place as usize] {
        open(&gates.above, &mut gates.needs, count, *gate, order)?;
    }
    Ok(())
}

/// Returns the places of those rules of the group for which the fact holds. Each rule's place comes
/// after the places of the rules on which its mark depends.
pub(crate) fn turns(
    alloc: Global,
    group: &Group,
    fact: Fact,
    marks: &[bool],
) -> Result<Vec<u32>, NoMemory>
    requires { group.now.start ≤ group.now.end }
{
    let count = group.end - group.start;
    let mut gates = Gates::new(alloc, group.start, group.end, marks)?;
    let mut order = Vec::new(alloc);
    for place in 0..count {
        match rule_port(&mut gates, group, place, fact)? {
            Port::Open => order.push(place)?,
            Port::Shut => {}
            Port::Waits => gates.set(place as usize, 1),
        }
    }
    for at in 0..count {
        if (at as usize) < order.len() {
            open_callers(&mut gates, count, order[at as usize], &mut order)?;
        }
    }
    Ok(order)
}

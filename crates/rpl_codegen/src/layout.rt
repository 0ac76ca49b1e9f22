// The layout of the code: the addresses where the rules begin.
ghost use Rattle.std.specs.Prelude.{◌≡◌, ◌++◌, IfOk, OnOk, min, slice_get, true};
ghost use Rattle.rpl_core.specs.Listed.{rules_of};
ghost use Rattle.rpl_core.specs.Marked.{has};
ghost use Rattle.rpl_core.specs.Table.{bodies_of};
ghost use Rattle.rpl_core.specs.View.{core_of};
ghost use Rattle.rpl_codegen.specs.inside.Laid.{LaysOut, bodies_nodes, body_len, rule_nodes};
ghost use Rattle.rpl_codegen.specs.inside.Nodes.{nodes_in};

use crate::NoMemory;
use crate::next::next_in;
use crate::size::{Measured, capped, measure};
use crate::starts::Starts;
use rpl_core::{Peg, Rules};
use std::alloc::Global;
use std::collections::BTreeSet;

/// The address where the code of each rule begins, and the address after the last instruction.
#[derive(Drop)]
pub(crate) struct Layout {
    starts: Starts,
    end: u32,
}

impl Layout {
    ghost use Rattle.rpl_codegen.specs.inside.Written.{address_of};

    /// Returns the allocator for everything that is written with this layout.
    pub(crate) fn alloc(&self) -> Global {
        *self.starts.list.allocator()
    }

    /// Computes the addresses of the rules, whose code follows the code of the goal. Only reached
    /// rules have code. Adds the nodes of the goal and of the reached rules to `measured`, in the
    /// order in which the code is written.
    pub(crate) fn new(
        alloc: Global,
        rules: &Rules,
        goal: &Peg,
        reached: &BTreeSet<u32>,
        measured: &mut Measured,
    ) -> Result<Layout, NoMemory>
        ensures layout { IfOk result (λ l.
            LaysOut (has reached.now) (bodies_of (rules_of rules.now)) (core_of goal.now) l) }
        ensures nodes { OnOk result (measured.new.nodes.items ≡ measured.old.nodes.items
            ++ (nodes_in (core_of goal.now)
            ++ bodies_nodes (has reached.now) (bodies_of (rules_of rules.now)) 0)) }
    {
        let mut starts = Starts::new(alloc);
        let shape = measure(alloc, measured, goal, false)?;
        let mut next = capped(shape.size, 1);
        let count = rules.len();
        let mut number = next_in(reached, 0, count);
        while number < count {
            starts.push(number as u32, next)?;
            let size = rule_size(alloc, measured, rules, number as u32)?;
            next = capped(next, size);
            number = next_in(reached, number + 1, count);
        }
        Ok(Layout { starts, end: next })
    }

    /// Returns the number of instructions in the whole code, capped at one more than the limit.
    pub(crate) fn size(&self) -> u32
        ensures { result ≡ self.now.end }
    {
        self.end
    }

    /// Returns the address where rule number `rule` begins. For a rule that isn't reached, returns
    /// the address of the next reached rule, or the end of the code if there is no such rule.
    pub(crate) fn address(&self, rule: u32) -> u32
        ensures { result ≡ address_of self.now rule }
    {
        self.starts.find(rule, self.end)
    }
}

/// Returns the number of instructions in a rule, including its return, capped at one more than the
/// limit. Adds the nodes of the rule to `measured`.
fn rule_size(
    alloc: Global,
    measured: &mut Measured,
    rules: &Rules,
    number: u32,
) -> Result<u32, NoMemory>
    ensures size { IfOk result (λ n. n ≡ min 1048577
        (body_len (slice_get (bodies_of (rules_of rules.now)) number))) }
    ensures nodes { OnOk result (measured.new.nodes.items ≡ measured.old.nodes.items
        ++ rule_nodes true (slice_get (bodies_of (rules_of rules.now)) number)) }
{
    match rules.get(number) {
        Some(rule) => {
            let shape = measure(alloc, measured, &rule.body, false)?;
            Ok(capped(shape.size, 1))
        }
        None => Ok(0),
    }
}

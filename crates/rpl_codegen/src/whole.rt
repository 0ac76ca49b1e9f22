// Compiles a goal and the rules that it reaches.
ghost use Rattle.std.specs.Prelude.{◌≡◌, ◌≤◌, ◌+◌, [], ◌++◌, IfErr, IfOk, OnOk, length, slice_get};
ghost use Rattle.std.specs.Prelude.{true};
ghost use Rattle.rpl_core.specs.Listed.{rules_of};
ghost use Rattle.rpl_core.specs.Marked.{CallsAreRules, has};
ghost use Rattle.rpl_core.specs.Numbers.{AreInRange};
ghost use Rattle.rpl_core.specs.Program.{code_of, instructions, labels_of, sets_of};
ghost use Rattle.rpl_core.specs.Programs.{IsCode, bodies, program};
ghost use Rattle.rpl_core.specs.Table.{bodies_of};
ghost use Rattle.rpl_core.specs.View.{core_of};
ghost use Rattle.rpl_codegen.specs.Compiled.{HasLongCode};
ghost use Rattle.rpl_codegen.specs.inside.Laid.{LaysOut, bodies_len, bodies_nodes, body_len};
ghost use Rattle.rpl_codegen.specs.inside.Laid.{rule_code, rule_nodes};
ghost use Rattle.rpl_codegen.specs.inside.Nodes.{nodes_in};
ghost use Rattle.rpl_codegen.specs.inside.Taken.{Begins, Takes, left};
ghost use Rattle.rpl_intern.specs.Uses.{KeepsOnce, labels_in, sets_in};
ghost use Rattle.rpl_codegen.specs.inside.Written.{Writes, address_of};
ghost use Rattle.rpl_intern.specs.Written.{Adds};
ghost use Rattle.rpl_codegen.specs.declared.whole.CompileFault.TheVariants.{NoMemory};

use crate::NoMemory;
use crate::layout::Layout;
use crate::next::next_in;
use crate::size::{MAX_CODE, Measured, Nodes};
use crate::writing::emit;
use rpl_core::{Instr, Peg, Program, Rules, reached_rules};
use rpl_intern::Draft;
use std::alloc::Global;
use std::collections::BTreeSet;
use thiserror::Error;

/// The reason why a goal was not compiled.
#[derive(Debug, Drop, Error)]
pub enum CompileFault {
    /// Memory ran out.
    #[error("out of memory")]
    NoMemory,
    /// The code has more than 1,048,576 instructions.
    #[error("code too long")]
    CodeTooLong,
}

impl From<NoMemory> for CompileFault {
    ghost from_gives = { λ _ e. e ≡ NoMemory };

    fn from(_error: NoMemory) -> CompileFault {
        CompileFault::NoMemory
    }
}

/// Returns the code of the goal over the table of rules: the goal's own code, `finish`, and the
/// code of each rule that the goal reaches, in the order of the table. Equal sets and equal texts
/// are stored once, in the order of their first use.
pub(crate) fn compile_goal(
    alloc: Global,
    rules: &Rules,
    goal: &Peg,
) -> Result<Program, CompileFault>
    requires { CallsAreRules (bodies_of (rules_of rules.now)) (core_of goal.now) }
    ensures code { IfOk result (λ p. IsCode (bodies_of (rules_of rules.now)) (core_of goal.now)
        (instructions p)) }
    ensures fits { IfOk result (λ p. length (code_of p) ≤ 1048576) }
    ensures sets { IfOk result (λ p. KeepsOnce (sets_in (instructions p)) (sets_of p)) }
    ensures labels { IfOk result (λ p. KeepsOnce (labels_in (instructions p)) (labels_of p)) }
    ensures too_long { IfErr result (λ e. e ≡ CompileFault.CodeTooLong
        → HasLongCode (bodies_of (rules_of rules.now)) (core_of goal.now)) }
{
    let reached = reached_rules(alloc, rules, goal)?;
    let mut measured = Measured::new(alloc);
    let layout = Layout::new(alloc, rules, goal, &reached, &mut measured)?;
    if layout.size() > MAX_CODE {
        return Err(CompileFault::CodeTooLong);
    }
    let mut nodes = Nodes::new(measured.nodes);
    let mut draft = Draft::new(alloc);
    let reached = Reached {
        rules,
        numbers: &reached,
    };
    emit_whole(&mut draft, &layout, &mut nodes, goal, reached)?;
    Ok(program_of(alloc, draft)?)
}

/// Returns the program with the draft's code, sets and texts.
fn program_of(alloc: Global, draft: Draft) -> Result<Program, NoMemory>
    requires { AreInRange draft.code draft.sets draft.labels }
    ensures code { IfOk result (λ p. code_of p ≡ draft.code) }
    ensures fits { IfOk result (λ p. length (code_of p) ≤ 1048576) }
    ensures sets { IfOk result (λ p. sets_of p ≡ draft.sets) }
    ensures labels { IfOk result (λ p. labels_of p ≡ draft.labels) }
{
    let sets = draft.sets.sets(alloc)?;
    let labels = draft.labels.labels(alloc)?;
    Ok(Program::new(draft.code, sets, labels))
}

/// A table of rules, and the numbers of the rules that are reached.
#[derive(Clone, Copy)]
struct Reached<'a> {
    rules: &'a Rules,
    numbers: &'a BTreeSet<u32>,
}

/// Writes the code of the goal, `finish`, and the code of the reached rules to an empty draft.
fn emit_whole(
    draft: &mut Draft,
    layout: &Layout,
    nodes: &mut Nodes,
    goal: &Peg,
    reached: Reached<'_>,
) -> Result<(), NoMemory>
    requires empty { draft.old.code ≡ [] }
    requires layout { LaysOut (has reached.numbers.now) (bodies_of (rules_of reached.rules.now))
        (core_of goal.now)
        layout.now }
    requires room { layout.now.end ≤ 1048576 }
    requires nodes { left nodes.old
        ≡ nodes_in (core_of goal.now)
        ++ bodies_nodes (has reached.numbers.now) (bodies_of (rules_of reached.rules.now)) 0 }
    ensures { OnOk result (Adds draft.old draft.new
        (program (has reached.entry.numbers.now) (bodies_of (rules_of reached.entry.rules.now))
        (core_of goal.now))) }
{
    emit(draft, layout, nodes, goal)?;
    draft.put(Instr::Finish)?;
    emit_rules(draft, layout, nodes, reached.rules, reached.numbers)
}

/// Writes the code of the reached rules in the order of the table, each followed by `return`.
fn emit_rules(
    draft: &mut Draft,
    layout: &Layout,
    nodes: &mut Nodes,
    rules: &Rules,
    reached: &BTreeSet<u32>,
) -> Result<(), NoMemory>
    requires room { length draft.old.code + bodies_len (has reached.now)
        (bodies_of (rules_of rules.now)) 0 ≤ 1048576 }
    requires nodes { Begins (left nodes.old) (bodies_nodes (has reached.now)
        (bodies_of (rules_of rules.now)) 0) }
    ensures { OnOk result (Writes draft.old draft.new
        (bodies (has reached.now) (address_of layout.now) (bodies_of (rules_of rules.now)) 0)) }
{
    let count = rules.len();
    let mut number = next_in(reached, 0, count);
    while number < count {
        emit_rule(draft, layout, nodes, rules, number as u32)?;
        number = next_in(reached, number + 1, count);
    }
    Ok(())
}

/// Writes the code of rule number `number`, followed by `return`.
fn emit_rule(
    draft: &mut Draft,
    layout: &Layout,
    nodes: &mut Nodes,
    rules: &Rules,
    number: u32,
) -> Result<(), NoMemory>
    requires room { length draft.old.code + body_len
        (slice_get (bodies_of (rules_of rules.now)) number) ≤ 1048576 }
    requires nodes { Begins (left nodes.old) (rule_nodes true
        (slice_get (bodies_of (rules_of rules.now)) number)) }
    ensures code { OnOk result (Writes draft.old draft.new
        (rule_code true (address_of layout.now)
        (slice_get (bodies_of (rules_of rules.now)) number))) }
    ensures nodes { OnOk result (Takes nodes.old nodes.new
        (rule_nodes true (slice_get (bodies_of (rules_of rules.now)) number))) }
{
    if let Some(rule) = rules.get(number) {
        emit(draft, layout, nodes, &rule.body)?;
        draft.put(Instr::Return)?;
    }
    Ok(())
}

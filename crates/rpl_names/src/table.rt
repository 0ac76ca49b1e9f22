// The rule table, which numbers the rules.
ghost use Rattle.std.specs.Prelude.{◌≡◌, ◌≤◌, ◌<◌, ◌+◌, ◌++◌, OnOk, IfOk, IfErr, length};
ghost use Rattle.rpl_scope.specs.Seen.{modules_seen, rule_seen, rules_seen};
ghost use Rattle.rpl_scope.specs.declared.fault.Stop.TheVariants.{Memory as OutOfMemory};
ghost use Rattle.rpl_names.specs.Tables.{begun_at, begun_in, full_name, in_block, row_of};
ghost use Rattle.rpl_names.specs.Tables.{rows_of};
ghost use Rattle.rpl_names.specs.Numbering.{IsTable};

use rpl_scope::{Module, NoMemory, Rule, Stop};
use rpl_text::Chars;
use std::alloc::Global;

/// The largest number of rules that statements may define. That many rules and the two built-in
/// ones use up all the rule numbers that a call can hold. A set with more rules is refused as if
/// memory had run out.
const MAX_ROWS: usize = 4_294_967_293;

/// A row of the table: a rule that a statement defines.
#[derive(Debug, Drop)]
pub struct Row {
    /// The full name of the rule.
    pub name: Chars,
    /// The number of the module that contains the rule.
    pub from: usize,
    /// The index of the rule among the rules of its module.
    pub place: usize,
    /// The number of the block that contains the rule, if there is one.
    pub block: Option<u32>,
}

/// The rules of the modules in order. The first of these rules has the number 2.
#[derive(Drop)]
pub struct Table {
    pub rows: Vec<Row>,
    /// The number of the first rule of each module.
    pub firsts: Vec<u32>,
}

/// Returns the full name of a rule in the module with this package name.
fn full_name(alloc: Global, label: &Chars, name: &Chars) -> Result<Chars, NoMemory>
    ensures { IfOk result (λ full. full ≡ full_name label.now name.now) }
{
    if label.as_str().is_empty() {
        if name.as_str() == "~" {
            return Chars::from_str(alloc, "*.~");
        }
        return name.copy(alloc);
    }
    let mut text = String::from_str(alloc, label.as_str())?;
    text.push('.')?;
    text.push_str(name.as_str())?;
    Chars::from_str(alloc, &text)
}

/// Returns whether a rule is in a block.
fn in_block(rule: &Rule) -> bool
    ensures { result ≡ in_block (rule_seen rule.now) }
{
    rule.since == rule.start
}

/// Returns how many blocks have begun up to and including `rule`, which is at index `place` in its
/// module. `blocks` is the number of blocks that began before `rule`.
fn begun_at(blocks: u32, place: usize, rule: &Rule) -> u32
    requires { blocks < 4294967295 }
    ensures exact { result ≡ begun_at blocks place (rule_seen rule.now) }
    ensures more { result ≤ blocks + 1 }
{
    if in_block(rule) && rule.start == place {
        blocks + 1
    } else {
        blocks
    }
}

/// A module: its number and its package name.
#[derive(Clone, Copy)]
struct Owner<'a> {
    number: usize,
    label: &'a Chars,
}

/// Returns the row of a rule, given how many blocks have begun up to and including the rule.
fn row_of(
    alloc: Global,
    owner: Owner<'_>,
    place: usize,
    blocks: u32,
    rule: &Rule,
) -> Result<Row, NoMemory>
    ensures { IfOk result (λ r. r ≡ row_of owner.entry.label.now owner.entry.number place blocks
        (rule_seen rule.now)) }
{
    let name = full_name(alloc, owner.label, &rule.name)?;
    let block = if in_block(rule) {
        Some(blocks.saturating_sub(1))
    } else {
        None
    };
    Ok(Row {
        name,
        from: owner.number,
        place,
        block,
    })
}

/// Appends the rows of a module's rules, given how many blocks began before the module. Returns how
/// many blocks have begun by the end of the module.
fn push_rules(
    alloc: Global,
    rows: &mut Vec<Row>,
    owner: Owner<'_>,
    blocks: u32,
    rules: &[Rule],
) -> Result<u32, Stop>
    requires few { 2 + length rows.old.items ≤ 4294967295 }
    requires begun { blocks ≤ length rows.old.items }
    ensures rows { OnOk result (rows.new.items ≡ rows.old.items
        ++ rows_of owner.entry.label.now owner.entry.number 0 blocks (rules_seen rules.now)) }
    ensures few { OnOk result (2 + length rows.new.items ≤ 4294967295) }
    ensures begun { IfOk result (λ n. n ≤ length rows.new.items) }
    ensures blocks { IfOk result (λ n. n ≡ begun_in blocks 0 (rules_seen rules.now)) }
    ensures memory { IfErr result (λ s. s ≡ OutOfMemory) }
{
    let mut begun = blocks;
    let mut place = 0;
    for rule in rules {
        if rows.len() >= MAX_ROWS {
            return Err(Stop::Memory);
        }
        begun = begun_at(begun, place, rule);
        let row = row_of(alloc, owner, place, begun, rule)?;
        rows.push(row)?;
        place += 1;
    }
    Ok(begun)
}

/// Returns the rule table of `modules`.
pub fn table_of(alloc: Global, modules: &[Module]) -> Result<Table, Stop>
    ensures ok { IfOk result (λ t. IsTable t (modules_seen modules.now)) }
    ensures memory { IfErr result (λ s. s ≡ OutOfMemory) }
{
    let mut rows = Vec::new(alloc);
    let mut firsts = Vec::new(alloc);
    let mut blocks = 0;
    let mut from = 0;
    for module in modules {
        let first = rows.len() + 2;
        firsts.push(first as u32)?;
        let owner = Owner {
            number: from,
            label: &module.label,
        };
        blocks = push_rules(alloc, &mut rows, owner, blocks, &module.rules)?;
        from += 1;
    }
    Ok(Table { rows, firsts })
}

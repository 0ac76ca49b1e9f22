// The statements of one text, in order.
ghost use Rattle.std.specs.Prelude.{◌≡◌, ◌<◌, ◌^◌, ◌+◌, ◌++◌, map, OnOk, IfOk, true};
ghost use Rattle.std.specs.Prelude.{false};
ghost use Rattle.rpl_syntax.specs.Modules as S;
ghost use Rattle.rpl_scope.specs.Faults.{Gives, Checks};
ghost use Rattle.rpl_scope.specs.Seen.{module_seen, modules_seen, rule_seen, use_seen};
ghost use Rattle.rpl_scope.specs.Statements.{rule_of, rules_of, block_rules, enter_all, enter};
ghost use Rattle.rpl_scope.specs.Statements.{names_of, uses_of};
ghost use Rattle.rpl_scope.specs.Statements.{bindings_of, bodies_fault, statement, statements};

use crate::NoMemory;
use crate::bodies::{Use, push_names, push_uses};
use crate::checks::{check_macros, check_names};
use crate::enter::{enter, rules_so_far};
use crate::fault::Stop;
use crate::module::{Module, ModuleText, Rule};
use crate::scope::Scope;
use rpl_syntax::{Binding, Item, QName};
use rpl_text::Chars;
use std::alloc::Global;

/// A part of a statement: a single binding, or one half of a block.
#[derive(Clone, Copy)]
struct Part {
    /// The number of rules that the module has before the statement.
    start: usize,
    /// Whether the part is visible only in its own block.
    hidden: bool,
}

/// Returns the rule of a binding in text number `text`. Statements whose start is at least `since`
/// see the name of the rule.
fn rule_of(
    alloc: Global,
    text: usize,
    part: Part,
    since: usize,
    binding: &Binding,
) -> Result<Rule, NoMemory>
    ensures { IfOk result (λ r. rule_seen r
        ≡ rule_of text part.start since part.hidden (S.rule_of binding.now)) }
{
    Ok(Rule {
        name: binding.name.copy(alloc)?,
        text,
        at: binding.at,
        start: part.start,
        since,
        local: binding.local,
        alias: binding.alias,
        hidden: part.hidden,
        body: binding.body.copy(alloc)?,
    })
}

/// Adds the rules of one half of a block to the module. The names of these rules are visible in the
/// whole block.
fn enter_half(
    alloc: Global,
    own: &mut Module,
    text: ModuleText<'_>,
    half: Part,
    bindings: &[Binding],
) -> Result<(), Stop>
    ensures { Gives (λ _. module_seen own.new) result
        (enter_all text.entry.file.now
        (block_rules text.entry.number half.start half.hidden (S.rules_of bindings.now))
        (module_seen own.old)) }
{
    for binding in bindings {
        let rule = rule_of(alloc, text.number, half, half.start, binding)?;
        enter(alloc, own, text.file, rule)?;
    }
    Ok(())
}

/// Appends the names in bindings to `all`, from left to right.
fn gather_names<'a>(bindings: &'a [Binding], all: &mut Vec<&'a QName>) -> Result<(), NoMemory>
    ensures { OnOk result (map (λ q. q.now) all.new.items ≡ map (λ q. q.now) all.old.items
        ++ names_of (S.rules_of bindings.now)) }
{
    for binding in bindings {
        push_names(&binding.body, all)?;
    }
    Ok(())
}

/// Appends the uses of macros in bindings to `all`, from left to right.
fn gather_uses<'a>(bindings: &'a [Binding], all: &mut Vec<Use<'a>>) -> Result<(), NoMemory>
    ensures { OnOk result (map use_seen all.new.items ≡ map use_seen all.old.items
        ++ uses_of (S.rules_of bindings.now)) }
{
    for binding in bindings {
        push_uses(&binding.body, all)?;
    }
    Ok(())
}

/// Checks the names, and then the uses of macros, in the hidden and the visible bindings of a
/// statement.
fn check_bodies(
    alloc: Global,
    file: &Chars,
    scope: Scope<'_>,
    hidden: &[Binding],
    visible: &[Binding],
) -> Result<(), Stop>
    ensures { Checks result (bodies_fault file.now (modules_seen scope.entry.modules.now)
        scope.entry.start (S.rules_of hidden.now ++ S.rules_of visible.now)
        (module_seen scope.entry.own.now)) }
{
    let mut names = Vec::new(alloc);
    gather_names(hidden, &mut names)?;
    gather_names(visible, &mut names)?;
    check_names(alloc, file, scope, &names)?;
    let mut uses = Vec::new(alloc);
    gather_uses(hidden, &mut uses)?;
    gather_uses(visible, &mut uses)?;
    check_macros(alloc, file, &uses)
}

/// Adds the rules of a statement to the module, given the number of rules before the statement.
fn enter_rules(
    alloc: Global,
    own: &mut Module,
    text: ModuleText<'_>,
    start: usize,
    item: &Item,
) -> Result<(), Stop>
    requires { start < 2 ^ 63 }
    ensures { Gives (λ _. module_seen own.new) result
        (enter_all text.entry.file.now (rules_of text.entry.number start (S.entry_of item.now))
        (module_seen own.old)) }
{
    let seen = Part {
        start,
        hidden: false,
    };
    match item {
        Item::Binding(binding) => {
            let rule = rule_of(alloc, text.number, seen, start + 1, binding)?;
            enter(alloc, own, text.file, rule)
        }
        Item::Block { hidden, visible } => {
            let unseen = Part {
                start,
                hidden: true,
            };
            enter_half(alloc, own, text, unseen, hidden.as_slice())?;
            enter_half(alloc, own, text, seen, visible.as_slice())
        }
    }
}

/// Checks the names and then the uses of macros in a statement.
fn check_item(alloc: Global, file: &Chars, scope: Scope<'_>, item: &Item) -> Result<(), Stop>
    ensures { Checks result (bodies_fault file.now (modules_seen scope.entry.modules.now)
        scope.entry.start (bindings_of (S.entry_of item.now)) (module_seen scope.entry.own.now)) }
{
    match item {
        Item::Binding(binding) => {
            let alone = std::slice::from_ref(binding);
            check_bodies(alloc, file, scope, &[], alone)
        }
        Item::Block { hidden, visible } => {
            check_bodies(alloc, file, scope, hidden.as_slice(), visible.as_slice())
        }
    }
}

/// Adds the rules of a statement to the module, then checks the names in the statement, and then
/// its uses of macros.
fn enter_item(
    alloc: Global,
    modules: &[Module],
    own: &mut Module,
    text: ModuleText<'_>,
    item: &Item,
) -> Result<(), Stop>
    ensures { Gives (λ _. module_seen own.new) result
        (statement text.entry.file.now text.entry.number (modules_seen modules.now)
        (S.entry_of item.now) (module_seen own.old)) }
{
    let start = rules_so_far(own);
    enter_rules(alloc, own, text, start, item)?;
    let scope = Scope {
        modules,
        own,
        start,
    };
    check_item(alloc, text.file, scope, item)
}

/// Adds the statements of a text to the module, in order, and checks each of them.
#[inline(never)]
pub fn enter_items(
    alloc: Global,
    modules: &[Module],
    own: &mut Module,
    text: ModuleText<'_>,
    items: &[Item],
) -> Result<(), Stop>
    ensures { Gives (λ _. module_seen own.new) result
        (statements text.entry.file.now text.entry.number (modules_seen modules.now)
        (S.entries_of items.now) (module_seen own.old)) }
{
    for item in items {
        enter_item(alloc, modules, own, text, item)?;
    }
    Ok(())
}

// Adding rules to a module.
ghost use Rattle.std.specs.Prelude.{◌≡◌, ◌++◌, ◌∷◌, [], OnOk, length};
ghost use Rattle.rpl_scope.specs.Faults.{Gives, IsStop, fault_at};
ghost use Rattle.rpl_scope.specs.Seen.{module_seen, rule_seen};
ghost use Rattle.rpl_scope.specs.Statements.{enter};
ghost use Rattle.rpl_scope.specs.declared.fault.LoadKind.TheVariants.{Duplicate};

use crate::NoMemory;
use crate::fault::{LoadKind, Stop, fault_at};
use crate::module::{Entry, Module, Referent, Rule};
use rpl_text::Chars;
use std::alloc::Global;

/// Appends a rule.
fn push_rule(rules: &mut Vec<Rule>, rule: Rule) -> Result<(), NoMemory>
    ensures { OnOk result (rules.new.items ≡ rules.old.items ++ rule ∷ []) }
{
    rules.push(rule)?;
    Ok(())
}

/// Returns the number of rules that the module has so far. A name or prefix that is imported at
/// this point is visible only to statements that come after the rules counted here.
pub(crate) fn rules_so_far(own: &Module) -> usize
    ensures { result ≡ length (module_seen own.now).rules }
{
    own.rules.len()
}

/// Returns the fault for a rule whose name already exists in the module.
fn duplicate(alloc: Global, file: &Chars, rule: Rule) -> Stop
    ensures { IsStop result (fault_at file.now rule.at (Duplicate rule.name)) }
{
    let kind = LoadKind::Duplicate { name: rule.name };
    fault_at(alloc, file, rule.at, kind)
}

/// Appends a rule and its name to the module, unless the module already has that name.
#[tactic(auto, using(crate::proofs::Stops::told))]
pub fn enter(alloc: Global, own: &mut Module, file: &Chars, rule: Rule) -> Result<(), Stop>
    ensures { Gives (λ _. module_seen own.new) result
        (enter file.now (rule_seen rule) (module_seen own.old)) }
{
    if own.names.get(&rule.name).is_some() {
        return Err(duplicate(alloc, file, rule));
    }
    let number = rules_so_far(own);
    let entry = Entry {
        since: rule.since,
        local: rule.local,
        hidden: rule.hidden,
        referent: Referent::Own(number),
    };
    own.names.put(alloc, &rule.name, entry)?;
    push_rule(&mut own.rules, rule)?;
    Ok(())
}

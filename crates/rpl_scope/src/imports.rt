// The names and prefixes that imports add to a module.
ghost use Rattle.std.specs.Prelude.{◌≡◌, length, IfOk, OnErr, OnOk, IfErr, None, []};
ghost use Rattle.std.specs.Prelude.{ℕ, List, Ok, IsTrue, IsFalse, chars};
ghost use Rattle.std.specs.List.{IsDistinct};
ghost use Rattle.std.specs.Map.{keys_of};
ghost use Rattle.std.specs.Str.{bytes_eq};
ghost use Rattle.rpl_scope.specs.Faults.{Gives, in_turn};
ghost use Rattle.rpl_scope.specs.Imports.{last_part, add_prefix, with_prefix, add_name, numbered};
ghost use Rattle.rpl_scope.specs.Imports.{take_in};
ghost use Rattle.rpl_scope.specs.Imports.{is_same};
ghost use Rattle.rpl_scope.specs.Packages.{first_of};
ghost use Rattle.rpl_scope.specs.declared.fault.Stop.TheVariants.{Memory as OutOfMemory};
ghost use Rattle.rpl_scope.specs.Seen.{module_seen, modules_seen, rule_seen, rules_seen};
ghost use Rattle.rpl_scope.specs.Taken.{taken_names, taken_entry};

use crate::NoMemory;
use crate::enter::rules_so_far;
use crate::fault::{LoadKind, Place, Stop, fault_at};
use crate::module::{Entry, Module, Prefix, Referent, Rule};
use crate::named::Named;
use rpl_syntax::{Import, ImportAs};
use rpl_text::Chars;
use std::alloc::Global;

/// A loaded module: the one at index `number` in `modules`.
#[derive(Clone, Copy)]
pub struct Loaded<'a> {
    pub modules: &'a [Module],
    pub number: usize,
}

/// An imported rule: the number of the module that defines the rule, the rule's index in that
/// module, and the rule itself.
#[derive(Clone, Copy)]
struct Foreign<'a> {
    owner: usize,
    number: usize,
    rule: &'a Rule,
}

/// Returns the last part of a path: the text after its last `/`, or the whole path if it has no
/// `/`.
pub fn last_part(alloc: Global, path: &Chars) -> Result<Chars, NoMemory>
    ensures { IfOk result (λ last. last ≡ last_part [] path.now) }
{
    let mut last = String::new(alloc);
    for c in path.as_str().chars() {
        if c == '/' {
            last.clear();
        } else {
            last.push(c)?;
        }
    }
    Chars::from_str(alloc, &last)
}

/// Binds a prefix to a module. The prefix must not be bound yet.
pub fn put_prefix(
    alloc: Global,
    own: &mut Module,
    prefix: &Chars,
    number: usize,
) -> Result<(), Stop>
    requires { first_of prefix.now own.old.prefixes ≡ None }
    ensures ok { OnOk result (module_seen own.new
        ≡ with_prefix (module_seen own.old) prefix.now
        (record { since = length (module_seen own.old).rules; number = number })) }
    ensures err { IfErr result (λ s. s ≡ OutOfMemory) }
{
    let since = rules_so_far(own);
    own.prefixes.put(alloc, prefix, Prefix { since, number })?;
    Ok(())
}

/// Binds a prefix to a module. Returns a fault if the prefix is already bound to another module.
#[tactic(auto, using(crate::proofs::Stops::told))]
pub fn add_prefix(
    alloc: Global,
    own: &mut Module,
    place: Place<'_>,
    prefix: &Chars,
    number: usize,
) -> Result<(), Stop>
    ensures gives { Gives (λ _. module_seen own.new) result
        (add_prefix place.entry.file.now place.entry.at prefix.now number (module_seen own.old)) }
    ensures kept { OnErr result (module_seen own.new ≡ module_seen own.old) }
{
    match own.prefixes.get(prefix) {
        Some(there) => {
            if there.number == number {
                return Ok(());
            }
            let kind = LoadKind::Duplicate {
                name: prefix.copy(alloc)?,
            };
            Err(fault_at(alloc, place.file, place.at, kind))
        }
        None => {
            let since = rules_so_far(own);
            own.prefixes.put(alloc, prefix, Prefix { since, number })?;
            Ok(())
        }
    }
}

/// Returns whether `referent` is the rule at index `rule` of module number `number`.
fn is_same(referent: Referent, number: usize, rule: usize) -> bool
    ensures { result ≡ is_same referent number rule }
{
    match referent {
        Referent::Of {
            module: other,
            rule: place,
        } => other == number && place == rule,
        _ => false,
    }
}

/// Adds the name of another module's rule, unless the name is hidden from importers.
#[tactic(auto, using(crate::proofs::Stops::told))]
fn add_name(
    alloc: Global,
    own: &mut Module,
    place: Place<'_>,
    foreign: Foreign<'_>,
) -> Result<(), Stop>
    ensures { Gives (λ _. module_seen own.new) result
        (add_name place.entry.file.now place.entry.at foreign.entry.owner
        (foreign.entry.number, rule_seen foreign.entry.rule.now) (module_seen own.old)) }
{
    let Foreign {
        owner,
        number,
        rule,
    } = foreign;
    if rule.local || rule.hidden {
        return Ok(());
    }
    match own.names.get(&rule.name) {
        Some(there) => {
            if is_same(there.referent, owner, number) {
                return Ok(());
            }
            let kind = LoadKind::Duplicate {
                name: rule.name.copy(alloc)?,
            };
            Err(fault_at(alloc, place.file, place.at, kind))
        }
        None => {
            let entry = Entry {
                since: rules_so_far(own),
                local: false,
                hidden: false,
                referent: Referent::Of {
                    module: owner,
                    rule: number,
                },
            };
            own.names.put(alloc, &rule.name, entry)?;
            Ok(())
        }
    }
}

/// Adds the names of another module's rules, except those hidden from importers.
fn add_names(
    alloc: Global,
    own: &mut Module,
    place: Place<'_>,
    owner: usize,
    rules: &[Rule],
) -> Result<(), Stop>
    ensures { Gives (λ _. module_seen own.new) result
        (in_turn (add_name place.entry.file.now place.entry.at owner)
        (numbered 0 (rules_seen rules.now)) (module_seen own.old)) }
{
    let mut number = 0;
    for rule in rules {
        let foreign = Foreign {
            owner,
            number,
            rule,
        };
        add_name(alloc, own, place, foreign)?;
        number += 1;
    }
    Ok(())
}

/// Returns whether `name` and `entry` are the name and the entry that a module gets when it imports
/// the rule `foreign`. `since` is the number of rules in the importing module.
fn is_taken_name(name: &str, entry: Entry, since: usize, foreign: Foreign<'_>) -> bool
    ensures name { IsTrue result → chars name.now ≡ foreign.entry.rule.now.name }
    ensures entry { IsTrue result → entry
        ≡ taken_entry since foreign.entry.owner foreign.entry.number }
{
    name == foreign.rule.name.as_str()
        && entry.since == since
        && !entry.local
        && !entry.hidden
        && is_same(entry.referent, foreign.owner, foreign.number)
}

/// Returns whether `names` holds exactly the names and entries that a module gets when it imports
/// `rules` from the module `owner`. Before the import, the importing module has `since` rules and
/// no names.
fn are_taken_names(names: &Named<Entry>, since: usize, owner: usize, rules: &[Rule]) -> bool
    ensures taken { IsTrue result → names.now
        ≡ taken_names since owner (numbered 0 (rules_seen rules.now)) }
    ensures apart { IsDistinct bytes_eq (keys_of names.now) }
{
    let count = names.count();
    let mut next = 0;
    for (number, rule) in rules.iter().enumerate() {
        if rule.local || rule.hidden {
            continue;
        }
        let foreign = Foreign {
            owner,
            number,
            rule,
        };
        match names.at(next) {
            Some((name, entry)) if is_taken_name(name, entry, since, foreign) => next += 1,
            _ => return false,
        }
    }
    next == count
}

/// Lets `own` share the table of names that an earlier importer of `from` built. Changes nothing if
/// there is no such table, if the table does not hold exactly the names that `own` imports, or if
/// `own` cannot share the table. Returns whether `own` now shares the table.
fn share_names(own: &mut Module, owner: usize, from: &Module) -> Result<bool, NoMemory>
    ensures all { IfOk result (λ shared. IsTrue shared → (file : List ℕ) (at : ℕ)
        → in_turn (add_name file at owner) (numbered 0 (module_seen from.now).rules) (module_seen own.old)
        ≡ Ok (module_seen own.new)) }
    ensures none { IfOk result (λ shared. IsFalse shared → module_seen own.new ≡ module_seen own.old) }
{
    if let Some(names) = from.for_importers.get() {
        if are_taken_names(names, rules_so_far(own), owner, &from.rules) {
            return own.names.join(names);
        }
    }
    Ok(false)
}

/// Adds the names of another module's rules, except those hidden from importers. If `own` can share
/// another table, it shares the added names, so that they are in memory only once.
fn add_all(
    alloc: Global,
    own: &mut Module,
    place: Place<'_>,
    owner: usize,
    from: &Module,
) -> Result<(), Stop>
    ensures { Gives (λ _. module_seen own.new) result
        (in_turn (add_name place.entry.file.now place.entry.at owner)
        (numbered 0 (module_seen from.now).rules) (module_seen own.old)) }
{
    if !own.names.may_share() {
        return add_names(alloc, own, place, owner, &from.rules);
    }
    if share_names(own, owner, from)? {
        return Ok(());
    }
    let since = rules_so_far(own);
    add_names(alloc, own, place, owner, &from.rules)?;
    if let Some(names) = own.names.share(alloc)? {
        // Other importers can share the table if no name was left out. If `from` already has a
        // table, that table is kept.
        if are_taken_names(&names, since, owner, &from.rules) {
            let _ = from.for_importers.set(names);
        }
    }
    Ok(())
}

/// Adds the prefix or the names that an import in `file` brings in from a loaded module.
#[inline(never)]
pub fn take_in(
    alloc: Global,
    own: &mut Module,
    file: &Chars,
    import: &Import,
    from: Loaded<'_>,
) -> Result<(), Stop>
    ensures { Gives (λ _. module_seen own.new) result
        (take_in file.now import.now from.entry.number (modules_seen from.entry.modules.now)
        (module_seen own.old)) }
{
    let place = Place {
        file,
        at: import.at,
    };
    match &import.name {
        ImportAs::Last => {
            let prefix = last_part(alloc, &import.path)?;
            add_prefix(alloc, own, place, &prefix, from.number)
        }
        ImportAs::Named(prefix) => add_prefix(alloc, own, place, prefix, from.number),
        ImportAs::Plain => match from.modules.get(from.number) {
            Some(module) => add_all(alloc, own, place, from.number, module),
            None => Ok(()),
        },
    }
}

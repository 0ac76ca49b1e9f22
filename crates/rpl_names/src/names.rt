// The names that a pattern may use.
ghost use Rattle.std.specs.Prelude.{◌≡◌, ◌≢◌, ◌++◌, [], false, Some, chars, IfOk, IsTrue, OnOk};
ghost use Rattle.std.specs.Prelude.{slice_get};
ghost use Rattle.rpl_names.specs.Names.{by_bytes};
ghost use Rattle.rpl_names.specs.Targets.{binds};
ghost use Rattle.rpl_names.specs.Views.{text_found};

use crate::resolve::binds;
use crate::set::PackageSet;
use rpl_list::List;
use rpl_scope::{Entry, Module, NoMemory, written};
use rpl_syntax::QName;
use rpl_text::Chars;
use std::alloc::Global;
use std::cmp::Ordering;

/// A name that a pattern may use.
#[derive(Debug, Drop)]
pub struct Listed {
    /// The name as it is written in a pattern: `prefix.name`, or only the name if it has no prefix.
    pub name: Chars,
    /// The type of the nodes that the named rule makes, or `None` if the rule makes no nodes.
    pub label: Option<Chars>,
}

/// A list of names that a pattern may use.
pub type Names = List<Listed>;

fn by_bytes(a: &Listed, b: &Listed) -> Ordering
    ensures { result ≡ by_bytes a.now b.now }
{
    a.name.as_str().cmp(b.name.as_str())
}

/// Copies a prefix, if there is one.
fn copied(alloc: Global, prefix: Option<&str>) -> Result<Option<Chars>, NoMemory>
    ensures { IfOk result (λ copy. copy ≡ text_found prefix.entry) }
{
    match prefix {
        None => Ok(None),
        Some(prefix) => Ok(Some(Chars::from_str(alloc, prefix)?)),
    }
}

/// Returns whether the module bound to `prefix` imported the name that `entry` belongs to. A module
/// does not pass on imported names to its own importers. Returns `false` for an empty prefix, which
/// no text can spell.
fn is_taken_in(prefix: &str, entry: Entry) -> bool
    ensures full { IsTrue result → chars prefix.now ≢ [] }
    ensures foreign { IsTrue result → binds (Some entry) ≡ false }
{
    !prefix.is_empty() && !binds(Some(entry))
}

impl PackageSet {
    ghost use Rattle.std.specs.Prelude.{None};
    ghost use Rattle.std.specs.List.{flat_map};
    ghost use Rattle.std.specs.List.Sorted.{IsPermutation, IsSorted};
    ghost use Rattle.rpl_scope.specs.Seen.{module_seen};
    ghost use Rattle.rpl_names.specs.Names.{all_listed, known_in, label, listed, names_of};
    ghost use Rattle.rpl_names.specs.Sets.{set_seen};
    ghost use Rattle.rpl_names.specs.inside.Listing.{named, IsUnder};

    /// Returns the type of a rule's nodes, which is the rule's full name in the rule table, or
    /// `None` if the rule makes no nodes.
    pub(crate) fn label(&self, alloc: Global, rule: u32) -> Result<Option<Chars>, NoMemory>
        ensures { IfOk result (λ text. text ≡ label (set_seen self.now) rule) }
    {
        let Some(head) = self.rule(rule) else {
            return Ok(None);
        };
        match self.full_name(rule) {
            Some(name) if head.captures => Ok(Some(name.copy(alloc)?)),
            _ => Ok(None),
        }
    }

    /// If a name other than `~` resolves to a rule, appends the name and its label.
    fn push_listed(
        &self,
        alloc: Global,
        names: &mut Vec<Listed>,
        name: &QName,
    ) -> Result<(), NoMemory>
        ensures { OnOk result (names.new.items ≡ names.old.items
            ++ listed (set_seen self.now) name.now) }
    {
        if name.name.as_str() == "~" {
            return Ok(());
        }
        match self.resolve(None, name) {
            Err(_) => Ok(()),
            Ok(target) => {
                let label = self.label(alloc, target.rule)?;
                let name = written(alloc, name)?;
                names.push(Listed { name, label })?;
                Ok(())
            }
        }
    }

    /// If a name other than `~`, with or without a prefix, resolves to a rule, appends the name and
    /// its label.
    fn push_name(
        &self,
        alloc: Global,
        names: &mut Vec<Listed>,
        prefix: Option<&str>,
        name: &str,
    ) -> Result<(), NoMemory>
        ensures { OnOk result (names.new.items ≡ names.old.items
            ++ listed (set_seen self.now) (named (text_found prefix.entry) (chars name.now))) }
    {
        let name = QName {
            prefix: copied(alloc, prefix)?,
            name: Chars::from_str(alloc, name)?,
            at: 0,
        };
        self.push_listed(alloc, names, &name)
    }

    /// Appends the names of the top module.
    pub(crate) fn push_own(
        &self,
        alloc: Global,
        names: &mut Vec<Listed>,
        own: &Module,
    ) -> Result<(), NoMemory>
        ensures { OnOk result (names.new.items ≡ names.old.items
            ++ flat_map (listed (set_seen self.now)) (names_of None (Some (module_seen own.now)))) }
    {
        for number in 0..own.names.len() {
            let Some((name, _)) = own.names.at(number) else {
                return Ok(());
            };
            self.push_name(alloc, names, None, name)?;
        }
        Ok(())
    }

    /// Appends the names of the module bound to a prefix. Skips the names that the module imported,
    /// of which there can be many, because they are not passed on to the module's importers.
    fn push_behind(
        &self,
        alloc: Global,
        names: &mut Vec<Listed>,
        prefix: &str,
        number: usize,
    ) -> Result<(), NoMemory>
        requires { IsUnder (set_seen self.now) (chars prefix.now) number }
        ensures { OnOk result (names.new.items ≡ names.old.items
            ++ flat_map (listed (set_seen self.now)) (names_of (Some (chars prefix.now))
            (slice_get (set_seen self.now).stock.modules number))) }
    {
        let Some(from) = self.stock.modules.get(number) else {
            return Ok(());
        };
        for place in 0..from.names.len() {
            let Some((name, entry)) = from.names.at(place) else {
                return Ok(());
            };
            if is_taken_in(prefix, entry) {
                continue;
            }
            self.push_name(alloc, names, Some(prefix), name)?;
        }
        Ok(())
    }

    /// Appends the names of the top module, and the names of the modules bound to its prefixes.
    fn push_all(&self, alloc: Global, names: &mut Vec<Listed>, own: &Module) -> Result<(), NoMemory>
        requires { slice_get (set_seen self.now).stock.modules self.now.top
            ≡ Some (module_seen own.now) }
        ensures { OnOk result (names.new.items ≡ names.old.items
            ++ flat_map (listed (set_seen self.now))
            (known_in (set_seen self.now).stock.modules (Some (module_seen own.now)))) }
    {
        self.push_own(alloc, names, own)?;
        for number in 0..own.prefixes.len() {
            let Some((prefix, under)) = own.prefixes.at(number) else {
                return Ok(());
            };
            self.push_behind(alloc, names, prefix, under.number)?;
        }
        Ok(())
    }

    /// Returns every name that a pattern may use, sorted by bytes. These are the names of the top
    /// module that are visible after its last statement. They also include, for each prefix of that
    /// module, every name that the prefix's module offers to its importers, written after the
    /// prefix.
    pub fn names(&self, alloc: Global) -> Result<Names, NoMemory>
        ensures members { IfOk result (λ names. IsPermutation (all_listed (set_seen self.now))
            names) }
        ensures order { IfOk result (λ names. IsSorted by_bytes names) }
    {
        let mut names = Vec::new(alloc);
        if let Some(own) = self.stock.modules.get(self.top) {
            self.push_all(alloc, &mut names, own)?;
        }
        names.sort_by(by_bytes)?;
        Ok(List::from_vec(names))
    }
}

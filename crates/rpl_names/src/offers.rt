// The names that a pattern may use, in parts: those of the top module, its prefixes, and the names
// that each module offers to its importers.
ghost use Rattle.std.specs.Prelude.{◌≡◌, ◌≢◌, [], chars, IsTrue};
ghost use Rattle.rpl_scope.specs.Packages as P;

use crate::names::{Listed, Names};
use crate::resolve::target_of;
use crate::set::PackageSet;
use rpl_list::List;
use rpl_scope::{Entry, Found, Module, NoMemory, Referent};
use rpl_text::Chars;
use std::alloc::Global;

/// Returns what a name resolves to for the importers of a module, given the name's entry in that
/// module.
fn found_by(number: usize, entry: Entry) -> Found
    ensures { result ≡ P.offered number entry entry.referent }
{
    match entry.referent {
        Referent::Own(rule) => {
            if entry.local || entry.hidden {
                return Found::Hidden;
            }
            Found::To(Referent::Of {
                module: number,
                rule,
            })
        }
        _ => Found::Unknown,
    }
}

/// Returns whether a text can spell `prefix`. No text can spell the empty prefix.
fn is_spelled(prefix: &str) -> bool
    ensures { IsTrue result → chars prefix.now ≢ [] }
{
    !prefix.is_empty()
}

impl PackageSet {
    ghost use Rattle.std.specs.Prelude.{◌++◌, ◌≤◌, Some, chars, length, slice_get};
    ghost use Rattle.std.specs.Prelude.{IfOk, OnOk, MatchOption};
    ghost use Rattle.rpl_scope.specs.Packages as P;
    ghost use Rattle.rpl_scope.specs.Seen.{module_seen};
    ghost use Rattle.rpl_names.specs.Names.{StandsUnder, offered_as, offered_in, offers};
    ghost use Rattle.rpl_names.specs.Names.{own_listed, prefixes};
    ghost use Rattle.rpl_names.specs.Sets.{set_seen};

    /// Returns the names of the top module that are visible after its last statement, in the order
    /// of their definitions.
    pub fn own_names(&self, alloc: Global) -> Result<Names, NoMemory>
        ensures { IfOk result (λ names. names ≡ own_listed (set_seen self.now)) }
    {
        let mut names = Vec::new(alloc);
        if let Some(own) = self.stock.modules.get(self.top) {
            self.push_own(alloc, &mut names, own)?;
        }
        Ok(List::from_vec(names))
    }

    /// Returns the number of prefixes of the top module.
    pub fn prefix_count(&self) -> usize
        ensures { result ≡ length (prefixes (set_seen self.now)) }
    {
        match self.stock.modules.get(self.top) {
            None => 0,
            Some(own) => own.prefixes.len(),
        }
    }

    /// Returns the prefix of the top module at index `place`, counted from 0, and the number of the
    /// module whose offered names a pattern may use with the prefix (see `offered`). The number is
    /// `None` if the prefix is not visible in the pattern. Returns `None` if and only if `place` is
    /// out of range.
    pub fn prefix(&self, place: usize) -> Option<(&str, Option<usize>)>
        ensures { MatchOption result (length (prefixes (set_seen self.now)) ≤ place)
            (λ u. StandsUnder (set_seen self.now) place (chars u.0.now) u.1) }
    {
        let Some(own) = self.stock.modules.get(self.top) else {
            return None;
        };
        let Some((prefix, under)) = own.prefixes.at(place) else {
            return None;
        };
        if is_spelled(prefix) && under.since <= own.rules.len() {
            return Some((prefix, Some(under.number)));
        }
        Some((prefix, None))
    }

    /// If a name other than `~` resolves to a rule when importers use the name, appends the name
    /// and its label.
    fn push_offered(
        &self,
        alloc: Global,
        names: &mut Vec<Listed>,
        name: &str,
        found: Found,
    ) -> Result<(), NoMemory>
        ensures { OnOk result (names.new.items ≡ names.old.items
            ++ offered_as (set_seen self.now) (chars name.now) found) }
    {
        if name == "~" {
            return Ok(());
        }
        match target_of(&self.stock.modules, &self.table, self.top, found) {
            Err(_) => Ok(()),
            Ok(target) => {
                let label = self.label(alloc, target.rule)?;
                let name = Chars::from_str(alloc, name)?;
                names.push(Listed { name, label })?;
                Ok(())
            }
        }
    }

    /// Appends the names that a module offers to its importers.
    fn push_offers(
        &self,
        alloc: Global,
        names: &mut Vec<Listed>,
        from: &Module,
        number: usize,
    ) -> Result<(), NoMemory>
        requires { slice_get (set_seen self.now).stock.modules number
            ≡ Some (module_seen from.now) }
        ensures { OnOk result (names.new.items ≡ names.old.items
            ++ offered_in (set_seen self.now) number (Some (module_seen from.now))) }
    {
        for place in 0..from.names.len() {
            let Some((name, entry)) = from.names.at(place) else {
                return Ok(());
            };
            self.push_offered(alloc, names, name, found_by(number, entry))?;
        }
        Ok(())
    }

    /// Returns the names that a module offers to its importers, without a prefix, in the order of
    /// their definitions.
    pub fn offered(&self, alloc: Global, number: usize) -> Result<Names, NoMemory>
        ensures { IfOk result (λ names. names ≡ offers (set_seen self.now) number) }
    {
        let mut names = Vec::new(alloc);
        if let Some(from) = self.stock.modules.get(number) {
            self.push_offers(alloc, &mut names, from, number)?;
        }
        Ok(List::from_vec(names))
    }
}

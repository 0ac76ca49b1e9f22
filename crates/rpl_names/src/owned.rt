// The modules and roots of packages, and the names that a module itself binds.
ghost use Rattle.std.specs.Prelude.{◌≡◌, ◌<◌, IfSome, length};
ghost use Rattle.rpl_scope.specs.Seen.{modules_seen};
ghost use Rattle.rpl_names.specs.Owned as O;
ghost use Rattle.rpl_names.specs.Numbering.{IsTable};

use crate::resolve::target_in;
use crate::set::PackageSet;
use crate::table::Table;
use crate::targets::Target;
use rpl_scope::{Entry, Module, Referent};

/// Returns the target of an entry in a module, if one of the module's statements created the entry
/// and the entry is not hidden.
fn own_entry(modules: &[Module], table: &Table, number: usize, entry: Entry) -> Option<Target>
    requires { IsTable table.now (modules_seen modules.now) }
    ensures { result ≡ O.own_entry (modules_seen modules.now) number entry }
{
    if entry.hidden {
        return None;
    }
    match entry.referent {
        Referent::Own(place) => match target_in(modules, table, number, place) {
            Ok(target) => Some(target),
            Err(_) => None,
        },
        _ => None,
    }
}

impl PackageSet {
    ghost use Rattle.std.specs.Prelude.{chars};
    ghost use Rattle.rpl_names.specs.Owned as O;
    ghost use Rattle.rpl_names.specs.Sets.{set_seen};
    ghost use Rattle.rpl_names.specs.Views.{text_found};

    /// Returns the number of the module that a root belongs to. `root` is the number of the root,
    /// counted from 0. Returns `None` if and only if there is no root with this number.
    pub fn root_module(&self, root: usize) -> Option<usize>
        ensures gives { result ≡ O.root_module (set_seen self.now) root }
        ensures within { IfSome result (λ n. n < length (set_seen self.now).stock.modules) }
    {
        match self.roots.get(root) {
            None => None,
            Some(None) => Some(self.top),
            Some(Some(number)) => Some(*number),
        }
    }

    /// Returns the package name of a module, which is empty for the top module. Returns `None` if
    /// and only if there is no module with this number.
    pub fn package(&self, number: usize) -> Option<&str>
        ensures { text_found result ≡ O.package_name (set_seen self.now) number }
    {
        match self.stock.modules.get(number) {
            None => None,
            Some(from) => Some(from.label.as_str()),
        }
    }

    /// Returns the target of a name that a statement in module number `number` binds, whether or
    /// not the name is `local`. Returns `None` if and only if no statement in the module binds the
    /// name or the name belongs to a hidden rule.
    pub fn own(&self, number: usize, name: &str) -> Option<Target>
        ensures { result ≡ O.own (set_seen self.now) number (chars name.now) }
    {
        match self.stock.modules.get(number) {
            None => None,
            Some(from) => match from.names.get_text(name) {
                None => None,
                Some(entry) => own_entry(&self.stock.modules, &self.table, number, entry),
            },
        }
    }
}

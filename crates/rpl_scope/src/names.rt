// The names of a module: first those in tables that other modules may share, then the module's own.
ghost use Rattle.std.specs.Prelude.{◌≡◌, ◌++◌, ◌∷◌, ◌+◌, ◌≤◌, ◌^◌, Some, None, [], OnErr, OnOk};
ghost use Rattle.std.specs.Prelude.{IfOk, IfSome, IsTrue, chars, if◌then◌else◌, length, slice_get};
ghost use Rattle.std.specs.List.{IsDistinct};
ghost use Rattle.std.specs.Map.{keys_of};
ghost use Rattle.std.specs.Str.{bytes_eq};
ghost use Rattle.rpl_scope.specs.Packages.{first_of};
ghost use Rattle.rpl_scope.specs.Pairs.{pair_found};
ghost use Rattle.rpl_scope.specs.inside.Held.{AreDisjoint, held};

use crate::NoMemory;
use crate::module::Entry;
use crate::named::Named;
use rpl_text::Chars;
use std::alloc::Global;
use std::marker::Model;
use std::mem;
use std::rc::Rc;

// The largest number of tables that a module shares. The limit is low, since a lookup searches each
// table.
const MOST_SHARED: usize = 8;

// The largest number of names in the shared tables. With this limit, adding the number of the
// module's own names does not overflow.
const MOST_NAMES: usize = 1 << 62;

/// Names that are in memory only once, however many modules share them.
pub type SharedNames = Rc<Named<Entry>>;

/// The names of a module with their entries. Contracts see the names as a list of pairs.
///
/// No name occurs twice. Modules that import the names of another module may share one table of
/// these names. The names in shared tables come first, and then the module's own.
#[derive(Drop)]
pub struct ModuleNames {
    shared: Vec<SharedNames>,
    own: Named<Entry>,
}

impl Model for ModuleNames {
    ghost use Rattle.std.specs.Prelude.{◌++◌, ℕ, List};
    ghost use Rattle.rpl_scope.specs.declared.module.Entry.{Entry};
    ghost use Rattle.rpl_scope.specs.inside.Held.{AreNames, held};

    ghost Value = { List (List ℕ × Entry) };

    ghost view = { λ n. held n.shared.items ++ n.own };

    ghost invariant = { λ n. AreNames n.shared.items n.own };
}

impl ModuleNames {
    /// Returns an empty list of names.
    pub fn new(alloc: Global) -> ModuleNames
        ensures { result ≡ [] }
    {
        ModuleNames {
            shared: Vec::new(alloc),
            own: Named::new(alloc),
        }
    }

    /// Returns whether the module can share another table, that is, whether it has no names of its
    /// own yet and shares fewer than the maximum number of tables.
    pub(crate) fn may_share(&self) -> bool {
        self.own.len() == 0 && self.shared.len() < MOST_SHARED
    }

    /// Adds a shared table, and returns whether it was added. The table is added only if the module
    /// has no names of its own yet, there is room for another table, and the module has none of the
    /// table's names yet. A table is not added if its reference count would overflow. If memory
    /// runs out, nothing changes.
    pub(crate) fn join(&mut self, names: &SharedNames) -> Result<bool, NoMemory>
        ensures ok { IfOk result (λ joined. self.new
            ≡ (if joined then self.old ++ names.now.value else self.old)) }
        ensures err { OnErr result (self.new ≡ self.old) }
        ensures apart { IsDistinct bytes_eq (keys_of self.new) }
    {
        let tables = self.shared.as_slice();
        if self.own.len() > 0 || !has_room(tables, names) || !have_none_of(tables, names) {
            return Ok(false);
        }
        let Ok(copy) = names.clone() else {
            return Ok(false);
        };
        self.shared.push(copy)?;
        Ok(true)
    }

    /// Turns the module's own names into a table for other modules to share. Returns `None` if the
    /// module has no names of its own, if there is no room for another table, or if the table's
    /// reference count would overflow. The module's names do not change, even if memory runs out.
    pub(crate) fn share(&mut self, alloc: Global) -> Result<Option<SharedNames>, NoMemory>
        ensures { self.new ≡ self.old }
    {
        if self.own.len() == 0 || !has_room(self.shared.as_slice(), &self.own) {
            return Ok(None);
        }
        self.shared.reserve(1)?;
        let own = mem::replace(&mut self.own, Named::new(alloc));
        match Rc::new(alloc, own) {
            Ok(shared) => {
                let copy: Result<SharedNames, _> = shared.clone();
                self.shared.push_reserved(shared);
                Ok(copy.ok())
            }
            Err(failed) => {
                self.own = failed.value;
                Err(NoMemory)
            }
        }
    }

    /// Returns the entry of a name given as a string slice.
    pub fn get_text(&self, name: &str) -> Option<Entry>
        ensures { result ≡ first_of (chars name.now) self.now }
    {
        match get_in(self.shared.as_slice(), name) {
            Some(entry) => Some(entry),
            None => self.own.get_text(name),
        }
    }

    /// Returns the entry of a name.
    pub fn get(&self, name: &Chars) -> Option<Entry>
        ensures { result ≡ first_of name.now self.now }
    {
        self.get_text(name.as_str())
    }

    /// Returns the number of names.
    pub fn len(&self) -> usize
        ensures { result ≡ length self.now }
    {
        count_in(self.shared.as_slice()) + self.own.count()
    }

    /// Returns the name at an index, counted from 0, and its entry. Returns `None` if and only if
    /// the index is out of range.
    pub fn at(&self, number: usize) -> Option<(&str, Entry)>
        ensures is { pair_found result ≡ slice_get self.now number }
        ensures first { IfSome result (λ p. first_of (chars p.0.now) self.now ≡ Some p.1) }
    {
        let tables = self.shared.as_slice();
        match at_in(tables, number) {
            Some(pair) => Some(pair),
            None => self.own.at(number - count_in(tables)),
        }
    }

    /// Appends a name. If memory runs out, nothing changes.
    pub fn put(&mut self, alloc: Global, name: &Chars, entry: Entry) -> Result<(), NoMemory>
        requires { first_of name.now self.old ≡ None }
        ensures ok { OnOk result (self.new ≡ self.old ++ (name.now, entry) ∷ []) }
        ensures err { OnErr result (self.new ≡ self.old) }
    {
        self.own.put(alloc, name, entry)
    }
}

// Returns the entry of a name in `tables`.
fn get_in(tables: &[SharedNames], name: &str) -> Option<Entry>
    ensures { result ≡ first_of (chars name.now) (held tables.now) }
{
    for table in tables {
        if let Some(entry) = table.get_text(name) {
            return Some(entry);
        }
    }
    None
}

// Returns the number of names in `tables`.
fn count_in(tables: &[SharedNames]) -> usize
    requires { length (held tables.now) ≤ 2 ^ 62 }
    ensures { result ≡ length (held tables.now) }
{
    let mut count = 0;
    for table in tables {
        count += table.len();
    }
    count
}

// Returns the name at index `number` in `tables`, and the name's entry.
fn at_in(tables: &[SharedNames], number: usize) -> Option<(&str, Entry)>
    ensures { pair_found result ≡ slice_get (held tables.now) number }
{
    let mut left = number;
    for table in tables {
        match table.at(left) {
            Some(pair) => return Some(pair),
            None => left -= table.len(),
        }
    }
    None
}

// Returns whether there is room for one more table, which contains `names`.
fn has_room(tables: &[SharedNames], names: &Named<Entry>) -> bool
    requires { length (held tables.now) ≤ 2 ^ 62 }
    ensures { IsTrue result → length (held tables.now) + length names.now ≤ 2 ^ 62 }
{
    tables.len() < MOST_SHARED && count_in(tables) + names.count() <= MOST_NAMES
}

// Returns whether none of `names` is in `tables`. The contract adds that no name occurs twice.
fn have_none_of(tables: &[SharedNames], names: &Named<Entry>) -> bool
    ensures disjoint { IsTrue result → AreDisjoint (held tables.now) names.now }
    ensures apart { IsDistinct bytes_eq (keys_of names.now) }
{
    let count = names.count();
    for table in tables {
        // Look up each name of the smaller table in the larger one.
        let is_apart = if table.len() < count {
            has_none_of(names, table)
        } else {
            has_none_of(table, names)
        };
        if !is_apart {
            return false;
        }
    }
    true
}

// Returns whether the two tables have no name in common.
fn has_none_of(names: &Named<Entry>, others: &Named<Entry>) -> bool
    ensures { IsTrue result → AreDisjoint names.now others.now }
{
    for number in 0..others.len() {
        match others.at(number) {
            Some((name, _)) if names.get_text(name).is_none() => {}
            _ => return false,
        }
    }
    true
}

// A map from names to values that keeps the order of insertion.
ghost use Rattle.std.specs.Prelude.{◌≡◌, ◌<◌, ◌-◌, ◌^◌, ℕ, List, Some, None, [], ◌∷◌, ◌++◌, OnErr, OnOk};
ghost use Rattle.std.specs.Prelude.{IfSome, chars, length, take, slice_get};
ghost use Rattle.std.specs.List.{IsDistinct};
ghost use Rattle.std.specs.Map.{keys_of};
ghost use Rattle.std.specs.Str.{bytes_eq};
ghost use Rattle.rpl_scope.specs.Packages.{added, first_of};
ghost use Rattle.rpl_scope.specs.Pairs.{pair_found};
ghost use Rattle.rpl_scope.specs.inside.Numbers.{Finds, hash, value_at};

use crate::NoMemory;
use rpl_text::Chars;
use std::alloc::Global;
use std::collections::BTreeMap;
use std::hash::{FoldHasher, Hasher};
use std::marker::Model;

/// Names with their values. Contracts see the map as a list of pairs.
#[derive(Drop)]
pub struct Named<V: Copy> {
    pairs: Vec<(Chars, V)>,

    // A name's index is stored under its hash, or under the name itself if another name has the
    // same hash. Both are ordered maps, so no choice of names makes a lookup slow.
    hashes: BTreeMap<u64, usize>,
    others: BTreeMap<String, usize>,
}

impl<V: Copy> Model for Named<V> {
    ghost use Rattle.std.specs.Prelude.{ℕ, List};
    ghost use Rattle.rpl_scope.specs.inside.Numbers.{IsNumbered};

    ghost Value = { List (List ℕ × V) };

    ghost view = { λ n. n.pairs.items };

    ghost invariant = { λ n. IsNumbered n.pairs.items n.hashes n.others };
}

impl<V: Copy> Named<V> {
    /// Returns an empty map.
    pub fn new(alloc: Global) -> Named<V>
        ensures { result ≡ [] }
    {
        Named {
            pairs: Vec::new(alloc),
            hashes: BTreeMap::new(alloc),
            others: BTreeMap::new(alloc),
        }
    }

    /// Returns the value of a name given as a string slice.
    pub fn get_text(&self, name: &str) -> Option<V>
        ensures { result ≡ first_of (chars name.now) self.now }
    {
        let pairs = self.pairs.as_slice();
        let by_hash = self.hashes.get(&hash_of(name)).copied();
        match value_at(pairs, by_hash, name) {
            Some(value) => Some(value),
            None => value_at(pairs, self.others.get(name).copied(), name),
        }
    }

    /// Returns the value of a name.
    pub fn get(&self, name: &Chars) -> Option<V>
        ensures { result ≡ first_of name.now self.now }
    {
        self.get_text(name.as_str())
    }

    /// Keeps only the first `count` names.
    pub fn truncate(&mut self, count: usize)
        ensures { self.new ≡ take count self.old }
    {
        while self.len() > count {
            self.take_last();
        }
    }

    // Removes the last name.
    fn take_last(&mut self)
        ensures { self.new ≡ take (length self.old - 1) self.old }
    {
        if let Some((name, _)) = self.pairs.pop() {
            let number = self.pairs.len();
            forget(&mut self.hashes, &mut self.others, name.as_str(), number);
        }
    }

    /// Returns the number of names.
    pub fn len(&self) -> usize
        ensures { result ≡ length self.now }
    {
        self.pairs.len()
    }

    /// Returns the number of names. The contract adds that no name occurs twice.
    pub(crate) fn count(&self) -> usize
        ensures is { result ≡ length self.now }
        ensures few { result < 2 ^ 63 }
        ensures apart { IsDistinct bytes_eq (keys_of self.now) }
    {
        self.pairs.len()
    }

    /// Returns the name at an index, counted from 0, and its value. Returns `None` if and only if
    /// the index is out of range.
    pub fn at(&self, number: usize) -> Option<(&str, V)>
        ensures is { pair_found result ≡ slice_get self.now number }
        ensures first { IfSome result (λ p. first_of (chars p.0.now) self.now ≡ Some p.1) }
    {
        match self.pairs.get(number) {
            Some((name, value)) => Some((name.as_str(), *value)),
            None => None,
        }
    }

    /// Appends a name and its value. If memory runs out, the map is unchanged.
    pub fn put(&mut self, alloc: Global, name: &Chars, value: V) -> Result<(), NoMemory>
        requires { first_of name.now self.old ≡ None }
        ensures ok { OnOk result (self.new ≡ self.old ++ (name.now, value) ∷ []) }
        ensures err { OnErr result (self.new ≡ self.old) }
    {
        let label = name.copy(alloc)?;
        let number = self.pairs.len();
        self.pairs.reserve(1)?;
        note(
            alloc,
            &mut self.hashes,
            &mut self.others,
            name.as_str(),
            number,
        )?;
        self.pairs.push_reserved((label, value));
        Ok(())
    }

    /// Appends a name and its value, unless the map already contains the name. If memory runs out,
    /// the map is unchanged.
    pub fn add(&mut self, alloc: Global, name: &Chars, value: V) -> Result<(), NoMemory>
        ensures ok { OnOk result (self.new ≡ added name.now value self.old) }
        ensures err { OnErr result (self.new ≡ self.old) }
    {
        match self.get(name) {
            Some(_) => Ok(()),
            None => self.put(alloc, name, value),
        }
    }
}

fn hash_of(text: &str) -> u64
    ensures { result ≡ hash text.now }
{
    let mut hasher = FoldHasher::default();
    hasher.write(text.as_bytes());
    hasher.finish()
}

// Returns the value at index `number`, if that is the index of `name`.
fn value_at<V: Copy>(pairs: &[(Chars, V)], number: Option<usize>, name: &str) -> Option<V>
    ensures { result ≡ value_at (chars name.now) number pairs.now }
{
    let Some(number) = number else {
        return None;
    };
    match pairs.get(number) {
        Some((text, value)) if name == text.as_str() => Some(*value),
        _ => None,
    }
}

// Stores the index of a name. The indices of other names are kept, even if memory runs out.
fn note(
    alloc: Global,
    hashes: &mut BTreeMap<u64, usize>,
    others: &mut BTreeMap<String, usize>,
    name: &str,
    number: usize,
) -> Result<(), NoMemory>
    ensures noted { OnOk result (Finds hashes.new others.new name.now number) }
    ensures kept { (bs : List ℕ) (i : ℕ) → ¬ (bs ≡ name.now)
        → Finds hashes.old others.old bs i → Finds hashes.new others.new bs i }
{
    let hash = hash_of(name);
    let Some(earlier) = hashes.insert(hash, number)? else {
        return Ok(());
    };
    // Another name already has this hash and keeps it. Putting that name's index back cannot fail.
    let _ = hashes.insert(hash, earlier);
    others.insert(String::from_str(alloc, name)?, number)?;
    Ok(())
}

// Removes the index of a name, if that index is `number`. Other indices are kept.
fn forget(
    hashes: &mut BTreeMap<u64, usize>,
    others: &mut BTreeMap<String, usize>,
    name: &str,
    number: usize,
)
    ensures gone { ¬ Finds hashes.new others.new name.now number }
    ensures kept { (bs : List ℕ) (i : ℕ) → ¬ (i ≡ number)
        → Finds hashes.old others.old bs i → Finds hashes.new others.new bs i }
{
    let hash = hash_of(name);
    if hashes.get(&hash).copied() == Some(number) {
        hashes.remove(&hash);
    }
    if others.get(name).copied() == Some(number) {
        others.remove(name);
    }
}

// A set of characters: its ranges, which copies share, and two masks to test ASCII characters.
ghost use Rattle.std.specs.Prelude.{◌≡◌, ℕ, ◌<◌, ◌≤◌, ◌||◌, ◌&&◌, ◌↔◌, [], ◌∷◌, ◌++◌, not, nat_eq};
ghost use Rattle.std.specs.Prelude.{nat_le, IfOk};
ghost use Rattle.std.specs.Prelude.{IfSome, OnOk, IsTrue, chars, true, false};
ghost use Rattle.std.specs.Option.{option_map};
ghost use Rattle.regex_class.specs.Ranges.{in_ranges};
ghost use Rattle.rpl_text.specs.Masks.{IsMarked};
ghost use Rattle.rpl_unicode.specs.Named.{members};
ghost use Rattle.rpl_unicode.specs.Folding.{folds_with};
ghost use Rattle.rpl_classes.specs.Sets.{IsNormal, HasJust};
ghost use Rattle.rpl_classes.specs.Norm.{norm};
ghost use Rattle.rpl_classes.specs.Algebra.{both, others, without, set_of, other_case, widened};
ghost use Rattle.rpl_classes.specs.Algebra.{folded};
ghost use Rattle.rpl_classes.specs.Classes.{test_named, set_named};
ghost use Rattle.rpl_classes.specs.Faults.{IsNamed};

use crate::NoMemory;
use crate::bits::{bitmap, bits_in, but};
use crate::classes::NamedClass;
use crate::fault::SetFault;
use regex_class::{Class, ClassRange, contains};
use rpl_unicode::{ClassFault, RangeList, characters, class_ranges, folds_of};
use std::alloc::Global;
use std::marker::Model;
use std::rc::Rc;

/// The ranges of a set.
#[derive(Debug, Drop)]
enum Ranges {
    /// A single range, as in a set of one character. No memory is allocated for it.
    One([ClassRange; 1]),
    /// The ranges that the set and its copies share.
    Shared(Rc<Class>),
}

/// A set of characters.
///
/// Contracts see it as a list of ranges of character numbers. Each range includes both of its ends.
/// If there are several ranges, a set and its copies share one list in memory.
///
/// # Examples
///
/// ```
/// use rpl_classes::Set;
/// let digits = Set::range(alloc, '0', '9')?;
/// let word = digits.union(alloc, &Set::named(alloc, "alpha")?)?;
/// assert!(rt; word.has('7') && word.has('z') && !word.has('_'));
/// assert!(rt; word.ranges() == [(0x30, 0x39), (0x41, 0x5a), (0x61, 0x7a)].as_slice());
/// assert!(rt; word.complement(alloc)?.has('_') && !word.complement(alloc)?.has('z'));
/// ```
#[derive(Debug, Drop)]
pub struct Set {
    ranges: Ranges,
    /// The members from 0 to 63 and from 64 to 127, as bits.
    masks: [u64; 2],
}

impl Model for Set {
    ghost use Rattle.std.specs.Prelude.{◌<◌, ◌*◌, ℕ, List, get_or};
    ghost use Rattle.regex_class.specs.Ranges.{Range};
    ghost use Rattle.rpl_classes.specs.Sets.{IsNormal, IsBitmap};
    ghost use Rattle.rpl_classes.specs.inside.Held.{held};

    ghost Value = { List Range };

    ghost view = { λ a. held a.ranges };

    ghost invariant = { λ a. IsNormal (held a.ranges)
        × ((j : ℕ) → j < 2 → IsBitmap (64 * j) (held a.ranges) (get_or a.masks j 0)) };
}

/// Returns the set that consists of the ranges of this class, which must be in normal form.
fn sealed(alloc: Global, class: Class) -> Result<Set, NoMemory>
    requires { IsNormal class.ranges.items }
    ensures { IfOk result (λ s. s ≡ class.ranges.items) }
{
    let masks = [bitmap(&class, 0), bitmap(&class, 64)];
    match Rc::new(alloc, class) {
        Ok(class) => Ok(Set {
            ranges: Ranges::Shared(class),
            masks,
        }),
        Err(_) => Err(NoMemory),
    }
}

/// Returns the set that consists of the range from `low` to `high`, which must be in normal form.
fn single(low: u32, high: u32) -> Set
    requires { IsNormal ((low, high) ∷ []) }
    ensures same { result ≡ (low, high) ∷ [] }
    ensures normal { IsNormal result }
{
    let range = (low, high);
    Set {
        ranges: Ranges::One([range]),
        masks: [bits_in(range, 0), bits_in(range, 64)],
    }
}

/// Returns the set that consists of these ranges, which must be in normal form.
fn listed(alloc: Global, list: RangeList) -> Result<Set, NoMemory>
    requires { IsNormal list }
    ensures { IfOk result (λ s. s ≡ list) }
{
    let ranges = list.into_vec();
    sealed(alloc, Class { ranges })
}

/// Returns the Unicode set with this name.
fn unicode_set(alloc: Global, name: &str) -> Result<Set, SetFault>
    ensures { IsNamed (option_map set_of (members (chars name.now))) result }
{
    match class_ranges(alloc, name) {
        Ok(list) => match listed(alloc, list) {
            Ok(set) => Ok(set),
            Err(_) => Err(SetFault::NoMemory),
        },
        Err(ClassFault::NoMemory) => Err(SetFault::NoMemory),
        Err(ClassFault::UnknownClass) => Err(SetFault::UnknownClass { at: 0 }),
    }
}

/// Adds `number` to `ranges` if `test` is true.
fn push_where(ranges: &mut Vec<ClassRange>, number: u32, test: bool) -> Result<(), NoMemory>
    ensures { OnOk result ((c : ℕ) →
        in_ranges ranges.new.items c
        ≡ (in_ranges ranges.old.items c || (test && nat_eq c number))) }
{
    if test {
        ranges.push((number, number))?;
    }
    Ok(())
}

/// Returns the ranges of a class, together with the other case of each ASCII letter in it.
fn with_cases(alloc: Global, class: &Class) -> Result<Vec<ClassRange>, NoMemory>
    ensures { let own = class.now.ranges.items in
        IfOk result (λ v. (c : ℕ) →
        in_ranges v.items c ≡ (in_ranges own c || in_ranges own (other_case c))) }
{
    let mut ranges = Vec::from_slice(alloc, &class.ranges)?;
    for k in 0..26 {
        let (upper, lower) = ('A' as u32 + k, 'a' as u32 + k);
        push_where(&mut ranges, upper, class.contains(lower))?;
        push_where(&mut ranges, lower, class.contains(upper))?;
    }
    Ok(ranges)
}

impl Set {
    /// Returns the ranges.
    #[inline(always)]
    fn as_slice(&self) -> &[ClassRange]
        ensures same { result.now ≡ self.now }
        ensures normal { IsNormal self.now }
    {
        match &self.ranges {
            Ranges::One(range) => range,
            Ranges::Shared(class) => &Rc::as_ref(class).ranges,
        }
    }

    /// Returns a class with a copy of the set's ranges.
    fn class(&self, alloc: Global) -> Result<Class, NoMemory>
        ensures same { IfOk result (λ k. k.ranges.items ≡ self.now) }
        ensures normal { IfOk result (λ k. IsNormal k.ranges.items) }
    {
        let ranges = Vec::from_slice(alloc, self.as_slice())?;
        Ok(Class { ranges })
    }

    /// Returns the empty set.
    pub fn empty(alloc: Global) -> Result<Set, NoMemory>
        ensures { IfOk result (λ s. s ≡ []) }
    {
        sealed(alloc, Class::empty(alloc))
    }

    /// Returns the set of all characters.
    pub fn all(alloc: Global) -> Result<Set, NoMemory>
        ensures { IfOk result (λ s. s ≡ (0, 0xd7ff) ∷ (0xe000, 0x10_ffff) ∷ []) }
    {
        Set::from_ranges(alloc, &[(0, 0x10_ffff)])
    }

    /// Returns the set of the characters in the ranges, which can be in any order and can overlap.
    /// A range whose start is above its end is empty.
    pub fn from_ranges(alloc: Global, ranges: &[(u32, u32)]) -> Result<Set, NoMemory>
        ensures ranges { IfOk result (λ s. s ≡ norm ranges.now) }
        ensures normal { IfOk result IsNormal }
        ensures members { IfOk result (λ s. HasJust s (in_ranges ranges.now)) }
    {
        listed(alloc, characters(alloc, ranges)?)
    }

    /// Returns the set of the characters from `low` to `high`, both included.
    pub fn range(alloc: Global, low: char, high: char) -> Result<Set, NoMemory>
        requires { low ≤ high }
        ensures ranges { IfOk result (λ s. s ≡ norm ((low, high) ∷ [])) }
        ensures normal { IfOk result IsNormal }
        ensures members { IfOk result (λ s. HasJust s (λ c. nat_le low c && nat_le c high)) }
    {
        let (low, high) = (low as u32, high as u32);
        if high < 0xd800 || 0xdfff < low {
            return Ok(single(low, high));
        }
        Set::from_ranges(alloc, &[(low, high)])
    }

    /// Returns the set with this name. The name is first looked up, exactly as spelled, among the
    /// classes of the POSIX C locale. If it is not found there, it is looked up among the long and
    /// short names of Unicode's binary properties, general categories and scripts; this lookup
    /// ignores case, spaces, `_`, `-` and a leading `is`. Returns `UnknownClass` with `at` 0
    /// exactly when neither lookup finds the name.
    pub fn named(alloc: Global, name: &str) -> Result<Set, SetFault>
        ensures value { IsNamed (set_named (chars name.now)) result }
        ensures normal { IfOk result IsNormal }
        ensures members { IfOk result (λ s. IfSome (test_named (chars name.now)) (HasJust s)) }
    {
        match NamedClass::from_name(name) {
            Some(class) => Ok(Set::from_ranges(alloc, class.ranges())?),
            None => unicode_set(alloc, name),
        }
    }

    /// Returns the characters that are in at least one of the two sets.
    pub fn union(&self, alloc: Global, other: &Set) -> Result<Set, NoMemory>
        ensures ranges { IfOk result (λ s. s ≡ norm (self.now ++ other.now)) }
        ensures normal { IfOk result IsNormal }
        ensures members { IfOk result (λ s. HasJust s
            (λ c. in_ranges self.now c || in_ranges other.now c)) }
    {
        let mut ranges = Vec::from_slice(alloc, self.as_slice())?;
        ranges.extend_from_slice(other.as_slice())?;
        sealed(alloc, Class::new(ranges)?)
    }

    /// Returns the characters that are not in the set.
    pub fn complement(&self, alloc: Global) -> Result<Set, NoMemory>
        ensures ranges { IfOk result (λ s. s ≡ others self.now) }
        ensures normal { IfOk result IsNormal }
        ensures members { IfOk result (λ s. HasJust s (λ c. not (in_ranges self.now c))) }
    {
        let all = Set::all(alloc)?;
        all.without(alloc, self)
    }

    /// Returns the characters that are in this set but not in the other.
    pub fn without(&self, alloc: Global, other: &Set) -> Result<Set, NoMemory>
        ensures ranges { IfOk result (λ s. s ≡ without self.now other.now) }
        ensures normal { IfOk result IsNormal }
        ensures members { IfOk result (λ s. HasJust s
            (λ c. in_ranges self.now c && not (in_ranges other.now c))) }
    {
        let own = self.class(alloc)?;
        let others = other.class(alloc)?;
        sealed(alloc, own.difference(&others)?)
    }

    /// Returns the characters that are in both sets.
    pub fn both(&self, alloc: Global, other: &Set) -> Result<Set, NoMemory>
        ensures ranges { IfOk result (λ s. s ≡ both self.now other.now) }
        ensures normal { IfOk result IsNormal }
        ensures members { IfOk result (λ s. HasJust s
            (λ c. in_ranges self.now c && in_ranges other.now c)) }
    {
        let own = self.class(alloc)?;
        let others = other.class(alloc)?;
        sealed(alloc, own.intersection(&others)?)
    }

    /// Returns the set extended by the other case of each ASCII letter in it.
    pub fn widen_ci(&self, alloc: Global) -> Result<Set, NoMemory>
        ensures ranges { IfOk result (λ s. s ≡ widened self.now) }
        ensures normal { IfOk result IsNormal }
        ensures members { let own = self.now in
            IfOk result (λ s. HasJust s (λ c. in_ranges own c || in_ranges own (other_case c))) }
    {
        let own = self.class(alloc)?;
        let ranges = with_cases(alloc, &own)?;
        sealed(alloc, Class::new(ranges)?)
    }

    /// Returns the set extended by all characters, in any script, that share a simple case folding
    /// with a member. Foldings from one character to several are ignored.
    pub fn fold(&self, alloc: Global) -> Result<Set, NoMemory>
        ensures ranges { IfOk result (λ s. s ≡ folded self.now) }
        ensures normal { IfOk result IsNormal }
        ensures members { IfOk result (λ s. HasJust s (folds_with (in_ranges self.now))) }
    {
        listed(alloc, folds_of(alloc, self.as_slice())?)
    }

    /// Returns a copy of the set. The copy shares the ranges and allocates no memory, unless the
    /// ranges' reference count is at its maximum; in that case the copy gets ranges of its own.
    pub fn copy(&self, alloc: Global) -> Result<Set, NoMemory>
        ensures { IfOk result (λ s. s ≡ self.now) }
    {
        let ranges = match &self.ranges {
            Ranges::One(range) => Ranges::One(*range),
            Ranges::Shared(class) => match class.clone() {
                Ok(class) => Ranges::Shared(class),
                Err(_) => return sealed(alloc, self.class(alloc)?),
            },
        };
        Ok(Set {
            ranges,
            masks: self.masks,
        })
    }

    /// Returns whether the two sets have the same members.
    pub fn same(&self, other: &Set) -> bool
        ensures { IsTrue result ↔ (self.now ≡ other.now) }
    {
        self.as_slice() == other.as_slice()
    }

    /// Returns whether the character is in the set. For an ASCII character this is a single bit
    /// test.
    #[inline]
    pub fn has(&self, c: char) -> bool
        ensures { result ≡ in_ranges self.now c }
    {
        let number = c as u32;
        if number < 128 {
            (self.masks[(number / 64) as usize] >> (number % 64)) & 1 != 0
        } else {
            contains(self.as_slice(), number)
        }
    }

    /// Returns the ASCII characters in the set, as the bits of two words.
    #[inline(always)]
    pub fn ascii(&self) -> [u64; 2]
        ensures { (c : ℕ) → IsMarked result c ↔ ((c < 128) × (in_ranges self.now c ≡ true)) }
    {
        self.masks
    }

    /// Returns the ASCII characters that are in this set but not in the other, as the bits of two
    /// words.
    pub fn ascii_without(&self, other: &Set) -> [u64; 2]
        ensures { (c : ℕ) → IsMarked result c ↔ ((c < 128) × (in_ranges self.now c ≡ true)
            × (in_ranges other.now c ≡ false)) }
    {
        [
            but(self.masks[0], other.masks[0]),
            but(self.masks[1], other.masks[1]),
        ]
    }

    /// Returns the ranges in ascending order, as pairs of character numbers. Each range includes
    /// both of its ends.
    pub fn ranges(&self) -> &[(u32, u32)]
        ensures same { result.now ≡ self.now }
        ensures normal { IsNormal self.now }
    {
        self.as_slice()
    }
}

// Ranges of characters in canonical order.
ghost use Rattle.std.specs.Prelude.{◌≡◌, ℕ, ◌≤◌, ◌+◌, ◌&&◌, ◌||◌, IfOk, IsTrue, OnOk};
ghost use Rattle.regex_class.specs.Ranges.{in_range, in_ranges, HasExactly, IsCanonical};
ghost use Rattle.rpl_text.specs.Characters.{is_char};
ghost use Rattle.rpl_unicode.specs.Ranges.{IsListOf};

use crate::NoMemory;
use regex_class::{Class, ClassRange, MAX};
use rpl_list::List;
use std::alloc::Global;

/// Ranges of character numbers. Each range includes both of its ends. Contracts see them as a list.
pub type RangeList = List<ClassRange>;

/// Returns whether `low` lies in the range or directly after it.
fn meets(range: ClassRange, low: u32) -> bool
    ensures { IsTrue result → (range.0 ≤ low) × (low ≤ range.1 + 1) }
{
    range.0 <= low && (low <= range.1 || low - 1 == range.1)
}

/// Adds the numbers from `low` to `high`, if there are any. They extend the last range if they
/// begin in it or directly after it.
fn push_range(ranges: &mut Vec<ClassRange>, low: u32, high: u32) -> Result<(), NoMemory>
    ensures { OnOk result ((c : ℕ) →
        in_ranges ranges.new.items c ≡ (in_ranges ranges.old.items c || in_range (low, high) c)) }
{
    if high < low {
        return Ok(());
    }
    let len = ranges.len();
    if len > 0 {
        let last = ranges[len - 1];
        if meets(last, low) {
            ranges[len - 1] = (last.0, last.1.max(high));
            return Ok(());
        }
    }
    ranges.push((low, high))?;
    Ok(())
}

/// Returns the ranges without surrogates. Sorted ranges stay sorted, and ranges that touch are
/// joined; most tables contain ranges that touch.
fn cut(alloc: Global, ranges: &[ClassRange]) -> Result<Vec<ClassRange>, NoMemory>
    ensures { IfOk result (λ v. HasExactly v.items (λ c. is_char c && in_ranges ranges.now c)) }
{
    let mut parts = Vec::with_capacity(alloc, ranges.len())?;
    for range in ranges {
        push_range(&mut parts, range.0, range.1.min(0xd7ff))?;
        push_range(&mut parts, range.0.max(0xe000), range.1)?;
    }
    Ok(parts)
}

/// Returns whether the ranges are nonempty and sorted and don't touch.
fn are_canonical(ranges: &[ClassRange]) -> bool
    ensures { IsTrue result → IsCanonical ranges.now }
{
    let mut least = 0;
    for range in ranges {
        if range.0 < least || range.1 < range.0 || MAX < range.1 {
            return false;
        }
        least = range.1 + 2;
    }
    true
}

/// Returns the characters in the ranges as a class. If these ranges are already sorted, they are
/// copied only once. Most lists of ranges are sorted, and a single range always is.
pub(crate) fn class_of(alloc: Global, ranges: &[ClassRange]) -> Result<Class, NoMemory>
    ensures { IfOk result (λ k. IsListOf (in_ranges ranges.now) k.ranges.items) }
{
    let parts = cut(alloc, ranges)?;
    if are_canonical(&parts) {
        return Ok(Class { ranges: parts });
    }
    Class::new(parts)
}

/// Returns the characters in the ranges, which can be in any order and can overlap. The result is
/// sorted, its ranges don't touch, and it contains no surrogates. A range whose start is above its
/// end is empty.
pub fn characters(alloc: Global, ranges: &[ClassRange]) -> Result<RangeList, NoMemory>
    ensures { IfOk result (IsListOf (in_ranges ranges.now)) }
{
    let class = class_of(alloc, ranges)?;
    Ok(List::from_vec(class.ranges))
}

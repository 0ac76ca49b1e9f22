// Case folding.
ghost use Rattle.std.specs.Prelude.{◌≤◌, ◌&&◌, nat_le, IfOk};
ghost use Rattle.regex_class.specs.Ranges.{in_ranges};
ghost use Rattle.rpl_unicode.specs.Ranges.{IsListOf};
ghost use Rattle.rpl_unicode.specs.Folding.{folds_with};

use crate::NoMemory;
use crate::ranges::{RangeList, characters, class_of};
use regex_class::ClassRange;
use std::alloc::Global;
use unicode::case::fold_pairs;

/// Returns all characters that share a simple case folding with a character in the ranges,
/// including the characters in the ranges themselves. The ranges can be in any order. The call does
/// not visit every character in the ranges, but only the pairs of characters that fold alike.
pub fn folds_of(alloc: Global, ranges: &[ClassRange]) -> Result<RangeList, NoMemory>
    ensures { IfOk result (IsListOf (folds_with (in_ranges ranges.now))) }
{
    let class = class_of(alloc, ranges)?;
    let mut all = Vec::from_slice(alloc, &class.ranges)?;
    class.append_image(fold_pairs(), &mut all)?;
    characters(alloc, &all)
}

/// Returns all characters that share a simple case folding with a character from `low` to `high`,
/// including the characters from `low` to `high` themselves.
pub fn folds(alloc: Global, low: u32, high: u32) -> Result<RangeList, NoMemory>
    requires { low ≤ high }
    ensures { IfOk result (IsListOf (folds_with (λ c. nat_le low c && nat_le c high))) }
{
    folds_of(alloc, &[(low, high)])
}

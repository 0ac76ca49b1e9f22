// Iterates over a set of rule numbers.
ghost use Rattle.std.specs.Prelude.{◌≡◌, ◌<◌, ◌≤◌, ◌^◌, ℕ, false, true};
ghost use Rattle.rpl_core.specs.Marked.{has};

use std::collections::BTreeSet;

/// Returns the least number in the set that is at least `from` and below `end`, or `end` if the set
/// contains no such number.
pub(crate) fn next_in(rules: &BTreeSet<u32>, from: usize, end: usize) -> usize
    requires from { from ≤ end }
    requires small { end < 2 ^ 32 }
    ensures from { from ≤ result }
    ensures bound { result ≤ end }
    ensures between { (r : ℕ) → from ≤ r → r < result → has rules.now r ≡ false }
    ensures here { result < end → has rules.now result ≡ true }
{
    match rules.range(from as u32..).next() {
        Some(rule) => end.min(*rule as usize),
        None => end,
    }
}

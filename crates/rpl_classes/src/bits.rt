// The members of a class that are below 128, as bits.
ghost use Rattle.std.specs.Prelude.{◌≡◌, ◌≢◌, ℕ, ◌<◌, ◌≤◌, ◌+◌, ◌↔◌, true};
ghost use Rattle.std.specs.Int.{bit_at};
ghost use Rattle.regex_class.specs.Ranges.{in_range};
ghost use Rattle.rpl_classes.specs.Sets.{IsBitmap};

use regex_class::{Class, ClassRange};

/// Returns a word in which the bits from `low` to `high`, both included, are set.
fn ones(low: u32, high: u32) -> u64
    requires order { low ≤ high }
    requires high { high < 64 }
    ensures { (k : ℕ) → k < 64 → (bit_at result k ≡ 1) ↔ ((low ≤ k) × (k ≤ high)) }
{
    (u64::MAX << low) & (u64::MAX >> (63 - high))
}

/// Returns a word in which bit `k` is set exactly when the range contains `start + k`.
pub(crate) fn bits_in(range: ClassRange, start: u32) -> u64
    requires { start ≤ 64 }
    ensures { (k : ℕ) → k < 64 → (bit_at result k ≡ 1) ↔ (in_range range (start + k) ≡ true) }
{
    let low = range.0.max(start);
    let high = range.1.min(start + 63);
    if low <= high {
        ones(low - start, high - start)
    } else {
        0
    }
}

/// Returns a word in which bit `k` is set exactly when the class contains `start + k`. The ranges
/// after the first one that starts at or above `start + 64` are not read.
pub(crate) fn bitmap(class: &Class, start: u32) -> u64
    requires { start ≤ 64 }
    ensures { IsBitmap start class.now.ranges.items result }
{
    let mut bits: u64 = 0;
    for range in class.ranges.iter() {
        if range.0 >= start + 64 {
            return bits;
        }
        bits |= bits_in(*range, start);
    }
    bits
}

/// Returns the bits that are set in the first word but not in the second.
#[inline]
pub(crate) fn but(bits: u64, others: u64) -> u64
    ensures { (k : ℕ) → k < 64 →
        (bit_at result k ≡ 1) ↔ ((bit_at bits k ≡ 1) × (bit_at others k ≢ 1)) }
{
    bits & !others
}

// The lookup of a set by its name.
ghost use Rattle.std.specs.Prelude.{◌≡◌, chars, IfOk};
ghost use Rattle.rpl_unicode.specs.Named.{members};
ghost use Rattle.rpl_unicode.specs.Faults.{IsClass};

use crate::NoMemory;
use crate::fault::ClassFault;
use crate::ranges::{RangeList, characters};
use std::alloc::Global;
use unicode::sets::{by_name, normalize};

/// Returns the characters of `name`.
fn letters(alloc: Global, name: &str) -> Result<Vec<char>, NoMemory>
    ensures { IfOk result (λ v. v.items ≡ chars name.now) }
{
    name.chars().collect(alloc)
}

/// Returns the characters in the Unicode binary property, general category or script with this
/// name. The name can be long or short, and in upper or lower case; spaces, `_`, `-` and a leading
/// `is` are ignored. The ranges are sorted, don't touch and contain no surrogates. Returns
/// `UnknownClass` exactly when no set has this name.
pub fn class_ranges(alloc: Global, name: &str) -> Result<RangeList, ClassFault>
    ensures { IsClass (members (chars name.now)) result }
{
    let plain = normalize(alloc, &letters(alloc, name)?)?;
    match by_name(&plain) {
        Ok(set) => Ok(characters(alloc, &set.ranges(alloc)?)?),
        Err(_) => Err(ClassFault::UnknownClass),
    }
}

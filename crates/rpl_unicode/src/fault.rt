// The reasons why the lookup of a name fails.
ghost use Rattle.std.specs.Prelude.{◌≡◌};
ghost use Rattle.rpl_unicode.specs.declared.fault.ClassFault.TheVariants.{NoMemory as OutOfMemory};

use crate::NoMemory;
use thiserror::Error;

/// The reason why the lookup of a name failed.
///
/// # Examples
///
/// ```
/// use rpl_unicode::{ClassFault, class_ranges};
/// assert!(rt; class_ranges(alloc, "Decimal_Number")?.get(0) == Some(&(0x30, 0x39)));
/// assert!(rt; matches!(class_ranges(alloc, "Klingon"), Err(ClassFault::UnknownClass)));
/// ```
#[derive(Clone, Copy, Debug, PartialEq, Eq, Error)]
pub enum ClassFault {
    /// Memory ran out.
    #[error("out of memory")]
    NoMemory,
    /// No property, general category or script has this name.
    #[error("unknown class")]
    UnknownClass,
}

impl From<NoMemory> for ClassFault {
    ghost from_gives = { λ _ fault. fault ≡ OutOfMemory };

    fn from(_cause: NoMemory) -> ClassFault {
        ClassFault::NoMemory
    }
}

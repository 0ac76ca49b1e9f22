// The mode in which a part of an expression is expanded.
ghost use Rattle.std.specs.Prelude.{◌≡◌, false, true};
ghost use Rattle.rpl_forms.specs.Forms as F;

use rpl_macro::{Casing, Macro};

/// How the case of letters is treated in a part of an expression, and whether the part is inside a
/// look-behind.
#[derive(Clone, Copy)]
pub(crate) struct Mode {
    pub(crate) casing: Casing,
    pub(crate) in_lookbehind: bool,
}

impl Mode {
    /// Returns the mode in which letters match as written, outside any look-behind.
    pub(crate) fn plain() -> Mode
        ensures casing { result.casing ≡ Casing.Plain }
        ensures in_lookbehind { result.in_lookbehind ≡ false }
    {
        Mode {
            casing: Casing::Plain,
            in_lookbehind: false,
        }
    }

    /// Returns this mode, but inside a look-behind.
    pub(crate) fn behind(self) -> Mode
        ensures casing { result.casing ≡ self.casing }
        ensures in_lookbehind { result.in_lookbehind ≡ true }
    {
        Mode {
            casing: self.casing,
            in_lookbehind: true,
        }
    }

    /// Returns the mode for the argument of a macro, with the casing that applies to the argument.
    pub(crate) fn under(self, kind: Option<Macro>) -> Mode
        ensures casing { result.casing ≡ F.casing_under kind self.casing }
        ensures in_lookbehind { result.in_lookbehind ≡ self.in_lookbehind }
    {
        let casing = match kind {
            Some(Macro::Ci) => self.casing.under_ci(),
            Some(Macro::Uci) => self.casing.under_uci(),
            _ => self.casing,
        };
        Mode {
            casing,
            in_lookbehind: self.in_lookbehind,
        }
    }
}

// The results of preparation.
use rpl_check::{Checked, CheckedPeg};
use rpl_package::PackageSet;
use rpl_syntax::Expr;

/// A pattern that is ready to be compiled.
#[derive(Drop)]
pub struct Prepared {
    /// The packages: those of the roots, and all that the roots and the pattern import.
    pub packages: PackageSet,
    /// The pattern's expression.
    pub expr: Expr,
    /// The rule table of the packages.
    pub rules: Checked,
    /// The pattern's core, inside its root capture. The core's calls refer to `rules`.
    pub goal: CheckedPeg,
}

/// The prepared rules of a command without a pattern.
#[derive(Drop)]
pub struct PreparedRules {
    /// The packages: those of the roots, and all that they import.
    pub packages: PackageSet,
    /// The rule table of the packages.
    pub rules: Checked,
}

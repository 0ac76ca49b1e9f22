// The scope in which an expression's names are resolved.
ghost use Rattle.std.specs.Prelude.{◌≡◌, unwrap_or};
ghost use Rattle.rpl_expand.specs.Sets.{makes_tree, rule_of};
ghost use Rattle.rpl_names.specs.Sets.{set_seen};
ghost use Rattle.rpl_names.specs.Targets as T;

use rpl_names::PackageSet;
use rpl_syntax::QName;

/// The scope of an expression in a set of packages, and the boundary in force in that scope.
#[derive(Clone, Copy)]
pub(crate) struct Scope<'a> {
    pub(crate) packages: &'a PackageSet,
    /// The rule whose statement contains the expression, or `None` if the expression is in the
    /// pattern.
    pub(crate) at: Option<u32>,
    pub(crate) boundary: u32,
}

impl<'a> Scope<'a> {
    /// Returns the scope of the statement that defines the rule `at`, or the scope of the pattern
    /// if `at` is `None`.
    pub(crate) fn new(packages: &'a PackageSet, at: Option<u32>) -> Scope<'a>
        ensures packages { result.packages.now ≡ packages.now }
        ensures at { result.at ≡ at }
        ensures boundary { result.boundary ≡ unwrap_or (T.boundary (set_seen packages.now) at) 0 }
    {
        Scope {
            packages,
            at,
            boundary: packages.boundary(at).unwrap_or(0),
        }
    }

    /// Returns the number of the rule that the name resolves to.
    pub(crate) fn rule(&self, name: &QName) -> u32
        ensures { result ≡ rule_of (T.resolved (set_seen self.now.packages.now) self.now.at
            name.now) }
    {
        match self.packages.resolve(self.at, name) {
            Ok(target) => target.rule,
            Err(_) => 0,
        }
    }

    /// Returns whether the rule that the name resolves to makes a tree.
    pub(crate) fn captures(&self, name: &QName) -> bool
        ensures { result ≡ makes_tree (T.resolved (set_seen self.now.packages.now) self.now.at
            name.now) }
    {
        match self.packages.resolve(self.at, name) {
            Ok(target) => target.captures,
            Err(_) => false,
        }
    }
}

// The statements that define rules.
ghost use Rattle.std.specs.Prelude.{◌≡◌};
ghost use Rattle.rpl_expand.specs.Sets.{statement_at};
ghost use Rattle.rpl_expand.specs.inside.Statements.{statement_found};
ghost use Rattle.rpl_names.specs.Sets.{set_seen};

use crate::scope::Scope;
use rpl_names::PackageSet;
use rpl_syntax::Expr;
use rpl_text::Chars;

/// A statement in a set of packages, together with the rule that it defines.
#[derive(Clone, Copy)]
pub(crate) struct Statement<'a> {
    /// The full name of the rule.
    pub(crate) name: &'a Chars,
    pub(crate) block: Option<u32>,
    /// Whether the rule makes a tree.
    pub(crate) captures: bool,
    pub(crate) scope: Scope<'a>,
    pub(crate) body: &'a Expr,
}

impl<'a> Statement<'a> {
    /// Returns the statement that defines rule number `rule`, or `None` if there is no such rule or
    /// no statement defines the rule.
    pub(crate) fn of(packages: &'a PackageSet, rule: u32) -> Option<Statement<'a>>
        ensures { statement_found result ≡ statement_at (set_seen packages.now) rule }
    {
        let head = packages.rule(rule)?;
        let name = packages.full_name(rule)?;
        let body = packages.body(rule)?;
        Some(Statement {
            name,
            block: head.block,
            captures: head.captures,
            scope: Scope::new(packages, Some(rule)),
            body,
        })
    }
}

// Resolves the names in packages.
ghost use Rattle.std.specs.Prelude.{◌≡◌, ◌+◌, slice_get};
ghost use Rattle.rpl_scope.specs.Seen.{modules_seen};
ghost use Rattle.rpl_names.specs.Views.{rule_found};
ghost use Rattle.rpl_names.specs.Numbering.{IsTable};
ghost use Rattle.rpl_names.specs.Targets as T;

use crate::set::PackageSet;
use crate::table::{Row, Table};
use crate::targets::{NameFault, RuleHead, Target};
use rpl_scope::{Entry, Found, Module, Referent, Rule, Scope, find, find_plain};
use rpl_syntax::{Expr, QName};
use rpl_text::Chars;

/// Returns the rule at index `place` in module number `number`.
fn rule_in(modules: &[Module], number: usize, place: usize) -> Option<&Rule>
    ensures { rule_found result ≡ T.rule_in (modules_seen modules.now) number place }
{
    match modules.get(number) {
        None => None,
        Some(from) => from.rules.get(place),
    }
}

/// Returns the number of rules in a module.
fn rule_count(modules: &[Module], number: usize) -> usize
    ensures { result ≡ T.size_of (slice_get (modules_seen modules.now) number) }
{
    match modules.get(number) {
        None => 0,
        Some(own) => own.rules.len(),
    }
}

/// Returns the target of the rule at an index in a module.
pub(crate) fn target_in(
    modules: &[Module],
    table: &Table,
    number: usize,
    place: usize,
) -> Result<Target, NameFault>
    requires { IsTable table.now (modules_seen modules.now) }
    ensures { result ≡ T.target_in (modules_seen modules.now) number place }
{
    match rule_in(modules, number, place) {
        None => Err(NameFault::Unknown),
        Some(rule) => match table.firsts.get(number) {
            None => Err(NameFault::Unknown),
            Some(first) => Ok(Target {
                rule: *first + place as u32,
                captures: !rule.alias,
            }),
        },
    }
}

/// Returns the target of a name, given the result of resolving it in a module.
pub(crate) fn target_of(
    modules: &[Module],
    table: &Table,
    number: usize,
    found: Found,
) -> Result<Target, NameFault>
    requires { IsTable table.now (modules_seen modules.now) }
    ensures { result ≡ T.target (modules_seen modules.now) number found }
{
    match found {
        Found::Unknown => Err(NameFault::Unknown),
        Found::Hidden => Err(NameFault::Hidden),
        Found::To(Referent::BuiltIn) => Ok(Target {
            rule: 1,
            captures: false,
        }),
        Found::To(Referent::Own(place)) => target_in(modules, table, number, place),
        Found::To(
            Referent::Of {
                module: other,
                rule,
            },
        ) => target_in(modules, table, other, rule),
    }
}

/// The position of a statement or of the pattern: its module, and the number of rules that precede
/// it in that module.
#[derive(Clone, Copy)]
struct Site {
    /// The number of the module that contains the site.
    owner: usize,
    /// The number of rules that precede the site in its module.
    start: usize,
}

/// Returns whether there is an entry and it comes from a statement of the module itself, not from
/// an import.
pub(crate) fn binds(entry: Option<Entry>) -> bool
    ensures { result ≡ T.binds entry }
{
    match entry {
        None => false,
        Some(entry) => matches!(entry.referent, Referent::Own(_)),
    }
}

impl PackageSet {
    ghost use Rattle.std.specs.Prelude.{None, Some, chars, false, length};
    ghost use Rattle.rpl_names.specs.Sets.{set_seen};
    ghost use Rattle.rpl_names.specs.Views.{row_found, rule_found, site_found, expr_found};
    ghost use Rattle.rpl_names.specs.Views.{head_found, head_seen, name_found};
    ghost use Rattle.rpl_names.specs.Views.{spot_found, site_seen};
    ghost use Rattle.rpl_names.specs.Tables.{rows};
    ghost use Rattle.rpl_names.specs.Targets as T;

    /// Returns the number of the top module, to which the pattern and the roots without a package
    /// statement belong.
    pub fn top(&self) -> usize
        ensures { result ≡ (set_seen self.now).top }
    {
        self.top
    }

    /// Returns the number of rules in the rule table. The first two rules are the boundary and the
    /// built-in `halt`.
    pub fn rules(&self) -> u32
        ensures { result ≡ 2 + length (rows (set_seen self.now).stock.modules) }
    {
        2 + self.table.rows.len() as u32
    }

    /// Returns the row of a rule, if a statement defines that rule.
    fn row(&self, rule: u32) -> Option<&Row>
        ensures { row_found result ≡ T.row_at (set_seen self.now) rule }
    {
        if rule < 2 {
            return None;
        }
        self.table.rows.get((rule - 2) as usize)
    }

    /// Returns the rule that a row of the table describes.
    fn rule_of(&self, row: &Row) -> Option<&Rule>
        ensures { rule_found result ≡ T.rule_in (set_seen self.now).stock.modules row.now.from
            row.now.place }
    {
        rule_in(&self.stock.modules, row.from, row.place)
    }

    /// Returns the site of the pattern.
    fn pattern_site(&self) -> Site
        ensures { site_seen result ≡ T.pattern_site (set_seen self.now) }
    {
        Site {
            owner: self.top,
            start: rule_count(&self.stock.modules, self.top),
        }
    }

    /// Returns the site of a rule's statement.
    fn rule_site(&self, rule: u32) -> Option<Site>
        ensures { site_found result ≡ T.rule_site (set_seen self.now)
            (T.row_at (set_seen self.now) rule) }
    {
        let row = self.row(rule)?;
        let made = self.rule_of(row)?;
        Some(Site {
            owner: row.from,
            start: made.start,
        })
    }

    /// Resolves a name at a site.
    fn resolve_at(&self, site: Site, name: &QName) -> Result<Target, NameFault>
        ensures { result ≡ T.resolved_at (set_seen self.now) name.now (Some (site_seen site)) }
    {
        match self.stock.modules.get(site.owner) {
            None => Err(NameFault::Unknown),
            Some(own) => {
                let scope = Scope {
                    modules: &self.stock.modules,
                    own,
                    start: site.start,
                };
                let found = find(scope, name);
                target_of(&self.stock.modules, &self.table, site.owner, found)
            }
        }
    }

    /// Resolves a name in the statement of a rule, or in the pattern if the rule is `None`.
    pub fn resolve(&self, rule: Option<u32>, name: &QName) -> Result<Target, NameFault>
        ensures { result ≡ T.resolved (set_seen self.now) rule name.now }
    {
        match rule {
            None => self.resolve_at(self.pattern_site(), name),
            Some(rule) => match self.rule_site(rule) {
                None => Err(NameFault::Unknown),
                Some(site) => self.resolve_at(site, name),
            },
        }
    }

    /// Returns the body of a rule, that is, the expression that a statement binds to the rule's
    /// name. Returns `None` if and only if there is no rule with this number or no statement
    /// defines the rule.
    pub fn body(&self, rule: u32) -> Option<&Expr>
        ensures { expr_found result ≡ T.body (set_seen self.now) rule }
    {
        let row = self.row(rule)?;
        let made = self.rule_of(row)?;
        Some(&made.body)
    }

    /// Returns the file that contains the binding of a rule, and the byte offset of the binding in
    /// that file. Returns `None` if and only if there is no rule with this number or no statement
    /// defines the rule.
    pub fn spot(&self, rule: u32) -> Option<(&str, usize)>
        ensures { spot_found result ≡ T.spot (set_seen self.now) rule }
    {
        let row = self.row(rule)?;
        let made = self.rule_of(row)?;
        let own = self.stock.modules.get(row.from)?;
        let file = own.texts.get(made.text)?;
        Some((file.as_str(), made.at))
    }

    /// Resolves `~`, the name of the boundary, at a site.
    fn mark_at(&self, site: Site) -> Result<Target, NameFault>
        ensures { result ≡ T.resolved_at (set_seen self.now) T.boundary_mark
            (Some (site_seen site)) }
    {
        match self.stock.modules.get(site.owner) {
            None => Err(NameFault::Unknown),
            Some(own) => {
                let found = find_plain(own, site.start, "~");
                target_of(&self.stock.modules, &self.table, site.owner, found)
            }
        }
    }

    /// Returns the boundary in force at a site.
    fn boundary_at(&self, site: Site) -> u32
        ensures { result ≡ T.rule_of (T.resolved_at (set_seen self.now) T.boundary_mark
            (Some (site_seen site))) }
    {
        match self.mark_at(site) {
            Ok(target) => target.rule,
            Err(_) => 0,
        }
    }

    /// Returns the boundary in force at the rule's statement, or in the pattern if the rule is
    /// `None`. The boundary in force is the one that the module's earlier statements defined last,
    /// or the first rule in the table if none of these statements defines a boundary. Returns
    /// `None` if and only if there is no rule with this number or no statement defines the rule.
    pub fn boundary(&self, rule: Option<u32>) -> Option<u32>
        ensures { result ≡ T.boundary (set_seen self.now) rule }
    {
        match rule {
            None => Some(self.boundary_at(self.pattern_site())),
            Some(rule) => match self.rule_site(rule) {
                None => None,
                Some(site) => Some(self.boundary_at(site)),
            },
        }
    }

    /// Returns whether a statement of the top module binds the name `halt`.
    fn binds_halt(&self) -> bool
        ensures { result ≡ T.binds_halt (set_seen self.now) }
    {
        match self.stock.modules.get(self.top) {
            None => false,
            Some(own) => binds(own.names.get_text("halt")),
        }
    }

    /// Returns the full name of the built-in `halt`, which differs from the full name of every rule
    /// that a statement in the top module defines.
    fn halt_name(&self) -> &'static str
        ensures { chars result.now ≡ T.halt_name (set_seen self.now) }
    {
        if self.binds_halt() {
            return "*.halt";
        }
        "halt"
    }

    /// Returns the description of a built-in rule, which no statement defines.
    fn built_in<'a>(&self, name: &'a str) -> RuleHead<'a>
        ensures { head_seen result ≡ record {
          name = chars name.now;
          from = (set_seen self.now).top;
          block = None;
          captures = false;
        } }
    {
        RuleHead {
            name,
            module: self.top,
            block: None,
            captures: false,
        }
    }

    /// Returns the description of a rule, or `None` if and only if there is no rule with this
    /// number.
    pub fn rule(&self, rule: u32) -> Option<RuleHead<'_>>
        ensures { head_found result ≡ T.head (set_seen self.now) rule }
    {
        if rule == 0 {
            return Some(self.built_in("~"));
        }
        if rule == 1 {
            return Some(self.built_in(self.halt_name()));
        }
        let row = self.row(rule)?;
        let made = self.rule_of(row)?;
        Some(RuleHead {
            name: row.name.as_str(),
            module: row.from,
            block: row.block,
            captures: !made.alias,
        })
    }

    /// Returns the full name of a rule that a statement defines. Returns `None` if and only if
    /// there is no rule with this number or no statement defines the rule.
    pub fn full_name(&self, rule: u32) -> Option<&Chars>
        ensures { name_found result ≡ T.full_name (set_seen self.now) rule }
    {
        match self.row(rule) {
            None => None,
            Some(row) => Some(&row.name),
        }
    }
}

// Builds the rule table of a set, and the core of a pattern over that table.
ghost use Rattle.std.specs.Prelude.{◌≡◌, ◌<◌, ℕ, true, List, IfOk, None, chars, codes, length, map};
ghost use Rattle.rpl_core.specs.Core.{Core};
ghost use Rattle.rpl_core.specs.Listed.{rules_of};
ghost use Rattle.rpl_core.specs.Order.{IsInOrder};
ghost use Rattle.rpl_core.specs.Programs.{calls};
ghost use Rattle.rpl_core.specs.Table.{AreDistinct, blocks_of, bodies_of};
ghost use Rattle.rpl_core.specs.View.{core_of};
ghost use Rattle.rpl_expand.specs.Expansion.{core};
ghost use Rattle.rpl_expand.specs.Faults.{size_fault, table_fault};
ghost use Rattle.rpl_expand.specs.Answers.{Answers};
ghost use Rattle.rpl_expand.specs.Sets.{captures_of, goal_of, makes_tree, scope_of, statements};
ghost use Rattle.rpl_expand.specs.Sets.{table_of};
ghost use Rattle.rpl_expand.specs.Table.{captured, has_root, row_of};
ghost use Rattle.rpl_expand.specs.Bound.{AreBound, IsOver, MakeTrees};
ghost use Rattle.rpl_expand.specs.inside.Scopes.{scope_seen};
ghost use Rattle.rpl_expand.specs.inside.Statements.{statement_seen};
ghost use Rattle.rpl_forms.specs.Counting.{Counts, KnowsInners};
ghost use Rattle.rpl_forms.specs.Inlining.{Inners};
ghost use Rattle.rpl_forms.specs.Rows.{inners_of, row_at, rows_of};
ghost use Rattle.rpl_macro.specs.declared.casing.Casing.TheVariants.{Plain};
ghost use Rattle.rpl_names.specs.Sets.{set_seen};
ghost use Rattle.rpl_names.specs.Targets.{halt_name, resolved};
ghost use Rattle.rpl_compile_laws.specs.Laws.{IsCapture};
ghost use Rattle.rpl_syntax.specs.View.{expr_of};

use crate::NoMemory;
use crate::base::Base;
use crate::build::build;
use crate::built_in::built_in;
use crate::fault::ExpandFault;
use crate::growing::Growing;
use crate::measure::{Around, measure};
use crate::mode::Mode;
use crate::scope::Scope;
use crate::statement::Statement;
use rpl_core::{Peg, Rule, Rules};
use rpl_forms::count::node;
use rpl_forms::inner::inners;
use rpl_forms::{ClassSets, Count, Inner, MAX_DEPTH, MAX_SIZE};
use rpl_names::PackageSet;
use rpl_syntax::Expr;
use rpl_text::Chars;
use std::alloc::Global;

/// Checks that a core whose count is `count` is not too large. `rule` is the rule that the core
/// belongs to, or `None` if the core belongs to the pattern.
fn check_size(rule: Option<u32>, count: Count) -> Result<(), ExpandFault>
    ensures { (p : Core) → Counts count p → Answers (size_fault rule p) result }
{
    if count.size > MAX_SIZE || count.depth > MAX_DEPTH {
        return Err(ExpandFault::TooLarge {
            rule,
            size: count.size,
            depth: count.depth,
        });
    }
    Ok(())
}

/// Returns `body`, inside a capture with the name `name` if `captures` is true.
fn under(alloc: Global, captures: bool, name: Chars, body: Peg) -> Result<Peg, NoMemory>
    ensures { IfOk result (λ p. core_of p ≡ captured captures name (core_of body)) }
{
    if !captures {
        return Ok(body);
    }
    Ok(Peg::Capture(name, Box::new(alloc, body)?))
}

/// Returns the count of the pattern that `under` returns, given the count of the body.
fn counts_under(captures: bool, of: Count) -> Count
    ensures { (p : Core) (name : _) → Counts of p → Counts result (captured captures name p) }
{
    if !captures {
        return of;
    }
    node(of)
}

/// Returns whether the expression is the name of a rule that makes a tree.
fn has_root(scope: &Scope<'_>, e: &Expr) -> bool
    ensures { result ≡ has_root (λ q. makes_tree
        (resolved (set_seen scope.now.packages.now) scope.now.at q))
        (expr_of e.now) }
{
    match e {
        Expr::Name(name) => scope.captures(name),
        _ => false,
    }
}

/// Returns the rule that a statement defines, expanded over the rules already in the table.
fn make_rule(
    alloc: Global,
    table: &Growing,
    sets: &ClassSets,
    statement: &Statement<'_>,
) -> Result<Rule, NoMemory>
    requires { KnowsInners table.now.known.items (inners_of (rules_of table.now.rules)) }
    ensures { IfOk result (λ r. row_at r
        ≡ row_of (inners_of (rules_of table.now.rules)) (statement_seen statement.now)) }
{
    let name = statement.name.copy(alloc)?;
    let label = name.copy(alloc)?;
    let base = Base {
        scope: statement.scope,
        rules: &table.rules,
        known: &table.known,
        sets,
    };
    let body = build(alloc, &base, Mode::plain(), statement.body)?;
    let body = under(alloc, statement.captures, label, body)?;
    Ok(Rule {
        name,
        block: statement.block,
        body,
    })
}

/// Returns the full name of the built-in `halt` in `packages`.
fn halt_name(packages: &PackageSet) -> &str
    ensures { chars result.now ≡ halt_name (set_seen packages.now) }
{
    match packages.rule(1) {
        Some(head) => head.name,
        None => unreachable!(),
    }
}

/// Returns the rule table of a set of packages: the boundary, the built-in `halt`, and the rules
/// that the statements of the packages define, in order. If the core of any rule is too large,
/// returns an error that names the first such rule. The nodes of each core are counted before the
/// core is built.
///
/// The full names of the rules must be distinct. In a loaded set, the full names are always
/// distinct.
///
/// # Examples
///
/// ```
/// # use rosie_io::{SureFiles, Tree};
/// # use rpl_expand::expand;
/// # use rpl_package::{LibPath, Root, Roots, load};
/// # use rpl_text::Chars;
/// let mut roots = Roots::new(alloc);
/// roots.push(Root::Given(Chars::from_str(alloc, "day = [0-9]{2}")?))?;
/// let mut files = SureFiles::new(Tree::new(alloc));
/// let packages = load(alloc, &mut files, &LibPath::new(alloc), &roots)?;
/// let rules = expand(alloc, &packages)?;
/// assert!(rt; rules.len() == 3 && matches!(rules.get(2), Some(day) if day.name.as_str() == "day"));
/// ```
pub fn expand(alloc: Global, packages: &PackageSet) -> Result<Rules, ExpandFault>
    requires { AreDistinct (map (λ r. r.name) (table_of (set_seen packages.now))) }
    ensures exactly { Answers (table_fault 0 (table_of (set_seen packages.now))) result }
    ensures table { IfOk result (λ rs. rows_of (rules_of rs) ≡ table_of (set_seen packages.now)) }
    ensures order { AreBound (statements (set_seen packages.now))
        → IfOk result (λ rs. IsInOrder (bodies_of (rules_of rs)) (blocks_of (rules_of rs))) }
{
    let rules = built_in(alloc, halt_name(packages))?;
    let mut table = Growing::new(alloc, rules)?;
    let sets = ClassSets::new(alloc);
    for number in 2..packages.rules() {
        let Some(statement) = Statement::of(packages, number) else {
            unreachable!()
        };
        let around = Around {
            scope: &statement.scope,
            known: &table.known,
            in_lookbehind: false,
        };
        let own = measure(&around, statement.body);
        if let Err(fault) = check_size(Some(number), counts_under(statement.captures, own)) {
            return Err(fault);
        }
        let rule = make_rule(alloc, &table, &sets, &statement)?;
        table = table.with(rule)?;
    }
    Ok(table.rules)
}

/// Checks that the size and the depth of the goal are within the limits. The root capture, if there
/// is one, is also counted.
fn check_goal_size(
    scope: &Scope<'_>,
    known: &[Option<Inner>],
    captures: bool,
    e: &Expr,
) -> Result<(), ExpandFault>
    ensures { (I : Inners) → KnowsInners known.now I → Answers (size_fault None
        (captured captures (codes "*") (core Plain (scope_seen scope.now I) (expr_of e.now))))
        result }
{
    let around = Around {
        scope,
        known,
        in_lookbehind: false,
    };
    let own = measure(&around, e);
    check_size(None, counts_under(captures, own))
}

/// Returns the core of a pattern over `rules`, which is the rule table of `packages`. The core is
/// inside a root capture unless the pattern is the name of a rule that makes a tree. Returns an
/// error if the core is too large. The nodes of the core are counted before the core is built.
pub fn expand_pattern(
    alloc: Global,
    packages: &PackageSet,
    rules: &Rules,
    e: &Expr,
) -> Result<Peg, ExpandFault>
    ensures exactly { Answers (size_fault None
        (goal_of (set_seen packages.now) (inners_of (rules_of rules.now)) (expr_of e.now))) result }
    ensures goal { IfOk result (λ p. core_of p
        ≡ goal_of (set_seen packages.now) (inners_of (rules_of rules.now)) (expr_of e.now)) }
    ensures calls { IsOver (bodies_of (rules_of rules.now))
        (scope_of (set_seen packages.now) None (inners_of (rules_of rules.now)))
        → IfOk result (λ p. (r : ℕ) → calls (core_of p) r ≡ true →
        r < length (rules_of rules.now)) }
    ensures root { let R = bodies_of (rules_of rules.now) in let p = set_seen packages.now in
        MakeTrees R (captures_of p) (scope_of p None (inners_of (rules_of rules.now)))
        → IfOk result (λ q. (label : List ℕ) × IsCapture R label (core_of q)) }
{
    let scope = Scope::new(packages, None);
    let known = inners(alloc, rules)?;
    let captures = !has_root(&scope, e);
    if let Err(fault) = check_goal_size(&scope, &known, captures, e) {
        return Err(fault);
    }
    let sets = ClassSets::new(alloc);
    let base = Base {
        scope,
        rules,
        known: &known,
        sets: &sets,
    };
    let body = build(alloc, &base, Mode::plain(), e)?;
    let root = Chars::from_str(alloc, "*")?;
    Ok(under(alloc, captures, root, body)?)
}

// The preparation of a command, from its roots and its pattern.
ghost use Rattle.std.specs.Prelude.{◌≡◌, ℕ, List, IfOk, encode_utf8_all, false, length, map};
ghost use Rattle.rosie_io.specs.Loading.{NotFewer};
ghost use Rattle.rosie_prepare.specs.Answers.{Prepares};
ghost use Rattle.rosie_run.specs.Unready.{CauseIn, HasAsked};
ghost use Rattle.rosie_prepare.specs.Prepared.{IsPrepared, IsReadAs, OrLine, Ready, TablePasses};
ghost use Rattle.rosie_prepare.specs.Views.{ready_seen, request_seen};
ghost use Rattle.rpl_check.specs.Checked.{IsWhole};
ghost use Rattle.rpl_check.specs.Goal.{peg_of};
ghost use Rattle.rpl_core.specs.Table.{bodies_of};
ghost use Rattle.rpl_core.specs.View.{core_of};
ghost use Rattle.rpl_expand.specs.Sets.{table_of};
ghost use Rattle.rpl_forms.specs.Rows.{rows_of};
ghost use Rattle.rosie_prepare.specs.Steps.{Leads};
ghost use Rattle.rpl_expand.specs.LoadLaws.{Resolves};
ghost use Rattle.rpl_package.specs.Asking.{IfTold, IsTold};
ghost use Rattle.rpl_names.specs.Loading.{world};
ghost use Rattle.rpl_names.specs.Patterns.{HasNoFault, load_pattern};
ghost use Rattle.rpl_names.specs.Roots.{Packages, load};
ghost use Rattle.rpl_names.specs.Sets.{set_seen};
ghost use Rattle.rpl_scope.specs.Faults.{Or};
ghost use Rattle.rpl_compile_laws.specs.Laws.{IsCapture};
ghost use Rattle.rpl_syntax.specs.Expression.{Expr as ParsedExpr};
ghost use Rattle.rpl_syntax.specs.View.{expr_of};

use crate::load::of_load;
use crate::pattern_request::PatternRequest;
use crate::prepared::{Prepared, PreparedRules};
use crate::steps::{pass_goal, pass_rules};
use rosie_io::Files;
use rosie_run::Unready;
use rpl_package::{LibPath, PackageSet, Roots, load, load_pattern};
use rpl_syntax::Expr;
use std::alloc::Global;

/// Loads the packages of the roots, and all that they import.
fn load_roots<F: Files>(
    alloc: Global,
    files: &mut F,
    folders: &LibPath,
    roots: &Roots,
) -> Result<PackageSet, Unready>
    ensures gives { IfTold F.tells (Leads set_seen result)
        (load (world (F.tree files.old) folders.now) roots.now) }
    ensures asked { IfTold F.tells (λ o. HasAsked (F.asked files.old) (F.asked files.new) result
        (map encode_utf8_all o.asked)) (load (world (F.tree files.old) folders.now) roots.now) }
    ensures many { IfOk result (λ packages. length (set_seen packages).roots ≡ length roots.now) }
    ensures cause { CauseIn F.Source result files.old files.new }
    ensures taken { NotFewer (F.taken files.old) (F.taken files.new) }
    ensures tree { F.tree files.new ≡ F.tree files.old }
    ensures closed { F.is_open files.old ≡ false → F.is_open files.new ≡ false }
{
    match load(alloc, files, folders, roots) {
        Ok(packages) => Ok(packages),
        Err(fault) => Err(of_load(alloc, fault)),
    }
}

/// Loads the pattern, which may use the packages of the roots, and adds the packages that the
/// pattern imports. Returns the line that reports the first fault, if there is one.
fn load_goal<F: Files>(
    alloc: Global,
    files: &mut F,
    packages: &mut PackageSet,
    request: &PatternRequest<'_>,
) -> Result<Expr, Unready>
    ensures gives { (parse : Or ParsedExpr) → IsReadAs (request_seen request.now) parse
        → IfTold F.tells (Leads (λ e. (expr_of e, set_seen packages.new)) result)
        (load_pattern (world (F.tree files.old) request.now.folders.now) (set_seen packages.old)
        parse) }
    ensures asked { (parse : Or ParsedExpr) → IsReadAs (request_seen request.now) parse
        → IfTold F.tells (λ o. HasAsked (F.asked files.old) (F.asked files.new) result
        (map encode_utf8_all o.asked))
        (load_pattern (world (F.tree files.old) request.now.folders.now) (set_seen packages.old)
        parse) }
    ensures right { IfOk result (λ e. HasNoFault (expr_of e) (set_seen packages.new)) }
    ensures cause { CauseIn F.Source result files.old files.new }
    ensures taken { NotFewer (F.taken files.old) (F.taken files.new) }
    ensures tree { F.tree files.new ≡ F.tree files.old }
    ensures closed { F.is_open files.old ≡ false → F.is_open files.new ≡ false }
{
    match load_pattern(alloc, files, request.folders, packages, &request.goal) {
        Ok(expr) => Ok(expr),
        Err(fault) => Err(of_load(alloc, fault)),
    }
}

/// Returns the rule table of the roots and of all that they import, or the line that reports the
/// first fault.
pub fn prepare_rules<F: Files>(
    alloc: Global,
    files: &mut F,
    folders: &LibPath,
    roots: &Roots,
) -> Result<PreparedRules, Unready>
    ensures prepares { IfTold F.tells (λ o. (r : OrLine Packages) → TablePasses o.answer r
        → Prepares (λ p. set_seen p.packages) result r)
        (load (world (F.tree files.old) folders.now) roots.now) }
    ensures table { IfOk result (λ p. rows_of p.rules ≡ table_of (set_seen p.packages)) }
    ensures many { IfOk result (λ p. length (set_seen p.packages).roots ≡ length roots.now) }
    ensures asked { IfTold F.tells (λ o. HasAsked (F.asked files.old) (F.asked files.new) result
        (map encode_utf8_all o.asked)) (load (world (F.tree files.old) folders.now) roots.now) }
    ensures cause { CauseIn F.Source result files.old files.new }
    ensures taken { NotFewer (F.taken files.old) (F.taken files.new) }
    ensures tree { F.tree files.new ≡ F.tree files.old }
    ensures closed { F.is_open files.old ≡ false → F.is_open files.new ≡ false }
{
    let packages = load_roots(alloc, files, folders, roots)?;
    pass_rules(alloc, packages)
}

/// Prepares a command with a pattern, or returns the line that reports the first fault.
///
/// Faults are reported in the order of the passes: first loading faults, then rules or patterns
/// that are too large, then the faults that the check finds. Within each pass, faults in the rules
/// come before faults in the pattern. The result can be compiled as it is, and each name in the
/// pattern names a rule of the result's packages.
pub fn prepare<F: Files>(
    alloc: Global,
    files: &mut F,
    request: &PatternRequest<'_>,
) -> Result<Prepared, Unready>
    ensures prepares { (asked : List (List ℕ)) → IsTold F.tells asked → (r : OrLine Ready)
        → IsPrepared (F.tree files.old) (request_seen request.now) asked r →
        Prepares ready_seen result r }
    ensures asked { (asked : List (List ℕ)) → IsTold F.tells asked → (r : OrLine Ready)
        → IsPrepared (F.tree files.old) (request_seen request.now) asked r →
        HasAsked (F.asked files.old) (F.asked files.new) result asked }
    ensures whole { IfOk result (λ p. IsWhole (bodies_of p.rules) (core_of (peg_of p.goal))) }
    ensures root { IfOk result (λ p. (label : List ℕ) ×
        IsCapture (bodies_of p.rules) label (core_of (peg_of p.goal))) }
    ensures names { IfOk result (λ p. Resolves (expr_of p.expr) (set_seen p.packages)) }
    ensures cause { CauseIn F.Source result files.old files.new }
    ensures taken { NotFewer (F.taken files.old) (F.taken files.new) }
    ensures tree { F.tree files.new ≡ F.tree files.old }
    ensures closed { F.is_open files.old ≡ false → F.is_open files.new ≡ false }
{
    let mut packages = load_roots(alloc, files, request.folders, request.roots)?;
    let expr = load_goal(alloc, files, &mut packages, request)?;
    pass_goal(alloc, packages, expr)
}

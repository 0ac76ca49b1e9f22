// The loading functions that other crates call.
ghost use Rattle.std.specs.Prelude.{◌≡◌, IfErr, IfOk, OnErr, false, length};
ghost use Rattle.rosie_io.specs.Loading.{NotFewer};
ghost use Rattle.rpl_syntax.specs.Expression.{Expr as ParsedExpr};
ghost use Rattle.rpl_syntax.specs.View.{expr_of};
ghost use Rattle.rpl_scope.specs.Faults.{Or};
ghost use Rattle.rpl_package.specs.Answers.{Answers, HasNoPlace, IsCaused, IsFault};
ghost use Rattle.rpl_package.specs.Asking.{HasAsked, IfTold};
ghost use Rattle.rpl_names.specs.Goals.{ReadsGoal};
ghost use Rattle.rpl_names.specs.Loading.{world};
ghost use Rattle.rpl_names.specs.Patterns.{HasNoFault, load_pattern};
ghost use Rattle.rpl_names.specs.Roots.{load};
ghost use Rattle.rpl_names.specs.Sets.{set_seen};

use crate::loading::load_set;
use crate::pattern::Goal;
use crate::rollback::enter_goal;
use rosie_io::Files;
use rpl_names::{LibPath, PackageSet, Roots};
use rpl_scope::{LoadFault, LoadKind, Stop};
use rpl_syntax::Expr;
use rpl_text::Chars;
use std::alloc::Global;

/// Converts a `Stop` to a fault. An out-of-memory fault has no file and no byte offset.
pub fn fault_of(alloc: Global, stop: Stop) -> LoadFault
    ensures { IsFault stop result }
{
    match stop {
        Stop::Fault(fault) => fault,
        Stop::Memory => LoadFault {
            file: Chars::empty(alloc),
            at: 0,
            kind: LoadKind::NoMemory,
        },
    }
}

/// Loads the roots in order. Each import is loaded once, from the first folder that contains its
/// file.
///
/// The roots without a package statement share one module, the top module. Any other root is a
/// module of its own, and its package name becomes a prefix in the top module. If loading fails,
/// returns the first fault in the order that `specs/Loading.antt` and `specs/Roots.antt` define.
/// The error is `ReadFault` only if opening or reading a file failed. Every file is closed before
/// the function returns.
///
/// # Examples
///
/// ```
/// # use rosie_io::{SureFiles, Tree};
/// # use rpl_package::{LibPath, LoadKind, Root, Roots, load};
/// # use rpl_text::Chars;
/// let mut files = SureFiles::new(Tree::new(alloc));
/// let mut roots = Roots::new(alloc);
/// roots.push(Root::Given(Chars::from_str(alloc, "day = [0-9]{2}")?))?;
/// assert!(rt; load(alloc, &mut files, &LibPath::new(alloc), &roots).is_ok());
/// roots.push(Root::Given(Chars::from_str(alloc, "date = day \"-\" month")?))?;
/// let loaded = load(alloc, &mut files, &LibPath::new(alloc), &roots);
/// assert!(rt; matches!(loaded, Err(fault)
///     if fault.at == 15 && matches!(fault.kind, LoadKind::UnknownName { .. })));
/// ```
pub fn load<F: Files>(
    alloc: Global,
    files: &mut F,
    path: &LibPath,
    roots: &Roots,
) -> Result<PackageSet, LoadFault>
    ensures gives { IfTold F.tells (Answers set_seen result)
        (load (world (F.tree files.old) path.now) roots.now) }
    ensures asked { IfTold F.tells (HasAsked (F.asked files.old) (F.asked files.new) result)
        (load (world (F.tree files.old) path.now) roots.now) }
    ensures many { IfOk result (λ packages. length (set_seen packages).roots ≡ length roots.now) }
    ensures cause { IsCaused result (F.faults files.old) (F.faults files.new)
        (F.failed_opens files.old) (F.failed_opens files.new) }
    ensures taken { NotFewer (F.taken files.old) (F.taken files.new) }
    ensures memory { IfErr result HasNoPlace }
    ensures tree { F.tree files.new ≡ F.tree files.old }
    ensures closed { F.is_open files.old ≡ false → F.is_open files.new ≡ false }
{
    match load_set(alloc, files, path.as_slice(), roots.as_slice()) {
        Ok(packages) => Ok(packages),
        Err(stop) => Err(fault_of(alloc, stop)),
    }
}

/// Parses the text of a pattern, and imports each package whose prefix occurs in the pattern but
/// not in the top module. Then checks that the names in the pattern are bound and that the pattern
/// uses macros correctly. Returns the expression of the pattern.
///
/// If an error is returned, the packages are unchanged. The error is the first fault in the order
/// that `specs/Patterns.antt` defines. The error is `ReadFault` only if opening or reading a file
/// failed. Every file is closed before the function returns.
///
/// # Examples
///
/// ```
/// # use rosie_io::{SureFiles, Tree};
/// # use rpl_package::{Goal, LibPath, Root, Roots, load, load_pattern};
/// # use rpl_syntax::Expr;
/// # use rpl_text::Chars;
/// # let mut files = SureFiles::new(Tree::new(alloc));
/// # let folders = LibPath::new(alloc);
/// # let mut roots = Roots::new(alloc);
/// # roots.push(Root::Given(Chars::from_str(alloc, "day = [0-9]{2}")?))?;
/// let mut packages = load(alloc, &mut files, &folders, &roots)?;
/// let goal = Goal {
///     text: "day",
///     fixed: false,
///     find: false,
/// };
/// let expr = load_pattern(alloc, &mut files, &folders, &mut packages, &goal)?;
/// assert!(rt; matches!(expr, Expr::Name(name) if name.name.as_str() == "day"));
/// ```
pub fn load_pattern<F: Files>(
    alloc: Global,
    files: &mut F,
    path: &LibPath,
    packages: &mut PackageSet,
    goal: &Goal<'_>,
) -> Result<Expr, LoadFault>
    ensures gives { (r : Or ParsedExpr) →
        ReadsGoal goal.now.fixed goal.now.find goal.now.text.now r
        → IfTold F.tells (Answers (λ e. (expr_of e, set_seen packages.new)) result)
        (load_pattern (world (F.tree files.old) path.now) (set_seen packages.old) r) }
    ensures asked { (r : Or ParsedExpr) →
        ReadsGoal goal.now.fixed goal.now.find goal.now.text.now r
        → IfTold F.tells (HasAsked (F.asked files.old) (F.asked files.new) result)
        (load_pattern (world (F.tree files.old) path.now) (set_seen packages.old) r) }
    ensures right { IfOk result (λ e. HasNoFault (expr_of e) (set_seen packages.new)) }
    ensures kept { OnErr result (set_seen packages.new ≡ set_seen packages.old) }
    ensures roots { (set_seen packages.new).roots ≡ (set_seen packages.old).roots }
    ensures cause { IsCaused result (F.faults files.old) (F.faults files.new)
        (F.failed_opens files.old) (F.failed_opens files.new) }
    ensures taken { NotFewer (F.taken files.old) (F.taken files.new) }
    ensures memory { IfErr result HasNoPlace }
    ensures tree { F.tree files.new ≡ F.tree files.old }
    ensures closed { F.is_open files.old ≡ false → F.is_open files.new ≡ false }
{
    match enter_goal(alloc, files, path.as_slice(), packages, *goal) {
        Ok(e) => Ok(e),
        Err(stop) => Err(fault_of(alloc, stop)),
    }
}

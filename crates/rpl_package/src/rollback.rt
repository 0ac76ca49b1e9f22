// Loads a pattern into packages, and rolls back if the pattern is refused.
ghost use Rattle.std.specs.Prelude.{◌≡◌, [], IfOk, OnErr, slice_get};
ghost use Rattle.rpl_syntax.specs.Expression.{Expr as ParsedExpr};
ghost use Rattle.rpl_syntax.specs.View.{expr_of};
ghost use Rattle.rpl_scope.specs.Faults.{Or};
ghost use Rattle.rpl_package.specs.Asking.{IfTold};
ghost use Rattle.rpl_names.specs.Goals.{ReadsGoal};
ghost use Rattle.rpl_package.specs.inside.Marks.{cut_back, marks_of, prefixes_of};
ghost use Rattle.rpl_package.specs.inside.Kept.{with_shortened};
ghost use Rattle.rpl_scope.specs.Seen.{modules_seen};
ghost use Rattle.rpl_names.specs.Loading.{world};
ghost use Rattle.rpl_names.specs.Patterns.{HasNoFault, load_pattern};
ghost use Rattle.rpl_names.specs.Sets.{set_seen};
ghost use Rattle.rpl_names.specs.Stocks.{stock_seen};
ghost use Rattle.rpl_package.specs.inside.Leaving.{LeavesFiles};
ghost use Rattle.rpl_package.specs.inside.Stopping.{Walks};

use crate::opening::Importer;
use crate::pattern::{Goal, enter_pattern};
use rosie_io::Files;
use rpl_names::{PackageSet, Stock, table_of};
use rpl_scope::{Module, Stop};
use rpl_syntax::Expr;
use rpl_text::Chars;
use std::alloc::Global;

/// How many modules, paths, package names and prefixes there were before a pattern was loaded.
#[derive(Clone, Copy)]
struct Marks {
    modules: usize,
    paths: usize,
    labels: usize,
    prefixes: usize,
}

/// Returns the number of prefixes of the top module.
fn prefix_count(modules: &[Module], top: usize) -> usize
    ensures { result ≡ prefixes_of (slice_get (modules_seen modules.now) top) }
{
    match modules.get(top) {
        Some(own) => own.prefixes.len(),
        None => 0,
    }
}

/// Returns how many modules, paths, package names and prefixes there are now.
fn marks_of(stock: &Stock, top: usize) -> Marks
    ensures { result ≡ marks_of (stock_seen stock.now) top }
{
    Marks {
        modules: stock.modules.len(),
        paths: stock.paths.len(),
        labels: stock.labels.len(),
        prefixes: prefix_count(&stock.modules, top),
    }
}

/// Keeps only the first `count` prefixes of the top module.
fn shorten(modules: &mut Vec<Module>, top: usize, count: usize)
    ensures { modules_seen modules.new.items
        ≡ with_shortened top count (modules_seen modules.old.items) }
{
    match modules.get_mut(top) {
        Some(own) => own.prefixes.truncate(count),
        None => {}
    }
}

/// Removes everything that was added since `marks` was recorded.
fn cut_back(stock: &mut Stock, top: usize, marks: Marks)
    ensures stock { stock_seen stock.new ≡ cut_back top marks (stock_seen stock.old) }
    ensures held { stock.new.held.items ≡ [] }
{
    stock.held.clear();
    stock.modules.truncate(marks.modules);
    stock.paths.truncate(marks.paths);
    stock.labels.truncate(marks.labels);
    shorten(&mut stock.modules, top, marks.prefixes);
}

/// Parses a pattern, and loads everything that it imports. If an error is returned, the packages
/// are unchanged.
pub fn enter_goal<F: Files>(
    alloc: Global,
    files: &mut F,
    folders: &[Chars],
    packages: &mut PackageSet,
    goal: Goal<'_>,
) -> Result<Expr, Stop>
    ensures gives { (r : Or ParsedExpr) →
        ReadsGoal goal.entry.fixed goal.entry.find goal.entry.text.now r
        → IfTold F.tells (Walks (F.asked files.old) (F.asked files.new)
        (λ e. (expr_of e, set_seen packages.new)) result)
        (load_pattern (world (F.tree files.old) folders.now) (set_seen packages.old) r) }
    ensures right { IfOk result (λ e. HasNoFault (expr_of e) (set_seen packages.new)) }
    ensures kept { OnErr result (set_seen packages.new ≡ set_seen packages.old) }
    ensures roots { (set_seen packages.new).roots ≡ (set_seen packages.old).roots }
    ensures files { LeavesFiles F.Source result files.old files.new }
{
    let file = Chars::from_str(alloc, "(pattern)")?;
    let importer = Importer {
        alloc,
        file: &file,
        folders,
    };
    let marks = marks_of(&packages.stock, packages.top);
    match enter_pattern(files, &mut packages.stock, packages.top, importer, goal) {
        Err(stop) => {
            cut_back(&mut packages.stock, packages.top, marks);
            Err(stop)
        }
        // If the pattern adds no module, the table stays valid.
        Ok(e) if packages.stock.modules.len() == marks.modules => Ok(e),
        Ok(e) => match table_of(alloc, &packages.stock.modules) {
            Err(stop) => {
                cut_back(&mut packages.stock, packages.top, marks);
                Err(stop)
            }
            Ok(table) => {
                packages.table = table;
                Ok(e)
            }
        },
    }
}

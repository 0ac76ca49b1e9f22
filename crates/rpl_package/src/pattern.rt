// The pattern: its text, the packages that it imports, its names and its macros.
ghost use Rattle.std.specs.Prelude.{◌≡◌, [], All, IfErr, IfOk, None, Ok, OnOk, false, map};
ghost use Rattle.std.specs.Prelude.{slice_get};
ghost use Rattle.rpl_syntax.specs.Expression.{Expr as ParsedExpr};
ghost use Rattle.rpl_syntax.specs.View.{expr_of};
ghost use Rattle.rpl_scope.specs.Bodies.{names};
ghost use Rattle.rpl_scope.specs.Faults.{Checks, Gives, Or};
ghost use Rattle.rpl_package.specs.Asking.{IfTold, each_in_turn};
ghost use Rattle.rpl_names.specs.Built.{InGoal, IsGoal, StaysBuilt};
ghost use Rattle.rpl_names.specs.Goals.{ReadsGoal, ReadsText, pattern_file, sought};
ghost use Rattle.rpl_names.specs.Loading as L;
ghost use Rattle.rpl_names.specs.Loading.{world};
ghost use Rattle.rpl_package.specs.inside.Marks.{CutsTo};
ghost use Rattle.rpl_names.specs.Patterns.{enter_pattern, goal_entered, pattern_fault};
ghost use Rattle.rpl_names.specs.Patterns.{pattern_name, put_by};
ghost use Rattle.rpl_names.specs.Patterns.{needed_import, needed_at};
ghost use Rattle.rpl_package.specs.inside.Asked.{Reads};
ghost use Rattle.rpl_package.specs.inside.Reading.{IsLoud};
ghost use Rattle.rpl_names.specs.Stocks.{stock_seen};
ghost use Rattle.rpl_package.specs.inside.Leaving.{LeavesFiles};
ghost use Rattle.rpl_package.specs.inside.Stopping.{Walks};
ghost use Rattle.rpl_scope.specs.Seen.{module_seen, modules_seen};

use crate::locate::MAX_TEXT_BYTES;
use crate::opening::{Importer, MAX_MODULES, Walker};
use crate::reading::{lex_stop, parse_stop};
use crate::walk::load_import;
use rosie_io::Files;
use rpl_lexer::{cut_computes, lex};
use rpl_names::Stock;
use rpl_parser::{one_pattern, parse_pattern};
use rpl_scope::{
    LoadKind, Module, NoMemory, Place, Scope, Stop, add_prefix, check_macros, check_names,
    fault_at, push_names, push_uses,
};
use rpl_syntax::{Expr, Import, ImportAs, QName};
use rpl_text::Chars;
use std::alloc::Global;

/// The text of a pattern, and how to read it.
#[derive(Clone, Copy, Debug)]
pub struct Goal<'a> {
    pub text: &'a str,
    /// Whether the text is a literal instead of RPL.
    pub fixed: bool,
    /// Whether to search for the pattern anywhere, as with `findall`.
    pub find: bool,
}

/// Returns the expression `e`, wrapped in `findall` if `find` is `true`.
fn sought(alloc: Global, find: bool, e: Expr) -> Result<Expr, NoMemory>
    ensures { IfOk result (λ x. expr_of x ≡ sought find (expr_of e)) }
{
    if !find {
        return Ok(e);
    }
    let name = QName {
        prefix: None,
        name: Chars::from_str(alloc, "findall")?,
        at: 0,
    };
    let arg = Box::new(alloc, e)?;
    Ok(Expr::Macro { name, arg })
}

/// Parses a pattern's text as RPL, without checking the length of the text.
fn read_pattern(alloc: Global, file: &Chars, text: &str, find: bool) -> Result<Expr, Stop>
    requires { file.now ≡ pattern_file }
    ensures gives { (r : Or ParsedExpr) → ReadsText false find text.now r → Gives expr_of result r }
    ensures reads { IfOk result (λ e. ReadsText false find text.now (Ok (expr_of e))) }
    ensures loud { IfErr result IsLoud }
{
    cut_computes();
    one_pattern();
    let tokens = match lex(alloc, text) {
        Ok(tokens) => tokens,
        Err(fault) => return Err(lex_stop(alloc, file, fault)),
    };
    match parse_pattern(alloc, text, &tokens) {
        Ok(e) => Ok(sought(alloc, find, e)?),
        Err(fault) => Err(parse_stop(alloc, file, fault)),
    }
}

/// Parses a pattern's text.
#[tactic(auto, using(rpl_scope::proofs::Stops::told, crate::proofs::Causes::told_loud))]
fn read_goal(alloc: Global, file: &Chars, text: &str, fixed: bool, find: bool) -> Result<Expr, Stop>
    requires { file.now ≡ pattern_file }
    ensures gives { (r : Or ParsedExpr) → ReadsGoal fixed find text.now r → Gives expr_of result r }
    ensures goal { IfOk result (λ e. IsGoal (expr_of e)) }
    ensures loud { IfErr result IsLoud }
{
    if text.len() > MAX_TEXT_BYTES {
        return Err(fault_at(alloc, file, 0, LoadKind::FileTooLong));
    }
    if fixed {
        let text = Chars::from_str(alloc, text)?;
        return Ok(sought(alloc, find, Expr::Text(text))?);
    }
    read_pattern(alloc, file, text, find)
}

/// Returns the import that a name requires, or `None` if the name has no prefix or the module
/// already has the name's prefix.
fn needed_import(alloc: Global, own: &Module, name: &QName) -> Result<Option<Import>, NoMemory>
    ensures { IfOk result (λ i. i ≡ needed_import (module_seen own.now) name.now) }
{
    let Some(prefix) = &name.prefix else {
        return Ok(None);
    };
    if prefix.as_str().is_empty() {
        return Ok(None);
    }
    if own.prefixes.get(prefix).is_some() {
        return Ok(None);
    }
    let path = prefix.copy(alloc)?;
    Ok(Some(Import {
        path,
        at: name.at,
        name: ImportAs::Last,
    }))
}

/// Returns the import that a name requires in the top module.
fn needed_at(
    alloc: Global,
    modules: &[Module],
    top: usize,
    name: &QName,
) -> Result<Option<Import>, NoMemory>
    ensures { IfOk result (λ i. i ≡ needed_at name.now (slice_get (modules_seen modules.now) top)) }
{
    match modules.get(top) {
        None => Ok(None),
        Some(own) => needed_import(alloc, own, name),
    }
}

/// Adds the prefix of an import to the top module, and binds the prefix to module number `number`.
fn put(
    stock: &mut Stock,
    top: usize,
    importer: Importer<'_>,
    import: &Import,
    number: usize,
) -> Result<(), Stop>
    ensures gives { Gives (λ _. stock_seen stock.new) result
        (put_by importer.entry.file.now import.now number top (stock_seen stock.old)
        (slice_get (stock_seen stock.old).modules top)) }
    ensures held { stock.new.held ≡ stock.old.held }
    ensures kept { (a : L.Stock) → CutsTo top a (stock_seen stock.old) →
        CutsTo top a (stock_seen stock.new) }
{
    let Importer { alloc, file, .. } = importer;
    let place = Place {
        file,
        at: import.at,
    };
    match stock.modules.get_mut(top) {
        Some(own) => match add_prefix(alloc, own, place, &import.path, number) {
            Ok(()) => Ok(()),
            Err(stop) => Err(stop),
        },
        None => Ok(()),
    }
}

/// Loads the package that a name in the pattern requires, if the name requires one.
fn enter_name<F: Files>(
    files: &mut F,
    stock: &mut Stock,
    top: usize,
    importer: Importer<'_>,
    name: &QName,
) -> Result<(), Stop>
    requires idle { stock.old.held.items ≡ [] }
    requires goal { InGoal name.now }
    ensures gives { let w = world (F.tree files.old) importer.entry.folders.now in
        IfTold F.tells (Walks (F.asked files.old) (F.asked files.new)
        (λ _. stock_seen stock.new) result)
        (pattern_name w importer.entry.file.now top name.now (stock_seen stock.old)) }
    ensures held { OnOk result (stock.new.held.items ≡ stock.old.held.items) }
    ensures kept { (a : L.Stock) → CutsTo top a (stock_seen stock.old) →
        CutsTo top a (stock_seen stock.new) }
    ensures built { OnOk result (StaysBuilt top (stock_seen stock.old) (stock_seen stock.new)) }
    ensures files { LeavesFiles F.Source result files.old files.new }
{
    let asked = needed_at(importer.alloc, &stock.modules, top, name)?;
    let Some(import) = asked else {
        return Ok(());
    };
    let walker = Walker {
        importer,
        depth: MAX_MODULES,
    };
    let number = load_import(files, stock, &walker, &import)?;
    put(stock, top, importer, &import, number)
}

/// Loads the packages that the names in a pattern require, in the order of the names.
fn enter_names<F: Files>(
    files: &mut F,
    stock: &mut Stock,
    top: usize,
    importer: Importer<'_>,
    all: &[&QName],
) -> Result<(), Stop>
    requires idle { stock.old.held.items ≡ [] }
    requires goal { All InGoal (map (λ q. q.now) all.now) }
    ensures gives { let w = world (F.tree files.old) importer.entry.folders.now in
        IfTold F.tells (Walks (F.asked files.old) (F.asked files.new)
        (λ _. stock_seen stock.new) result)
        (each_in_turn (pattern_name w importer.entry.file.now top) (map (λ q. q.now) all.now)
        (stock_seen stock.old)) }
    ensures held { OnOk result (stock.new.held.items ≡ []) }
    ensures kept { (a : L.Stock) → CutsTo top a (stock_seen stock.old) →
        CutsTo top a (stock_seen stock.new) }
    ensures built { OnOk result (StaysBuilt top (stock_seen stock.old) (stock_seen stock.new)) }
    ensures files { LeavesFiles F.Source result files.old files.new }
{
    for name in all {
        enter_name(files, stock, top, importer, name)?;
    }
    Ok(())
}

/// Checks the names in a pattern, and then its uses of macros.
fn check_pattern(
    stock: &Stock,
    top: usize,
    importer: Importer<'_>,
    all: &[&QName],
    e: &Expr,
) -> Result<(), Stop>
    requires { map (λ q. q.now) all.now ≡ names (expr_of e.now) }
    ensures { Checks result (pattern_fault importer.entry.file.now (expr_of e.now)
        (modules_seen stock.now.modules.items)
        (slice_get (modules_seen stock.now.modules.items) top)) }
{
    let Importer { alloc, file, .. } = importer;
    let Some(own) = stock.modules.get(top) else {
        return Ok(());
    };
    let start = own.rules.len();
    let scope = Scope {
        modules: &stock.modules,
        own,
        start,
    };
    check_names(alloc, file, scope, all)?;
    let mut uses = Vec::new(alloc);
    push_uses(e, &mut uses)?;
    check_macros(alloc, file, &uses)
}

/// Loads the imports of a parsed pattern, and then checks its names and its uses of macros.
fn enter_expr<F: Files>(
    files: &mut F,
    stock: &mut Stock,
    top: usize,
    importer: Importer<'_>,
    e: &Expr,
) -> Result<(), Stop>
    requires idle { stock.old.held.items ≡ [] }
    requires goal { IsGoal (expr_of e.now) }
    ensures gives { let w = world (F.tree files.old) importer.entry.folders.now in
        IfTold F.tells (Walks (F.asked files.old) (F.asked files.new)
        (λ _. stock_seen stock.new) result)
        (enter_pattern w importer.entry.file.now top (stock_seen stock.old) (expr_of e.now)) }
    ensures right { OnOk result (pattern_fault importer.entry.file.now (expr_of e.now)
        (stock_seen stock.new).modules
        (slice_get (stock_seen stock.new).modules top) ≡ None) }
    ensures held { OnOk result (stock.new.held.items ≡ []) }
    ensures kept { (a : L.Stock) → CutsTo top a (stock_seen stock.old) →
        CutsTo top a (stock_seen stock.new) }
    ensures built { OnOk result (StaysBuilt top (stock_seen stock.old) (stock_seen stock.new)) }
    ensures files { LeavesFiles F.Source result files.old files.new }
{
    let mut all = Vec::new(importer.alloc);
    push_names(e, &mut all)?;
    enter_names(files, stock, top, importer, &all)?;
    check_pattern(stock, top, importer, &all, e)
}

/// Parses a pattern, and loads everything that it imports.
pub fn enter_pattern<F: Files>(
    files: &mut F,
    stock: &mut Stock,
    top: usize,
    importer: Importer<'_>,
    goal: Goal<'_>,
) -> Result<Expr, Stop>
    requires idle { stock.old.held.items ≡ [] }
    requires file { importer.file.now ≡ pattern_file }
    ensures gives { (r : Or ParsedExpr) → Reads goal.entry r →
        IfTold F.tells (Walks (F.asked files.old) (F.asked files.new)
        (λ e. (expr_of e, stock_seen stock.new)) result)
        (goal_entered (world (F.tree files.old) importer.entry.folders.now) top
        (stock_seen stock.old) r) }
    ensures right { IfOk result (λ e. pattern_fault pattern_file (expr_of e)
        (stock_seen stock.new).modules
        (slice_get (stock_seen stock.new).modules top) ≡ None) }
    ensures held { OnOk result (stock.new.held.items ≡ []) }
    ensures kept { (a : L.Stock) → CutsTo top a (stock_seen stock.old) →
        CutsTo top a (stock_seen stock.new) }
    ensures built { OnOk result (StaysBuilt top (stock_seen stock.old) (stock_seen stock.new)) }
    ensures files { LeavesFiles F.Source result files.old files.new }
{
    let Importer { alloc, file, .. } = importer;
    let e = read_goal(alloc, file, goal.text, goal.fixed, goal.find)?;
    enter_expr(files, stock, top, importer, &e)?;
    Ok(e)
}

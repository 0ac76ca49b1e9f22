// The modules that are loaded, and those that are being loaded.
ghost use Rattle.std.specs.Prelude.{◌≡◌, ◌++◌, ◌∷◌, [], OnErr, OnOk, IfOk, IfErr, length};
ghost use Rattle.rpl_package.specs.inside.Kept.{Keeps};
ghost use Rattle.rpl_package.specs.inside.Noted.{noted};
ghost use Rattle.rpl_names.specs.Loading.{is_loading, is_held, is_taken, finished, empty_module};
ghost use Rattle.rpl_names.specs.Loading.{with_path};
ghost use Rattle.rpl_names.specs.Stocks.{stock_seen};
ghost use Rattle.rpl_scope.specs.Seen.{module_seen};
ghost use Rattle.rpl_scope.specs.declared.fault.Stop.TheVariants.{Memory as OutOfMemory};

use rpl_names::{Head, Stock};
use rpl_scope::{Module, ModuleNames, Named, NoMemory, Stop, same};
use rpl_text::Chars;
use std::alloc::Global;
use std::cell::OnceCell;

/// The loaded modules, and the current module, which is not among them yet.
#[derive(Drop)]
pub struct State {
    pub stock: Stock,
    pub own: Module,
}

/// Returns the path and the package name of a module that is being loaded.
pub fn head_of(alloc: Global, path: &Option<Chars>, label: &Chars) -> Result<Head, NoMemory>
    ensures { IfOk result (λ h. h ≡ record { path = path.now; label = label.now }) }
{
    let label = label.copy(alloc)?;
    match path {
        Some(path) => Ok(Head {
            path: Some(path.copy(alloc)?),
            label,
        }),
        None => Ok(Head { path: None, label }),
    }
}

/// Returns whether a module with this path is being loaded.
pub fn is_loading(held: &[Head], path: &Chars) -> bool
    ensures { result ≡ is_loading path.now held.now }
{
    for head in held {
        if let Some(other) = &head.path {
            if same(other, path) {
                return true;
            }
        }
    }
    false
}

/// Returns whether a module with this package name is being loaded.
fn is_held(held: &[Head], label: &Chars) -> bool
    ensures { result ≡ is_held label.now held.now }
{
    for head in held {
        if same(&head.label, label) {
            return true;
        }
    }
    false
}

/// Returns whether a module already has this package name.
pub fn is_taken(stock: &Stock, label: &Chars) -> bool
    ensures { result ≡ is_taken label.now stock.now.held.items (stock_seen stock.now) }
{
    is_held(&stock.held, label) || stock.labels.get(label).is_some()
}

/// If the module has a path, stores the module's number under the path.
fn note_path(
    alloc: Global,
    paths: &mut Named<usize>,
    path: &Option<Chars>,
    number: usize,
) -> Result<(), NoMemory>
    ensures ok { OnOk result (paths.new ≡ with_path path.now number paths.old) }
    ensures err { OnErr result (paths.new ≡ paths.old) }
{
    match path {
        Some(path) => paths.add(alloc, path, number),
        None => Ok(()),
    }
}

/// Appends a module.
fn push_module(modules: &mut Vec<Module>, from: Module) -> Result<(), NoMemory>
    ensures ok { OnOk result (modules.new.items ≡ modules.old.items ++ from ∷ []) }
    ensures err { OnErr result (modules.new.items ≡ modules.old.items) }
{
    modules.push(from)?;
    Ok(())
}

/// Stores the number of the next module under its path and its package name, and returns the
/// number.
fn note(alloc: Global, stock: &mut Stock, from: &Module) -> Result<usize, NoMemory>
    ensures noted { OnOk result (stock_seen stock.new
        ≡ noted (stock_seen stock.old) (module_seen from.now)) }
    ensures number { IfOk result (λ n. n ≡ length (stock_seen stock.old).modules) }
    ensures kept { Keeps (stock_seen stock.old) (stock_seen stock.new) }
    ensures modules { stock.new.modules ≡ stock.old.modules }
    ensures held { stock.new.held ≡ stock.old.held }
{
    let number = stock.modules.len();
    note_path(alloc, &mut stock.paths, &from.path, number)?;
    stock.labels.add(alloc, &from.label, number)?;
    Ok(number)
}

/// Adds a module whose loading is finished, and returns its number.
pub fn finish(alloc: Global, stock: &mut Stock, from: Module) -> Result<usize, Stop>
    ensures stock { OnOk result (stock_seen stock.new
        ≡ finished (stock_seen stock.old) (module_seen from)) }
    ensures number { IfOk result (λ n. n ≡ length (stock_seen stock.old).modules) }
    ensures held { OnOk result (stock.new.held ≡ stock.old.held) }
    ensures kept { Keeps (stock_seen stock.old) (stock_seen stock.new) }
    ensures memory { IfErr result (λ s. s ≡ OutOfMemory) }
{
    let number = note(alloc, stock, &from)?;
    push_module(&mut stock.modules, from)?;
    Ok(number)
}

/// Returns a module without statements.
pub fn empty_module(alloc: Global, path: Option<Chars>, label: Chars) -> Module
    ensures { module_seen result ≡ empty_module path label }
{
    Module {
        path,
        label,
        texts: Vec::new(alloc),
        rules: Vec::new(alloc),
        prefixes: Named::new(alloc),
        names: ModuleNames::new(alloc),
        for_importers: OnceCell::new(),
    }
}

// Opens an import: parses its text and begins its module, before any statement is entered.
ghost use Rattle.std.specs.Prelude.{◌≡◌, ◌≢◌, ◌+◌, ◌-◌, ◌++◌, ◌∷◌, [], ℕ, List, OnOk, IfErr, IfOk};
ghost use Rattle.std.specs.Prelude.{None, Ok, Some, false, length, nat_lt, take, true};
ghost use Rattle.rpl_syntax.specs.Modules.{said};
ghost use Rattle.rpl_package.specs.Asking.{in_bytes};
ghost use Rattle.rpl_names.specs.Loading.{find, is_loading, label_of, label_at, load_import};
ghost use Rattle.rpl_names.specs.Loading.{paths_tried, taken_up};
ghost use Rattle.rpl_names.specs.Stocks.{state_seen, stock_seen};
ghost use Rattle.rpl_names.specs.Texts.{module_text};
ghost use Rattle.rpl_package.specs.inside.Kept.{Keeps};
ghost use Rattle.rpl_package.specs.inside.Leaving.{LeavesFiles};
ghost use Rattle.rpl_package.specs.inside.Opening.{Begins, GoesOn, StopsWalk, imported_head};
ghost use Rattle.rpl_package.specs.inside.Opening.{TellsFile, own_begun, under};
ghost use Rattle.rpl_package.specs.inside.Reading.{IsLoud, IsRead, Locates};
ghost use Rattle.rpl_package.specs.inside.Stopping.{MayStop};
ghost use Rattle.rpl_scope.specs.Faults.{Gives, IsStop, fault_at};
ghost use Rattle.rpl_scope.specs.Packages.{first_of};
ghost use Rattle.rpl_scope.specs.declared.fault.LoadKind.TheVariants.{ImportCycle};
ghost use Rattle.rpl_scope.specs.declared.fault.Stop.TheVariants.{Memory as OutOfMemory};

use crate::locate::{Located, locate};
use crate::reading::read_module;
use crate::stock::{empty_module, finish, head_of, is_taken};
use rosie_io::Files;
use rpl_names::{Head, Stock};
use rpl_scope::{LoadKind, Module, NoMemory, Stop, fault_at, last_part};
use rpl_syntax::{Import, Module as ParsedModule, QName};
use rpl_text::Chars;
use std::alloc::Global;

/// The largest number of modules that may be loaded, including the top module.
pub const MAX_MODULES: usize = 1_024;

/// A text that imports packages: its file, and the folders that are searched for its imports.
#[derive(Clone, Copy)]
pub struct Importer<'a> {
    pub alloc: Global,
    pub file: &'a Chars,
    pub folders: &'a [Chars],
}

/// An importer, and how many more levels of files can be nested inside it.
#[derive(Clone, Copy)]
pub struct Walker<'a> {
    pub importer: Importer<'a>,
    pub depth: usize,
}

/// An imported text: its file and its content.
#[derive(Drop)]
pub struct ImportedText {
    pub file: Chars,
    pub text: ParsedModule,
}

/// An imported text and its module, which is still empty. Both are on the heap, so neither takes
/// stack space while the imports of the text are loaded.
#[derive(Drop)]
pub struct Opened {
    pub read: Box<ImportedText>,
    pub own: Box<Module>,
}

/// Returns the error for an import of a module that is still being loaded.
#[inline(never)]
pub fn cycle_stop(importer: Importer<'_>, import: &Import) -> Stop
    ensures { IsStop result (fault_at importer.entry.file.now import.now.at
        (ImportCycle import.now.path)) }
{
    match import.path.copy(importer.alloc) {
        Ok(path) => {
            let kind = LoadKind::ImportCycle { path };
            fault_at(importer.alloc, importer.file, import.at, kind)
        }
        Err(_) => Stop::Memory,
    }
}

/// Finds the file of an import, and checks that one more module may be loaded.
#[tactic(auto, using(rpl_scope::proofs::Stops::told, crate::proofs::Outcomes::may))]
fn find_import<F: Files>(
    files: &mut F,
    stock: &Stock,
    walker: &Walker<'_>,
    import: &Import,
) -> Result<Located, Stop>
    requires free { is_loading import.now.path stock.now.held.items ≡ false }
    requires new { first_of import.now.path (stock_seen stock.now).paths ≡ None }
    ensures found { TellsFile F.tells (F.tree files.old) walker.now import.now →
        IfOk result (λ l. Locates (Some l)
        (find (F.tree files.old) walker.now.importer.folders.now import.now.path)) }
    ensures asked { TellsFile F.tells (F.tree files.old) walker.now import.now →
        IfOk result (λ _. F.asked files.new ≡ F.asked files.old ++ in_bytes
        (paths_tried (F.tree files.old) walker.now.importer.folders.now import.now.path)) }
    ensures room { IfOk result (λ _. nat_lt
        (length stock.now.modules.items + length stock.now.held.items) 1024 ≡ true) }
    ensures stops { TellsFile F.tells (F.tree files.old) walker.now import.now →
        IfErr result (λ s. MayStop (F.asked files.old) (F.asked files.new) s
        (under load_import (F.tree files.old) walker.now stock.now.held.items import.now
        (stock_seen stock.now))) }
    ensures files { LeavesFiles F.Source result files.old files.new }
{
    let Importer {
        alloc,
        file,
        folders,
        ..
    } = walker.importer;
    let Some(found) = locate(alloc, files, folders, &import.path)? else {
        let kind = LoadKind::ImportMissing {
            path: import.path.copy(alloc)?,
        };
        return Err(fault_at(alloc, file, import.at, kind));
    };
    if stock.modules.len() >= MAX_MODULES || MAX_MODULES - stock.modules.len() <= stock.held.len() {
        return Err(fault_at(alloc, file, import.at, LoadKind::TooManyPackages));
    }
    Ok(found)
}

/// Returns the package name of an imported text.
fn label_of(alloc: Global, name: &Option<QName>, path: &Chars) -> Result<Chars, NoMemory>
    ensures { IfOk result (λ label. label ≡ label_of name.now path.now) }
{
    match name {
        Some(name) => name.name.copy(alloc),
        None => last_part(alloc, path),
    }
}

/// Returns the byte offset of the package name, or 0 if there is no package name.
fn label_at(name: &Option<QName>) -> usize
    ensures { result ≡ label_at name.now }
{
    match name {
        Some(name) => name.at,
        None => 0,
    }
}

/// Returns the path and the package name of an imported text.
fn imported_head(alloc: Global, name: &Option<QName>, path: &Chars) -> Result<Head, NoMemory>
    ensures { IfOk result (λ h. h ≡ imported_head name.now path.now) }
{
    let label = label_of(alloc, name, path)?;
    let path = path.copy(alloc)?;
    Ok(Head {
        path: Some(path),
        label,
    })
}

/// Begins a new module for a text, unless the package name is taken. Once begun, the module counts
/// as being loaded.
#[tactic(auto, using(rpl_scope::proofs::Stops::told))]
pub fn open_own(
    stock: &mut Stock,
    importer: Importer<'_>,
    head: Head,
    text: &ParsedModule,
) -> Result<Module, Stop>
    ensures gives { Gives (λ m. state_seen stock.new m) result (own_begun (stock_seen stock.old)
        stock.old.held.items importer.entry.file.now head (said text.now)) }
    ensures held { OnOk result (stock.new.held.items ≡ stock.old.held.items ++ head ∷ []) }
    ensures kept { stock_seen stock.new ≡ stock_seen stock.old }
{
    let Head { path, label } = head;
    if is_taken(stock, &label) {
        let at = label_at(&text.package);
        let kind = LoadKind::Duplicate { name: label };
        return Err(fault_at(importer.alloc, importer.file, at, kind));
    }
    let held = head_of(importer.alloc, &path, &label)?;
    stock.held.push(held)?;
    Ok(empty_module(importer.alloc, path, label))
}

/// Moves a text and its module to the heap.
fn boxed(alloc: Global, read: ImportedText, own: Module) -> Result<Opened, NoMemory>
    ensures { IfOk result (λ o. (o.read.value ≡ read) × (o.own.value ≡ own)) }
{
    let read = Box::new(alloc, read)?;
    let own = Box::new(alloc, own)?;
    Ok(Opened { read, own })
}

/// Parses the text of a file and begins its module.
#[tactic(auto, using(rpl_scope::proofs::Stops::told, crate::proofs::Causes::told_loud))]
fn open_found(
    stock: &mut Stock,
    walker: &Walker<'_>,
    path: &Chars,
    found: Located,
) -> Result<Opened, Stop>
    ensures begins { IfOk result (λ o. Begins stock.old.held.items path.now (stock_seen stock.old)
        (said o.read.value.text) stock.new.held.items (state_seen stock.new o.own.value)) }
    ensures file { IfOk result (λ o. o.read.value.file ≡ found.file) }
    ensures read { IfOk result (λ o. (bytes : List ℕ) → IsRead found.read bytes →
        module_text found.file bytes ≡ Ok (said o.read.value.text)) }
    ensures deep { IfOk result (λ _. walker.now.depth ≢ 0) }
    ensures stops { IfErr result (λ s. (bytes : List ℕ) → IsRead found.read bytes →
        StopsWalk s walker.now (stock_seen stock.old) stock.old.held.items found.file path.now
        bytes) }
    ensures kept { stock_seen stock.new ≡ stock_seen stock.old }
    ensures loud { IfErr result IsLoud }
{
    let Located { file, read } = found;
    let alloc = walker.importer.alloc;
    if walker.depth == 0 {
        return Err(fault_at(alloc, &file, 0, LoadKind::TooManyPackages));
    }
    let text = read_module(alloc, &file, read)?;
    let head = imported_head(alloc, &text.package, path)?;
    let importer = Importer {
        file: &file,
        ..walker.importer
    };
    let own = open_own(stock, importer, head, &text)?;
    let opened = boxed(alloc, ImportedText { file, text }, own)?;
    Ok(opened)
}

/// Parses the text of an import that is not loaded yet, and begins its module.
#[inline(never)]
pub fn open_import<F: Files>(
    files: &mut F,
    stock: &mut Stock,
    walker: &Walker<'_>,
    import: &Import,
) -> Result<Opened, Stop>
    requires free { is_loading import.now.path stock.old.held.items ≡ false }
    requires new { first_of import.now.path (stock_seen stock.old).paths ≡ None }
    ensures begins { IfOk result (λ o. Begins stock.old.held.items import.now.path
        (stock_seen stock.old) (said o.read.value.text) stock.new.held.items
        (state_seen stock.new o.own.value)) }
    ensures deep { IfOk result (λ _. walker.now.depth ≢ 0) }
    ensures goes { TellsFile F.tells (F.tree files.old) walker.now import.now →
        IfOk result (λ o. GoesOn (F.asked files.new) (F.asked files.old) (F.tree files.old)
        walker.now stock.new o
        (under load_import (F.tree files.old) walker.now stock.old.held.items import.now
        (stock_seen stock.old))) }
    ensures stops { TellsFile F.tells (F.tree files.old) walker.now import.now →
        IfErr result (λ s. MayStop (F.asked files.old) (F.asked files.new) s
        (under load_import (F.tree files.old) walker.now stock.old.held.items import.now
        (stock_seen stock.old))) }
    ensures kept { stock_seen stock.new ≡ stock_seen stock.old }
    ensures files { LeavesFiles F.Source result files.old files.new }
{
    let found = find_import(files, stock, walker, import)?;
    open_found(stock, walker, &import.path, found)
}

/// Finishes the most recently begun module, and returns its number.
#[inline(never)]
pub fn close(alloc: Global, stock: &mut Stock, own: Box<Module>) -> Result<usize, Stop>
    ensures taken { IfOk result (λ n. (n, stock_seen stock.new)
        ≡ taken_up (state_seen stock.old own.value)) }
    ensures held { OnOk result (stock.new.held.items
        ≡ take (length stock.old.held.items - 1) stock.old.held.items) }
    ensures kept { Keeps (stock_seen stock.old) (stock_seen stock.new) }
    ensures memory { IfErr result (λ s. s ≡ OutOfMemory) }
{
    stock.held.pop();
    finish(alloc, stock, Box::into_inner(own))
}

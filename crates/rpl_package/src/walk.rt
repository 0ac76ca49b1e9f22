// The walk over a text and everything that it imports.
ghost use Rattle.std.specs.Prelude.{◌≡◌, All, OnOk, IfOk, IfErr, length};
ghost use Rattle.rpl_syntax.specs.Modules.{said};
ghost use Rattle.rpl_package.specs.Asking.{IfTold};
ghost use Rattle.rpl_names.specs.Built.{Becomes, IsAsked, IsSaid, Reaches};
ghost use Rattle.rpl_names.specs.Loading.{checks, import_entries, load_import};
ghost use Rattle.rpl_names.specs.Loading.{with_text};
ghost use Rattle.rpl_names.specs.Stocks.{stock_seen, state_seen};
ghost use Rattle.rpl_package.specs.inside.Kept.{Keeps};
ghost use Rattle.rpl_package.specs.inside.Leaving.{LeavesFiles};
ghost use Rattle.rpl_package.specs.inside.Opening.{MakesOne, own_loaded, under};
ghost use Rattle.rpl_package.specs.inside.Stopping.{Walks};
ghost use Rattle.rpl_scope.specs.Seen.{module_seen};
ghost use Rattle.rpl_scope.specs.declared.fault.Stop.TheVariants.{Memory as OutOfMemory};

use crate::opening::{Importer, Opened, Walker, close, cycle_stop, open_import, open_own};
use crate::stock::{finish, is_loading};
use crate::taken::bring;
use rosie_io::Files;
use rpl_names::{Head, Stock};
use rpl_scope::{Loaded, Module, ModuleText, Stop, enter_items};
use rpl_syntax::{Import, Module as ParsedModule};
use rpl_text::Chars;
use std::alloc::Global;

/// Adds a text to a module, and returns the number of the text in that module.
#[inline(never)]
fn push_text(alloc: Global, own: &mut Module, file: &Chars) -> Result<usize, Stop>
    ensures text { OnOk result (module_seen own.new ≡ with_text (module_seen own.old) file.now) }
    ensures number { IfOk result (λ n. n ≡ length (module_seen own.old).texts) }
    ensures memory { IfErr result (λ s. s ≡ OutOfMemory) }
{
    let number = own.texts.len();
    let text = file.copy(alloc)?;
    own.texts.push(text)?;
    Ok(number)
}

/// Loads the module that an import names, and returns its number.
///
/// The function calls itself once per nested file. While the imports of an imported text are
/// loaded, the data of that text is on the heap, and only pointers to it are on the stack.
#[cycle(load)]
#[tactic(auto, using(rpl_scope::proofs::Stops::told))]
pub fn load_import<F: Files>(
    files: &mut F,
    stock: &mut Stock,
    walker: &Walker<'_>,
    import: &Import,
) -> Result<usize, Stop>
    requires asked { IsAsked import.now }
    ensures gives { IfTold F.tells (Walks (F.asked files.old) (F.asked files.new)
        (λ n. (n, stock_seen stock.new)) result)
        (under load_import (F.tree files.old) walker.now stock.old.held.items import.now
        (stock_seen stock.old)) }
    ensures held { OnOk result (stock.new.held.items ≡ stock.old.held.items) }
    ensures kept { Keeps (stock_seen stock.old) (stock_seen stock.new) }
    ensures built { IfOk result (λ n. Reaches stock.old.held.items import.now.path
        (stock_seen stock.old) (n, stock_seen stock.new)) }
    ensures files { LeavesFiles F.Source result files.old files.new }
{
    if is_loading(&stock.held, &import.path) {
        return Err(cycle_stop(walker.importer, import));
    }
    if let Some(number) = stock.paths.get(&import.path) {
        return Ok(number);
    }
    let Opened { read, mut own } = open_import(files, stock, walker, import)?;
    let importer = Importer {
        file: &read.file,
        ..walker.importer
    };
    let inner = Walker {
        importer,
        depth: walker.depth - 1,
    };
    load_text(files, stock, &mut own, &inner, &read.text)?;
    close(walker.importer.alloc, stock, own)
}

/// Loads a text of the current module: its imports, and then its statements.
#[cycle(load)]
pub fn load_text<F: Files>(
    files: &mut F,
    stock: &mut Stock,
    own: &mut Module,
    walker: &Walker<'_>,
    text: &ParsedModule,
) -> Result<(), Stop>
    requires said { IsSaid (said text.now) }
    ensures gives { IfTold F.tells (Walks (F.asked files.old) (F.asked files.new)
        (λ _. state_seen stock.new own.new) result)
        (under checks (F.tree files.old) walker.now stock.old.held.items (said text.now)
        (state_seen stock.old own.old)) }
    ensures held { OnOk result (stock.new.held.items ≡ stock.old.held.items) }
    ensures kept { Keeps (stock_seen stock.old) (stock_seen stock.new) }
    ensures built { OnOk result (Becomes stock.old.held.items (state_seen stock.old own.old)
        (state_seen stock.new own.new)) }
    ensures files { LeavesFiles F.Source result files.old files.new }
{
    let Importer { alloc, file, .. } = walker.importer;
    let number = push_text(alloc, own, file)?;
    let imports = text.imports.as_slice();
    enter_imports(files, stock, own, walker, imports)?;
    let items = text.items.as_slice();
    let place = ModuleText { file, number };
    enter_items(alloc, &stock.modules, own, place, items)
}

/// Loads the imports, in order, and adds the prefixes and the names that they bring in.
#[cycle(load)]
pub fn enter_imports<F: Files>(
    files: &mut F,
    stock: &mut Stock,
    own: &mut Module,
    walker: &Walker<'_>,
    imports: &[Import],
) -> Result<(), Stop>
    requires asked { All IsAsked imports.now }
    ensures gives { IfTold F.tells (Walks (F.asked files.old) (F.asked files.new)
        (λ _. state_seen stock.new own.new) result)
        (under import_entries (F.tree files.old) walker.now stock.old.held.items imports.now
        (state_seen stock.old own.old)) }
    ensures held { OnOk result (stock.new.held.items ≡ stock.old.held.items) }
    ensures kept { Keeps (stock_seen stock.old) (stock_seen stock.new) }
    ensures built { OnOk result (Becomes stock.old.held.items (state_seen stock.old own.old)
        (state_seen stock.new own.new)) }
    ensures files { LeavesFiles F.Source result files.old files.new }
{
    let mut taken = Vec::new(walker.importer.alloc);
    for import in imports {
        let number = load_import(files, stock, walker, import)?;
        let from = Loaded {
            modules: &stock.modules,
            number,
        };
        bring(own, &mut taken, walker.importer, import, from)?;
    }
    Ok(())
}

/// Loads a text as a module of its own, and returns the module's number. The package name is
/// checked first.
pub fn load_own<F: Files>(
    files: &mut F,
    stock: &mut Stock,
    walker: &Walker<'_>,
    head: Head,
    text: &ParsedModule,
) -> Result<usize, Stop>
    requires said { IsSaid (said text.now) }
    ensures gives { IfTold F.tells (Walks (F.asked files.old) (F.asked files.new)
        (λ n. (n, stock_seen stock.new)) result)
        (under own_loaded (F.tree files.old) walker.now stock.old.held.items head (said text.now)
        (stock_seen stock.old)) }
    ensures held { OnOk result (stock.new.held.items ≡ stock.old.held.items) }
    ensures kept { Keeps (stock_seen stock.old) (stock_seen stock.new) }
    ensures built { IfOk result (λ n. MakesOne stock.old.held.items head (stock_seen stock.old)
        (n, stock_seen stock.new)) }
    ensures files { LeavesFiles F.Source result files.old files.new }
{
    let mut own = open_own(stock, walker.importer, head, text)?;
    load_text(files, stock, &mut own, walker, text)?;
    stock.held.pop();
    finish(walker.importer.alloc, stock, own)
}

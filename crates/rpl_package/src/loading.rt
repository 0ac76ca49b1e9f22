// Loads the roots.
ghost use Rattle.std.specs.Prelude.{◌≡◌, [], ◌∷◌, IfOk, IfErr, length};
ghost use Rattle.rpl_package.specs.Asking.{IfTold};
ghost use Rattle.rpl_names.specs.Built.{Becomes};
ghost use Rattle.rpl_names.specs.Loading.{world};
ghost use Rattle.rpl_names.specs.Roots.{AreWithin, begun, load, top_head, finish_set};
ghost use Rattle.rpl_names.specs.Sets.{set_seen};
ghost use Rattle.rpl_names.specs.Stocks.{state_seen};
ghost use Rattle.rpl_package.specs.inside.Leaving.{LeavesFiles};
ghost use Rattle.rpl_package.specs.inside.Stopping.{Walks};
ghost use Rattle.rpl_scope.specs.declared.fault.Stop.TheVariants.{Memory as OutOfMemory};

use crate::rooted::enter_roots;
use crate::stock::{State, empty_module, finish};
use rosie_io::Files;
use rpl_names::{Head, PackageSet, Root, Stock, table_of};
use rpl_scope::{Module, Named, NoMemory, Stop};
use rpl_text::Chars;
use std::alloc::Global;

/// Returns the state in which nothing is loaded and the current module is the top module.
fn begin(alloc: Global) -> Result<State, NoMemory>
    ensures state { IfOk result (λ s. state_seen s.stock s.own ≡ begun.state) }
    ensures held { IfOk result (λ s. s.stock.held.items ≡ top_head ∷ []) }
{
    let mut held = Vec::new(alloc);
    let label = Chars::empty(alloc);
    held.push(Head { path: None, label })?;
    let stock = Stock {
        modules: Vec::new(alloc),
        paths: Named::new(alloc),
        labels: Named::new(alloc),
        held,
    };
    let label = Chars::empty(alloc);
    let own = empty_module(alloc, None, label);
    Ok(State { stock, own })
}

/// Finishes the top module, and returns the set of all loaded packages.
fn finish_set(
    alloc: Global,
    stock: Stock,
    own: Module,
    roots: Vec<Option<usize>>,
) -> Result<PackageSet, Stop>
    requires held { stock.held.items ≡ top_head ∷ [] }
    requires built { Becomes (top_head ∷ []) begun.state (state_seen stock own) }
    requires within { AreWithin roots.items (length stock.modules.items) }
    ensures ok { IfOk result (λ s. set_seen s
        ≡ finish_set (record { roots = roots.items; state = state_seen stock own })) }
    ensures memory { IfErr result (λ s. s ≡ OutOfMemory) }
{
    let mut stock = stock;
    stock.held.clear();
    let top = finish(alloc, &mut stock, own)?;
    let table = table_of(alloc, &stock.modules)?;
    Ok(PackageSet {
        stock,
        top,
        roots,
        table,
    })
}

/// Loads the roots, and returns the set of packages.
pub fn load_set<F: Files>(
    alloc: Global,
    files: &mut F,
    folders: &[Chars],
    roots: &[Root],
) -> Result<PackageSet, Stop>
    ensures gives { IfTold F.tells (Walks (F.asked files.old) (F.asked files.new)
        set_seen result)
        (load (world (F.tree files.old) folders.now) roots.now) }
    ensures many { IfOk result (λ s. length (set_seen s).roots ≡ length roots.now) }
    ensures files { LeavesFiles F.Source result files.old files.new }
{
    let mut state = begin(alloc)?;
    let into = enter_roots(alloc, files, folders, &mut state, roots)?;
    finish_set(alloc, state.stock, state.own, into)
}

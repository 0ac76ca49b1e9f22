// The roots of a command, in order.
ghost use Rattle.std.specs.Prelude.{◌≡◌, ◌<◌, ◌^◌, [], ◌∷◌, OnOk, IfOk, IfSome, Some, None};
ghost use Rattle.std.specs.Prelude.{encode_utf8_all, length};
ghost use Rattle.rpl_syntax.specs.Modules.{said};
ghost use Rattle.rpl_package.specs.Asking.{IfTold};
ghost use Rattle.rpl_names.specs.Built.{Becomes, IsSaid};
ghost use Rattle.rpl_scope.specs.Faults.{Gives};
ghost use Rattle.rpl_names.specs.Loading.{world};
ghost use Rattle.rpl_names.specs.Roots.{AreWithin, top_head, next, given_name, root_by};
ghost use Rattle.rpl_names.specs.Roots.{load_roots, root_at};
ghost use Rattle.rpl_names.specs.Roots.{named_root, root_text};
ghost use Rattle.rpl_names.specs.Roots.{read_root};
ghost use Rattle.rpl_names.specs.Texts.{module_text};
ghost use Rattle.rpl_package.specs.inside.Leaving.{LeavesFiles};
ghost use Rattle.rpl_package.specs.inside.Stopping.{Walks};
ghost use Rattle.rpl_package.specs.inside.Rooting.{roots_seen, seen};

use crate::locate::read_in;
use crate::opening::{Importer, MAX_MODULES, Walker};
use crate::reading::{read_module, read_text};
use crate::stock::State;
use crate::walk::{load_own, load_text};
use rosie_io::Files;
use rpl_names::{Head, Root};
use rpl_scope::{LoadKind, NoMemory, Stop, fault_at, put_prefix};
use rpl_syntax::{Module as ParsedModule, QName};
use rpl_text::Chars;
use std::alloc::Global;

/// Loads a root that has a package statement. The root becomes a module of its own, and its package
/// name becomes a prefix in the top module.
#[tactic(auto, using(rpl_scope::proofs::Stops::told, crate::proofs::Outcomes::may))]
fn enter_named<F: Files>(
    files: &mut F,
    state: &mut State,
    importer: Importer<'_>,
    name: &QName,
    text: &ParsedModule,
) -> Result<Option<usize>, Stop>
    requires name { text.now.package ≡ Some name.now }
    requires held { state.old.stock.held.items ≡ top_head ∷ [] }
    requires said { IsSaid (said text.now) }
    ensures gives { IfTold F.tells (Walks (F.asked files.old) (F.asked files.new)
        (λ n. (n, seen state.new)) result)
        (named_root (world (F.tree files.old) importer.entry.folders.now) importer.entry.file.now
        (said text.now) name.now
        (seen state.old)) }
    ensures held { OnOk result (state.new.stock.held.items ≡ state.old.stock.held.items) }
    ensures built { OnOk result (Becomes (top_head ∷ []) (seen state.old)
        (seen state.new)) }
    ensures within { IfOk result (λ n. IfSome n (λ i. i < length state.new.stock.modules.items)) }
    ensures files { LeavesFiles F.Source result files.old files.new }
{
    let Importer { alloc, file, .. } = importer;
    if state.own.prefixes.get(&name.name).is_some() {
        let kind = LoadKind::Duplicate {
            name: name.name.copy(alloc)?,
        };
        return Err(fault_at(alloc, file, name.at, kind));
    }
    let label = name.name.copy(alloc)?;
    let head = Head { path: None, label };
    let walker = Walker {
        importer,
        depth: MAX_MODULES,
    };
    let number = load_own(files, &mut state.stock, &walker, head, text)?;
    put_prefix(alloc, &mut state.own, &name.name, number)?;
    Ok(Some(number))
}

/// Loads a root that has been parsed, together with everything that it imports.
#[tactic(auto, using(rpl_scope::proofs::Stops::told, crate::proofs::Outcomes::may))]
pub fn enter_root<F: Files>(
    files: &mut F,
    state: &mut State,
    importer: Importer<'_>,
    text: &ParsedModule,
) -> Result<Option<usize>, Stop>
    requires held { state.old.stock.held.items ≡ top_head ∷ [] }
    requires said { IsSaid (said text.now) }
    ensures gives { IfTold F.tells (Walks (F.asked files.old) (F.asked files.new)
        (λ n. (n, seen state.new)) result)
        (root_text (world (F.tree files.old) importer.entry.folders.now) importer.entry.file.now
        (said text.now) (said text.now).name (seen state.old)) }
    ensures held { OnOk result (state.new.stock.held.items ≡ state.old.stock.held.items) }
    ensures built { OnOk result (Becomes (top_head ∷ []) (seen state.old)
        (seen state.new)) }
    ensures within { IfOk result (λ n. IfSome n (λ i. i < length state.new.stock.modules.items)) }
    ensures files { LeavesFiles F.Source result files.old files.new }
{
    match &text.package {
        None => {
            let walker = Walker {
                importer,
                depth: MAX_MODULES,
            };
            load_text(files, &mut state.stock, &mut state.own, &walker, text)?;
            Ok(None)
        }
        Some(name) => {
            if state.stock.modules.len() + 1 >= MAX_MODULES {
                let Importer { alloc, file, .. } = importer;
                return Err(fault_at(alloc, file, name.at, LoadKind::TooManyPackages));
            }
            enter_named(files, state, importer, name, text)
        }
    }
}

/// Parses a root given as text.
fn read_given(alloc: Global, file: &Chars, text: &Chars) -> Result<ParsedModule, Stop>
    ensures gives { Gives said result (module_text file.now (encode_utf8_all text.now)) }
    ensures said { IfOk result (λ t. IsSaid (said t)) }
{
    let bytes = text.as_str();
    read_text(alloc, file, bytes)
}

/// Loads a root given as text. Faults in the text are reported with the name of the text instead of
/// a file name.
pub fn enter_given<F: Files>(
    files: &mut F,
    state: &mut State,
    importer: Importer<'_>,
    text: &Chars,
) -> Result<Option<usize>, Stop>
    requires held { state.old.stock.held.items ≡ top_head ∷ [] }
    ensures gives { IfTold F.tells (Walks (F.asked files.old) (F.asked files.new)
        (λ n. (n, seen state.new)) result)
        (read_root (world (F.tree files.old) importer.entry.folders.now) importer.entry.file.now
        (encode_utf8_all text.now) (seen state.old)) }
    ensures held { OnOk result (state.new.stock.held.items ≡ state.old.stock.held.items) }
    ensures built { OnOk result (Becomes (top_head ∷ []) (seen state.old)
        (seen state.new)) }
    ensures within { IfOk result (λ n. IfSome n (λ i. i < length state.new.stock.modules.items)) }
    ensures files { LeavesFiles F.Source result files.old files.new }
{
    let said = read_given(importer.alloc, importer.file, text)?;
    enter_root(files, state, importer, &said)
}

/// Loads a root given as a file.
#[tactic(auto, using(rpl_scope::proofs::Stops::told, crate::proofs::Outcomes::may))]
pub fn enter_file<F: Files>(
    alloc: Global,
    files: &mut F,
    folders: &[Chars],
    state: &mut State,
    path: &Chars,
) -> Result<Option<usize>, Stop>
    requires held { state.old.stock.held.items ≡ top_head ∷ [] }
    ensures gives { IfTold F.tells (Walks (F.asked files.old) (F.asked files.new)
        (λ n. (n, seen state.new)) result)
        (root_at (world (F.tree files.old) folders.now) path.now
        (seen state.old)) }
    ensures held { OnOk result (state.new.stock.held.items ≡ state.old.stock.held.items) }
    ensures built { OnOk result (Becomes (top_head ∷ []) (seen state.old)
        (seen state.new)) }
    ensures within { IfOk result (λ n. IfSome n (λ i. i < length state.new.stock.modules.items)) }
    ensures files { LeavesFiles F.Source result files.old files.new }
{
    let Some(read) = read_in(alloc, files, path)? else {
        return Err(fault_at(alloc, path, 0, LoadKind::RootMissing));
    };
    let said = read_module(alloc, path, read)?;
    let importer = Importer {
        alloc,
        file: path,
        folders,
    };
    enter_root(files, state, importer, &said)
}

/// Returns how many roots are given as text, up to and including `root`. `given` is the number of
/// such roots before `root`.
fn next(given: usize, root: &Root) -> usize
    requires { given < 2 ^ 63 }
    ensures { result ≡ next given root.now }
{
    match root {
        Root::File(_) => given,
        Root::Given(_) => given + 1,
    }
}

/// Returns the name of a root given as text, such as `(rpl 1)`.
fn given_name(alloc: Global, given: usize) -> Result<Chars, NoMemory>
    ensures { IfOk result (λ name. name ≡ given_name given) }
{
    let text = format!(in alloc; "(rpl {given})")?;
    Chars::from_str(alloc, &text)
}

/// A root, and the number of roots given as text up to and including that root.
#[derive(Clone, Copy)]
struct Turn<'a> {
    given: usize,
    root: &'a Root,
}

/// Loads a root, which is a file or a text.
fn enter_one<F: Files>(
    alloc: Global,
    files: &mut F,
    folders: &[Chars],
    state: &mut State,
    turn: Turn<'_>,
) -> Result<Option<usize>, Stop>
    requires held { state.old.stock.held.items ≡ top_head ∷ [] }
    ensures gives { IfTold F.tells (Walks (F.asked files.old) (F.asked files.new)
        (λ n. (n, seen state.new)) result)
        (root_by (world (F.tree files.old) folders.now) turn.entry.given turn.entry.root.now
        (seen state.old)) }
    ensures held { OnOk result (state.new.stock.held.items ≡ state.old.stock.held.items) }
    ensures built { OnOk result (Becomes (top_head ∷ []) (seen state.old)
        (seen state.new)) }
    ensures within { IfOk result (λ n. IfSome n (λ i. i < length state.new.stock.modules.items)) }
    ensures files { LeavesFiles F.Source result files.old files.new }
{
    match turn.root {
        Root::File(path) => enter_file(alloc, files, folders, state, path),
        Root::Given(text) => {
            let name = given_name(alloc, turn.given)?;
            let importer = Importer {
                alloc,
                file: &name,
                folders,
            };
            enter_given(files, state, importer, text)
        }
    }
}

/// Loads the roots in order. Returns the module of each root, where `None` means the top module.
pub fn enter_roots<F: Files>(
    alloc: Global,
    files: &mut F,
    folders: &[Chars],
    state: &mut State,
    roots: &[Root],
) -> Result<Vec<Option<usize>>, Stop>
    requires held { state.old.stock.held.items ≡ top_head ∷ [] }
    ensures gives { IfTold F.tells (Walks (F.asked files.old) (F.asked files.new)
        (λ into. roots_seen into.items state.new) result)
        (load_roots (world (F.tree files.old) folders.now) roots.now (roots_seen [] state.old)) }
    ensures held { OnOk result (state.new.stock.held.items ≡ state.old.stock.held.items) }
    ensures built { OnOk result (Becomes (top_head ∷ []) (seen state.old)
        (seen state.new)) }
    ensures many { IfOk result (λ into. length into.items ≡ length roots.now) }
    ensures within { IfOk result (λ into. AreWithin into.items
        (length state.new.stock.modules.items)) }
    ensures files { LeavesFiles F.Source result files.old files.new }
{
    let mut given = 0;
    let mut into = Vec::new(alloc);
    for root in roots {
        given = next(given, root);
        let turn = Turn { given, root };
        let number = enter_one(alloc, files, folders, state, turn)?;
        into.push(number)?;
    }
    Ok(into)
}

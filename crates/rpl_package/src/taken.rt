// Imports without a prefix, which add the names of each module only once.
ghost use Rattle.std.specs.Prelude.{◌≡◌, All, OnOk};
ghost use Rattle.rpl_package.specs.inside.Taken.{is_plain};
ghost use Rattle.rpl_scope.specs.Faults.{Gives};
ghost use Rattle.rpl_scope.specs.Imports.{take_in};
ghost use Rattle.rpl_scope.specs.Seen.{module_seen, modules_seen};
ghost use Rattle.rpl_scope.specs.Taken.{HasAll};

use crate::opening::Importer;
use rpl_scope::{Loaded, Module, Stop, take_in};
use rpl_syntax::{Import, ImportAs};

/// Returns whether an import brings in names without a prefix.
fn is_plain(import: &Import) -> bool
    ensures { result ≡ is_plain import.now.name }
{
    matches!(import.name, ImportAs::Plain)
}

/// Adds the prefix or the names that an import brings in from a loaded module. `taken` holds the
/// numbers of the modules whose names have all been added already. A module in `taken` is not
/// imported again without a prefix.
pub fn bring(
    own: &mut Module,
    taken: &mut Vec<usize>,
    importer: Importer<'_>,
    import: &Import,
    from: Loaded<'_>,
) -> Result<(), Stop>
    requires there { All (HasAll (modules_seen from.modules.now) (module_seen own.old))
        taken.old.items }
    ensures gives { Gives (λ _. module_seen own.new) result
        (take_in importer.entry.file.now import.now from.entry.number
        (modules_seen from.entry.modules.now) (module_seen own.old)) }
    ensures there { OnOk result (All
        (HasAll (modules_seen from.entry.modules.now) (module_seen own.new)) taken.new.items) }
{
    let plain = is_plain(import);
    if plain && taken.contains(&from.number) {
        return Ok(());
    }
    take_in(importer.alloc, own, importer.file, import, from)?;
    if plain && from.number < from.modules.len() {
        taken.push(from.number)?;
    }
    Ok(())
}

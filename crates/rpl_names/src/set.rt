// The set of packages.
ghost use Rattle.std.specs.Prelude.{◌≡◌, ◌<◌, [], length};
ghost use Rattle.rpl_scope.specs.Seen.{modules_seen};
ghost use Rattle.rpl_names.specs.Built.{IsBuilt, packages};
ghost use Rattle.rpl_names.specs.Roots.{AreWithin};
ghost use Rattle.rpl_names.specs.Stocks.{stock_seen};
ghost use Rattle.rpl_names.specs.Numbering.{IsTable};

use crate::stock::Stock;
use crate::table::Table;

/// The loaded texts, including everything that they import, and the bindings of the names in these
/// texts.
///
/// The fields are for `rpl_package`, which loads sets. Whoever writes them proves the invariants
/// below; other callers only need the methods.
#[derive(Drop)]
pub struct PackageSet {
    pub stock: Stock,
    /// The number of the top module, to which the pattern and the roots without a package
    /// statement belong.
    pub top: usize,
    /// The number of each root's module, or `None` if that module is the top module.
    pub roots: Vec<Option<usize>>,
    pub table: Table,
    ghost idle: { stock.held.items ≡ [] },
    ghost inside: { top < length stock.modules.items },
    ghost within: { AreWithin roots.items (length stock.modules.items) },
    ghost told: { IsTable table (modules_seen stock.modules.items) },
    ghost built: { ∥ IsBuilt (packages (stock_seen stock) top roots.items) ∥₁ },
}

// The modules that are loaded, and the heads of those that are being loaded.
use rpl_scope::{Module, Named};
use rpl_text::Chars;

/// A module that is being loaded: its path and its package name.
#[derive(Debug, Drop)]
pub struct Head {
    pub path: Option<Chars>,
    pub label: Chars,
}

/// The loaded modules, in the order in which their loading finished, and those that are being
/// loaded.
#[derive(Drop)]
pub struct Stock {
    pub modules: Vec<Module>,
    /// For each path, the number of its module.
    pub paths: Named<usize>,
    /// For each package name, the number of its module.
    pub labels: Named<usize>,
    pub held: Vec<Head>,
}

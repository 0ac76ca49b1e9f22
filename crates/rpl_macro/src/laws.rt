// Laws of the changes of case.
ghost use Rattle.rpl_macro.specs.Laws.{CiIsOnce, UciKeepsOthers};

/// Applying `ci` twice has the same result as applying it once.
pub fn ci_is_once()
    ensures { CiIsOnce }
{}

/// If each character of a text folds only to itself, applying `uci` to the text replaces each
/// character with a class that contains only that character.
pub fn uci_keeps_others()
    ensures { UciKeepsOthers }
{}

// Laws that hold for every session.
ghost use Rattle.rosie_session.specs.Laws.{BudgetLaw, NoStopLaw, OneLoading, TryLaw, UndoLaw};

/// Proves that, for a given tree of files and a given library path, loading has at most one result.
pub fn one_loading()
    ensures { OneLoading }
{}

/// Proves that an accepted change followed by `u` leaves the session as it was before the change.
pub fn undo_law()
    ensures { UndoLaw }
{}

/// Proves that, for given files, the answer to a tried line depends only on the line and on the
/// kept texts and pattern (except for the line number in an error message), and that trying a line
/// leaves the session unchanged.
pub fn try_law()
    ensures { TryLaw }
{}

/// Proves that a tried line exceeds its budget only under the condition that `SessionPays`, in
/// `specs/Limits.antt`, states.
pub fn budget_law()
    ensures { BudgetLaw }
{}

/// Proves that no reply of a session has the mark `Stop`.
pub fn no_stop_law()
    ensures { NoStopLaw }
{}

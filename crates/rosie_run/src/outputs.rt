// The outputs of a run.
use rpl_machine::Steps;
use std::sync::ledger::Ledger;

/// The outputs of a run, and the count of its steps.
#[derive(Drop)]
pub struct Outputs<'a, O, E, L: Ledger> {
    /// The output for answers.
    pub out: &'a mut O,
    /// The output for faults, and for other texts that aren't answers.
    pub err: &'a mut E,
    /// The count of the machine's steps.
    pub steps: &'a mut Steps<L>,
    /// Whether anything was written that hasn't been flushed yet.
    pub pending: bool,
}

// The tests of a file, each with the rule that it tests.
ghost use Rattle.std.specs.Prelude.{map};
ghost use Rattle.rpl_core.specs.Table.{bodies_of};
ghost use Rattle.rosie_suites.specs.Tried.{trial_of};
ghost use Rattle.rosie_suites.specs.inside.Ready.{AreBound, AreReady};

use crate::trial::Trial;
use rpl_check::Checked;
use rpl_text::Chars;

/// The tests of a file, each with the rule that it tests.
#[derive(Drop)]
pub struct Suite {
    /// The file's name, as it was given.
    pub(crate) file: Chars,
    /// The name of the file's package, which is empty if the file has no package.
    pub(crate) prefix: Chars,
    /// The most machine steps that a test may take, if a budget is given.
    pub(crate) budget: Option<u64>,
    /// The rules of all loaded packages.
    pub(crate) rules: Checked,
    /// The tests, in the order in which they occur in the file. Goals are compiled when the tests
    /// are run.
    pub(crate) trials: Vec<Trial>,
    ghost ready: { ∥ AreReady (map (trial_of (bodies_of rules)) trials.items) ∥₁ },
    ghost bound: { ∥ AreBound (bodies_of rules) trials.items ∥₁ },
}

// The targets of names.
use thiserror::Error;

/// The rule that a name resolves to.
#[derive(Clone, Copy, Debug, PartialEq, Eq)]
pub struct Target {
    /// The number of the rule in the rule table.
    pub rule: u32,
    /// Whether the rule makes a node, that is, whether it is bound without `alias`.
    pub captures: bool,
}

/// The reason why a name resolves to no rule.
#[derive(Clone, Copy, Debug, PartialEq, Eq, Error)]
pub enum NameFault {
    /// The name is not bound.
    #[error("unknown name")]
    Unknown,
    /// The name is bound, but not visible here.
    #[error("hidden name")]
    Hidden,
}

/// The description of a rule.
#[derive(Clone, Copy, Debug)]
pub struct RuleHead<'a> {
    /// The full name of the rule, which is the type of its nodes.
    pub name: &'a str,
    /// The number of the module that contains the rule.
    pub module: usize,
    /// The number of the block that contains the rule, if there is one.
    pub block: Option<u32>,
    /// Whether the rule makes a node.
    pub captures: bool,
}

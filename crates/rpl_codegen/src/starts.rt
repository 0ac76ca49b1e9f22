// The addresses where the code of the rules begins.
ghost use Rattle.std.specs.Prelude.{◌≡◌, ◌<◌, ◌∷◌, [], ◌++◌, OnOk};
ghost use Rattle.std.specs.List.{All};
ghost use Rattle.std.specs.List.Sorted.{IsNonDecreasingBy};
ghost use Rattle.rpl_codegen.specs.inside.Starts.{start_from};

use crate::NoMemory;
use std::alloc::Global;

/// The number of a rule, and the address where its code begins.
#[derive(Clone, Copy)]
pub(crate) struct Start {
    pub(crate) rule: u32,
    pub(crate) address: u32,
}

/// The addresses where the code of the rules begins, in the order of the rules. Contracts refer to
/// the field `list`.
#[derive(Drop)]
pub(crate) struct Starts {
    pub(crate) list: Vec<Start>,
    ghost rising: { IsNonDecreasingBy (λ s. s.rule) list.items },
}

impl Starts {
    pub(crate) fn new(alloc: Global) -> Starts
        ensures { result.list.items ≡ [] }
    {
        Starts {
            list: Vec::new(alloc),
        }
    }

    /// Adds a rule. Its number must be greater than the numbers of all rules that were added before
    /// it.
    pub(crate) fn push(&mut self, rule: u32, address: u32) -> Result<(), NoMemory>
        requires { All (λ s. s.rule < rule) self.old.list.items }
        ensures { OnOk result (self.new.list.items
            ≡ self.old.list.items ++ record { rule = rule; address = address } ∷ []) }
    {
        self.list.push(Start { rule, address })?;
        Ok(())
    }

    /// Returns the address where the first rule whose number is at least `rule` begins, or `end` if
    /// there is no such rule.
    pub(crate) fn find(&self, rule: u32, end: u32) -> u32
        ensures { result ≡ start_from self.now.list.items rule end }
    {
        let place = self.list.partition_point(|start| start.rule < rule);
        match self.list.get(place) {
            Some(start) => start.address,
            None => end,
        }
    }
}

// The context in which an expression is expanded.
ghost use Rattle.std.specs.Prelude.{◌≡◌, IfOk};
ghost use Rattle.rpl_core.specs.Core as C;
ghost use Rattle.rpl_core.specs.View.{core_of};
ghost use Rattle.rpl_expand.specs.inside.Bases.{Knows, shown};

use crate::NoMemory;
use crate::scope::Scope;
use rpl_core::{Peg, Rules};
use rpl_forms::inner::call;
use rpl_forms::{ClassSets, Inner};
use std::alloc::Global;

/// The scope of an expression, the rules that the table has so far, what is known about the inlined
/// body of each rule, and the sets of the last few classes.
#[derive(Clone, Copy)]
pub(crate) struct Base<'a> {
    pub(crate) scope: Scope<'a>,
    pub(crate) rules: &'a Rules,
    pub(crate) known: &'a [Option<Inner>],
    pub(crate) sets: &'a ClassSets,
}

impl Base<'_> {
    /// Returns a call of a rule. Inside a look-behind, returns the rule's inlined body instead.
    pub(crate) fn call(
        &self,
        alloc: Global,
        in_lookbehind: bool,
        rule: u32,
    ) -> Result<Peg, NoMemory>
        requires { Knows self.now }
        ensures { IfOk result (λ p. core_of p ≡ shown self.now in_lookbehind (C.Call rule)) }
    {
        call(alloc, self.rules, self.known, in_lookbehind, rule)
    }
}

// A table of rules that is being built.
ghost use Rattle.std.specs.Prelude.{◌≡◌, ◌++◌, ◌∷◌, ◌<◌, [], IfOk, OnOk, length};
ghost use Rattle.rpl_core.specs.Listed.{rules_of};
ghost use Rattle.rpl_core.specs.Table.{IsNew, names_of};
ghost use Rattle.rpl_forms.specs.Counting.{KnowsInners};
ghost use Rattle.rpl_forms.specs.Rows.{inners_of};

use crate::NoMemory;
use rpl_core::{Rule, Rules};
use rpl_forms::Inner;
use rpl_forms::inner::{inners, push_inner};
use std::alloc::Global;

/// The rules that the table contains so far, and what is known about the inlined body of each rule.
#[derive(Drop)]
pub(crate) struct Growing {
    pub(crate) rules: Rules,
    pub(crate) known: Vec<Option<Inner>>,
    ghost as_many: { length known.items ≡ length (rules_of rules) },
}

/// Adds a rule to `rules`, and what is known about its inlined body to `known`. The rule's name
/// must be new.
fn add_rule(rules: &mut Rules, known: &mut Vec<Option<Inner>>, rule: Rule) -> Result<(), NoMemory>
    requires few { length (rules_of rules.old) < 0xffff_ffff }
    requires new_name { IsNew rule.name (names_of (rules_of rules.old)) }
    requires as_many { length known.old.items ≡ length (rules_of rules.old) }
    requires knows { KnowsInners known.old.items (inners_of (rules_of rules.old)) }
    ensures rules { OnOk result (rules_of rules.new ≡ rules_of rules.old ++ rule ∷ []) }
    ensures as_many { OnOk result (length known.new.items ≡ length (rules_of rules.new)) }
    ensures knows { OnOk result (KnowsInners known.new.items (inners_of (rules_of rules.new))) }
{
    push_inner(known, &rule)?;
    rules.push(rule)?;
    Ok(())
}

impl Growing {
    /// Returns a table that begins with `rules`.
    pub(crate) fn new(alloc: Global, rules: Rules) -> Result<Growing, NoMemory>
        ensures rules { IfOk result (λ t. t.rules ≡ rules) }
        ensures knows { IfOk result (λ t. KnowsInners t.known.items
            (inners_of (rules_of t.rules))) }
    {
        let known = inners(alloc, &rules)?;
        Ok(Growing { rules, known })
    }

    /// Returns the table with `rule` added. The rule's name must be new.
    pub(crate) fn with(self, rule: Rule) -> Result<Growing, NoMemory>
        requires few { length (rules_of self.rules) < 0xffff_ffff }
        requires new_name { IsNew rule.name (names_of (rules_of self.rules)) }
        requires knows { KnowsInners self.known.items (inners_of (rules_of self.rules)) }
        ensures rules { IfOk result (λ t. rules_of t.rules ≡ rules_of self.rules ++ rule ∷ []) }
        ensures knows { IfOk result (λ t. KnowsInners t.known.items
            (inners_of (rules_of t.rules))) }
    {
        let Growing {
            mut rules,
            mut known,
        } = self;
        add_rule(&mut rules, &mut known, rule)?;
        Ok(Growing { rules, known })
    }
}

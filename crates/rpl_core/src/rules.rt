// The table of rules.
ghost use Rattle.std.specs.Option.{option_copied};
ghost use Rattle.std.specs.Prelude.{◌≡◌, ◌<◌, ◌^◌, [], ◌∷◌, ◌++◌, length, slice_get, OnOk, OnErr};
ghost use Rattle.rpl_core.specs.Table.{AreDistinct, IsNew, names_of};

use crate::NoMemory;
use crate::peg::Peg;
use rpl_text::Chars;
use std::alloc::Global;

/// A rule: its full name, the number of its recursive block if it is in one, and its body.
///
/// # Examples
///
/// ```
/// use rpl_core::{Peg, Rule, Rules, calls_are_rules};
/// use rpl_text::Chars;
/// let mut rules = Rules::new(alloc);
/// rules.push(Rule {
///     name: Chars::from_str(alloc, "end")?,
///     block: None,
///     body: Peg::End,
/// })?;
/// assert!(rt; calls_are_rules(&rules, &Peg::Call(0)) && !calls_are_rules(&rules, &Peg::Call(1)));
/// ```
#[derive(Drop)]
pub struct Rule {
    pub name: Chars,
    pub block: Option<u32>,
    pub body: Peg,
}

/// The table of rules, in order. `Peg::Call` holds an index into the table, counted from 0. No two
/// rules have the same full name.
///
/// # Examples
///
/// ```
/// use rpl_core::{Peg, Rule, Rules};
/// use rpl_text::Chars;
/// let mut rules = Rules::new(alloc);
/// for (name, body) in [("start", Peg::Start), ("end", Peg::End)] {
///     let name = Chars::from_str(alloc, name)?;
///     rules.push(Rule { name, block: None, body })?;
/// }
/// assert!(rt; rules.len() == 2);
/// assert!(rt; matches!(rules.get(1), Some(rule) if rule.name.as_str() == "end"));
/// ```
#[derive(Drop)]
pub struct Rules {
    items: Vec<Rule>,
    ghost few: { length items.items < 2 ^ 32 },
    ghost distinct: { AreDistinct (names_of items.items) },
}

impl Rules {
    ghost use Rattle.rpl_core.specs.Listed.{rules_of};

    /// Returns an empty table. Allocates no memory.
    pub fn new(alloc: Global) -> Rules
        ensures { rules_of result ≡ [] }
    {
        Rules {
            items: Vec::new(alloc),
        }
    }

    /// Adds a rule with a new name at the end. If memory runs out, nothing changes.
    pub fn push(&mut self, rule: Rule) -> Result<(), NoMemory>
        requires few { length (rules_of self.old) < 0xffff_ffff }
        requires new_name { IsNew rule.name (names_of (rules_of self.old)) }
        ensures ok { OnOk result (rules_of self.new ≡ rules_of self.old ++ rule ∷ []) }
        ensures err { OnErr result (rules_of self.new ≡ rules_of self.old) }
    {
        self.items.push(rule)?;
        Ok(())
    }

    /// Returns the number of rules. The contract also states that the names of the rules are
    /// distinct.
    pub fn len(&self) -> usize
        ensures count { result ≡ length (rules_of self.now) }
        ensures few { result < 2 ^ 32 }
        ensures distinct { AreDistinct (names_of (rules_of self.now)) }
    {
        self.items.len()
    }

    /// Returns the rule with this number, counted from 0.
    pub fn get(&self, rule: u32) -> Option<&Rule>
        ensures { option_copied result ≡ slice_get (rules_of self.now) rule }
    {
        self.items.get(rule as usize)
    }
}

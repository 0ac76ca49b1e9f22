// A block of a table, or a rule outside blocks.
ghost use Rattle.std.specs.Prelude.{◌<◌, ◌≤◌, length};
ghost use Rattle.rpl_core.specs.Listed.{blocks_in, rules_of};
ghost use Rattle.rpl_facts.specs.Groups.{IsGroup};

use rpl_core::{Rules, joins_next};

/// A group of a table's rules: a block, or a rule outside blocks. Its rules are numbered from
/// `start` up to, but not including, `end`.
#[derive(Clone, Copy)]
pub struct Group<'a> {
    /// The table.
    pub rules: &'a Rules,
    /// The number of the first rule.
    pub start: u32,
    /// The number after that of the last rule.
    pub end: u32,
}

/// Returns the end of the group that begins with rule number `start`.
pub fn group_end(rules: &Rules, start: u32) -> u32
    requires { start < length (rules_of rules.now) }
    ensures within { result ≤ length (rules_of rules.now) }
    ensures group { IsGroup (blocks_in rules.now) start result }
{
    let count = rules.len() as u32;
    for number in start..count {
        if !joins_next(rules, number) {
            return number + 1;
        }
    }
    count
}

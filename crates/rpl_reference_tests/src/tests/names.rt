// Names of rules.
ghost use Rattle.std.specs.Prelude.{◌≡◌, ◌↔◌, IsTrue, Some, true, slice_get};
ghost use Rattle.rpl_core.specs.Listed.{rules_of};
ghost use Rattle.rpl_core.specs.Table.{IsNew, names_of};

use rpl_core::Rules;
use rpl_text::Chars;

/// Returns whether the two texts are the same.
fn same_text(one: &Chars, other: &Chars) -> bool
    ensures { IsTrue result ↔ (one.now ≡ other.now) }
{
    one.as_str() == other.as_str()
}

/// Returns whether the rule with this number has the name.
fn has_name(rules: &Rules, number: u32, name: &Chars) -> bool
    ensures { result ≡ true ↔ (slice_get (names_of (rules_of rules.now)) number ≡ Some name.now) }
{
    match rules.get(number) {
        Some(rule) => same_text(&rule.name, name),
        None => false,
    }
}

/// Returns whether no rule has the name.
pub(crate) fn is_new(rules: &Rules, name: &Chars) -> bool
    ensures { result ≡ true → IsNew name.now (names_of (rules_of rules.now)) }
{
    for number in 0..rules.len() as u32 {
        if has_name(rules, number, name) {
            return false;
        }
    }
    true
}

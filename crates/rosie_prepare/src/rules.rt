// The lines that report faults in rules and in the pattern.
ghost use Rattle.std.specs.Prelude.{◌≡◌, ◌++◌, ◌∷◌, IfOk, OnOk, Some, chars, encode_utf8_all};
ghost use Rattle.std.specs.Prelude.{flat_map, string_bytes};
ghost use Rattle.std.specs.Option.{option_map};
ghost use Rattle.rosie_prepare.specs.Lines as L;
ghost use Rattle.rpl_check.specs.Answers as C;
ghost use Rattle.rpl_expand.specs.Answers as E;
ghost use Rattle.rpl_names.specs.Sets.{set_seen};

use crate::NoMemory;
use crate::texts::cause_text;
use rosie_run::line_fault;
use rpl_check::CheckFault;
use rpl_expand::ExpandFault;
use rpl_package::PackageSet;
use std::alloc::Global;

/// Returns the text unchanged. The call tells the prover that the text's bytes encode its
/// characters.
fn as_it_is(text: &str) -> &str
    ensures { result.now ≡ encode_utf8_all (chars text.now) }
{
    text
}

/// Returns the full name of a rule, or `*` for the pattern.
fn rule_name(packages: &PackageSet, rule: Option<u32>) -> &str
    ensures { result.now ≡ L.rule_name (set_seen packages.now) rule }
{
    match rule {
        None => "*",
        Some(rule) => match packages.rule(rule) {
            None => "*",
            Some(head) => as_it_is(head.name),
        },
    }
}

/// Returns the line that reports a fault in the pattern.
fn pattern_line(alloc: Global, text: &str) -> Result<String, NoMemory>
    ensures { IfOk result (λ line. string_bytes line ≡ L.pattern_line text.now) }
{
    line_fault(alloc, "(pattern)", 0, text)
}

/// The place of a fault: a rule of the packages, or the pattern.
#[derive(Clone, Copy)]
struct RulePlace<'a> {
    packages: &'a PackageSet,
    rule: Option<u32>,
}

/// Returns the line that reports a fault. The line gives the place of the fault: the first token of
/// the rule's statement, or the pattern.
fn rule_line(alloc: Global, place: &RulePlace<'_>, text: &str) -> Result<String, NoMemory>
    ensures { IfOk result (λ line. string_bytes line
        ≡ L.rule_line (set_seen place.now.packages.now) place.now.rule text.now) }
{
    match place.rule {
        None => pattern_line(alloc, text),
        Some(rule) => match place.packages.spot(rule) {
            None => pattern_line(alloc, text),
            Some((file, at)) => line_fault(alloc, as_it_is(file), at as u64, text),
        },
    }
}

/// Appends the names of rules, each after a space.
fn push_names(packages: &PackageSet, rules: &[u32], out: &mut String) -> Result<(), NoMemory>
    ensures { OnOk result (string_bytes out.new
        ≡ string_bytes out.old ++ flat_map (λ s. 32 ∷ L.rule_name (set_seen packages.now) (Some s))
        rules.now) }
{
    for rule in rules {
        out.push_str(" ")?;
        out.push_str(rule_name(packages, Some(*rule)))?;
    }
    Ok(())
}

/// Returns the names of rules, separated by spaces.
fn rule_names(alloc: Global, packages: &PackageSet, rules: &[u32]) -> Result<String, NoMemory>
    ensures { IfOk result (λ names. string_bytes names
        ≡ L.rule_names (set_seen packages.now) rules.now) }
{
    let mut out = String::new(alloc);
    if let [first, rest @ ..] = rules {
        out.push_str(rule_name(packages, Some(*first)))?;
        push_names(packages, rest, &mut out)?;
    }
    Ok(out)
}

/// Returns the line that reports a fault in a rule or in the pattern. The message is `text`,
/// followed by the full name of the rule, or by `*` for the pattern.
fn named_line(alloc: Global, place: &RulePlace<'_>, text: &str) -> Result<String, NoMemory>
    ensures { IfOk result (λ line. string_bytes line
        ≡ L.rule_line (set_seen place.now.packages.now) place.now.rule
        (text.now ++ L.rule_name (set_seen place.now.packages.now) place.now.rule)) }
{
    let name = rule_name(place.packages, place.rule);
    let text = format!(in alloc; "{text}{name}")?;
    rule_line(alloc, place, &text)
}

/// Returns the line that reports an invalid look-behind in a rule or in the pattern.
fn behind_line(alloc: Global, place: &RulePlace<'_>, cause: &str) -> Result<String, NoMemory>
    ensures { IfOk result (λ line. string_bytes line
        ≡ L.behind_line (set_seen place.now.packages.now) place.now.rule cause.now) }
{
    let name = rule_name(place.packages, place.rule);
    let text = format!(in alloc; "look-behind in {name}: {cause}")?;
    rule_line(alloc, place, &text)
}

/// Returns the line that reports that these rules call themselves before they consume a character.
fn recursion_line(alloc: Global, packages: &PackageSet, rules: &[u32]) -> Result<String, NoMemory>
    ensures { IfOk result (λ line. string_bytes line
        ≡ L.recursion_line (set_seen packages.now) rules.now) }
{
    let names = rule_names(alloc, packages, rules)?;
    let text = format!(in alloc; "left recursion in {names}")?;
    let rule = rules.first().copied();
    rule_line(alloc, &RulePlace { packages, rule }, &text)
}

/// Returns the line that reports an expansion fault in the rule table of these packages or in a
/// pattern that uses the table.
pub fn expand_line(
    alloc: Global,
    packages: &PackageSet,
    fault: &ExpandFault,
) -> Result<String, NoMemory>
    ensures { IfOk result (λ line. option_map (L.expand_line (set_seen packages.now))
        (E.fault_named fault.now)
        ≡ Some (string_bytes line)) }
{
    match fault {
        ExpandFault::NoMemory => Err(NoMemory),
        ExpandFault::TooLarge { rule, .. } => {
            named_line(
                alloc,
                &RulePlace {
                    packages,
                    rule: *rule,
                },
                "too large: ",
            )
        }
    }
}

/// Returns the line that reports a fault found by the check in the rule table of these packages or
/// in a pattern that uses the table.
pub fn check_line(
    alloc: Global,
    packages: &PackageSet,
    fault: &CheckFault,
) -> Result<String, NoMemory>
    ensures { IfOk result (λ line. option_map (L.check_line (set_seen packages.now))
        (C.fault_named fault.now)
        ≡ Some (string_bytes line)) }
{
    match fault {
        CheckFault::NoMemory => Err(NoMemory),
        CheckFault::LookBehind { rule, cause } => {
            behind_line(
                alloc,
                &RulePlace {
                    packages,
                    rule: *rule,
                },
                cause_text(*cause),
            )
        }
        CheckFault::LeftRecursion { rules } => recursion_line(alloc, packages, rules),
        CheckFault::EmptyLoop { rule } => {
            named_line(
                alloc,
                &RulePlace {
                    packages,
                    rule: *rule,
                },
                "empty loop in ",
            )
        }
        CheckFault::HaltInside { rule } => {
            named_line(
                alloc,
                &RulePlace {
                    packages,
                    rule: *rule,
                },
                "halt under a predicate in ",
            )
        }
    }
}

/// Returns the line that reports that a pattern's code is too long.
pub fn compile_line(alloc: Global) -> Result<String, NoMemory>
    ensures { IfOk result (λ line. string_bytes line ≡ L.compile_line) }
{
    pattern_line(alloc, "code too long")
}

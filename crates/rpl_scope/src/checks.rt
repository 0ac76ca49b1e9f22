// Checks of names and of uses of macros.
ghost use Rattle.std.specs.Prelude.{◌≡◌, map};
ghost use Rattle.rpl_scope.specs.Bodies.{named_fault, names_fault, macros_fault, used_fault};
ghost use Rattle.rpl_scope.specs.Bodies.{written};
ghost use Rattle.rpl_scope.specs.Faults.{Checks};
ghost use Rattle.rpl_scope.specs.Seen.{module_seen, modules_seen, use_seen};
ghost use Rattle.std.specs.Prelude.{IfOk};

use crate::NoMemory;
use crate::bodies::Use;
use crate::fault::{LoadKind, Stop, fault_at};
use crate::scope::{Found, Scope, find};
use rpl_macro::check_use;
use rpl_syntax::QName;
use rpl_text::Chars;
use std::alloc::Global;

/// Returns a name as it is written in a text: `prefix.name`, or only the name if it has no prefix.
pub fn written(alloc: Global, name: &QName) -> Result<Chars, NoMemory>
    ensures { IfOk result (λ text. text ≡ written name.now.prefix name.now.name) }
{
    match &name.prefix {
        None => name.name.copy(alloc),
        Some(prefix) => {
            let mut text = String::from_str(alloc, prefix.as_str())?;
            text.push('.')?;
            text.push_str(name.name.as_str())?;
            Chars::from_str(alloc, &text)
        }
    }
}

/// Checks that a name refers to something that is visible in a scope.
#[tactic(auto, using(crate::proofs::Stops::told))]
fn check_name(alloc: Global, file: &Chars, scope: Scope<'_>, name: &QName) -> Result<(), Stop>
    ensures { Checks result (named_fault file.now (modules_seen scope.entry.modules.now)
        (module_seen scope.entry.own.now) scope.entry.start name.now) }
{
    match find(scope, name) {
        Found::To(_) => Ok(()),
        Found::Unknown => {
            let kind = LoadKind::UnknownName {
                name: written(alloc, name)?,
            };
            Err(fault_at(alloc, file, name.at, kind))
        }
        Found::Hidden => {
            let kind = LoadKind::HiddenName {
                name: written(alloc, name)?,
            };
            Err(fault_at(alloc, file, name.at, kind))
        }
    }
}

/// Checks that each name refers to something that is visible in a scope. If some name refers to
/// nothing visible, the error describes the first such name.
pub fn check_names(
    alloc: Global,
    file: &Chars,
    scope: Scope<'_>,
    names: &[&QName],
) -> Result<(), Stop>
    ensures { Checks result (names_fault file.now (modules_seen scope.entry.modules.now)
        (module_seen scope.entry.own.now) scope.entry.start (map (λ q. q.now) names.now)) }
{
    for name in names {
        check_name(alloc, file, scope, name)?;
    }
    Ok(())
}

/// Checks that a macro is used correctly.
#[tactic(auto, using(crate::proofs::Stops::told))]
fn check_macro(alloc: Global, file: &Chars, used: Use<'_>) -> Result<(), Stop>
    ensures { Checks result (used_fault file.now (use_seen used.entry)) }
{
    match check_use(used.name.name.as_str(), used.arg) {
        None => Ok(()),
        Some(fault) => {
            let kind = LoadKind::Macro {
                name: used.name.name.copy(alloc)?,
                fault,
            };
            Err(fault_at(alloc, file, used.name.at, kind))
        }
    }
}

/// Checks that macros are used correctly. If some use is incorrect, the error describes the first
/// such use.
pub fn check_macros(alloc: Global, file: &Chars, uses: &[Use<'_>]) -> Result<(), Stop>
    ensures { Checks result (macros_fault file.now (map use_seen uses.now)) }
{
    for used in uses {
        check_macro(alloc, file, *used)?;
    }
    Ok(())
}

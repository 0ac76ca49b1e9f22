// The resolution of names.
ghost use Rattle.std.specs.Prelude.{◌≡◌, chars};
ghost use Rattle.rpl_scope.specs.Packages as P;
ghost use Rattle.rpl_scope.specs.Packages.{bound, first_of, plain, halt_or, prefixed};
ghost use Rattle.rpl_scope.specs.Seen.{module_seen, modules_seen};

use crate::module::{Entry, Module, Prefix, Referent};
use rpl_syntax::QName;
use rpl_text::Chars;

/// The scope at a point in a text: the loaded modules, the current module, and the start of the
/// statement at that point (see `Rule::start`).
#[derive(Clone, Copy)]
pub struct Scope<'a> {
    pub modules: &'a [Module],
    pub own: &'a Module,
    pub start: usize,
}

/// The result of resolving a name.
#[derive(Clone, Copy, Debug, PartialEq, Eq)]
pub enum Found {
    To(Referent),
    Unknown,
    /// The name is bound, but not visible here.
    Hidden,
}

/// Resolves an unbound name: `halt` refers to the built-in rule, and any other name is unknown.
fn built_in(name: &str) -> Found
    ensures { result ≡ halt_or (chars name.now) Found.Unknown }
{
    if name == "halt" {
        return Found::To(Referent::BuiltIn);
    }
    Found::Unknown
}

/// Resolves a name without a prefix in a statement whose start is `start`. `entry` is the entry of
/// the name, if there is one.
fn plain(start: usize, name: &str, entry: Option<Entry>) -> Found
    ensures { result ≡ plain (chars name.now) start entry }
{
    match entry {
        None => built_in(name),
        Some(e) => {
            if start < e.since {
                return built_in(name);
            }
            if e.hidden && e.since < start {
                return Found::Hidden;
            }
            Found::To(e.referent)
        }
    }
}

/// Resolves a name without a prefix in a statement of a module, given the start of the statement.
pub fn find_plain(own: &Module, start: usize, name: &str) -> Found
    ensures { result ≡ plain (chars name.now) start
        (first_of (chars name.now) (module_seen own.now).names) }
{
    plain(start, name, own.names.get_text(name))
}

/// Resolves a name as the importers of a module see it.
fn shared(from: &Module, number: usize, name: &Chars) -> Found
    ensures { result ≡ P.shared number (P.first_of name.now (module_seen from.now).names) }
{
    match from.names.get(name) {
        None => Found::Unknown,
        Some(e) => match e.referent {
            Referent::Own(rule) => {
                if e.local || e.hidden {
                    return Found::Hidden;
                }
                Found::To(Referent::Of {
                    module: number,
                    rule,
                })
            }
            _ => Found::Unknown,
        },
    }
}

/// Resolves a name with a prefix in a statement whose start is `start`. `prefix` is the binding of
/// the prefix, if there is one.
fn prefixed(modules: &[Module], start: usize, name: &Chars, prefix: Option<Prefix>) -> Found
    ensures { result ≡ prefixed (modules_seen modules.now) start name.now prefix }
{
    match prefix {
        None => Found::Unknown,
        Some(p) => {
            if start < p.since {
                return Found::Unknown;
            }
            match modules.get(p.number) {
                None => Found::Unknown,
                Some(from) => shared(from, p.number, name),
            }
        }
    }
}

/// Resolves a name in a scope.
pub fn find(scope: Scope<'_>, name: &QName) -> Found
    ensures { result ≡ bound (modules_seen scope.entry.modules.now)
        (module_seen scope.entry.own.now) scope.entry.start name.now }
{
    let Scope {
        modules,
        own,
        start,
    } = scope;
    match &name.prefix {
        None => find_plain(own, start, name.name.as_str()),
        Some(prefix) => {
            if prefix.as_str().is_empty() {
                return Found::To(Referent::BuiltIn);
            }
            prefixed(modules, start, &name.name, own.prefixes.get(prefix))
        }
    }
}

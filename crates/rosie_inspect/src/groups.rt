// The lines of the names that a pattern may use, in groups: one group for each name of the top
// module, and one for all the names under each prefix.
ghost use Rattle.std.specs.Prelude.{◌≡◌, ◌++◌, ◌∷◌, [], List, ℕ, IfOk, IfSome, IsTrue};
ghost use Rattle.std.specs.Prelude.{chars, encode_utf8_all, map, string_bytes};
ghost use Rattle.std.specs.List.{flat_map};
ghost use Rattle.std.specs.List.Sorted.{IsPermutation};
ghost use Rattle.rpl_names.specs.Names.{all_listed, listed_under, own_listed, prefixes};
ghost use Rattle.rpl_names.specs.Roots.{Packages};
ghost use Rattle.rpl_names.specs.Sets.{set_seen};
ghost use Rattle.rosie_inspect.specs.Ascending.{AreWritten, HasLines};
ghost use Rattle.rosie_inspect.specs.Groups.{offered_lines, group_lines, HoldsOffers};
ghost use Rattle.rosie_inspect.specs.Names.{name_line, IsNamesText};

use crate::ascending::Ascending;
use crate::names::{make_line, make_lines};
use rpl_core::NoMemory;
use rpl_names::PackageSet;
use std::alloc::Global;
use std::cmp::Ordering;
use std::collections::BTreeMap;

/// A group of lines: the line of a name of the top module, or all lines under a prefix.
#[derive(Drop)]
struct Group {
    /// The line, or the prefix and a dot.
    text: String,
    /// The number of the module whose offered names follow the prefix.
    under: Option<usize>,
}

/// The lines of the names that modules offer, by the number of the module.
type Offers = BTreeMap<usize, Vec<String>>;

fn by_text(a: &Group, b: &Group) -> Ordering {
    a.text.as_str().cmp(b.text.as_str())
}

/// Returns the groups for the names of the top module.
fn own_groups(alloc: Global, packages: &PackageSet) -> Result<Vec<Group>, NoMemory>
    ensures { IfOk result (λ groups. flat_map (group_lines (set_seen packages.now)) groups.items
        ≡ map name_line (own_listed (set_seen packages.now))) }
{
    let names = packages.own_names(alloc)?;
    let mut groups = Vec::new(alloc);
    for listed in names.as_slice() {
        let text = make_line(alloc, listed)?;
        groups.push(Group { text, under: None })?;
    }
    Ok(groups)
}

/// Returns a prefix followed by a dot.
#[tactic(auto, using(crate::proofs::Grouping::spelled))]
fn dotted(alloc: Global, prefix: &str) -> Result<String, NoMemory>
    ensures { IfOk result (λ text. string_bytes text
        ≡ encode_utf8_all (chars prefix.now) ++ 46 ∷ []) }
{
    let mut text = String::from_str(alloc, prefix)?;
    text.push_str(".")?;
    Ok(text)
}

/// Appends the groups for the prefixes of the top module. Returns `false` if the names under one of
/// the prefixes aren't the names that a module offers.
fn push_prefixes(
    alloc: Global,
    packages: &PackageSet,
    groups: &mut Vec<Group>,
) -> Result<bool, NoMemory>
    ensures { IfOk result (λ all. IsTrue all
        → flat_map (group_lines (set_seen packages.now)) groups.new.items
        ≡ flat_map (group_lines (set_seen packages.now)) groups.old.items
        ++ map name_line (flat_map (listed_under (set_seen packages.now))
        (prefixes (set_seen packages.now)))) }
{
    for place in 0..packages.prefix_count() {
        let Some((prefix, number)) = packages.prefix(place) else {
            return Ok(false);
        };
        if number.is_none() {
            return Ok(false);
        }
        let text = dotted(alloc, prefix)?;
        groups.push(Group {
            text,
            under: number,
        })?;
    }
    Ok(true)
}

/// Returns the lines for the names that a module offers, in sorted order.
fn offered_lines(
    alloc: Global,
    packages: &PackageSet,
    number: usize,
) -> Result<Vec<String>, NoMemory>
    ensures { IfOk result (λ lines. IsPermutation (offered_lines (set_seen packages.now) number)
        (map (λ l. string_bytes l) lines.items)) }
{
    let names = packages.offered(alloc, number)?;
    let mut lines = make_lines(alloc, names)?;
    lines.sort()?;
    Ok(lines)
}

/// Returns the lines of the names that the modules under the prefixes offer. Each module's lines
/// are made once, however many prefixes the module has.
fn make_offers(alloc: Global, packages: &PackageSet, groups: &[Group]) -> Result<Offers, NoMemory>
    ensures { IfOk result (λ offers. HoldsOffers (set_seen packages.now) offers) }
{
    let mut offers = BTreeMap::new(alloc);
    for group in groups {
        if let Some(number) = group.under {
            if !offers.contains_key(&number) {
                offers.insert(number, offered_lines(alloc, packages, number)?)?;
            }
        }
    }
    Ok(offers)
}

/// Returns the number of bytes in these lines if each is preceded by a text of `front` bytes.
fn size_after(front: usize, lines: &[String]) -> usize {
    let mut size: usize = 0;
    for line in lines {
        size = size.saturating_add(front).saturating_add(line.len());
    }
    size
}

/// Returns the number of bytes in the text of all groups.
fn size_of(groups: &[Group], offers: &Offers) -> usize {
    let mut size: usize = 0;
    for group in groups {
        let front = group.text.len();
        let more = match group.under {
            None => front,
            Some(number) => match offers.get(&number) {
                None => 0,
                Some(lines) => size_after(front, lines),
            },
        };
        size = size.saturating_add(more);
    }
    size
}

/// Appends the lines of a group. Returns `false` if one of them is less than the line before it.
fn push_group(lines: &mut Ascending, group: &Group, offers: &Offers) -> Result<bool, NoMemory>
    ensures { IfOk result (λ ascends. IsTrue ascends → (p : Packages) (done : List (List ℕ))
        → HoldsOffers p offers.now
        → AreWritten done (string_bytes lines.old.text) lines.old.last
        → AreWritten (done ++ group_lines p group.now) (string_bytes lines.new.text)
        lines.new.last) }
{
    let front = group.text.as_str();
    match group.under {
        None => lines.push(front, ""),
        Some(number) => match offers.get(&number) {
            None => Ok(false),
            Some(ends) => lines.push_all(front, ends),
        },
    }
}

/// Returns the lines of the groups, or `None` if one of the lines is less than the line before it.
fn join_groups(alloc: Global, groups: &[Group], offers: &Offers) -> Result<Option<String>, NoMemory>
    ensures { IfOk result (λ found. IfSome found (λ text. (p : Packages)
        → HoldsOffers p offers.now
        → HasLines (flat_map (group_lines p) groups.now) (string_bytes text))) }
{
    let mut lines = Ascending::with_capacity(alloc, size_of(groups, offers))?;
    for group in groups {
        if !push_group(&mut lines, group, offers)? {
            return Ok(None);
        }
    }
    Ok(Some(lines.into_text()))
}

/// Returns the text of the names, without holding a copy of every line: the lines for each module
/// are made and sorted once, however many prefixes the module has. Returns `None` if the lines of
/// the sorted groups aren't in order.
pub fn text_in_groups(alloc: Global, packages: &PackageSet) -> Result<Option<String>, NoMemory>
    ensures { IfOk result (λ found. IfSome found (λ text. IsNamesText
        (all_listed (set_seen packages.now)) (string_bytes text))) }
{
    let mut groups = own_groups(alloc, packages)?;
    if !push_prefixes(alloc, packages, &mut groups)? {
        return Ok(None);
    }
    let offers = make_offers(alloc, packages, &groups)?;
    groups.sort_by(by_text)?;
    join_groups(alloc, &groups, &offers)
}

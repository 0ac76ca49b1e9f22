// The text of the names that a pattern may use.
ghost use Rattle.std.specs.Prelude.{◌≡◌, ◌++◌, map, IfOk, OnOk, string_bytes};
ghost use Rattle.std.specs.List.{concat};
ghost use Rattle.rpl_names.specs.Names.{all_listed};
ghost use Rattle.rpl_names.specs.Sets.{set_seen};
ghost use Rattle.rosie_inspect.specs.Names.{label_text, name_line, IsNamesText};

use crate::groups::text_in_groups;
use rpl_core::NoMemory;
use rpl_names::{Listed, Names, PackageSet};
use rpl_print::push_text;
use rpl_text::Chars;
use std::alloc::Global;

/// Appends the type of a name's nodes.
fn push_label(line: &mut String, label: &Option<Chars>) -> Result<(), NoMemory>
    ensures { OnOk result (string_bytes line.new ≡ string_bytes line.old ++ label_text label.now) }
{
    match label {
        None => line.push_str(" alias -"),
        Some(label) => {
            line.push_str(" capture ")?;
            push_text(line, label)
        }
    }
}

/// Returns the line for a name.
pub(crate) fn make_line(alloc: Global, listed: &Listed) -> Result<String, NoMemory>
    ensures { IfOk result (λ line. string_bytes line ≡ name_line listed.now) }
{
    let mut line = String::new(alloc);
    push_text(&mut line, &listed.name)?;
    push_label(&mut line, &listed.label)?;
    line.push_str("\n")?;
    Ok(line)
}

/// Returns the lines for the names, and drops the names, since the names and the lines together can
/// take a lot of memory.
pub(crate) fn make_lines(alloc: Global, names: Names) -> Result<Vec<String>, NoMemory>
    ensures { IfOk result (λ lines. map (λ l. string_bytes l) lines.items
        ≡ map name_line names) }
{
    let mut lines = Vec::new(alloc);
    for listed in names.as_slice() {
        lines.push(make_line(alloc, listed)?)?;
    }
    Ok(lines)
}

/// Concatenates lines.
fn join(alloc: Global, lines: &[String]) -> Result<String, NoMemory>
    ensures { IfOk result (λ text. string_bytes text
        ≡ concat (map (λ l. string_bytes l) lines.now)) }
{
    let mut text = String::new(alloc);
    for line in lines {
        text.push_str(line.as_str())?;
    }
    Ok(text)
}

/// Returns the text of the names, made by sorting all lines.
fn sorted_text(alloc: Global, packages: &PackageSet) -> Result<String, NoMemory>
    ensures { IfOk result (λ text. IsNamesText (all_listed (set_seen packages.now))
        (string_bytes text)) }
{
    let names = packages.names(alloc)?;
    let mut lines = make_lines(alloc, names)?;
    lines.sort()?;
    join(alloc, &lines)
}

/// Returns a line for each name that a pattern may use, in the order of the lines' bytes: the
/// name, then ` capture ` and the type of its nodes, or ` alias -` if the name makes no nodes.
pub fn names_text(alloc: Global, packages: &PackageSet) -> Result<String, NoMemory>
    ensures { IfOk result (λ text. IsNamesText (all_listed (set_seen packages.now))
        (string_bytes text)) }
{
    // The lines of the groups are in order, since no name contains a character that sorts before
    // the dot. The proof doesn't rely on that.
    match text_in_groups(alloc, packages)? {
        Some(text) => Ok(text),
        None => sorted_text(alloc, packages),
    }
}

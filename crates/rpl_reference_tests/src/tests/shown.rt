// Answers as text: the captures, and then the position of the end. `<` begins a tree, `>` ends one,
// and `!` is a note. Positions are counted in characters.
use rpl_core::{Caught, Program};
use rpl_reference::{Forest, Outcome};
use std::alloc::{AllocError, Global};

/// Appends one capture, or `@` and the position at which a match ends.
fn push_capture(
    alloc: Global,
    shown: &mut String,
    mark: char,
    text: &str,
    place: usize,
) -> Result<(), AllocError> {
    let part = format!(in alloc; "{mark}{text}{place} ")?;
    shown.push_str(part.as_str())
}

/// Appends the captures of trees.
fn show_trees(alloc: Global, shown: &mut String, trees: &Forest) -> Result<(), AllocError> {
    match trees {
        Forest::NoTree => Ok(()),
        Forest::Tree {
            label,
            start,
            subs,
            end,
            rest,
        } => {
            push_capture(alloc, shown, '<', label.as_str(), *start)?;
            show_trees(alloc, shown, subs)?;
            push_capture(alloc, shown, '>', "", *end)?;
            show_trees(alloc, shown, rest)
        }
        Forest::Noted { text, place, rest } => {
            push_capture(alloc, shown, '!', text.as_str(), *place)?;
            show_trees(alloc, shown, rest)
        }
    }
}

/// Returns the outcome of a pattern according to its meaning, as text.
pub(crate) fn show_outcome(alloc: Global, outcome: &Outcome) -> Result<String, AllocError> {
    match outcome {
        Outcome::Open => String::from_str(alloc, "open"),
        Outcome::Fail { .. } => String::from_str(alloc, "fail"),
        Outcome::At { place, trees, .. } | Outcome::HaltAt { place, trees, .. } => {
            let mut shown = String::new(alloc);
            show_trees(alloc, &mut shown, trees)?;
            push_capture(alloc, &mut shown, '@', "", *place)?;
            Ok(shown)
        }
    }
}

/// Returns the answer of the plain machine, as text.
pub(crate) fn show_plain(
    alloc: Global,
    answer: &rpl_reference::Answer,
) -> Result<String, AllocError> {
    match answer {
        rpl_reference::Answer::Fail { .. } => String::from_str(alloc, "fail"),
        rpl_reference::Answer::At { place, caught, .. } => {
            let mut shown = String::new(alloc);
            for one in caught {
                let (mark, label, place) = match one {
                    rpl_reference::Caught::Begin { label, place } => ('<', label.as_str(), *place),
                    rpl_reference::Caught::Finish { place } => ('>', "", *place),
                    rpl_reference::Caught::Note { text, place } => ('!', text.as_str(), *place),
                };
                push_capture(alloc, &mut shown, mark, label, place)?;
            }
            push_capture(alloc, &mut shown, '@', "", *place)?;
            Ok(shown)
        }
    }
}

/// Returns the number of characters before a byte offset in the line.
fn number_of(line: &str, place: usize) -> usize {
    let mut number = 0usize;
    for (start, _) in line.char_indices() {
        if start < place {
            number = number.saturating_add(1);
        }
    }
    number
}

/// Returns a match of the machine as text: its captures, and the position at which it ends.
pub(crate) fn show_match(
    alloc: Global,
    program: &Program,
    line: &str,
    captures: &[Caught],
    end: usize,
) -> Result<String, AllocError> {
    let mut shown = String::new(alloc);
    for one in captures {
        let (mark, label, place) = match *one {
            Caught::Begin { label, place } => ('<', program.label(label), place),
            Caught::Finish { place } => ('>', None, place),
            Caught::Note { text, place } => ('!', program.label(text), place),
        };
        let label = label.unwrap_or("");
        push_capture(alloc, &mut shown, mark, label, number_of(line, place))?;
    }
    push_capture(alloc, &mut shown, '@', "", number_of(line, end))?;
    Ok(shown)
}

// The lines of a trace, built from its events.
ghost use Rattle.std.specs.Prelude.{◌≡◌, ◌+◌, ◌-◌, ◌<◌, ◌≤◌, ◌^◌, ℕ, List, [], ◌∷◌, ◌++◌, reverse};
ghost use Rattle.std.specs.Prelude.{OnOk, IfOk, map};
ghost use Rattle.rpl_trace.specs.Evaluations.{Evaluations};
ghost use Rattle.rpl_trace.specs.inside.Seen.{EventStands, EventsStand};
ghost use Rattle.rpl_trace.specs.inside.Standing.{Standing, Whole, after, standing};
ghost use Rattle.rpl_trace.specs.inside.Lines.{Fits, IsRead, LinesStand, Reads};
ghost use Rattle.rpl_trace.specs.inside.Lines.{ends_in, row_seen, rows, rows_in};

use crate::event::{End, Event, Kind};
use std::alloc::{AllocError, Global};

/// A line of a trace: an evaluation, and how many evaluations enclose it.
#[derive(Clone, Copy)]
pub(crate) struct Line<'a> {
    pub(crate) depth: usize,
    pub(crate) kind: Kind<'a>,
    pub(crate) start: usize,
    pub(crate) end: End,
}

/// The state of a pass over the events, from the last to the first. The events are read backwards
/// because only the last event of an evaluation shows how it ends.
#[derive(Drop)]
struct Backwards<'a> {
    /// The ends of the open evaluations, the innermost last. `None` represents an evaluation that
    /// was removed.
    ends: Vec<Option<End>>,
    /// The number of ends that are not `None`.
    depth: usize,
    /// The lines, in reverse order.
    lines: Vec<Line<'a>>,
}

impl<'a> Backwards<'a> {
    /// Returns the state before any event is read, with room for the lines of `count` events.
    fn new(alloc: Global, count: usize) -> Result<Backwards<'a>, AllocError>
        ensures ends { (t : List ℕ) → IfOk result (λ b. ends_in t b ≡ []) }
        ensures rows { (t : List ℕ) → IfOk result (λ b. rows_in t b ≡ []) }
        ensures read { (t : List ℕ) → IfOk result (λ b. IsRead t b) }
        ensures depth { IfOk result (λ b. b.depth ≡ 0) }
    {
        Ok(Backwards {
            ends: Vec::new(alloc),
            depth: 0,
            lines: Vec::with_capacity(alloc, count / 2)?,
        })
    }

    /// Reads the event that precedes those already read.
    fn read(&mut self, event: Event<'a>) -> Result<(), AllocError>
        requires { self.old.depth + 1 < 2 ^ 64 }
        ensures reads { (t : List ℕ) (s : Standing) → IsRead t self.old → EventStands t event.entry
            → Fits (after t event.entry s) (ends_in t self.old)
            → OnOk result (Reads t s event.entry self.old self.new) }
        ensures depth { self.new.depth ≤ self.old.depth + 1 }
    {
        match event {
            Event::Ends(end) => {
                self.ends.push(Some(end))?;
                self.depth += 1;
                Ok(())
            }
            Event::Vanishes => {
                self.ends.push(None)?;
                Ok(())
            }
            Event::Begins { kind, start } => match self.ends.pop() {
                Some(Some(end)) => self.add(kind, start, end),
                Some(None) => Ok(()),
                None => Ok(()),
            },
        }
    }

    /// Adds the line of an evaluation that is no longer open.
    fn add(&mut self, kind: Kind<'a>, start: usize, end: End) -> Result<(), AllocError>
        ensures ends { self.new.ends ≡ self.old.ends }
        ensures depth { self.new.depth ≡ self.old.depth - 1 }
        ensures lines { OnOk result (self.new.lines.items ≡ self.old.lines.items
            ++ record { depth = self.old.depth - 1; kind = kind.entry; start = start; end = end } ∷
            []) }
    {
        let depth = self.depth.saturating_sub(1);
        self.depth = depth;
        self.lines.push(Line {
            depth,
            kind,
            start,
            end,
        })?;
        Ok(())
    }
}

/// Returns the lines of the events, in reverse order.
pub(crate) fn lines<'a>(
    alloc: Global,
    mut events: Vec<Event<'a>>,
) -> Result<Vec<Line<'a>>, AllocError>
    ensures rows { (t : List ℕ) (f : Evaluations) → EventsStand t (reverse events.entry.items)
        → standing t (reverse events.entry.items) ≡ Whole f
        → IfOk result (λ ls. map (row_seen t) (reverse ls.items) ≡ rows 0 f) }
    ensures stand { (t : List ℕ) (f : Evaluations) → EventsStand t (reverse events.entry.items)
        → standing t (reverse events.entry.items) ≡ Whole f
        → IfOk result (λ ls. LinesStand t (reverse ls.items)) }
{
    let count = events.len();
    let mut back = Backwards::new(alloc, count)?;
    while let Some(event) = events.pop() {
        back.read(event)?;
    }
    Ok(back.lines)
}

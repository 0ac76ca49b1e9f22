// The state of a session.
ghost use Rattle.std.specs.Prelude.{◌≡◌, ◌+◌, ◌≤◌, length, count_by, vec_capacity};
ghost use Rattle.rosie_repl.specs.inside.Kept.{is_removal};

use crate::NoMemory;
use crate::edit::Edit;
use crate::undoing::Undoing;
use rpl_text::Chars;
use std::alloc::Global;
use std::mem;

/// The kept texts, the kept pattern, and how to undo each change, in the order of the changes.
///
/// The list of texts always has enough capacity for the texts that `undo` can restore.
#[derive(Drop)]
pub struct State {
    alloc: Global,
    texts: Vec<Chars>,
    pattern: Option<Chars>,
    past: Vec<Undoing>,
    removed: usize,
    ghost counted: { removed ≡ count_by is_removal past.items },
    ghost roomy: { length texts.items + removed ≤ vec_capacity texts },
}

impl State {
    ghost use Rattle.std.specs.Prelude.{option_map, chars, slice_get};
    ghost use Rattle.std.specs.Option.{option_copied};
    ghost use Rattle.rosie_repl.specs.Edits.{in_chars, Add, Replace, Remove, Pattern};
    ghost use Rattle.rosie_repl.specs.Outcomes.{Changes, GoesOn};
    ghost use Rattle.rosie_repl.specs.Seen.{edit_seen};
    ghost use Rattle.rosie_repl.specs.Session as S;
    ghost use Rattle.rosie_repl.specs.States.{session_of};

    /// Returns a state with no texts and no pattern, without allocating.
    pub fn new(alloc: Global) -> State
        ensures { session_of result ≡ S.begun }
    {
        State {
            alloc,
            texts: Vec::new(alloc),
            pattern: None,
            past: Vec::new(alloc),
            removed: 0,
        }
    }

    /// Returns the number of kept texts.
    pub fn len(&self) -> usize
        ensures { result ≡ length (session_of self.now).now.texts }
    {
        self.texts.len()
    }

    /// Returns the text at this index, counted from 0, or `None` exactly when no text has this
    /// index.
    pub fn text(&self, index: usize) -> Option<&str>
        ensures { option_map chars (option_copied result)
            ≡ slice_get (session_of self.now).now.texts index }
    {
        match self.texts.get(index) {
            Some(text) => Some(text.as_str()),
            None => None,
        }
    }

    /// Returns the kept pattern, or `None` exactly when none is kept.
    pub fn pattern(&self) -> Option<&str>
        ensures { option_map chars (option_copied result) ≡ (session_of self.now).now.pattern }
    {
        match &self.pattern {
            Some(text) => Some(text.as_str()),
            None => None,
        }
    }

    /// Adds a text.
    fn add(&mut self, text: &str) -> Result<bool, NoMemory>
        ensures { Changes (session_of self.old) (session_of self.new)
            (S.changed (Add (chars text.now)) (session_of self.old)) result }
    {
        let text = Chars::from_str(self.alloc, text)?;
        self.past.reserve(1)?;
        self.texts.reserve(self.removed + 1)?;
        self.texts.push(text)?;
        self.past.push(Undoing::Added)?;
        Ok(true)
    }

    /// Replaces a text with another.
    fn replace(&mut self, number: u64, text: &str) -> Result<bool, NoMemory>
        ensures { Changes (session_of self.old) (session_of self.new)
            (S.changed (Replace number (chars text.now)) (session_of self.old)) result }
    {
        if number == 0 || number > self.texts.len() as u64 {
            return Ok(false);
        }
        let at = (number - 1) as usize;
        let text = Chars::from_str(self.alloc, text)?;
        self.past.reserve(1)?;
        let old = mem::replace(&mut self.texts[at], text);
        self.past.push(Undoing::Replaced(at, old))?;
        Ok(true)
    }

    /// Removes a text.
    fn remove(&mut self, number: u64) -> Result<bool, NoMemory>
        ensures { Changes (session_of self.old) (session_of self.new)
            (S.changed (Remove number) (session_of self.old)) result }
    {
        if number == 0 || number > self.texts.len() as u64 {
            return Ok(false);
        }
        let at = (number - 1) as usize;
        self.past.reserve(1)?;
        let old = self.texts.remove(at);
        self.past.push(Undoing::Removed(at, old))?;
        self.removed += 1;
        Ok(true)
    }

    /// Sets the kept pattern.
    fn keep(&mut self, text: &str) -> Result<bool, NoMemory>
        ensures { Changes (session_of self.old) (session_of self.new)
            (S.changed (Pattern (chars text.now)) (session_of self.old)) result }
    {
        let text = Chars::from_str(self.alloc, text)?;
        self.past.reserve(1)?;
        let old = mem::replace(&mut self.pattern, Some(text));
        self.past.push(Undoing::Patterned(old))?;
        Ok(true)
    }

    /// Makes a change, and returns whether it was made. Returns `false`, and changes nothing,
    /// exactly when the command is `Try` or `Undo`, or names a text that doesn't exist. If memory
    /// runs out, the state is left unchanged.
    pub fn change(&mut self, edit: &Edit<'_>) -> Result<bool, NoMemory>
        ensures { Changes (session_of self.old) (session_of self.new)
            (S.changed (in_chars (edit_seen edit.now)) (session_of self.old)) result }
    {
        match *edit {
            Edit::Add(text) => self.add(text),
            Edit::Replace(number, text) => self.replace(number, text),
            Edit::Remove(number) => self.remove(number),
            Edit::Pattern(text) => self.keep(text),
            Edit::Try(_) => Ok(false),
            Edit::Undo => Ok(false),
        }
    }

    /// Restores the state from before the last change, without allocating. Returns `false`, and
    /// changes nothing, exactly when there is no change to undo.
    pub fn undo(&mut self) -> bool
        ensures { GoesOn (session_of self.old) (session_of self.new)
            (S.undone (session_of self.old)) result }
    {
        match self.past.pop() {
            None => false,
            Some(Undoing::Added) => {
                let _ = self.texts.pop();
                true
            }
            Some(Undoing::Replaced(at, text)) => {
                if at < self.texts.len() {
                    self.texts[at] = text;
                }
                true
            }
            Some(Undoing::Removed(at, text)) => {
                let at = at.min(self.texts.len());
                let _ = self.texts.insert(at, text);
                self.removed -= 1;
                true
            }
            Some(Undoing::Patterned(old)) => {
                self.pattern = old;
                true
            }
        }
    }
}

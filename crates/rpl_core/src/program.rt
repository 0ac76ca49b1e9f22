// Code with its sets and texts.
ghost use Rattle.std.specs.Option.{option_copied};
ghost use Rattle.std.specs.Prelude.{◌≡◌, slice_get, chars, option_map, IsTrue, ◌↔◌};
ghost use Rattle.rpl_core.specs.Numbers.{AreInRange};

use crate::instr::{Instr, Instrs, are_in_range};
use rpl_classes::Set;
use rpl_list::List;
use rpl_text::Chars;

/// Sets in order, numbered from 0. Contracts see the sets as a list of lists of ranges.
pub type Sets = List<Set>;

/// Texts in order, numbered from 0. Contracts see the texts as a list of lists of characters.
pub type Labels = List<Chars>;

/// Code, with the sets and texts that its instructions refer to by number. Every number is in
/// range, and every address is that of an instruction.
///
/// # Examples
///
/// ```
/// use rpl_core::{Instr, Instrs, Labels, Program, Sets};
/// let code = Instrs::from_slice(alloc, &[Instr::Set(0), Instr::Finish])?;
/// assert!(rt; !Program::are_in_range(&code, &Sets::new(alloc), &Labels::new(alloc)));
/// let code = Instrs::from_slice(alloc, &[Instr::End, Instr::Finish])?;
/// let program = Program::new(code, Sets::new(alloc), Labels::new(alloc));
/// assert!(rt; matches!(program.code(), [Instr::End, Instr::Finish]) && program.set(0).is_none());
/// ```
#[derive(Drop)]
pub struct Program {
    code: Instrs,
    sets: Sets,
    labels: Labels,
    ghost in_range: { AreInRange code sets labels },
}

impl Program {
    ghost use Rattle.rpl_core.specs.Program.{code_of, sets_of, labels_of};

    /// Returns the program with these parts.
    pub fn new(code: Instrs, sets: Sets, labels: Labels) -> Program
        requires { AreInRange code sets labels }
        ensures code { code_of result ≡ code }
        ensures sets { sets_of result ≡ sets }
        ensures labels { labels_of result ≡ labels }
    {
        Program { code, sets, labels }
    }

    /// Returns whether the parts form a program: every number is in range, and every address is
    /// that of an instruction.
    pub fn are_in_range(code: &Instrs, sets: &Sets, labels: &Labels) -> bool
        ensures { IsTrue result ↔ AreInRange code.now sets.now labels.now }
    {
        are_in_range(code, sets.len(), labels.len())
    }

    /// Returns the instructions, the first at address 0. Every number in the instructions is in
    /// range.
    pub fn code(&self) -> &[Instr]
        ensures same { result.now ≡ code_of self.now }
        ensures in_range { AreInRange (code_of self.now) (sets_of self.now) (labels_of self.now) }
    {
        self.code.as_slice()
    }

    /// Returns the sets, numbered from 0.
    pub fn sets(&self) -> &[Set]
        ensures { result.now ≡ sets_of self.now }
    {
        self.sets.as_slice()
    }

    /// Returns the set with this number.
    pub fn set(&self, id: u32) -> Option<&Set>
        ensures { option_copied result ≡ slice_get (sets_of self.now) id }
    {
        self.sets.get(id as usize)
    }

    /// Returns the texts, numbered from 0.
    pub fn labels(&self) -> &[Chars]
        ensures { result.now ≡ labels_of self.now }
    {
        self.labels.as_slice()
    }

    /// Returns the text with this number: the type of a tree, or the text of a note.
    pub fn label(&self, id: u32) -> Option<&str>
        ensures { option_map chars (option_copied result) ≡ slice_get (labels_of self.now) id }
    {
        match self.labels.get(id as usize) {
            Some(text) => Some(text.as_str()),
            None => None,
        }
    }
}

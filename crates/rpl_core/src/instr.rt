// The machine's instructions, with numbers in place of sets and texts.
ghost use Rattle.std.specs.List.{list_all};
ghost use Rattle.rpl_core.specs.Numbers.{in_range};
ghost use Rattle.std.specs.Prelude.{◌≡◌, length};

use rpl_list::List;

/// An instruction, with its operands in the order in which they are printed. An operand is an
/// address (counted from 0), the number of a set or a text, or a count of characters. The entry
/// that an instruction uses is the one on top of the stack. `specs/Machine.antt` defines what each
/// instruction does.
///
/// # Examples
///
/// ```
/// use rpl_core::Instr;
/// let choice = Instr::Choice(5);
/// assert!(rt; choice.is_in_range(6, 0, 0) && !choice.is_in_range(5, 0, 0));
/// assert!(rt; Instr::Set(0).is_in_range(1, 1, 0) && !Instr::Set(0).is_in_range(1, 0, 1));
/// ```
#[derive(Clone, Copy)]
pub enum Instr {
    /// Takes the next character if it is in the set; otherwise fails.
    Set(u32),
    /// Fails everywhere except at the first place.
    Start,
    /// Fails everywhere except at the last place.
    End,
    /// Pushes an entry: after a later failure, the run resumes at the address, from this place.
    Choice(u32),
    /// Pops the entry and jumps to the address.
    Commit(u32),
    /// Pops the entry and fails.
    FailTwice,
    /// Pops the entry, restores its place and captures, and jumps to the address.
    BackCommit(u32),
    /// Fails.
    Fail,
    /// Moves back by this number of characters; fails if fewer characters precede this place.
    Back(u32),
    /// If the run is at the entry's place, pops the entry, restores its captures and jumps to the
    /// address; otherwise fails.
    Meet(u32),
    /// Pushes the address of the next instruction and jumps to the given address.
    Call(u32),
    /// Returns to the address after the call.
    Return,
    /// Begins a tree whose type is the text with this number.
    Open(u32),
    /// Ends the innermost open tree.
    Close,
    /// Adds a note whose text has this number.
    Note(u32),
    /// Ends the run with a match.
    Finish,
    /// If the next character is in the set, continues without taking it; otherwise jumps to the
    /// address.
    TestSet(u32, u32),
    /// Takes characters as long as the next one is in the set.
    Span(u32),
    /// Stores this place and the current captures in the entry, and jumps to the address.
    PartialCommit(u32),
    /// Ends each open tree here, then ends the run with a match.
    Halt,
}

/// Instructions in order, the first at address 0. Contracts see the instructions as a list.
pub type Instrs = List<Instr>;

impl Instr {
    /// Returns whether the instruction's numbers are in range, given how many instructions, sets
    /// and texts there are.
    pub fn is_in_range(self, code: usize, sets: usize, labels: usize) -> bool
        ensures { result ≡ in_range code sets labels self }
    {
        match self {
            Instr::Set(set) | Instr::Span(set) => (set as usize) < sets,
            Instr::TestSet(to, set) => (to as usize) < code && (set as usize) < sets,
            Instr::Choice(to)
            | Instr::Commit(to)
            | Instr::BackCommit(to)
            | Instr::Meet(to)
            | Instr::Call(to)
            | Instr::PartialCommit(to) => (to as usize) < code,
            Instr::Open(text) | Instr::Note(text) => (text as usize) < labels,
            Instr::Start | Instr::End | Instr::FailTwice | Instr::Fail | Instr::Back(_) => true,
            Instr::Return | Instr::Close | Instr::Finish | Instr::Halt => true,
        }
    }
}

/// Returns whether the numbers in all instructions are in range, given how many sets and texts
/// there are.
pub(crate) fn are_in_range(code: &Instrs, sets: usize, labels: usize) -> bool
    ensures { result ≡ list_all (in_range (length code.now) sets labels) code.now }
{
    let count = code.len();
    code.as_slice()
        .iter()
        .all(|instr| instr.is_in_range(count, sets, labels))
}

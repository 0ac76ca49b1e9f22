// The machine's steps, taken one at a time, on a list of characters.
ghost use Rattle.std.specs.Prelude.{if◌then◌else◌, ◌≡◌, ◌<◌, ◌≤◌, ◌+◌, ◌^◌, nat_eq, nat_lt, true};
ghost use Rattle.std.specs.Prelude.{OnOk, IfOk};
ghost use Rattle.std.specs.Prelude.{Some, None, [], ◌∷◌, ◌++◌, length, take, map};
ghost use Rattle.std.specs.Prelude.{slice_get, slice_index_or};
ghost use Rattle.rpl_core.specs.Core.{fits};
ghost use Rattle.rpl_core.specs.Forest.{Begin, Finish, begins, finishes};
ghost use Rattle.rpl_core.specs.Machine as M;
ghost use Rattle.rpl_core.specs.Run as Run;
ghost use Rattle.rpl_core.specs.Numbers.{instr_of};
ghost use Rattle.rpl_core.specs.Program.{instructions, sets_of, labels_of};
ghost use Rattle.rpl_reference.specs.inside.States.{state_of, stack_of, captures_of, entry_of};
ghost use Rattle.rpl_reference.specs.Answers.{caught_of};
ghost use Rattle.rpl_reference.specs.Answers.{IsAnswer, answer_of};
ghost use Rattle.rpl_reference.specs.inside.States.{ended_as};

use rpl_core::{Instr, Program};
use rpl_text::Chars;
use std::alloc::{AllocError, Global};

/// An entry of the stack.
#[derive(Clone, Copy)]
pub enum Entry {
    /// The address where execution continues after a call.
    ReturnTo(usize),
    /// The state to restore after a failure: the address, the place and the number of captures.
    Retry(usize, usize, usize),
}

/// A capture, with a copy of its text. Places are character numbers, counted from 0.
#[derive(Drop)]
pub enum Caught {
    /// The start of a tree of this type.
    Begin { label: Chars, place: usize },
    /// The end of a tree.
    Finish { place: usize },
    /// A note with this text.
    Note { text: Chars, place: usize },
}

/// The stage of a run: the run continues at an address and a place, is failing, or has ended with a
/// match.
#[derive(Clone, Copy)]
pub enum Stage {
    Going { address: usize, place: usize },
    Failing,
    Ended { place: usize },
}

/// A run: its stage, its stack with the top last, and its captures.
#[derive(Drop)]
pub struct Machine {
    stage: Stage,
    stack: Vec<Entry>,
    caught: Vec<Caught>,
}

/// The program and the text of a run.
#[derive(Clone, Copy)]
struct Over<'a> {
    alloc: Global,
    program: &'a Program,
    text: &'a [char],
}

/// The result of a run, with the number of steps that it took.
#[derive(Drop)]
pub enum Answer {
    At {
        place: usize,
        steps: u64,
        caught: Vec<Caught>,
    },
    Fail {
        steps: u64,
    },
}

/// Returns whether set number `set` of the program contains `c`.
fn holds(program: &Program, set: u32, c: char) -> bool
    ensures { result ≡ fits (Some c) (slice_index_or (sets_of program.now) set []) }
{
    match program.set(set) {
        Some(set) => set.has(c),
        None => false,
    }
}

/// Returns the place after the character at `place`, if set number `set` of the program contains
/// that character.
fn next(program: &Program, set: u32, text: &[char], place: usize) -> Option<usize>
    ensures { result ≡
        (if fits (slice_get text.now place) (slice_index_or (sets_of program.now) set []) then Some
        (place + 1)
        else None) }
{
    if place < text.len() && holds(program, set, text[place]) {
        Some(place + 1)
    } else {
        None
    }
}

/// Returns a copy of text number `id` of the program.
fn text_of(alloc: Global, program: &Program, id: u32) -> Result<Chars, AllocError>
    ensures { IfOk result (λ t. t ≡ slice_index_or (labels_of program.now) id []) }
{
    match program.label(id) {
        Some(text) => Chars::from_str(alloc, text),
        None => Chars::from_str(alloc, ""),
    }
}

/// Returns 1 for the start of a tree, and 0 otherwise.
fn begin_here(one: &Caught) -> usize
    ensures count { result ≡ begins (caught_of one.now ∷ []) }
    ensures small { result ≤ 1 }
{
    match one {
        Caught::Begin { .. } => 1,
        Caught::Finish { .. } => 0,
        Caught::Note { .. } => 0,
    }
}

/// Returns how many of the captures start a tree.
fn count_begins(caught: &[Caught]) -> usize
    ensures { result ≡ begins (map caught_of caught.now) }
{
    let mut count = 0;
    for one in caught {
        count += begin_here(one);
    }
    count
}

/// Returns 1 for the end of a tree, and 0 otherwise.
fn finish_here(one: &Caught) -> usize
    ensures count { result ≡ finishes (caught_of one.now ∷ []) }
    ensures small { result ≤ 1 }
{
    match one {
        Caught::Begin { .. } => 0,
        Caught::Finish { .. } => 1,
        Caught::Note { .. } => 0,
    }
}

/// Returns how many of the captures end a tree.
fn count_finishes(caught: &[Caught]) -> usize
    ensures { result ≡ finishes (map caught_of caught.now) }
{
    let mut count = 0;
    for one in caught {
        count += finish_here(one);
    }
    count
}

impl Machine {
    /// Returns a run that has not begun, at the first address and the first place.
    fn new(alloc: Global) -> Machine
        ensures { state_of result ≡ M.start_state }
    {
        Machine {
            stage: Stage::Going {
                address: 0,
                place: 0,
            },
            stack: Vec::new(alloc),
            caught: Vec::new(alloc),
        }
    }

    /// Continues at `address` and `place`.
    fn go(&mut self, address: usize, place: usize)
        ensures { state_of self.new ≡ M.Going address place (stack_of self.old)
            (captures_of self.old) }
    {
        self.stage = Stage::Going { address, place };
    }

    /// Puts the run into the stage `Failing`.
    fn fail(&mut self)
        ensures { state_of self.new ≡ M.Failing (stack_of self.old) (captures_of self.old) }
    {
        self.stage = Stage::Failing;
    }

    /// Continues at `address` and `place` if `holds` is true, and otherwise begins to fail.
    fn go_if(&mut self, holds: bool, address: usize, place: usize)
        ensures { state_of self.new ≡
            (if holds then M.Going address place (stack_of self.old) (captures_of self.old)
            else M.Failing (stack_of self.old) (captures_of self.old)) }
    {
        if holds {
            self.go(address, place);
        } else {
            self.fail();
        }
    }

    /// Ends the run with a failure, and leaves no entry on the stack.
    fn stop(&mut self)
        ensures { state_of self.new ≡ M.Failing [] (captures_of self.old) }
    {
        self.stack.clear();
        self.stage = Stage::Failing;
    }

    /// Ends the run with a match that ends at `place`.
    fn end(&mut self, place: usize)
        ensures { state_of self.new ≡ M.Ended place (captures_of self.old) }
    {
        self.stage = Stage::Ended { place };
    }

    /// Adds a capture, and continues at `address` and `place`.
    fn note(&mut self, one: Caught, address: usize, place: usize) -> Result<(), AllocError>
        ensures { OnOk result (state_of self.new ≡
            M.Going address place (stack_of self.old) (captures_of self.old
            ++ caught_of one ∷ [])) }
    {
        self.caught.push(one)?;
        self.stage = Stage::Going { address, place };
        Ok(())
    }

    /// Pushes an entry, and continues at `address` and `place`.
    fn enter(&mut self, entry: Entry, address: usize, place: usize) -> Result<(), AllocError>
        ensures { OnOk result (state_of self.new ≡
            M.Going address place (entry_of entry ∷ stack_of self.old) (captures_of self.old)) }
    {
        self.stack.push(entry)?;
        self.stage = Stage::Going { address, place };
        Ok(())
    }

    /// Keeps only the first `captures` captures, and continues at `address` and `place`.
    fn back_to(&mut self, captures: usize, address: usize, place: usize)
        ensures { state_of self.new ≡ M.Going address place (stack_of self.old)
            (take captures (captures_of self.old)) }
    {
        self.caught.truncate(captures);
        self.stage = Stage::Going { address, place };
    }

    /// Takes one step of a failing run.
    fn resume(&mut self)
        ensures { state_of self.new ≡ M.resume (stack_of self.old) (captures_of self.old) }
    {
        match self.stack.pop() {
            None => self.fail(),
            Some(Entry::ReturnTo(_)) => self.fail(),
            Some(Entry::Retry(address, place, captures)) => self.back_to(captures, address, place),
        }
    }

    /// Executes a `commit` instruction.
    fn commit(&mut self, to: usize, place: usize)
        ensures { state_of self.new ≡ M.on_retry (stack_of self.old) (captures_of self.old)
            (λ a j n rest. M.Going to place rest (captures_of self.old)) }
    {
        match self.stack.pop() {
            None => self.stop(),
            Some(Entry::ReturnTo(_)) => self.stop(),
            Some(Entry::Retry(_, _, _)) => self.go(to, place),
        }
    }

    /// Executes a `failtwice` instruction.
    fn fail_twice(&mut self)
        ensures { state_of self.new ≡ M.on_retry (stack_of self.old) (captures_of self.old)
            (λ a j n rest. M.Failing rest (captures_of self.old)) }
    {
        match self.stack.pop() {
            None => self.stop(),
            Some(Entry::ReturnTo(_)) => self.stop(),
            Some(Entry::Retry(_, _, _)) => self.fail(),
        }
    }

    /// Executes a `backcommit` instruction.
    fn back_commit(&mut self, to: usize)
        ensures { state_of self.new ≡ M.on_retry (stack_of self.old) (captures_of self.old)
            (λ a j n rest. M.Going to j rest (take n (captures_of self.old))) }
    {
        match self.stack.pop() {
            None => self.stop(),
            Some(Entry::ReturnTo(_)) => self.stop(),
            Some(Entry::Retry(_, from, captures)) => self.back_to(captures, to, from),
        }
    }

    /// Executes a `partialcommit` instruction.
    fn partial_commit(&mut self, to: usize, place: usize) -> Result<(), AllocError>
        ensures { OnOk result (state_of self.new
            ≡ M.on_retry (stack_of self.old) (captures_of self.old)
            (λ a j n rest.
            M.Going to place (M.Retry a place (length (captures_of self.old)) ∷ rest)
            (captures_of self.old))) }
    {
        match self.stack.pop() {
            None => {
                self.stop();
                Ok(())
            }
            Some(Entry::ReturnTo(_)) => {
                self.stop();
                Ok(())
            }
            Some(Entry::Retry(next, _, _)) => {
                let entry = Entry::Retry(next, place, self.caught.len());
                self.enter(entry, to, place)
            }
        }
    }

    /// Executes a `meet` instruction.
    fn meet(&mut self, to: usize, place: usize)
        ensures { state_of self.new ≡ M.on_retry (stack_of self.old) (captures_of self.old)
            (λ a j n rest.
            if nat_eq place j then M.Going to j rest (take n (captures_of self.old))
            else M.Failing (stack_of self.old) (captures_of self.old)) }
    {
        match self.stack.last() {
            None => self.stop(),
            Some(Entry::ReturnTo(_)) => self.stop(),
            Some(Entry::Retry(_, from, _)) => {
                if place == *from {
                    self.back_commit(to);
                } else {
                    self.fail();
                }
            }
        }
    }

    /// Executes a `return` instruction.
    fn go_back(&mut self, place: usize)
        ensures { state_of self.new ≡ M.on_return (stack_of self.old) (captures_of self.old)
            (λ a rest. M.Going a place rest (captures_of self.old)) }
    {
        match self.stack.pop() {
            None => self.stop(),
            Some(Entry::ReturnTo(to)) => self.go(to, place),
            Some(Entry::Retry(_, _, _)) => self.stop(),
        }
    }

    /// Takes one step of the `halt` instruction at `address`.
    fn halt(&mut self, address: usize, place: usize) -> Result<(), AllocError>
        ensures { let seen = captures_of self.old in OnOk result (state_of self.new ≡
            (if nat_lt (finishes seen) (begins seen)
            then M.Going address place (stack_of self.old) (seen ++ Finish place ∷ [])
            else M.Ended place seen)) }
    {
        if count_finishes(&self.caught) < count_begins(&self.caught) {
            self.note(Caught::Finish { place }, address, place)
        } else {
            self.end(place);
            Ok(())
        }
    }

    /// Executes a `choice` instruction: after a failure, the run continues at `to`.
    fn choose(&mut self, to: usize, after: usize, place: usize) -> Result<(), AllocError>
        ensures { OnOk result (state_of self.new ≡
            M.Going after place
            (M.Retry to place (length (captures_of self.old)) ∷ stack_of self.old)
            (captures_of self.old)) }
    {
        let entry = Entry::Retry(to, place, self.caught.len());
        self.enter(entry, after, place)
    }

    /// Executes an `open` instruction: begins a tree whose type is text number `label` of the
    /// program.
    fn open(
        &mut self,
        over: &Over<'_>,
        label: u32,
        after: usize,
        place: usize,
    ) -> Result<(), AllocError>
        ensures { OnOk result (state_of self.new ≡
            M.Going after place (stack_of self.old)
            (captures_of self.old
            ++ Begin (slice_index_or (labels_of over.now.program.now) label []) place ∷ [])) }
    {
        let label = text_of(over.alloc, over.program, label)?;
        self.note(Caught::Begin { label, place }, after, place)
    }

    /// Executes this instruction, which is at `address`, as one step.
    fn act(
        &mut self,
        over: &Over<'_>,
        instr: Instr,
        address: usize,
        place: usize,
    ) -> Result<(), AllocError>
        requires { address + 1 < 2 ^ 64 }
        ensures { OnOk result (state_of self.new ≡
            M.act
            (Some (instr_of (sets_of over.now.program.now) (labels_of over.now.program.now) instr))
            over.now.text.now address place (stack_of self.old) (captures_of self.old)) }
    {
        let (program, text) = (over.program, over.text);
        let after = address + 1;
        match instr {
            Instr::Set(set) => match next(program, set, text, place) {
                Some(next) => self.go(after, next),
                None => self.fail(),
            },
            Instr::Start => self.go_if(place == 0, after, place),
            Instr::End => self.go_if(place == text.len(), after, place),
            Instr::Choice(to) => self.choose(to as usize, after, place)?,
            Instr::Commit(to) => self.commit(to as usize, place),
            Instr::FailTwice => self.fail_twice(),
            Instr::BackCommit(to) => self.back_commit(to as usize),
            Instr::Fail => self.fail(),
            Instr::Back(count) => match place.checked_sub(count as usize) {
                Some(before) => self.go(after, before),
                None => self.fail(),
            },
            Instr::Meet(to) => self.meet(to as usize, place),
            Instr::Call(to) => self.enter(Entry::ReturnTo(after), to as usize, place)?,
            Instr::Return => self.go_back(place),
            Instr::Open(label) => self.open(over, label, after, place)?,
            Instr::Close => self.note(Caught::Finish { place }, after, place)?,
            Instr::Note(text) => {
                let text = text_of(over.alloc, program, text)?;
                self.note(Caught::Note { text, place }, after, place)?;
            }
            Instr::Finish => self.end(place),
            Instr::TestSet(to, set) => match next(program, set, text, place) {
                Some(_) => self.go(after, place),
                None => self.go(to as usize, place),
            },
            Instr::Span(set) => match next(program, set, text, place) {
                Some(next) => self.go(address, next),
                None => self.go(after, place),
            },
            Instr::PartialCommit(to) => self.partial_commit(to as usize, place)?,
            Instr::Halt => self.halt(address, place)?,
        }
        Ok(())
    }

    /// Takes one step. A run that is over does not change.
    fn step(&mut self, over: &Over<'_>) -> Result<(), AllocError>
        ensures { OnOk result (state_of self.new ≡
            M.step (instructions over.now.program.now) over.now.text.now (state_of self.old)) }
    {
        match self.stage {
            Stage::Ended { .. } => {}
            Stage::Failing => self.resume(),
            Stage::Going { address, place } => {
                let code = over.program.code();
                if address < code.len() {
                    self.act(over, code[address], address, place)?;
                } else {
                    self.stop();
                }
            }
        }
        Ok(())
    }

    /// Returns whether the run is over.
    fn is_over(&self) -> bool
        ensures { result ≡ M.is_over (state_of self.now) }
    {
        match self.stage {
            Stage::Going { .. } => false,
            Stage::Failing => self.stack.is_empty(),
            Stage::Ended { .. } => true,
        }
    }

    /// Returns the result of a run that is over and took `steps` steps.
    fn answer(self, steps: u64) -> Answer
        requires { M.is_over (state_of self) ≡ true }
        ensures { answer_of result ≡ ended_as steps (state_of self) }
    {
        match self.stage {
            Stage::Ended { place } => Answer::At {
                place,
                steps,
                caught: self.caught,
            },
            _ => Answer::Fail { steps },
        }
    }
}

/// Runs the program on the text, in at most `budget` steps. Returns `None` exactly when the run
/// needs more steps.
pub fn run(
    alloc: Global,
    program: &Program,
    text: &[char],
    budget: u64,
) -> Result<Option<Answer>, AllocError>
    ensures { IfOk result (IsAnswer (Run.run (instructions program.now) text.now budget)) }
{
    let over = Over {
        alloc,
        program,
        text,
    };
    let mut machine = Machine::new(alloc);
    let mut steps = 0;
    'steps: while !machine.is_over() {
        if steps == budget {
            return Ok(None);
        }
        machine.step(&over)?;
        steps += 1;
    }
    Ok(Some(machine.answer(steps)))
}

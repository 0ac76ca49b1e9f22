// Code that is being written.
ghost use Rattle.std.specs.Prelude.{◌≡◌, ◌<◌, ◌≤◌, [], ◌∷◌, ◌++◌, IfSome, IsSome, OnErr, OnOk};
ghost use Rattle.std.specs.Prelude.{length, take};

use crate::NoMemory;
use crate::tables::{LabelTable, Piece, SetTable, Table};
use rpl_classes::Set;
use rpl_core::{Instr, Instrs};
use rpl_text::Chars;
use std::alloc::Global;

/// Instructions in order, with the sets and texts that they refer to by number.
#[derive(Drop)]
pub struct Draft {
    pub code: Instrs,
    pub sets: SetTable,
    pub labels: LabelTable,
    ghost few: { length code ≤ 1048576 },
    ghost sets_few: { length sets ≤ length code },
    ghost labels_few: { length labels ≤ length code },
}

/// How an instruction uses its set.
#[derive(Clone, Copy)]
enum SetUse {
    Set,
    Span,
    /// `testset`, with the address to jump to if the next character isn't in the set.
    Test(u32),
}

impl SetUse {
    ghost use Rattle.rpl_intern.specs.inside.Uses.{numbered_set};

    /// Returns the instruction that uses its set in this way, given the set's number.
    fn instr(self, number: u32) -> Instr
        ensures { result ≡ numbered_set self number }
    {
        match self {
            SetUse::Set => Instr::Set(number),
            SetUse::Span => Instr::Span(number),
            SetUse::Test(other) => Instr::TestSet(other, number),
        }
    }
}

/// How an instruction uses its text.
#[derive(Clone, Copy)]
enum TextUse {
    Open,
    Note,
}

impl TextUse {
    ghost use Rattle.rpl_intern.specs.inside.Uses.{numbered_text};

    /// Returns the instruction that uses its text in this way, given the text's number.
    fn instr(self, number: u32) -> Instr
        ensures { result ≡ numbered_text self number }
    {
        match self {
            TextUse::Open => Instr::Open(number),
            TextUse::Note => Instr::Note(number),
        }
    }
}

impl Draft {
    ghost use Rattle.rpl_core.specs.Instr as I;
    ghost use Rattle.rpl_intern.specs.Written.{Adds, plain};
    ghost use Rattle.rpl_intern.specs.inside.Uses.{with_set, with_text};

    /// Returns an empty draft.
    pub fn new(alloc: Global) -> Draft
        ensures code { result.code ≡ [] }
        ensures sets { result.sets ≡ [] }
        ensures labels { result.labels ≡ [] }
    {
        Draft {
            code: Instrs::new(alloc),
            sets: SetTable::new(alloc),
            labels: LabelTable::new(alloc),
        }
    }

    /// Returns the address of the next instruction.
    pub fn next(&self) -> u32
        ensures { result ≡ length self.now.code }
    {
        self.code.len() as u32
    }

    /// Writes an instruction that uses no set and no text. If memory runs out, nothing changes.
    pub fn put(&mut self, instr: Instr) -> Result<(), NoMemory>
        requires room { length self.old.code < 1048576 }
        requires plain { IsSome (plain instr) }
        ensures adds { OnOk result (IfSome (plain instr) (λ i. Adds self.old self.new (i ∷ []))) }
        ensures err { OnErr result (self.new ≡ self.old) }
    {
        self.code.push(instr)?;
        Ok(())
    }

    /// Writes a `set` instruction. If memory runs out, nothing changes.
    pub fn put_set(&mut self, alloc: Global, set: &Set) -> Result<(), NoMemory>
        requires { length self.old.code < 1048576 }
        ensures adds { OnOk result (Adds self.old self.new (I.Set set.now ∷ [])) }
        ensures err { OnErr result (self.new ≡ self.old) }
    {
        self.use_set(alloc, set, SetUse::Set)
    }

    /// Writes a `span` instruction. If memory runs out, nothing changes.
    pub fn put_span(&mut self, alloc: Global, set: &Set) -> Result<(), NoMemory>
        requires { length self.old.code < 1048576 }
        ensures adds { OnOk result (Adds self.old self.new (I.Span set.now ∷ [])) }
        ensures err { OnErr result (self.new ≡ self.old) }
    {
        self.use_set(alloc, set, SetUse::Span)
    }

    /// Writes a `testset` instruction, which jumps to `other` if the next character isn't in the
    /// set. If memory runs out, nothing changes.
    pub fn put_test(&mut self, alloc: Global, other: u32, set: &Set) -> Result<(), NoMemory>
        requires { length self.old.code < 1048576 }
        ensures adds { OnOk result (Adds self.old self.new (I.TestSet other set.now ∷ [])) }
        ensures err { OnErr result (self.new ≡ self.old) }
    {
        self.use_set(alloc, set, SetUse::Test(other))
    }

    /// Writes an `open` instruction. If memory runs out, nothing changes.
    pub fn put_open(&mut self, alloc: Global, label: &Chars) -> Result<(), NoMemory>
        requires { length self.old.code < 1048576 }
        ensures adds { OnOk result (Adds self.old self.new (I.Open label.now ∷ [])) }
        ensures err { OnErr result (self.new ≡ self.old) }
    {
        self.use_text(alloc, label, TextUse::Open)
    }

    /// Writes a `note` instruction. If memory runs out, nothing changes.
    pub fn put_note(&mut self, alloc: Global, text: &Chars) -> Result<(), NoMemory>
        requires { length self.old.code < 1048576 }
        ensures adds { OnOk result (Adds self.old self.new (I.Note text.now ∷ [])) }
        ensures err { OnErr result (self.new ≡ self.old) }
    {
        self.use_text(alloc, text, TextUse::Note)
    }

    /// Writes the instruction that uses the set in the way given by `as_what`. If memory runs out,
    /// nothing changes.
    fn use_set(&mut self, alloc: Global, set: &Set, as_what: SetUse) -> Result<(), NoMemory>
        requires { length self.old.code < 1048576 }
        ensures adds { OnOk result (Adds self.old self.new (with_set as_what set.now ∷ [])) }
        ensures err { OnErr result (self.new ≡ self.old) }
    {
        let count = self.sets.len();
        let number = self.sets.keep(alloc, set)?;
        let instr = as_what.instr(number as u32);
        put_with(&mut self.code, &mut self.sets, instr, count)
    }

    /// Writes the instruction that uses the text in the way given by `as_what`. If memory runs out,
    /// nothing changes.
    fn use_text(&mut self, alloc: Global, text: &Chars, as_what: TextUse) -> Result<(), NoMemory>
        requires { length self.old.code < 1048576 }
        ensures adds { OnOk result (Adds self.old self.new (with_text as_what text.now ∷ [])) }
        ensures err { OnErr result (self.new ≡ self.old) }
    {
        let count = self.labels.len();
        let number = self.labels.keep(alloc, text)?;
        let instr = as_what.instr(number as u32);
        put_with(&mut self.code, &mut self.labels, instr, count)
    }
}

/// Writes an instruction that refers to a row of `table`. If memory runs out, removes all rows
/// after the first `count`. The caller passes as `count` the number of rows that the table had
/// before the row was looked up.
fn put_with<T: Piece>(
    code: &mut Instrs,
    table: &mut Table<T>,
    instr: Instr,
    count: usize,
) -> Result<(), NoMemory>
    ensures code { OnOk result (code.new ≡ code.old ++ instr ∷ []) }
    ensures table { OnOk result (table.new ≡ table.old) }
    ensures code_err { OnErr result (code.new ≡ code.old) }
    ensures table_err { OnErr result (table.new ≡ take count table.old) }
{
    let pushed = code.push(instr);
    if pushed.is_err() {
        table.truncate(count);
    }
    pushed
}

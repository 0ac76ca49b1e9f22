// The subjects of tests, compiled when they are first needed.
ghost use Rattle.std.specs.Prelude.{◌≡◌, [], List, IfOk, IfSome, OnOk};
ghost use Rattle.rpl_core.specs.Core.{Core};
ghost use Rattle.rpl_core.specs.Table.{bodies_of};
ghost use Rattle.rosie_suites.specs.Tried.{subject_for};
ghost use Rattle.rosie_suites.specs.inside.Entries.{AreSound, StandsAt, subject_of};
ghost use Rattle.rosie_suites.specs.inside.Ready.{IsBound, IsReady};

use crate::goal::checked_goal;
use rosie_run::NoMemory;
use rpl_check::{Checked, CheckedPeg};
use rpl_codegen::{CompileFault, compile};
use rpl_core::Program;
use rpl_package::Target;
use std::alloc::{AllocError, Global};

/// The greatest number of instructions that are kept. Beyond that number, all are dropped. This is
/// also the greatest length that the code of a goal may have.
const MAX_KEPT: usize = 1_048_576;

/// A goal with its code.
#[derive(Drop)]
pub(crate) struct Compiled {
    pub(crate) goal: CheckedPeg,
    pub(crate) program: Program,
}

/// The subject of a test.
#[derive(Drop)]
pub(crate) enum Subject {
    /// No rule: no statement of the file binds the test's name, or the name is that of a hidden
    /// rule.
    Unbound,
    /// A goal whose code is too long.
    TooLong,
    /// A goal with its code.
    Runs(Compiled),
}

/// The subject of a target's tests.
#[derive(Drop)]
pub(crate) struct Entry {
    pub(crate) target: Option<Target>,
    pub(crate) subject: Subject,
}

/// Returns the subject of a target's tests.
fn subject_of(alloc: Global, rules: &Checked, target: Option<Target>) -> Result<Subject, NoMemory>
    requires { IsBound (bodies_of rules.now) target }
    ensures subject { IfOk result (λ s. subject_of (bodies_of rules.now) s
        ≡ subject_for (bodies_of rules.now) target) }
    ensures ready { IfOk result (λ s. ∥ IsReady (subject_of (bodies_of rules.now) s) ∥₁) }
{
    let Some(target) = target else {
        return Ok(Subject::Unbound);
    };
    let goal = checked_goal(alloc, rules, target)?;
    match compile(alloc, rules, &goal) {
        Ok(program) => Ok(Subject::Runs(Compiled { goal, program })),
        Err(fault) => match fault {
            CompileFault::CodeTooLong => Ok(Subject::TooLong),
            CompileFault::NoMemory => Err(AllocError),
        },
    }
}

/// Returns the number of instructions in a subject's code.
fn length_of(subject: &Subject) -> usize {
    match subject {
        Subject::Unbound | Subject::TooLong => 0,
        Subject::Runs(compiled) => compiled.program.code().len(),
    }
}

/// Returns the index in `notes` for a target: 0 if there is no target, and otherwise the rule's
/// number plus one.
fn note_of(target: Option<Target>) -> usize {
    match target {
        None => 0,
        Some(target) => target.rule as usize + 1,
    }
}

/// The subjects of earlier tests, which may be needed again. The code of a rule can be far longer
/// than its tests, so the code is kept for later tests. Since a file can contain many rules, all
/// code is dropped once its total length exceeds the greatest length that the code of one goal may
/// have.
#[derive(Drop)]
pub(crate) struct Subjects {
    pub(crate) entries: Vec<Entry>,
    /// For each target, the index in `entries` at which to look for the target's entry. The entry
    /// at that index may be missing, or may belong to another target.
    notes: Vec<usize>,
    /// The total number of instructions in the entries.
    length: usize,
}

impl Subjects {
    pub(crate) fn new(alloc: Global, rules: &Checked) -> Result<Subjects, NoMemory>
        ensures { IfOk result (λ subjects. subjects.entries.items ≡ []) }
    {
        Ok(Subjects {
            entries: Vec::new(alloc),
            notes: vec![in alloc; 0; rules.rules().len() + 1]?,
            length: 0,
        })
    }

    /// Returns the index of a target's entry, if it has one.
    fn place(&self, target: Option<Target>) -> Option<usize>
        ensures { IfSome result (λ i. StandsAt self.now.entries.items target i) }
    {
        let place = *self.notes.get(note_of(target))?;
        let entry = self.entries.get(place)?;
        if entry.target == target {
            Some(place)
        } else {
            None
        }
    }

    /// Drops all entries if their total length exceeds the limit.
    fn make_room(&mut self)
        ensures { (R : List Core) → AreSound R self.old.entries.items →
            AreSound R self.new.entries.items }
    {
        if self.length > MAX_KEPT {
            self.entries.clear();
            self.length = 0;
        }
    }

    /// Returns the index of a target's entry. Makes the entry if there is none.
    pub(crate) fn place_for(
        &mut self,
        alloc: Global,
        rules: &Checked,
        target: Option<Target>,
    ) -> Result<usize, NoMemory>
        requires target { IsBound (bodies_of rules.now) target }
        requires sound { AreSound (bodies_of rules.now) self.old.entries.items }
        ensures sound { OnOk result (AreSound (bodies_of rules.now) self.new.entries.items) }
        ensures stands { IfOk result (StandsAt self.new.entries.items target) }
    {
        if let Some(place) = self.place(target) {
            return Ok(place);
        }
        self.make_room();
        let place = self.entries.len();
        let subject = subject_of(alloc, rules, target)?;
        self.length = self.length.saturating_add(length_of(&subject));
        self.entries.push(Entry { target, subject })?;
        if let Some(note) = self.notes.get_mut(note_of(target)) {
            *note = place;
        }
        Ok(place)
    }
}

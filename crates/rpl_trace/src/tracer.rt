// The step-by-step evaluation of a goal: the remaining tasks are on a stack, and the events are
// in a list.
ghost use Rattle.std.specs.Prelude.{◌≡◌, ◌+◌, ◌-◌, ◌^◌, ◌<◌, ◌≤◌, ℕ, List, [], slice_get, false};
ghost use Rattle.std.specs.Prelude.{MatchOption, OnOk, IfOk, IfErr};
ghost use Rattle.rpl_core.specs.Core.{Core, Choice, NoMore, Then};
ghost use Rattle.rpl_core.specs.Listed.{rules_of};
ghost use Rattle.rpl_core.specs.Table.{bodies_of};
ghost use Rattle.rpl_core.specs.View.{core_of};
ghost use Rattle.rpl_text.specs.Places.{IsPlace};
ghost use Rattle.rpl_text.specs.Seen.{text_of};
ghost use Rattle.rpl_trace.specs.Evaluations.{Ending, Evaluations, count};
ghost use Rattle.rpl_trace.specs.declared.event.End.TheVariants as E;
ghost use Rattle.rpl_trace.specs.declared.event.Event.TheVariants as V;
ghost use Rattle.rpl_trace.specs.declared.event.Kind.TheVariants as K;
ghost use Rattle.rpl_trace.specs.declared.answer.TraceFault.TheVariants as X;
ghost use Rattle.rpl_trace.specs.declared.task.Task.TheVariants as T;
ghost use Rattle.rpl_trace.specs.inside.Levels.{AreAlike, is_alone};
ghost use Rattle.rpl_trace.specs.inside.Seen.{EndStands};
ghost use Rattle.rpl_trace.specs.inside.Tasks.{TaskStands};
ghost use Rattle.rpl_trace.specs.inside.Steps.{Calls, Chooses, Comes, Done, Enters, Goes, Refused};
ghost use Rattle.rpl_trace.specs.inside.Steps.{Stands};
ghost use Rattle.rpl_trace.specs.inside.Steps.{counted, due, happened, left, state_of};

use crate::answer::TraceFault;
use crate::endings::{if_failed, if_matched, if_met, one_char, only_if};
use crate::event::{End, Event, Kind};
use crate::task::{Lengths, Task};
use rpl_core::{NoMemory, Peg, Rules};
use rpl_text::Text;
use std::alloc::Global;

/// A trace in progress.
#[derive(Drop)]
pub(crate) struct Tracer<'a> {
    /// The number of evaluations so far. This number must not exceed `limit`.
    pub(crate) spent: u32,
    pub(crate) limit: u32,
    pub(crate) events: Vec<Event<'a>>,
    /// The remaining tasks, of which the last is the next to run.
    pub(crate) tasks: Vec<Task<'a>>,
}

/// If the pattern is a choice with only one part, returns that part.
fn only_part(peg: &Peg) -> Option<&Peg>
    ensures { MatchOption result (is_alone (core_of peg.now) ≡ false)
        (λ p. core_of peg.now ≡ Choice (Then (core_of p.now) NoMore)) }
{
    match peg {
        Peg::Choice(parts) => { if parts.len() == 1 { parts.get(0) } else { None } }
        Peg::Set(_) | Peg::Seq(_) | Peg::Many(_) | Peg::Not(_) | Peg::And(_) => None,
        Peg::Behind { .. } | Peg::Call(_) | Peg::Capture(_, _) | Peg::Note(_) => None,
        Peg::Start | Peg::End | Peg::Halt => None,
    }
}

/// Returns `peg` or, if `peg` is a choice with only one part, that part.
fn alone(peg: &Peg) -> &Peg
    ensures alike { AreAlike (core_of peg.now) (core_of result.now) }
    ensures more { is_alone (core_of result.now) ≡ false }
{
    let mut part = peg;
    while let Some(only) = only_part(part) {
        part = only;
    }
    part
}

/// Returns the lengths of a look-behind at a place.
fn lengths_of<'a>(least: u32, most: u32, body: &'a Peg, place: usize) -> Lengths<'a>
    ensures body { result.body ≡ body.entry }
    ensures length { result.length ≡ least }
    ensures count { result.count ≡ most + 1 - least }
    ensures small { result.length + result.count ≤ 2 ^ 32 }
    ensures place { result.place ≡ place }
{
    let length = least as usize;
    let count = (most as usize + 1).saturating_sub(length);
    Lengths {
        body,
        length,
        count,
        place,
    }
}

impl<'a> Tracer<'a> {
    /// Returns a trace without events or tasks.
    pub(crate) fn new(alloc: Global, limit: u32) -> Tracer<'a>
        ensures { state_of result ≡ record { tasks = []; events = []; spent = 0; limit = limit } }
    {
        Tracer {
            spent: 0,
            limit,
            events: Vec::new(alloc),
            tasks: Vec::new(alloc),
        }
    }

    /// Adds a task, to be run next.
    pub(crate) fn push(&mut self, task: Task<'a>) -> Result<(), NoMemory>
        ensures { OnOk result (state_of self.new ≡ due task.entry (state_of self.old)) }
    {
        self.tasks.push(task)?;
        Ok(())
    }

    /// Adds an event.
    fn note(&mut self, event: Event<'a>) -> Result<(), NoMemory>
        ensures { OnOk result (state_of self.new ≡ happened event.entry (state_of self.old)) }
    {
        self.events.push(event)?;
        Ok(())
    }

    /// Counts an evaluation, if the limit allows it.
    fn spend(&mut self) -> Result<(), TraceFault>
        ensures ok { OnOk result (state_of self.new ≡ counted (state_of self.old)) }
        ensures room { OnOk result (self.old.spent < self.old.limit) }
        ensures err { IfErr result (λ x. (x ≡ X.TraceTooLong) × (self.old.limit ≤ self.old.spent)) }
    {
        if self.spent >= self.limit {
            return Err(TraceFault::TraceTooLong);
        }
        self.spent += 1;
        Ok(())
    }

    /// Begins an evaluation.
    fn begin(&mut self, kind: Kind<'a>, start: usize) -> Result<(), TraceFault>
        ensures ok { OnOk result (state_of self.new
            ≡ happened (V.Begins kind.entry start) (counted (state_of self.old))) }
        ensures room { OnOk result (self.old.spent < self.old.limit) }
        ensures err { IfErr result (λ x. x ≡ X.TraceTooLong → self.old.limit ≤ self.old.spent) }
    {
        self.spend()?;
        self.note(Event::Begins { kind, start })?;
        Ok(())
    }

    /// Ends the innermost open evaluation.
    fn close(&mut self, end: End) -> Result<End, NoMemory>
        ensures { IfOk result (λ e. (e ≡ end) ×
            (state_of self.new ≡ happened (V.Ends end) (state_of self.old))) }
    {
        self.note(Event::Ends(end))?;
        Ok(end)
    }

    /// Schedules one task inside the innermost open evaluation. The task is given `end` as the end
    /// of the previous evaluation.
    fn within(&mut self, task: Task<'a>, end: End) -> Result<End, NoMemory>
        ensures { IfOk result (λ e. (e ≡ end)
            × (state_of self.new ≡ due task.entry (due T.Close (state_of self.old)))) }
    {
        self.push(Task::Close)?;
        self.push(task)?;
        Ok(end)
    }

    /// Schedules two things inside the innermost open evaluation: the evaluation of `body` at
    /// `place`, and then `task`.
    fn nest(&mut self, task: Task<'a>, body: &'a Peg, place: usize) -> Result<End, NoMemory>
        ensures { IfOk result (λ e. (e ≡ E.At place)
            × (state_of self.new ≡ due (T.Evaluate body.entry)
            (due task.entry (due T.Close (state_of self.old))))) }
    {
        self.push(Task::Close)?;
        self.push(task)?;
        self.push(Task::Evaluate(body))?;
        Ok(End::At(place))
    }

    /// Schedules a turn of `body` at `place`, and further turns after it.
    fn turn(&mut self, body: &'a Peg, place: usize) -> Result<End, NoMemory>
        ensures { IfOk result (λ e. (e ≡ E.At place)
            × (state_of self.new ≡ due (T.Evaluate body.entry)
            (due (T.Turns body.entry place)
            (happened (V.Begins K.Turn place) (state_of self.old))))) }
    {
        self.note(Event::Begins {
            kind: Kind::Turn,
            start: place,
        })?;
        self.push(Task::Turns { body, place })?;
        self.push(Task::Evaluate(body))?;
        Ok(End::At(place))
    }

    /// Schedules the alternatives of a choice, to be tried at `place`, inside the innermost open
    /// evaluation.
    fn choose(&mut self, parts: &'a [Peg], place: usize) -> Result<End, NoMemory>
        ensures { IfOk result (λ e. Chooses parts.now place (state_of self.old) e
            (state_of self.new)) }
    {
        match parts {
            [] => self.close(End::Fails),
            [first, rest @ ..] => self.nest(Task::Ways { parts: rest, place }, first, place),
        }
    }

    /// Schedules the body of a rule inside the innermost open evaluation.
    fn call(&mut self, rules: &'a Rules, rule: u32, place: usize) -> Result<End, NoMemory>
        ensures { IfOk result (λ e. Calls (slice_get (bodies_of (rules_of rules.now)) rule) place
            (state_of self.old) e (state_of self.new)) }
    {
        match rules.get(rule) {
            Some(rule) => self.within(Task::Evaluate(&rule.body), End::At(place)),
            None => self.close(End::Fails),
        }
    }

    /// Continues the evaluation of `peg` at `place`, which has just begun, up to the first
    /// evaluation inside it.
    fn enter(
        &mut self,
        rules: &'a Rules,
        text: Text<'_>,
        peg: &'a Peg,
        place: usize,
    ) -> Result<End, NoMemory>
        requires place { IsPlace (text_of text) place }
        requires more { is_alone (core_of peg.now) ≡ false }
        requires stands { Stands (text_of text) (state_of self.old) }
        ensures { IfOk result (λ e. Enters (bodies_of (rules_of rules.now)) (text_of text.entry)
            (core_of peg.now) place (state_of self.old) e (state_of self.new)) }
    {
        match peg {
            Peg::Set(set) => self.close(one_char(set, text, place)),
            Peg::Seq(parts) => self.within(Task::Parts(parts.as_slice()), End::At(place)),
            Peg::Choice(parts) => self.choose(parts.as_slice(), place),
            Peg::Many(body) => {
                self.push(Task::Close)?;
                self.turn(body, place)
            }
            Peg::Not(body) => self.nest(Task::Not(place), body, place),
            Peg::And(body) => self.nest(Task::And(place), body, place),
            Peg::Behind { least, most, body } => {
                let lengths = lengths_of(*least, *most, body, place);
                self.within(Task::Lengths(lengths), End::Fails)
            }
            Peg::Call(rule) => self.call(rules, *rule, place),
            Peg::Capture(_, body) => self.within(Task::Evaluate(body), End::At(place)),
            Peg::Note(_) => self.close(End::At(place)),
            Peg::Start => self.close(only_if(place == 0, place)),
            Peg::End => self.close(only_if(place == text.len(), place)),
            Peg::Halt => self.close(End::Halts(place)),
        }
    }

    /// Begins the evaluation of a pattern at a place, and continues up to the first evaluation
    /// inside it.
    fn evaluate(
        &mut self,
        rules: &'a Rules,
        text: Text<'_>,
        peg: &'a Peg,
        place: usize,
    ) -> Result<End, TraceFault>
        requires place { IsPlace (text_of text) place }
        requires stands { Stands (text_of text) (state_of self.old) }
        ensures goes { Goes (bodies_of (rules_of rules.now)) (text_of text.entry)
            (due (T.Evaluate peg.entry) (state_of self.old)) (E.At place) (state_of self.new)
            result }
        ensures less { OnOk result (left (state_of self.new) + 1 ≤ left (state_of self.old)) }
    {
        let peg = alone(peg);
        self.begin(Kind::Of(peg), place)?;
        Ok(self.enter(rules, text, peg, place)?)
    }

    /// Evaluates parts one after the other, starting at a place.
    fn go_on(
        &mut self,
        rules: &'a Rules,
        text: Text<'_>,
        parts: &'a [Peg],
        place: usize,
    ) -> Result<End, TraceFault>
        requires place { IsPlace (text_of text) place }
        requires stands { Stands (text_of text) (state_of self.old) }
        ensures goes { Goes (bodies_of (rules_of rules.now)) (text_of text.entry)
            (due (T.Parts parts.entry) (state_of self.old)) (E.At place) (state_of self.new)
            result }
        ensures less { OnOk result (left (state_of self.new) ≤ left (state_of self.old)) }
    {
        match parts {
            [] => Ok(End::At(place)),
            [first, rest @ ..] => {
                self.push(Task::Parts(rest))?;
                self.evaluate(rules, text, first, place)
            }
        }
    }

    /// Tries the remaining alternatives of a choice at a place.
    fn try_next(
        &mut self,
        rules: &'a Rules,
        text: Text<'_>,
        ways: &'a [Peg],
        place: usize,
    ) -> Result<End, TraceFault>
        requires place { IsPlace (text_of text) place }
        requires stands { Stands (text_of text) (state_of self.old) }
        ensures goes { Goes (bodies_of (rules_of rules.now)) (text_of text.entry)
            (due (T.Ways ways.entry place) (state_of self.old)) E.Fails (state_of self.new) result }
        ensures less { OnOk result (left (state_of self.new) ≤ left (state_of self.old)) }
    {
        if ways.len() == 1 {
            return self.evaluate(rules, text, &ways[0], place);
        }
        self.begin(Kind::Choice, place)?;
        Ok(self.choose(ways, place)?)
    }

    /// Ends the turn that began at `place`. If the turn's body matched, counts the turn and begins
    /// the next one; otherwise removes the turn.
    fn end_turn(&mut self, body: &'a Peg, place: usize, end: End) -> Result<End, TraceFault>
        ensures goes { (R : List Core) (t : List ℕ) → IsPlace t place → EndStands t end →
            Stands t (state_of self.old)
            → Goes R t (due (T.Turns body.entry place) (state_of self.old)) end (state_of self.new)
            result }
        ensures less { OnOk result (left (state_of self.new) ≤ left (state_of self.old)) }
    {
        match end {
            End::At(next) => {
                self.spend()?;
                self.note(Event::Ends(end))?;
                Ok(self.turn(body, next)?)
            }
            End::Fails => {
                self.note(Event::Vanishes)?;
                Ok(End::At(place))
            }
            End::Halts(_) => {
                self.note(Event::Vanishes)?;
                Ok(end)
            }
        }
    }

    /// Tries the remaining lengths of a look-behind.
    fn try_length(&mut self, text: Text<'_>, lengths: Lengths<'a>) -> Result<End, TraceFault>
        requires lengths { TaskStands (text_of text) (T.Lengths lengths) }
        requires stands { Stands (text_of text) (state_of self.old) }
        ensures goes { (R : List Core) → Goes R (text_of text.entry)
            (due (T.Lengths lengths.entry) (state_of self.old)) E.Fails (state_of self.new) result }
        ensures less { OnOk result (left (state_of self.new) ≤ left (state_of self.old)) }
    {
        if lengths.count == 0 {
            return Ok(End::Fails);
        }
        let Lengths {
            body,
            length,
            count,
            place,
        } = lengths;
        self.begin(Kind::Length(length), place)?;
        self.push(Task::Lengths(Lengths {
            body,
            length: length + 1,
            count: count - 1,
            place,
        }))?;
        match text.back(place, length as u32) {
            Some(start) => Ok(self.nest(Task::Meets(place), body, start)?),
            None => Ok(self.close(End::Fails)?),
        }
    }

    /// Runs one task, given the end of the previous evaluation.
    fn step(
        &mut self,
        rules: &'a Rules,
        text: Text<'_>,
        task: Task<'a>,
        end: End,
    ) -> Result<End, TraceFault>
        requires task { TaskStands (text_of text) task }
        requires end { EndStands (text_of text) end }
        requires stands { Stands (text_of text) (state_of self.old) }
        ensures goes { Goes (bodies_of (rules_of rules.now)) (text_of text.entry)
            (due task.entry (state_of self.old)) end (state_of self.new) result }
        ensures less { OnOk result (left (state_of self.new) ≤ left (state_of self.old)) }
    {
        match task {
            Task::Evaluate(peg) => match end {
                End::At(place) => self.evaluate(rules, text, peg, place),
                End::Fails => Ok(end),
                End::Halts(_) => Ok(end),
            },
            Task::Parts(parts) => match end {
                End::At(place) => self.go_on(rules, text, parts, place),
                End::Fails => Ok(end),
                End::Halts(_) => Ok(end),
            },
            Task::Ways { parts, place } => match end {
                End::Fails => self.try_next(rules, text, parts, place),
                End::At(_) => Ok(end),
                End::Halts(_) => Ok(end),
            },
            Task::Lengths(lengths) => match end {
                End::Fails => self.try_length(text, lengths),
                End::At(_) => Ok(end),
                End::Halts(_) => Ok(end),
            },
            Task::Turns { body, place } => self.end_turn(body, place, end),
            Task::Not(place) => Ok(if_failed(end, place)),
            Task::And(place) => Ok(if_matched(end, place)),
            Task::Meets(place) => Ok(if_met(end, place)),
            Task::Close => Ok(self.close(end)?),
        }
    }

    /// Runs all tasks, and returns the end of the last evaluation.
    pub(crate) fn finish(
        &mut self,
        rules: &'a Rules,
        text: Text<'_>,
        start: End,
    ) -> Result<End, TraceFault>
        requires start { EndStands (text_of text) start }
        requires stands { Stands (text_of text) (state_of self.old) }
        ensures done { (o : Ending) (f : Evaluations)
            → Comes (bodies_of (rules_of rules.now)) (text_of text.entry) o f (state_of self.old)
            start
            → IfOk result (λ e. Done (text_of text.entry) o f (state_of self.new) e) }
        ensures stands { IfOk result (λ e. Stands (text_of text.entry) (state_of self.new)
            × EndStands (text_of text.entry) e) }
        ensures limit { OnOk result (self.new.limit ≡ self.old.limit) }
        ensures refused { IfErr result (λ x. Refused (bodies_of (rules_of rules.now))
            (text_of text.entry)
            (state_of self.old) start x) }
    {
        let mut end = start;
        while let Some(task) = self.tasks.pop() {
            end = self.step(rules, text, task, end)?;
        }
        Ok(end)
    }
}

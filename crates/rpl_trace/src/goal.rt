// The trace of a checked goal.
ghost use Rattle.std.specs.Prelude.{◌≡◌, ◌≢◌, ◌<◌, ◌≤◌, ℕ, List, IfOk, IfErr, OnOk};
ghost use Rattle.std.specs.Str.{encode_utf8_all};
ghost use Rattle.rpl_core.specs.Meaning.{Open};
ghost use Rattle.rpl_core.specs.Outcome.{outcome, work_of};
ghost use Rattle.rpl_core.specs.Table.{bodies_of, names_of};
ghost use Rattle.rpl_core.specs.View.{core_of};
ghost use Rattle.rpl_check.specs.Goal.{peg_of};
ghost use Rattle.rpl_text.specs.Seen.{text_of};
ghost use Rattle.rpl_trace.specs.Evaluations as S;
ghost use Rattle.rpl_trace.specs.Left.{left_of};
ghost use Rattle.rpl_trace.specs.Printed as P;
ghost use Rattle.rpl_trace.specs.Traces.{place_behind};
ghost use Rattle.rpl_trace.specs.declared.answer.TraceFault.TheVariants as X;

use crate::answer::{Trace, TraceFault, Traced};
use crate::endings::place_of;
use crate::event::End;
use crate::lines::lines;
use crate::task::Task;
use crate::text::TraceText;
use crate::tracer::Tracer;
use rpl_check::{Checked, CheckedPeg};
use rpl_text::{Chars, Text};
use std::alloc::Global;

/// Evaluates a checked goal on a text, and returns the trace, whose text has one line per
/// evaluation. The lines aren't printed yet.
///
/// The trace is refused exactly when the outcome takes more work than `limit`; at most `limit`
/// evaluations take place. Each evaluation takes time and memory, but no additional stack space.
/// The goal must have a meaning on every text, which holds for every goal that `check_pattern`
/// accepts.
pub fn begin_trace<'a>(
    alloc: Global,
    checked: &'a Checked,
    goal: &'a CheckedPeg,
    text: Text<'_>,
    limit: u32,
) -> Result<Traced<'a>, TraceFault>
    requires { (t : List ℕ) → outcome (bodies_of checked.now) (core_of (peg_of goal.now)) t ≢ Open }
    ensures printed { let R = bodies_of checked.now in let g = core_of (peg_of goal.now) in
        let t = text_of text.entry in
        IfOk result (λ x. left_of x.text
        ≡ P.printed (names_of checked.now) t 0 (S.trace R g t)) }
    ensures end { let R = bodies_of checked.now in let g = core_of (peg_of goal.now) in
        let t = text_of text.entry in IfOk result (λ x. x.end ≡ place_behind t (outcome R g t)) }
    ensures within { let R = bodies_of checked.now in let g = core_of (peg_of goal.now) in
        let t = text_of text.entry in OnOk result (work_of (outcome R g t) ≤ limit) }
    ensures refused { let R = bodies_of checked.now in let g = core_of (peg_of goal.now) in
        let t = text_of text.entry in
        IfErr result (λ e. e ≡ X.TraceTooLong → limit < work_of (outcome R g t)) }
{
    let rules = checked.rules();
    let mut tracer = Tracer::new(alloc, limit);
    tracer.push(Task::Evaluate(goal.peg()))?;
    let end = tracer.finish(rules, text, End::At(0))?;
    let lines = lines(alloc, tracer.events)?;
    Ok(Traced {
        text: TraceText::new(rules, lines),
        end: place_of(end),
    })
}

/// Returns the trace of a checked goal on a text: its evaluations, printed one per line.
///
/// The trace is refused exactly when the outcome takes more work than `limit`; at most `limit`
/// evaluations take place. Each evaluation and each printed line takes time and memory, but no
/// additional stack space. To print a trace without holding all of its text in memory, use
/// [`begin_trace`]. The goal must have a meaning on every text, which holds for every goal that
/// `check_pattern` accepts.
pub fn trace(
    alloc: Global,
    checked: &Checked,
    goal: &CheckedPeg,
    text: Text<'_>,
    limit: u32,
) -> Result<Trace, TraceFault>
    requires { (t : List ℕ) → outcome (bodies_of checked.now) (core_of (peg_of goal.now)) t ≢ Open }
    ensures printed { let R = bodies_of checked.now in let g = core_of (peg_of goal.now) in
        let t = text_of text.entry in
        IfOk result (λ x. encode_utf8_all x.printed
        ≡ P.printed (names_of checked.now) t 0 (S.trace R g t)) }
    ensures end { let R = bodies_of checked.now in let g = core_of (peg_of goal.now) in
        let t = text_of text.entry in IfOk result (λ x. x.end ≡ place_behind t (outcome R g t)) }
    ensures within { let R = bodies_of checked.now in let g = core_of (peg_of goal.now) in
        let t = text_of text.entry in OnOk result (work_of (outcome R g t) ≤ limit) }
    ensures refused { let R = bodies_of checked.now in let g = core_of (peg_of goal.now) in
        let t = text_of text.entry in
        IfErr result (λ e. e ≡ X.TraceTooLong → limit < work_of (outcome R g t)) }
{
    let Traced { text, end } = begin_trace(alloc, checked, goal, text, limit)?;
    let bytes = text.whole(alloc)?;
    Ok(Trace {
        printed: Chars::from_str(alloc, &bytes)?,
        end,
    })
}

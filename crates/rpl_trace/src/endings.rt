// The ends of evaluations with no evaluations inside them, and the ends of predicates, given the
// ends of their bodies.
ghost use Rattle.std.specs.Prelude.{◌≡◌, ℕ, List, slice_get};
ghost use Rattle.rpl_core.specs.Meaning as M;
ghost use Rattle.rpl_text.specs.Places.{index, IsPlace};
ghost use Rattle.rpl_text.specs.Seen.{text_of};
ghost use Rattle.rpl_trace.specs.Evaluations.{ending};
ghost use Rattle.rpl_trace.specs.Traces.{ending_place};
ghost use Rattle.rpl_trace.specs.inside.Seen.{end_seen, EndStands};
ghost use Rattle.rpl_trace.specs.inside.Tasks as S;

use crate::event::End;
use rpl_classes::Set;
use rpl_text::Text;

/// Matches the character at `place`, if that character is in `set`.
pub(crate) fn one_char(set: &Set, text: Text<'_>, place: usize) -> End
    requires { IsPlace (text_of text) place }
    ensures end { let t = text_of text.entry in let i = index t place in
        end_seen t result ≡ ending (M.one_char (slice_get t i) set.now i) }
    ensures stands { EndStands (text_of text.entry) result }
{
    match text.step(place) {
        Some((c, next)) => {
            if set.has(c) {
                End::At(next)
            } else {
                End::Fails
            }
        }
        None => End::Fails,
    }
}

/// Matches the empty text at `place`, if `holds` is true.
pub(crate) fn only_if(holds: bool, place: usize) -> End
    ensures end { (t : List ℕ) → end_seen t result ≡ ending (M.only_if holds (index t place)) }
    ensures stands { (t : List ℕ) → IsPlace t place → EndStands t result }
{
    if holds { End::At(place) } else { End::Fails }
}

/// Returns the end of a `Not` at `place`, given `end`, the end of its body.
pub(crate) fn if_failed(end: End, place: usize) -> End
    ensures end { (t : List ℕ) → end_seen t result ≡ S.if_failed (end_seen t end) (index t place) }
    ensures stands { (t : List ℕ) → IsPlace t place → EndStands t result }
{
    match end {
        End::Fails => End::At(place),
        End::At(_) => End::Fails,
        End::Halts(_) => End::Fails,
    }
}

/// Returns the end of an `And` at `place`, given `end`, the end of its body.
pub(crate) fn if_matched(end: End, place: usize) -> End
    ensures end { (t : List ℕ) → end_seen t result ≡ S.if_matched (end_seen t end) (index t place) }
    ensures stands { (t : List ℕ) → IsPlace t place → EndStands t result }
{
    match end {
        End::Fails => End::Fails,
        End::At(_) => End::At(place),
        End::Halts(_) => End::Fails,
    }
}

/// Returns the end of an evaluation that tries one length of a look-behind at `place`, given `end`,
/// the end of the look-behind's body.
pub(crate) fn if_met(end: End, place: usize) -> End
    ensures end { (t : List ℕ) → IsPlace t place → EndStands t end
        → end_seen t result ≡ S.if_met (end_seen t end) (index t place) }
    ensures stands { (t : List ℕ) → IsPlace t place → EndStands t result }
{
    match end {
        End::Fails => End::Fails,
        End::At(met) => only_if(met == place, place),
        End::Halts(_) => End::Fails,
    }
}

/// Returns the byte offset where a match ends, or `None` if there is no match.
pub(crate) fn place_of(end: End) -> Option<usize>
    ensures { (t : List ℕ) → EndStands t end → result ≡ ending_place t (end_seen t end) }
{
    match end {
        End::Fails => None,
        End::At(place) => Some(place),
        End::Halts(place) => Some(place),
    }
}

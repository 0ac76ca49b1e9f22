//! The simulation theorem: the code of a goal, run by the machine, does what the goal means.
//!
//! This crate is for readers and authors of the definitions of `rpl_core`, and for the contracts of
//! the compiler and of `rosie_cli`, which rest on this theorem. The crate contains no code: each
//! function has no parameters and an empty body, and its contract is a law about the definitions
//! alone, stated in `specs/Laws.antt`.
#![tactic(auto)]

ghost use Rattle.rpl_compile_laws.specs.Laws.{SimulationLaw, AnswerLaw, NoHaltLaw, OneTreeLaw};
ghost use Rattle.rpl_compile_laws.specs.Laws.{TerminationLaw};

/// On each text, the code of a goal does what the goal means, under two premises: no predicate in
/// the goal, or in a rule that the goal reaches, can halt; and the meaning isn't open, which means
/// that the depth of its evaluation suffices. The code matches up to the same place as the meaning,
/// with exactly the same trees, or fails if the meaning fails. If `w` is the work of the meaning,
/// the code takes at most `4 * w + 2` steps; if it is allowed fewer steps than it needs, the run is
/// unfinished.
pub fn simulation_law()
    ensures { SimulationLaw }
{}

/// States, under the premises of [`simulation_law`], what each answer of the machine implies. If
/// the machine matches, the meaning matches up to the same place with exactly the same captures. If
/// the machine fails, the meaning fails. If the run is unfinished, its step limit is below
/// `4 * w + 2`, where `w` is the work of the meaning.
pub fn answer_law()
    ensures { AnswerLaw }
{}

/// If neither the goal nor any rule contains a halt, no predicate's body can halt.
pub fn no_halt_law()
    ensures { NoHaltLaw }
{}

/// If a goal is a capture, or a call of a rule whose body is a capture, each of its matches has
/// exactly one tree. The tree has the capture's label and extends from the first place to the place
/// after the match.
pub fn one_tree_law()
    ensures { OneTreeLaw }
{}

/// The meaning of a goal isn't open on any text if the table and the goal ensure that evaluations
/// end: no repeated body can match the empty text; no rule calls itself, directly or through other
/// rules, before it has taken a character; each call names a rule of the table; and the body of a
/// look-behind contains no call and no repetition.
pub fn termination_law()
    ensures { TerminationLaw }
{}

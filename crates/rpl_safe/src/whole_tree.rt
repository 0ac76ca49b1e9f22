// The last check: the first frame consists of one tree, or calls a frame that consists of one tree.
ghost use Rattle.std.specs.Prelude.{◌≡◌, ℕ, ◌<◌, ◌≤◌, List, length, map, option_map, slice_get};
ghost use Rattle.regex_class.specs.Ranges.{Range};
ghost use Rattle.rpl_core.specs.Numbers.{instr_of};
ghost use Rattle.rpl_core.specs.Program.{code_of, instructions};
ghost use Rattle.rpl_safe.specs.inside.Marks.{AllPass, Answers, Complete, avoids, call_in};
ghost use Rattle.rpl_safe.specs.inside.Marks.{called_by, ends};
ghost use Rattle.rpl_safe.specs.inside.Marks.{finishes_in, given_of, head_of, inside_test, is_call};
ghost use Rattle.rpl_safe.specs.inside.Marks.{is_finish, is_open};
ghost use Rattle.rpl_safe.specs.inside.Marks.{marks_at, opens_in, tree_test};

use crate::marks::{Mark, Next, mark_at};
use crate::steps::goes_on;
use rpl_core::{Instr, Program};

/// Returns whether the instruction ends the frame.
fn ends(frame: u32, instr: Instr) -> bool
    ensures { (sets : List (List Range)) (texts : List (List ℕ))
        → result ≡ ends frame (instr_of sets texts instr) }
{
    match instr {
        Instr::Finish => frame == 0,
        Instr::Return => frame != 0,
        _ => false,
    }
}

/// Returns whether the instruction begins a tree.
fn is_open(instr: Instr) -> bool
    ensures { (sets : List (List Range)) (texts : List (List ℕ))
        → result ≡ is_open (instr_of sets texts instr) }
{
    matches!(instr, Instr::Open(_))
}

/// Returns whether the instruction ends the run with a match.
fn is_finish(instr: Instr) -> bool
    ensures { (sets : List (List Range)) (texts : List (List ℕ))
        → result ≡ is_finish (instr_of sets texts instr) }
{
    matches!(instr, Instr::Finish)
}

/// Returns whether the instruction calls the address `called`.
fn is_call(called: u32, instr: Instr) -> bool
    ensures { (sets : List (List Range)) (texts : List (List ℕ))
        → result ≡ is_call called (instr_of sets texts instr) }
{
    match instr {
        Instr::Call(to) => to == called,
        _ => false,
    }
}

/// Returns whether at least one of these is true: the address is outside the frame `frame`, a tree
/// is open at the address, or the frame begins or ends there.
fn is_inside(frame: u32, instr: Instr, address: u32, mark: Mark) -> bool
    ensures { (sets : List (List Range)) (texts : List (List ℕ))
        → result ≡ inside_test frame (instr_of sets texts instr) address mark }
{
    mark.frame != frame || (mark.trees != 0 || (address == frame || ends(frame, instr)))
}

/// Returns whether the run continues only at addresses other than `called`.
fn avoids(called: u32, next: Next) -> bool
    ensures { result ≡ avoids called (given_of next) }
{
    match next {
        Next::Lacks | Next::Nowhere => true,
        Next::To(address, _) => address != called,
        Next::ToBoth(address, _, other, _) => address != called && other != called,
    }
}

/// Returns whether the address meets the conditions for one tree: the tree's frame contains nothing
/// but the tree, the frame that calls the tree's frame contains only the call and the end, and no
/// other path leads to the tree's first address.
fn passes(
    marks: &[Option<Mark>],
    called: Option<u32>,
    instr: Instr,
    address: u32,
    mark: Mark,
) -> bool
    requires low { address < 1048576 }
    requires trees { mark.trees < 1048576 }
    ensures { (sets : List (List Range)) (texts : List (List ℕ))
        → result ≡ tree_test (marks_at marks.now) called (instr_of sets texts instr) address mark }
{
    match called {
        None => is_inside(0, instr, address, mark),
        Some(called) => {
            let alone = mark.frame != 0 || address <= 1;
            let inside = is_inside(called, instr, address, mark);
            let next = goes_on(marks, instr, address, mark);
            alone && (inside && (is_call(called, instr) || avoids(called, next)))
        }
    }
}

/// Returns the instruction at `address`, if there is one.
fn instr_at(code: &[Instr], address: u32) -> Option<Instr>
    ensures { (sets : List (List Range)) (texts : List (List ℕ))
        → option_map (instr_of sets texts) result ≡ slice_get (map (instr_of sets texts) code.now)
        address }
{
    match code.get(address as usize) {
        Some(instr) => Some(*instr),
        None => None,
    }
}

/// Returns whether each marked address meets the conditions for one tree.
pub(crate) fn all_pass(program: &Program, marks: &[Option<Mark>], called: Option<u32>) -> bool
    requires limit { length (code_of program.now) ≤ 1048576 }
    requires marks { Complete (instructions program.now) marks.now }
    ensures { Answers result (AllPass (marks_at marks.now) called (instructions program.now)) }
{
    let code = program.code();
    for address in 0..code.len() {
        if let Some(mark) = mark_at(marks, address as u32) {
            if let Some(instr) = instr_at(code, address as u32) {
                if !passes(marks, called, instr, address as u32, mark) {
                    return false;
                }
            }
        }
    }
    true
}

/// Returns whether a tree begins at the address.
fn opens_at(code: &[Instr], address: u32) -> bool
    ensures { (sets : List (List Range)) (texts : List (List ℕ))
        → result ≡ opens_in (map (instr_of sets texts) code.now) address }
{
    match instr_at(code, address) {
        Some(instr) => is_open(instr),
        None => false,
    }
}

/// Returns whether the run ends at the address.
fn finishes_at(code: &[Instr], address: u32) -> bool
    ensures { (sets : List (List Range)) (texts : List (List ℕ))
        → result ≡ finishes_in (map (instr_of sets texts) code.now) address }
{
    match instr_at(code, address) {
        Some(instr) => is_finish(instr),
        None => false,
    }
}

/// Returns the address that the first instruction calls, if any.
fn first_call(code: &[Instr]) -> Option<u32>
    ensures { (sets : List (List Range)) (texts : List (List ℕ))
        → result ≡ call_in (map (instr_of sets texts) code.now) }
{
    match instr_at(code, 0) {
        Some(instr) => called_by(instr),
        None => None,
    }
}

/// Returns the address that the instruction calls, if any.
fn called_by(instr: Instr) -> Option<u32>
    ensures { (sets : List (List Range)) (texts : List (List ℕ))
        → result ≡ called_by (instr_of sets texts instr) }
{
    match instr {
        Instr::Call(to) => Some(to),
        _ => None,
    }
}

/// Returns what the first frame does: `Some(None)` if it begins a tree, `Some` with the address if
/// it calls a frame that begins a tree, and `None` if it does neither.
pub(crate) fn head(program: &Program) -> Option<Option<u32>>
    ensures { result ≡ head_of (instructions program.now) }
{
    let code = program.code();
    if opens_at(code, 0) {
        return Some(None);
    }
    match first_call(code) {
        None => None,
        Some(called) => {
            if finishes_at(code, 1) && opens_at(code, called) {
                Some(Some(called))
            } else {
                None
            }
        }
    }
}

// The changes that each instruction makes to the shape of the stack.
ghost use Rattle.std.specs.Prelude.{◌≡◌, ℕ, ◌<◌, ◌&&◌, nat_eq, List, [], ◌∷◌, Some};
ghost use Rattle.regex_class.specs.Ranges.{Range};
ghost use Rattle.rpl_core.specs.Numbers.{instr_of};
ghost use Rattle.rpl_safe.specs.Safe.{one_less, only};
ghost use Rattle.rpl_safe.specs.inside.Marks.{given_of, is_done_mark, last_of, marks_at, next_mark};
ghost use Rattle.rpl_safe.specs.inside.Marks.{to, with_last};

use crate::marks::{Mark, Next, last_mark};
use rpl_core::Instr;

/// Continues at `target` without the last entry. Returns `Lacks` if there is no entry.
fn commit(marks: &[Option<Mark>], target: u32, mark: Mark) -> Next
    ensures { given_of result
        ≡ with_last (last_of (marks_at marks.now) mark.last)
        (λ k. to target (record mark { last = k.last })) }
{
    match last_mark(marks, mark.last) {
        Some(entry) => Next::To(target, mark.with_last(entry.last)),
        None => Next::Lacks,
    }
}

/// If as many trees are open as when the last entry was pushed, continues at `target` with that
/// entry; otherwise returns `Lacks`.
fn commit_partly(marks: &[Option<Mark>], target: u32, mark: Mark) -> Next
    ensures { given_of result
        ≡ with_last (last_of (marks_at marks.now) mark.last)
        (λ k. only (nat_eq k.trees mark.trees) ((target, mark) ∷ [])) }
{
    match last_mark(marks, mark.last) {
        Some(entry) => {
            if entry.trees == mark.trees {
                Next::To(target, mark)
            } else {
                Next::Lacks
            }
        }
        None => Next::Lacks,
    }
}

/// Continues at `target` with the stack as it was when the last entry was pushed. Returns `Lacks`
/// if there is no entry.
fn commit_back(marks: &[Option<Mark>], target: u32, mark: Mark) -> Next
    ensures { given_of result
        ≡ with_last (last_of (marks_at marks.now) mark.last)
        (λ k. to target (record k { frame = mark.frame })) }
{
    match last_mark(marks, mark.last) {
        Some(entry) => Next::To(
            target,
            Mark {
                frame: mark.frame,
                ..entry
            },
        ),
        None => Next::Lacks,
    }
}

/// Returns `Nowhere` if there is a last entry to pop before failing, and `Lacks` otherwise.
fn fail_over(marks: &[Option<Mark>], mark: Mark) -> Next
    ensures { given_of result ≡ with_last (last_of (marks_at marks.now) mark.last) (λ k. Some []) }
{
    match last_mark(marks, mark.last) {
        Some(_) => Next::Nowhere,
        None => Next::Lacks,
    }
}

/// Returns `Nowhere` if `is_right` is true and the frame has no entry and no open tree left, and
/// `Lacks` otherwise.
fn end_frame(is_right: bool, mark: Mark) -> Next
    ensures { given_of result ≡ only (is_right && is_done_mark mark) [] }
{
    if is_right && mark.is_done() {
        Next::Nowhere
    } else {
        Next::Lacks
    }
}

/// Continues at `behind` with one fewer open tree, or returns `Lacks` if no tree is open.
fn close(behind: u32, mark: Mark) -> Next
    ensures { given_of result ≡ one_less mark.trees (λ c. to behind (record mark { trees = c })) }
{
    if mark.trees == 0 {
        return Next::Lacks;
    }
    Next::To(behind, mark.with_trees(mark.trees - 1))
}

/// Returns where a run continues after `instr`, the instruction at `address`, given the mark of
/// that address.
pub(crate) fn goes_on(marks: &[Option<Mark>], instr: Instr, address: u32, mark: Mark) -> Next
    requires low { address < 1048576 }
    requires trees { mark.trees < 1048576 }
    ensures { (sets : List (List Range)) (texts : List (List ℕ))
        → given_of result ≡ next_mark (marks_at marks.now) (instr_of sets texts instr) address
        mark }
{
    let behind = address + 1;
    match instr {
        Instr::Set(_)
        | Instr::Start
        | Instr::End
        | Instr::Back(_)
        | Instr::Note(_)
        | Instr::Span(_) => { Next::To(behind, mark) }
        Instr::TestSet(to, _) => Next::ToBoth(behind, mark, to, mark),
        Instr::Choice(to) => Next::ToBoth(behind, mark.with_last(Some(to)), to, mark),
        Instr::Commit(to) => commit(marks, to, mark),
        Instr::PartialCommit(to) => commit_partly(marks, to, mark),
        Instr::BackCommit(to) | Instr::Meet(to) => commit_back(marks, to, mark),
        Instr::FailTwice => fail_over(marks, mark),
        Instr::Fail | Instr::Halt => Next::Nowhere,
        Instr::Call(to) => {
            if to == 0 {
                return Next::Lacks;
            }
            Next::ToBoth(to, Mark::fresh(to), behind, mark)
        }
        Instr::Return => end_frame(mark.frame != 0, mark),
        Instr::Open(_) => Next::To(behind, mark.with_trees(mark.trees + 1)),
        Instr::Close => close(behind, mark),
        Instr::Finish => end_frame(mark.frame == 0, mark),
    }
}

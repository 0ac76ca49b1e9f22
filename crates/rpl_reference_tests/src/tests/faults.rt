// The faults of generated tables and patterns.
use crate::tests::endings::{Judged, judge};
use crate::tests::made::{Made, generator, make_wild};
use crate::tests::plain_check::{Verdict, verdict_on};
use rpl_check::CheckFault;
use std::alloc::{AllocError, Global};
use std::test::Fail;

/// Returns the verdict that names this fault.
fn told(fault: &CheckFault) -> Verdict {
    match fault {
        CheckFault::NoMemory => Verdict::NoCode,
        CheckFault::LookBehind { rule, cause } => Verdict::Behind(*rule, *cause),
        CheckFault::LeftRecursion { rules } => {
            let mut marks = [false; 3];
            for rule in rules {
                if *rule < 3 {
                    marks[*rule as usize] = true;
                }
            }
            Verdict::Left(marks)
        }
        CheckFault::EmptyLoop { rule } => Verdict::Loop(*rule),
        CheckFault::HaltInside { rule } => Verdict::Halt(*rule),
    }
}

/// Returns the verdict of both checks on a generated goal and its rules, or `None` if the two
/// verdicts differ.
fn agreed(alloc: Global, made: Made) -> Result<Option<Verdict>, AllocError> {
    let due = verdict_on(alloc, &made.rules, &made.goal)?;
    let found = match judge(alloc, made.rules, made.goal) {
        Judged::Code(_) => Verdict::Fine,
        Judged::Unordered => Verdict::Unordered,
        Judged::Fault(fault) => told(&fault),
        Judged::NoCode => Verdict::NoCode,
    };
    Ok(if found == due { Some(due) } else { None })
}

/// The number of verdicts of each kind.
#[derive(Drop)]
struct Verdicts {
    behind: u32,
    left: u32,
    empty_loop: u32,
    halt: u32,
    order: u32,
    fine: u32,
}

impl Verdicts {
    fn add(&mut self, verdict: Verdict) {
        let count = match verdict {
            Verdict::Behind(..) => &mut self.behind,
            Verdict::Left(_) => &mut self.left,
            Verdict::Loop(_) => &mut self.empty_loop,
            Verdict::Halt(_) => &mut self.halt,
            Verdict::Fine => &mut self.fine,
            Verdict::Unordered | Verdict::NoCode => &mut self.order,
        };
        *count = count.saturating_add(1);
    }
}

/// On four thousand generated tables and patterns, the check gives the same verdict as the plain
/// check, which tries all sets of rules.
#[test]
fn faults_are_those_of_the_plain_check(rt: HostRuntime) -> Result<(), Fail> {
    let mut random = generator();
    let mut verdicts = Verdicts {
        behind: 0,
        left: 0,
        empty_loop: 0,
        halt: 0,
        order: 0,
        fine: 0,
    };
    for number in 0..4_000 {
        let made = make_wild(rt.alloc(), &mut random)?;
        match agreed(rt.alloc(), made)? {
            Some(verdict) => verdicts.add(verdict),
            None => assert!(rt; false, "{number}"),
        }
    }
    assert!(rt; verdicts.order > 300 && verdicts.fine > 300);
    assert!(rt; verdicts.behind > 100 && verdicts.left > 100);
    assert!(rt; verdicts.empty_loop > 100 && verdicts.halt > 100);
    Ok(())
}

// Two thousand generated patterns and texts. Each is evaluated in three ways: according to the
// meaning of the pattern, by the plain machine, and by the machine.
use crate::tests::endings::{Judged, is_learned, judge, meant, plain, real};
use crate::tests::made::{Made, generator, make};
use rpl_machine::Scratch;
use std::alloc::{AllocError, Global};
use std::test::Fail;

const COUNT: u32 = 2_000;

/// Returns the ending according to the goal's meaning, if both machines reach it in the same number
/// of steps and that number is at most four times the work plus two. The real machine must also
/// reach that ending in that number of steps when its runs share what they learn about the
/// program's searches. If any of these conditions is violated, returns an empty text.
fn agreed(alloc: Global, made: Made, scratch: &mut Scratch) -> Result<String, AllocError> {
    let Made { rules, goal, text } = made;
    let meant = meant(alloc, &rules, &goal, text.as_str())?;
    let Judged::Code(program) = judge(alloc, rules, goal) else {
        return Ok(String::new(alloc));
    };
    let plain = plain(alloc, &program, text.as_str())?;
    let real = real(alloc, &program, text.as_str(), scratch)?;
    if !is_learned(alloc, &program, text.as_str(), scratch, &plain)? {
        return Ok(String::new(alloc));
    }
    if plain.shown.as_str() == meant.shown.as_str()
        && real.shown.as_str() == meant.shown.as_str()
        && real.cost == plain.cost
        && real.cost.saturating_sub(2).div_ceil(4) <= meant.cost
    {
        return Ok(real.shown);
    }
    Ok(String::new(alloc))
}

/// The number of endings of each kind, in all and on long texts.
#[derive(Drop)]
struct Endings {
    failed: u32,
    matched: u32,
    captured: u32,
    long_failed: u32,
    long_matched: u32,
}

impl Endings {
    fn add_long(&mut self, shown: &str) {
        let count = match shown {
            "fail" => &mut self.long_failed,
            _ => &mut self.long_matched,
        };
        *count = count.saturating_add(1);
    }

    fn add(&mut self, shown: &str) {
        let count = match shown {
            "fail" => &mut self.failed,
            _ => &mut self.matched,
        };
        *count = count.saturating_add(1);
        if shown.contains('<') {
            self.captured = self.captured.saturating_add(1);
        }
    }
}

/// Both machines reach the ending that the goal's meaning defines.
#[test]
fn machines_answer_what_is_meant(rt: HostRuntime) -> Result<(), Fail> {
    let mut scratch = Scratch::new(rt.alloc());
    let mut random = generator();
    let mut endings = Endings {
        failed: 0,
        matched: 0,
        captured: 0,
        long_failed: 0,
        long_matched: 0,
    };
    for number in 0..COUNT {
        let made = make(rt.alloc(), &mut random)?;
        let is_long = made.text.len() >= 40;
        let shown = agreed(rt.alloc(), made, &mut scratch)?;
        assert!(rt; !shown.is_empty(), "{number}");
        endings.add(shown.as_str());
        if is_long {
            endings.add_long(shown.as_str());
        }
    }
    assert!(rt; endings.failed > 300 && endings.matched > 300 && endings.captured > 100);
    assert!(rt; endings.long_failed > 50 && endings.long_matched > 50);
    Ok(())
}

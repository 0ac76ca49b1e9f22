// The output for a test.
ghost use Rattle.std.specs.Prelude.{◌≡◌, IfOk, string_bytes};
ghost use Rattle.rosie_suites.specs.Trials as T;

use crate::verdict::Verdict;
use rosie_run::{Mark, NoMemory, line_fault};
use rpl_unittest::{Test, failed_line};
use std::alloc::Global;

/// Returns the text for `out` that reports a test.
pub(crate) fn out_text(
    alloc: Global,
    file: &str,
    test: &Test,
    verdict: Verdict,
) -> Result<String, NoMemory>
    ensures { IfOk result (λ text. string_bytes text ≡ T.out_text file.now test.now verdict) }
{
    match verdict {
        Verdict::Unmet => failed_line(alloc, file, test),
        _ => Ok(String::new(alloc)),
    }
}

/// Returns the text for `err` that reports a test.
pub(crate) fn err_text(
    alloc: Global,
    file: &str,
    test: &Test,
    verdict: Verdict,
) -> Result<String, NoMemory>
    ensures { IfOk result (λ text. string_bytes text ≡ T.err_text file.now test.now verdict) }
{
    match verdict {
        Verdict::Met | Verdict::Unmet => Ok(String::new(alloc)),
        Verdict::Spent => line_fault(alloc, file, test.line, "budget spent"),
        Verdict::LongAnswer => line_fault(alloc, file, test.line, "answer too long"),
        Verdict::LongCode => line_fault(alloc, file, test.line, "code too long"),
    }
}

/// Returns the mark of a test.
pub(crate) fn mark_of(verdict: Verdict) -> Mark
    ensures { result ≡ T.mark_of verdict }
{
    match verdict {
        Verdict::Met | Verdict::Unmet => Mark::Miss,
        Verdict::Spent | Verdict::LongAnswer => Mark::Fault,
        Verdict::LongCode => Mark::Stop,
    }
}

/// Returns the mark of the counts, which is a hit if no test failed.
pub(crate) fn counts_mark(unmet: u64) -> Mark
    ensures { result ≡ T.hit_if_none unmet }
{
    if unmet == 0 { Mark::Hit } else { Mark::Miss }
}

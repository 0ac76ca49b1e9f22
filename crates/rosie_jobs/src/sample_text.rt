// The texts of a sample: its rules, its pattern, and the counts.
ghost use Rattle.std.specs.Prelude.{◌≡◌, string_bytes, IfOk};
ghost use Rattle.rosie_jobs.specs.SampleCounts.{counts_text, sample_pattern, sample_rules};

use rosie_run::NoMemory;
use std::alloc::Global;

/// Returns the rules that the lines are matched with, as RPL text.
pub fn sample_rules() -> &'static str
    ensures { result.now ≡ sample_rules }
{
    "alias d = [:digit:]\ndate = {d{4} \"-\" d{2} \"-\" d{2}}\nlevel = [:upper:]+\n"
}

/// Returns the pattern that the lines are matched with.
pub fn sample_pattern() -> &'static str
    ensures { result.now ≡ sample_pattern }
{
    "date level"
}

/// Returns the text of the counts: the numbers of lines, of lines that match, and of bytes in
/// their answers.
pub(crate) fn counts_text(
    alloc: Global,
    lines: u32,
    matched: u64,
    bytes: u64,
) -> Result<String, NoMemory>
    ensures { IfOk result (λ text. string_bytes text ≡ counts_text lines matched bytes) }
{
    format!(in alloc; "lines {lines}\nmatched {matched}\nbytes {bytes}\n")
}

// The lines of a sample, one after the other.
ghost use Rattle.std.specs.Prelude.{◌≡◌, ◌≤◌, [], OnOk, length};
ghost use Rattle.rosie_jobs.specs.SampleLines.{next, drawn, line_of};

use crate::sample_line::push_line;
use rosie_run::NoMemory;
use std::alloc::Global;
use std::marker::Model;

/// The lines of a sample, one after the other. A new sample is positioned before its first line.
#[derive(Debug, Drop)]
pub struct Sample {
    number: u32,
    line: String,
}

impl Model for Sample {
    ghost use Rattle.std.specs.Prelude.{string_bytes};
    ghost use Rattle.rosie_jobs.specs.SamplePlaces.{Place};

    ghost Value = { Place };

    ghost view = { λ s. record { number = s.number; line = string_bytes s.line } };
}

/// Returns the number that follows `number` in the sequence.
fn next(number: u32) -> u32
    ensures { result ≡ next number }
{
    ((number as u64 * 1_103_515_245 + 12_345) % 2_147_483_648) as u32
}

impl Sample {
    /// Returns the sample with this seed, before its first line.
    pub fn new(alloc: Global, seed: u32) -> Sample
        ensures { result ≡ record { number = seed; line = [] } }
    {
        Sample {
            number: seed,
            line: String::new(alloc),
        }
    }

    /// Advances to the next line. There is always a next line.
    pub fn advance(&mut self) -> Result<(), NoMemory>
        ensures number { self.new.number ≡ next self.old.number }
        ensures line { OnOk result (self.new.line ≡ line_of (drawn (next self.old.number))) }
        ensures short { OnOk result (length self.new.line ≤ 64) }
    {
        self.number = next(self.number);
        self.line.clear();
        push_line(&mut self.line, self.number / 65_536)
    }

    /// Returns the current line, without a line feed.
    pub fn line(&self) -> &str
        ensures { result.now ≡ self.now.line }
    {
        self.line.as_str()
    }
}

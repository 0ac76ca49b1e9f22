// The progress of reading from a source in memory.
ghost use Rattle.std.specs.Prelude.{◌≡◌, ◌+◌, ◌^◌, ◌<◌, ◌≤◌, drop, length};
ghost use Rattle.rosie_io.specs.Reading.{IsWithin, Reads, taken_after};
ghost use Rattle.rosie_io.specs.Memory.{gives};
ghost use Rattle.rosie_io.specs.inside.Giving.{given};

use crate::ReadAnswer;

/// How far some contents have been read.
#[derive(Drop)]
pub struct Progress {
    /// The number of bytes read from the current contents.
    pub at: usize,
    /// The total number of bytes read, capped at `u64::MAX`.
    pub taken: u64,
}

impl Progress {
    /// Returns the progress before any byte is read.
    pub fn new() -> Progress
        ensures { result ≡ record { at = 0; taken = 0 } }
    {
        Progress { at: 0, taken: 0 }
    }

    /// Copies bytes from the front of `left` into the buffer, at most `most` of them.
    pub fn give(&mut self, left: &[u8], most: usize, buf: &mut [u8]) -> ReadAnswer
        requires some { 0 < length buf.old }
        requires most { 1 ≤ most }
        requires bound { self.old.at + length left.now < 2 ^ 64 }
        ensures answer { result ≡ gives left.now most (length buf.new) }
        ensures at { self.new.at ≡ self.old.at + given result }
        ensures some { given result ≤ length left.now }
        ensures within { IsWithin result (length buf.new) }
        ensures bytes { Reads result left.now (drop (given result) left.now) buf.new }
        ensures taken { self.new.taken ≡ taken_after result self.old.taken }
    {
        if left.is_empty() {
            return ReadAnswer::End;
        }
        let count = left.len().min(most).min(buf.len());
        buf[..count].copy_from_slice(&left[..count]);
        self.at += count;
        self.taken = self.taken.saturating_add(count as u64);
        ReadAnswer::Took(count)
    }
}

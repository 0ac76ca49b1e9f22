// Owned byte strings.
ghost use Rattle.std.specs.Prelude.{◌≡◌, IfOk};

use crate::NoMemory;
use std::alloc::Global;
use std::marker::Model;

/// An owned byte string. Contracts see it as its bytes.
#[derive(Drop)]
pub struct Bytes {
    held: Vec<u8>,
}

impl Model for Bytes {
    ghost use Rattle.std.specs.Prelude.{ℕ, List};

    ghost Value = { List ℕ };

    ghost view = { λ b. b.held.items };
}

impl Bytes {
    /// Returns a copy of the text.
    pub fn from_slice(alloc: Global, text: &[u8]) -> Result<Bytes, NoMemory>
        ensures { IfOk result (λ b. b ≡ text.now) }
    {
        let mut held = Vec::new(alloc);
        held.extend_from_slice(text)?;
        Ok(Bytes { held })
    }

    /// Returns the bytes as a slice.
    #[inline(always)]
    pub fn as_slice(&self) -> &[u8]
        ensures { result.now ≡ self.now }
    {
        self.held.as_slice()
    }
}

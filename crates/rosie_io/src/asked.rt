// What was asked of a source. Only contracts read it.
ghost use Rattle.std.specs.Prelude.{◌≡◌, ℕ, Bool, false, List, [], ◌∷◌, ◌++◌};
ghost use Rattle.std.specs.Borrow.{ftrue};
ghost use Rattle.rosie_io.specs.Ending.{asked_after, ended_after};

use crate::ReadAnswer;
use std::marker::Model;

/// The paths that were asked for and the reads after the end, in order, and whether the end was
/// answered since the last path. No code computes them: they take no memory, and the functions do
/// nothing when they run.
#[derive(Drop)]
pub struct Asked {
    pub ghost paths: { List (List ℕ) },
    pub ghost ended: { Bool },
}

impl Model for Asked {
    ghost also_owns = { λ _. ftrue };
}

impl Asked {
    pub fn new() -> Asked
        ensures { result ≡ record { paths = []; ended = false } }
    {
        Asked {}
    }

    /// Returns what was asked after one more path.
    pub fn and(&self, _path: &&str) -> Asked
        ensures { result ≡ record { paths = self.now.paths ++ _path.now.now ∷ []; ended = false } }
    {
        Asked {}
    }

    /// Returns what was asked after one more read, which got this answer.
    pub fn after(&self, _answer: &ReadAnswer) -> Asked
        ensures { result ≡ record {
          paths = asked_after self.now.ended self.now.paths;
          ended = ended_after _answer.now self.now.ended;
        } }
    {
        Asked {}
    }
}

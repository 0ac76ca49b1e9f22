// A text whose lines are written in the order of their bytes.
ghost use Rattle.std.specs.Prelude.{◌≡◌, ◌≤◌, ◌++◌, ◌∷◌, [], ℕ, List, IfOk, IsTrue};
ghost use Rattle.std.specs.Prelude.{length, map, string_bytes};
ghost use Rattle.rosie_inspect.specs.Ascending.{AreWritten};

use rpl_core::NoMemory;
use std::alloc::Global;

/// A text and the byte offset of its last line.
#[derive(Drop)]
pub struct Ascending {
    text: String,
    last: usize,
    ghost within: { last ≤ length (string_bytes text) },
}

impl Ascending {
    /// Returns an empty text with room for this many bytes.
    pub fn with_capacity(alloc: Global, bytes: usize) -> Result<Ascending, NoMemory>
        ensures { IfOk result (λ lines. AreWritten [] (string_bytes lines.text) lines.last) }
    {
        Ok(Ascending {
            text: String::with_capacity(alloc, bytes)?,
            last: 0,
        })
    }

    /// Returns the text.
    pub fn into_text(self) -> String
        ensures { string_bytes result ≡ string_bytes self.text }
    {
        self.text
    }

    /// Appends the line that consists of `front` and `end`. Returns `false` if the line is less
    /// than the line before it.
    pub fn push(&mut self, front: &str, end: &str) -> Result<bool, NoMemory>
        ensures { IfOk result (λ ascends. IsTrue ascends → (done : List (List ℕ))
            → AreWritten done (string_bytes self.old.text) self.old.last
            → AreWritten (done ++ (front.now ++ end.now) ∷ []) (string_bytes self.new.text)
            self.new.last) }
    {
        let start = self.text.len();
        self.text.push_str(front)?;
        self.text.push_str(end)?;
        let bytes = self.text.as_bytes();
        let before = &bytes[self.last..start];
        let line = &bytes[start..];
        let ascends = !line.cmp(&before).is_lt();
        self.last = start;
        Ok(ascends)
    }

    /// Appends, for each end, the line that consists of `front` and that end. Returns `false` if
    /// one of these lines is less than the line before it.
    pub fn push_all(&mut self, front: &str, ends: &[String]) -> Result<bool, NoMemory>
        ensures { IfOk result (λ ascends. IsTrue ascends → (done : List (List ℕ))
            → AreWritten done (string_bytes self.old.text) self.old.last
            → AreWritten (done ++ map (λ l. front.now ++ string_bytes l) ends.now)
            (string_bytes self.new.text) self.new.last) }
    {
        for end in ends {
            if !self.push(front, end.as_str())? {
                return Ok(false);
            }
        }
        Ok(true)
    }
}

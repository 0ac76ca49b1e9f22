// The text of a trace, made in parts.
ghost use Rattle.std.specs.Prelude.{◌≡◌, ◌++◌, ◌<◌, ◌≤◌, [], None, OnOk, codes, length};
ghost use Rattle.std.specs.Prelude.{string_bytes};
ghost use Rattle.std.specs.Fmt.{decimal};
ghost use Rattle.rosie_run.specs.Parts.{GivesPart};
ghost use Rattle.rpl_trace.specs.Left.{left_of};

use rosie_run::NoMemory;
use rpl_print::push_decimal;
use rpl_trace::TraceText;
use std::alloc::Global;

/// The greatest number of bytes in a part.
const PART_BYTES: usize = 65_536;

/// The text of a trace, preceded by a line that gives the number of the traced line. Only as many
/// lines of the text are made as the next part needs.
#[derive(Drop)]
pub(crate) struct TraceParts<'a> {
    /// The lines that are still to be made, after those in `made`.
    lines: Option<TraceText<'a>>,
    /// The lines that were made last. The bytes before `from` are in earlier parts.
    made: String,
    from: usize,
    ghost within: { from ≤ length (string_bytes made) },
}

/// Appends lines until there are enough bytes for a part, or no line is left.
fn push_lines(made: &mut String, lines: &mut TraceText<'_>) -> Result<(), NoMemory>
    ensures text { OnOk result (string_bytes made.new ++ left_of lines.new
        ≡ string_bytes made.old ++ left_of lines.old) }
    ensures full { OnOk result (length (string_bytes made.new) < PART_BYTES
        → left_of lines.new ≡ []) }
{
    'lines: while made.len() < PART_BYTES {
        if !lines.push_next(made)? {
            return Ok(());
        }
    }
    Ok(())
}

impl<'a> TraceParts<'a> {
    ghost use Rattle.rosie_jobs.specs.Tracing.{left_in, made_in, part_of, rest_of};

    /// Returns an empty text.
    pub(crate) fn new(alloc: Global) -> TraceParts<'a> {
        TraceParts {
            lines: None,
            made: String::new(alloc),
            from: 0,
        }
    }

    /// Drops the lines in `made`.
    fn clear_made(&mut self)
        ensures from { self.new.from ≡ 0 }
        ensures made { string_bytes self.new.made ≡ [] }
        ensures lines { self.new.lines ≡ self.old.lines }
    {
        self.from = 0;
        self.made.clear();
    }

    /// Makes the text empty.
    pub(crate) fn clear(&mut self)
        ensures from { self.new.from ≡ 0 }
        ensures made { string_bytes self.new.made ≡ [] }
        ensures lines { self.new.lines ≡ None }
    {
        self.lines = None;
        self.clear_made();
    }

    /// Makes lines until there are enough bytes for a part, or no line is left.
    fn fill(&mut self) -> Result<(), NoMemory>
        requires { self.old.from ≡ 0 }
        ensures text { OnOk result (made_in self.new ++ left_in self.new
            ≡ string_bytes self.old.made ++ left_in self.old) }
        ensures ends { OnOk result (made_in self.new ≡ [] → left_in self.new ≡ []) }
    {
        match &mut self.lines {
            Some(lines) => push_lines(&mut self.made, lines),
            None => Ok(()),
        }
    }

    /// Begins the text of a trace of the line with this number, and makes the first part of the
    /// text.
    pub(crate) fn begin(&mut self, number: u64, lines: TraceText<'a>) -> Result<(), NoMemory>
        ensures { OnOk result (part_of self.new ++ rest_of self.new
            ≡ codes "line " ++ (decimal number ++ (codes "\n" ++ left_of lines.entry))) }
    {
        self.clear();
        self.made.push_str("line ")?;
        push_decimal(&mut self.made, number)?;
        self.made.push_str("\n")?;
        self.lines = Some(lines);
        self.fill()?;
        Ok(())
    }

    /// Makes the next part. Returns whether there was one. A part is never empty.
    pub(crate) fn next(&mut self) -> Result<bool, NoMemory>
        ensures { GivesPart result (rest_of self.old) (part_of self.new) (rest_of self.new) }
    {
        let to = self.from + self.part().len();
        if to < self.made.len() {
            self.from = to;
            return Ok(true);
        }
        self.clear_made();
        self.fill()?;
        Ok(self.from < self.made.len())
    }

    /// Returns the part that was made last.
    pub(crate) fn part(&self) -> &[u8]
        ensures { result.now ≡ part_of self.now }
    {
        let bytes = &self.made.as_bytes()[self.from..];
        &bytes[..bytes.len().min(PART_BYTES)]
    }
}

// The whole text of an answer.
ghost use Rattle.std.specs.Prelude.{◌≡◌, ◌≤◌, ◌++◌, [], Some, IfOk, OnErr, OnOk, length};
ghost use Rattle.std.specs.Option.{option_copied};
ghost use Rattle.rpl_core.specs.Forest as F;
ghost use Rattle.rpl_core.specs.Program.{labels_of};
ghost use Rattle.rpl_encode.specs.Answer.{IsTooLong, answer, line_by_line};
ghost use Rattle.rpl_encode.specs.Answer.{max_answer_bytes, none, parts};
ghost use Rattle.rpl_encode.specs.Labels.{Suffice, answer_text, match_text};
ghost use Rattle.rpl_encode.specs.inside.Captured.{BeginWith};
ghost use Rattle.rpl_tree.specs.Trees.{label_in};

use crate::captured::{put_captured_root, put_captured_texts};
use crate::children::{put_line, put_root_text, put_texts};
use crate::escapes::Escapes;
use crate::fault::EncodeFault;
use crate::front::Fronts;
use crate::page::Page;
use crate::source::Source;
use crate::style::Style;
use crate::tree::put_tree;
use rosie_io::Bytes;
use rpl_core::{Caught, NoMemory, Program};
use rpl_tree::Forest;
use std::alloc::Global;
use std::marker::Model;

/// The greatest number of bytes that an answer may have.
pub(crate) const MAX_ANSWER_BYTES: usize = 67_108_864;

/// The text of an answer, in memory that is reused from line to line. Contracts refer to its bytes.
///
/// # Examples
///
/// ```
/// # use rpl_core::{Instrs, Labels, Program, Sets};
/// use rpl_encode::{AnswerText, Fronts, Style};
/// # let program = Program::new(Instrs::new(alloc), Sets::new(alloc), Labels::new(alloc));
/// let fronts = Fronts::new(alloc, &program)?;
/// let mut answer = AnswerText::new(alloc);
/// answer.fill(Style::Bool, "31. May", None, &fronts)?;
/// assert!(rt; answer.as_slice() == b"false\n".as_slice());
/// answer.fill(Style::Line, "31. May", None, &fronts)?;
/// assert!(rt; answer.as_slice() == b"".as_slice());
/// ```
#[derive(Drop)]
pub struct AnswerText {
    text: Page,
    draft: Draft,
}

/// A text that is being written, and the memory needed to write it. The text becomes the answer
/// once it is known not to be too long.
#[derive(Drop)]
struct Draft {
    text: Page,
    /// The number of nodes still to be written in each open JSON list.
    pending: Vec<usize>,
    escapes: Escapes,
    /// The trees of the last captures that were printed as JSON.
    forest: Forest,
}

impl Model for AnswerText {
    ghost use Rattle.std.specs.Prelude.{List, ℕ};

    ghost Value = { List ℕ };

    ghost view = { λ a. a.text };
}

impl AnswerText {
    /// Returns an empty text. Allocates no memory.
    pub fn new(alloc: Global) -> AnswerText
        ensures { result ≡ [] }
    {
        AnswerText {
            text: Page::new(alloc),
            draft: Draft::new(alloc),
        }
    }

    /// Returns the bytes of the text.
    pub fn as_slice(&self) -> &[u8]
        ensures { result.now ≡ self.now }
    {
        self.text.as_slice()
    }

    /// Replaces the text with the text of the line's outcome, in this style. `found` holds the
    /// trees of a match, whose types are numbered as in `fronts`, or is `None` if the line doesn't
    /// match. Reuses the memory of earlier texts, and allocates more only if that memory is too
    /// small. Stops as soon as the new text is too long. If an error occurs, the old text is kept.
    pub fn fill(
        &mut self,
        style: Style,
        line: &str,
        found: Option<&Forest>,
        fronts: &Fronts,
    ) -> Result<(), EncodeFault>
        ensures text { OnOk result (self.new ≡ answer_text style line.now fronts.now
            (option_copied found.entry)) }
        ensures fits { OnOk result
            (length (answer_text style line.now fronts.now (option_copied found.entry))
            ≤ max_answer_bytes) }
        ensures too_long { IsTooLong result (answer_text style line.now fronts.now
            (option_copied found.entry)) }
        ensures err { OnErr result (self.new ≡ self.old) }
    {
        self.draft.text.clear();
        match found {
            Some(forest) => self.draft.put_match(style, line, forest, fronts)?,
            None => put_miss(&mut self.draft.text, style)?,
        }
        keep(&mut self.text, &mut self.draft.text)
    }

    /// Replaces the text with the text of a match, in this style. The text numbers in the
    /// captures refer to the texts of `fronts`. Does what `fill` does with the trees of the
    /// captures, but builds these trees only for JSON.
    pub fn fill_match(
        &mut self,
        style: Style,
        line: &str,
        captures: &[Caught],
        fronts: &Fronts,
    ) -> Result<(), EncodeFault>
        ensures text { (f : F.Forest) → Suffice style fronts.now captures.now f
            → OnOk result (self.new ≡ answer style line.now (Some f)) }
        ensures fits { (f : F.Forest) → Suffice style fronts.now captures.now f
            → OnOk result (length (answer style line.now (Some f)) ≤ max_answer_bytes) }
        ensures too_long { (f : F.Forest) → Suffice style fronts.now captures.now f
            → IsTooLong result (answer style line.now (Some f)) }
        ensures err { OnErr result (self.new ≡ self.old) }
    {
        self.draft.text.clear();
        self.draft.put_captured(style, line, captures, fronts)?;
        keep(&mut self.text, &mut self.draft.text)
    }
}

/// Swaps the text and the draft, unless the draft is too long.
fn keep(text: &mut Page, draft: &mut Page) -> Result<(), EncodeFault>
    ensures text { OnOk result (text.new ≡ draft.old) }
    ensures fits { OnOk result (length draft.old ≤ max_answer_bytes) }
    ensures too_long { IsTooLong result draft.old }
    ensures err { OnErr result (text.new ≡ text.old) }
{
    if draft.len() > MAX_ANSWER_BYTES {
        return Err(EncodeFault::AnswerTooLong);
    }
    std::mem::swap(text, draft);
    Ok(())
}

/// Returns the text of a line's outcome in this style.
///
/// # Examples
///
/// ```
/// # use rpl_core::{Caught, Instrs, Labels, Program, Sets};
/// # use rpl_encode::{Style, encode};
/// # use rpl_text::Chars;
/// # use rpl_tree::build;
/// let mut texts = Labels::new(alloc);
/// texts.push(Chars::from_str(alloc, "day")?)?;
/// let program = Program::new(Instrs::new(alloc), Sets::new(alloc), texts);
/// let forest = build(alloc, &[Caught::Begin { label: 0, place: 4 }, Caught::Finish { place: 6 }])?;
/// let text = encode(alloc, Style::Matches, "May 31.", Some(&forest), &program)?;
/// assert!(rt; text.as_slice() == b"31\n".as_slice());
/// ```
pub fn encode(
    alloc: Global,
    style: Style,
    line: &str,
    found: Option<&Forest>,
    program: &Program,
) -> Result<Bytes, EncodeFault>
    ensures text { IfOk result
        (λ text. text ≡ answer_text style line.now (labels_of program.now)
        (option_copied found.entry)) }
    ensures fits { OnOk result
        (length (answer_text style line.now (labels_of program.now) (option_copied found.entry))
        ≤ max_answer_bytes) }
    ensures too_long { IsTooLong result
        (answer_text style line.now (labels_of program.now) (option_copied found.entry)) }
{
    let fronts = Fronts::new(alloc, program)?;
    let mut answer = AnswerText::new(alloc);
    answer.fill(style, line, found, &fronts)?;
    Ok(Bytes::from_vec(answer.text.into_vec()))
}

/// Writes the text for a line that doesn't match.
fn put_miss(out: &mut Page, style: Style) -> Result<(), NoMemory>
    ensures { OnOk result (out.new ≡ out.old ++ (line_by_line (none style))) }
{
    match style {
        Style::Bool => out.put(b"false\n"),
        _ => Ok(()),
    }
}

impl Draft {
    fn new(alloc: Global) -> Draft {
        Draft {
            text: Page::new(alloc),
            pending: Vec::new(alloc),
            escapes: Escapes::new(alloc),
            forest: Forest::new(alloc),
        }
    }

    /// Appends the text of a match.
    fn put_match(
        &mut self,
        style: Style,
        line: &str,
        forest: &Forest,
        fronts: &Fronts,
    ) -> Result<(), EncodeFault>
        ensures too_long { IsTooLong result
            (self.old.text ++ match_text style line.now fronts.now forest.now) }
        ensures text { OnOk result
            (self.new.text ≡ self.old.text
            ++ (match_text style line.now fronts.now forest.now)) }
    {
        let bytes = line.as_bytes();
        match style {
            Style::Json => {
                self.escapes.fill(line)?;
                let source = Source {
                    line: bytes,
                    escapes: &self.escapes,
                    fronts,
                };
                put_tree(&mut self.text, &mut self.pending, forest, source)
            }
            Style::Line => Ok(put_line(&mut self.text, bytes)?),
            Style::Matches => put_hits(&mut self.text, bytes, forest, fronts),
            Style::Subs => {
                put_texts(&mut self.text, false, bytes, forest, fronts)?;
                Ok(())
            }
            Style::Plain => Ok(put_root_text(&mut self.text, bytes, forest, fronts)?),
            Style::Bool => Ok(self.text.put(b"true\n")?),
        }
    }

    /// Appends the text of the match with these captures.
    fn put_captured(
        &mut self,
        style: Style,
        line: &str,
        captures: &[Caught],
        fronts: &Fronts,
    ) -> Result<(), EncodeFault>
        ensures too_long { (f : F.Forest) → Suffice style fronts.now captures.now f
            → IsTooLong result (self.old.text ++ line_by_line (parts style line.now f)) }
        ensures text { (f : F.Forest) → Suffice style fronts.now captures.now f → OnOk result
            (self.new.text ≡ self.old.text ++ line_by_line (parts style line.now f)) }
    {
        let bytes = line.as_bytes();
        match style {
            Style::Json => {
                self.forest.fill(captures)?;
                self.escapes.fill(line)?;
                let source = Source {
                    line: bytes,
                    escapes: &self.escapes,
                    fronts,
                };
                put_tree(&mut self.text, &mut self.pending, &self.forest, source)
            }
            Style::Line => Ok(put_line(&mut self.text, bytes)?),
            Style::Matches => put_captured_hits(&mut self.text, bytes, captures, fronts),
            Style::Subs => put_captured_subs(&mut self.text, bytes, captures, fronts),
            Style::Plain => Ok(put_captured_root(&mut self.text, bytes, captures, fronts)?),
            Style::Bool => Ok(self.text.put(b"true\n")?),
        }
    }
}

/// Writes the text of each hit of a search, or the text of the root if there are no hits.
fn put_hits(
    out: &mut Page,
    line: &[u8],
    forest: &Forest,
    fronts: &Fronts,
) -> Result<(), EncodeFault>
    ensures too_long { IsTooLong result (out.old
        ++ match_text Style.Matches line.now fronts.now forest.now) }
    ensures text { OnOk result
        (out.new ≡ out.old
        ++ (match_text Style.Matches line.now fronts.now forest.now)) }
{
    if put_texts(out, true, line, forest, fronts)? {
        return Ok(());
    }
    Ok(put_root_text(out, line, forest, fronts)?)
}

/// Writes the texts of the nodes directly below the root of these captures.
fn put_captured_subs(
    out: &mut Page,
    line: &[u8],
    captures: &[Caught],
    fronts: &Fronts,
) -> Result<(), EncodeFault>
    ensures too_long { (f : F.Forest) → BeginWith (label_in fronts.now) f captures.now
        → IsTooLong result (out.old ++ line_by_line (parts Style.Subs line.now f)) }
    ensures text { (f : F.Forest) → BeginWith (label_in fronts.now) f captures.now
        → OnOk result (out.new ≡ out.old ++ line_by_line (parts Style.Subs line.now f)) }
{
    put_captured_texts(out, false, line, captures, fronts)?;
    Ok(())
}

/// Writes the text of each hit of a search straight from these captures, or the text of the root if
/// there are no hits.
fn put_captured_hits(
    out: &mut Page,
    line: &[u8],
    captures: &[Caught],
    fronts: &Fronts,
) -> Result<(), EncodeFault>
    ensures too_long { (f : F.Forest) → BeginWith (label_in fronts.now) f captures.now
        → IsTooLong result (out.old ++ line_by_line (parts Style.Matches line.now f)) }
    ensures text { (f : F.Forest) → BeginWith (label_in fronts.now) f captures.now
        → OnOk result (out.new ≡ out.old ++ line_by_line (parts Style.Matches line.now f)) }
{
    if put_captured_texts(out, true, line, captures, fronts)? {
        return Ok(());
    }
    Ok(put_captured_root(out, line, captures, fronts)?)
}

// A column: its name, and the nodes it takes.
ghost use Rattle.std.specs.Prelude.{◌≡◌, ◌<◌, IfOk, option_map};
ghost use Rattle.std.specs.Prelude.{◌&&◌};
ghost use Rattle.rpl_columns.specs.Columns as C;

use crate::spelling::are_same;
use crate::{Bytes, NoMemory, Parts, Span};
use rpl_print::push_quoted;
use std::alloc::Global;
use std::marker::Model;

/// What a column takes from each of its nodes.
#[derive(Clone, Copy)]
pub enum Part {
    /// The text of a node.
    Text,
    /// The place where a node starts.
    Start,
    /// The place where a node ends.
    End,
}

/// A column of a table.
#[derive(Drop)]
pub struct Column {
    /// The name in the header, escaped as in JSON, without quotes.
    pub name: Bytes,
    /// The type of the node that must enclose the column's nodes, if any.
    pub outer: Option<Bytes>,
    /// The type of the column's nodes, or the last part of that type.
    pub label: Bytes,
    pub part: Part,
}

/// Columns, from left to right. Contracts see them as a list.
#[derive(Drop)]
pub struct Columns {
    held: Vec<Column>,
}

impl Model for Columns {
    ghost use Rattle.std.specs.Prelude.{List};
    ghost use Rattle.rpl_columns.specs.declared.column.Column.{Column};

    ghost Value = { List Column };

    ghost view = { λ c. c.held.items };
}

impl Columns {
    ghost use Rattle.std.specs.Prelude.{[], ◌∷◌, ◌++◌, OnOk};

    /// Returns an empty list of columns.
    pub fn new(alloc: Global) -> Columns
        ensures { result ≡ [] }
    {
        Columns {
            held: Vec::new(alloc),
        }
    }

    /// Adds a column.
    pub fn push(&mut self, column: Column) -> Result<(), NoMemory>
        ensures { OnOk result (self.new ≡ self.old ++ column ∷ []) }
    {
        match self.held.push(column) {
            Ok(()) => Ok(()),
            Err(_) => Err(NoMemory),
        }
    }

    #[inline(always)]
    pub fn as_slice(&self) -> &[Column]
        ensures { result.now ≡ self.now }
    {
        self.held.as_slice()
    }
}

/// Returns a JSON string without its quotes.
pub(crate) fn unquoted(string: &[u8]) -> &[u8]
    ensures { result.now ≡ C.unquoted string.now }
{
    let to = string.len().saturating_sub(1);
    let from = to.min(1);
    &string[from..to]
}

/// Returns a text escaped as in JSON, without quotes.
#[tactic(auto, unfolding(crate::specs::Columns::spelled))]
pub fn spelled(alloc: Global, text: &str) -> Result<Bytes, NoMemory>
    ensures { IfOk result (λ b. b ≡ C.spelled text.now) }
{
    let mut string = String::new(alloc);
    push_quoted(&mut string, text)?;
    Bytes::from_slice(alloc, unquoted(string.as_bytes()))
}

/// Returns whether a byte may occur in a type.
fn is_of_type(byte: u8) -> bool
    ensures { result ≡ C.is_of_type byte }
{
    (b'a' <= byte && byte <= b'z')
        || (b'A' <= byte && byte <= b'Z')
        || (b'0' <= byte && byte <= b'9')
        || byte == b'_'
        || byte == b'.'
        || byte == b'*'
        || byte == b'<'
        || byte == b'>'
}

/// Returns whether each byte may occur in a type.
fn are_of_type(bytes: &[u8]) -> bool
    ensures { result ≡ C.are_of_type bytes.now }
{
    let mut is_all = true;
    for byte in bytes {
        is_all &= is_of_type(*byte);
    }
    is_all
}

/// Returns whether the text is a type or the last part of one.
fn is_type(text: &str) -> bool
    ensures { result ≡ C.is_type text.now }
{
    !text.is_empty() && are_of_type(text.as_bytes())
}

/// Returns the part named by the word after the `@`: `s` for the start, `e` for the end. If there
/// is no word, returns `Part::Text`.
fn part_named(word: Option<&str>) -> Option<Part>
    ensures { result ≡ C.part_named (option_map (λ w. w.now) word.entry) }
{
    match word {
        None => Some(Part::Text),
        Some("s") => Some(Part::Start),
        Some("e") => Some(Part::End),
        Some(_) => None,
    }
}

/// Splits a word at the first `=`. If there is none, returns the whole word.
fn name_and_type(word: &str) -> (&str, Option<&str>)
    ensures before { result.0.now ≡ C.before 61 word.now }
    ensures after { option_map (λ w. w.now) result.1 ≡ C.rest_after 61 word.now }
{
    match word.split_once('=') {
        Some((first, rest)) => (first, Some(rest)),
        None => (word, None),
    }
}

/// Splits a word at the first `@`. If there is none, returns the whole word.
fn path_and_part(word: &str) -> (&str, Option<&str>)
    ensures before { result.0.now ≡ C.before 64 word.now }
    ensures after { option_map (λ w. w.now) result.1 ≡ C.rest_after 64 word.now }
{
    match word.split_once('@') {
        Some((first, rest)) => (first, Some(rest)),
        None => (word, None),
    }
}

/// Splits a word at the first `/`. If there is none, returns the whole word.
fn outer_and_inner(word: &str) -> (&str, Option<&str>)
    ensures before { result.0.now ≡ C.before 47 word.now }
    ensures after { option_map (λ w. w.now) result.1 ≡ C.rest_after 47 word.now }
{
    match word.split_once('/') {
        Some((first, rest)) => (first, Some(rest)),
        None => (word, None),
    }
}

/// Returns the column with this name, given the texts before and after the `/`. Returns `None` if
/// either text is not a type.
fn column_at(
    alloc: Global,
    name: &str,
    part: Part,
    first: &str,
    rest: Option<&str>,
) -> Result<Option<Column>, NoMemory>
    ensures { IfOk result (λ c. c ≡ C.column_at name.now part first.now
        (option_map (λ w. w.now) rest.entry)) }
{
    match rest {
        None => {
            if !is_type(first) {
                return Ok(None);
            }
            let name = spelled(alloc, name)?;
            let label = Bytes::from_slice(alloc, first.as_bytes())?;
            Ok(Some(Column {
                name,
                outer: None,
                label,
                part,
            }))
        }
        Some(inner) => {
            if !is_type(first) || !is_type(inner) {
                return Ok(None);
            }
            let name = spelled(alloc, name)?;
            let outer = Some(Bytes::from_slice(alloc, first.as_bytes())?);
            let label = Bytes::from_slice(alloc, inner.as_bytes())?;
            Ok(Some(Column {
                name,
                outer,
                label,
                part,
            }))
        }
    }
}

/// Returns the column with this name, and with the path and the part that `word` specifies.
fn column_from(alloc: Global, name: &str, word: &str) -> Result<Option<Column>, NoMemory>
    ensures { IfOk result (λ c. c ≡ C.column_from name.now word.now) }
{
    let (path, part) = path_and_part(word);
    match part_named(part) {
        None => Ok(None),
        Some(part) => {
            let (first, rest) = outer_and_inner(path);
            column_at(alloc, name, part, first, rest)
        }
    }
}

/// Returns `enclosing`, the depth of the outer node, if a node of depth `depth` is inside the outer
/// node, and `None` otherwise.
#[inline(always)]
fn still_enclosing(enclosing: Option<usize>, depth: usize) -> Option<usize>
    ensures { result ≡ C.still_enclosing enclosing depth }
{
    match enclosing {
        Some(outer) => { if outer < depth { Some(outer) } else { None } }
        None => None,
    }
}

/// Returns whether the type is this name, or ends with a dot and this name.
#[inline(always)]
fn is_named(label: &[u8], name: &[u8]) -> bool
    ensures { result ≡ C.is_named label.now name.now }
{
    if label.len() < name.len() {
        return false;
    }
    let front = label.len() - name.len();
    (front == 0 || label[front - 1] == b'.') && are_same(&label[front..], name)
}

impl Column {
    /// Returns the column for a word `TYPE` or `NAME=TYPE`, if the type in the word is valid.
    #[tactic(auto, unfolding(crate::specs::Columns::column_of))]
    pub fn of_word(alloc: Global, word: &str) -> Result<Option<Column>, NoMemory>
        ensures { IfOk result (λ c. c ≡ C.column_of word.now) }
    {
        let (name, rest) = name_and_type(word);
        match rest {
            None => column_from(alloc, word, word),
            Some(rest) => column_from(alloc, name, rest),
        }
    }

    /// Returns `true` if the column needs no outer node, or if a node of this depth is inside the
    /// column's outer node.
    #[inline(always)]
    fn is_inside(&self, enclosing: Option<usize>, depth: usize) -> bool
        ensures { result ≡ C.is_inside self.now.outer enclosing depth }
    {
        match &self.outer {
            None => true,
            Some(_) => still_enclosing(enclosing, depth).is_some(),
        }
    }

    /// Returns whether the column takes a node of this type and depth. `enclosing` is the depth of
    /// the outer node that is open before that node.
    #[inline(always)]
    pub(crate) fn takes(&self, enclosing: Option<usize>, label: &[u8], depth: usize) -> bool
        ensures { result ≡ C.takes self.now enclosing label.now depth }
    {
        self.is_inside(enclosing, depth) && is_named(label, self.label.as_slice())
    }

    /// Returns the depth of the outer node that is open after a node of this type and depth.
    #[inline(always)]
    pub(crate) fn next_enclosing(
        &self,
        enclosing: Option<usize>,
        label: &[u8],
        depth: usize,
    ) -> Option<usize>
        ensures { result ≡ C.next_enclosing self.now.outer enclosing label.now depth }
    {
        let Some(outer) = &self.outer else {
            return enclosing;
        };
        match still_enclosing(enclosing, depth) {
            Some(found) => Some(found),
            None => {
                if is_named(label, outer.as_slice()) {
                    Some(depth)
                } else {
                    None
                }
            }
        }
    }
}

impl Part {
    /// Returns the span of this part of a node in the node's line.
    #[inline(always)]
    pub(crate) fn span(self, parts: Parts) -> Span
        ensures { result ≡ C.span_of self parts }
    {
        match self {
            Part::Text => parts.text,
            Part::Start => parts.start,
            Part::End => parts.end,
        }
    }
}

// The texts of a program, each with a front. The front of a node's object is the part up to the
// node's start: `{"type":"NAME","s":`.
ghost use Rattle.std.specs.Prelude.{◌≡◌, ◌++◌, [], false, IfOk, OnOk, string_bytes};
ghost use Rattle.std.specs.Prelude.{chars, option_map, slice_get};
ghost use Rattle.std.specs.Option.{option_copied};
ghost use Rattle.std.specs.Str.{encode_utf8_all};
ghost use Rattle.json.specs.Print.{escape};
ghost use Rattle.rpl_core.specs.Program.{labels_of};
ghost use Rattle.rpl_tree.specs.Trees.{label_in};
ghost use Rattle.rpl_encode.specs.inside.Fronts.{front};

use crate::escapes::put_bytes;
use crate::page::Page;
use rpl_core::{NoMemory, Program};
use rpl_print::push_quoted;
use std::alloc::Global;
use std::marker::Model;

/// The front of the objects of all nodes of one type: the part of the object before the node's
/// start. It is built once per type.
#[derive(Drop)]
pub(crate) struct Front {
    label: String,
    /// The front, preceded by a comma.
    text: String,
    ghost is_front: { string_bytes text ≡ front false (string_bytes label) },
}

impl Front {
    /// Returns the front for this type.
    fn new(alloc: Global, label: &str) -> Result<Front, NoMemory>
        ensures { IfOk result (λ f. string_bytes f.label ≡ label.now) }
    {
        let mut text = String::from_str(alloc, ",{\"type\":")?;
        push_quoted(&mut text, label)?;
        text.push_str(",\"s\":")?;
        let label = String::from_str(alloc, label)?;
        Ok(Front { label, text })
    }

    /// Returns the bytes of the front, preceded by a comma unless the node is the first.
    fn bytes(&self, is_first: bool) -> &[u8]
        ensures { result.now ≡ front is_first (string_bytes self.now.label) }
    {
        let text = self.text.as_bytes();
        if is_first { &text[1..] } else { text }
    }
}

/// The texts of a program, each with the front for the nodes whose type is that text. Contracts
/// refer to the list of the texts.
///
/// # Examples
///
/// ```
/// # use rpl_core::{Caught, Instrs, Labels, Program, Sets};
/// use rpl_encode::{AnswerText, Fronts, Style};
/// # use rpl_text::Chars;
/// # let mut texts = Labels::new(alloc);
/// # texts.push(Chars::from_str(alloc, "day")?)?;
/// # let program = Program::new(Instrs::new(alloc), Sets::new(alloc), texts);
/// let fronts = Fronts::new(alloc, &program)?;
/// let day = [Caught::Begin { label: 0, place: 4 }, Caught::Finish { place: 6 }];
/// let mut answer = AnswerText::new(alloc);
/// for line in ["May 30", "May 31"] {
///     answer.fill_match(Style::Plain, line, &day, &fronts)?;
/// }
/// assert!(rt; answer.as_slice() == b"31\n".as_slice());
/// ```
#[derive(Drop)]
pub struct Fronts {
    list: Vec<Front>,
}

impl Model for Fronts {
    ghost use Rattle.std.specs.Prelude.{List, ℕ, map, chars, string_bytes};

    ghost Value = { List (List ℕ) };

    ghost view = { λ f. map (λ front. chars (string_bytes front.label)) f.list.items };
}

impl Fronts {
    /// Returns the texts and fronts of a program.
    pub fn new(alloc: Global, program: &Program) -> Result<Fronts, NoMemory>
        ensures { IfOk result (λ fronts. fronts ≡ labels_of program.now) }
    {
        let labels = program.labels();
        let mut list = Vec::new(alloc);
        for label in labels {
            let front = Front::new(alloc, label.as_str())?;
            list.push(front)?;
        }
        Ok(Fronts { list })
    }

    /// Returns the text with this number.
    pub(crate) fn label(&self, number: u32) -> Option<&str>
        ensures { option_map chars (option_copied result) ≡ slice_get self.now number }
    {
        match self.list.get(number as usize) {
            Some(front) => Some(front.label.as_str()),
            None => None,
        }
    }
}

/// Returns the front for a node whose type has this number, preceded by a comma unless the node
/// is the first.
pub(crate) fn front_of(fronts: &Fronts, is_first: bool, number: u32) -> &[u8]
    ensures { result.now ≡ front is_first (encode_utf8_all (label_in fronts.now number)) }
{
    match fronts.list.get(number as usize) {
        Some(known) => known.bytes(is_first),
        None => empty_front(is_first),
    }
}

/// Returns the front for a node whose type is empty.
fn empty_front(is_first: bool) -> &'static [u8]
    ensures { result.now ≡ front is_first [] }
{
    if is_first {
        b"{\"type\":\"\",\"s\":"
    } else {
        b",{\"type\":\"\",\"s\":"
    }
}

/// Writes the front for a node of this type, preceded by a comma unless the node is the first.
pub(crate) fn put_new_front(out: &mut Page, is_first: bool, label: &str) -> Result<(), NoMemory>
    ensures { OnOk result (out.new ≡ out.old ++ front is_first label.now) }
{
    if !is_first {
        out.put(b",")?;
    }
    out.put(b"{\"type\":\"")?;
    put_escaped(out, label)?;
    out.put(b"\",\"s\":")
}

/// Writes the escaped form of a text, as it appears between the quotes of a JSON string.
pub(crate) fn put_escaped(out: &mut Page, text: &str) -> Result<(), NoMemory>
    ensures { OnOk result (out.new ≡ out.old ++ escape text.now) }
{
    put_bytes(out, text.as_bytes())
}

// The output for a line: a row, or a message.
ghost use Rattle.std.specs.Prelude.{◌≡◌, ◌++◌, IfOk, OnOk, map};
ghost use Rattle.rpl_columns.specs.Nodes.{seen};
ghost use Rattle.rosie_columns_cli.specs.Absent.{absent_line, absent_text};
ghost use Rattle.rosie_columns_cli.specs.inside.Marks.{noted, unfound};

use crate::NoMemory;
use rosie_run::{InputLine, LineJob, Mark, Tool, line_message};
use rpl_columns::{Column, Node, Room, Sheet, Tree, occurs, put_row, read_tree};
use rpl_machine::Steps;
use std::alloc::Global;
use std::sync::ledger::Ledger;

/// A job that makes a row from each line that is a tree. Its memory is reused from line to line.
#[derive(Drop)]
pub struct ColumnsJob<'a> {
    alloc: Global,
    sheet: &'a Sheet,
    nodes: Vec<Node>,
    room: Room,
    row: Vec<u8>,
    message: String,
    /// For each column, whether any tree so far had a node for that column.
    found: Vec<bool>,
}

/// Records which columns take a node of the tree.
fn note_found(found: &mut [bool], columns: &[Column], tree: Tree<'_>)
    ensures { found.new ≡ noted columns.now found.old
        (map (seen tree.entry.line.now) tree.entry.nodes.now) }
{
    let count = found.len().min(columns.len());
    for index in 0..count {
        if !found[index] {
            found[index] = occurs(&columns[index], tree);
        }
    }
}

/// Appends bytes.
fn put(text: &mut Vec<u8>, bytes: &[u8]) -> Result<(), NoMemory>
    ensures { OnOk result (text.new.items ≡ text.old.items ++ bytes.now) }
{
    text.extend_from_slice(bytes)
}

/// Appends the line that reports that no tree has a node for a column.
fn push_absent(text: &mut Vec<u8>, column: &Column) -> Result<(), NoMemory>
    ensures { OnOk result (text.new.items ≡ text.old.items ++ absent_line column.now) }
{
    put(text, b"rosie-columns: column never found: ")?;
    put(text, column.name.as_slice())?;
    put(text, b"\n")
}

/// Returns a line for each column that wasn't found.
fn absent_lines(alloc: Global, columns: &[Column], found: &[bool]) -> Result<Vec<u8>, NoMemory>
    ensures { IfOk result (λ t. t.items ≡ absent_text (unfound columns.now found.now)) }
{
    let mut text = Vec::new(alloc);
    let count = found.len().min(columns.len());
    for index in 0..count {
        if !found[index] {
            push_absent(&mut text, &columns[index])?;
        }
    }
    Ok(text)
}

impl<'a> ColumnsJob<'a> {
    ghost use Rattle.std.specs.Prelude.{false, length, replicate};
    ghost use Rattle.rosie_columns_cli.specs.inside.Marks.{found_of, sheet_of};

    pub fn new(alloc: Global, sheet: &'a Sheet) -> Result<ColumnsJob<'a>, NoMemory>
        ensures sheet { IfOk result (λ job. sheet_of job ≡ sheet.entry.now) }
        ensures found { IfOk result (λ job. found_of job
            ≡ replicate (length sheet.entry.now.columns) false) }
    {
        let count = sheet.columns.as_slice().len();
        Ok(ColumnsJob {
            alloc,
            sheet,
            nodes: Vec::new(alloc),
            room: Room::new(alloc),
            row: Vec::new(alloc),
            message: String::new(alloc),
            found: vec![in alloc; false; count]?,
        })
    }

    /// Returns a line for each column for which no tree had a node.
    pub fn absent(&self) -> Result<Vec<u8>, NoMemory>
        ensures { IfOk result (λ t. t.items
            ≡ absent_text (unfound (sheet_of self.now).columns (found_of self.now))) }
    {
        absent_lines(self.alloc, self.sheet.columns.as_slice(), &self.found)
    }
}

impl LineJob for ColumnsJob<'_> {
    ghost use Rattle.std.specs.Prelude.{string_bytes, ⊤};
    ghost use Rattle.rosie_columns_cli.specs.Lines.{makes};
    ghost use Rattle.rosie_columns_cli.specs.inside.Marks.{said_after};

    ghost makes = { λ j. makes j.sheet.now };

    ghost idle = { ⊤ };

    ghost out_text = { λ j. j.row.items };

    ghost err_text = { λ j. string_bytes j.message };

    ghost last_text = { λ j lines. said_after j.sheet.now j.found.items lines };

    fn answer<L: Ledger>(
        &mut self,
        line: InputLine<'_>,
        _steps: &mut Steps<L>,
    ) -> Result<Mark, NoMemory> {
        self.row.clear();
        self.message.clear();
        let text = line.text.as_bytes();
        if read_tree(text, &mut self.nodes)? {
            let tree = Tree {
                line: text,
                nodes: self.nodes.as_slice(),
            };
            put_row(&mut self.row, &mut self.room, self.sheet, tree)?;
            note_found(&mut self.found, self.sheet.columns.as_slice(), tree);
            return Ok(Mark::Hit);
        }
        self.message = line_message(
            self.alloc,
            Tool::RosieColumns,
            line.file,
            line.number,
            "no tree",
        )?;
        Ok(Mark::Fault)
    }

    #[inline(always)]
    fn next_part(&mut self) -> Result<bool, NoMemory> {
        Ok(false)
    }

    #[inline(always)]
    fn out(&self) -> &[u8] {
        self.row.as_slice()
    }

    #[inline(always)]
    fn err(&self) -> &[u8] {
        self.message.as_bytes()
    }
}

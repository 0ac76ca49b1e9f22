// The rows of a table.
ghost use Rattle.std.specs.Prelude.{◌≡◌, ◌++◌, ◌≤◌, None, Some, IfOk, OnOk, take, drop, map};
ghost use Rattle.std.specs.Prelude.{option_map, vec_len};
ghost use Rattle.rpl_columns.specs.Cells.{before, between};
ghost use Rattle.rpl_columns.specs.Columns.{picked};
ghost use Rattle.rpl_columns.specs.Nodes.{seen};
ghost use Rattle.rpl_columns.specs.Rows as R;
ghost use Rattle.rpl_columns.specs.declared.format.Format.TheVariants as F;

use crate::cell::{put, put_csv, put_tsv};
use crate::fields::put_fields;
use crate::{Bytes, Column, Columns, Format, NoMemory, Node};
use std::alloc::Global;

/// The options for writing trees as rows.
#[derive(Drop)]
pub struct Sheet {
    pub format: Format,
    /// The columns. If there are no columns, all fields are written as JSON.
    pub columns: Columns,
    /// The text that separates the texts of a cell, escaped as in JSON, without quotes. If this is
    /// `None`, a cell contains only the first text.
    pub joint: Option<Bytes>,
}

/// A line that is a tree, and the nodes of that tree.
#[derive(Clone, Copy)]
pub struct Tree<'a> {
    pub line: &'a [u8],
    pub nodes: &'a [Node],
}

/// Memory that is reused from row to row.
#[derive(Drop)]
pub struct Room {
    /// The text of a cell while it is being joined.
    cell: Vec<u8>,
    /// One node for each field name.
    keys: Vec<Node>,
}

impl Room {
    pub fn new(alloc: Global) -> Room {
        Room {
            cell: Vec::new(alloc),
            keys: Vec::new(alloc),
        }
    }
}

/// Returns what a column takes from the first of its nodes, as it is written in the line.
#[inline(always)]
fn first_text<'a>(column: &Column, tree: Tree<'a>) -> Option<&'a [u8]>
    ensures { option_map (λ t. t.now) result ≡ R.joined None (picked column.now None
        (map (seen tree.entry.line.now) tree.entry.nodes.now)) }
{
    let line = tree.line;
    let mut enclosing = None;
    for node in tree.nodes {
        let label = node.parts.label.of(line);
        if column.takes(enclosing, label, node.depth) {
            return Some(column.part.span(node.parts).of(line));
        }
        enclosing = column.next_enclosing(enclosing, label, node.depth);
    }
    None
}

/// Returns whether a column takes any node of the tree.
pub fn occurs(column: &Column, tree: Tree<'_>) -> bool
    ensures { result ≡ R.occurs column.now (map (seen tree.entry.line.now) tree.entry.nodes.now) }
{
    first_text(column, tree).is_some()
}

/// Appends one more text to a cell.
fn add_text(cell: &mut Vec<u8>, joint: &[u8], is_found: bool, text: &[u8]) -> Result<(), NoMemory>
    ensures { OnOk result (cell.new.items ≡ R.added joint.now is_found cell.old.items text.now) }
{
    if is_found {
        put(cell, joint)?;
        put(cell, text)?;
        return Ok(());
    }
    put(cell, text)
}

/// Joins the texts of all nodes of a column. Returns whether there is at least one such node.
fn all_texts(
    cell: &mut Vec<u8>,
    joint: &[u8],
    column: &Column,
    tree: Tree<'_>,
) -> Result<bool, NoMemory>
    ensures { IfOk result (λ found. R.joined (Some joint.now) (picked column.now None
        (map (seen tree.entry.line.now) tree.entry.nodes.now))
        ≡ R.found_text found cell.new.items) }
{
    cell.clear();
    let line = tree.line;
    let mut is_found = false;
    let mut enclosing = None;
    for node in tree.nodes {
        let label = node.parts.label.of(line);
        if column.takes(enclosing, label, node.depth) {
            add_text(cell, joint, is_found, column.part.span(node.parts).of(line))?;
            is_found = true;
        }
        enclosing = column.next_enclosing(enclosing, label, node.depth);
    }
    Ok(is_found)
}

/// Appends a member of a JSON object.
fn put_member(out: &mut Vec<u8>, name: &[u8], text: Option<&[u8]>) -> Result<(), NoMemory>
    ensures { OnOk result (out.new.items
        ≡ out.old.items ++ R.member name.now (option_map (λ t. t.now) text.entry)) }
{
    put(out, b"\"")?;
    put(out, name)?;
    match text {
        None => put(out, b"\":null"),
        Some(text) => {
            put(out, b"\":\"")?;
            put(out, text)?;
            put(out, b"\"")
        }
    }
}

/// Returns the text, or the empty text if there is none.
#[inline(always)]
fn or_nothing(text: Option<&[u8]>) -> &[u8]
    ensures { result.now ≡ R.or_nothing (option_map (λ t. t.now) text.entry) }
{
    match text {
        Some(text) => text,
        None => &[],
    }
}

/// Appends a cell of the column with this name.
#[inline(always)]
fn put_cell(
    out: &mut Vec<u8>,
    format: Format,
    name: &[u8],
    text: Option<&[u8]>,
) -> Result<(), NoMemory>
    ensures { OnOk result (out.new.items ≡ out.old.items
        ++ R.cell format name.now (option_map (λ t. t.now) text.entry)) }
{
    match format {
        Format::Csv => put_csv(out, or_nothing(text)),
        Format::Tsv => put_tsv(out, or_nothing(text)),
        Format::Json => put_member(out, name, text),
    }
}

/// Returns the text if `is_found` is true, or `None` otherwise.
#[inline(always)]
fn found_text(text: &[u8], is_found: bool) -> Option<&[u8]>
    ensures { option_map (λ t. t.now) result ≡ R.found_text is_found text.now }
{
    if is_found { Some(text) } else { None }
}

/// Appends the cell of a column.
#[inline(always)]
fn put_column(
    out: &mut Vec<u8>,
    cell: &mut Vec<u8>,
    sheet: &Sheet,
    column: &Column,
    tree: Tree<'_>,
) -> Result<(), NoMemory>
    ensures { OnOk result (out.new.items ≡ out.old.items ++ R.cell_of sheet.now.format
        sheet.now.joint (map (seen tree.entry.line.now) tree.entry.nodes.now) column.now) }
{
    let name = column.name.as_slice();
    match &sheet.joint {
        None => put_cell(out, sheet.format, name, first_text(column, tree)),
        Some(joint) => {
            let is_found = all_texts(cell, joint.as_slice(), column, tree)?;
            put_cell(out, sheet.format, name, found_text(cell, is_found))
        }
    }
}

/// Returns the byte between two cells.
fn separator(format: Format) -> u8
    ensures { result ≡ R.separator format }
{
    match format {
        Format::Csv => b',',
        Format::Tsv => b'\t',
        Format::Json => b',',
    }
}

/// Returns the bytes before the first cell.
fn opening(format: Format) -> &'static [u8]
    ensures { result.now ≡ R.opening format }
{
    match format {
        Format::Json => b"{",
        _ => b"",
    }
}

/// Returns the bytes after the last cell.
fn closing(format: Format) -> &'static [u8]
    ensures { result.now ≡ R.closing format }
{
    match format {
        Format::Json => b"}\n",
        _ => b"\n",
    }
}

/// Appends the separator before the cell with this index, unless the cell is the first.
#[inline(always)]
pub(crate) fn put_separator(out: &mut Vec<u8>, separator: u8, index: usize) -> Result<(), NoMemory>
    ensures { OnOk result (out.new.items ≡ out.old.items ++ before separator index) }
{
    if index == 0 {
        return Ok(());
    }
    out.push(separator)?;
    Ok(())
}

/// Appends the cells of a tree, with separators between them.
fn put_cells(
    out: &mut Vec<u8>,
    cell: &mut Vec<u8>,
    sheet: &Sheet,
    tree: Tree<'_>,
) -> Result<(), NoMemory>
    ensures { OnOk result (out.new.items ≡ out.old.items
        ++ between (R.separator sheet.now.format) (R.cells sheet.now
        (map (seen tree.entry.line.now) tree.entry.nodes.now) sheet.now.columns)) }
{
    let sign = separator(sheet.format);
    let columns = sheet.columns.as_slice();
    for (index, column) in columns.iter().enumerate() {
        put_separator(out, sign, index)?;
        put_column(out, cell, sheet, column, tree)?;
    }
    Ok(())
}

/// Writes two quotes if nothing has been written at or after `start`.
fn fill_blank(out: &mut Vec<u8>, start: usize) -> Result<(), NoMemory>
    requires { start ≤ vec_len out.old }
    ensures { OnOk result (out.new.items ≡ take start out.old.items
        ++ R.no_blank F.Csv (drop start out.old.items)) }
{
    if out.len() == start {
        return put(out, b"\"\"");
    }
    Ok(())
}

/// Does the same as `fill_blank` in CSV, where a row of one empty cell would otherwise be an empty
/// line. Does nothing in the other formats.
fn fill_cells(out: &mut Vec<u8>, format: Format, start: usize) -> Result<(), NoMemory>
    requires { start ≤ vec_len out.old }
    ensures { OnOk result (out.new.items ≡ take start out.old.items
        ++ R.no_blank format (drop start out.old.items)) }
{
    match format {
        Format::Csv => fill_blank(out, start),
        Format::Tsv => Ok(()),
        Format::Json => Ok(()),
    }
}

/// Ends a row whose cells begin at `start`.
fn end_row(out: &mut Vec<u8>, format: Format, start: usize) -> Result<(), NoMemory>
    requires { start ≤ vec_len out.old }
    ensures { OnOk result (out.new.items ≡ take start out.old.items
        ++ (R.no_blank format (drop start out.old.items) ++ R.closing format)) }
{
    fill_cells(out, format, start)?;
    put(out, closing(format))?;
    Ok(())
}

/// Appends the row that holds the cells of the columns.
fn put_columns_row(
    out: &mut Vec<u8>,
    cell: &mut Vec<u8>,
    sheet: &Sheet,
    tree: Tree<'_>,
) -> Result<(), NoMemory>
    ensures { OnOk result (out.new.items ≡ out.old.items ++ R.row_text sheet.now.format
        (R.cells sheet.now (map (seen tree.entry.line.now) tree.entry.nodes.now)
        sheet.now.columns)) }
{
    put(out, opening(sheet.format))?;
    let start = out.len();
    put_cells(out, cell, sheet, tree)?;
    end_row(out, sheet.format, start)
}

/// Appends the row of a tree, and a line feed. `room` serves only as reusable memory.
pub fn put_row(
    out: &mut Vec<u8>,
    room: &mut Room,
    sheet: &Sheet,
    tree: Tree<'_>,
) -> Result<(), NoMemory>
    ensures { OnOk result (out.new.items ≡ out.old.items
        ++ R.row sheet.now (map (seen tree.entry.line.now) tree.entry.nodes.now)) }
{
    let count = sheet.columns.as_slice().len();
    if count == 0 {
        return put_fields(out, &mut room.keys, tree);
    }
    put_columns_row(out, &mut room.cell, sheet, tree)
}

/// Appends the names of the columns, with separators between them.
fn put_names(out: &mut Vec<u8>, sheet: &Sheet) -> Result<(), NoMemory>
    ensures { OnOk result (out.new.items ≡ out.old.items
        ++ between (R.separator sheet.now.format)
        (R.names sheet.now.format sheet.now.columns)) }
{
    let format = sheet.format;
    let sign = separator(format);
    let columns = sheet.columns.as_slice();
    for (index, column) in columns.iter().enumerate() {
        put_separator(out, sign, index)?;
        let name = column.name.as_slice();
        put_cell(out, format, name, Some(name))?;
    }
    Ok(())
}

/// Appends the row of column names, and a line feed.
fn put_names_row(out: &mut Vec<u8>, sheet: &Sheet) -> Result<(), NoMemory>
    ensures { OnOk result (out.new.items ≡ out.old.items ++ R.row_text sheet.now.format
        (R.names sheet.now.format sheet.now.columns)) }
{
    put(out, opening(sheet.format))?;
    let start = out.len();
    put_names(out, sheet)?;
    end_row(out, sheet.format, start)
}

/// Appends the row of column names, and a line feed. Appends nothing in JSON.
#[tactic(auto, unfolding(crate::specs::Rows::header))]
pub fn put_header(out: &mut Vec<u8>, sheet: &Sheet) -> Result<(), NoMemory>
    ensures { OnOk result (out.new.items ≡ out.old.items ++ R.header sheet.now) }
{
    match sheet.format {
        Format::Json => Ok(()),
        Format::Csv => put_names_row(out, sheet),
        Format::Tsv => put_names_row(out, sheet),
    }
}

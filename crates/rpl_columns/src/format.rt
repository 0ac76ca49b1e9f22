// The formats of a table.

/// The format in which a table is written.
#[derive(Clone, Copy)]
pub enum Format {
    /// Comma-separated values as in RFC 4180, except that lines end with a line feed alone.
    Csv,
    /// Tab-separated values. A tab, a line feed, a carriage return and a backslash inside a cell
    /// are written `\t`, `\n`, `\r` and `\\`.
    Tsv,
    /// One JSON object per row. Each cell is a string, or `null` if the field is absent.
    Json,
}

// The roots of a command, and where their imports are searched for.
use rpl_list::List;
use rpl_text::Chars;

/// A source of RPL text.
#[derive(Debug, Drop)]
pub enum Root {
    /// The file at this path.
    File(Chars),
    /// The text itself.
    Given(Chars),
}

/// Roots, in the order in which they are loaded.
pub type Roots = List<Root>;

/// The folders that are searched for imports, in the order of the search.
pub type LibPath = List<Chars>;

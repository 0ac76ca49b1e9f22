//! The list of a command's input files.

use rpl_list::List;
use rpl_text::Chars;

/// The paths of input files, in order.
pub type Paths = List<Chars>;

// Names as written.
ghost use Rattle.std.specs.Prelude.{◌≡◌, IfOk};

use crate::NoMemory;
use rpl_text::Chars;
use std::alloc::Global;

/// A name, with or without a prefix, and the byte offset of its token.
///
/// # Examples
///
/// ```
/// use rpl_syntax::{Expr, QName, print_expr};
/// use rpl_text::Chars;
/// let day = QName {
///     prefix: Some(Chars::from_str(alloc, "date")?),
///     name: Chars::from_str(alloc, "day")?,
///     at: 0,
/// };
/// assert!(rt; print_expr(alloc, &Expr::Name(day))?.as_str() == "date.day");
/// ```
#[derive(Debug, Drop)]
pub struct QName {
    /// The part before the dot, if there is a dot.
    pub prefix: Option<Chars>,
    /// The name, or the part after the dot.
    pub name: Chars,
    /// The byte offset of the first character.
    pub at: usize,
}

impl QName {
    /// Returns a copy of the name.
    pub fn copy(&self, alloc: Global) -> Result<QName, NoMemory>
        ensures { IfOk result (λ q. q ≡ self.now) }
    {
        let prefix = match &self.prefix {
            Some(prefix) => Some(prefix.copy(alloc)?),
            None => None,
        };
        Ok(QName {
            prefix,
            name: self.name.copy(alloc)?,
            at: self.at,
        })
    }
}

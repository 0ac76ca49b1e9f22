// Expressions as written, with their names.
ghost use Rattle.std.specs.Option.{option_copied};
ghost use Rattle.std.specs.Prelude.{◌≡◌, [], ◌∷◌, ◌++◌, length, slice_get, OnOk, OnErr, IfOk};
ghost use Rattle.rpl_syntax.specs.View.{expr_of, exprs_all, listed};

use crate::NoMemory;
use crate::name::QName;
use rpl_classes::Set;
use rpl_text::Chars;
use std::alloc::Global;

/// The sign of a predicate.
///
/// # Examples
///
/// ```
/// use rpl_syntax::{Expr, Sign, print_expr};
/// let not_any = Expr::Prefix(Sign::Not, Box::new(alloc, Expr::Any)?);
/// assert!(rt; print_expr(alloc, &not_any)?.as_str() == "!.");
/// let ends_here = Expr::Prefix(Sign::Behind, Box::new(alloc, Expr::Any)?);
/// assert!(rt; print_expr(alloc, &ends_here)?.as_str() == "<.");
/// ```
#[derive(Clone, Copy, Debug)]
pub enum Sign {
    /// `!`: the item does not match here.
    Not,
    /// `>`: the item matches here.
    Ahead,
    /// `<`: a match of the item ends here.
    Behind,
}

/// The role of a stretch of text in a search.
///
/// # Examples
///
/// ```
/// use rpl_syntax::{Expr, Mark, print_expr};
/// let hit = Expr::Marked(Mark::Hit, Box::new(alloc, Expr::Any)?);
/// assert!(rt; matches!(hit.copy(alloc)?, Expr::Marked(Mark::Hit, _)));
/// assert!(rt; print_expr(alloc, &hit)?.as_str() == ".");
/// ```
#[derive(Clone, Copy, Debug)]
pub enum Mark {
    /// The text that was searched for.
    Hit,
    /// The text that was skipped.
    Skip,
}

/// A list of expressions: the items of a group or the parts of a choice.
///
/// # Examples
///
/// ```
/// use rpl_syntax::{Expr, Exprs};
/// let mut items = Exprs::new(alloc);
/// items.push(Expr::Start)?;
/// items.push(Expr::Any)?;
/// assert!(rt; items.len() == 2 && matches!(items.get(1), Some(Expr::Any)));
/// ```
#[cycle(expr)]
#[derive(Debug, Drop)]
pub struct Exprs {
    pub(crate) items: Vec<Expr>,
}

/// An expression as written, as defined in `specs/Expression.antt`.
///
/// # Examples
///
/// ```
/// use rpl_syntax::{Expr, Exprs, print_expr};
/// let mut items = Exprs::new(alloc);
/// items.push(Expr::Start)?;
/// items.push(Expr::Repeat {
///     body: Box::new(alloc, Expr::Any)?,
///     least: 2,
///     most: Some(4),
/// })?;
/// assert!(rt; print_expr(alloc, &Expr::Raw(items))?.as_str() == "{^ .{2,4}}");
/// ```
#[cycle(expr)]
#[derive(Debug, Drop)]
pub enum Expr {
    /// These characters, one after the other.
    Text(Chars),
    /// One character that is in the set, or that is not in it if `negated` is true.
    Class {
        set: Set,
        negated: bool,
    },
    /// Any one character: `.`.
    Any,
    /// The start of the input: `^`.
    Start,
    /// The end of the input: `$`.
    End,
    /// The boundary between two words: `~`.
    Boundary,
    /// The expression that the name is bound to.
    Name(QName),
    /// The items one after the other, with the boundary between them: `( )`.
    Cooked(Exprs),
    /// The items one after the other: `{ }`.
    Raw(Exprs),
    /// The first part that matches, out of two or more: `/`.
    Choice(Exprs),
    /// The second expression, if the first matches here too: `&`.
    Both(Box<Expr>, Box<Expr>),
    /// A predicate, which consumes nothing.
    Prefix(Sign, Box<Expr>),
    /// The body repeated from `least` to `most` times, or `least` or more times if there is no
    /// `most`.
    Repeat {
        body: Box<Expr>,
        least: u32,
        most: Option<u32>,
    },
    /// A macro applied to its argument.
    Macro {
        name: QName,
        arg: Box<Expr>,
    },
    /// An expression whose matched text has this role in a search. Only macros create such
    /// expressions.
    Marked(Mark, Box<Expr>),
    /// A message at this point. Only macros create it.
    Note(Chars),
}

impl Exprs {
    /// Returns an empty list. Does not allocate.
    pub fn new(alloc: Global) -> Exprs
        ensures { listed result ≡ [] }
    {
        Exprs {
            items: Vec::new(alloc),
        }
    }

    /// Appends an expression. If memory runs out, the list is unchanged.
    pub fn push(&mut self, item: Expr) -> Result<(), NoMemory>
        ensures ok { OnOk result (listed self.new ≡ listed self.old ++ item ∷ []) }
        ensures err { OnErr result (listed self.new ≡ listed self.old) }
    {
        self.items.push(item)?;
        Ok(())
    }

    /// Returns the expressions as a `Vec` without copying them.
    pub fn into_vec(self) -> Vec<Expr>
        ensures { result.items ≡ listed self }
    {
        self.items
    }

    /// Returns the number of expressions.
    pub fn len(&self) -> usize
        ensures { result ≡ length (listed self.now) }
    {
        self.items.len()
    }

    /// Returns the expression at an index, counted from 0.
    pub fn get(&self, index: usize) -> Option<&Expr>
        ensures { option_copied result ≡ slice_get (listed self.now) index }
    {
        self.items.get(index)
    }

    /// Returns all expressions as a slice.
    pub fn as_slice(&self) -> &[Expr]
        ensures { result.now ≡ listed self.now }
    {
        &self.items
    }

    /// Returns a copy of the list.
    #[cycle(copy)]
    pub fn copy(&self, alloc: Global) -> Result<Exprs, NoMemory>
        ensures { IfOk result (λ ps. exprs_all (listed ps) ≡ exprs_all (listed self.now)) }
    {
        let mut copies = Exprs::new(alloc);
        for part in &self.items {
            copies.push(part.copy(alloc)?)?;
        }
        Ok(copies)
    }
}

/// Returns a box with a copy of the expression.
#[cycle(copy)]
fn boxed(alloc: Global, body: &Expr) -> Result<Box<Expr>, NoMemory>
    ensures { IfOk result (λ b. expr_of b.value ≡ expr_of body.now) }
{
    let copy = body.copy(alloc)?;
    Ok(Box::new(alloc, copy)?)
}

impl Expr {
    /// Returns a copy of the expression.
    #[cycle(copy)]
    pub fn copy(&self, alloc: Global) -> Result<Expr, NoMemory>
        ensures { IfOk result (λ e. expr_of e ≡ expr_of self.now) }
    {
        match self {
            Expr::Text(text) => Ok(Expr::Text(text.copy(alloc)?)),
            Expr::Class { set, negated } => Ok(Expr::Class {
                set: set.copy(alloc)?,
                negated: *negated,
            }),
            Expr::Any => Ok(Expr::Any),
            Expr::Start => Ok(Expr::Start),
            Expr::End => Ok(Expr::End),
            Expr::Boundary => Ok(Expr::Boundary),
            Expr::Name(name) => Ok(Expr::Name(name.copy(alloc)?)),
            Expr::Cooked(items) => Ok(Expr::Cooked(items.copy(alloc)?)),
            Expr::Raw(items) => Ok(Expr::Raw(items.copy(alloc)?)),
            Expr::Choice(parts) => Ok(Expr::Choice(parts.copy(alloc)?)),
            Expr::Both(first, second) => {
                Ok(Expr::Both(boxed(alloc, first)?, boxed(alloc, second)?))
            }
            Expr::Prefix(sign, item) => Ok(Expr::Prefix(*sign, boxed(alloc, item)?)),
            Expr::Repeat { body, least, most } => Ok(Expr::Repeat {
                body: boxed(alloc, body)?,
                least: *least,
                most: *most,
            }),
            Expr::Macro { name, arg } => Ok(Expr::Macro {
                name: name.copy(alloc)?,
                arg: boxed(alloc, arg)?,
            }),
            Expr::Marked(mark, body) => Ok(Expr::Marked(*mark, boxed(alloc, body)?)),
            Expr::Note(text) => Ok(Expr::Note(text.copy(alloc)?)),
        }
    }
}

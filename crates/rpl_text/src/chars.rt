// An owned text whose copies share one string.
ghost use Rattle.std.specs.Prelude.{◌≡◌, [], IfOk, chars};

use crate::NoMemory;
use std::alloc::Global;
use std::marker::Model;
use std::rc::Rc;

/// The storage of the characters.
#[derive(Debug, Drop)]
enum Held {
    /// The empty text, which takes no memory.
    Nothing,
    /// The string that the text shares with its copies.
    Shared(Rc<String>),
}

/// An owned text. Contracts see it as the list of its characters.
///
/// A text and its copies share one string in memory.
///
/// # Examples
///
/// ```
/// use rpl_text::Chars;
/// let name = Chars::from_str(alloc, "day")?;
/// let again = name.copy(alloc)?;
/// assert!(rt; again.as_str() == "day" && Chars::empty(alloc).as_str() == "");
/// ```
#[derive(Debug, Drop)]
pub struct Chars {
    text: Held,
}

impl Model for Chars {
    ghost use Rattle.std.specs.Prelude.{ℕ, List};
    ghost use Rattle.rpl_text.specs.inside.Held.{held};

    ghost Value = { List ℕ };

    ghost view = { λ c. held c.text };
}

impl Chars {
    /// Returns the empty text. Does not allocate.
    pub fn empty(_alloc: Global) -> Chars
        ensures { result ≡ [] }
    {
        Chars {
            text: Held::Nothing,
        }
    }

    /// Copies a string into a new text.
    pub fn from_str(alloc: Global, text: &str) -> Result<Chars, NoMemory>
        ensures { IfOk result (λ c. c ≡ chars text.now) }
    {
        let text = String::from_str(alloc, text)?;
        match Rc::new(alloc, text) {
            Ok(text) => Ok(Chars {
                text: Held::Shared(text),
            }),
            Err(_) => Err(NoMemory),
        }
    }

    /// Returns the text as a string slice.
    #[inline]
    pub fn as_str(&self) -> &str
        ensures { chars result.now ≡ self.now }
    {
        match &self.text {
            Held::Nothing => "",
            Held::Shared(text) => text.as_str(),
        }
    }

    /// Returns another handle to this text. Allocates only if the reference count of the string is
    /// already at its maximum.
    pub fn copy(&self, alloc: Global) -> Result<Chars, NoMemory>
        ensures { IfOk result (λ c. c ≡ self.now) }
    {
        let Held::Shared(text) = &self.text else {
            return Ok(Chars::empty(alloc));
        };
        match text.clone() {
            Ok(text) => Ok(Chars {
                text: Held::Shared(text),
            }),
            Err(_) => Chars::from_str(alloc, text),
        }
    }
}

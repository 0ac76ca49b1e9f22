// Keywords.
ghost use Rattle.std.specs.Prelude.{◌≡◌, ◌≢◌, MatchOption};
ghost use Rattle.rpl_lexer.specs.Keywords.{word_of, keyword_named};
ghost use Rattle.rpl_lexer.specs.declared.keyword.Keyword.{Keyword};

/// A word that is reserved for the grammar and cannot be a name.
///
/// # Examples
///
/// ```
/// use rpl_lexer::{Keyword, keyword_of, lex};
/// let text = "alias";
/// let tokens = lex(alloc, text)?;
/// assert!(rt; keyword_of(text, tokens.as_slice()[0]) == Keyword::Alias);
/// ```
#[derive(Clone, Copy, Debug, PartialEq, Eq)]
pub enum Keyword {
    Rpl,
    Package,
    Import,
    As,
    Alias,
    Local,
    Grammar,
    In,
    End,
}

impl Keyword {
    /// Returns the keyword that a name spells, if it spells one.
    pub(crate) fn from_name(name: &[u8]) -> Option<Keyword>
        ensures { MatchOption result ((k : Keyword) →
            word_of k ≢ name.now) (λ k. word_of k ≡ name.now) }
    {
        match name {
            b"rpl" => Some(Keyword::Rpl),
            b"package" => Some(Keyword::Package),
            b"import" => Some(Keyword::Import),
            b"as" => Some(Keyword::As),
            b"alias" => Some(Keyword::Alias),
            b"local" => Some(Keyword::Local),
            b"grammar" => Some(Keyword::Grammar),
            b"in" => Some(Keyword::In),
            b"end" => Some(Keyword::End),
            _ => None,
        }
    }
}

/// Returns the keyword that a name spells, if it spells one.
pub(crate) fn keyword_named(name: &[u8]) -> Option<Keyword>
    ensures { result ≡ keyword_named name.now }
{
    Keyword::from_name(name)
}

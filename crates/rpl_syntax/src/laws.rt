// Laws of the grammar, of texts and of printing.
ghost use Rattle.std.specs.Prelude.{◌≡◌, ℕ, List, [], Some, IsUtf8};
ghost use Rattle.rpl_syntax.specs.Expression as M;
ghost use Rattle.rpl_syntax.specs.Grammar.{Reads, spell_exp};
ghost use Rattle.rpl_syntax.specs.Printed.{printed};
ghost use Rattle.rpl_syntax.specs.Braces.{again, plain};
ghost use Rattle.rpl_syntax.specs.Readable.{Good};
ghost use Rattle.rpl_syntax.specs.Trees.{exp_tree};
ghost use Rattle.rpl_syntax.specs.Reading.{read};
ghost use Rattle.rpl_syntax.specs.Texts.{IsReadAs, ReadsAsItself, ReadsBack, HasFewTokens};
ghost use Rattle.rpl_syntax.specs.Texts.{Writable};
ghost use Rattle.rpl_syntax.specs.Writing.{write_exp};
ghost use Rattle.rpl_syntax.specs.declared.token.Token.{Token};

/// No sequence of tokens spells two different expressions, and reading a sequence from left to
/// right finds the expression that it spells.
pub fn one_reading()
    ensures only { (p : List Token) (x y : M.Expr) → Reads p x → Reads p y → x ≡ y }
    ensures read { (p : List Token) (x : M.Expr) → Reads p x → read p ≡ Some x }
    ensures spelled { (p : List Token) (x : M.Expr) → read p ≡ Some x → Reads p x }
{}

/// If a sequence of tokens spells an expression, the tokens of the printed expression spell the
/// same expression with added braces: a choice or an `&` that is an item becomes a raw group of one
/// item, and so does any body that a quantifier cannot follow directly. Apart from the byte offsets
/// of names, nothing else changes.
pub fn reads_back()
    ensures { (p : List Token) (x : M.Expr) → Reads p x →
        (y : M.Expr) × Reads (spell_exp (exp_tree x) []) y × (plain y ≡ plain (again x)) }
{}

/// If an expression has a form that tokens can spell, its printed text consists of the texts of its
/// tokens in order, with spaces between the items of a sequence and around `/` and `&`.
pub fn prints_tree()
    ensures { (x : M.Expr) → Good x → printed x ≡ write_exp (exp_tree x) [] }
{}

/// A text is read as at most one expression, and each expression that results from reading a UTF-8
/// text can be written.
pub fn readings_of_texts()
    ensures only { (s : List ℕ) (x y : M.Expr) → IsReadAs s x → IsReadAs s y → x ≡ y }
    ensures writable { (s : List ℕ) (x : M.Expr) → IsUtf8 s → IsReadAs s x → Good x × Writable x }
{}

/// If an expression can be written, and its printed text has at most 262,144 tokens, the printed
/// text is read as that expression with the braces that printing adds. Apart from these braces,
/// only the byte offsets of names change.
pub fn printed_reads_back()
    ensures { (x : M.Expr) → Good x → Writable x → HasFewTokens x → ReadsBack x }
{}

/// If a UTF-8 text is read as an expression, and the printed text of that expression has at most
/// 262,144 tokens, the printed text is read as the same expression. Two expressions count as the
/// same here if they differ only in the byte offsets of names and in raw groups of one item. The
/// law also holds for any expression that can be written and whose printed text has at most 262,144
/// tokens.
pub fn printed_reads_as_itself()
    ensures read { (s : List ℕ) (x : M.Expr) → IsUtf8 s → IsReadAs s x → HasFewTokens x →
        ReadsAsItself x }
    ensures written { (x : M.Expr) → Good x → Writable x → HasFewTokens x → ReadsAsItself x }
{}

// Laws of patterns, of the grammar of statements and of modules.
ghost use Rattle.std.specs.Prelude.{◌≡◌, ◌⊎◌, ℕ, List, Some, None, Ok, Err, IsUtf8};
ghost use Rattle.rpl_lexer.specs.Cut.{IsCut};
ghost use Rattle.rpl_lexer.specs.declared.token.Token.{Token as Lexeme};
ghost use Rattle.rpl_syntax.specs.Expression.{Expr};
ghost use Rattle.rpl_syntax.specs.Modules.{ParsedModule};
ghost use Rattle.rpl_syntax.specs.Texts.{IsReadAs, HasFewTokens};
ghost use Rattle.rpl_syntax.specs.declared.token.Token.{Token};
ghost use Rattle.rpl_parser.specs.Bodies.{BodiesWritten};
ghost use Rattle.rpl_parser.specs.Levels.{ground_level, too_deep};
ghost use Rattle.rpl_parser.specs.Lines.{line_of};
ghost use Rattle.rpl_parser.specs.ModuleFaults.{IsModuleFault};
ghost use Rattle.rpl_parser.specs.Order.{ReadsModule, IsModule};
ghost use Rattle.rpl_parser.specs.Patterns.{IsPattern, IsPatternFault};
ghost use Rattle.rpl_parser.specs.Printing.{IsPrintedAgain};
ghost use Rattle.rpl_parser.specs.Spelling as S;
ghost use Rattle.rpl_parser.specs.Spelling.{Spells};
ghost use Rattle.rpl_parser.specs.Walks.{module_of};
ghost use Rattle.rpl_parser.specs.declared.fault.ParseFault.{ParseFault};

/// Reading the tokens of a text as a pattern has exactly one outcome: either an expression or a
/// fault.
pub fn one_pattern()
    ensures either { (s : List ℕ) (ts : List Lexeme) →
        ((x : Expr) × IsPattern s ts x) ⊎ ((f : ParseFault) × IsPatternFault s ts f) }
    ensures only { (s : List ℕ) (ts : List Lexeme) (x y : Expr) → IsPattern s ts x →
        IsPattern s ts y → x ≡ y }
    ensures apart { (s : List ℕ) (ts : List Lexeme) (x : Expr) (f : ParseFault) →
        IsPattern s ts x → IsPatternFault s ts f → ⊥ }
    ensures first { (s : List ℕ) (ts : List Lexeme) (f g : ParseFault) →
        IsPatternFault s ts f → IsPatternFault s ts g → f ≡ g }
{}

/// If an expression is the pattern of a text, the text is read as that expression. Conversely, if a
/// text is read as an expression and is not nested too deeply, that expression is the pattern of
/// the text.
pub fn patterns_are_readings()
    ensures read { (s : List ℕ) (ts : List Lexeme) (x : Expr) → IsCut s ts → IsPattern s ts x →
        IsReadAs s x }
    ensures pattern { (s : List ℕ) (ts : List Lexeme) (x : Expr) →
        IsCut s ts → too_deep s ground_level ts ≡ None → IsReadAs s x → IsPattern s ts x }
{}

/// If a pattern is read from a UTF-8 text, the printed form of that pattern is parsed as the same
/// pattern plus the braces that printing adds, unless the printed form has more than 262,144 tokens
/// or is nested too deeply. Apart from the added braces, the two patterns can differ only in the
/// byte offsets of names.
pub fn printed_again()
    ensures { (s : List ℕ) (ts : List Lexeme) (x : Expr) →
        IsUtf8 s → IsCut s ts → IsPattern s ts x → HasFewTokens x → IsPrintedAgain x }
{}

/// If a module is read from a UTF-8 text, the body of each of its rules is an expression that can
/// be written as text.
pub fn bodies_can_be_written()
    ensures { (s : List ℕ) (ts : List Lexeme) (m : ParsedModule) →
        IsUtf8 s → IsCut s ts → IsModule s ts m → BodiesWritten m.items }
{}

/// No sequence of tokens spells two different statements. Reading the tokens from left to right
/// finds the statement that they spell, if there is one.
pub fn one_line()
    ensures only { (p : List Token) (l m : S.Line) → Spells p l → Spells p m → l ≡ m }
    ensures read { (p : List Token) (l : S.Line) → Spells p l → line_of p ≡ Some l }
    ensures spelled { (p : List Token) (l : S.Line) → line_of p ≡ Some l → Spells p l }
{}

/// The tokens of a text never spell two different modules. The tokens either form a module or have
/// a first fault. Reading the statements one by one returns the module that the tokens form or, if
/// the tokens form none, their first fault.
pub fn one_module()
    ensures either { (s : List ℕ) (ts : List Lexeme) →
        ((m : ParsedModule) × IsModule s ts m) ⊎ ((f : ParseFault) × IsModuleFault s ts f) }
    ensures only { (s : List ℕ) (ts : List Lexeme) (m n : ParsedModule) → ReadsModule s ts m →
        ReadsModule s ts n
        → m ≡ n }
    ensures reads { (s : List ℕ) (ts : List Lexeme) (m : ParsedModule) → IsModule s ts m →
        ReadsModule s ts m }
    ensures read { (s : List ℕ) (ts : List Lexeme) (m : ParsedModule) → IsModule s ts m →
        module_of s ts ≡ Ok m }
    ensures spelled { (s : List ℕ) (ts : List Lexeme) (m : ParsedModule) → module_of s ts ≡ Ok m →
        IsModule s ts m }
    ensures refused { (s : List ℕ) (ts : List Lexeme) (f : ParseFault) →
        IsModuleFault s ts f → module_of s ts ≡ Err f }
    ensures faulty { (s : List ℕ) (ts : List Lexeme) (f : ParseFault) →
        module_of s ts ≡ Err f → IsModuleFault s ts f }
{}

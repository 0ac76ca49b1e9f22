// Laws of the definitions, independent of any code.
ghost use Rattle.rpl_lexer.specs.Laws.{CutOrFault, CutComputes, FaultComputes, CutFound};
ghost use Rattle.rpl_lexer.specs.Laws.{FaultFound, OneCut};
ghost use Rattle.rpl_lexer.specs.Laws.{TokensStand, BetweenCharacters, LongestForm, NoForm};
ghost use Rattle.rpl_lexer.specs.Laws.{KeywordsTold, SignsTold};
ghost use Rattle.rpl_lexer.specs.Laws.{WrittenReadsBack, BracketStands, BoundsReadBack};
ghost use Rattle.rpl_lexer.specs.Laws.{BoundsAreWritten};
ghost use Rattle.rpl_lexer.specs.Laws.{BracketsAreWritten, TextsAreWritten, BoundsSay, TextStands};
ghost use Rattle.rpl_lexer.specs.Laws.{BoundsStand};
ghost use Rattle.rpl_lexer.specs.Laws.{WideBoundsFail, TextForm, BracketForm, BoundsForm};

/// Each text has either exactly one cut, or exactly one first fault with exactly one list of tokens
/// before it.
pub fn one_cut()
    ensures one { OneCut }
    ensures either { CutOrFault }
{}

/// Each token of a cut is nonempty, lies inside the text, and has the kind and the length that the
/// definition `stands` assigns to the bytes from its start on.
pub fn tokens_stand()
    ensures { TokensStand }
{}

/// In a UTF-8 text, each token begins and ends on character boundaries.
pub fn boundaries()
    ensures { BetweenCharacters }
{}

/// The token at a point is the longest of all forms that fit there, and no form of another kind
/// that fits there has the same length.
pub fn longest_form()
    ensures { LongestForm }
{}

/// Where there is a fault, no form fits, unless the fault is that a number is too wide.
pub fn no_form()
    ensures { NoForm }
{}

/// Each Keyword token spells a keyword, and each Sign token spells a sign. So `keyword_of` and
/// `punct_of` never return a default for such tokens.
pub fn words_and_signs()
    ensures keywords { KeywordsTold }
    ensures signs { SignsTold }
{}

/// Characters and escapes between quotes form one Text token, no matter what follows, and are read
/// as the characters that they denote. In the same way, a bracket forms one Bracket token, and
/// bounds between braces form one Bounds token if they begin with a number, contain no blanks, and
/// their numbers fit in 64 bits.
pub fn written_reads_back()
    ensures texts { WrittenReadsBack }
    ensures brackets { BracketStands }
    ensures bounds { BoundsReadBack }
{}

/// Each Text, Bracket and Bounds token is written as its kind requires, and the numbers of a Bounds
/// token are those written in it.
pub fn stood_as_written()
    ensures texts { TextsAreWritten }
    ensures brackets { BracketsAreWritten }
    ensures bounds { BoundsAreWritten }
    ensures said { BoundsSay }
{}

/// Anything that is written as a text, as a bracket or as bounds is one token of that kind, no
/// matter what follows, except that a number that is too wide is a fault. Together with
/// `stood_as_written`, this defines which texts are tokens of each of the three kinds, without
/// reference to the scanner.
pub fn written_stands()
    ensures texts { TextStands }
    ensures brackets { BracketStands }
    ensures bounds { BoundsStand }
    ensures wide { WideBoundsFail }
{}

/// Bytes have the form of a text exactly when they are written as a text; the same holds for
/// brackets and bounds. Among the forms that fit at a point, the longest becomes the token.
pub fn forms_are_written()
    ensures texts { TextForm }
    ensures brackets { BracketForm }
    ensures bounds { BoundsForm }
{}

/// The cut of a text can be computed by a function, which returns the tokens if the text has no
/// fault, and the first fault otherwise.
pub fn cut_computes()
    ensures cuts { CutComputes }
    ensures fails { FaultComputes }
    ensures cut { CutFound }
    ensures fault { FaultFound }
{}

// The messages for faults.
ghost use Rattle.std.specs.Prelude.{◌≡◌};
ghost use Rattle.rosie_prepare.specs.Texts as T;
ghost use Rattle.rpl_check.specs.Answers.{cause_named};

use rpl_check::BehindCause;
use rpl_classes::SetFault;
use rpl_lexer::LexKind;
use rpl_package::MacroFault;
use rpl_parser::ParseKind;

/// Returns the message for a text that can't be split into tokens.
pub(crate) fn lex_text(kind: LexKind) -> &'static str
    ensures { result.now ≡ T.lex_text kind }
{
    match kind {
        LexKind::NoMemory => "",
        LexKind::BadChar => "bad character",
        LexKind::OpenText => "text without end",
        LexKind::BadEscape => "bad escape",
        LexKind::NumberTooWide => "number too wide",
        LexKind::TooManyTokens => "too many tokens",
    }
}

/// Returns the message for brackets that don't form a set.
fn set_text(fault: SetFault) -> &'static str
    ensures { result.now ≡ T.set_text fault }
{
    match fault {
        SetFault::NoMemory => "",
        SetFault::UnknownClass { .. } => "unknown class",
        SetFault::BadRange { .. } => "bad range",
        SetFault::BadSet { .. } => "bad set",
    }
}

/// Returns the message for tokens that can't be parsed.
pub(crate) fn parse_text(kind: ParseKind) -> &'static str
    ensures { result.now ≡ T.parse_text kind }
{
    match kind {
        ParseKind::NoMemory => "",
        ParseKind::TooDeep => "nested too deep",
        ParseKind::Syntax => "syntax",
        ParseKind::BadBounds { .. } => "bad bounds",
        ParseKind::Class(fault) => set_text(fault),
        ParseKind::Version => "version",
    }
}

/// Returns the message for an invalid use of a macro. The caller appends the macro's name.
pub(crate) fn macro_text(fault: MacroFault) -> &'static str
    ensures { result.now ≡ T.macro_text fault }
{
    match fault {
        MacroFault::UnknownMacro => "unknown macro: ",
        MacroFault::BadArguments => "bad arguments: ",
    }
}

/// Returns the message that says why a look-behind is invalid.
pub(crate) fn cause_text(cause: BehindCause) -> &'static str
    ensures { result.now ≡ T.cause_text (cause_named cause) }
{
    match cause {
        BehindCause::Recursive => "recursive",
        BehindCause::Repetition => "repetition",
        BehindCause::TooLong => "too long",
    }
}

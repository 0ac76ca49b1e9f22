// Splitting a text into tokens.
ghost use Rattle.std.specs.Prelude.{◌≡◌, ◌≢◌, IfOk, IfErr};
ghost use Rattle.rpl_lexer.specs.Cut.{IsCut, FailsAt};
ghost use Rattle.rpl_lexer.specs.declared.fault.LexKind.TheVariants.{NoMemory as OutOfMemory};

use crate::bytes::behind;
use crate::fault::{LexFault, LexKind};
use crate::front::{Stand, front};
use crate::gaps::gap_len;
use crate::token::{Token, Tokens};
use std::alloc::Global;

/// The greatest number of tokens that a text can have.
const MAX_TOKENS: usize = 262_144;

/// Splits a text into tokens, or returns its first fault.
///
/// At each point, the longest token is taken; blanks and comments separate tokens. If no token
/// begins at a point, the fault states the reason. `BadChar` and `OpenText` carry the offset of the
/// point where no token begins, `BadEscape` that of the backslash, and `NumberTooWide` that of the
/// number's first digit. `TooManyTokens` carries the offset of the 262,145th token, unless that
/// token has a fault of its own. The running time is linear in the length of the text.
pub fn lex(alloc: Global, text: &str) -> Result<Tokens, LexFault>
    ensures tokens { IfOk result (λ ts. IsCut text.now ts) }
    ensures fault { IfErr result (λ f. f.kind ≢ OutOfMemory → FailsAt text.now f.at f.kind) }
    ensures memory { IfErr result (λ f. f.kind ≡ OutOfMemory → f.at ≡ 0) }
{
    let bytes = text.as_bytes();
    let mut items = Vec::new(alloc);
    let mut at = 0;
    loop {
        let start = at + gap_len(behind(bytes, at));
        if start == bytes.len() {
            return Ok(Tokens::from_vec(items));
        }
        match front(behind(bytes, start)) {
            Stand::Fault { kind, skip } => {
                return Err(LexFault {
                    at: start + skip,
                    kind,
                });
            }
            Stand::Found { kind, len } => {
                if items.len() >= MAX_TOKENS {
                    return Err(LexFault {
                        at: start,
                        kind: LexKind::TooManyTokens,
                    });
                }
                let end = start + len;
                items.push(Token { kind, start, end })?;
                at = end;
            }
        }
    }
}

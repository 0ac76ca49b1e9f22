//! The tokens of RPL text: their kinds, where each begins and ends, and what it spells.
//!
//! The parser reads these tokens and never the text itself. [`lex`] splits a whole text into
//! tokens, or returns the first fault and the byte offset of that fault. The list of all tokens of
//! a text is called its *cut*. The cut is defined as a relation on spans; each text has either
//! exactly one cut or a first fault. A token is a kind and two byte offsets, both on character
//! boundaries. The other functions return what a token of the text spells. The only other failure
//! is running out of memory.
#![tactic(auto)]

mod bounds;
mod bytes;
mod cut;
mod enclosed;
mod fault;
mod front;
mod gaps;
mod keyword;
mod laws;
mod payload;
mod punct;
mod token;

pub use bounds::Bounds;
pub use cut::lex;
pub use fault::{LexFault, LexKind};
pub use keyword::Keyword;
pub use laws::{
    boundaries, cut_computes, forms_are_written, longest_form, no_form, one_cut, stood_as_written,
    tokens_stand, words_and_signs, written_reads_back, written_stands,
};
pub use payload::{
    bounds_of, decode_text, halves_of, keyword_of, nesting_of, number_of, punct_of, token_text,
};
pub use punct::Punct;
pub use rpl_text::NoMemory;
pub use token::{Token, TokenKind, Tokens};

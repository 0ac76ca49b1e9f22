//! Writes the text of an answer in each style, for commands that print answers.
//!
//! [`AnswerText::fill`] and [`encode`] produce exactly the text that the definition requires.
//! Depending on the style, a match is printed as JSON, as the whole line, as texts (those of the
//! hits, those of the nodes directly below the root, or that of the root), or as `true`. For a line
//! that doesn't match, `false` or nothing is printed, depending on the style. An answer of more
//! than 67,108,864 bytes is refused. If an error occurs, the previous text is kept. An `AnswerText`
//! is reused from line to line, and allocates nothing once it has grown large enough. [`Fronts`]
//! are built once per program.
//!
//! [`AnswerText::fill_match`] produces the text of a match from its captures. Only JSON needs the
//! trees of the captures; the texts are written from the captures themselves.
#![tactic(auto)]

mod answer;
mod captured;
mod children;
mod escapes;
mod fault;
mod front;
mod node_text;
mod page;
mod source;
mod style;
mod tree;

pub use answer::{AnswerText, encode};
pub use fault::EncodeFault;
pub use front::Fronts;
pub use style::Style;

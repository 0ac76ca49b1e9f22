//! Unit tests in the comments of a file, and their verdicts.
//!
//! The command `test` uses this crate. [`read_tests`] returns exactly the tests in the test
//! comments of a file, one for each text, or the line number of the first malformed test comment.
//! [`judge`] decides from the match of a test's text whether the test passes, and [`failed_line`]
//! and [`counts_line`] return the lines that are printed for tests. The crate itself runs no
//! pattern: the caller finds the rule that the test names, and runs that rule.
#![tactic(auto)]

mod comment;
mod laws;
mod lines;
mod question;
mod reader;
mod said;
mod test;
mod verdict;
mod word;

pub use laws::{built_as_one_tree, one_answer};
pub use lines::{counts_line, failed_line};
pub use reader::{TestFault, read_tests};
pub use rpl_lexer::NoMemory;
pub use test::{Test, Tests, Verb};
pub use verdict::judge;

// Reads the tests in a text.
ghost use Rattle.std.specs.Prelude.{◌≡◌, ◌≤◌, IfOk, IfErr, encode_utf8_all, length};
ghost use Rattle.std.specs.List.{All};
ghost use Rattle.rpl_unittest.specs.Comments.{HasTests};
ghost use Rattle.rpl_unittest.specs.Faults.{IsFault};

use crate::comment::comment_in;
use crate::said::push_comment;
use crate::test::Tests;
use rpl_lexer::NoMemory;
use std::alloc::Global;
use thiserror::Error;

/// The reason why the tests of a text could not be read.
#[derive(Clone, Copy, Debug, PartialEq, Eq, Error)]
pub enum TestFault {
    /// There is not enough memory.
    #[error("out of memory")]
    NoMemory,
    /// A test comment is malformed.
    #[error("bad comment of tests in line {line}")]
    BadTest {
        /// The line of the comment, counted from 1.
        line: u64,
    },
}

impl From<NoMemory> for TestFault {
    ghost use Rattle.rpl_unittest.specs.declared.reader.TestFault.TheVariants.{NoMemory};

    ghost from_gives = { λ _ e. e ≡ NoMemory };

    fn from(_cause: NoMemory) -> TestFault {
        TestFault::NoMemory
    }
}

/// Reads the tests in a text. If a test comment is malformed, returns an error with the line number
/// of the first such comment.
///
/// A line is a test comment if its first characters, apart from spaces and tabs, are `--`, and the
/// next word is `test`, followed by a space or a tab. In a well-formed test comment, the dashes are
/// followed by `test`, an optional `local`, a name, a verb, and one or more quoted texts that are
/// separated by commas. The verb is `accepts`, `rejects`, `includes` or `excludes`; after
/// `includes` and `excludes`, the name of a part follows the verb.
pub fn read_tests(alloc: Global, text: &str) -> Result<Tests, TestFault>
    ensures tests { IfOk result (HasTests text.now) }
    ensures short { IfOk result (λ tests. All (λ t. length (encode_utf8_all t.text)
        ≤ length text.now) tests) }
    ensures bad { IfErr result (IsFault text.now) }
{
    let mut tests = Tests::new(alloc);
    let mut number = 0;
    for line in text.split('\n') {
        number += 1;
        match comment_in(line) {
            None => {}
            Some(rest) => {
                if !push_comment(alloc, &mut tests, number, rest)? {
                    return Err(TestFault::BadTest { line: number });
                }
            }
        }
    }
    Ok(tests)
}

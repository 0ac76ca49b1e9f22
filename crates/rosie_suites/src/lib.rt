//! Runs the unit tests of a file, each with the rule that it tests, and reports the tests that
//! fail.
//!
//! The crate serves the command `test`. [`load_suite`] loads the file as the only root, reads its
//! test comments, and finds, for each test, the rule with the test's name in the file's own module.
//! [`Suite::run`] runs the tests one after the other, writes a line for each one that fails, and
//! ends with the counts. `specs/Suites.antt` defines the result of loading a file,
//! `specs/Trials.antt` defines the output, and `specs/Limits.antt` defines when a test may exceed
//! its budget.
#![tactic(auto)]

mod goal;
mod laws;
mod loading;
mod reading;
mod run;
mod subject;
mod suite;
mod telling;
mod tester;
mod trial;
mod verdict;

pub use laws::{one_suite, texts_law};
pub use loading::load_suite;
pub use suite::Suite;
pub use verdict::Verdict;

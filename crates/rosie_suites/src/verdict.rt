// The verdict on a test.

/// The verdict on a test.
#[derive(Clone, Copy, Debug, PartialEq, Eq)]
pub enum Verdict {
    /// The test passes.
    Met,
    /// The test fails.
    Unmet,
    /// The test exceeds its budget.
    Spent,
    /// The answer to the test's text is too long.
    LongAnswer,
    /// The code of the test's goal is too long.
    LongCode,
}

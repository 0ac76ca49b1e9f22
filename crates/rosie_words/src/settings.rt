//! The settings for reading and reporting lines.

use rpl_encode::Style;

/// The settings that apply to every line. The pattern is not one of them.
///
/// # Examples
///
/// ```
/// use rosie_words::read_words;
/// use rpl_encode::Style;
/// let mut words = Vec::new(alloc);
/// for word in ["grep", "--budget", "90", "-a", "day"] {
///     words.push(String::from_str(alloc, word)?)?;
/// }
/// let settings = read_words(alloc, &words)?.settings;
/// assert!(rt; settings.style == Style::Line && settings.all && !settings.steps);
/// assert!(rt; settings.budget == Some(90));
/// ```
#[derive(Clone, Copy, Debug)]
pub struct Settings {
    /// The form in which an answer is printed, from `-o`; by default `Line` for `grep` and `Json`
    /// otherwise.
    pub style: Style,
    /// `-w`: the whole input is one line.
    pub whole: bool,
    /// `-a`: a line that doesn't match is written to `err`.
    pub all: bool,
    /// `--steps`: the number of steps for a line is written to `err`.
    pub steps: bool,
    /// `--budget`: the most machine steps that a line may take, if a budget is given.
    pub budget: Option<u64>,
}

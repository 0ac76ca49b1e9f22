// Laws that follow from the definitions alone.
ghost use Rattle.rosie_columns_cli.specs.Piped.{Piped};

/// Proves that, if each place in a match is below 2^64 - 1 and `rosie match` prints the match as
/// one line, the output of `rosie-columns` for that line is the row of the first tree of the match.
pub fn piped()
    ensures { Piped }
{}

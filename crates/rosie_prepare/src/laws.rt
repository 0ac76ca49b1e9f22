// The laws of preparation.
ghost use Rattle.rosie_prepare.specs.Laws.{OnePreparation, OneReading, OneTable};
ghost use Rattle.rosie_prepare.specs.Laws.{SomePreparation, SomeReading, SomeTable};

/// Proves that, for every tree of files, preparing a request has exactly one result.
pub fn one_preparation()
    ensures some { SomePreparation }
    ensures only { OnePreparation }
{}

/// Proves that reading the text of a pattern has exactly one result: an expression, or the first
/// fault.
pub fn one_reading()
    ensures some { SomeReading }
    ensures only { OneReading }
{}

/// Proves that, for every tree of files, preparing roots without a pattern has exactly one result.
pub fn one_table()
    ensures some { SomeTable }
    ensures only { OneTable }
{}

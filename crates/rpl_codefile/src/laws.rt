// Laws about all spellings. They follow from the definitions alone.
ghost use Rattle.rpl_codefile.specs.Compiled.{CompiledCanBeSpelled};
ghost use Rattle.rpl_codefile.specs.Laws.{HasSpelling, OneReading, OneSpelling};

/// Code has a spelling if and only if it has 1 to 1,048,576 instructions, each address in it is the
/// address of an instruction, the lengths in it fit in four bytes, and its sets and texts are
/// valid.
pub fn has_spelling()
    ensures { HasSpelling }
{}

/// The code of a goal over a table of rules has a spelling if the code isn't too long, the goal and
/// the rules call only rules in the table, their sets are in normal form, their names and messages
/// are texts, and the lengths of their look-behinds fit in four bytes.
pub fn compiled_can_be_spelled()
    ensures { CompiledCanBeSpelled }
{}

/// No code has more than one spelling.
pub fn one_spelling()
    ensures { OneSpelling }
{}

/// No bytes are the spelling of more than one list of instructions.
pub fn one_reading()
    ensures { OneReading }
{}

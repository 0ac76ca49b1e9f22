//! The plan of a command, made before anything is written.

ghost use Rattle.rosie_prepare.specs.Steps.{Tells};
ghost use Rattle.rosie_cli.specs.inside.Planning.{due_of};

use rosie_inspect::Expansion;
use rosie_io::Bytes;
use rosie_jobs::{Job, MatchJob, SampleRun};
use rosie_prepare::compile_line;
use rosie_run::Unready;
use rosie_suites::Suite;
use rosie_words::Paths;
use rpl_codegen::CompileFault;
use std::alloc::Global;

/// The plan of an accepted command. Making the plan only reads files, and writes nothing.
#[derive(Drop)]
pub(crate) enum Plan {
    /// A text that is the whole answer.
    Answer(String),
    /// A pattern and the rules that it reaches; their text is the whole answer.
    Expand(Expansion),
    /// The bytes of a code file, which are the whole answer.
    Write(Bytes),
    /// The tests of a file, to be run.
    Test(Suite),
    /// A goal, or the code from a code file, that is run on each line of the named inputs.
    Match {
        job: MatchJob,
        whole: bool,
        names: Paths,
    },
    /// A goal that is traced on each line of the named inputs. `limit` bounds the work on a line.
    Trace {
        job: Job,
        limit: u32,
        whole: bool,
        names: Paths,
    },
    /// A run that matches the lines of a sample and reports the counts.
    Sample(SampleRun),
}

/// Returns the refusal of a pattern whose code is too long.
pub(crate) fn uncompiled(alloc: Global, fault: CompileFault) -> Unready
    ensures { Tells (due_of fault) result }
{
    match fault {
        CompileFault::CodeTooLong => match compile_line(alloc) {
            Ok(line) => Unready::Refused(line),
            Err(_) => Unready::NoMemory,
        },
        CompileFault::NoMemory => Unready::NoMemory,
    }
}

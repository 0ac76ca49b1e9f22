//! The program `rosie-columns`, which passes the real streams and files to
//! `rosie_columns_cli::columns` in a single call. This crate is the trusted edge of the program: no
//! contract says what a stream contains.
//!
//! If a word of the command line isn't UTF-8, the program writes nothing and ends with status 2. If
//! there is not enough memory for the words or the streams, the program ends with status 6.
#![tactic(auto)]

ghost use Rattle.std.specs.Prelude.{◌≡◌, ◌<◌};

use rosie_columns_cli::{Ending, Status, columns};
use rosie_io::{StdFiles, StdSink, StdSource};
use rpl_machine::Steps;
use std::env;
use std::io::{self, BufWriter, ErrorKind};
use std::marker::Brand;
use std::process::ExitCode;
use std::sync::ledger::{Blank, Ledger};

/// The greatest number of bytes of output that are buffered before they are written.
const OUTPUT_BUFFER: usize = 65_536;

fn words(rt: &HostRuntime) -> io::Result<Vec<String>> {
    let all = env::args(rt)?;
    let mut words = Vec::with_capacity(rt.alloc(), all.len())?;
    for word in all.skip(1) {
        words.push(word)?;
    }
    Ok(words)
}

/// Returns the ending for an error in reading the words.
fn ending_without_words(error: io::Error) -> Ending {
    if error.kind() == ErrorKind::OutOfMemory {
        Ending::Ran(Status::NoMemory)
    } else {
        Ending::Ran(Status::Refused)
    }
}

/// Runs the command with the real streams and files. `blank` is the ledger in which the command's
/// steps are counted: the ledger takes no memory, and nothing reads it.
fn run<L: Ledger>(rt: &HostRuntime, words: &[String], blank: Blank) -> Ending
    requires name { blank.name ≡ L.name }
    requires parts { blank.parts ≡ L.parts }
    requires some { 0 < blank.parts }
{
    let alloc = rt.alloc();
    let out = match BufWriter::with_capacity(alloc, OUTPUT_BUFFER, rt.stdout()) {
        Ok(out) => out,
        Err(_) => return Ending::Ran(Status::NoMemory),
    };
    let mut files = StdFiles::new(rt);
    let mut input = StdSource::new(rt.stdin());
    let mut out = StdSink::new(out);
    let mut err = StdSink::new(rt.stderr());
    let mut steps = Steps::<L>::new(blank);
    columns(
        alloc, words, &mut files, &mut input, &mut out, &mut err, &mut steps,
    )
}

fn main(rt: HostRuntime) -> ExitCode {
    let ending = match words(&rt) {
        Ok(words) => run::<Brand>(&rt, &words, Blank::new(1)),
        Err(error) => ending_without_words(error),
    };
    ExitCode::from(ending.code())
}

// One run of the command over files and streams in memory, in which one call fails.
ghost use Rattle.std.specs.Prelude.{◌≡◌, ◌<◌, ◌≤◌};

use crate::files::tree;
use rosie_cli::{Status, rosie};
use rosie_io::{Bytes, Calls, MemoryFiles, MemorySink, MemorySource, NoMemory};
use rpl_machine::Steps;
use std::alloc::Global;
use std::marker::Brand;
use std::sync::ledger::{Blank, Ledger};

/// The capacity of each sink, in bytes.
const ROOM: usize = 10_000;

/// The devices that the command calls.
#[derive(Clone, Copy, PartialEq)]
pub(crate) enum Device {
    Files,
    Input,
    Out,
    Err,
}

/// The device on which a call fails, and the number of that call. Calls are counted from 1; if the
/// number is 0, no call fails.
#[derive(Clone, Copy)]
pub(crate) struct Fault {
    pub(crate) device: Device,
    pub(crate) call: u64,
}

/// The fault of a run in which no call fails.
pub(crate) const NO_FAULT: Fault = Fault {
    device: Device::Files,
    call: 0,
};

/// The inputs of the command, apart from the files.
#[derive(Clone, Copy)]
pub(crate) struct Run<'a> {
    /// The words, separated by spaces.
    pub(crate) words: &'a str,
    /// The contents of the standard input.
    pub(crate) input: &'a [u8],
    /// Whether each call reads or writes at most a few bytes: 8 for a file, 3 for the input and for
    /// `out`, and 20 for `err`.
    pub(crate) in_pieces: bool,
}

/// The devices of one run.
#[derive(Drop)]
struct Devices {
    files: MemoryFiles,
    input: MemorySource,
    out: MemorySink,
    err: MemorySink,
}

/// The status of the run, and what it wrote.
#[derive(Drop)]
pub(crate) struct Outcome {
    pub(crate) status: Status,
    pub(crate) out: Vec<u8>,
    pub(crate) err: Vec<u8>,
}

pub(crate) fn words_of(alloc: Global, text: &str) -> Result<Vec<String>, NoMemory> {
    let mut words = Vec::new(alloc);
    for word in text.split(' ') {
        words.push(String::from_str(alloc, word)?)?;
    }
    Ok(words)
}

/// Returns the greatest number of bytes that one call to this device can read or write.
fn most_of(run: &Run<'_>, device: Device) -> usize
    ensures { 1 ≤ result }
{
    if !run.in_pieces {
        return ROOM;
    }
    match device {
        Device::Files => 8,
        Device::Input | Device::Out => 3,
        Device::Err => 20,
    }
}

/// Returns the calls to this device that fail.
fn failing(alloc: Global, fault: Fault, device: Device) -> Result<Calls, NoMemory> {
    let call = if fault.device == device {
        fault.call
    } else {
        0
    };
    Calls::from_slice(alloc, &[call])
}

fn files(alloc: Global, run: &Run<'_>, fault: Fault) -> Result<MemoryFiles, NoMemory> {
    let most = most_of(run, Device::Files);
    let fails = failing(alloc, fault, Device::Files)?;
    Ok(MemoryFiles::new(tree(alloc)?, most, fails))
}

fn input(alloc: Global, run: &Run<'_>, fault: Fault) -> Result<MemorySource, NoMemory> {
    let most = most_of(run, Device::Input);
    let fails = failing(alloc, fault, Device::Input)?;
    let bytes = Bytes::from_slice(alloc, run.input)?;
    Ok(MemorySource::new(bytes, most, fails))
}

fn sink(
    alloc: Global,
    run: &Run<'_>,
    fault: Fault,
    device: Device,
) -> Result<MemorySink, NoMemory> {
    let most = most_of(run, device);
    let fails = failing(alloc, fault, device)?;
    MemorySink::new(alloc, ROOM, most, fails)
}

impl Devices {
    fn new(alloc: Global, run: &Run<'_>, fault: Fault) -> Result<Devices, NoMemory> {
        Ok(Devices {
            files: files(alloc, run, fault)?,
            input: input(alloc, run, fault)?,
            out: sink(alloc, run, fault, Device::Out)?,
            err: sink(alloc, run, fault, Device::Err)?,
        })
    }

    /// Returns the outcome of a run that ended with this status.
    fn outcome(&self, alloc: Global, status: Status) -> Result<Outcome, NoMemory> {
        let out = self.out.written().to_vec(alloc)?;
        let err = self.err.written().to_vec(alloc)?;
        Ok(Outcome { status, out, err })
    }
}

/// Runs the command. The call that `fault` specifies fails.
pub(crate) fn run_on(alloc: Global, run: &Run<'_>, fault: Fault) -> Result<Outcome, NoMemory> {
    let words = words_of(alloc, run.words)?;
    let mut devices = Devices::new(alloc, run, fault)?;
    let status = run_counted::<Brand>(alloc, &words, &mut devices, Blank::new(1));
    devices.outcome(alloc, status)
}

/// Runs the command with these devices.
fn run_counted<L: Ledger>(
    alloc: Global,
    words: &[String],
    devices: &mut Devices,
    blank: Blank,
) -> Status
    requires name { blank.name ≡ L.name }
    requires parts { blank.parts ≡ L.parts }
    requires some { 0 < blank.parts }
{
    let mut steps = Steps::<L>::new(blank);
    rosie(
        alloc,
        words,
        &mut devices.files,
        &mut devices.input,
        &mut devices.out,
        &mut devices.err,
        &mut steps,
    )
}

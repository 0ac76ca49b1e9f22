use crate::cases::{CASES, Case};
use crate::command::{Device, Fault, NO_FAULT, Outcome, run_on};
use rosie_cli::Status;
use rosie_io::NoMemory;
use std::alloc::Global;
use std::test::Fail;

/// Returns what was written to an output, in the form used in the rows. `all` is what is written to
/// that output if no call fails.
fn shown(alloc: Global, written: &[u8], all: &[u8]) -> Result<String, NoMemory> {
    if !all.is_empty() && written == all {
        return String::from_str(alloc, "…");
    }
    let text = String::from_utf8_lossy(alloc, written)?;
    text.as_str().replace(alloc, '\n', "¶")
}

/// Returns what was written, as a row.
fn row_of(alloc: Global, case: &Case, got: &Outcome) -> Result<String, NoMemory> {
    let out = shown(alloc, got.out.as_slice(), case.out)?;
    let err = shown(alloc, got.err.as_slice(), case.err)?;
    format!(in alloc; "{out}!{err}")
}

/// Returns the status of a run in which a call to this device fails.
fn status_of(device: Device) -> Status {
    match device {
        Device::Files | Device::Input => Status::ReadFault,
        Device::Out | Device::Err => Status::WriteFault,
    }
}

/// Returns whether the status and the outputs are those of a run in which no call fails.
fn is_whole(case: &Case, got: &Outcome) -> bool {
    got.status == case.status && got.out.as_slice() == case.out && got.err.as_slice() == case.err
}

/// Returns the first of a device's rows that differs from the result of the run in which the row's
/// call fails. If no row differs, runs the command with a fault that lies after the last call to
/// the device. Returns an empty text if the output of that run is complete, and `after the last
/// call` otherwise.
fn first_other(alloc: Global, case: &Case, device: Device) -> Result<&'static str, NoMemory> {
    let mut call = 1u64;
    for row in case.rows(device).lines() {
        let got = run_on(alloc, &case.run, Fault { device, call })?;
        let wanted = row.trim_start();
        if got.status != status_of(device) || row_of(alloc, case, &got)?.as_str() != wanted {
            return Ok(wanted);
        }
        call = call.saturating_add(1);
    }
    let got = run_on(alloc, &case.run, Fault { device, call })?;
    Ok(if is_whole(case, &got) {
        ""
    } else {
        "after the last call"
    })
}

#[test]
fn each_call_of_each_device_fails_in_turn(rt: HostRuntime) -> Result<(), Fail> {
    for case in CASES {
        let words = case.run.words;
        for device in [Device::Files, Device::Input, Device::Out, Device::Err] {
            assert_eq!(rt; first_other(rt.alloc(), &case, device)?, "", "{words}");
        }
    }
    Ok(())
}

/// Returns whether the outcome is that of a run in which no call fails. If memory ran out, returns
/// whether each output is a prefix of that run's output.
fn is_front(case: &Case, got: &Outcome) -> bool {
    if got.status == Status::NoMemory {
        case.out.starts_with(got.out.as_slice()) && case.err.starts_with(got.err.as_slice())
    } else {
        is_whole(case, got)
    }
}

/// If an allocation fails (`rt try --test --fail-alloc N`), what was written is a prefix of the
/// whole output.
#[test]
fn out_of_memory_leaves_a_front(rt: HostRuntime) {
    for case in CASES {
        let words = case.run.words;
        if let Ok(got) = run_on(rt.alloc(), &case.run, NO_FAULT) {
            assert!(rt; is_front(&case, &got), "{words}");
        }
    }
}

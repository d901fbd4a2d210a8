//! The program `unverified SCENARIO TURNS`, for tests: runs a scenario that is read and resolved, but not judged, up to its first wrong step.
#![tactic(auto)]

use gq_command::input::{InputError, read_input};
use gq_command::status::Status;
use gq_output::counted::Counted;
use gq_reports::run_fault::RunFault;
use gq_unverified::tested_run::run_unverified;
use std::env;
use std::fs::File;
use std::io::Write;
use std::process::ExitCode;

fn main(rt: HostRuntime) -> ExitCode {
    let status = match perform(&rt) {
        Ok(()) => Status::Done,
        Err(status) => status,
    };
    ExitCode::from(status.code())
}

// Runs the scenario at the first path over the turns at the second. A wrong step, and why nothing is run, are reported on standard error.
fn perform(rt: &HostRuntime) -> Result<(), Status> {
    let Some((scenario, turns)) = paths(rt) else {
        return Err(Status::BadCommandLine);
    };
    let scenario = read(rt, scenario.as_str())?;
    let turns = read(rt, turns.as_str())?;
    let mut out = Counted::new(rt.stdout());
    let ran = run_unverified(rt.alloc(), scenario.as_slice(), turns.as_slice(), &mut out);
    if out.flush().is_err() {
        return Err(Status::FileFault);
    }
    match ran {
        Ok(None) => Ok(()),
        Ok(Some(step)) => {
            let _reported = eprintln!(rt; "{step}");
            Err(Status::Refused)
        }
        Err(fault) => {
            let _reported = eprintln!(rt; "trade: {fault}");
            Err(status_of(&fault))
        }
    }
}

// The two words after the program's name.
fn paths(rt: &HostRuntime) -> Option<(String, String)> {
    let args = match env::args(rt) {
        Ok(args) => args,
        Err(_) => return None,
    };
    let mut words = args.skip(1);
    let scenario = words.next()?;
    let turns = words.next()?;
    Some((scenario, turns))
}

// All bytes of a file, at most 18 MiB.
fn read(rt: &HostRuntime, path: &str) -> Result<Vec<u8>, Status> {
    let mut file = match File::open(rt, path) {
        Ok(file) => file,
        Err(_) => return Err(Status::FileFault),
    };
    match read_input(rt.alloc(), &mut file) {
        Ok(text) => Ok(text),
        Err(InputError::Memory(_)) => Err(Status::HostMemory),
        Err(InputError::Fault) => Err(Status::FileFault),
    }
}

// The status of a run that was not taken to its end.
fn status_of(fault: &RunFault<'_>) -> Status {
    match fault {
        RunFault::Load(_)
        | RunFault::NoComponent(_)
        | RunFault::NoOutcome(_)
        | RunFault::Turns { .. } => Status::Refused,
        RunFault::Memory => Status::HostMemory,
        RunFault::Write => Status::FileFault,
    }
}

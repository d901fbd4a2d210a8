//! The program `benchmark`: does a piece of work many times, and returns how long it takes.
//!
//! `benchmark WORK TIMES` or `benchmark WORK TIMES SIZE`, where WORK is one of
//! - `assemble`, `decode`, `encode`, `verify`, `read`: of a program's text, of its code, of the program of a text (the latter two, `verify` with 64
//!   interfaces), of a scenario; what it is of is read from standard input;
//! - `words`: numbers in a dataspace of 1 MiB, in sequence and at random, and 2048 bytes of it that are cleared; the same where no frame follows the one
//!   before; and the numbers in a `Vec`;
//! - `frames`: frames that are taken and given back, and what is made for 64 MiB;
//! - `heap` and `list`: blocks of SIZE bytes of the heap, and of the kit's heap with a list of holes;
//! - `slices` and `pool`: slices of SIZE bytes, and the entries of a pool;
//! - `accesses`: bytes of a dataspace, and of a space, by its slot and by their addresses;
//! - `sessions`: sessions between two leaves, from the ask to the close, while SIZE others are open.
//!
//! What the work gives is reported on standard output. On standard error stands a line for each thing that was measured: its name, how often it was done,
//! and the nanoseconds in all.
#![tactic(auto)]

mod access_timings;
mod frame_timings;
mod heap_timings;
mod list_heap_timings;
mod measure_fault;
mod pool_timings;
mod program_timings;
mod session_timings;
mod timing;
mod word_timings;

use measure_fault::MeasureFault;
use std::env;
use std::io::Write;
use std::process::ExitCode;

/// What is measured.
#[derive(Clone, Copy)]
enum Work {
    Assemble,
    Decode,
    Encode,
    Verify,
    Read,
    Words,
    Frames,
    Heap,
    List,
    Slices,
    Pool,
    Sessions,
    Accesses,
}

impl Work {
    /// The work of this name.
    fn named(word: &str) -> Option<Work> {
        match word {
            "assemble" => Some(Work::Assemble),
            "decode" => Some(Work::Decode),
            "encode" => Some(Work::Encode),
            "verify" => Some(Work::Verify),
            "read" => Some(Work::Read),
            "words" => Some(Work::Words),
            "frames" => Some(Work::Frames),
            "heap" => Some(Work::Heap),
            "list" => Some(Work::List),
            "slices" => Some(Work::Slices),
            "pool" => Some(Work::Pool),
            "sessions" => Some(Work::Sessions),
            "accesses" => Some(Work::Accesses),
            _ => None,
        }
    }
}

/// What the words of the command line ask for: the work, how often it is to be done, and the size of what is measured.
#[derive(Clone, Copy)]
struct Request {
    work: Work,
    times: u32,
    size: u32,
}

fn main(rt: HostRuntime) -> ExitCode {
    match measured(&rt) {
        Ok(()) => ExitCode::SUCCESS,
        Err(fault) => {
            let _reported = writeln!(rt.stderr(), "benchmark: {fault}");
            ExitCode::FAILURE
        }
    }
}

/// Measures what the words of the command line ask for.
fn measured(rt: &HostRuntime) -> Result<(), MeasureFault> {
    let Request { work, times, size } = asked(rt)?;
    let given = match work {
        Work::Assemble => program_timings::assembled(rt, times),
        Work::Decode => program_timings::decoded(rt, times),
        Work::Encode => program_timings::encoded(rt, times),
        Work::Verify => program_timings::verified(rt, times),
        Work::Read => program_timings::read(rt, times),
        Work::Words => word_timings::measured(rt, times),
        Work::Frames => frame_timings::measured(rt, times),
        Work::Heap => heap_timings::measured(rt, times, size),
        Work::List => list_heap_timings::measured(rt, times, size),
        Work::Slices => pool_timings::slices(rt, times, size),
        Work::Pool => pool_timings::entries(rt, times),
        Work::Sessions => session_timings::measured(rt, times, size),
        Work::Accesses => access_timings::measured(rt, times),
    }?;
    writeln!(rt.stdout(), "{given}")?;
    Ok(())
}

/// The words of the command line. Without a third one the size is 16.
fn asked(rt: &HostRuntime) -> Result<Request, MeasureFault> {
    let mut words = env::args(rt)?.skip(1);
    let Some(work) = words.next() else {
        return Err(MeasureFault::Usage);
    };
    let Some(times) = words.next() else {
        return Err(MeasureFault::Usage);
    };
    let size = match words.next() {
        Some(size) => size.as_str().parse::<u32>(),
        None => Ok(16),
    };
    match (
        Work::named(work.as_str()),
        times.as_str().parse::<u32>(),
        size,
    ) {
        (Some(work), Ok(times), Ok(size)) => Ok(Request { work, times, size }),
        _ => Err(MeasureFault::Usage),
    }
}

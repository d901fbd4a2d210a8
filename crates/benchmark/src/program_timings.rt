// Programs and scenarios: text and code that is read and written.
use crate::measure_fault::MeasureFault;
use crate::timing::report;
use gq_asm::assemble;
use gq_code::decode::decode;
use gq_code::program_code::encode;
use gq_code::{Interface, Interfaces, Program};
use gq_model::program::Name;
use gq_reader::reader::read_scenario;
use gq_verify::verify;
use std::alloc::AllocError;
use std::io::Read;
use std::time::Instant;

/// Standard input, whole.
fn input(rt: &HostRuntime) -> Result<Vec<u8>, MeasureFault> {
    let mut input = Vec::new(rt.alloc());
    rt.stdin().read_to_end(&mut input)?;
    Ok(input)
}

/// Assembles a text so often, and gives the number of its sections.
pub fn assembled(rt: &HostRuntime, times: u32) -> Result<usize, MeasureFault> {
    let text = input(rt)?;
    let given = assembled_from(rt, text.as_slice(), times);
    drop(text);
    given
}

fn assembled_from(rt: &HostRuntime, text: &[u8], times: u32) -> Result<usize, MeasureFault> {
    let start = Instant::now(rt)?;
    let mut given = 0;
    for _ in 0..times {
        match assemble(rt.alloc(), text) {
            Ok(program) => given = program.sections().len(),
            Err(error) => return Err(MeasureFault::Text(error)),
        }
    }
    report(rt, "assemble", u64::from(times), Ok(start))?;
    Ok(given)
}

/// Decodes a code so often, and gives the number of its sections.
pub fn decoded(rt: &HostRuntime, times: u32) -> Result<usize, MeasureFault> {
    let code = input(rt)?;
    let given = decoded_from(rt, code.as_slice(), times);
    drop(code);
    given
}

fn decoded_from(rt: &HostRuntime, code: &[u8], times: u32) -> Result<usize, MeasureFault> {
    let start = Instant::now(rt)?;
    let mut given = 0;
    for _ in 0..times {
        match decode(rt.alloc(), code) {
            Ok(program) => given = program.sections().len(),
            Err(error) => return Err(MeasureFault::Code(error)),
        }
    }
    report(rt, "decode", u64::from(times), Ok(start))?;
    Ok(given)
}

/// The program of a text from standard input.
fn program(rt: &HostRuntime) -> Result<Program, MeasureFault> {
    let text = input(rt)?;
    match assemble(rt.alloc(), text.as_slice()) {
        Ok(program) => Ok(program),
        Err(error) => Err(MeasureFault::Text(error)),
    }
}

/// Encodes the program of a text so often, and gives the length of its code.
pub fn encoded(rt: &HostRuntime, times: u32) -> Result<usize, MeasureFault> {
    let program = program(rt)?;
    let given = encoded_from(rt, &program, times);
    drop(program);
    given
}

fn encoded_from(rt: &HostRuntime, program: &Program, times: u32) -> Result<usize, MeasureFault> {
    let start = Instant::now(rt)?;
    let mut given = 0;
    for _ in 0..times {
        given = encode(rt.alloc(), program)?.len();
    }
    report(rt, "encode", u64::from(times), Ok(start))?;
    Ok(given)
}

/// As many interfaces as there may be, of services `s00` to `s77`, with a need of 8192 bytes.
fn interfaces(rt: &HostRuntime) -> Result<Interfaces, MeasureFault> {
    let mut entries = Vec::new(rt.alloc());
    for number in 0..64u8 {
        let Some(service) = Name::new(&[b's', b'0' + number / 8, b'0' + number % 8]) else {
            return Err(MeasureFault::Interfaces);
        };
        let interface = Interface::new(1000, 2000, 8192, None);
        if entries.push((service, interface)).is_err() {
            return Err(MeasureFault::Memory(AllocError));
        }
    }
    Interfaces::new(entries).ok_or(MeasureFault::Interfaces)
}

/// Verifies the program of a text so often, with 64 interfaces, and gives the bytes of its own that it uses at most.
pub fn verified(rt: &HostRuntime, times: u32) -> Result<usize, MeasureFault> {
    let interfaces = interfaces(rt)?;
    let program = program(rt)?;
    let given = verified_from(rt, &program, &interfaces, times);
    drop(program);
    drop(interfaces);
    given
}

fn verified_from(
    rt: &HostRuntime,
    program: &Program,
    interfaces: &Interfaces,
    times: u32,
) -> Result<usize, MeasureFault> {
    let start = Instant::now(rt)?;
    let mut given = 0;
    for _ in 0..times {
        match verify(program, None, interfaces, &[], 0) {
            Ok(verified) => given = verified.own(),
            Err(fault) => return Err(MeasureFault::Refused(fault)),
        }
    }
    report(rt, "verify", u64::from(times), Ok(start))?;
    Ok(given as usize)
}

/// Reads a scenario so often, and gives the number of its leaves.
pub fn read(rt: &HostRuntime, times: u32) -> Result<usize, MeasureFault> {
    let text = input(rt)?;
    let given = read_from(rt, text.as_slice(), times);
    drop(text);
    given
}

fn read_from(rt: &HostRuntime, text: &[u8], times: u32) -> Result<usize, MeasureFault> {
    let start = Instant::now(rt)?;
    let mut given = 0;
    for _ in 0..times {
        match read_scenario(rt.alloc(), text) {
            Ok(scenario) => given = scenario.leaf_count(),
            Err(error) => return Err(MeasureFault::Scenario(error)),
        }
    }
    report(rt, "read", u64::from(times), Ok(start))?;
    Ok(given)
}

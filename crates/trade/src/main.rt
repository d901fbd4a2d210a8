//! The program `trade`: the words of the command line, the files that they name, and the standard streams.
#![tactic(auto)]

mod watched;

use gq_cli::command::{Command, CommandError};
use gq_cli::command_line::command;
use gq_cli::execute::{execute, report};
use gq_cli::rules::families;
use gq_cli::status::Status;
use gq_output::counted::Counted;
use std::cell::Cell;
use std::env;
use std::fs::File;
use std::io::{self, BufWriter, ErrorKind, Read, Stderr, Stdout, Write};
use std::process::ExitCode;
use watched::{Note, Silenced, Watched, put_down};

// How many bytes of output are gathered before they leave the process.
const BUFFER: usize = 65536;

// The most bytes of an input.
const MOST_INPUT: u64 = 18 << 20;

// What is noted of the streams of a command.
#[derive(Drop)]
struct Notes {
    scenario: Cell<Note>,
    turns: Cell<Note>,
    out: Cell<Note>,
}

// What is written is gathered before it leaves the process.
type Out<'a> = Counted<BufWriter<Watched<'a, Stdout>>>;

// Nothing is reported to anybody once the reader of the output has gone.
type Err<'a> = Counted<Silenced<'a, Stderr>>;

fn main(rt: HostRuntime) -> ExitCode {
    let notes = Notes {
        scenario: Cell::new(Note::new()),
        turns: Cell::new(Note::new()),
        out: Cell::new(Note::new()),
    };
    let mut err = Counted::new(Silenced::new(rt.stderr(), &notes.out));
    let status = match asked(&rt) {
        Ok(command) => perform(&rt, &command, &notes, &mut err),
        Err(misuse) => report_misuse(&mut err, misuse),
    };
    ExitCode::from(status.code())
}

// Why the words ask for no command.
#[derive(Drop)]
enum Misuse {
    // The host has no memory left.
    Memory,
    // The words cannot be read as text.
    NoText,
    // They name no command, as these lines say.
    Usage(String),
}

// Reports why the words ask for no command.
fn report_misuse(err: &mut Err<'_>, misuse: Misuse) -> Status {
    match misuse {
        Misuse::Memory => report(err, Status::HostMemory),
        Misuse::NoText => {
            let status = report(err, Status::BadCommandLine);
            add(err, "  a word is not UTF-8\n");
            status
        }
        Misuse::Usage(said) => {
            let status = report(err, Status::BadCommandLine);
            add(err, said.as_str());
            status
        }
    }
}

// Writes more below a line, as far as writes succeed.
fn add(err: &mut Err<'_>, text: &str) {
    let _written = err.write_all(text.as_bytes());
}

// The command that the words after the program's name ask for.
fn asked(rt: &HostRuntime) -> Result<Command, Misuse> {
    let given = given(rt)?;
    let asked = asked_by(rt, given.as_slice());
    drop(given);
    asked
}

// The command that words ask for.
fn asked_by(rt: &HostRuntime, given: &[String]) -> Result<Command, Misuse> {
    let mut words = Vec::new(rt.alloc());
    for word in given.iter() {
        if words.push(word.as_str()).is_err() {
            return Err(Misuse::Memory);
        }
    }
    match command(rt.alloc(), words.as_slice()) {
        Ok(command) => Ok(command),
        Err(CommandError::Memory(_)) => Err(Misuse::Memory),
        Err(CommandError::Usage(said)) => Err(Misuse::Usage(said)),
    }
}

// The words after the program's name. Each has to be UTF-8.
fn given(rt: &HostRuntime) -> Result<Vec<String>, Misuse> {
    let args = match env::args(rt) {
        Ok(args) => args,
        Err(error) if error.kind() == ErrorKind::OutOfMemory => return Err(Misuse::Memory),
        Err(_) => return Err(Misuse::NoText),
    };
    let mut words = Vec::new(rt.alloc());
    for word in args.skip(1) {
        if words.push(word).is_err() {
            return Err(Misuse::Memory);
        }
    }
    Ok(words)
}

// Does what a command asks for, on its files or standard input. What it writes is gathered, and has to leave the process, too.
fn perform(rt: &HostRuntime, command: &Command, notes: &Notes, err: &mut Err<'_>) -> Status {
    let stdout = Watched::new(rt.stdout(), &notes.out);
    let mut out = match BufWriter::with_capacity(rt.alloc(), BUFFER, stdout) {
        Ok(writer) => Counted::new(writer),
        Err(_) => return report(err, Status::HostMemory),
    };
    let status = execute_to(rt, command, notes, &mut out, err);
    let flushed = out.flush();
    drop(out);
    let status = match flushed {
        Err(_) if status == Status::Done => report(err, Status::FileFault),
        _ => status,
    };
    if status == Status::FileFault {
        report_reasons(err, command, notes);
    }
    status
}

// Reports which stream failed and why, each on a line.
fn report_reasons(err: &mut Err<'_>, command: &Command, notes: &Notes) {
    let (scenario, turns) = paths(command);
    report_input(err, scenario, notes.scenario.get());
    report_input(err, turns, notes.turns.get());
    if let Some(error) = notes.out.get().failure {
        report_reason(err, "standard output", error);
    }
}

// The paths of the scenario and of the turns, as they were given.
fn paths(command: &Command) -> (&str, &str) {
    match command {
        Command::OfTurns(_, scenario, turns) | Command::Faults(scenario, Some(turns)) => {
            (scenario.as_str(), turns.as_str())
        }
        Command::OfScenario(_, scenario)
        | Command::OfLeaf(_, scenario, _)
        | Command::Fit(_, scenario)
        | Command::Faults(scenario, None) => (scenario.as_str(), ""),
        Command::Rule(_) | Command::Version | Command::Stored | Command::Help(_) => {
            ("standard input", "")
        }
    }
}

// Reports why an input was not read, if it was not.
fn report_input(err: &mut Err<'_>, path: &str, note: Note) {
    match note.failure {
        Some(error) => report_reason(err, path, error),
        None => {
            if note.read > MOST_INPUT {
                add(err, "  ");
                add(err, path);
                add(err, ": longer than 18 MiB\n");
            }
        }
    }
}

// Reports why a stream failed.
fn report_reason(err: &mut Err<'_>, path: &str, error: io::Error) {
    add(err, "  ");
    add(err, path);
    let _written = writeln!(err, ": {error}");
}

// Does what a command asks for, on its files or standard input.
fn execute_to(
    rt: &HostRuntime,
    command: &Command,
    notes: &Notes,
    out: &mut Out<'_>,
    err: &mut Err<'_>,
) -> Status {
    match command {
        Command::OfTurns(_, scenario, turns) | Command::Faults(scenario, Some(turns)) => {
            let Some(mut scenario) = open(rt, scenario.as_str(), &notes.scenario) else {
                return report(err, Status::FileFault);
            };
            let Some(mut turns) = open(rt, turns.as_str(), &notes.turns) else {
                drop(scenario);
                return report(err, Status::FileFault);
            };
            let status = execute_on(rt, command, &mut scenario, &mut turns, out, err);
            drop(scenario);
            drop(turns);
            status
        }
        Command::OfScenario(_, scenario)
        | Command::OfLeaf(_, scenario, _)
        | Command::Fit(_, scenario)
        | Command::Faults(scenario, None) => {
            let Some(mut scenario) = open(rt, scenario.as_str(), &notes.scenario) else {
                return report(err, Status::FileFault);
            };
            let status = execute_on(rt, command, &mut scenario, &mut io::empty(), out, err);
            drop(scenario);
            status
        }
        Command::Rule(_) | Command::Version | Command::Stored | Command::Help(_) => {
            let mut stdin = Watched::new(rt.stdin(), &notes.scenario);
            execute_on(rt, command, &mut stdin, &mut io::empty(), out, err)
        }
    }
}

// Does what a command asks for, on these readers.
fn execute_on<R: Read, T: Read>(
    rt: &HostRuntime,
    command: &Command,
    scenario: &mut R,
    turns: &mut T,
    out: &mut Out<'_>,
    err: &mut Err<'_>,
) -> Status {
    execute(rt.alloc(), &families(), command, scenario, turns, out, err)
}

// The file at this path, of which notes are taken; if it cannot be opened, that is noted.
fn open<'a>(rt: &HostRuntime, path: &str, note: &'a Cell<Note>) -> Option<Watched<'a, File>> {
    match File::open(rt, path) {
        Ok(file) => Some(Watched::new(file, note)),
        Err(error) => {
            put_down(note, error);
            None
        }
    }
}

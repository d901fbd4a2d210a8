//! Doing what a command line asks for.
ghost use Rattle.std.specs.Prelude.{◌≡◌, ◌≢◌, ◌⊎◌, ◌++◌, true, false, codes, string_bytes, None, Ok, Some, Err, IfErr, OnOk};
ghost use Rattle.std.specs.Io.KnownBytes.{Keeps};
ghost use Rattle.gq_output.specs.Writer_failures.{written_to, failures_of};
ghost use Rattle.gq_output.specs.Writes.{IsRaised};
ghost use Rattle.gq_reports.specs.Command_outcomes.{GivesOf, WritesAs};
ghost use Rattle.gq_reports.specs.Whole.{refused_with, run_written};
ghost use Rattle.gq_world.specs.Headline.{WritesPromised};
ghost use Rattle.gq_command.specs.Input.{GivesAtMost};
ghost use Rattle.gq_cli.specs.Early_command_ends.{Ended, EndedFaults, IsKnown, IsSilent, IsReportedAs, IsUntold, LeavesWriter, refusal_fault};
ghost use Rattle.gq_cli.specs.internal.Running.{RefusesAs};
ghost use Rattle.gq_cli.specs.Executed.{Executes, IsRefusal, IsReported, IsUpheldBy, ReadsBoth, ReadsScenario, ReadsText, RunsStored};
ghost use Rattle.gq_cli.specs.Executed.{Of_both, Of_faults, Of_leaf, Of_nothing, Of_scenario, ReportsAll, ReportsPart, ReportsPrefix};
ghost use Rattle.gq_cli.specs.Executed.{both_written, is_never_refused, leaf_written, reads_scenario, reads_turns, rules_written};
ghost use Rattle.gq_cli.specs.Executed.{WritesCut, WritesWhole, scenario_written, status_line, version_written, writes_refusals};
ghost use Rattle.gq_cli.specs.declared.execute.CommandFault.TheVariants as fault;
ghost use Rattle.gq_command.specs.declared.command.TurnsCommand.TheVariants.{Run};

use crate::fit_command::of_fit;
use crate::reader_turns::run_loaded;
use gq_command::command::{Command, LeafCommand, ScenarioCommand, TurnsCommand, VERSION};
use gq_command::input::{InputError, read_input};
use gq_command::status::Status;
use gq_command::stored::parted;
use gq_faults::fault_laws::first_turn_fault_laws;
use gq_faults::faults::{File, faults};
use gq_faults::report_error::ReportError;
use gq_faults::turn_faults::{Refused, faults_of_both};
use gq_outcomes::outcomes::{outcome_turns, outcomes};
use gq_output::counted::{Counted, put};
use gq_races::races::races;
use gq_reports::asm::asm;
use gq_reports::check::check;
use gq_reports::run_fault::RunFault;
use gq_rule_texts::{RuleText, rule_of, write_rules};
use gq_sizes::size::size;
use gq_traces::account_state::state;
use gq_traces::peaks::peaks;
use gq_traces::step_output::Reporting;
use gq_traces::trace::trace;
use gq_traces::turn_schedule::turns;
use gq_views::graph::graph;
use gq_views::list::list;
use gq_views::margin::Margin;
use gq_views::tree::tree;
use gq_why::why::why;
use gq_world::run::run;
use gq_world::world::World;
use std::alloc::{AllocError, Global};
use std::io::{Read, Write};

// Why a command was not done.
#[derive(Drop)]
pub(crate) enum CommandFault {
    // The texts are refused, or a word, by this line.
    Refused(String),
    // Host memory was refused.
    Memory,
    // A read failed, or there were more than 18 MiB.
    Read,
    // A write failed.
    Write,
}

impl From<AllocError> for CommandFault {
    ghost use Rattle.gq_cli.specs.declared.execute.CommandFault.TheVariants.{Memory};

    ghost from_gives = { λ _ fault. fault ≡ Memory };

    fn from(_refused: AllocError) -> CommandFault {
        CommandFault::Memory
    }
}

impl From<InputError> for CommandFault {
    ghost use Rattle.gq_cli.specs.Early_command_ends.{IsUnread};

    ghost from_gives = { λ _ fault. IsUnread fault };

    fn from(unread: InputError) -> CommandFault {
        match unread {
            InputError::Memory(_) => CommandFault::Memory,
            InputError::Fault => CommandFault::Read,
        }
    }
}

/// Does what a command asks for, and returns the exit status. If the command was not done, it writes one line on `err` that says why.
///
/// - `OfScenario` and `OfLeaf` read the scenario. `OfTurns` reads the scenario and then the turns, each whole. `Stored` reads both from
///   `scenario`, separated by a line `%%`. Each writes the text of its command to `out`.
/// - `Fit` reads the scenario, and writes a text that fits it.
/// - `Faults` reads the scenario, and the turns if it has their path. It writes every fault with its place before the texts are refused.
/// - `Rule`, `Version` and `Help` read nothing. `Rule` writes the text of the code's rule in `rules`, or without a code the line of each.
///
/// Each reader is asked for 18 MiB and one byte at most; more, or a read that fails, is a file fault. If the texts or a word are refused,
/// if the host refuses memory, or if a read fails, nothing goes to `out`. After a failed write a prefix of the text did. Two things differ
/// for `Faults`: it may also stop after a prefix where the host refuses memory, and it flushes `out` before the texts are refused. A
/// failed write on `err` changes nothing.
pub fn execute<R: Read, T: Read, W: Write, E: Write>(
    alloc: Global,
    rules: &[&[RuleText]],
    command: &Command,
    scenario: &mut R,
    turns: &mut T,
    out: &mut Counted<W>,
    err: &mut Counted<E>,
) -> Status
    // The whole text was written, that of a run which upholds what is promised, and nothing was reported.
    ensures done { result ≡ Status.Done → Executes rules.now command.now (R.remaining scenario.old) (R.remaining scenario.new) (T.remaining turns.old)
        (T.remaining turns.new) (λ asked. WritesWhole asked (written_to W.contents out.old) (written_to W.contents out.new)) }
    ensures upheld { result ≡ Status.Done → Executes rules.now command.now (R.remaining scenario.old) (R.remaining scenario.new) (T.remaining turns.old)
        (T.remaining turns.new) (λ asked. IsUpheldBy asked (written_to W.contents out.old) (written_to W.contents out.new)) }
    ensures counted { result ≡ Status.Done → failures_of out.new ≡ failures_of out.old }
    ensures quiet { result ≡ Status.Done → err.new ≡ err.old }

    // The texts, or a word, are refused by the line that was reported.
    ensures refused { result ≡ Status.Refused → Executes rules.now command.now (R.remaining scenario.old) (R.remaining scenario.new) (T.remaining turns.old)
        (T.remaining turns.new) (λ asked. IsRefusal E.contents asked err.old err.new) }
    ensures unwritten { writes_refusals command.now ≡ false → result ≡ Status.Refused → out.new ≡ out.old }

    // Where all that is wrong is asked for, it was reported before the texts are refused.
    ensures faults { writes_refusals command.now ≡ true → result ≡ Status.Refused → Executes rules.now command.now (R.remaining scenario.old)
        (R.remaining scenario.new) (T.remaining turns.old) (T.remaining turns.new)
        (λ asked. ReportsAll asked (written_to W.contents out.old) (written_to W.contents out.new)) }

    // Where it was not reported to its end, a prefix of it was; where a text was not read, nothing.
    ensures faults_cut { writes_refusals command.now ≡ true → result ≡ Status.FileFault → (out.new ≡ out.old)
        ⊎ Executes rules.now command.now (R.remaining scenario.old) (R.remaining scenario.new) (T.remaining turns.old) (T.remaining turns.new)
        (λ asked. ReportsPart asked (written_to W.contents out.old) (written_to W.contents out.new) (failures_of out.old) (failures_of out.new)) }
    ensures faults_stopped { writes_refusals command.now ≡ true → result ≡ Status.HostMemory → (out.new ≡ out.old)
        ⊎ Executes rules.now command.now (R.remaining scenario.old) (R.remaining scenario.new) (T.remaining turns.old) (T.remaining turns.new)
        (λ asked. ReportsPrefix asked (written_to W.contents out.old) (written_to W.contents out.new)) }

    // Host memory was refused, and nothing was written.
    ensures silent { writes_refusals command.now ≡ false → result ≡ Status.HostMemory → out.new ≡ out.old }

    // A read failed and nothing was written, or a write failed and a prefix of the text was written.
    ensures cut { writes_refusals command.now ≡ false → result ≡ Status.FileFault → ((reads_scenario command.now ≡ true) × (out.new ≡ out.old))
        ⊎ (Executes rules.now command.now (R.remaining scenario.old) (R.remaining scenario.new) (T.remaining turns.old) (T.remaining turns.new)
        (λ asked. WritesCut asked (written_to W.contents out.old) (written_to W.contents out.new))
        × IsRaised (failures_of out.old) (failures_of out.new)) }

    // Other refusals have the line of their status.
    ensures reported { result ≢ Status.Refused → IsReported E.contents err.old err.new (status_line result) }
    ensures named { result ≢ Status.BadCommandLine }
    ensures help { is_never_refused command.now ≡ true → (result ≡ Status.Done) ⊎ (result ≡ Status.FileFault) }

    // Nothing is read that is not to be read, and no more than the limit and one byte.
    ensures scenario_unread { reads_scenario command.now ≡ false → scenario.new ≡ scenario.old }
    ensures turns_unread { reads_turns command.now ≡ false → turns.new ≡ turns.old }
    ensures scenario_most { GivesAtMost 18874369 (R.remaining scenario.old) (R.remaining scenario.new) }
    ensures turns_most { GivesAtMost 18874369 (T.remaining turns.old) (T.remaining turns.new) }
{
    match perform(alloc, rules, command, scenario, turns, out) {
        Ok(()) => Status::Done,
        Err(CommandFault::Refused(line)) => {
            report_line(err, line.as_bytes());
            Status::Refused
        }
        Err(CommandFault::Memory) => report(err, Status::HostMemory),
        Err(CommandFault::Read) => report(err, Status::FileFault),
        Err(CommandFault::Write) => report(err, Status::FileFault),
    }
}

/// Writes the line of a status, as `trade: file fault`, as far as writes succeed, and gives the status back. `Done` has no line,
/// and that of `Refused` is the fault's: for these nothing is written.
pub fn report<E: Write>(err: &mut Counted<E>, status: Status) -> Status
    ensures status { result ≡ status }
    ensures reported { IsReported E.contents err.old err.new (status_line status) }
{
    report_line(err, line_of(status));
    status
}

// The line of a status.
fn line_of(status: Status) -> &'static [u8]
    ensures { result.now ≡ status_line status }
{
    match status {
        Status::Done | Status::Refused => b"",
        Status::BadCommandLine => b"trade: bad command line\n",
        Status::HostMemory => b"trade: host memory refused\n",
        Status::FileFault => b"trade: file fault\n",
    }
}

// Writes a line, as far as writes succeed.
fn report_line<E: Write>(err: &mut Counted<E>, line: &[u8])
    ensures { IsReported E.contents err.old err.new line.now }
{
    match put(err, line) {
        Ok(()) => (),
        Err(_) => (),
    }
}

// Does what a command asks for.
fn perform<R: Read, T: Read, W: Write>(
    alloc: Global,
    rules: &[&[RuleText]],
    command: &Command,
    scenario: &mut R,
    turns: &mut T,
    out: &mut Counted<W>,
) -> Result<(), CommandFault>
    ensures ended { writes_refusals command.now ≡ false → IsKnown result → Executes rules.now command.now (R.remaining scenario.old)
        (R.remaining scenario.new) (T.remaining turns.old) (T.remaining turns.new)
        (Ended result (written_to W.contents out.old) (written_to W.contents out.new)) }
    ensures faults { writes_refusals command.now ≡ true → IsKnown result → Executes rules.now command.now (R.remaining scenario.old)
        (R.remaining scenario.new) (T.remaining turns.old) (T.remaining turns.new)
        (EndedFaults result (written_to W.contents out.old) (written_to W.contents out.new) (failures_of out.old) (failures_of out.new)) }
    ensures stopped { writes_refusals command.now ≡ true → result ≡ Err fault.Memory → (out.new ≡ out.old)
        ⊎ Executes rules.now command.now (R.remaining scenario.old) (R.remaining scenario.new) (T.remaining turns.old) (T.remaining turns.new)
        (λ asked. ReportsPrefix asked (written_to W.contents out.old) (written_to W.contents out.new)) }
    ensures failed_read { writes_refusals command.now ≡ true → result ≡ Err fault.Read → out.new ≡ out.old }
    ensures upheld { OnOk result (Executes rules.now command.now (R.remaining scenario.old) (R.remaining scenario.new) (T.remaining turns.old)
        (T.remaining turns.new) (λ asked. IsUpheldBy asked (written_to W.contents out.old) (written_to W.contents out.new))) }
    ensures counted { OnOk result (failures_of out.new ≡ failures_of out.old) }
    ensures leaves { writes_refusals command.now ≡ false → LeavesWriter out.old out.new result }
    ensures unread { reads_scenario command.now ≡ false → IfErr result (λ f. f ≢ fault.Read) }
    ensures help { is_never_refused command.now ≡ true → IfErr result (λ f. f ≡ fault.Write) }
    ensures scenario_unread { reads_scenario command.now ≡ false → scenario.new ≡ scenario.old }
    ensures turns_unread { reads_turns command.now ≡ false → turns.new ≡ turns.old }
    ensures scenario_most { GivesAtMost 18874369 (R.remaining scenario.old) (R.remaining scenario.new) }
    ensures turns_most { GivesAtMost 18874369 (T.remaining turns.old) (T.remaining turns.new) }
{
    match command {
        Command::OfScenario(command, _) => of_scenario(alloc, *command, scenario, out),
        Command::OfLeaf(command, _, leaf) => {
            of_leaf(alloc, *command, scenario, leaf.as_str(), out)
        }
        Command::OfTurns(command, _, _) => of_turns(alloc, *command, scenario, turns, out),
        Command::Fit(fitting, _) => of_fit(alloc, *fitting, scenario, out),
        Command::Faults(path, None) => of_faults(alloc, path.as_str(), scenario, out),
        Command::Faults(path, Some(other)) => {
            of_both_faults(alloc, path.as_str(), other.as_str(), scenario, turns, out)
        }
        Command::Rule(Some(code)) => of_code(alloc, rules, code.as_str(), out),
        Command::Rule(None) => of_all_codes(rules, out),
        Command::Version => show(VERSION, out),
        Command::Stored => run_stored(alloc, scenario, out),
        Command::Help(text) => show(text.as_str(), out),
    }
}

// Does what is asked of the scenario that one reader has and the turns that another has.
fn of_turns<R: Read, T: Read, W: Write>(
    alloc: Global,
    command: TurnsCommand,
    scenario: &mut R,
    turns: &mut T,
    out: &mut Counted<W>,
) -> Result<(), CommandFault>
    ensures ended { IsKnown result → ReadsBoth (R.remaining scenario.old) (R.remaining scenario.new) (T.remaining turns.old) (T.remaining turns.new)
        (Of_both command) (Ended result (written_to W.contents out.old) (written_to W.contents out.new)) }
    ensures upheld { OnOk result (ReadsBoth (R.remaining scenario.old) (R.remaining scenario.new) (T.remaining turns.old) (T.remaining turns.new)
        (Of_both command) (λ asked. IsUpheldBy asked (written_to W.contents out.old) (written_to W.contents out.new))) }
    ensures leaves { LeavesWriter out.old out.new result }
    ensures scenario_most { GivesAtMost 18874369 (R.remaining scenario.old) (R.remaining scenario.new) }
    ensures turns_most { GivesAtMost 18874369 (T.remaining turns.old) (T.remaining turns.new) }
{
    match command {
        TurnsCommand::Run => run_files(alloc, scenario, turns, out),
        _ => of_both(alloc, command, scenario, turns, out),
    }
}

// Does what is asked of the scenario that one reader has and the turns that another has, both read whole.
fn of_both<R: Read, T: Read, W: Write>(
    alloc: Global,
    command: TurnsCommand,
    scenario: &mut R,
    turns: &mut T,
    out: &mut Counted<W>,
) -> Result<(), CommandFault>
    requires { command ≢ Run }
    ensures ended { IsKnown result → ReadsBoth (R.remaining scenario.old) (R.remaining scenario.new) (T.remaining turns.old) (T.remaining turns.new)
        (Of_both command) (Ended result (written_to W.contents out.old) (written_to W.contents out.new)) }
    ensures upheld { OnOk result (ReadsBoth (R.remaining scenario.old) (R.remaining scenario.new) (T.remaining turns.old) (T.remaining turns.new)
        (Of_both command) (λ asked. IsUpheldBy asked (written_to W.contents out.old) (written_to W.contents out.new))) }
    ensures leaves { LeavesWriter out.old out.new result }
    ensures scenario_most { GivesAtMost 18874369 (R.remaining scenario.old) (R.remaining scenario.new) }
    ensures turns_most { GivesAtMost 18874369 (T.remaining turns.old) (T.remaining turns.new) }
{
    let scenario = read_input(alloc, scenario)?;
    let turns = read_input(alloc, turns)?;
    of_both_texts(alloc, command, scenario.as_slice(), turns.as_slice(), out)
}

// Does what is asked of a scenario and turns.
fn of_both_texts<W: Write>(
    alloc: Global,
    command: TurnsCommand,
    scenario: &[u8],
    turns: &[u8],
    out: &mut Counted<W>,
) -> Result<(), CommandFault>
    ensures ended { IsKnown result → Ended result (written_to W.contents out.old) (written_to W.contents out.new)
        (Of_both command scenario.now turns.now) }
    ensures leaves { LeavesWriter out.old out.new result }
{
    match write_both(alloc, command, scenario, turns, out) {
        Ok(()) => Ok(()),
        Err(fault) => Err(reported(alloc, fault)),
    }
}

// Writes what is asked of a scenario and turns.
fn write_both<W: Write>(
    alloc: Global,
    command: TurnsCommand,
    scenario: &[u8],
    turns: &[u8],
    out: &mut Counted<W>,
) -> Result<(), RunFault<'static>>
    ensures { WritesAs W.contents (both_written command scenario.now turns.now) out.old out.new result }
{
    match command {
        TurnsCommand::Run => run(alloc, scenario, turns, out),
        TurnsCommand::Trace => trace(alloc, scenario, turns, Reporting::Changes, out),
        TurnsCommand::TraceAll => trace(alloc, scenario, turns, Reporting::All, out),
        TurnsCommand::State(first) => state(alloc, scenario, turns, first, out),
        TurnsCommand::Peaks => peaks(alloc, scenario, turns, out),
    }
}

// Runs the scenario that one reader has over the turns that another has.
fn run_files<R: Read, T: Read, W: Write>(
    alloc: Global,
    scenario: &mut R,
    turns: &mut T,
    out: &mut Counted<W>,
) -> Result<(), CommandFault>
    ensures ended { IsKnown result → ReadsBoth (R.remaining scenario.old) (R.remaining scenario.new) (T.remaining turns.old) (T.remaining turns.new)
        (Of_both Run) (Ended result (written_to W.contents out.old) (written_to W.contents out.new)) }
    ensures upheld { OnOk result (ReadsBoth (R.remaining scenario.old) (R.remaining scenario.new) (T.remaining turns.old) (T.remaining turns.new)
        (Of_both Run) (λ asked. IsUpheldBy asked (written_to W.contents out.old) (written_to W.contents out.new))) }
    ensures leaves { LeavesWriter out.old out.new result }
    ensures scenario_most { GivesAtMost 18874369 (R.remaining scenario.old) (R.remaining scenario.new) }
    ensures turns_most { GivesAtMost 18874369 (T.remaining turns.old) (T.remaining turns.new) }
{
    let scenario = read_input(alloc, scenario)?;
    run_reader(alloc, scenario.as_slice(), turns, out)
}

// Runs a scenario over the turns that a reader has. Of their text no more is kept than a piece and the line that was begun before it.
fn run_reader<T: Read, W: Write>(
    alloc: Global,
    scenario: &[u8],
    turns: &mut T,
    out: &mut Counted<W>,
) -> Result<(), CommandFault>
    ensures ended { IsKnown result → ReadsText (T.remaining turns.old) (T.remaining turns.new) (λ text.
        Ended result (written_to W.contents out.old) (written_to W.contents out.new) (Of_both Run scenario.now text)) }
    ensures upheld { OnOk result (ReadsText (T.remaining turns.old) (T.remaining turns.new) (λ text.
        WritesPromised scenario.now text (written_to W.contents out.old) (written_to W.contents out.new))) }
    ensures leaves { LeavesWriter out.old out.new result }
    ensures most { GivesAtMost 18874369 (T.remaining turns.old) (T.remaining turns.new) }
{
    match World::load(alloc, scenario) {
        Ok(mut world) => {
            let ran = run_loaded(alloc, &mut world, turns, out);
            world.end();
            ran
        }
        Err(refused) => Err(refusal(alloc, scenario, refused, turns)),
    }
}

// Why a scenario is not run. The turns are read to their end first, since a read that fails is reported before it.
fn refusal<T: Read>(alloc: Global, scenario: &[u8], fault: RunFault, turns: &mut T) -> CommandFault
    requires { GivesOf fault scenario.now }
    ensures refused { IsKnown {A = Unit {0}} (Err result) → ReadsText (T.remaining turns.old) (T.remaining turns.new) (λ text.
        RefusesAs (run_written scenario.now text) result) }
    ensures silent { IsSilent result }
    ensures most { GivesAtMost 18874369 (T.remaining turns.old) (T.remaining turns.new) }
{
    match read_input(alloc, turns) {
        Ok(_) => {}
        Err(InputError::Memory(_)) => return CommandFault::Memory,
        Err(InputError::Fault) => return CommandFault::Read,
    }
    reported(alloc, fault)
}

// Why a command was not done, by why what it calls was not: the line of a refusal is made.
pub(crate) fn reported(alloc: Global, fault: RunFault<'_>) -> CommandFault
    ensures { IsReportedAs fault.entry result }
{
    match fault {
        RunFault::Memory => CommandFault::Memory,
        RunFault::Write => CommandFault::Write,
        refused => match format!(in alloc; "trade: {refused}\n") {
            Ok(line) => CommandFault::Refused(line),
            Err(_) => CommandFault::Memory,
        },
    }
}

// Runs what a reader has in the stored form.
fn run_stored<R: Read, W: Write>(
    alloc: Global,
    stored: &mut R,
    out: &mut Counted<W>,
) -> Result<(), CommandFault>
    ensures ended { IsKnown result → RunsStored (R.remaining stored.old) (R.remaining stored.new)
        (Ended result (written_to W.contents out.old) (written_to W.contents out.new)) }
    ensures upheld { OnOk result (RunsStored (R.remaining stored.old) (R.remaining stored.new)
        (λ asked. IsUpheldBy asked (written_to W.contents out.old) (written_to W.contents out.new))) }
    ensures leaves { LeavesWriter out.old out.new result }
    ensures most { GivesAtMost 18874369 (R.remaining stored.old) (R.remaining stored.new) }
{
    let input = read_input(alloc, stored)?;
    let (scenario, turns) = parted(input.as_slice());
    run_texts(alloc, scenario, turns, out)
}

// Runs a scenario over turns.
fn run_texts<W: Write>(
    alloc: Global,
    scenario: &[u8],
    turns: &[u8],
    out: &mut Counted<W>,
) -> Result<(), CommandFault>
    ensures ended { IsKnown result → Ended result (written_to W.contents out.old) (written_to W.contents out.new) (Of_both Run scenario.now turns.now) }
    ensures upheld { OnOk result (WritesPromised scenario.now turns.now (written_to W.contents out.old) (written_to W.contents out.new)) }
    ensures leaves { LeavesWriter out.old out.new result }
{
    match run(alloc, scenario, turns, out) {
        Ok(()) => Ok(()),
        Err(fault) => Err(reported(alloc, fault)),
    }
}

// Does what is asked of the scenario that a reader has.
fn of_scenario<R: Read, W: Write>(
    alloc: Global,
    command: ScenarioCommand,
    scenario: &mut R,
    out: &mut Counted<W>,
) -> Result<(), CommandFault>
    ensures ended { IsKnown result → ReadsScenario (R.remaining scenario.old) (R.remaining scenario.new) (Of_scenario command)
        (Ended result (written_to W.contents out.old) (written_to W.contents out.new)) }
    ensures upheld { OnOk result (ReadsScenario (R.remaining scenario.old) (R.remaining scenario.new) (Of_scenario command)
        (λ asked. IsUpheldBy asked (written_to W.contents out.old) (written_to W.contents out.new))) }
    ensures leaves { LeavesWriter out.old out.new result }
    ensures most { GivesAtMost 18874369 (R.remaining scenario.old) (R.remaining scenario.new) }
{
    let input = read_input(alloc, scenario)?;
    of_scenario_text(alloc, command, input.as_slice(), out)
}

// Does what is asked of a scenario.
fn of_scenario_text<W: Write>(
    alloc: Global,
    command: ScenarioCommand,
    scenario: &[u8],
    out: &mut Counted<W>,
) -> Result<(), CommandFault>
    ensures ended { IsKnown result → Ended result (written_to W.contents out.old) (written_to W.contents out.new) (Of_scenario command scenario.now) }
    ensures upheld { OnOk result (IsUpheldBy (Of_scenario command scenario.now) (written_to W.contents out.old) (written_to W.contents out.new)) }
    ensures leaves { LeavesWriter out.old out.new result }
{
    match write_scenario(alloc, command, scenario, out) {
        Ok(()) => Ok(()),
        Err(fault) => Err(reported(alloc, fault)),
    }
}

// Writes what is asked of a scenario.
fn write_scenario<W: Write>(
    alloc: Global,
    command: ScenarioCommand,
    scenario: &[u8],
    out: &mut Counted<W>,
) -> Result<(), RunFault<'static>>
    ensures writes { WritesAs W.contents (scenario_written command scenario.now) out.old out.new result }
    ensures upheld { OnOk result (IsUpheldBy (Of_scenario command scenario.now) (written_to W.contents out.old) (written_to W.contents out.new)) }
{
    match command {
        ScenarioCommand::Check => check(alloc, scenario, out),
        ScenarioCommand::Tree => tree(alloc, scenario, out),
        ScenarioCommand::Graph => graph(alloc, scenario, out),
        ScenarioCommand::Turns(seed, rounds) => turns(alloc, scenario, seed, rounds, out),
        ScenarioCommand::Races => races(alloc, scenario, out),
        ScenarioCommand::Outcomes(None) => outcomes(alloc, scenario, out),
        ScenarioCommand::Outcomes(Some(number)) => outcome_turns(alloc, scenario, number, out),
        ScenarioCommand::Size => size(alloc, scenario, out),
    }
}

// Reports all that is wrong with the scenario that a reader has, whose file has this path.
fn of_faults<R: Read, W: Write>(
    alloc: Global,
    path: &str,
    scenario: &mut R,
    out: &mut Counted<W>,
) -> Result<(), CommandFault>
    ensures ended { IsKnown result → ReadsScenario (R.remaining scenario.old) (R.remaining scenario.new) (λ text. Of_faults path.now text None)
        (EndedFaults result (written_to W.contents out.old) (written_to W.contents out.new) (failures_of out.old) (failures_of out.new)) }
    ensures stopped { result ≡ Err fault.Memory → (out.new ≡ out.old)
        ⊎ ReadsScenario (R.remaining scenario.old) (R.remaining scenario.new) (λ text. Of_faults path.now text None)
        (λ asked. ReportsPrefix asked (written_to W.contents out.old) (written_to W.contents out.new)) }
    ensures failed_read { result ≡ Err fault.Read → out.new ≡ out.old }
    ensures counted { OnOk result (failures_of out.new ≡ failures_of out.old) }
    ensures most { GivesAtMost 18874369 (R.remaining scenario.old) (R.remaining scenario.new) }
{
    let input = read_input(alloc, scenario)?;
    of_faults_text(alloc, path, input.as_slice(), out)
}

// Reports all that is wrong with a scenario, whose file has this path.
fn of_faults_text<W: Write>(
    alloc: Global,
    path: &str,
    scenario: &[u8],
    out: &mut Counted<W>,
) -> Result<(), CommandFault>
    ensures ended { IsKnown result → EndedFaults result (written_to W.contents out.old) (written_to W.contents out.new)
        (failures_of out.old) (failures_of out.new) (Of_faults path.now scenario.now None) }
    ensures stopped { result ≡ Err fault.Memory
        → ReportsPrefix (Of_faults path.now scenario.now None) (written_to W.contents out.old) (written_to W.contents out.new) }
    ensures read { IfErr result (λ f. f ≢ fault.Read) }
    ensures counted { OnOk result (failures_of out.new ≡ failures_of out.old) }
{
    let file = File {
        path,
        text: scenario,
    };
    match faults(alloc, file, out) {
        Ok(None) => Ok(()),
        Ok(Some(fault)) => Err(refused_after(alloc, RunFault::Load(fault), out)),
        Err(error) => Err(unreported(error)),
    }
}

// Why texts are refused, once all that is wrong with them has left the writer: the line of the refusal is made.
fn refused_after<W: Write>(
    alloc: Global,
    refused: RunFault<'_>,
    out: &mut Counted<W>,
) -> CommandFault
    ensures bytes { Keeps (written_to W.contents out.old) (written_to W.contents out.new) }
    ensures failures { failures_of out.new ≡ failures_of out.old }
    ensures reported { (result ≡ fault.Write) ⊎ IsReportedAs refused.entry result }
{
    match out.flush() {
        Ok(()) => reported(alloc, refused),
        Err(_) => CommandFault::Write,
    }
}

// Why not all that is wrong was reported.
fn unreported(error: ReportError) -> CommandFault
    ensures { IsUntold error result }
{
    match error {
        ReportError::Memory => CommandFault::Memory,
        ReportError::Write => CommandFault::Write,
    }
}

// Reports all that is wrong with the scenario that one reader has, or with the turns that another has; their files have these paths.
fn of_both_faults<R: Read, T: Read, W: Write>(
    alloc: Global,
    path: &str,
    turns_path: &str,
    scenario: &mut R,
    turns: &mut T,
    out: &mut Counted<W>,
) -> Result<(), CommandFault>
    ensures ended { IsKnown result → ReadsBoth (R.remaining scenario.old) (R.remaining scenario.new) (T.remaining turns.old) (T.remaining turns.new)
        (λ text other. Of_faults path.now text (Some (turns_path.now, other)))
        (EndedFaults result (written_to W.contents out.old) (written_to W.contents out.new) (failures_of out.old) (failures_of out.new)) }
    ensures stopped { result ≡ Err fault.Memory → (out.new ≡ out.old)
        ⊎ ReadsBoth (R.remaining scenario.old) (R.remaining scenario.new) (T.remaining turns.old) (T.remaining turns.new)
        (λ text other. Of_faults path.now text (Some (turns_path.now, other)))
        (λ asked. ReportsPrefix asked (written_to W.contents out.old) (written_to W.contents out.new)) }
    ensures failed_read { result ≡ Err fault.Read → out.new ≡ out.old }
    ensures counted { OnOk result (failures_of out.new ≡ failures_of out.old) }
    ensures scenario_most { GivesAtMost 18874369 (R.remaining scenario.old) (R.remaining scenario.new) }
    ensures turns_most { GivesAtMost 18874369 (T.remaining turns.old) (T.remaining turns.new) }
{
    let scenario = read_input(alloc, scenario)?;
    let turns = read_input(alloc, turns)?;
    let scenario = File {
        path,
        text: scenario.as_slice(),
    };
    let turns = File {
        path: turns_path,
        text: turns.as_slice(),
    };
    of_both_files(alloc, scenario, turns, out)
}

// Reports all that is wrong with a scenario, or with turns.
fn of_both_files<W: Write>(
    alloc: Global,
    scenario: File<'_>,
    turns: File<'_>,
    out: &mut Counted<W>,
) -> Result<(), CommandFault>
    ensures ended { IsKnown result → EndedFaults result (written_to W.contents out.old) (written_to W.contents out.new)
        (failures_of out.old) (failures_of out.new)
        (Of_faults scenario.entry.path.now scenario.entry.text.now (Some (turns.entry.path.now, turns.entry.text.now))) }
    ensures stopped { result ≡ Err fault.Memory
        → ReportsPrefix (Of_faults scenario.entry.path.now scenario.entry.text.now (Some (turns.entry.path.now, turns.entry.text.now)))
        (written_to W.contents out.old) (written_to W.contents out.new) }
    ensures read { IfErr result (λ f. f ≢ fault.Read) }
    ensures counted { OnOk result (failures_of out.new ≡ failures_of out.old) }
{
    first_turn_fault_laws();
    match faults_of_both(alloc, scenario, turns, out) {
        Ok(None) => Ok(()),
        Ok(Some(refused)) => Err(refused_after(alloc, refusal_of(refused), out)),
        Err(error) => Err(unreported(error)),
    }
}

// The fault of a run for which a scenario and turns are refused.
fn refusal_of(refused: Refused) -> RunFault<'static>
    ensures { result ≡ refusal_fault refused }
{
    match refused {
        Refused::Scenario(fault) => RunFault::Load(fault),
        Refused::Turns { fault, line } => RunFault::Turns { fault, line },
    }
}

// Does what is asked of a leaf of the scenario that a reader has.
fn of_leaf<R: Read, W: Write>(
    alloc: Global,
    command: LeafCommand,
    scenario: &mut R,
    leaf: &str,
    out: &mut Counted<W>,
) -> Result<(), CommandFault>
    ensures ended { IsKnown result → ReadsScenario (R.remaining scenario.old) (R.remaining scenario.new) (λ text. Of_leaf command text leaf.now)
        (Ended result (written_to W.contents out.old) (written_to W.contents out.new)) }
    ensures leaves { LeavesWriter out.old out.new result }
    ensures most { GivesAtMost 18874369 (R.remaining scenario.old) (R.remaining scenario.new) }
{
    let input = read_input(alloc, scenario)?;
    of_leaf_text(alloc, command, input.as_slice(), leaf, out)
}

// Does what is asked of a leaf of a scenario.
fn of_leaf_text<W: Write>(
    alloc: Global,
    command: LeafCommand,
    scenario: &[u8],
    leaf: &str,
    out: &mut Counted<W>,
) -> Result<(), CommandFault>
    ensures ended { IsKnown result → Ended result (written_to W.contents out.old) (written_to W.contents out.new) (Of_leaf command scenario.now leaf.now) }
    ensures leaves { LeavesWriter out.old out.new result }
{
    match write_leaf(alloc, command, scenario, leaf, out) {
        Ok(()) => Ok(()),
        Err(fault) => Err(reported(alloc, fault)),
    }
}

// Writes what is asked of a leaf.
fn write_leaf<'a, W: Write>(
    alloc: Global,
    command: LeafCommand,
    scenario: &[u8],
    leaf: &'a str,
    out: &mut Counted<W>,
) -> Result<(), RunFault<'a>>
    ensures { WritesAs W.contents (leaf_written command scenario.now leaf.now) out.old out.new result }
{
    match command {
        LeafCommand::Asm => asm(alloc, scenario, leaf, out),
        LeafCommand::List => list(alloc, scenario, leaf, Margin::Plain, out),
        LeafCommand::ListNumbers => list(alloc, scenario, leaf, Margin::Numbered, out),
        LeafCommand::Why => why(alloc, scenario, leaf, out),
    }
}

// Reports what a code means.
fn of_code<W: Write>(
    alloc: Global,
    rules: &[&[RuleText]],
    code: &str,
    out: &mut Counted<W>,
) -> Result<(), CommandFault>
    ensures ended { IsKnown result → Ended result (written_to W.contents out.old) (written_to W.contents out.new)
        (Of_nothing (rules_written rules.now (Some code.now))) }
    ensures unread { IfErr result (λ f. f ≢ fault.Read) }
    ensures leaves { LeavesWriter out.old out.new result }
{
    match rule_of(rules, code) {
        Some(rule) => show(rule.text, out),
        None => Err(no_rule(alloc, code)),
    }
}

// Why nothing is reported of a word: no rule has such a code. The line of a refusal is made.
fn no_rule(alloc: Global, code: &str) -> CommandFault
    ensures refused { RefusesAs (Err (refused_with (codes "no rule " ++ code.now))) result }
    ensures silent { IsSilent result }
    ensures unread { result ≢ fault.Read }
{
    match format!(in alloc; "trade: no rule {code}\n") {
        Ok(line) => CommandFault::Refused(line),
        Err(_) => CommandFault::Memory,
    }
}

// Writes the line of each rule.
fn of_all_codes<W: Write>(rules: &[&[RuleText]], out: &mut Counted<W>) -> Result<(), CommandFault>
    ensures ended { Ended result (written_to W.contents out.old) (written_to W.contents out.new) (Of_nothing (rules_written rules.now None)) }
    ensures fault { IfErr result (λ f. f ≡ fault.Write) }
    ensures leaves { LeavesWriter out.old out.new result }
{
    match write_rules(rules, out) {
        Ok(()) => Ok(()),
        Err(_) => Err(CommandFault::Write),
    }
}

// Writes a text whole.
fn show<W: Write>(text: &str, out: &mut Counted<W>) -> Result<(), CommandFault>
    ensures ended { Ended result (written_to W.contents out.old) (written_to W.contents out.new) (Of_nothing (Ok text.now)) }
    ensures fault { IfErr result (λ f. f ≡ fault.Write) }
    ensures leaves { LeavesWriter out.old out.new result }
{
    match put(out, text.as_bytes()) {
        Ok(()) => Ok(()),
        Err(_) => Err(CommandFault::Write),
    }
}

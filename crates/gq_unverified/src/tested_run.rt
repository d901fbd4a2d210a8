// Runs with tests.
ghost use Rattle.std.specs.Prelude.{◌≡◌, ◌<◌, ◌^◌, length, Ok, IfOk, IfSome, IfErr};
ghost use Rattle.gq_model.specs.machine.Scenario.{components, system};
ghost use Rattle.gq_model.specs.machine.World.{start};
ghost use Rattle.gq_model.specs.texts.Turns.{acts_of};
ghost use Rattle.gq_model.specs.texts.Turns as texts;
ghost use Rattle.gq_laws.specs.Ready.{IsReady};
ghost use Rattle.gq_output.specs.Writer_failures.{Writes};
ghost use Rattle.gq_world.specs.internal.Act_transitions.{AreOf, acts_of_lines};
ghost use Rattle.gq_reports.specs.Command_outcomes.{IsBefore};
ghost use Rattle.gq_unverified.specs.Tested_run_ends.{EndsTested, IsTestFault};
ghost use Rattle.gq_unverified.specs.Tested.{first_wrong, run_tested, tested_text, tested_turns};
ghost use Rattle.gq_unverified.specs.internal.Taking.{turns_in};

use crate::step::WrongStep;
use crate::tested_turns::take_all;
use gq_init::turns::{TurnsError, read_turns};
use gq_init::{NodeTable, TurnItem};
use gq_load::read::unverified_laws;
use gq_load::unverified::read_unverified;
use gq_machine::machine::Machine;
use gq_model::fault::Wrong;
use gq_output::counted::{Counted, WriteFault};
use gq_reports::run_fault::RunFault;
use gq_scenario::scenario::LeafNo;
use gq_world::account_lines::write_accounts;
use std::alloc::Global;
use std::io::Write;

// All turns, settings and signals of a list from the start of a scenario, and, where no step is wrong, the lines of the accounts, up to the first line that is
// not written whole. They allocate no host memory.
fn run_machine<W: Write>(
    machine: &mut Machine,
    turns: &[TurnItem],
    out: &mut Counted<W>,
) -> Result<Option<(LeafNo, Wrong)>, WriteFault>
    requires start { machine.old.world ≡ start (system machine.old.scenario) }
    requires leaves { AreOf (length (components machine.old.scenario)) turns.now }
    requires few { turns_in turns.now < 2 ^ 64 }
    ensures scenario { machine.new.scenario ≡ machine.old.scenario }
    ensures wrong { IfOk result (λ wrong. wrong ≡ first_wrong machine.old.scenario (acts_of_lines machine.old.scenario turns.now)) }
    ensures there { IfOk result (λ wrong. IfSome wrong (λ p. p.0 < length (components machine.old.scenario))) }
    ensures writes { Writes W.contents out.old out.new (tested_text machine.old.scenario (acts_of_lines machine.old.scenario turns.now)) result }
{
    match take_all(machine, turns, out) {
        Ok(None) => match write_accounts(machine, &[], out) {
            Ok(()) => Ok(None),
            Err(fault) => Err(fault),
        },
        Ok(Some(wrong)) => Ok(Some(wrong)),
        Err(fault) => Err(fault),
    }
}

// The same, with the wrong step by its leaf's name.
fn run_named<W: Write>(
    machine: &mut Machine,
    turns: &[TurnItem],
    out: &mut Counted<W>,
) -> Result<Option<WrongStep>, RunFault<'static>>
    requires start { machine.old.world ≡ start (system machine.old.scenario) }
    requires leaves { AreOf (length (components machine.old.scenario)) turns.now }
    requires few { turns_in turns.now < 2 ^ 64 }
    ensures { EndsTested W.contents (tested_turns machine.old.scenario (Ok (acts_of_lines machine.old.scenario turns.now))) out.old out.new result }
{
    match run_machine(machine, turns, out) {
        Ok(None) => Ok(None),
        Ok(Some((leaf, wrong))) => Ok(Some(WrongStep::of(machine.table(), leaf, wrong))),
        Err(_) => Err(RunFault::Write),
    }
}

// A run with tests of a scenario that was read, over turns, settings and signals that were.
fn run_table<W: Write>(
    alloc: Global,
    table: NodeTable,
    turns: &[TurnItem],
    out: &mut Counted<W>,
) -> Result<Option<WrongStep>, RunFault<'static>>
    requires ready { IsReady table }
    requires leaves { AreOf (length (components table)) turns.now }
    requires few { turns_in turns.now < 2 ^ 64 }
    ensures { EndsTested W.contents (tested_turns table (Ok (acts_of_lines table turns.now))) out.old out.new result }
{
    match Machine::new(alloc, table) {
        Ok(mut machine) => run_named(&mut machine, turns, out),
        Err(_) => Err(RunFault::Memory),
    }
}

// What the lines of a text give, or the fault that a run reports.
fn listed(alloc: Global, text: &[u8], table: &NodeTable) -> Result<Vec<TurnItem>, RunFault<'static>>
    ensures listed { IfOk result (λ turns. texts.listed table.now text.now ≡ Ok turns.items) }
    ensures refused { IfErr result (λ fault. IsTestFault fault (tested_turns table.now (acts_of (system table.now) (texts.listed table.now text.now)))) }
    ensures before { IfErr result (λ fault. IsBefore fault) }
{
    match read_turns(alloc, text, table) {
        Ok(turns) => Ok(turns),
        Err(TurnsError::Memory(_)) => Err(RunFault::Memory),
        Err(TurnsError::Fault { fault, line }) => Err(RunFault::Turns { fault, line }),
    }
}

/// Runs a scenario, a text in TOML, by the turns, settings and signals of a second text, with tests. The scenario has to be read and resolved, but its
/// programs are not judged, so a step may be wrong. Takes the turns up to the first wrong step, writes the lines that they give and, where no step is wrong,
/// the accounts of all nodes, with 0 for each step budget. Answers the wrong step, if there is one. Nothing is written where the scenario or the turns are
/// refused, or where host memory is, which only loading and reading the turns take.
pub fn run_unverified<W: Write>(
    alloc: Global,
    scenario: &[u8],
    turns: &[u8],
    out: &mut Counted<W>,
) -> Result<Option<WrongStep>, RunFault<'static>>
    ensures { EndsTested W.contents (run_tested scenario.now turns.now) out.old out.new result }
{
    unverified_laws();
    let table = read_unverified(alloc, scenario)?;
    let turns = listed(alloc, turns, &table)?;
    run_table(alloc, table, turns.as_slice(), out)
}

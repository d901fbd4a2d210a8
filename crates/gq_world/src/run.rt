// Turns, settings and signals, one after the other.
ghost use Rattle.std.specs.Prelude.{◌≡◌, ◌+◌, ◌<◌, ◌≤◌, false, length, OnOk};
ghost use Rattle.gq_model.specs.machine.Scenario.{components, system};
ghost use Rattle.gq_model.specs.machine.Run.{act_on, turns_of, run_on};
ghost use Rattle.gq_model.specs.machine.World.{start};
ghost use Rattle.gq_output.specs.Writer_failures.{Writes, written_to};
ghost use Rattle.gq_init.specs.Turn_items.{IsOf};
ghost use Rattle.gq_world.specs.World_between_turns.{greatest_lines};
ghost use Rattle.gq_world.specs.internal.Act_transitions.{AreOf, RunsThrough, acts_of_lines, line_on, lines_on, turns_written};
ghost use Rattle.gq_reports.specs.Whole.{run_written, whole_of};
ghost use Rattle.gq_world.specs.Headline.{WritesPromised};
ghost use Rattle.gq_reports.specs.Command_outcomes.{WritesAs};

use crate::to_rest::take_rest;
use crate::world::World;
use gq_init::TurnItem;
use gq_init::turns::{TurnsError, read_turns};
use gq_model::act::{Act, TurnLine};
use gq_output::counted::{Counted, WriteFault};
use gq_output::gathered_lines::Lines;
use gq_reports::RunFault;
use gq_scenario::scenario::LeafNo;
use std::alloc::Global;
use std::io::Write;

// So many turns of a leaf, up to the first whose line is not written whole. They allocate no host memory.
pub(crate) fn take_turns<W: Write>(
    world: &mut World,
    leaf: LeafNo,
    count: u32,
    lines: &mut Lines,
    out: &mut Counted<W>,
) -> Result<(), WriteFault>
    requires leaf { leaf < length (components world.old.scenario) }
    requires running { world.old.stopped ≡ false }
    ensures { RunsThrough W.contents (turns_of (system world.old.scenario) leaf count) 0 world.old world.new out.old out.new result }
{
    let mut left = count;
    while left > 0 {
        left = world.turns(leaf, left, lines, out)?;
    }
    Ok(())
}

// Gives a leaf turns, up to the first whose line is not written whole, or another value of an input, or a signal. It allocates no host memory.
fn take_act<W: Write>(
    world: &mut World,
    leaf: LeafNo,
    act: Act,
    lines: &mut Lines,
    out: &mut Counted<W>,
) -> Result<(), WriteFault>
    requires leaf { leaf < length (components world.old.scenario) }
    requires running { world.old.stopped ≡ false }
    requires few { world.old.signals < greatest_lines }
    ensures { RunsThrough W.contents (act_on (system world.old.scenario) leaf act) 1 world.old world.new out.old out.new result }
{
    match act {
        Act::Turns(count) => take_turns(world, leaf, count, lines, out),
        Act::Sets(input, number) => {
            let _set = world.set_input(leaf, usize::from(input), number);
            Ok(())
        }
        Act::Submits(signal) => {
            let _submitted = world.signal(leaf, usize::from(signal));
            Ok(())
        }
    }
}

// What a line of a list of turns gives, up to the first turn whose line is not written whole. It allocates no host memory.
fn take_line<W: Write>(
    world: &mut World,
    line: TurnLine,
    lines: &mut Lines,
    out: &mut Counted<W>,
) -> Result<(), WriteFault>
    requires leaf { IsOf (length (components world.old.scenario)) line }
    requires running { world.old.stopped ≡ false }
    requires few { world.old.signals < greatest_lines }
    ensures { RunsThrough W.contents (line_on (system world.old.scenario) line) 1 world.old world.new out.old out.new result }
{
    match line {
        TurnLine::Gives(leaf, act) => take_act(world, LeafNo::new(leaf), act, lines, out),
        TurnLine::Rests => take_rest(world, lines, out),
    }
}

// What all lines of a list give, up to the first turn whose line is not written whole. They allocate no host memory.
fn take_all<W: Write>(
    world: &mut World,
    turns: &[TurnItem],
    lines: &mut Lines,
    out: &mut Counted<W>,
) -> Result<(), WriteFault>
    requires leaves { AreOf (length (components world.old.scenario)) turns.now }
    requires running { world.old.stopped ≡ false }
    requires few { world.old.signals + length turns.now ≤ greatest_lines }
    ensures { RunsThrough W.contents (lines_on (system world.old.scenario) turns.now) (length turns.now) world.old world.new out.old out.new result }
{
    for item in turns {
        take_line(world, item.line(), lines, out)?;
    }
    Ok(())
}

/// Takes all turns, settings and signals of a list from the start of a world, and writes the lines that they give and then the accounts of all nodes. This is
/// what `run` does once it has read both texts. After a failed write a prefix of that was written. It allocates no host memory.
pub fn run_world<W: Write>(
    world: &mut World,
    turns: &[TurnItem],
    out: &mut Counted<W>,
) -> Result<(), WriteFault>
    requires start { world.old.world ≡ start (system world.old.scenario) }
    requires leaves { AreOf (length (components world.old.scenario)) turns.now }
    requires running { world.old.stopped ≡ false }
    requires few { world.old.signals + length turns.now ≤ greatest_lines }
    ensures { Writes W.contents out.old out.new (whole_of world.old.scenario (acts_of_lines world.old.scenario turns.now)) result }
{
    let mut lines = Lines::new();
    take_all(world, turns, &mut lines, out)?;
    world.write_accounts(out)
}

// Reads turns, takes all of them from the start of a scenario, and writes the lines that they give and then those of its accounts.
fn run_turns<W: Write>(
    alloc: Global,
    world: &mut World,
    turns: &[u8],
    out: &mut Counted<W>,
) -> Result<(), RunFault<'static>>
    requires start { world.old.world ≡ start (system world.old.scenario) }
    requires running { world.old.stopped ≡ false }
    requires signals { world.old.signals ≡ 0 }
    ensures { WritesAs W.contents (turns_written world.old.scenario turns.now) out.old out.new result }
{
    let turns = match read_turns(alloc, turns, world.table()) {
        Ok(turns) => turns,
        Err(TurnsError::Memory(_)) => return Err(RunFault::Memory),
        Err(TurnsError::Fault { fault, line }) => return Err(RunFault::Turns { fault, line }),
    };
    match run_world(world, turns.as_slice(), out) {
        Ok(()) => Ok(()),
        Err(_) => Err(RunFault::Write),
    }
}

/// Runs a scenario, a text in TOML, by the turns, settings and signals of a second text. It loads the scenario, takes all of them, and writes the lines that
/// they give and then the accounts of all nodes.
///
/// If the scenario or the turns are refused, or the host refuses memory, nothing is written. Only loading and reading the turns allocate host memory.
pub fn run<W: Write>(
    alloc: Global,
    scenario: &[u8],
    turns: &[u8],
    out: &mut Counted<W>,
) -> Result<(), RunFault<'static>>
    ensures writes { WritesAs W.contents (run_written scenario.now turns.now) out.old out.new result }

    // What was written is the text of a run that never came to a wrong step and kept every budget, and whose quotas sum to the total. This holds of every run
    // of the scenario, over any turns, settings and signals.
    ensures promised { OnOk result (WritesPromised scenario.now turns.now (written_to W.contents out.old) (written_to W.contents out.new)) }
{
    let mut world = World::load(alloc, scenario)?;
    let ran = run_turns(alloc, &mut world, turns, out);
    drop(world);
    ran
}

// A list of turns that brings all work to rest, reported.
ghost use Rattle.std.specs.Prelude.{◌≡◌, ◌+◌, ◌<◌, ◌≤◌, ◌==◌, ◌∷◌, ◌++◌, [], Ok, true, false, length, map, IfOk, OnOk};
ghost use Rattle.gq_model.specs.declared.act.TurnLine.TheVariants.{Gives};
ghost use Rattle.gq_model.specs.machine.Scenario.{components, system};
ghost use Rattle.gq_model.specs.machine.World.{start};
ghost use Rattle.gq_model.specs.machine.Rest.{greatest_turns};
ghost use Rattle.gq_init.specs.Turn_items.{IsOf};
ghost use Rattle.gq_output.specs.Writer_failures.{Writes, written_to};
ghost use Rattle.gq_reports.specs.Command_outcomes.{WritesAs};
ghost use Rattle.gq_traces.specs.Rest_runs.{WritesToRest};
ghost use Rattle.gq_traces.specs.Schedule.{all_listed, cut_lines, fitting, given_line, given_part, greatest_text, list_text, listed_turns, schedule_text};
ghost use Rattle.gq_traces.specs.Traces_written.{turns_written};
ghost use Rattle.gq_views.specs.Listing.{joined};
ghost use Rattle.gq_world.specs.World_between_turns.{AreOf};

use crate::reactions::list_all;
use crate::schedule_laws::turns_laws;
use arrayvec::ArrayVec;
use gq_init::{NodeTable, TurnItem};
use gq_model::act::{Act, TurnLine};
use gq_output::counted::{Counted, WriteFault, put};
use gq_reports::RunFault;
use gq_scenario::scenario::LeafNo;
use gq_world::world::World;
use itoa::Buffer;
use std::alloc::Global;
use std::io::Write;

// The greatest number of bytes of a line: a name of 16, a blank, ten digits and a line feed.
const LINE: usize = 28;

// The greatest number of bytes of the line that turns were cut: 18, seven digits and a line feed.
const CUT: usize = 26;

// A text that may be read has so many bytes, but for the line that it was cut.
const GREATEST_TEXT: usize = 16_777_190;

// Puts bytes at the end of a line.
fn extend<const N: usize>(line: &mut ArrayVec<u8, N>, bytes: &[u8])
    requires { length line.old.items + length bytes.now ≤ N }
    ensures { line.new.items ≡ line.old.items ++ bytes.now }
{
    match line.try_extend_from_slice(bytes) {
        Ok(()) => (),
        Err(_) => unreachable!(),
    }
}

// Puts what is given to a leaf behind its name: a blank and the number of turns, or an exclamation mark and the number of the signal.
fn extend_part(line: &mut ArrayVec<u8, LINE>, act: Act)
    requires { length line.old.items ≤ 16 }
    ensures part { line.new.items ≡ line.old.items ++ given_part act }
    ensures short { length line.new.items ≤ 27 }
{
    match act {
        Act::Turns(count) => {
            extend(line, b" ");
            extend(line, Buffer::new().format(count).as_bytes());
        }
        Act::Submits(signal) => {
            extend(line, b"!");
            extend(line, Buffer::new().format(signal).as_bytes());
        }
        Act::Sets(_, _) => {}
    }
}

// The line of what is given to a leaf, with its line feed.
fn given_text(table: &NodeTable, leaf: LeafNo, act: Act) -> ArrayVec<u8, LINE>
    requires { leaf < length (components table.now) }
    ensures { result.items ≡ given_line (components table.now) (Gives leaf act) ++ 10 ∷ [] }
{
    let mut line = ArrayVec::new();
    extend(&mut line, table.name(leaf).as_bytes());
    extend_part(&mut line, act);
    extend(&mut line, b"\n");
    line
}

// The line of an item, with its line feed.
fn line_text(table: &NodeTable, item: &TurnItem) -> ArrayVec<u8, LINE>
    requires { IsOf (length (components table.now)) item.now }
    ensures { result.items ≡ given_line (components table.now) item.now ++ 10 ∷ [] }
{
    match item.line() {
        TurnLine::Gives(leaf, act) => given_text(table, LeafNo::new(leaf), act),
        TurnLine::Rests => {
            let mut line = ArrayVec::new();
            extend(&mut line, b"rest\n");
            line
        }
    }
}

// What was written of a list.
#[derive(Clone, Copy)]
pub(crate) struct Written {
    // How many turns there are in the lines.
    turns: u32,
    // Whether all lines had room.
    all: bool,
}

// Writes the lines of a list, as long as they have room in a text.
fn write_lines<W: Write>(
    table: &NodeTable,
    list: &[TurnItem],
    out: &mut Counted<W>,
) -> Result<Written, WriteFault>
    requires leaves { AreOf (length (components table.now)) list.now }
    requires few { listed_turns list.now ≤ greatest_turns }
    ensures turns { IfOk result (λ written. written.turns ≡ listed_turns (fitting (components table.now) greatest_text list.now)) }
    ensures all { IfOk result (λ written. written.all ≡ (length (fitting (components table.now) greatest_text list.now) == length list.now)) }
    ensures few { IfOk result (λ written. written.turns ≤ greatest_turns) }
    ensures writes { Writes W.contents out.old out.new
        (joined (map (given_line (components table.now)) (fitting (components table.now) greatest_text list.now))) result }
{
    let mut room = GREATEST_TEXT;
    let mut turns = 0;
    for item in list {
        let line = line_text(table, item);
        if line.len() > room {
            return Ok(Written { turns, all: false });
        }
        put(out, line.as_slice())?;
        room -= line.len();
        turns += item.count();
    }
    Ok(Written { turns, all: true })
}

// Writes the line that turns were cut, after so many.
fn write_cut<W: Write>(taken: u32, out: &mut Counted<W>) -> Result<(), WriteFault>
    requires { taken ≤ greatest_turns }
    ensures { Writes W.contents out.old out.new (joined (cut_lines true taken)) result }
{
    let mut line: ArrayVec<u8, CUT> = ArrayVec::new();
    extend(&mut line, b"# cut after ");
    extend(&mut line, Buffer::new().format(taken).as_bytes());
    extend(&mut line, b" turns\n");
    put(out, line.as_slice())
}

// Writes a list; at the end, where some leaf could go on or there are more lines than have room, that it was cut.
fn write_list<W: Write>(
    world: &World,
    list: &[TurnItem],
    out: &mut Counted<W>,
) -> Result<(), WriteFault>
    requires leaves { AreOf (length (components world.now.scenario)) list.now }
    requires few { listed_turns list.now ≤ greatest_turns }
    ensures { Writes W.contents out.old out.new (list_text world.now.scenario world.now.world list.now) result }
{
    let written = write_lines(world.table(), list, out)?;
    if !written.all {
        return write_cut(written.turns, out);
    }
    if !world.is_at_rest() {
        return write_cut(written.turns, out);
    }
    Ok(())
}

// Takes the turns of a world from its start, with signals so many times, and writes them.
fn write_schedule<W: Write>(
    alloc: Global,
    world: &mut World,
    seed: Option<u32>,
    times: Option<u32>,
    out: &mut Counted<W>,
) -> Result<(), RunFault<'static>>
    requires start { world.old.world ≡ start (system world.old.scenario) }
    requires running { world.old.stopped ≡ false }
    requires signals { world.old.signals ≡ 0 }
    requires leaves { AreOf (length (components world.old.scenario)) (all_listed seed times world.old.scenario).lines }
    requires few { listed_turns (all_listed seed times world.old.scenario).lines ≤ greatest_turns }
    ensures { WritesAs W.contents (Ok (schedule_text seed times world.old.scenario)) out.old out.new result }
{
    let mut list = Vec::new(alloc);
    list_all(world, seed, times, &mut list)?;
    match write_list(world, list.as_slice(), out) {
        Ok(()) => Ok(()),
        Err(_) => Err(RunFault::Write),
    }
}

/// Writes a list of turns that brings all work of a scenario to rest, as text, with a line for each leaf that took turns.
///
/// - Without a seed: rounds over the leaves in preorder. In a round every leaf in turn takes as many turns as it can. The list ends with a round in which no
///   leaf can take a turn, or after 1,000,000 turns.
/// - With a seed: one of the leaves that can take a turn is chosen, each with the same weight, and takes from 1 to 16 turns in a row as far as it can. The list
///   ends where no leaf can take a turn, or after 1,000,000 turns or 800,000 lines. The same seed gives the same list. The numbers are those of PCG32.
/// - With a number of times: then, so many times, a line for each signal of each leaf in preorder, and turns that bring all work to rest in the same manner.
///   The n-th time is scheduled by the seed plus n. The list also ends before its text is longer than 16 MiB.
///
/// If some leaf can go on at the end or lines had no room, the last line is a comment that says after how many turns the list was cut. A refused scenario and
/// an allocation failure write nothing. A turn allocates no host memory. After a failed write a prefix of the text was written.
pub fn turns<W: Write>(
    alloc: Global,
    scenario: &[u8],
    seed: Option<u32>,
    times: Option<u32>,
    out: &mut Counted<W>,
) -> Result<(), RunFault<'static>>
    ensures writes { WritesAs W.contents (turns_written seed times scenario.now) out.old out.new result }

    // What was written is read as turns and signals for that scenario, and a run over them comes to no wrong step and, unless they are cut, to rest.
    ensures rests { OnOk result (WritesToRest seed times scenario.now (written_to W.contents out.old) (written_to W.contents out.new)) }
{
    turns_laws();
    let mut world = World::load(alloc, scenario)?;
    let written = write_schedule(alloc, &mut world, seed, times, out);
    world.end();
    written
}

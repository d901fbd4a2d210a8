// Turns from the start of a world to rest, and then, time after time, all signals and turns to rest.
ghost use Rattle.std.specs.Prelude.{◌≡◌, ◌+◌, ◌<◌, ◌≤◌, ◌++◌, [], false, length, IfOk, OnOk, slice_get};
ghost use Rattle.gq_model.specs.machine.Scenario.{components, system};
ghost use Rattle.gq_model.specs.machine.World.{start};
ghost use Rattle.gq_model.specs.machine.Rest.{greatest_turns};
ghost use Rattle.gq_model.specs.texts.Turns.{signals_at};
ghost use Rattle.gq_traces.specs.Schedule.{all_listed, as_lines, next_seed, rest_by, signals_from, times_in, all_signals, with_all_signals, with_signals_from};

use crate::chance::list_choices;
use crate::schedule::list_rounds;
use gq_init::{NodeTable, TurnItem};
use gq_model::limits::GREATEST_TURNS;
use gq_scenario::scenario::LeafNo;
use gq_world::world::World;
use std::alloc::AllocError;

// No text that may be read has more lines: each has a name, a blank or an exclamation mark, a digit and a line feed at least.
const GREATEST_LISTED: usize = 4_194_304;

// Takes turns of a world, in rounds or by chance, and lists them. Returns how many more may be taken.
fn list_rest(
    world: &mut World,
    seed: Option<u32>,
    most: u32,
    list: &mut Vec<TurnItem>,
) -> Result<u32, AllocError>
    requires running { world.old.stopped ≡ false }
    requires most { most ≤ greatest_turns }
    ensures scenario { world.new.scenario ≡ world.old.scenario }
    ensures running { world.new.stopped ≡ false }
    ensures signals { world.new.signals ≡ world.old.signals }
    ensures few { IfOk result (λ left. left ≤ most) }
    ensures left { IfOk result (λ left. left ≡ (rest_by seed (system world.old.scenario) most world.old.world).left) }
    ensures world { OnOk result (world.new.world ≡ (rest_by seed (system world.old.scenario) most world.old.world).world) }
    ensures lists { OnOk result (list.new.items ≡ list.old.items ++ as_lines (rest_by seed (system world.old.scenario) most world.old.world).turns) }
{
    match seed {
        None => list_rounds(world, most, list),
        Some(seed) => list_choices(world, seed, most, list),
    }
}

// Submits all signals of a leaf, and lists them.
fn list_signals_of(
    world: &mut World,
    leaf: LeafNo,
    list: &mut Vec<TurnItem>,
) -> Result<(), AllocError>
    requires leaf { leaf < length (components world.old.scenario) }
    requires small { leaf < 64 }
    requires running { world.old.stopped ≡ false }
    requires few { world.old.signals + 3 < 16777217 }
    ensures scenario { world.new.scenario ≡ world.old.scenario }
    ensures running { world.new.stopped ≡ false }
    ensures signals { world.new.signals ≤ world.old.signals + 3 }
    ensures counted { OnOk result (world.new.signals + length list.old.items ≤ world.old.signals + length list.new.items) }
    ensures world { OnOk result (world.new.world
        ≡ with_signals_from leaf 0 (signals_at (slice_get (components world.old.scenario) leaf)) world.old.world) }
    ensures lists { OnOk result (list.new.items
        ≡ list.old.items ++ signals_from leaf 0 (signals_at (slice_get (components world.old.scenario) leaf))) }
{
    for signal in 0..world.signals(leaf) {
        match world.signal(leaf, usize::from(signal)) {
            Ok(()) => {}
            Err(_) => unreachable!(),
        }
        list.push(TurnItem::signal(leaf, signal))?;
    }
    Ok(())
}

// Submits all signals of all leaves, and lists them.
fn list_signals(world: &mut World, list: &mut Vec<TurnItem>) -> Result<(), AllocError>
    requires running { world.old.stopped ≡ false }
    requires few { world.old.signals + 192 < 16777217 }
    ensures scenario { world.new.scenario ≡ world.old.scenario }
    ensures running { world.new.stopped ≡ false }
    ensures counted { OnOk result (world.new.signals + length list.old.items ≤ world.old.signals + length list.new.items) }
    ensures world { OnOk result (world.new.world ≡ with_all_signals 0 (components world.old.scenario) world.old.world) }
    ensures lists { OnOk result (list.new.items ≡ list.old.items ++ all_signals 0 (components world.old.scenario)) }
{
    for number in 0..world.table().leaf_count() {
        list_signals_of(world, LeafNo::new(number as u32), list)?;
    }
    Ok(())
}

// How many times all signals are submitted: only versions from 4 on have any.
fn times_in(table: &NodeTable, times: Option<u32>) -> u32
    ensures { result ≡ times_in table.now.version times }
{
    if table.scenario().version().number() >= 4 {
        times.unwrap_or(0)
    } else {
        0
    }
}

// The seed of the next time.
fn next_seed(seed: Option<u32>) -> Option<u32>
    ensures { result ≡ next_seed seed }
{
    match seed {
        None => None,
        Some(seed) => Some(seed.wrapping_add(1)),
    }
}

/// Takes turns of a world from its start, in rounds or by chance, and lists them. Then, as long as all work is at rest, so many times: submits all signals, and
/// takes turns. It takes 1,000,000 turns at most.
pub(crate) fn list_all(
    world: &mut World,
    seed: Option<u32>,
    times: Option<u32>,
    list: &mut Vec<TurnItem>,
) -> Result<(), AllocError>
    requires start { world.old.world ≡ start (system world.old.scenario) }
    requires running { world.old.stopped ≡ false }
    requires signals { world.old.signals ≡ 0 }
    requires none { list.old.items ≡ [] }
    ensures scenario { world.new.scenario ≡ world.old.scenario }
    ensures world { OnOk result (world.new.world ≡ (all_listed seed times world.old.scenario).world) }
    ensures lists { OnOk result (list.new.items ≡ (all_listed seed times world.old.scenario).lines) }
{
    let mut left = list_rest(world, seed, GREATEST_TURNS, list)?;
    let mut seed = seed;
    for _time in 0..times_in(world.table(), times) {
        if !world.is_at_rest() {
            return Ok(());
        }
        if list.len() >= GREATEST_LISTED {
            return Ok(());
        }
        seed = next_seed(seed);
        list_signals(world, list)?;
        left = list_rest(world, seed, left, list)?;
    }
    Ok(())
}

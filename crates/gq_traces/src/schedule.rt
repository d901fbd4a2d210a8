// The turns that leaves take in rounds, each as many as it can.
ghost use Rattle.std.specs.Prelude.{◌≡◌, ◌+◌, ◌<◌, ◌≤◌, ◌∷◌, ◌++◌, None, false, length, IfOk, OnOk};
ghost use Rattle.gq_model.specs.machine.Scenario.{components, system};
ghost use Rattle.gq_model.specs.machine.Rest.{greatest_turns, round, reported_turns, while_can};
ghost use Rattle.gq_traces.specs.Schedule.{as_lines, rest_by};

use arrayvec::ArrayVec;
use gq_init::TurnItem;
use gq_scenario::scenario::LeafNo;
use gq_world::world::World;
use std::alloc::AllocError;

/// Takes turns of a leaf one after the other, as long as it can take one, and at most so many. Returns how many it took.
pub(crate) fn take_turns(world: &mut World, leaf: LeafNo, most: u32) -> u32
    requires leaf { leaf < length (components world.old.scenario) }
    requires running { world.old.stopped ≡ false }
    ensures scenario { world.new.scenario ≡ world.old.scenario }
    ensures running { world.new.stopped ≡ false }
    ensures signals { world.new.signals ≡ world.old.signals }
    ensures taken { while_can most (system world.old.scenario) world.old.world leaf ≡ (result, world.new.world) }
    ensures few { result ≤ most }
{
    let mut line = ArrayVec::new();
    let mut taken = 0;
    while taken < most && world.can_run(leaf) {
        let _event = world.step(leaf, &mut line);
        taken += 1;
    }
    taken
}

/// Lists the turns that a leaf took, if it took any.
pub(crate) fn list_taken(
    leaf: LeafNo,
    count: u32,
    list: &mut Vec<TurnItem>,
) -> Result<(), AllocError>
    requires leaf { leaf < 256 }
    requires count { count ≤ greatest_turns }
    ensures { OnOk result (list.new.items ≡ list.old.items ++ as_lines (reported_turns leaf count)) }
{
    if count > 0 {
        list.push(TurnItem::new(leaf, count))?;
    }
    Ok(())
}

// A round: each leaf in turn takes as many turns as it can, of at most so many together, and they are listed. It returns how many more may be taken.
fn list_round(world: &mut World, most: u32, list: &mut Vec<TurnItem>) -> Result<u32, AllocError>
    requires running { world.old.stopped ≡ false }
    requires most { most ≤ greatest_turns }
    ensures scenario { world.new.scenario ≡ world.old.scenario }
    ensures running { world.new.stopped ≡ false }
    ensures signals { world.new.signals ≡ world.old.signals }
    ensures left { IfOk result (λ left. left ≡ (round (system world.old.scenario) most world.old.world 0 (components world.old.scenario)).left) }
    ensures world { OnOk result (world.new.world ≡ (round (system world.old.scenario) most world.old.world 0 (components world.old.scenario)).world) }
    ensures lists { OnOk result (list.new.items ≡ list.old.items
        ++ as_lines (round (system world.old.scenario) most world.old.world 0 (components world.old.scenario)).turns) }
{
    let mut left = most;
    for number in 0..world.table().leaf_count() {
        let leaf = LeafNo::new(number as u32);
        let taken = take_turns(world, leaf, left);
        list_taken(leaf, taken, list)?;
        left -= taken;
    }
    Ok(left)
}

/// Takes turns in rounds, of at most so many, up to a round in which no leaf takes one, and lists them. Returns how many more may be taken.
pub(crate) fn list_rounds(
    world: &mut World,
    most: u32,
    list: &mut Vec<TurnItem>,
) -> Result<u32, AllocError>
    requires running { world.old.stopped ≡ false }
    requires most { most ≤ greatest_turns }
    ensures scenario { world.new.scenario ≡ world.old.scenario }
    ensures running { world.new.stopped ≡ false }
    ensures signals { world.new.signals ≡ world.old.signals }
    ensures few { IfOk result (λ left. left ≤ most) }
    ensures left { IfOk result (λ left. left ≡ (rest_by None (system world.old.scenario) most world.old.world).left) }
    ensures world { OnOk result (world.new.world ≡ (rest_by None (system world.old.scenario) most world.old.world).world) }
    ensures lists { OnOk result (list.new.items ≡ list.old.items ++ as_lines (rest_by None (system world.old.scenario) most world.old.world).turns) }
{
    let mut left = most;
    loop {
        let rest = list_round(world, left, list)?;
        if rest == left {
            return Ok(left);
        }
        left = rest;
    }
}

// Turns that bring all work to rest.
ghost use Rattle.std.specs.Prelude.{◌≡◌, ◌<◌, ◌≤◌, false, length, IfOk, OnOk};
ghost use Rattle.gq_model.specs.machine.Rest.{as_acts, greatest_turns, round, to_rest, while_can};
ghost use Rattle.gq_model.specs.machine.Run.{run_on, turns_of};
ghost use Rattle.gq_model.specs.machine.Scenario.{components, system};
ghost use Rattle.gq_world.specs.internal.Act_transitions.{RunsThrough};

use crate::run::take_turns;
use crate::world::World;
use gq_laws::turn_step_laws::turn_laws;
use gq_model::limits::GREATEST_TURNS;
use gq_output::counted::{Counted, WriteFault};
use gq_output::gathered_lines::Lines;
use gq_scenario::scenario::LeafNo;
use std::io::Write;

// More rounds than there are turns, so that in the last of them none is taken.
const ROUNDS: u32 = GREATEST_TURNS + 1;

// The turns of a leaf as long as it can take one, at most so many, up to the first whose line is not written whole. Returns how many it took.
fn take_most<W: Write>(
    world: &mut World,
    leaf: LeafNo,
    most: u32,
    lines: &mut Lines,
    out: &mut Counted<W>,
) -> Result<u32, WriteFault>
    requires leaf { leaf < length (components world.old.scenario) }
    requires running { world.old.stopped ≡ false }
    ensures runs { RunsThrough W.contents (turns_of (system world.old.scenario) leaf (while_can most (system world.old.scenario) world.old.world leaf).0) 0
        world.old world.new out.old out.new result }
    ensures taken { IfOk result (λ taken. while_can most (system world.old.scenario) world.old.world leaf ≡ (taken, world.new.world)) }
    ensures few { IfOk result (λ taken. taken ≤ most) }
{
    turn_laws();
    let before = world.steps(leaf);
    take_turns(world, leaf, most, lines, out)?;
    Ok((world.steps(leaf) - before) as u32)
}

// A round: each leaf in turn takes as many turns as it can, of at most so many together. Returns how many more may be taken.
fn take_round<W: Write>(
    world: &mut World,
    most: u32,
    lines: &mut Lines,
    out: &mut Counted<W>,
) -> Result<u32, WriteFault>
    requires running { world.old.stopped ≡ false }
    ensures runs { RunsThrough W.contents
        (run_on (system world.old.scenario) (as_acts (round (system world.old.scenario) most world.old.world 0 (components world.old.scenario)).turns)) 0
        world.old world.new out.old out.new result }
    ensures left { IfOk result (λ left. left ≡ (round (system world.old.scenario) most world.old.world 0 (components world.old.scenario)).left) }
    ensures world { OnOk result (world.new.world ≡ (round (system world.old.scenario) most world.old.world 0 (components world.old.scenario)).world) }
{
    let mut left = most;
    for number in 0..world.table().leaf_count() {
        left -= take_most(world, LeafNo::new(number as u32), left, lines, out)?;
    }
    Ok(left)
}

// Turns round by round, up to one in which no leaf takes one, at most 1,000,000. They allocate no host memory.
pub(crate) fn take_rest<W: Write>(
    world: &mut World,
    lines: &mut Lines,
    out: &mut Counted<W>,
) -> Result<(), WriteFault>
    requires running { world.old.stopped ≡ false }
    ensures { RunsThrough W.contents (run_on (system world.old.scenario) (as_acts (to_rest (system world.old.scenario) world.old.world).turns)) 0
        world.old world.new out.old out.new result }
{
    let mut left = GREATEST_TURNS;
    for _round in 0..ROUNDS {
        let rest = take_round(world, left, lines, out)?;
        if rest == left {
            return Ok(());
        }
        left = rest;
    }
    Ok(())
}

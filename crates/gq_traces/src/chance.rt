// Turns by chance: again and again a leaf that can take a turn is chosen, and takes some.
ghost use Rattle.std.specs.Prelude.{◌≡◌, ◌++◌, ◌<◌, ◌≤◌, Some, false, length, IfOk, OnOk};
ghost use Rattle.gq_model.specs.machine.Scenario.{components, system};
ghost use Rattle.gq_model.specs.machine.Rest.{greatest_turns, reported_turns};
ghost use Rattle.gq_traces.specs.Schedule.{able, as_lines, chosen_turns, drawn, next_choice, rest_by};

use crate::schedule::{list_taken, take_turns};
use arrayvec::ArrayVec;
use gq_init::TurnItem;
use gq_model::limits::GREATEST_LEAVES;
use gq_scenario::scenario::LeafNo;
use gq_world::world::World;
use rand_core::SeedableRng;
use rand_core::utils::NextWord;
use rand_pcg::Pcg32;
use std::alloc::AllocError;

// The greatest number of leaves that are chosen: with more lines a list of turns could be longer than one may be.
const GREATEST_CHOICES: u32 = 800_000;

// The greatest number of turns that a leaf takes in a row.
const IN_A_ROW: usize = 16;

// Draws a number below another, by the next word of the generator.
fn draw(generator: &mut Pcg32, below: usize) -> usize
    requires { 0 < below }
    ensures { (result, generator.new) ≡ drawn generator.old below }
{
    generator.next_word() as usize % below
}

// The numbers of the leaves that can take a turn, in preorder.
fn able(world: &World) -> ArrayVec<u32, GREATEST_LEAVES>
    ensures able { result.items ≡ able (system world.now.scenario) world.now.world 0 (components world.now.scenario) }
    ensures few { length (components world.now.scenario) ≤ 64 }
{
    let mut leaves = ArrayVec::new();
    for number in 0..world.table().leaf_count() {
        if world.can_run(LeafNo::new(number as u32)) {
            leaves.push(number as u32);
        }
    }
    leaves
}

// Chooses one of the leaves that can take a turn, lets it take 1 to 16 turns as far as it can and at most as many as are left, and lists them. Returns how many
// turns it took.
fn list_choice(
    world: &mut World,
    leaves: &[u32],
    left: u32,
    generator: &mut Pcg32,
    list: &mut Vec<TurnItem>,
) -> Result<u32, AllocError>
    requires leaves { leaves.now ≡ able (system world.old.scenario) world.old.world 0 (components world.old.scenario) }
    requires some { 0 < length leaves.now }
    requires running { world.old.stopped ≡ false }
    requires few { left ≤ greatest_turns }
    requires few_leaves { length (components world.old.scenario) ≤ 64 }
    ensures scenario { world.new.scenario ≡ world.old.scenario }
    ensures running { world.new.stopped ≡ false }
    ensures signals { world.new.signals ≡ world.old.signals }
    ensures generator { generator.new ≡ (next_choice (system world.old.scenario) world.old.world generator.old).generator }
    ensures few { IfOk result (λ taken. taken ≤ left) }
    ensures taken { IfOk result (λ taken. chosen_turns (system world.old.scenario) left world.old.world
        (next_choice (system world.old.scenario) world.old.world generator.old) ≡ (taken, world.new.world)) }
    ensures lists { OnOk result (list.new.items ≡ list.old.items
        ++ as_lines (reported_turns (next_choice (system world.old.scenario) world.old.world generator.old).leaf
        (chosen_turns (system world.old.scenario) left world.old.world (next_choice (system world.old.scenario) world.old.world generator.old)).0)) }
{
    let place = draw(generator, leaves.len());
    let leaf = LeafNo::new(leaves[place]);
    let most = draw(generator, IN_A_ROW) as u32 + 1;
    let taken = take_turns(world, leaf, most.min(left));
    list_taken(leaf, taken, list)?;
    Ok(taken)
}

/// Takes turns by chance, of at most so many, up to a world in which no leaf can take one or 800,000 choices, and lists them. Returns how many more may be
/// taken.
pub(crate) fn list_choices(
    world: &mut World,
    seed: u32,
    most: u32,
    list: &mut Vec<TurnItem>,
) -> Result<u32, AllocError>
    requires running { world.old.stopped ≡ false }
    requires most { most ≤ greatest_turns }
    ensures scenario { world.new.scenario ≡ world.old.scenario }
    ensures running { world.new.stopped ≡ false }
    ensures signals { world.new.signals ≡ world.old.signals }
    ensures few { IfOk result (λ left. left ≤ most) }
    ensures left { IfOk result (λ left. left ≡ (rest_by (Some seed) (system world.old.scenario) most world.old.world).left) }
    ensures world { OnOk result (world.new.world ≡ (rest_by (Some seed) (system world.old.scenario) most world.old.world).world) }
    ensures lists { OnOk result (list.new.items ≡ list.old.items ++ as_lines (rest_by (Some seed) (system world.old.scenario) most world.old.world).turns) }
{
    let mut generator = Pcg32::seed_from_u64(u64::from(seed));
    let mut left = most;
    let mut lines = GREATEST_CHOICES;
    while left > 0 && lines > 0 {
        let able = able(world);
        let leaves = able.as_slice();
        if leaves.is_empty() {
            return Ok(left);
        }
        left -= list_choice(world, leaves, left, &mut generator, list)?;
        lines -= 1;
    }
    Ok(left)
}

// Turns, settings and signals that are taken unreported, with where each leaf stands on the way.
ghost use Rattle.std.specs.Prelude.{◌≡◌, ◌+◌, ◌-◌, ◌<◌, ◌≤◌, true, false, length, IfOk};
ghost use Rattle.gq_model.specs.machine.Scenario.{components, system};
ghost use Rattle.gq_model.specs.machine.World.{start};
ghost use Rattle.gq_init.specs.Turn_items.{IsOf};
ghost use Rattle.gq_model.specs.machine.Rest.{as_acts, can_run, to_rest, while_can};
ghost use Rattle.gq_world.specs.World_between_turns.{AreOf, greatest_lines};
ghost use Rattle.gq_traces.specs.First_turns.{first_of, first_turns, some_turns, turns_in};
ghost use Rattle.gq_traces.specs.Trace.{after_act, after_all, after_turn, after_turns, start_traced};
ghost use Rattle.gq_traces.specs.internal.Follows.{Follows, IsAt, IsFollowed};
ghost use Rattle.gq_traces.specs.internal.Line_acts.{acts_along, acts_at};
ghost use Rattle.gq_traces.specs.internal.Lines_given.{AreFew};

use crate::alone_steps::steps_alone;
use crate::noted::counted;
use crate::numbered_program::{NumberedProgram, all_numbered};
use crate::rests::next_able;
use crate::tracker::{Ahead, first_aheads, go_on, next_due};
use arrayvec::ArrayVec;
use gq_init::{TurnItem, line_turns};
use gq_model::act::{Act, TurnLine};
use gq_model::limits::GREATEST_TURNS;
use gq_scenario::scenario::LeafNo;
use gq_world::world::World;
use std::alloc::{AllocError, Global};

/// The programs of a world, and where all leaves stand in them.
#[derive(Drop)]
pub(crate) struct Followed {
    pub programs: Vec<NumberedProgram>,
    pub aheads: Vec<Ahead>,
}

impl Followed {
    /// At the start of a world. Refused only if the host refuses memory.
    pub(crate) fn new(alloc: Global, world: &World) -> Result<Followed, AllocError>
        requires start { world.now.world ≡ start (system world.now.scenario) }
        requires running { world.now.stopped ≡ false }
        ensures followed { IfOk result (λ f. IsFollowed f world.now) }
        ensures at { IfOk result (λ f. IsAt f world.now (start_traced (system world.now.scenario))) }
    {
        let programs = all_numbered(alloc, world.table())?;
        let aheads = first_aheads(alloc, programs.as_slice())?;
        Ok(Followed { programs, aheads })
    }
}

// One turn of a leaf. It allocates no host memory.
fn take_turn(world: &mut World, followed: &mut Followed, leaf: LeafNo)
    requires leaf { leaf < length (components world.old.scenario) }
    requires followed { IsFollowed followed.old world.old }
    ensures { Follows 0 (after_turn (system world.old.scenario) leaf) world.old world.new followed.old followed.new }
{
    let programs = followed.programs.as_slice();
    let machine = world.machine();
    match next_due(programs, followed.aheads.as_slice(), machine, leaf) {
        None => (),
        Some(_due) => {
            go_on(programs, followed.aheads.as_mut_slice(), machine, leaf);
            let mut text = ArrayVec::new();
            let _event = world.step(leaf, &mut text);
        }
    }
}

// Turns of a leaf, at least one and at most so many: those that it takes alone from where it stands, and one more. It returns how many. They take no host
// memory.
#[inline(always)]
fn take_some(world: &mut World, followed: &mut Followed, leaf: LeafNo, most: u32) -> u32
    requires leaf { leaf < length (components world.old.scenario) }
    requires some { 0 < most }
    requires followed { IsFollowed followed.old world.old }
    ensures some { 0 < result }
    ensures few { result ≤ most }
    ensures follows { Follows 0 (after_turns (system world.old.scenario) leaf result) world.old world.new followed.old followed.new }
{
    counted(world);
    let alone = steps_alone(
        world,
        followed.programs.as_slice(),
        followed.aheads.as_mut_slice(),
        leaf,
        most,
    );
    if alone == most {
        return alone;
    }
    take_turn(world, followed, leaf);
    alone + 1
}

// So many turns of a leaf. They allocate no host memory.
fn take_turns(world: &mut World, followed: &mut Followed, leaf: LeafNo, count: u32)
    requires leaf { leaf < length (components world.old.scenario) }
    requires followed { IsFollowed followed.old world.old }
    ensures { Follows 0 (after_turns (system world.old.scenario) leaf count) world.old world.new followed.old followed.new }
{
    let mut done = 0;
    while done < count {
        done += take_some(world, followed, leaf, count - done);
    }
}

// What a leaf is given: turns, another value of an input, or a signal. It allocates no host memory.
fn take_act(world: &mut World, followed: &mut Followed, leaf: LeafNo, act: Act)
    requires leaf { leaf < length (components world.old.scenario) }
    requires followed { IsFollowed followed.old world.old }
    requires signals { world.old.signals < greatest_lines }
    ensures { Follows 1 (after_act (system world.old.scenario) leaf act) world.old world.new followed.old followed.new }
{
    match act {
        Act::Turns(count) => take_turns(world, followed, leaf, count),
        Act::Sets(input, number) => {
            let _set = world.set_input(leaf, usize::from(input), number);
        }
        Act::Submits(signal) => {
            let _submitted = world.signal(leaf, usize::from(signal));
        }
    }
}

// Turns of a leaf that can take one, at least one and at most so many: those that it takes alone from where it stands, or else one. Each is a step. It returns
// how many. They take no host memory.
fn take_steps(world: &mut World, followed: &mut Followed, leaf: LeafNo, most: u32) -> u32
    requires leaf { leaf < length (components world.old.scenario) }
    requires some { 0 < most }
    requires followed { IsFollowed followed.old world.old }
    requires able { can_run (system world.old.scenario) world.old.world leaf ≡ true }
    ensures some { 0 < result }
    ensures few { result ≤ most }
    ensures taken { while_can result (system world.old.scenario) world.old.world leaf ≡ (result, world.new.world) }
    ensures follows { Follows 0 (after_turns (system world.old.scenario) leaf result) world.old world.new followed.old followed.new }
{
    counted(world);
    world.laws();
    let alone = steps_alone(
        world,
        followed.programs.as_slice(),
        followed.aheads.as_mut_slice(),
        leaf,
        most,
    );
    if alone > 0 {
        return alone;
    }
    take_turn(world, followed, leaf);
    1
}

// Turns of a leaf as long as it can take one, at most so many. It returns how many. They take no host memory.
fn take_able(world: &mut World, followed: &mut Followed, leaf: LeafNo, most: u32) -> u32
    requires leaf { leaf < length (components world.old.scenario) }
    requires followed { IsFollowed followed.old world.old }
    ensures few { result ≤ most }
    ensures taken { while_can most (system world.old.scenario) world.old.world leaf ≡ (result, world.new.world) }
    ensures follows { Follows 0 (after_turns (system world.old.scenario) leaf result) world.old world.new followed.old followed.new }
{
    let mut done = 0;
    while done < most && world.can_run(leaf) {
        done += take_steps(world, followed, leaf, most - done);
    }
    done
}

// Turns that bring all work to rest, of which at most so many are taken. It returns how many were. They take no host memory.
fn take_rest(world: &mut World, followed: &mut Followed, most: u64) -> u32
    requires followed { IsFollowed followed.old world.old }
    ensures few { result ≤ most }
    ensures follows { Follows 0 (after_all (system world.old.scenario) (first_turns most (as_acts (to_rest (system world.old.scenario) world.old.world).turns)))
        world.old world.new followed.old followed.new }
    ensures left { most - result ≡ most - turns_in (as_acts (to_rest (system world.old.scenario) world.old.world).turns) }
{
    let all = u64::from(GREATEST_TURNS).min(most) as u32;
    let mut taken = 0;
    let mut from = 0;
    while taken < all {
        let Some(leaf) = next_able(world, from) else {
            return taken;
        };
        world.laws();
        taken += take_able(world, followed, leaf, all - taken);
        from = leaf.index() + 1;
    }
    taken
}

// What is given of this while so many turns are left: no more turns than that, and a setting or a signal if there is one left.
fn first_of(act: Act, left: u64) -> Act
    ensures { result ≡ first_of left act }
{
    match act {
        Act::Turns(count) => Act::Turns(left.min(u64::from(count)) as u32),
        Act::Sets(_, _) | Act::Submits(_) => { if left == 0 { Act::Turns(0) } else { act } }
    }
}

// What a line gives, of which at most so many turns are taken, and a setting or a signal if one turn is left. It returns how many turns were taken. It
// allocates no host memory.
fn take_line(world: &mut World, followed: &mut Followed, line: TurnLine, left: u64) -> u32
    requires leaf { IsOf (length (components world.old.scenario)) line }
    requires followed { IsFollowed followed.old world.old }
    requires signals { world.old.signals < greatest_lines }
    ensures few { result ≤ left }
    ensures left { left - result ≡ left - turns_in (acts_at (system world.old.scenario) world.old.world line) }
    ensures follows { Follows 1 (λ t. after_all (system world.old.scenario) (first_turns left (acts_at (system world.old.scenario) t.world line)) t)
        world.old world.new followed.old followed.new }
{
    match line {
        TurnLine::Gives(leaf, act) => {
            let act = first_of(act, left);
            take_act(world, followed, LeafNo::new(leaf), act);
            line_turns(TurnLine::Gives(leaf, act))
        }
        TurnLine::Rests => take_rest(world, followed, left),
    }
}

// The first so many turns of a list, and the settings and signals before the last of them. They allocate no host memory.
fn take_most(world: &mut World, followed: &mut Followed, turns: &[TurnItem], most: u64)
    requires leaves { AreOf (length (components world.old.scenario)) turns.now }
    requires followed { IsFollowed followed.old world.old }
    requires signals { world.old.signals + length turns.now ≤ greatest_lines }
    ensures { Follows (length turns.now) (λ t. after_all (system world.old.scenario) (first_turns most (acts_along (system world.old.scenario) turns.now t)) t)
        world.old world.new followed.old followed.new }
{
    let mut left = most;
    for item in turns {
        left -= u64::from(take_line(world, followed, item.line(), left));
    }
}

/// The turns of a list: the first so many with the settings and signals before the last of them, or without a number all. They allocate no host memory.
pub(crate) fn take_first(
    world: &mut World,
    followed: &mut Followed,
    turns: &[TurnItem],
    first: Option<u32>,
)
    requires leaves { AreOf (length (components world.old.scenario)) turns.now }
    requires each { AreFew turns.now }
    requires followed { IsFollowed followed.old world.old }
    requires signals { world.old.signals + length turns.now ≤ greatest_lines }
    ensures { Follows (length turns.now) (λ t. after_all (system world.old.scenario) (some_turns first (acts_along (system world.old.scenario) turns.now t)) t)
        world.old world.new followed.old followed.new }
{
    let most = match first {
        None => u64::MAX,
        Some(most) => u64::from(most),
    };
    take_most(world, followed, turns, most);
}

// Turns of all leaves, round by round.
ghost use Rattle.std.specs.Prelude.{◌≡◌, ◌-◌, ◌<◌, ◌≤◌, [], false, length, option_map, IfSome};
ghost use Rattle.gq_machine.specs.Events.{event_of};
ghost use Rattle.gq_model.specs.machine.Scenario.{components, system};
ghost use Rattle.gq_library.specs.C_turns.{AllRest, AreRun, burst, can_take, first_able, first_leaf, is_last, next_able, tour_from};

use crate::turn::put_event;
use crate::turn_burst::take;
use arrayvec::ArrayVec;
use gq_scenario::scenario::LeafNo;
use gq_world::event::Event;
use gq_world::world::World;

// Whether a leaf can take a step that is counted.
fn can_take(world: &World, leaf: LeafNo) -> bool
    requires { leaf < length (components world.now.scenario) }
    ensures { result ≡ can_take (system world.now.scenario) world.now.world leaf }
{
    world.can_run(leaf) && world.steps(leaf) != u64::MAX
}

// The first leaf from one on, before the end, that can take a turn.
fn first_able(world: &World, first: usize, end: usize) -> Option<LeafNo>
    requires order { first ≤ end }
    requires end { end ≤ length (components world.now.scenario) }
    ensures able { result ≡ first_able (system world.now.scenario) world.now.world first (end - first) }
    ensures there { IfSome result (λ x. x < length (components world.now.scenario)) }
{
    let _few = world.table().leaf_count();
    for number in first..end {
        let leaf = LeafNo::new(number as u32);
        if can_take(world, leaf) {
            return Some(leaf);
        }
    }
    None
}

// The next leaf that can take a turn: from one on to the last, and then from the first on.
fn next_able(world: &World, at: usize) -> Option<LeafNo>
    requires { at ≤ length (components world.now.scenario) }
    ensures able { result ≡ next_able (system world.now.scenario) world.now.world at }
    ensures there { IfSome result (λ x. x < length (components world.now.scenario)) }
{
    let count = world.table().leaf_count();
    match first_able(world, at, count) {
        Some(leaf) => Some(leaf),
        None => first_able(world, 0, count),
    }
}

// Whether an event is the last of a tour.
fn is_last(event: Event) -> bool
    ensures { result ≡ is_last (event_of event []) }
{
    match event {
        Event::Line | Event::Finished => true,
        Event::Idle | Event::Quiet => false,
    }
}

// The leaf with which a tour begins.
fn first_leaf(world: &World, leaf: u32) -> usize
    ensures first { result ≡ first_leaf (system world.now.scenario) leaf }
    ensures within { result ≤ length (components world.now.scenario) }
{
    if (leaf as usize) < world.table().leaf_count() {
        leaf as usize
    } else {
        0
    }
}

// Turns of leaves round by round from a leaf on, at most so many. Returns the leaf of the last turn, what that shows, and how many are left.
fn tour(world: &mut World, leaf: u32, most: u32, text: &mut ArrayVec<u8, 64>) -> (u32, Event, u32)
    ensures scenario { world.new.scenario ≡ world.old.scenario }
    ensures stopped { world.new.stopped ≡ world.old.stopped }
    ensures left { result.2 ≤ most }
    ensures turns { tour_from (system world.old.scenario) most leaf world.old.world
        ≡ record { leaf = result.0; burst = burst (most - result.2) (event_of result.1 text.new.items) world.new.world } }
    ensures rests { 0 < result.2 → is_last (event_of result.1 []) ≡ false → AllRest (system world.new.scenario) world.new.world }
{
    let mut event = Event::Idle;
    let mut left = most;
    let mut last = leaf;
    let mut at = first_leaf(world, leaf);
    for _tried in 0..most {
        let Some(able) = next_able(world, at) else {
            return (last, event, left);
        };
        world.laws();
        (event, left) = take(world, able, most, event, left, text);
        last = able.number();
        if is_last(event) || left == 0 {
            return (last, event, left);
        }
        at = able.index() + 1;
    }
    (last, event, left)
}

// Turns of all leaves, at most so many, from a leaf on.
pub(crate) fn run(
    world: &mut World,
    most: u32,
    leaf: &mut u32,
    taken: &mut u32,
    line: &mut [u8],
    written: &mut usize,
) -> u32
    ensures run { AreRun world.old world.new most leaf.old leaf.new taken.new result line.old line.new written.new }
    ensures few { taken.new ≤ most }
{
    let mut text = ArrayVec::new();
    let (last, event, left) = tour(world, *leaf, most, &mut text);
    *leaf = last;
    *taken = most - left;
    put_event(event, &text, line, written)
}

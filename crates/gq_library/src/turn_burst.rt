// Turns of a leaf, one after the other.
ghost use Rattle.std.specs.Prelude.{◌≡◌, ◌-◌, ◌<◌, ◌≤◌, ◌↔◌, true, length, []};
ghost use Rattle.gq_machine.specs.Events.{event_of};
ghost use Rattle.gq_model.specs.machine.Scenario.{components, system};
ghost use Rattle.gq_library.specs.C_turns.{AreTaken, burst, taken_on};
ghost use Rattle.gq_library.specs.internal.Turns_left.{Leads, IsSilent};

use crate::result_codes::NONE;
use crate::turn::put_event;
use arrayvec::ArrayVec;
use gq_laws::turn_step_laws::turn_laws;
use gq_scenario::scenario::LeafNo;
use gq_world::event::Event;
use gq_world::world::World;

// The turns that a leaf takes alone, at most as many as are left. Returns what the last one shows, after this event, and how many are left.
#[inline(always)]
fn go_alone(world: &mut World, leaf: LeafNo, most: u32, event: Event, left: u32) -> (Event, u32)
    requires leaf { leaf < length (components world.old.scenario) }
    requires some { 0 < left }
    requires few { left ≤ most }
    requires silent { IsSilent event }
    ensures scenario { world.new.scenario ≡ world.old.scenario }
    ensures stopped { world.new.stopped ≡ world.old.stopped }
    ensures left { result.1 ≤ left }
    ensures silent { IsSilent result.0 }
    ensures leads { Leads (system world.old.scenario) leaf (burst (most - left) (event_of event []) world.old.world) left
        (burst (most - result.1) (event_of result.0 []) world.new.world) result.1 true }
{
    turn_laws();
    let _before = world.steps(leaf);
    let rest = world.try_turns_alone(leaf, left);
    if rest < left {
        return (Event::Quiet, rest);
    }
    (event, rest)
}

// One turn more. Returns what the last turn that was a step shows, how many are left, and whether a further one may be taken.
#[inline(always)]
fn go_on(
    world: &mut World,
    leaf: LeafNo,
    most: u32,
    event: Event,
    left: u32,
    text: &mut ArrayVec<u8, 64>,
) -> (Event, u32, bool)
    requires leaf { leaf < length (components world.old.scenario) }
    requires some { 0 < left }
    requires few { left ≤ most }
    requires silent { IsSilent event }
    ensures scenario { world.new.scenario ≡ world.old.scenario }
    ensures stopped { world.new.stopped ≡ world.old.stopped }
    ensures left { result.1 ≤ left }
    ensures less { result.2 ≡ true → result.1 < left }
    ensures silent { result.2 ≡ true → IsSilent result.0 }
    ensures leads { Leads (system world.old.scenario) leaf (burst (most - left) (event_of event []) world.old.world) left
        (burst (most - result.1) (event_of result.0 text.new.items) world.new.world) result.1 result.2 }
{
    if !world.can_run(leaf) {
        return (event, left, false);
    }
    match world.try_step(leaf, text) {
        None => (event, left, false),
        Some(Event::Line) => (Event::Line, left - 1, false),
        Some(Event::Finished) => (Event::Finished, left - 1, false),
        Some(Event::Idle) => (Event::Idle, left - 1, true),
        Some(Event::Quiet) => (Event::Quiet, left - 1, true),
    }
}

// Turns that a leaf takes alone, and one turn more if any are left.
#[inline(always)]
fn go(
    world: &mut World,
    leaf: LeafNo,
    most: u32,
    event: Event,
    left: u32,
    text: &mut ArrayVec<u8, 64>,
) -> (Event, u32, bool)
    requires leaf { leaf < length (components world.old.scenario) }
    requires some { 0 < left }
    requires few { left ≤ most }
    requires silent { IsSilent event }
    ensures scenario { world.new.scenario ≡ world.old.scenario }
    ensures stopped { world.new.stopped ≡ world.old.stopped }
    ensures left { result.1 ≤ left }
    ensures less { result.2 ≡ true → result.1 < left }
    ensures silent { result.2 ≡ true → IsSilent result.0 }
    ensures leads { Leads (system world.old.scenario) leaf (burst (most - left) (event_of event []) world.old.world) left
        (burst (most - result.1) (event_of result.0 text.new.items) world.new.world) result.1 result.2 }
{
    let (shown, rest) = go_alone(world, leaf, most, event, left);
    if rest == 0 {
        return (shown, 0, false);
    }
    go_on(world, leaf, most, shown, rest, text)
}

/// Turns of a leaf, as many as are left of so many, after what shows no line and no end. They are taken as far as the definition takes them. Returns what the
/// last one shows, and how many are left.
pub(crate) fn take(
    world: &mut World,
    leaf: LeafNo,
    most: u32,
    event: Event,
    left: u32,
    text: &mut ArrayVec<u8, 64>,
) -> (Event, u32)
    requires leaf { leaf < length (components world.old.scenario) }
    requires few { left ≤ most }
    requires silent { IsSilent event }
    ensures scenario { world.new.scenario ≡ world.old.scenario }
    ensures stopped { world.new.stopped ≡ world.old.stopped }
    ensures left { result.1 ≤ left }
    ensures taken { taken_on (system world.old.scenario) leaf left (burst (most - left) (event_of event []) world.old.world)
        ≡ burst (most - result.1) (event_of result.0 text.new.items) world.new.world }
{
    let mut shown = event;
    let mut rest = left;
    while rest > 0 {
        let (next, fewer, goes_on) = go(world, leaf, most, shown, rest, text);
        if !goes_on {
            return (next, fewer);
        }
        shown = next;
        rest = fewer;
    }
    (shown, rest)
}

// Turns of a leaf, at most so many, if there is such a leaf.
pub(crate) fn turns(
    world: &mut World,
    leaf: u32,
    most: u32,
    taken: &mut u32,
    line: &mut [u8],
    written: &mut usize,
) -> u32
    ensures taken { leaf < length (components world.old.scenario)
        → AreTaken world.old world.new leaf most taken.new result line.old line.new written.new }
    ensures none { (result ≡ NONE) ↔ (length (components world.old.scenario) ≤ leaf) }
    ensures few { taken.new ≤ most }
    ensures no_turn { result ≡ NONE → taken.new ≡ 0 }
    ensures stays { result ≡ NONE → world.new ≡ world.old }
    ensures line { result ≡ NONE → line.new ≡ line.old }
    ensures written { result ≡ NONE → written.new ≡ written.old }
{
    if world.table().leaf_count() <= leaf as usize {
        *taken = 0;
        return NONE;
    }
    let mut text = ArrayVec::new();
    let (event, left) = take(world, LeafNo::new(leaf), most, Event::Idle, most, &mut text);
    *taken = most - left;
    put_event(event, &text, line, written)
}

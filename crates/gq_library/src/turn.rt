// One turn of a leaf.
ghost use Rattle.std.specs.Prelude.{◌≡◌, ◌<◌, ◌≤◌, ◌↔◌, ℕ, List, Ok, length};
ghost use Rattle.gq_machine.specs.Events.{event_of};
ghost use Rattle.gq_model.specs.machine.Scenario.{components, system};
ghost use Rattle.gq_library.specs.Texts.{IsPut};
ghost use Rattle.gq_library.specs.C_turns.{IsTaken, counted_next, event_number, event_text};

use crate::result_codes::NONE;
use crate::texts::put;
use arrayvec::ArrayVec;
use gq_scenario::scenario::LeafNo;
use gq_world::event::Event;
use gq_world::world::World;

// The number of an event. Of a line its text is put into a buffer, with its whole length; of any other event the length is 0.
pub(crate) fn put_event(
    event: Event,
    text: &ArrayVec<u8, 64>,
    buffer: &mut [u8],
    written: &mut usize,
) -> u32
    ensures number { result ≡ event_number (event_of event text.now.items) }
    ensures put { IsPut (event_text (event_of event text.now.items)) buffer.old buffer.new written.new }
    ensures few { result < 4 }
{
    *written = 0;
    match event {
        Event::Idle => 0,
        Event::Quiet => 1,
        Event::Line => {
            *written = put(text.as_slice(), buffer);
            2
        }
        Event::Finished => 3,
    }
}

// One turn of a leaf: none, if it has taken as many steps as are counted.
fn step(world: &mut World, leaf: LeafNo, text: &mut ArrayVec<u8, 64>) -> Event
    requires { leaf < length (components world.old.scenario) }
    ensures scenario { world.new.scenario ≡ world.old.scenario }
    ensures stopped { world.new.stopped ≡ world.old.stopped }
    ensures stepped { counted_next (system world.old.scenario) world.old.world leaf ≡ Ok (world.new.world, event_of result text.new.items) }
{
    match world.try_step(leaf, text) {
        Some(event) => event,
        None => Event::Idle,
    }
}

// One turn of a leaf, if there is such a leaf.
pub(crate) fn turn(world: &mut World, leaf: u32, line: &mut [u8], written: &mut usize) -> u32
    ensures taken { leaf < length (components world.old.scenario) → IsTaken world.old world.new leaf result line.old line.new written.new }
    ensures none { (result ≡ NONE) ↔ (length (components world.old.scenario) ≤ leaf) }
    ensures stays { result ≡ NONE → world.new ≡ world.old }
    ensures line { result ≡ NONE → line.new ≡ line.old }
    ensures written { result ≡ NONE → written.new ≡ written.old }
{
    if world.table().leaf_count() <= leaf as usize {
        return NONE;
    }
    let mut text = ArrayVec::new();
    let event = step(world, LeafNo::new(leaf), &mut text);
    put_event(event, &text, line, written)
}

// Which leaf takes the next turns on the way to rest.
ghost use Rattle.std.specs.Prelude.{◌≡◌, ◌<◌, true, length, IfSome};
ghost use Rattle.gq_model.specs.machine.Scenario.{components, system};
ghost use Rattle.gq_model.specs.machine.Rest.{can_run};
ghost use Rattle.gq_traces.specs.internal.Next_able.{first_able, next_able};

use gq_scenario::scenario::LeafNo;
use gq_world::world::World;

// The first leaf from a number on that can take a turn, if there is one.
fn first_able(world: &World, from: usize) -> Option<LeafNo>
    ensures { result ≡ first_able (system world.now.scenario) world.now.world from (components world.now.scenario) }
{
    for number in from..world.table().leaf_count() {
        let leaf = LeafNo::new(number as u32);
        if world.can_run(leaf) {
            return Some(leaf);
        }
    }
    None
}

/// The leaf that takes the next turns in rounds over the leaves, of which the one of this number is next: the first from there on that can take a turn, or else
/// the first of all. `None` if no leaf can take one.
pub(crate) fn next_able(world: &World, from: usize) -> Option<LeafNo>
    ensures next { result ≡ next_able (system world.now.scenario) world.now.world from }
    ensures there { IfSome result (λ x. x < length (components world.now.scenario)) }
    ensures can { IfSome result (λ x. can_run (system world.now.scenario) world.now.world x ≡ true) }
{
    match first_able(world, from) {
        Some(leaf) => Some(leaf),
        None => first_able(world, 0),
    }
}

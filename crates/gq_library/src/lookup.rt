// Nodes and leaves, by names and numbers.
ghost use Rattle.std.specs.Prelude.{◌≡◌, ◌<◌, ◌≤◌, ◌↔◌, false, true, length, slice_get, IfSome};
ghost use Rattle.gq_model.specs.machine.Routes.{numbered};
ghost use Rattle.gq_model.specs.machine.Scenario.{components};
ghost use Rattle.gq_resolve.specs.NodeTables.{IsNodeOf, node_rows};
ghost use Rattle.gq_library.specs.Lookup.{number_or};
ghost use Rattle.gq_library.specs.Texts.{IsPut};

use crate::result_codes::NONE;
use crate::texts::put;
use gq_scenario::node_numbers::NodeNo;
use gq_scenario::scenario::LeafNo;
use gq_world::world::World;

// The number of the leaf of a name.
pub(crate) fn leaf_named(world: &World, name: &[u8]) -> u32
    ensures { result ≡ number_or (numbered 0 name.now (components world.now.scenario)) }
{
    match world.leaf(name) {
        Some(leaf) => leaf.number(),
        None => NONE,
    }
}

// The node of a leaf.
pub(crate) fn node_of(world: &World, leaf: u32) -> u32
    ensures node { IfSome (slice_get (components world.now.scenario) leaf) (λ c. IsNodeOf (node_rows world.now.scenario) result c) }
    ensures none { length (components world.now.scenario) ≤ leaf → result ≡ NONE }
{
    if world.table().leaf_count() <= leaf as usize {
        return NONE;
    }
    world.node(LeafNo::new(leaf)).number()
}

// Puts the label of a node into a buffer, with its whole length, if there is such a node.
pub(crate) fn put_label(world: &World, node: u32, buffer: &mut [u8], written: &mut usize) -> bool
    ensures label { result ≡ true → IfSome (slice_get (node_rows world.now.scenario) node) (λ r. IsPut r.label buffer.old buffer.new written.new) }
    ensures there { (result ≡ true) ↔ (node < length (node_rows world.now.scenario)) }
    ensures buffer { result ≡ false → buffer.new ≡ buffer.old }
    ensures written { result ≡ false → written.new ≡ written.old }
{
    if world.nodes() <= node as usize {
        return false;
    }
    *written = put(world.table().label(NodeNo::new(node)), buffer);
    true
}

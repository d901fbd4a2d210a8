// Signals of leaves.
ghost use Rattle.std.specs.Prelude.{◌≡◌};
ghost use Rattle.gq_library.specs.C_signals.{HasSignal, IsSubmitted};

use crate::result_codes::{NO_SIGNAL, SUBMITTED};
use gq_scenario::scenario::LeafNo;
use gq_world::world::World;

// Submits a signal of a leaf, if there are such a leaf and signal.
pub(crate) fn signal(world: &mut World, leaf: u32, signal: u32) -> u32
    ensures submitted { result ≡ SUBMITTED → IsSubmitted world.old world.new leaf signal }
    ensures none { result ≡ NO_SIGNAL → HasSignal world.old.scenario leaf signal → ⊥ }
    ensures known { (result ≡ SUBMITTED → ⊥) → result ≡ NO_SIGNAL }
    ensures unchanged { result ≡ NO_SIGNAL → world.new ≡ world.old }
{
    if world.table().leaf_count() <= leaf as usize {
        return NO_SIGNAL;
    }
    match world.signal(LeafNo::new(leaf), signal as usize) {
        Ok(()) => SUBMITTED,
        Err(_) => NO_SIGNAL,
    }
}

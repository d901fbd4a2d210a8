// Inputs of leaves.
ghost use Rattle.std.specs.Prelude.{◌≡◌};
ghost use Rattle.gq_library.specs.C_settings.{IsSetting, fault_number};

use crate::result_codes::{NO_INPUT, SET, TOO_LARGE};
use gq_scenario::scenario::LeafNo;
use gq_world::input_settings::InputFault;
use gq_world::world::World;

// The number of a fault.
fn number_of(fault: InputFault) -> u32
    ensures number { result ≡ fault_number fault }
    ensures some { result ≡ SET → ⊥ }
{
    match fault {
        InputFault::NoInput => NO_INPUT,
        InputFault::TooLarge => TOO_LARGE,
    }
}

// Gives an input of a leaf another value.
pub(crate) fn set_input(world: &mut World, leaf: u32, input: u32, number: u32) -> u32
    ensures set { IsSetting world.old world.new leaf input number result }
    ensures unchanged { (result ≡ SET → ⊥) → world.new ≡ world.old }
{
    if world.table().leaf_count() <= leaf as usize {
        return NO_INPUT;
    }
    match world.set_input(LeafNo::new(leaf), input as usize, number) {
        Ok(()) => SET,
        Err(fault) => number_of(fault),
    }
}

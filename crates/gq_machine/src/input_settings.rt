// Settings of inputs.
ghost use Rattle.std.specs.Prelude.{◌≡◌, ◌<◌, IsOk, IfErr, OnErr, None, Some, true, length, slice_get};
ghost use Rattle.gq_model.specs.machine.Run.{is_within, set_input};
ghost use Rattle.gq_model.specs.machine.Scenario.{components, system};
ghost use Rattle.gq_model.specs.texts.Turns.{inputs_at};
ghost use Rattle.gq_statements.specs.Systems.{AreLawful};
ghost use Rattle.gq_machine.specs.Input_settings.{fault_above, input_fault};
ghost use Rattle.gq_machine.specs.Machine_world.{world_of};
ghost use Rattle.gq_machine.specs.internal.Machine_invariant.{Holds};

use crate::machine::Machine;
use crate::machine_state::{Fixed, MachineState};
use gq_model::phase::Phase;
use gq_scenario::scenario::LeafNo;
use gq_statements::paid_laws::lawful;
use thiserror::Error;

/// Why a leaf can't have a number at one of its inputs.
#[derive(Clone, Copy, Debug, PartialEq, Eq, Error)]
pub enum InputFault {
    /// The leaf has no input of this number.
    #[error("I1 NoInput")]
    NoInput,
    /// The number is above the greatest value of the input.
    #[error("I2 TooLarge")]
    TooLarge,
}

// Whether a leaf with inputs of these greatest values can have a number at one of them.
fn judge_input(inputs: &[u32], input: usize, number: u32) -> Result<(), InputFault>
    ensures allowed { IsOk result → fault_above (slice_get inputs.now input) number ≡ None }
    ensures inside { IsOk result → input < length inputs.now }
    ensures refused { IfErr result (λ f. fault_above (slice_get inputs.now input) number ≡ Some f) }
{
    if input >= inputs.len() {
        return Err(InputFault::NoInput);
    }
    if number > inputs[input] {
        return Err(InputFault::TooLarge);
    }
    Ok(())
}

// Gives an input of a leaf another value, which it can have. A leaf that has exited keeps its inputs, which are 0.
fn put_input(fixed: &Fixed, state: &mut MachineState, leaf: usize, input: usize, number: u32)
    requires holds { Holds fixed.now state.old }
    requires lawful { AreLawful state.old.slots }
    requires leaf { leaf < length (components fixed.now.table) }
    requires input { input < 8 }
    requires within { is_within (slice_get (inputs_at (slice_get (components fixed.now.table) leaf)) input) number ≡ true }
    ensures holds { Holds fixed.now state.new }
    ensures set { world_of fixed.now.table state.new.leaves.items state.new.slots
        ≡ set_input (system fixed.now.table) (world_of fixed.now.table state.old.leaves.items state.old.slots) leaf input number }
{
    match state.leaves[leaf].phase() {
        Phase::Exited => {}
        Phase::Pending | Phase::Running | Phase::Blocked | Phase::Serving | Phase::Handling => {
            state.leaves[leaf].set_input(input, number);
        }
    }
}

impl Machine {
    /// Gives an input of a leaf another value, from here on. It is no step, and allocates no host memory. A leaf that has exited keeps its inputs, which are 0.
    ///
    /// Refused, and then nothing is changed:
    ///
    /// - `NoInput` if the leaf has no input of this number;
    /// - `TooLarge` if the number is above the greatest value of the input.
    pub fn set_input(&mut self, leaf: LeafNo, input: usize, number: u32) -> Result<(), InputFault>
        requires { leaf < length (components self.old.scenario) }
        ensures scenario { self.new.scenario ≡ self.old.scenario }
        ensures set { self.new.world ≡ set_input (system self.old.scenario) self.old.world leaf input number }
        ensures allowed { IsOk result → input_fault self.old.scenario leaf input number ≡ None }
        ensures refused { IfErr result (λ f. input_fault self.old.scenario leaf input number ≡ Some f) }
        ensures unchanged { OnErr result (self.new ≡ self.old) }
    {
        lawful(&self.state.slots);
        let inputs = self.fixed.table.inputs(leaf);
        match judge_input(inputs, input, number) {
            Ok(()) => {
                put_input(&self.fixed, &mut self.state, leaf.index(), input, number);
                Ok(())
            }
            Err(fault) => Err(fault),
        }
    }
}

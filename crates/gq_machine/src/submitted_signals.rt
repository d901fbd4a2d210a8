// Signals that are submitted.
ghost use Rattle.std.specs.Prelude.{◌≡◌, ◌<◌, ◌≤◌, IsErr, IsOk, IfSome, OnErr, length, slice_get};
ghost use Rattle.gq_model.specs.machine.Run.{submit};
ghost use Rattle.gq_model.specs.machine.Scenario.{components};
ghost use Rattle.gq_statements.specs.Systems.{AreLawful};
ghost use Rattle.gq_machine.specs.Machine_world.{world_of};
ghost use Rattle.gq_machine.specs.internal.Machine_invariant.{Holds};

use crate::machine::Machine;
use crate::machine_state::{Fixed, MachineState};
use gq_leaf::step_laws::submits;
use gq_scenario::scenario::LeafNo;
use gq_statements::paid_laws::lawful;
use thiserror::Error;

/// A leaf has no signal of this number.
#[derive(Clone, Copy, Debug, PartialEq, Eq, Error)]
#[error("NoSignal")]
pub struct NoSignal;

// Submits a signal of a leaf. If the leaf has no signal of this number, nothing changes.
fn put_signal(fixed: &Fixed, state: &mut MachineState, leaf: usize, signal: usize)
    requires holds { Holds fixed.now state.old }
    requires lawful { AreLawful state.old.slots }
    requires leaf { leaf < length (components fixed.now.table) }
    ensures holds { Holds fixed.now state.new }
    ensures submitted { world_of fixed.now.table state.new.leaves.items state.new.slots
        ≡ submit (world_of fixed.now.table state.old.leaves.items state.old.slots) leaf signal }
{
    let _table = &fixed.table;
    submits();
    state.leaves[leaf].submit(signal);
}

impl Machine {
    /// Submits a signal of a leaf, whatever the leaf does. It is no step, and allocates no host memory. One that is submitted again before it is taken
    /// counts once.
    ///
    /// Refused with `NoSignal` if the leaf has no signal of this number. Then nothing is changed.
    pub fn submit(&mut self, leaf: LeafNo, signal: usize) -> Result<(), NoSignal>
        requires { leaf < length (components self.old.scenario) }
        ensures scenario { self.new.scenario ≡ self.old.scenario }
        ensures submitted { self.new.world ≡ submit self.old.world leaf signal }
        ensures allowed { IsOk result → IfSome (slice_get self.old.world.leaves leaf) (λ l. signal < length l.signals) }
        ensures refused { IsErr result → IfSome (slice_get self.old.world.leaves leaf) (λ l. length l.signals ≤ signal) }
        ensures unchanged { OnErr result (self.new ≡ self.old) }
    {
        lawful(&self.state.slots);
        if signal >= self.signals(leaf).count() {
            return Err(NoSignal);
        }
        put_signal(&self.fixed, &mut self.state, leaf.index(), signal);
        Ok(())
    }
}

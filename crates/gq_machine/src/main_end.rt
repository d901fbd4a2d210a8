// The end of `main` of a leaf that provides nothing.
ghost use Rattle.std.specs.Prelude.{◌≡◌, ◌+◌, ◌<◌, ◌^◌, length, slice_get, Err, Ok};
ghost use Rattle.gq_model.specs.machine.Scenario.{components};
ghost use Rattle.gq_bytecode.specs.declared.operation.Operation.TheVariants as operation;
ghost use Rattle.gq_statements.specs.Serving.{finished};
ghost use Rattle.gq_machine.specs.internal.Endings.{AreGone, AreReleased, follows, released_if};
ghost use Rattle.gq_machine.specs.internal.Machine_invariant.{CanDo, EndsMain, Goes, LeavesState, OfLeaf};

use crate::machine_state::{Fixed, MachineState};
use gq_leaf::Leaf;
use gq_model::fault::Wrong;
use gq_model::phase::Phase;
use gq_resolve::NodeTable;
use gq_scenario::scenario::LeafNo;
use gq_statements::paid_laws::lawful;

// At the end of `main` of a leaf that provides nothing it exits, if it has closed its sessions, and who starts after it runs.
pub fn exit(fixed: &Fixed, state: &mut MachineState, number: usize) -> Result<(), Wrong>
    requires does { CanDo fixed.now state.old number operation.End }
    requires ends { EndsMain fixed.now state.old number }
    ensures step { Goes fixed.now number state.old state.new (finished result) }
    ensures leaves { LeavesState result fixed.now state.old state.new }
{
    lawful(&state.slots);
    state.slots.laws();
    match gq_statements::leaf_end::exit(&mut state.slots, number) {
        Err(wrong) => Err(wrong),
        Ok(()) => {
            lawful(&state.slots);
            leave(&fixed.table, &mut state.leaves, number);
            Ok(())
        }
    }
}

// The leaf of this number has exited, and who waited for it runs.
fn leave(table: &NodeTable, leaves: &mut Vec<Leaf>, number: usize)
    requires count { length leaves.old.items ≡ length (components table.now) }
    requires countable { OfLeaf (λ l. l.state.steps + 1 < 2 ^ 64) (slice_get leaves.old.items number) }
    ensures { AreGone table.now number leaves.old.items leaves.new.items }
{
    let leaf = &mut leaves[number];
    leaf.exit();
    release_after(table, leaves, number);
}

// Each leaf that waited for the leaf of this number to exit runs.
fn release_after(table: &NodeTable, leaves: &mut Vec<Leaf>, number: usize)
    requires { length leaves.old.items ≡ length (components table.now) }
    ensures { AreReleased table.now number leaves.old.items leaves.new.items }
{
    for place in 0..leaves.len() {
        let leaf = &mut leaves[place];
        release(table, leaf, place, number);
    }
}

// The leaf at a place runs, if it waited for the leaf of this number to exit.
fn release(table: &NodeTable, leaf: &mut Leaf, place: usize, number: usize)
    requires { place < length (components table.now) }
    ensures { leaf.new ≡ released_if (follows table.now number (slice_get (components table.now) place)) leaf.old }
{
    if starts_after(table, place, number) && matches!(leaf.phase(), Phase::Pending) {
        leaf.release();
    }
}

// Whether the leaf at a place starts after the leaf of this number.
fn starts_after(table: &NodeTable, place: usize, number: usize) -> bool
    requires { place < length (components table.now) }
    ensures { result ≡ follows table.now number (slice_get (components table.now) place) }
{
    let _leaves = table.leaf_count();
    match table.after(LeafNo::new(place as u32)) {
        None => false,
        Some(after) => after.index() == number,
    }
}

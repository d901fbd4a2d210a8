// Statements of a leaf.
ghost use Rattle.std.specs.Prelude.{◌≡◌, ℕ, List, IfErr, IfOk, IsTrue, OnErr, OnOk, Err, Ok, decimal};
ghost use Rattle.gq_statements.specs.Slot_statements.{done};
ghost use Rattle.gq_bytecode.specs.declared.operation.Operation.TheVariants as operation;
ghost use Rattle.gq_leaf.specs.Operations.{is_on_memory};
ghost use Rattle.gq_leaf.specs.Leaf_steps.{shows};
ghost use Rattle.gq_machine.specs.internal.Machine_invariant.{ActsOn, CanDo, EndsReaction, Goes, Holds, IsLong, LeavesState, Provides};
ghost use Rattle.gq_model.specs.declared.program.Instruction.TheVariants as instruction;

use crate::machine_state::{Fixed, MachineState};
use gq_bytecode::Operation;
use gq_model::fault::Wrong;
use gq_model::program::OperandSlot;
use gq_statements::paid_laws::lawful;

// Does a statement on memory.
#[inline(always)]
pub fn memory(
    fixed: &Fixed,
    state: &mut MachineState,
    number: usize,
    operation: Operation,
) -> Result<(), Wrong>
    requires does { CanDo fixed.now state.old number operation }
    requires memory { IsTrue (is_on_memory operation) }
    ensures step { Goes fixed.now number state.old state.new (done result) }
    ensures leaves { LeavesState result fixed.now state.old state.new }
    ensures acts { OnOk result (ActsOn state.old state.new number) }
{
    lawful(&state.slots);
    let leaf = &mut state.leaves[number];
    let done = leaf.memory(
        operation,
        number,
        fixed.services.addresses(),
        &mut state.slots,
    );
    lawful(&state.slots);
    done
}

// Asks for the end of a session.
pub fn close(
    fixed: &Fixed,
    state: &mut MachineState,
    number: usize,
    place: OperandSlot,
) -> Result<(), Wrong>
    requires does { CanDo fixed.now state.old number (operation.Close place) }
    ensures step { Goes fixed.now number state.old state.new (done result) }
    ensures leaves { LeavesState result fixed.now state.old state.new }
{
    let _table = &fixed.table;
    lawful(&state.slots);
    let leaf = &mut state.leaves[number];
    let done = leaf.close(place, number, &mut state.slots);
    lawful(&state.slots);
    done
}

// Calls the service of a session.
pub fn call(
    fixed: &Fixed,
    state: &mut MachineState,
    number: usize,
    place: OperandSlot,
) -> Result<(), Wrong>
    requires does { CanDo fixed.now state.old number (operation.Call place) }
    ensures step { Goes fixed.now number state.old state.new (done result) }
    ensures leaves { LeavesState result fixed.now state.old state.new }
{
    let _table = &fixed.table;
    lawful(&state.slots);
    let leaf = &mut state.leaves[number];
    let done = leaf.call(place, number, &mut state.slots);
    lawful(&state.slots);
    done
}

// Takes the top operand, which is to be written.
pub fn show(fixed: &Fixed, state: &mut MachineState, number: usize) -> Result<u32, Wrong>
    requires does { CanDo fixed.now state.old number operation.Out }
    ensures step { IfOk result (λ n. Goes fixed.now number state.old state.new (shows (decimal n))) }
    ensures wrong { IfErr result (λ wrong. Goes fixed.now number state.old state.new (done (Err wrong))) }
    ensures holds { OnOk result (Holds fixed.now state.new) }
    ensures leaves { OnErr result (state.new.leaves.items ≡ state.old.leaves.items) }
    ensures slots { state.new.slots ≡ state.old.slots }
{
    let _table = &fixed.table;
    lawful(&state.slots);
    let leaf = &mut state.leaves[number];
    leaf.show()
}

// Goes on once a text is said.
pub fn say(fixed: &Fixed, state: &mut MachineState, number: usize, statement: u32)
    requires does { CanDo fixed.now state.old number (operation.Long statement) }
    ensures step { (text : List ℕ) → IsLong state.old number statement (instruction.Say text) → Goes fixed.now number state.old state.new (shows text) }
    ensures holds { (text : List ℕ) → IsLong state.old number statement (instruction.Say text) → Holds fixed.now state.new }
    ensures slots { state.new.slots ≡ state.old.slots }
{
    let _table = &fixed.table;
    lawful(&state.slots);
    let leaf = &mut state.leaves[number];
    leaf.said(statement);
}

// A leaf that provides a service or has signals waits for them at the end of `main`.
pub fn serve(fixed: &Fixed, state: &mut MachineState, number: usize)
    requires does { CanDo fixed.now state.old number operation.End }
    requires provides { Provides fixed.now state.old number }
    ensures step { Goes fixed.now number state.old state.new (done (Ok tt)) }
    ensures holds { Holds fixed.now state.new }
    ensures slots { state.new.slots ≡ state.old.slots }
{
    let _table = &fixed.table;
    lawful(&state.slots);
    let leaf = &mut state.leaves[number];
    leaf.serve();
}

// A leaf waits for signals and requests again at the end of the section for a signal. Nothing is replied.
pub fn serve_again(fixed: &Fixed, state: &mut MachineState, number: usize)
    requires ends { EndsReaction fixed.now state.old number }
    ensures step { Goes fixed.now number state.old state.new (done (Ok tt)) }
    ensures holds { Holds fixed.now state.new }
    ensures slots { state.new.slots ≡ state.old.slots }
{
    let _table = &fixed.table;
    lawful(&state.slots);
    let leaf = &mut state.leaves[number];
    leaf.serve();
}

// A step in which others have a part: a statement, or the end of a section.
ghost use Rattle.std.specs.Prelude.{◌≡◌, ◌<◌, ◌≤◌, ℕ, List, [], IfOk, IfSome, IsTrue, Err, is_some, length, slice_get};
ghost use Rattle.gq_model.specs.machine.Scenario.{components};
ghost use Rattle.gq_bytecode.specs.Cores.{is_shared};
ghost use Rattle.gq_bytecode.specs.declared.operation.Operation.TheVariants as operation;
ghost use Rattle.gq_laws.specs.Leaf_phases.{serves};
ghost use Rattle.gq_laws.specs.Ready.{IsReady};
ghost use Rattle.gq_statements.specs.Slot_statements.{done};
ghost use Rattle.gq_machine.specs.declared.event.Event.TheVariants as event;
ghost use Rattle.gq_machine.specs.internal.Machine_invariant.{CanDo, Goes, IsInMain, LeavesState};
ghost use Rattle.gq_machine.specs.internal.Operation_kinds.{is_quiet};
ghost use Rattle.gq_machine.specs.Shows.{StepShows};

use crate::donating_requests::{open, upgrade};
use crate::event::Event;
use crate::leaf_statements::{call, close, memory, say, serve, serve_again, show};
use crate::machine_state::{Fixed, MachineState};
use crate::main_end::exit;
use crate::section_replies::reply;
use arrayvec::ArrayVec;
use gq_bytecode::Operation;
use gq_model::fault::Wrong;
use gq_model::program::Instruction;
use gq_scenario::scenario::LeafNo;
use itoa::Buffer;

/// The greatest number of bytes of a line's text, without label and line feed.
pub const LINE: usize = 64;

// A statement that shows nothing.
fn quiet(
    fixed: &Fixed,
    state: &mut MachineState,
    number: usize,
    operation: Operation,
) -> Result<(), Wrong>
    requires does { CanDo fixed.now state.old number operation }
    requires quiet { IsTrue (is_quiet operation) }
    ensures step { Goes fixed.now number state.old state.new (done result) }
    ensures leaves { LeavesState result fixed.now state.old state.new }
{
    match operation {
        Operation::Upgrade(place, bytes) => upgrade(fixed, state, number, place, bytes),
        Operation::Call(place) => call(fixed, state, number, place),
        Operation::Close(place) => close(fixed, state, number, place),
        _ => memory(fixed, state, number, operation),
    }
}

// Writes these bytes to an empty line.
fn write_line(line: &mut ArrayVec<u8, LINE>, bytes: &[u8])
    requires empty { line.old.items ≡ [] }
    requires short { length bytes.now ≤ LINE }
    ensures { line.new.items ≡ bytes.now }
{
    match line.try_extend_from_slice(bytes) {
        Ok(()) => (),
        Err(_) => unreachable!(),
    }
}

// A number that is shown.
pub(crate) fn out(
    fixed: &Fixed,
    state: &mut MachineState,
    number: usize,
    line: &mut ArrayVec<u8, LINE>,
) -> Result<Event, Wrong>
    requires does { CanDo fixed.now state.old number operation.Out }
    requires empty { line.old.items ≡ [] }
    ensures step { StepShows fixed.now number state.old state.new line.new.items result }
    ensures no_line { IfOk result (λ e. (e ≡ event.Line → ⊥) → line.new.items ≡ []) }
    ensures leaves { LeavesState result fixed.now state.old state.new }
{
    match show(fixed, state, number) {
        Err(wrong) => Err(wrong),
        Ok(top) => {
            write_line(line, Buffer::new().format(top).as_bytes());
            Ok(Event::Line)
        }
    }
}

// A statement that does not fit into eight bytes: a text that is said, or a session that is opened.
fn long(
    fixed: &Fixed,
    state: &mut MachineState,
    number: usize,
    statement: u32,
    line: &mut ArrayVec<u8, LINE>,
) -> Result<Event, Wrong>
    requires does { CanDo fixed.now state.old number (operation.Long statement) }
    requires empty { line.old.items ≡ [] }
    ensures step { StepShows fixed.now number state.old state.new line.new.items result }
    ensures no_line { IfOk result (λ e. (e ≡ event.Line → ⊥) → line.new.items ≡ []) }
    ensures leaves { LeavesState result fixed.now state.old state.new }
{
    let _table = &fixed.table;
    let leaf = &state.leaves[number];
    match leaf.long(statement) {
        Instruction::Say(text) => {
            write_line(line, text.as_bytes());
            say(fixed, state, number, statement);
            Ok(Event::Line)
        }
        Instruction::Open(place, _, bytes) => {
            let (place, bytes) = (*place, *bytes);
            match open(fixed, state, number, statement, place, bytes) {
                Err(wrong) => Err(wrong),
                Ok(()) => Ok(Event::Quiet),
            }
        }
        _ => unreachable!(),
    }
}

// Whether a leaf provides a service.
fn provides(fixed: &Fixed, leaf: usize) -> bool
    requires ready { IsReady fixed.now.table }
    requires leaf { leaf < length (components fixed.now.table) }
    ensures { IfSome (slice_get (components fixed.now.table) leaf) (λ c. result ≡ is_some c.node.provides) }
{
    let _leaves = fixed.table.leaf_count();
    fixed.table.service(LeafNo::new(leaf as u32)).is_some()
}

// Whether a leaf serves after its `main`: it provides a service or has signals.
fn serves_on(fixed: &Fixed, leaf: usize) -> bool
    requires ready { IsReady fixed.now.table }
    requires leaf { leaf < length (components fixed.now.table) }
    ensures { IfSome (slice_get (components fixed.now.table) leaf) (λ c. result ≡ serves c.node.provides c.node.signals) }
{
    let _leaves = fixed.table.leaf_count();
    provides(fixed, leaf) || fixed.table.signals(LeafNo::new(leaf as u32)) > 0
}

// The end of `main`: the leaf serves from now on, or exits.
fn end_main(fixed: &Fixed, state: &mut MachineState, number: usize) -> Result<Event, Wrong>
    requires does { CanDo fixed.now state.old number operation.End }
    requires main { IsInMain state.old number }
    ensures step { (text : List ℕ) → StepShows fixed.now number state.old state.new text result }
    ensures no_line { IfOk result (λ e. e ≡ event.Line → ⊥) }
    ensures leaves { LeavesState result fixed.now state.old state.new }
{
    let _table = &fixed.table;
    if serves_on(fixed, number) {
        serve(fixed, state, number);
        return Ok(Event::Quiet);
    }
    match exit(fixed, state, number) {
        Err(wrong) => Err(wrong),
        Ok(()) => Ok(Event::Finished),
    }
}

// The end of a section: a reply, a leaf that serves again, or the end of `main`.
fn end(fixed: &Fixed, state: &mut MachineState, number: usize) -> Result<Event, Wrong>
    requires does { CanDo fixed.now state.old number operation.End }
    ensures step { (text : List ℕ) → StepShows fixed.now number state.old state.new text result }
    ensures no_line { IfOk result (λ e. e ≡ event.Line → ⊥) }
    ensures leaves { LeavesState result fixed.now state.old state.new }
{
    let _table = &fixed.table;
    let leaf = &state.leaves[number];
    match (leaf.current(), leaf.reacting()) {
        (Some(current), _) => match reply(fixed, state, number, current) {
            Err(wrong) => Err(wrong),
            Ok(()) => Ok(Event::Quiet),
        },
        (None, Some(_)) => {
            serve_again(fixed, state, number);
            Ok(Event::Quiet)
        }
        (None, None) => end_main(fixed, state, number),
    }
}

// A step of a leaf in which others have a part.
#[inline(never)]
pub(crate) fn shared(
    fixed: &Fixed,
    state: &mut MachineState,
    number: usize,
    operation: Operation,
    line: &mut ArrayVec<u8, LINE>,
) -> Result<Event, Wrong>
    requires does { CanDo fixed.now state.old number operation }
    requires shared { IsTrue (is_shared operation) }
    requires empty { line.old.items ≡ [] }
    ensures step { StepShows fixed.now number state.old state.new line.new.items result }
    ensures no_line { IfOk result (λ e. (e ≡ event.Line → ⊥) → line.new.items ≡ []) }
    ensures leaves { LeavesState result fixed.now state.old state.new }
{
    match operation {
        Operation::End => end(fixed, state, number),
        Operation::Out => out(fixed, state, number, line),
        Operation::Long(statement) => long(fixed, state, number, statement, line),
        _ => match quiet(fixed, state, number, operation) {
            Err(wrong) => Err(wrong),
            Ok(()) => Ok(Event::Quiet),
        },
    }
}

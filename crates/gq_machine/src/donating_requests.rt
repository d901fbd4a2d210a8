// What a leaf asks of others with something given: an upgrade, and a session that is opened.
ghost use Rattle.std.specs.Prelude.{◌≡◌, ℕ, List, IfSome, slice_get};
ghost use Rattle.gq_model.specs.declared.program.Instruction.TheVariants as instruction;
ghost use Rattle.gq_model.specs.declared.program.OperandSlot.{OperandSlot};
ghost use Rattle.gq_model.specs.machine.Scenario.{components, interface_in, upgrade_caps};
ghost use Rattle.gq_model.specs.machine.World as world;
ghost use Rattle.gq_bytecode.specs.declared.operation.Operation.TheVariants as operation;
ghost use Rattle.gq_trade.specs.Numbers.{IsTaken};
ghost use Rattle.gq_statements.specs.Slot_statements.{done};
ghost use Rattle.gq_machine.specs.Machine_world.{world_of};
ghost use Rattle.gq_machine.specs.internal.Machine_invariant.{CanDo, Goes, Holds, IsLong, LeavesState};
ghost use Rattle.gq_machine.specs.internal.Gifts.{IsGift, LeadsBy, Opens, OpensAt};

use crate::machine_state::{Fixed, MachineState};
use gq_bytecode::Operation;
use gq_model::fault::Wrong;
use gq_model::program::OperandSlot;
use gq_prepared::Opening;
use gq_statements::paid_laws::lawful;
use gq_statements::{Actor, link};
use gq_tariff::Amount;

// What is given with an upgrade: so many bytes, and the capabilities that the session's service asks for its next level.
fn gift(
    fixed: &Fixed,
    state: &MachineState,
    number: usize,
    place: OperandSlot,
    bytes: u32,
) -> Amount
    requires does { CanDo fixed.now state.now number (operation.Upgrade place bytes) }
    ensures gift { IsGift fixed.now state.now number place bytes result }
    ensures counted { state.now.slots.trades.trading.ledger.price ≡ 0 → result.caps ≡ 0 }
{
    let _table = &fixed.table;
    lawful(&state.slots);
    let leaf = &state.leaves[number];
    leaf.names_slot(Operation::Upgrade(place, bytes));
    let actor = Actor {
        leaf: number,
        current: leaf.current(),
    };
    let caps = match link(actor, &state.slots, place) {
        None => 0,
        Some(session) => next_caps(fixed, state, session),
    };
    Amount {
        ram: u64::from(bytes),
        caps,
    }
}

// The capabilities that the service of a session asks for its next level.
fn next_caps(fixed: &Fixed, state: &MachineState, session: usize) -> u64
    requires holds { Holds fixed.now state.now }
    requires there { IsTaken state.now.slots.trades.trading.sessions session }
    ensures caps { IfSome (world.session_at (world_of fixed.now.table state.now.leaves.items state.now.slots) session)
        (λ q. result ≡ upgrade_caps (interface_in q.service fixed.now.table.interfaces) q.level) }
    ensures counted { state.now.slots.trades.trading.ledger.price ≡ 0 → result ≡ 0 }
{
    let _table = &fixed.table;
    lawful(&state.slots);
    let trades = state.slots.trades();
    let service = trades.session(session).service;
    let level = trades.level(session);
    fixed.services.upgrade_caps(service, level)
}

// Asks for the next level of a session.
pub fn upgrade(
    fixed: &Fixed,
    state: &mut MachineState,
    number: usize,
    place: OperandSlot,
    bytes: u32,
) -> Result<(), Wrong>
    requires does { CanDo fixed.now state.old number (operation.Upgrade place bytes) }
    ensures step { Goes fixed.now number state.old state.new (done result) }
    ensures leaves { LeavesState result fixed.now state.old state.new }
{
    let _table = &fixed.table;
    let donation = gift(fixed, state, number, place, bytes);
    lawful(&state.slots);
    let leaf = &mut state.leaves[number];
    let done = leaf.upgrade(place, bytes, donation, number, &mut state.slots);
    lawful(&state.slots);
    done
}

// Where the `open` at a leaf's place leads.
fn opening(fixed: &Fixed, state: &MachineState, number: usize, statement: u32) -> Opening
    requires does { CanDo fixed.now state.now number (operation.Long statement) }
    requires opens { Opens state.now number statement }
    ensures { (place : OperandSlot) (name : List ℕ) (n : ℕ) → IsLong state.now number statement (instruction.Open place name n)
        → LeadsBy fixed.now.table (slice_get (components fixed.now.table) number) name result }
{
    let _table = &fixed.table;
    let openings = fixed.prepared[number].openings.as_slice();
    openings[statement as usize]
}

// Asks for a session of a service.
pub fn open(
    fixed: &Fixed,
    state: &mut MachineState,
    number: usize,
    statement: u32,
    place: OperandSlot,
    bytes: u32,
) -> Result<(), Wrong>
    requires does { CanDo fixed.now state.old number (operation.Long statement) }
    requires opens { OpensAt state.old number statement place bytes }
    ensures step { Goes fixed.now number state.old state.new (done result) }
    ensures leaves { LeavesState result fixed.now state.old state.new }
{
    let _table = &fixed.table;
    let opening = opening(fixed, state, number, statement);
    lawful(&state.slots);
    state.slots.laws();
    let leaf = &mut state.leaves[number];
    leaf.names_slot(Operation::Long(statement));
    leaf.opens_nowhere(statement);
    let Some(server) = opening.server else {
        return Err(Wrong::WrongKind);
    };
    let donation = Amount {
        ram: u64::from(bytes),
        caps: opening.caps,
    };
    let done = leaf.open(
        statement,
        place,
        server,
        opening.service,
        donation,
        number,
        &mut state.slots,
    );
    lawful(&state.slots);
    done
}

// At the end of a section for a session its server replies.
ghost use Rattle.std.specs.Prelude.{◌≡◌, ℕ, ◌+◌, ◌<◌, ◌^◌, ◌∷◌, Some, length, slice_get};
ghost use Rattle.gq_model.specs.declared.section.Section.TheVariants as section;
ghost use Rattle.gq_statements.specs.Slot_statements.{done};
ghost use Rattle.gq_leaf.specs.Coded.{Coded};
ghost use Rattle.gq_machine.specs.internal.Machine_invariant.{EndsSection, Goes, LeavesState, OfLeaf};
ghost use Rattle.gq_machine.specs.internal.Section_replies.{HasClient, replied};

use crate::machine_state::{Fixed, MachineState};
use gq_leaf::Leaf;
use gq_model::fault::Wrong;
use gq_model::section::Section;
use gq_statements::Current;
use gq_statements::client_replies::{reply_close, reply_open};
use gq_statements::paid_laws::lawful;

// The client of the current session, which waits for the reply.
fn client_at(fixed: &Fixed, state: &MachineState, number: usize, current: Current) -> usize
    requires ends { EndsSection fixed.now state.now number current }
    ensures client { HasClient fixed.now state.now number result current }
{
    let _table = &fixed.table;
    let _number = number;
    lawful(&state.slots);
    state.slots.laws();
    state.slots.trades().session(current.session).client
}

// The server waits for requests, and the client goes on.
fn go_on(leaves: &mut Vec<Leaf>, server: usize, client: usize)
    requires there { client < length leaves.old.items }
    requires apart { client ≡ server → ⊥ }
    requires countable { OfLeaf (λ l. l.state.steps + 1 < 2 ^ 64) (slice_get leaves.old.items server) }
    ensures { (l d : Coded) → slice_get leaves.old.items server ≡ Some l → slice_get leaves.old.items client ≡ Some d
        → leaves.new.items ≡ replied leaves.old.items server client l d d.state.registers.operands }
{
    let waiting = &mut leaves[client];
    waiting.resume();
    let serving = &mut leaves[server];
    serving.serve();
}

// The same, where the client called: the result is one operand more of its.
fn go_on_with(leaves: &mut Vec<Leaf>, server: usize, client: usize, value: u32)
    requires room { OfLeaf (λ l. length l.state.registers.operands < 16) (slice_get leaves.old.items client) }
    requires apart { client ≡ server → ⊥ }
    requires countable { OfLeaf (λ l. l.state.steps + 1 < 2 ^ 64) (slice_get leaves.old.items server) }
    ensures { (l d : Coded) → slice_get leaves.old.items server ≡ Some l → slice_get leaves.old.items client ≡ Some d
        → leaves.new.items ≡ replied leaves.old.items server client l d (value ∷ d.state.registers.operands) }
{
    let waiting = &mut leaves[client];
    waiting.resume_with(value);
    let serving = &mut leaves[server];
    serving.serve();
}

// The reply to a request to open the session.
fn opened(
    fixed: &Fixed,
    state: &mut MachineState,
    number: usize,
    current: Current,
) -> Result<(), Wrong>
    requires ends { EndsSection fixed.now state.old number current }
    requires section { current.section ≡ section.Opening }
    ensures step { Goes fixed.now number state.old state.new (done result) }
    ensures leaves { LeavesState result fixed.now state.old state.new }
{
    let client = client_at(fixed, state, number, current);
    match reply_open(
        fixed.services.addresses(),
        &mut state.slots,
        current.session,
    ) {
        Err(wrong) => Err(wrong),
        Ok(()) => {
            lawful(&state.slots);
            go_on(&mut state.leaves, number, client);
            Ok(())
        }
    }
}

// The reply to a request for the next level of the session.
fn upgraded(
    fixed: &Fixed,
    state: &mut MachineState,
    number: usize,
    current: Current,
) -> Result<(), Wrong>
    requires ends { EndsSection fixed.now state.old number current }
    requires section { (level : ℕ) × (current.section ≡ section.Upgrading level) }
    ensures step { Goes fixed.now number state.old state.new (done result) }
    ensures leaves { LeavesState result fixed.now state.old state.new }
{
    let client = client_at(fixed, state, number, current);
    gq_statements::client_replies::reply(&mut state.slots, current.session);
    lawful(&state.slots);
    go_on(&mut state.leaves, number, client);
    Ok(())
}

// The reply to a call: the top operand is its result. `MissingOperand` where there is none.
fn called(
    fixed: &Fixed,
    state: &mut MachineState,
    number: usize,
    current: Current,
) -> Result<(), Wrong>
    requires ends { EndsSection fixed.now state.old number current }
    requires section { (level : ℕ) × (current.section ≡ section.Calling level) }
    ensures step { Goes fixed.now number state.old state.new (done result) }
    ensures leaves { LeavesState result fixed.now state.old state.new }
{
    let client = client_at(fixed, state, number, current);
    let leaf = &state.leaves[number];
    match leaf.top() {
        None => Err(Wrong::MissingOperand),
        Some(value) => {
            gq_statements::client_replies::reply(&mut state.slots, current.session);
            lawful(&state.slots);
            go_on_with(&mut state.leaves, number, client, value);
            Ok(())
        }
    }
}

// The reply to a request to close the session.
fn closed(
    fixed: &Fixed,
    state: &mut MachineState,
    number: usize,
    current: Current,
) -> Result<(), Wrong>
    requires ends { EndsSection fixed.now state.old number current }
    requires section { (level : ℕ) × (current.section ≡ section.Closing level) }
    ensures step { Goes fixed.now number state.old state.new (done result) }
    ensures leaves { LeavesState result fixed.now state.old state.new }
{
    let client = client_at(fixed, state, number, current);
    match reply_close(&mut state.slots, current.session) {
        Err(wrong) => Err(wrong),
        Ok(()) => {
            lawful(&state.slots);
            go_on(&mut state.leaves, number, client);
            Ok(())
        }
    }
}

// At the end of a section for a session its server replies: it waits for requests, and the session's client goes on.
pub fn reply(
    fixed: &Fixed,
    state: &mut MachineState,
    number: usize,
    current: Current,
) -> Result<(), Wrong>
    requires ends { EndsSection fixed.now state.old number current }
    ensures step { Goes fixed.now number state.old state.new (done result) }
    ensures leaves { LeavesState result fixed.now state.old state.new }
{
    match current.section {
        Section::Main | Section::Reacting(_) => {
            let _client = client_at(fixed, state, number, current);
            Err(Wrong::WrongKind)
        }
        Section::Opening => opened(fixed, state, number, current),
        Section::Upgrading(_) => upgraded(fixed, state, number, current),
        Section::Calling(_) => called(fixed, state, number, current),
        Section::Closing(_) => closed(fixed, state, number, current),
    }
}

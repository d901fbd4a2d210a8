// Requests that a leaf takes.
ghost use Rattle.std.specs.Prelude.{◌≡◌, ◌+◌, ◌<◌, ◌≤◌, ◌^◌, false, true, not, nat_eq, length, slice_get, IfErr, IfOk, IfSome, IsTrue, OnOk, Err};
ghost use Rattle.gq_model.specs.machine.Scenario.{components};
ghost use Rattle.gq_model.specs.texts.Code.{IsProgram};
ghost use Rattle.gq_program.specs.Interfaces.{are_interfaces};
ghost use Rattle.gq_trade.specs.Numbers.{IsTaken};
ghost use Rattle.gq_trade.specs.declared.requests.Ask.TheVariants as asks;
ghost use Rattle.gq_trade.specs.Seen_requests.{request_seen};
ghost use Rattle.gq_statements.specs.Serving.{AreSections, KnowsService};
ghost use Rattle.gq_statements.specs.Slot_statements.{done};
ghost use Rattle.gq_machine.specs.internal.Machine_invariant.{CanServe, Goes, HasNoSignal, Holds, LeavesState};
ghost use Rattle.gq_machine.specs.internal.Taken_requests.{IsFirst, begun_for, takes};
ghost use Rattle.gq_model.specs.machine.Amounts.{counts_caps};

use crate::machine_state::{Fixed, MachineState};
use gq_leaf::Leaf;
use gq_model::fault::Wrong;
use gq_statements::Current;
use gq_statements::paid_laws::lawful;
use gq_statements::serving_requests::{Provider, section_asked};
use gq_trade::{Ask, Request};

// What every scenario has: its interfaces stand in the order of their names, and each leaf has a program. It does nothing.
fn scenario_laws(fixed: &Fixed, number: usize)
    requires { number < length (components fixed.now.table) }
    ensures interfaces { IsTrue (are_interfaces fixed.now.table.interfaces) }
    ensures program { IfSome (slice_get (components fixed.now.table) number) (λ c. IsProgram c.node.program) }
{
    let _entries = fixed.table.scenario().interfaces().entries();
    fixed.table.programs()[number].laws();
}

// Whether capabilities are counted.
fn counts_caps(fixed: &Fixed, state: &MachineState) -> bool
    requires holds { Holds fixed.now state.now }
    ensures { result ≡ not (nat_eq state.now.slots.trades.trading.ledger.price 0) }
{
    fixed.table.scenario().version().counts_caps()
}

// What a leaf knows of its program and of the service of the session of a request.
fn provider<'a>(
    fixed: &'a Fixed,
    state: &MachineState,
    number: usize,
    session: usize,
) -> Provider<'a>
    requires holds { Holds fixed.now state.now }
    requires number { number < length (components fixed.now.table) }
    requires session { IsTaken state.now.slots.trades.trading.sessions session }
    ensures sections { IfSome (slice_get (components fixed.now.table) number) (λ c. AreSections result.sections.now c) }
    ensures knows { KnowsService state.now.slots session result.object result.counts_caps }
{
    lawful(&state.slots);
    let service = state.slots.trades().session(session).service;
    Provider {
        sections: &fixed.prepared[number].sections,
        object: fixed.services.object(service),
        counts_caps: counts_caps(fixed, state),
    }
}

// A leaf is at the start of the section for a request of a session that had this level.
fn begin(leaf: &mut Leaf, request: Request, level: u8)
    requires steps { leaf.old.state.steps + 1 < 2 ^ 64 }
    requires level { level ≤ 3 }
    ensures { leaf.new ≡ begun_for leaf.old (request_seen request) level }
{
    let current = Current {
        session: request.session,
        section: section_asked(request.ask, level),
    };
    match request.ask {
        Ask::Call(value) => leaf.begin_with(current, value),
        Ask::Open | Ask::Upgrade | Ask::Close => leaf.begin(current),
    }
}

// Whether a session of this level is asked for a level that there is not.
fn is_beyond(ask: Ask, level: u8) -> bool
    requires { level ≤ 3 }
    ensures beyond { result ≡ true → (ask ≡ asks.Upgrade) × (level ≡ 3) }
    ensures within { result ≡ false → ask ≡ asks.Upgrade → level < 3 }
{
    match ask {
        Ask::Upgrade => level == 3,
        Ask::Open | Ask::Close | Ask::Call(_) => false,
    }
}

// A leaf that serves, and of whose signals none is submitted, takes the oldest request to it, which is this one.
fn take(
    fixed: &Fixed,
    state: &mut MachineState,
    number: usize,
    request: Request,
    level: u8,
) -> Result<(), Wrong>
    requires serves { CanServe fixed.now state.old number }
    requires no_signal { HasNoSignal state.old number }
    requires first { IsFirst state.old.slots number request level }
    ensures step { OnOk result (Goes fixed.now number state.old state.new (takes true)) }
    ensures wrong { IfErr result (λ wrong. Goes fixed.now number state.old state.new (done (Err wrong))) }
    ensures leaves { LeavesState result fixed.now state.old state.new }
{
    lawful(&state.slots);
    scenario_laws(fixed, number);
    let provider = provider(fixed, state, number, request.session);
    match gq_statements::serving_requests::accept(&provider, &mut state.slots, number, request) {
        Err(wrong) => Err(wrong),
        Ok(()) => {
            lawful(&state.slots);
            let leaf = &mut state.leaves[number];
            begin(leaf, request, level);
            Ok(())
        }
    }
}

// A leaf that serves, and of whose signals none is submitted, takes the oldest request to it, if there is one. It returns whether one was taken.
pub fn accept(fixed: &Fixed, state: &mut MachineState, number: usize) -> Result<bool, Wrong>
    requires serves { CanServe fixed.now state.old number }
    requires no_signal { HasNoSignal state.old number }
    ensures step { IfOk result (λ was. Goes fixed.now number state.old state.new (takes was)) }
    ensures wrong { IfErr result (λ wrong. Goes fixed.now number state.old state.new (done (Err wrong))) }
    ensures leaves { LeavesState result fixed.now state.old state.new }
    ensures none { IfOk result (λ was. was ≡ false → state.new.leaves.items ≡ state.old.leaves.items) }
    ensures same { IfOk result (λ was. was ≡ false → state.new.slots ≡ state.old.slots) }
{
    lawful(&state.slots);
    let Some(request) = state.slots.trades().waiting(number) else {
        return Ok(false);
    };
    let level = state.slots.trades().level(request.session);
    if is_beyond(request.ask, level) {
        scenario_laws(fixed, number);
        state.slots.laws();
        return Err(Wrong::MissingSection);
    }
    match take(fixed, state, number, request, level) {
        Ok(()) => Ok(true),
        Err(wrong) => Err(wrong),
    }
}

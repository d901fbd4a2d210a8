// The bytes by which settled worlds are told apart: two worlds have the same bytes if they are one but for the numbers of their sessions.
ghost use Rattle.std.specs.Prelude.{◌≡◌, ◌<◌, ◌≤◌, ◌++◌, ◌∷◌, [], Some, OnOk, IfOk, map, option_map, slice_get};
ghost use Rattle.std.specs.Prelude.{IsTrue, get_or, is_some, length};
ghost use Rattle.gq_bytecode.specs.Bytecode_layout.{width};
ghost use Rattle.gq_laws.specs.Renamed.{renamed_current, renamed_slot_id};
ghost use Rattle.gq_machine.specs.Readers.{HasSlotId, body_in};
ghost use Rattle.gq_model.specs.machine.World.{section_of, session_at};
ghost use Rattle.gq_model.specs.machine.Program.{body_of, section_in};
ghost use Rattle.gq_model.specs.machine.Scenario.{Component, components};
ghost use Rattle.gq_prepared.specs.Prepared.{names_of};
ghost use Rattle.gq_program.specs.Statement_trees.{tree_of};
ghost use Rattle.gq_statements.specs.Slot_statements.{current_seen};
ghost use Rattle.gq_trade.specs.Seen_sessions.{slot_id_seen};
ghost use Rattle.gq_outcomes.specs.Same.{named, named_below, named_by, named_in, ordered, ordered_by, session_slots};
ghost use Rattle.gq_outcomes.specs.internal.Choosing.{IsSoundMachine};
ghost use Rattle.gq_outcomes.specs.internal.Kept_keys.{kept_key};
ghost use Rattle.gq_outcomes.specs.internal.Keys as keys;
ghost use Rattle.gq_outcomes.specs.internal.Keys.{current_key, each_key, left_key, list_key, number_key, option_key, section_key, signal_key, signals_key};
ghost use Rattle.gq_outcomes.specs.internal.Keys.{slot_id_key, text_key, world_key};
ghost use Rattle.gq_outcomes.specs.internal.Key_parts.{kept_head_key, kept_leaf_key, kept_request_key, kept_slot_key, leaf_at, numbered_key, peak_key};
ghost use Rattle.gq_outcomes.specs.internal.Key_parts.{place_in, rests, slot_in, state_key};

use crate::encoding::{push_byte, push_number, push_numbers, push_text};
use crate::slot_key::{place_of, push_slot};
use crate::statement_key::push_left;
use gq_leaf::{Signal, Signals};
use gq_machine::machine::Machine;
use gq_machine::world_reads::{Holding, SessionState};
use gq_model::limits::{OWN_SLOTS, SESSION_SLOTS};
use gq_model::phase::Phase;
use gq_model::section::{Section, same_section};
use gq_program::program_tree::{Program, Statement};
use gq_scenario::scenario::LeafNo;
use gq_statements::Current;
use gq_statements::actor::section_of;
use gq_tariff::Class;
use gq_trade::{Ask, Request, SlotId};
use std::alloc::{AllocError, Global};

// ORDER

// Puts the session that a slot names, if it names one.
fn push_named(machine: &Machine, order: &mut Vec<usize>, slot_id: SlotId) -> Result<(), AllocError>
    requires { HasSlotId machine.now slot_id }
    ensures { OnOk result (order.new.items ≡ order.old.items ++ named_in (slot_in machine.now slot_id ∷ [])) }
{
    let Holding::Session(session) = machine.holding(slot_id) else {
        return Ok(());
    };
    order.push(session)?;
    Ok(())
}

// Puts the sessions that the own slots of a leaf name.
fn push_named_by(machine: &Machine, order: &mut Vec<usize>, leaf: usize) -> Result<(), AllocError>
    requires leaf { leaf < length (components machine.now.scenario) }
    requires sound { IsSoundMachine machine.now }
    ensures { OnOk result (order.new.items ≡ order.old.items ++ named_in (leaf_at machine.now.world leaf).slots) }
{
    for slot in 0..OWN_SLOTS {
        push_named(machine, order, SlotId::InLeaf(leaf, slot as u8))?;
    }
    Ok(())
}

// Puts the sessions that the slots of a session name, if it is there.
fn push_named_in(
    machine: &Machine,
    order: &mut Vec<usize>,
    session: usize,
) -> Result<(), AllocError>
    requires { IsSoundMachine machine.now }
    ensures { OnOk result (order.new.items ≡ order.old.items ++ named_in (session_slots (session_at machine.now.world session))) }
{
    let Some(_state) = machine.session(session) else {
        return Ok(());
    };
    for slot in 0..SESSION_SLOTS {
        push_named(machine, order, SlotId::InSession(session, slot as u8))?;
    }
    Ok(())
}

// The sessions that the own slots of leaves name.
fn named_by_leaves(alloc: Global, machine: &Machine) -> Result<Vec<usize>, AllocError>
    requires { IsSoundMachine machine.now }
    ensures { IfOk result (λ r. r.items ≡ named_by machine.now.world.leaves) }
{
    let mut order = Vec::new(alloc);
    for leaf in 0..machine.table().leaf_count() {
        push_named_by(machine, &mut order, leaf)?;
    }
    Ok(order)
}

// The sessions that the slots of these sessions name.
fn named_below(
    alloc: Global,
    machine: &Machine,
    sessions: &[usize],
) -> Result<Vec<usize>, AllocError>
    requires { IsSoundMachine machine.now }
    ensures { IfOk result (λ r. r.items ≡ named_below machine.now.world sessions.now) }
{
    let mut order = Vec::new(alloc);
    for session in sessions {
        push_named_in(machine, &mut order, *session)?;
    }
    Ok(order)
}

// The sessions in the order of the slots that name them: those of leaves, then those of these sessions, and so on. Uses have no cycle, so no session stands
// below as many others as there are leaves.
fn order_of(alloc: Global, machine: &Machine) -> Result<Vec<usize>, AllocError>
    requires { IsSoundMachine machine.now }
    ensures { IfOk result (λ r. r.items ≡ named machine.now.world) }
{
    let mut order = Vec::new(alloc);
    let mut level = named_by_leaves(alloc, machine)?;
    for _depth in 0..machine.table().leaf_count() {
        order.extend_from_slice(level.as_slice())?;
        level = named_below(alloc, machine, level.as_slice())?;
    }
    Ok(order)
}

// LEAVES

// The number of a phase.
fn phase_tag(phase: Phase) -> u8
    ensures { result ≡ keys.phase_tag phase }
{
    match phase {
        Phase::Pending => 0,
        Phase::Running => 1,
        Phase::Blocked => 2,
        Phase::Serving => 3,
        Phase::Handling => 4,
        Phase::Exited => 5,
    }
}

// Puts a section.
fn push_section(key: &mut Vec<u8>, section: Section) -> Result<(), AllocError>
    ensures { OnOk result (key.new.items ≡ key.old.items ++ section_key section) }
{
    match section {
        Section::Main => push_byte(key, 0),
        Section::Opening => push_byte(key, 1),
        Section::Upgrading(level) => {
            push_byte(key, 2)?;
            push_number(key, u64::from(level))
        }
        Section::Calling(level) => {
            push_byte(key, 3)?;
            push_number(key, u64::from(level))
        }
        Section::Closing(level) => {
            push_byte(key, 4)?;
            push_number(key, u64::from(level))
        }
        Section::Reacting(signal) => {
            push_byte(key, 5)?;
            push_number(key, u64::from(signal))
        }
    }
}

// Puts the current session of a leaf and its section.
fn push_current(
    key: &mut Vec<u8>,
    order: &[usize],
    current: Option<Current>,
) -> Result<(), AllocError>
    ensures { OnOk result (key.new.items ≡ key.old.items
        ++ option_key current_key (option_map (renamed_current (place_in order.now)) (current_seen current))) }
{
    match current {
        None => push_byte(key, 0),
        Some(current) => {
            push_byte(key, 1)?;
            push_number(key, place_of(order, current.session) as u64)?;
            push_section(key, current.section)
        }
    }
}

// Puts the phase of a leaf, and its current session and section.
fn push_stance(
    key: &mut Vec<u8>,
    machine: &Machine,
    order: &[usize],
    leaf: LeafNo,
) -> Result<(), AllocError>
    requires leaf { leaf < length (components machine.now.scenario) }
    requires sound { IsSoundMachine machine.now }
    ensures { OnOk result (key.new.items ≡ key.old.items ++ keys.phase_tag (leaf_at machine.now.world leaf).phase
        ∷ option_key current_key (option_map (renamed_current (place_in order.now)) (leaf_at machine.now.world leaf).current)) }
{
    push_byte(key, phase_tag(machine.phase(leaf)))?;
    push_current(key, order, machine.current(leaf))
}

// The statements of a section of a program: none, if it is not there.
fn statements_in(program: &Program, section: Section) -> &[Statement]
    ensures statements { tree_of result.now ≡ body_of (section_in section program.now.sections) }
    ensures small { width (tree_of result.now) ≤ 65536 }
{
    program.laws();
    for (found, body) in program.sections() {
        if same_section(section, *found) {
            return body.statements();
        }
    }
    &[]
}

// Whether a leaf has nothing left to do in this phase: it serves, or has exited.
fn rests(phase: Phase) -> bool
    ensures { result ≡ rests phase }
{
    matches!(phase, Phase::Serving | Phase::Exited)
}

// The statements that a leaf does in its section: none while it serves, and none once it has exited.
fn statements_of(machine: &Machine, leaf: LeafNo) -> &[Statement]
    requires leaf { leaf < length (components machine.now.scenario) }
    requires sound { IsSoundMachine machine.now }
    ensures statements { (c : Component) → slice_get (components machine.now.scenario) leaf ≡ Some c
        → tree_of result.now ≡ body_in (leaf_at machine.now.world leaf).phase
        (body_of (section_in (section_of (leaf_at machine.now.world leaf).current (leaf_at machine.now.world leaf).reacting) c.node.program.sections)) }
    ensures small { width (tree_of result.now) ≤ 65536 }
{
    if rests(machine.phase(leaf)) {
        return &[];
    }
    statements_in(
        &machine.table().programs()[leaf.index()],
        section_of(machine.current(leaf), machine.reacting(leaf)),
    )
}

// Puts what a leaf has left to do.
fn push_todo(key: &mut Vec<u8>, machine: &Machine, leaf: LeafNo) -> Result<(), AllocError>
    requires leaf { leaf < length (components machine.now.scenario) }
    requires sound { IsSoundMachine machine.now }
    ensures { OnOk result (key.new.items ≡ key.old.items
        ++ left_key (leaf_at machine.now.world leaf).todo (leaf_at machine.now.world leaf).loops) }
{
    let registers = machine.registers(leaf);
    let statements = statements_of(machine, leaf);
    push_left(key, registers.rounds(), 0, statements, registers.position())?;
    push_byte(key, 0)
}

// Puts the operands, the top one first.
fn push_operands(key: &mut Vec<u8>, machine: &Machine, leaf: LeafNo) -> Result<(), AllocError>
    requires leaf { leaf < length (components machine.now.scenario) }
    requires sound { IsSoundMachine machine.now }
    ensures { OnOk result (key.new.items ≡ key.old.items ++ text_key (leaf_at machine.now.world leaf).operands) }
{
    let registers = machine.registers(leaf);
    let count = registers.count();
    push_number(key, count as u64)?;
    for place in 0..count {
        push_number(key, u64::from(registers.operand(place)))?;
    }
    Ok(())
}

// Puts the locals.
fn push_locals(key: &mut Vec<u8>, machine: &Machine, leaf: LeafNo) -> Result<(), AllocError>
    requires leaf { leaf < length (components machine.now.scenario) }
    requires sound { IsSoundMachine machine.now }
    ensures { OnOk result (key.new.items ≡ key.old.items ++ text_key (leaf_at machine.now.world leaf).locals) }
{
    push_numbers(key, machine.registers(leaf).locals())
}

// Puts the peaks of these classes.
fn push_peaks_of(
    key: &mut Vec<u8>,
    machine: &Machine,
    leaf: LeafNo,
    classes: &[Class],
) -> Result<(), AllocError>
    requires leaf { leaf < length (components machine.now.scenario) }
    requires sound { IsSoundMachine machine.now }
    ensures { OnOk result (key.new.items ≡ key.old.items
        ++ each_key (peak_key (leaf_at machine.now.world leaf).peaks) classes.now) }
{
    for class in classes {
        push_number(key, u64::from(machine.peak(leaf, *class)))?;
    }
    Ok(())
}

// Puts the peaks of all classes.
fn push_peaks(key: &mut Vec<u8>, machine: &Machine, leaf: LeafNo) -> Result<(), AllocError>
    requires leaf { leaf < length (components machine.now.scenario) }
    requires sound { IsSoundMachine machine.now }
    ensures { OnOk result (key.new.items ≡ key.old.items ++ text_key (leaf_at machine.now.world leaf).peaks) }
{
    push_number(key, Class::ALL.len() as u64)?;
    push_peaks_of(key, machine, leaf, &Class::ALL)
}

// Puts the steps of a leaf, and its inputs.
fn push_counts(key: &mut Vec<u8>, machine: &Machine, leaf: LeafNo) -> Result<(), AllocError>
    requires leaf { leaf < length (components machine.now.scenario) }
    requires sound { IsSoundMachine machine.now }
    ensures { OnOk result (key.new.items ≡ key.old.items
        ++ (number_key (leaf_at machine.now.world leaf).steps ++ text_key (leaf_at machine.now.world leaf).inputs)) }
{
    push_number(key, machine.steps(leaf))?;
    push_numbers(key, machine.inputs(leaf))
}

// Puts the signal that a leaf reacts to, if it reacts to one.
fn push_reacting(key: &mut Vec<u8>, reacting: Option<u8>) -> Result<(), AllocError>
    ensures { OnOk result (key.new.items ≡ key.old.items ++ option_key number_key reacting) }
{
    match reacting {
        None => push_byte(key, 0),
        Some(signal) => {
            push_byte(key, 1)?;
            push_number(key, u64::from(signal))
        }
    }
}

// Puts a signal: whether it is submitted, and how often it was taken.
fn push_signal(key: &mut Vec<u8>, signal: Signal) -> Result<(), AllocError>
    ensures { OnOk result (key.new.items ≡ key.old.items ++ signal_key (record { submitted = signal.submitted; taken = signal.taken })) }
{
    push_byte(key, flag(signal.submitted))?;
    push_number(key, signal.taken)
}

// Puts these signals.
fn push_all_signals(key: &mut Vec<u8>, signals: &Signals) -> Result<(), AllocError>
    ensures { OnOk result (key.new.items ≡ key.old.items ++ list_key signal_key signals.now) }
{
    let count = signals.count();
    push_number(key, count as u64)?;
    for number in 0..count {
        push_signal(key, signals.get(number))?;
    }
    Ok(())
}

// Puts the signal that a leaf reacts to, and its signals.
fn push_signals(key: &mut Vec<u8>, machine: &Machine, leaf: LeafNo) -> Result<(), AllocError>
    requires leaf { leaf < length (components machine.now.scenario) }
    requires sound { IsSoundMachine machine.now }
    ensures { OnOk result (key.new.items ≡ key.old.items
        ++ signals_key (leaf_at machine.now.world leaf).reacting (leaf_at machine.now.world leaf).signals) }
{
    push_reacting(key, machine.reacting(leaf))?;
    push_all_signals(key, machine.signals(leaf))
}

// Puts a leaf but for its slots.
fn push_head(
    key: &mut Vec<u8>,
    machine: &Machine,
    order: &[usize],
    leaf: LeafNo,
) -> Result<(), AllocError>
    requires leaf { leaf < length (components machine.now.scenario) }
    requires sound { IsSoundMachine machine.now }
    ensures { OnOk result (key.new.items ≡ key.old.items ++ kept_head_key order.now (leaf_at machine.now.world leaf)) }
{
    push_stance(key, machine, order, leaf)?;
    push_todo(key, machine, leaf)?;
    push_operands(key, machine, leaf)?;
    push_locals(key, machine, leaf)?;
    push_peaks(key, machine, leaf)?;
    push_counts(key, machine, leaf)?;
    push_signals(key, machine, leaf)
}

// Puts the own slots of a leaf.
fn push_own_slots(
    key: &mut Vec<u8>,
    machine: &Machine,
    order: &[usize],
    leaf: usize,
) -> Result<(), AllocError>
    requires leaf { leaf < length (components machine.now.scenario) }
    requires sound { IsSoundMachine machine.now }
    ensures { OnOk result (key.new.items ≡ key.old.items ++ list_key (kept_slot_key order.now) (leaf_at machine.now.world leaf).slots) }
{
    push_number(key, OWN_SLOTS as u64)?;
    for slot in 0..OWN_SLOTS {
        push_slot(machine, key, order, SlotId::InLeaf(leaf, slot as u8))?;
    }
    Ok(())
}

// Puts a leaf.
fn push_leaf(
    key: &mut Vec<u8>,
    machine: &Machine,
    order: &[usize],
    leaf: usize,
) -> Result<(), AllocError>
    requires leaf { leaf < length (components machine.now.scenario) }
    requires sound { IsSoundMachine machine.now }
    ensures { OnOk result (key.new.items ≡ key.old.items ++ kept_leaf_key order.now (leaf_at machine.now.world leaf)) }
{
    let _leaves = machine.table().leaf_count();
    push_head(key, machine, order, LeafNo::new(leaf as u32))?;
    push_own_slots(key, machine, order, leaf)
}

// Puts all leaves.
fn push_leaves(key: &mut Vec<u8>, machine: &Machine, order: &[usize]) -> Result<(), AllocError>
    requires { IsSoundMachine machine.now }
    ensures { OnOk result (key.new.items ≡ key.old.items ++ list_key (kept_leaf_key order.now) machine.now.world.leaves) }
{
    let count = machine.table().leaf_count();
    push_number(key, count as u64)?;
    for number in 0..count {
        push_leaf(key, machine, order, number)?;
    }
    Ok(())
}

// SESSIONS

// Puts the slot in which a session stands.
fn push_slot_id(key: &mut Vec<u8>, order: &[usize], slot_id: SlotId) -> Result<(), AllocError>
    ensures { OnOk result (key.new.items ≡ key.old.items ++ slot_id_key (renamed_slot_id (place_in order.now) (slot_id_seen slot_id))) }
{
    match slot_id {
        SlotId::InLeaf(leaf, slot) => {
            push_byte(key, 0)?;
            push_number(key, leaf as u64)?;
            push_number(key, u64::from(slot))
        }
        SlotId::InSession(session, slot) => {
            push_byte(key, 1)?;
            push_number(key, place_of(order, session) as u64)?;
            push_number(key, u64::from(slot))
        }
        SlotId::InObject(session) => {
            push_byte(key, 2)?;
            push_number(key, place_of(order, session) as u64)
        }
    }
}

// The name of a service.
fn service_name(machine: &Machine, service: usize) -> &[u8]
    requires { service < length machine.now.scenario.interfaces }
    ensures { result.now ≡ get_or (names_of machine.now.scenario) service [] }
{
    let (name, _interface) = &machine.table().scenario().interfaces().entries()[service];
    name.as_bytes()
}

// 1 if so, 0 if not.
fn flag(holds: bool) -> u8
    ensures { result ≡ keys.flag holds }
{
    if holds { 1 } else { 0 }
}

// Puts a session but for its object and its slots.
fn push_session(
    key: &mut Vec<u8>,
    machine: &Machine,
    order: &[usize],
    state: SessionState,
    slot_id: SlotId,
) -> Result<(), AllocError>
    requires { state.service < length machine.now.scenario.interfaces }
    ensures { OnOk result (key.new.items ≡ key.old.items ++ state_key order.now (names_of machine.now.scenario) state slot_id) }
{
    push_number(key, state.client as u64)?;
    push_slot_id(key, order, slot_id)?;
    push_number(key, state.server as u64)?;
    push_text(key, service_name(machine, state.service))?;
    push_number(key, u64::from(state.level))?;
    push_number(key, state.donation.ram)?;
    push_number(key, state.donation.caps)?;
    push_byte(key, flag(state.accepted))
}

// Puts the slots of a session.
fn push_session_slots(
    key: &mut Vec<u8>,
    machine: &Machine,
    order: &[usize],
    session: usize,
) -> Result<(), AllocError>
    requires there { IsTrue (is_some (session_at machine.now.world session)) }
    requires sound { IsSoundMachine machine.now }
    ensures { OnOk result (key.new.items ≡ key.old.items ++ list_key (kept_slot_key order.now) (session_slots (session_at machine.now.world session))) }
{
    push_number(key, SESSION_SLOTS as u64)?;
    for slot in 0..SESSION_SLOTS {
        push_slot(machine, key, order, SlotId::InSession(session, slot as u8))?;
    }
    Ok(())
}

// Puts the session of this number, if it is there.
fn push_numbered(
    key: &mut Vec<u8>,
    machine: &Machine,
    order: &[usize],
    session: usize,
) -> Result<(), AllocError>
    requires { IsSoundMachine machine.now }
    ensures { OnOk result (key.new.items ≡ key.old.items ++ numbered_key machine.now.world order.now session) }
{
    let Some(state) = machine.session(session) else {
        return push_byte(key, 0);
    };
    let Some(slot_id) = machine.slot_of(session) else {
        unreachable!()
    };
    push_byte(key, 1)?;
    push_session(key, machine, order, state, slot_id)?;
    push_slot(machine, key, order, SlotId::InObject(session))?;
    push_session_slots(key, machine, order, session)
}

// Puts the sessions in their order.
fn push_sessions(key: &mut Vec<u8>, machine: &Machine, order: &[usize]) -> Result<(), AllocError>
    requires { IsSoundMachine machine.now }
    ensures { OnOk result (key.new.items ≡ key.old.items ++ list_key (numbered_key machine.now.world order.now) order.now) }
{
    push_number(key, order.len() as u64)?;
    for session in order {
        push_numbered(key, machine, order, *session)?;
    }
    Ok(())
}

// REQUESTS AND LINES

// Puts a request.
fn push_request(key: &mut Vec<u8>, order: &[usize], request: Request) -> Result<(), AllocError>
    ensures { OnOk result (key.new.items ≡ key.old.items ++ kept_request_key order.now request) }
{
    push_number(key, place_of(order, request.session) as u64)?;
    match request.ask {
        Ask::Open => push_byte(key, 0),
        Ask::Upgrade => push_byte(key, 1),
        Ask::Close => push_byte(key, 2),
        Ask::Call(value) => {
            push_byte(key, 3)?;
            push_number(key, u64::from(value))
        }
    }
}

// Puts these requests.
fn push_all_requests(
    key: &mut Vec<u8>,
    order: &[usize],
    requests: &[Request],
) -> Result<(), AllocError>
    ensures { OnOk result (key.new.items ≡ key.old.items ++ list_key (kept_request_key order.now) requests.now) }
{
    push_number(key, requests.len() as u64)?;
    for request in requests {
        push_request(key, order, *request)?;
    }
    Ok(())
}

// Puts the lines of leaves.
fn push_said(key: &mut Vec<u8>, said: &[Vec<u8>]) -> Result<(), AllocError>
    ensures { OnOk result (key.new.items ≡ key.old.items ++ list_key text_key (map (λ v. v.items) said.now)) }
{
    push_number(key, said.len() as u64)?;
    for lines in said {
        push_text(key, lines.as_slice())?;
    }
    Ok(())
}

// Puts a world whose sessions have this order.
fn push_world(key: &mut Vec<u8>, machine: &Machine, order: &[usize]) -> Result<(), AllocError>
    requires { IsSoundMachine machine.now }
    ensures { OnOk result (key.new.items ≡ key.old.items ++ world_key (ordered_by order.now machine.now.world)) }
{
    push_leaves(key, machine, order)?;
    push_sessions(key, machine, order)?;
    push_all_requests(key, order, machine.requests())
}

/// The bytes by which a world is told apart in which leaves that provide nothing have written these lines. Refused only if the host refuses memory.
pub(crate) fn key_of(
    alloc: Global,
    machine: &Machine,
    said: &[Vec<u8>],
) -> Result<Vec<u8>, AllocError>
    requires { IsSoundMachine machine.now }
    ensures { IfOk result (λ key. key.items ≡ kept_key (record { world = ordered machine.now.world; said = map (λ v. v.items) said.now })) }
{
    let order = order_of(alloc, machine)?;
    let mut key = Vec::new(alloc);
    push_world(&mut key, machine, order.as_slice())?;
    push_said(&mut key, said)?;
    Ok(key)
}

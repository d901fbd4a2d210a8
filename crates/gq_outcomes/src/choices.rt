// Where leaves stand at a choice: the next statement makes a request to a racy server.
ghost use Rattle.std.specs.Prelude.{◌≡◌, ◌<◌, ◌&&◌, ℕ, Some, None, true, false, IfOk, length, slice_get};
ghost use Rattle.gq_model.specs.machine.Routes.{server_of};
ghost use Rattle.gq_model.specs.machine.Scenario.{Component, components, system};
ghost use Rattle.gq_model.specs.machine.World as model;
ghost use Rattle.gq_machine.specs.Readers.{HasSlotId};
ghost use Rattle.gq_model.specs.machine.World.{section_of};
ghost use Rattle.gq_laws.specs.Ready.{IsReady};
ghost use Rattle.gq_model.specs.machine.Rest.{can_run};
ghost use Rattle.gq_statements.specs.Slot_statements.{current_seen};
ghost use Rattle.gq_trade.specs.Seen_sessions.{slot_id_seen};
ghost use Rattle.gq_outcomes.specs.Choices as spec;
ghost use Rattle.gq_outcomes.specs.Choices.{racy_servers, server_behind};
ghost use Rattle.gq_outcomes.specs.internal.Asked_servers.{server_asked};
ghost use Rattle.gq_outcomes.specs.internal.Asks.{AreOfSections};
ghost use Rattle.gq_outcomes.specs.internal.Choosing.{AreChoices, IsNext, IsSoundMachine, is_active};

use crate::asks::{Asks, SectionAsks, asks_at, program_asks};
use arrayvec::ArrayVec;
use gq_machine::machine::Machine;
use gq_machine::world_reads::Holding;
use gq_model::limits::{GREATEST_LEAVES, OWN_SLOTS, SESSION_SLOTS};
use gq_model::phase::Phase;
use gq_model::program::OperandSlot;
use gq_model::section::Section;
use gq_resolve::NodeTable;
use gq_scenario::scenario::LeafNo;
use gq_statements::actor::section_of;
use gq_statements::{Actor, Current};
use gq_trade::SlotId;
use gq_views::table_leaf::TableLeaf;
use std::alloc::{AllocError, Global};

/// What decides where leaves stand at a choice: which leaves are racy servers, and what comes next at each place of their programs.
#[derive(Drop)]
pub(crate) struct Choices {
    racy: Vec<bool>,
    asks: Vec<Vec<SectionAsks>>,
}

// Whether there is a slot.
fn has_slot(machine: &Machine, slot_id: SlotId) -> bool
    requires { IsSoundMachine machine.now }
    ensures there { result ≡ true → HasSlotId machine.now slot_id }
    ensures none { result ≡ false → model.slot_at machine.now.world (slot_id_seen slot_id) ≡ None }
{
    match slot_id {
        SlotId::InLeaf(leaf, slot) => {
            leaf < machine.table().leaf_count() && usize::from(slot) < OWN_SLOTS
        }
        SlotId::InSession(session, slot) => {
            machine.session(session).is_some() && usize::from(slot) < SESSION_SLOTS
        }
        SlotId::InObject(session) => machine.session(session).is_some(),
    }
}

// The server of a session, if it is there.
fn server_of(machine: &Machine, session: usize) -> Option<usize>
    ensures { result ≡ spec.server_in (model.session_at machine.now.world session) }
{
    match machine.session(session) {
        None => None,
        Some(state) => Some(state.server),
    }
}

// The server of the session behind a link in a slot.
fn server_behind(machine: &Machine, slot_id: SlotId) -> Option<usize>
    requires { IsSoundMachine machine.now }
    ensures { result ≡ server_behind machine.now.world (model.slot_at machine.now.world (slot_id_seen slot_id)) }
{
    if !has_slot(machine, slot_id) || machine.awaits(slot_id) {
        return None;
    }
    match machine.holding(slot_id) {
        Holding::Session(session) => server_of(machine, session),
        Holding::Nothing | Holding::Bytes(_, _) | Holding::Pool(_, _) => None,
    }
}

// The server of the session that an operand of a leaf names.
fn server_at(machine: &Machine, leaf: LeafNo, slot: OperandSlot) -> Option<usize>
    requires leaf { leaf < length (components machine.now.scenario) }
    requires sound { IsSoundMachine machine.now }
    ensures { (l : model.Leaf) → slice_get machine.now.world.leaves leaf ≡ Some l → result ≡ spec.server_at machine.now.world leaf l slot }
{
    let actor = Actor {
        leaf: leaf.index(),
        current: machine.current(leaf),
    };
    match actor.slot_id(slot) {
        None => None,
        Some(slot_id) => server_behind(machine, slot_id),
    }
}

// The server that a leaf makes a request to, if it asks so.
fn server_asked(machine: &Machine, leaf: LeafNo, asks: Asks) -> Option<usize>
    requires leaf { leaf < length (components machine.now.scenario) }
    requires sound { IsSoundMachine machine.now }
    ensures { (l : model.Leaf) → slice_get machine.now.world.leaves leaf ≡ Some l → result ≡ server_asked machine.now.world leaf l asks }
{
    match asks {
        Asks::Opens(server) => server,
        Asks::Names(slot) => server_at(machine, leaf, slot),
        Asks::Nothing | Asks::Other => None,
    }
}

/// Whether a leaf can take a turn: it runs, handles a request or a signal, or serves and one of its signals is submitted or a request waits for it.
pub(crate) fn can_take(machine: &Machine, leaf: LeafNo) -> bool
    requires leaf { leaf < length (components machine.now.scenario) }
    requires sound { IsSoundMachine machine.now }
    ensures { result ≡ can_run (system machine.now.scenario) machine.now.world leaf }
{
    match machine.phase(leaf) {
        Phase::Running | Phase::Handling => true,
        Phase::Serving => {
            machine.signals(leaf).first().is_some() || machine.oldest(leaf).is_some()
        }
        Phase::Pending | Phase::Blocked | Phase::Exited => false,
    }
}

// Whether a leaf takes steps of its own in this phase.
fn is_active(phase: Phase) -> bool
    ensures { result ≡ is_active phase }
{
    matches!(phase, Phase::Running | Phase::Handling)
}

// Whether the leaf that is found is racy.
fn is_one_of(racy: &[bool], leaf: Option<usize>) -> bool
    ensures { result ≡ spec.is_one_of racy.now leaf }
{
    match leaf {
        None => false,
        Some(leaf) => match racy.get(leaf) {
            None => false,
            Some(is_racy) => *is_racy,
        },
    }
}

// What comes next at each place of the programs of all leaves.
fn all_asks(alloc: Global, table: &NodeTable) -> Result<Vec<Vec<SectionAsks>>, AllocError>
    requires { IsReady table.now }
    ensures count { IfOk result (λ r. length r.items ≡ length (components table.now)) }
    ensures each { IfOk result (λ r. (x : ℕ) (c : Component) (asks : _) → slice_get (components table.now) x ≡ Some c → slice_get r.items x ≡ Some asks
        → AreOfSections (server_of (system table.now) c) c.node.program.sections asks.items) }
{
    let mut all = Vec::new(alloc);
    for number in 0..table.leaf_count() {
        let client = TableLeaf::new(table, LeafNo::new(number as u32));
        all.push(program_asks(alloc, &client)?)?;
    }
    Ok(all)
}

impl Choices {
    /// Those of a scenario of which these leaves are racy servers. Refused only if the host refuses memory.
    pub(crate) fn new(
        alloc: Global,
        table: &NodeTable,
        racy: Vec<bool>,
    ) -> Result<Choices, AllocError>
        requires ready { IsReady table.now }
        requires racy { racy.items ≡ racy_servers (system table.now) }
        ensures { IfOk result (λ c. AreChoices table.now c) }
    {
        let asks = all_asks(alloc, table)?;
        Ok(Choices { racy, asks })
    }

    // What comes next for a leaf.
    fn next(&self, machine: &Machine, leaf: LeafNo) -> Asks
        requires leaf { leaf < length (components machine.now.scenario) }
        requires choices { AreChoices machine.now.scenario self.now }
        requires sound { IsSoundMachine machine.now }
        ensures { (c : Component) (l : model.Leaf) → slice_get (components machine.now.scenario) leaf ≡ Some c
            → slice_get machine.now.world.leaves leaf ≡ Some l → IsNext machine.now.scenario c l result }
    {
        asks_at(
            self.asks[leaf.index()].as_slice(),
            section_of(machine.current(leaf), machine.reacting(leaf)),
            machine.registers(leaf).position(),
        )
    }

    // Whether a leaf makes a request to a racy server next, where it takes steps of its own.
    fn asks_racy(&self, machine: &Machine, leaf: LeafNo) -> bool
        requires leaf { leaf < length (components machine.now.scenario) }
        requires choices { AreChoices machine.now.scenario self.now }
        requires sound { IsSoundMachine machine.now }
        ensures { (l : model.Leaf) → slice_get machine.now.world.leaves leaf ≡ Some l → (is_active l.phase && result)
            ≡ spec.is_at_choice (system machine.now.scenario) (racy_servers (system machine.now.scenario)) machine.now.world leaf }
    {
        let asks = self.next(machine, leaf);
        is_one_of(self.racy.as_slice(), server_asked(machine, leaf, asks))
    }

    /// Whether a leaf can take a turn, and stands at a choice.
    pub(crate) fn is_at_choice(&self, machine: &Machine, leaf: LeafNo) -> bool
        requires leaf { leaf < length (components machine.now.scenario) }
        requires choices { AreChoices machine.now.scenario self.now }
        requires sound { IsSoundMachine machine.now }
        ensures { result ≡ spec.is_at_choice (system machine.now.scenario) (racy_servers (system machine.now.scenario)) machine.now.world leaf }
    {
        let _registers = machine.registers(leaf);
        is_active(machine.phase(leaf)) && self.asks_racy(machine, leaf)
    }

    /// Whether a leaf can take a turn that is no choice.
    pub(crate) fn can_settle(&self, machine: &Machine, leaf: LeafNo) -> bool
        requires leaf { leaf < length (components machine.now.scenario) }
        requires choices { AreChoices machine.now.scenario self.now }
        requires sound { IsSoundMachine machine.now }
        ensures { result ≡ spec.can_settle (system machine.now.scenario) (racy_servers (system machine.now.scenario)) machine.now.world leaf }
    {
        can_take(machine, leaf) && !self.is_at_choice(machine, leaf)
    }

    /// Whether some leaf can take a turn that is no choice.
    pub(crate) fn some_settle(&self, machine: &Machine) -> bool
        requires choices { AreChoices machine.now.scenario self.now }
        requires sound { IsSoundMachine machine.now }
        ensures { result ≡ spec.some_settle (system machine.now.scenario) (racy_servers (system machine.now.scenario)) machine.now.world 0
            (components machine.now.scenario) }
    {
        for number in 0..machine.table().leaf_count() {
            if self.can_settle(machine, LeafNo::new(number as u32)) {
                return true;
            }
        }
        false
    }

    /// The leaves that stand at a choice, in preorder.
    pub(crate) fn leaves(&self, machine: &Machine) -> ArrayVec<u8, GREATEST_LEAVES>
        requires choices { AreChoices machine.now.scenario self.now }
        requires sound { IsSoundMachine machine.now }
        ensures { result.items ≡ spec.choices (system machine.now.scenario) (racy_servers (system machine.now.scenario)) machine.now.world }
    {
        let mut leaves = ArrayVec::new();
        for number in 0..machine.table().leaf_count() {
            if self.is_at_choice(machine, LeafNo::new(number as u32)) {
                leaves.push(number as u8);
            }
        }
        leaves
    }
}

// The machine: the leaves of a scenario over their memory and sessions.
ghost use Rattle.std.specs.Prelude.{◌≡◌, ℕ, ◌+◌, ◌*◌, ◌<◌, ◌≤◌, List, IfOk, IfSome, Ok, Err, length, slice_get, true};
ghost use Rattle.gq_model.specs.machine.Amounts.{Ram, Caps, counts_caps};
ghost use Rattle.gq_model.specs.machine.Accounts.{accounts};
ghost use Rattle.gq_model.specs.machine.Scenario.{Component, components, system};
ghost use Rattle.gq_model.specs.machine.Sums.{held};
ghost use Rattle.gq_model.specs.machine.World.{first_phase, start};
ghost use Rattle.gq_resolve.specs.NodeTables.{node_rows};
ghost use Rattle.gq_laws.specs.Ready.{IsReady};
ghost use Rattle.gq_bytecode.specs.Programs.{IsCodeOfProgram};
ghost use Rattle.gq_prepared.specs.Account_nodes.{caps_of};
ghost use Rattle.gq_prepared.specs.Prepared.{AreServices};
ghost use Rattle.gq_prepared.specs.Leaf_holdings.{held_by_all};
ghost use Rattle.gq_leaf.specs.Coded.{Coded};
ghost use Rattle.gq_machine.specs.internal.Machine_invariant.{IsPrepared};
ghost use Rattle.gq_machine.specs.internal.First_leaf_holdings.{held_before};
ghost use Rattle.gq_machine.specs.internal.Starts.{AreFirst, ArePrepared, IsFirstOf, AreFirstSlots};

use crate::machine_state::{Fixed, MachineState, Prepared};
use gq_bytecode::Code;
use gq_leaf::{Leaf, Signals};
use gq_model::limits::{GREATEST_SESSIONS, INPUTS};
use gq_model::phase::Phase;
use gq_prepared::openings::openings;
use gq_prepared::plan_of;
use gq_prepared::program_sections::sections_of;
use gq_prepared::service_gifts::Services;
use gq_resolve::NodeTable;
use gq_scenario::node_numbers::NodeNo;
use gq_scenario::scenario::LeafNo;
use gq_slots::Slots;
use gq_statements::paid_laws::lawful;
use gq_tariff::Amount;
use gq_tariff::price::PAGE;
use gq_trade::Stage;
use std::alloc::{AllocError, Global};
use std::marker::Model;

// How many sessions there is room for: more than there can be at a time.
const ROOM: u32 = GREATEST_SESSIONS as u32;

/// The leaves of a scenario between two steps, with all that they have in memory and sessions.
#[derive(Drop)]
pub struct Machine {
    pub(crate) fixed: Fixed,
    pub(crate) state: MachineState,
}

impl Model for Machine {
    ghost use Rattle.gq_machine.specs.Machines.{Machine};
    ghost use Rattle.gq_machine.specs.internal.Machine_invariant.{Holds};
    ghost use Rattle.gq_machine.specs.internal.Starts.{machine_seen};
    ghost use Rattle.gq_model.specs.internal.Stored.{statements_code, nodes_code};
    ghost use Rattle.std.specs.Coded.{codes};

    ghost Value = { Machine };

    ghost coded = { Prim.hlevel (
      codes,
      statements_code (Prim.hlevel codes),
      nodes_code (Prim.hlevel (codes, statements_code (Prim.hlevel codes))) (Prim.hlevel codes),
    ) };

    ghost view = { machine_seen };

    ghost invariant = { λ m. Holds m.fixed m.state };
}

// The phase in which a leaf starts.
fn first_phase(table: &NodeTable, leaf: LeafNo) -> Phase
    requires ready { IsReady table.now }
    requires leaf { leaf < length (components table.now) }
    ensures { IfSome (slice_get (components table.now) leaf) (λ c. result ≡ first_phase c.node.after) }
{
    match table.after(leaf) {
        None => Phase::Running,
        Some(_) => Phase::Pending,
    }
}

// The leaf of this number at the start of its program.
fn first_leaf(alloc: Global, table: &NodeTable, leaf: LeafNo) -> Result<Leaf, AllocError>
    requires ready { IsReady table.now }
    requires leaf { leaf < length (components table.now) }
    ensures { IfOk result (λ l. IfSome (slice_get (components table.now) leaf) (λ c. IsFirstOf c l)) }
{
    let phase = first_phase(table, leaf);
    let signals = usize::from(table.signals(leaf));
    Leaf::new(alloc, &table.programs()[leaf.index()], phase, signals)
}

// All leaves at the start of their programs.
fn first_leaves(alloc: Global, table: &NodeTable) -> Result<Vec<Leaf>, AllocError>
    requires ready { IsReady table.now }
    ensures { IfOk result (λ ls. AreFirst (components table.now) (length (components table.now)) ls.items) }
{
    let mut leaves = Vec::new(alloc);
    for number in 0..table.leaf_count() {
        leaves.push(first_leaf(alloc, table, LeafNo::new(number as u32))?)?;
    }
    Ok(leaves)
}

// What is prepared of a leaf with this code.
fn prepared_of(
    alloc: Global,
    table: &NodeTable,
    leaf: LeafNo,
    code: &Code,
) -> Result<Prepared, AllocError>
    requires ready { IsReady table.now }
    requires leaf { leaf < length (components table.now) }
    requires code { IfSome (slice_get (components table.now) leaf) (λ c. IsCodeOfProgram code.now c.node.program.sections) }
    ensures { IfOk result (λ p. (c : Component) (l : Coded) → slice_get (components table.now) leaf ≡ Some c → l.code ≡ code.now → IsPrepared table.now c l p) }
{
    let openings = openings(alloc, table, leaf, code)?;
    Ok(Prepared {
        openings,
        sections: sections_of(code),
    })
}

// What is prepared of all leaves.
fn prepared(alloc: Global, table: &NodeTable, leaves: &[Leaf]) -> Result<Vec<Prepared>, AllocError>
    requires ready { IsReady table.now }
    requires first { AreFirst (components table.now) (length (components table.now)) leaves.now }
    ensures { IfOk result (λ ps. ArePrepared table.now (length (components table.now)) leaves.now ps.items) }
{
    let mut prepared = Vec::new(alloc);
    for number in 0..table.leaf_count() {
        let code = leaves[number].code();
        prepared.push(prepared_of(alloc, table, LeafNo::new(number as u32), code)?)?;
    }
    Ok(prepared)
}

// The capabilities that there are, where they are counted.
fn caps_of(table: &NodeTable) -> Option<u64>
    ensures { result ≡ caps_of table.now }
{
    let scenario = table.scenario();
    if scenario.version().counts_caps() {
        Some(u64::from(scenario.total().caps()))
    } else {
        None
    }
}

// The slots of all leaves, which are empty, over their first accounts.
fn first_slots(alloc: Global, table: &NodeTable) -> Result<Slots, AllocError>
    requires { IsReady table.now }
    ensures { IfOk result (λ t. AreFirstSlots table.now t) }
{
    table.scenario().laws();
    let plan = plan_of(alloc, table)?;
    let slots = Slots::new(
        alloc,
        table.scenario().total().ram(),
        caps_of(table),
        plan,
        ROOM,
    )?;
    Ok(slots)
}

// What is prepared at load of a scenario whose leaves start with this code: of each leaf, and of the services.
fn prepare(
    alloc: Global,
    table: &NodeTable,
    leaves: &[Leaf],
) -> Result<(Vec<Prepared>, Services), AllocError>
    requires ready { IsReady table.now }
    requires first { AreFirst (components table.now) (length (components table.now)) leaves.now }
    ensures prepared { IfOk result (λ p. ArePrepared table.now (length (components table.now)) leaves.now p.0.items) }
    ensures services { IfOk result (λ p. AreServices table.now p.1) }
{
    let prepared = prepared(alloc, table, leaves)?;
    match Services::new(alloc, table) {
        Ok(services) => Ok((prepared, services)),
        Err(refused) => Err(refused),
    }
}

// What changes, at the start of a scenario, and what is prepared for it.
fn parts(
    alloc: Global,
    table: &NodeTable,
) -> Result<(MachineState, (Vec<Prepared>, Services)), AllocError>
    requires { IsReady table.now }
    ensures slots { IfOk result (λ p. AreFirstSlots table.now p.0.slots) }
    ensures leaves { IfOk result (λ p. AreFirst (components table.now) (length (components table.now)) p.0.leaves.items) }
    ensures prepared { IfOk result (λ p. ArePrepared table.now (length (components table.now)) p.0.leaves.items p.1.0.items) }
    ensures services { IfOk result (λ p. AreServices table.now p.1.1) }
{
    let leaves = first_leaves(alloc, table)?;
    let prepared = prepare(alloc, table, leaves.as_slice())?;
    match first_slots(alloc, table) {
        Ok(slots) => Ok((MachineState { leaves, slots }, prepared)),
        Err(refused) => Err(refused),
    }
}

impl Machine {
    /// The machine at the start of a scenario that is read and resolved. Refused only if the host refuses memory.
    pub fn new(alloc: Global, table: NodeTable) -> Result<Machine, AllocError>
        requires ready { IsReady table }
        ensures scenario { IfOk result (λ m. m.scenario ≡ table) }
        ensures world { IfOk result (λ m. m.world ≡ start (system table)) }
    {
        match parts(alloc, &table) {
            Ok(parts) => {
                let (state, prepared) = parts;
                let fixed = Fixed {
                    table,
                    prepared: prepared.0,
                    services: prepared.1,
                };
                Ok(Machine { fixed, state })
            }
            Err(refused) => {
                drop(table);
                Err(refused)
            }
        }
    }

    /// The nodes of the scenario.
    pub fn table(&self) -> &NodeTable
        ensures { result.now ≡ self.now.scenario }
    {
        &self.fixed.table
    }

    /// What a leaf does.
    pub fn phase(&self, leaf: LeafNo) -> Phase
        requires { leaf < length (components self.now.scenario) }
        ensures { IfSome (slice_get self.now.world.leaves leaf) (λ l. result ≡ l.phase) }
    {
        self.state.leaves[leaf.index()].phase()
    }

    /// The values of the eight inputs of a leaf.
    pub fn inputs(&self, leaf: LeafNo) -> &[u32; INPUTS]
        requires { leaf < length (components self.now.scenario) }
        ensures { IfSome (slice_get self.now.world.leaves leaf) (λ l. result.now ≡ l.inputs) }
    {
        self.state.leaves[leaf.index()].inputs()
    }

    /// The signals of a leaf.
    pub fn signals(&self, leaf: LeafNo) -> &Signals
        requires { leaf < length (components self.now.scenario) }
        ensures { IfSome (slice_get self.now.world.leaves leaf) (λ l. result.now ≡ l.signals) }
    {
        self.state.leaves[leaf.index()].signals()
    }

    /// The steps that a leaf has taken.
    pub fn steps(&self, leaf: LeafNo) -> u64
        requires { leaf < length (components self.now.scenario) }
        ensures { IfSome (slice_get self.now.world.leaves leaf) (λ l. result ≡ l.steps) }
    {
        self.state.leaves[leaf.index()].steps()
    }

    /// The quota of a node. Capabilities are not counted in version 1, and are 0 there.
    pub fn quota(&self, node: NodeNo) -> Amount
        requires { node < length (node_rows self.now.scenario) }
        ensures ram { (reported : List ℕ) → IfSome (slice_get (accounts self.now.scenario self.now.world reported) node) (λ a. result.ram ≡ a.quota.ram) }
        ensures caps { (reported : List ℕ) → IfSome (slice_get (accounts self.now.scenario self.now.world reported) node) (λ a. result.caps ≡ a.quota.caps) }
    {
        lawful(&self.state.slots);
        let trades = self.state.slots.trades();
        match trades.stage(node.index()) {
            Stage::Ended => Amount { ram: 0, caps: 0 },
            Stage::Pending | Stage::Live => {
                let quota = trades.quota(node.index());
                if self.fixed.table.scenario().version().counts_caps() {
                    quota
                } else {
                    Amount {
                        ram: quota.ram,
                        caps: 0,
                    }
                }
            }
        }
    }

    /// What a leaf holds: bytes, and capabilities in version 2, where they are counted. In version 1 nothing is promised of capabilities.
    pub fn used(&self, leaf: LeafNo) -> Amount
        requires { leaf < length (components self.now.scenario) }
        ensures ram { IfSome (slice_get self.now.world.leaves leaf) (λ l. result.ram ≡ held Ram self.now.world leaf l) }
        ensures caps { counts_caps self.now.scenario.version ≡ true
            → IfSome (slice_get self.now.world.leaves leaf) (λ l. result.caps ≡ held Caps self.now.world leaf l) }
    {
        let place = leaf.index();
        lawful(&self.state.slots);
        let trades = self.state.slots.trades();
        match self.state.leaves[place].phase() {
            Phase::Exited => Amount { ram: 0, caps: 0 },
            _ => trades.used(self.fixed.table.node(leaf).index()),
        }
    }

    // What the leaves from the first to one hold, in bytes.
    fn used_before(&self, end: usize) -> u64
        requires { end ≤ length (components self.now.scenario) }
        ensures { result ≡ held_before Ram self.now.world 0 end self.now.world.leaves }
    {
        lawful(&self.state.slots);
        let _leaves = self.fixed.table.leaf_count();
        let mut sum = 0;
        for number in 0..end {
            sum += self.used(LeafNo::new(number as u32)).ram;
        }
        sum
    }

    /// The pages, of 4096 bytes, that no leaf holds, where the leaves hold no more than there is.
    pub fn free_pages(&self) -> u64
        requires { held_by_all Ram self.now.world ≤ self.now.scenario.total.ram }
        ensures { result * 4096 + held_by_all Ram self.now.world ≡ self.now.scenario.total.ram }
    {
        let scenario = self.fixed.table.scenario();
        scenario.laws();
        let used = self.used_before(self.fixed.table.leaf_count());
        (scenario.total().ram() - used) / PAGE
    }
}

// Plans from tables of nodes.
ghost use Rattle.std.specs.Prelude.{◌≡◌, ◌≤◌, ◌<◌, ℕ, length, map, get_or, slice_get, IfOk, IfSome};
ghost use Rattle.gq_model.specs.machine.Scenario.{components};
ghost use Rattle.gq_scenario.specs.Sizes.{leaf_places};
ghost use Rattle.gq_scenario.specs.Component_trees.{version_number};
ghost use Rattle.gq_resolve.specs.NodeTables.{node_rows};
ghost use Rattle.gq_laws.specs.Ready.{IsReady};
ghost use Rattle.gq_trade.specs.Trades_plan.{IsPlan};
ghost use Rattle.gq_prepared.specs.Account_nodes.{parents_of, objects_of, caps_of, given_in, or_zero};
ghost use Rattle.gq_prepared.specs.Scenario_plan.{IsPlanOf};
ghost use Rattle.gq_prepared.specs.internal.Firsts.{first_leaf, first_node};

use gq_resolve::NodeTable;
use gq_scenario::node_numbers::NodeNo;
use gq_scenario::scenario::{LeafNo, Quantum, Version};
use gq_tariff::Amount;
use gq_trade::{NodeState, Plan, Stage};
use std::alloc::{AllocError, Global};

// The place of the node above a node; the root has 0.
fn parent_of(table: &NodeTable, node: NodeNo) -> usize
    requires { node < length (node_rows table.now) }
    ensures { IfSome (slice_get (node_rows table.now) node) (λ r. result ≡ or_zero r.parent) }
{
    match table.parent(node) {
        Some(above) => above.index(),
        None => 0,
    }
}

// The places of the nodes above all nodes.
fn parents_of(alloc: Global, table: &NodeTable) -> Result<Vec<usize>, AllocError>
    ensures { IfOk result (λ parents. parents.items ≡ parents_of table.now) }
{
    let mut parents = Vec::new(alloc);
    for place in 0..table.node_count() {
        parents.push(parent_of(table, NodeNo::new(place as u32)))?;
    }
    Ok(parents)
}

// What is given, of what a version counts.
fn given_in(version: Version, quantum: Quantum) -> Amount
    ensures { result ≡ given_in (version_number version) quantum }
{
    let caps = if version.counts_caps() {
        quantum.caps() as u64
    } else {
        0
    };
    Amount {
        ram: quantum.ram(),
        caps,
    }
}

// The node of a leaf with that quantum: it is pending where it starts after another leaf.
fn first_leaf(table: &NodeTable, leaf: LeafNo, quantum: Amount) -> NodeState
    requires ready { IsReady table.now }
    requires there { leaf < length (components table.now) }
    ensures { IfSome (slice_get (components table.now) leaf) (λ c. result ≡ first_leaf table.now quantum c) }
{
    match table.after(leaf) {
        Some(before) => NodeState {
            quantum,
            after: Some(table.node(before).index()),
            stage: Stage::Pending,
        },
        None => NodeState {
            quantum,
            after: None,
            stage: Stage::Live,
        },
    }
}

// A node as it is at first.
fn first_node(table: &NodeTable, node: NodeNo) -> NodeState
    requires ready { IsReady table.now }
    requires there { node < length (node_rows table.now) }
    ensures { IfSome (slice_get (node_rows table.now) node) (λ r. result ≡ first_node table.now r) }
{
    let quantum = given_in(table.scenario().version(), table.quantum(node));
    match table.leaf(node) {
        Some(leaf) => first_leaf(table, leaf, quantum),
        None => NodeState {
            quantum,
            after: None,
            stage: Stage::Live,
        },
    }
}

// All nodes as they are at first.
fn first_nodes(alloc: Global, table: &NodeTable) -> Result<Vec<NodeState>, AllocError>
    requires ready { IsReady table.now }
    ensures { IfOk result (λ nodes. nodes.items ≡ map (first_node table.now) (node_rows table.now)) }
{
    let mut nodes = Vec::new(alloc);
    for place in 0..table.node_count() {
        nodes.push(first_node(table, NodeNo::new(place as u32)))?;
    }
    Ok(nodes)
}

// Which node each leaf is.
fn leaves_of(alloc: Global, table: &NodeTable) -> Result<Vec<usize>, AllocError>
    ensures { IfOk result (λ leaves. leaves.items ≡ leaf_places 1 table.now.nodes) }
{
    let places = table.scenario().leaf_nodes(alloc)?;
    let mut leaves = Vec::new(alloc);
    for place in &places {
        leaves.push(place.index())?;
    }
    Ok(leaves)
}

// The bytes of the object of a session, for each service.
fn objects_of(alloc: Global, table: &NodeTable) -> Result<Vec<u32>, AllocError>
    ensures objects { IfOk result (λ objects. objects.items ≡ objects_of table.now) }
    ensures small { IfOk result (λ objects. (i : ℕ) → i < length objects.items → get_or objects.items i 0 ≤ 67108864) }
{
    let mut objects = Vec::new(alloc);
    for (_service, interface) in table.scenario().interfaces().entries() {
        objects.push(interface.object())?;
    }
    Ok(objects)
}

/// The plan of the accounts of a scenario that is ready to run: its nodes in preorder, each with what it is given, in bytes and, in version 2 alone,
/// capabilities. A leaf that starts after another is pending, and the other nodes are live. `Err` where the host refuses memory.
pub fn plan_of(alloc: Global, table: &NodeTable) -> Result<Plan, AllocError>
    requires ready { IsReady table.now }
    ensures plan { IfOk result (λ p. IsPlan table.now.total.ram (caps_of table.now) p.parents.items p.nodes.items p.leaves.items p.objects.items) }
    ensures nodes { IfOk result (λ p. IsPlanOf table.now p.parents.items p.nodes.items p.leaves.items p.objects.items) }
{
    table.scenario().laws();
    let _leaves = table.leaf_count();
    let parents = parents_of(alloc, table)?;
    let nodes = first_nodes(alloc, table)?;
    let leaves = leaves_of(alloc, table)?;
    let objects = objects_of(alloc, table)?;
    Ok(Plan {
        parents,
        nodes,
        leaves,
        objects,
    })
}

// The nodes of a scenario as a table, with numbers in the place of names.
ghost use Rattle.std.specs.Prelude.{◌≡◌, ◌<◌, ◌≤◌, ◌+◌, ◌*◌, ◌++◌, length, map, slice_get, IfOk, IfSome, OnOk, codes, Some, None};
ghost use Rattle.gq_model.specs.machine.Accounts.{leaf_count};
ghost use Rattle.gq_model.specs.machine.Routes.{numbered};
ghost use Rattle.gq_model.specs.machine.Scenario as model;
ghost use Rattle.gq_model.specs.machine.Scenario.{below, components};
ghost use Rattle.gq_model.specs.texts.Turns.{inputs_at, signals_at};
ghost use Rattle.gq_resolve.specs.Served.{server_at, AreServers};
ghost use Rattle.gq_scenario.specs.Sizes.{node_count, leaf_places, depth};
ghost use Rattle.gq_resolve.specs.NodeTables.{IsNodeOf, all_rows, interface_number, leaf_row, leaf_rows, node_rows, number_named, rows_of};

use crate::component::Component;
use crate::routes::{Routes, numbered};
use arrayvec::ArrayVec;
use gq_model::limits::GREATEST_LABEL;
use gq_model::program::Name;
use gq_model::spelling::same_text;
use gq_program::interface::Interfaces;
use gq_program::program_tree::Program;
use gq_scenario::component_tree::copied;
use gq_scenario::node_numbers::NodeNo;
use gq_scenario::scenario::{Inputs, Leaf, LeafNo, Node, Nodes, Quantum, Scenario};
use std::alloc::{AllocError, Global};
use std::marker::Model;

// The label of a node.
type Label = ArrayVec<u8, GREATEST_LABEL>;

// What is kept of a node.
#[derive(Drop)]
struct NodeEntry {
    label: Label,
    parent: Option<NodeNo>,
    quantum: Quantum,
    leaf: Option<LeafNo>,
}

impl Model for NodeEntry {
    ghost use Rattle.gq_resolve.specs.NodeTables.{NodeRow};

    ghost Value = { NodeRow };

    ghost view = { λ e. record { label = e.label.items; parent = e.parent; quantum = e.quantum; leaf = e.leaf } };
}

// What is kept of a leaf beside its program.
#[derive(Drop)]
struct LeafEntry {
    name: Name,
    node: NodeNo,
    service: Option<u32>,
    after: Option<LeafNo>,
    inputs: Inputs,
    signals: u8,
    servers: Vec<Option<LeafNo>>,
}

impl Model for LeafEntry {
    ghost use Rattle.gq_resolve.specs.NodeTables.{LeafRow};

    ghost Value = { LeafRow };

    ghost view = { λ e. record {
      name = e.name;
      node = e.node;
      service = e.service;
      after = e.after;
      inputs = e.inputs.items;
      signals = e.signals;
      servers = e.servers.items;
    } };

    ghost use Rattle.std.specs.Prelude.{◌≤◌};

    ghost invariant = { λ e. e.signals ≤ 3 };
}

// Puts bytes at the end of a label.
fn extend(label: &mut Label, bytes: &[u8])
    requires { length label.old.items + length bytes.now ≤ GREATEST_LABEL }
    ensures { label.new.items ≡ label.old.items ++ bytes.now }
{
    match label.try_extend_from_slice(bytes) {
        Ok(()) => (),
        Err(_) => unreachable!(),
    }
}

// The label of what bears this name below.
fn below(above: &Label, name: &Name) -> Label
    requires { length above.now.items + 20 ≤ GREATEST_LABEL }
    ensures label { result.items ≡ below above.now.items name.now }
    ensures longer { length result.items ≤ length above.now.items + 20 }
{
    let mut label = ArrayVec::new();
    extend(&mut label, above.as_slice());
    extend(&mut label, b" -> ");
    extend(&mut label, name.as_bytes());
    label
}

// Puts these nodes and those below them at the end, in preorder, under a node of a label. The first leaf has this number; reports that after the
// last.
fn push_nodes(
    entries: &mut Vec<NodeEntry>,
    above: &Label,
    parent: NodeNo,
    first: u32,
    nodes: &Nodes,
) -> Result<u32, AllocError>
    requires label { length above.now.items + 20 * depth nodes.now ≤ GREATEST_LABEL }
    requires few { length entries.old.items + node_count nodes.now ≤ 129 }
    requires leaves { first + leaf_count nodes.now ≤ 64 }
    ensures rows { OnOk result (entries.new.items ≡ entries.old.items ++ rows_of above.now.items parent (length entries.old.items) first nodes.now) }
    ensures next { IfOk result (λ next. next ≡ first + leaf_count nodes.now) }
{
    let mut leaf = first;
    for node in nodes.nodes() {
        match node {
            Node::Leaf(node) => {
                entries.push(NodeEntry {
                    label: below(above, node.name()),
                    parent: Some(parent),
                    quantum: node.quantum(),
                    leaf: Some(LeafNo::new(leaf)),
                })?;
                leaf += 1;
            }
            Node::Init(init, children) => {
                let place = NodeNo::new(entries.len() as u32);
                let label = below(above, init.name());
                entries.push(NodeEntry {
                    label: below(above, init.name()),
                    parent: Some(parent),
                    quantum: init.quantum(),
                    leaf: None,
                })?;
                leaf = push_nodes(entries, &label, place, leaf, children)?;
            }
        }
    }
    Ok(leaf)
}

// All nodes of a scenario, the root first.
fn node_entries(alloc: Global, scenario: &Scenario) -> Result<Vec<NodeEntry>, AllocError>
    ensures { IfOk result (λ entries. entries.items ≡ node_rows scenario.now) }
{
    scenario.laws();
    scenario.bounds();
    let mut label = ArrayVec::new();
    extend(&mut label, b"init");
    let mut root = ArrayVec::new();
    extend(&mut root, b"init");
    let mut entries = Vec::new(alloc);
    entries.push(NodeEntry {
        label: root,
        parent: None,
        quantum: scenario.total(),
        leaf: None,
    })?;
    push_nodes(&mut entries, &label, NodeNo::new(0), 0, scenario.nodes())?;
    Ok(entries)
}

// The number of a service's interface.
fn interface_number(interfaces: &Interfaces, service: &Name) -> Option<u32>
    ensures { result ≡ interface_number 0 service.now interfaces.now }
{
    for (number, (name, _interface)) in interfaces.entries().iter().enumerate() {
        if same_text(service.as_bytes(), name.as_bytes()) {
            return Some(number as u32);
        }
    }
    None
}

// For each interface the leaf that serves a leaf's sessions of it, where that opens them.
fn servers_of(
    alloc: Global,
    interfaces: &Interfaces,
    leaf: LeafNo,
    routes: &Routes,
) -> Result<Vec<Option<LeafNo>>, AllocError>
    ensures { IfOk result (λ servers. servers.items ≡ map (λ e. server_at leaf e.0 routes.now) interfaces.now) }
{
    let mut servers = Vec::new(alloc);
    for (service, _interface) in interfaces.entries() {
        servers.push(routes.server(leaf, service))?;
    }
    Ok(servers)
}

// The number of the interface of the service that a leaf provides.
fn service_of(interfaces: &Interfaces, leaf: &Leaf) -> Option<u32>
    ensures { result ≡ number_named leaf.now.provides (λ name. interface_number 0 name interfaces.now) }
{
    match leaf.provides() {
        Some(name) => interface_number(interfaces, name),
        None => None,
    }
}

// The leaf that a leaf starts after.
fn after_of(components: &[Component<'_>], leaf: &Leaf) -> Option<LeafNo>
    requires { length components.now ≤ 64 }
    ensures { result ≡ number_named leaf.now.after (λ name. numbered 0 name components.now) }
{
    match leaf.after() {
        Some(name) => numbered(name, components),
        None => None,
    }
}

// What is kept of a leaf at a place among the nodes.
fn leaf_entry(
    alloc: Global,
    scenario: &Scenario,
    components: &[Component<'_>],
    routes: &Routes,
    leaf: LeafNo,
    node: NodeNo,
) -> Result<LeafEntry, AllocError>
    requires all { components.now ≡ model.components scenario.now }
    requires few { length components.now ≤ 64 }
    requires servers { AreServers scenario.now routes.now }
    requires there { leaf < length components.now }
    ensures { IfOk result (λ entry. IfSome (slice_get components.now leaf) (λ c. entry ≡ leaf_row scenario.now node c)) }
{
    let component = components[leaf.index()].leaf();
    let service = service_of(scenario.interfaces(), component);
    let after = after_of(components, component);
    let servers = servers_of(alloc, scenario.interfaces(), leaf, routes)?;
    Ok(LeafEntry {
        name: copied(component.name()),
        node,
        service,
        after,
        inputs: component.copied_inputs(),
        signals: component.signals(),
        servers,
    })
}

// All leaves of a scenario, in preorder.
fn leaf_entries(
    alloc: Global,
    scenario: &Scenario,
    components: &[Component<'_>],
    routes: &Routes,
) -> Result<Vec<LeafEntry>, AllocError>
    requires all { components.now ≡ model.components scenario.now }
    requires servers { AreServers scenario.now routes.now }
    ensures { IfOk result (λ entries. entries.items ≡ leaf_rows scenario.now) }
{
    scenario.bounds();
    let places = scenario.leaf_nodes(alloc)?;
    let mut entries = Vec::new(alloc);
    for (number, node) in places.iter().enumerate() {
        let leaf = LeafNo::new(number as u32);
        entries.push(leaf_entry(alloc, scenario, components, routes, leaf, *node)?)?;
    }
    Ok(entries)
}

/// The nodes and the leaves of a scenario, by numbers, as a table of nodes is made of them.
#[derive(Drop)]
pub struct Entries {
    nodes: Vec<NodeEntry>,
    leaves: Vec<LeafEntry>,
}

impl Model for Entries {
    ghost use Rattle.gq_resolve.specs.NodeTables.{Rows};

    ghost Value = { Rows };

    ghost view = { λ e. record { nodes = e.nodes.items; leaves = e.leaves.items } };
}

impl Entries {
    /// The nodes and the leaves of a scenario, whose components and routes these are. Refused only if the host refuses memory.
    pub fn of(
        alloc: Global,
        scenario: &Scenario,
        components: &[Component<'_>],
        routes: &Routes,
    ) -> Result<Entries, AllocError>
        requires all { components.now ≡ model.components scenario.now }
        requires servers { AreServers scenario.now routes.now }
        ensures { IfOk result (λ entries. entries ≡ all_rows scenario.now) }
    {
        let nodes = node_entries(alloc, scenario)?;
        let leaves = leaf_entries(alloc, scenario, components, routes)?;
        Ok(Entries { nodes, leaves })
    }

    // The nodes.
    fn nodes(&self) -> &[NodeEntry]
        ensures { result.now ≡ self.now.nodes }
    {
        self.nodes.as_slice()
    }

    // The leaves.
    fn leaves(&self) -> &[LeafEntry]
        ensures { result.now ≡ self.now.leaves }
    {
        self.leaves.as_slice()
    }
}

/// A scenario with its nodes in preorder, and its leaves with their programs, all by numbers: what is asked of it takes the same time whatever
/// its size. It is made once, when a scenario is loaded, and owns all that it reports.
#[derive(Drop)]
pub struct NodeTable {
    scenario: Scenario,
    programs: Vec<Program>,
    entries: Entries,
}

impl Model for NodeTable {
    ghost use Rattle.std.specs.Coded.{codes};
    ghost use Rattle.gq_model.specs.machine.Scenario.{Scenario};
    ghost use Rattle.gq_model.specs.internal.Stored.{statements_code, nodes_code};
    ghost use Rattle.gq_resolve.specs.internal.Kept_tables.{IsTableOf};

    ghost Value = { Scenario };

    ghost coded = { Prim.hlevel (codes, nodes_code (Prim.hlevel (codes, statements_code (Prim.hlevel codes))) (Prim.hlevel codes)) };

    ghost view = { λ t. t.scenario };

    ghost invariant = { λ t. IsTableOf t.scenario t.programs.items t.entries };
}

impl NodeTable {
    /// The table of a scenario, with the programs of its leaves in preorder.
    pub fn new(scenario: Scenario, programs: Vec<Program>, entries: Entries) -> NodeTable
        requires programs { programs.items ≡ map (λ c. c.node.program) (components scenario) }
        requires entries { entries ≡ all_rows scenario }
        ensures { result ≡ scenario }
    {
        scenario.bounds();
        NodeTable {
            scenario,
            programs,
            entries,
        }
    }

    /// The scenario.
    pub fn scenario(&self) -> &Scenario
        ensures { result.now ≡ self.now }
    {
        &self.scenario
    }

    /// The number of nodes, the root among them.
    pub fn node_count(&self) -> usize
        ensures count { result ≡ length (node_rows self.now) }
        ensures few { result ≤ 129 }
    {
        self.scenario.bounds();
        self.entries.nodes().len()
    }

    /// The number of leaves.
    pub fn leaf_count(&self) -> usize
        ensures count { result ≡ length (components self.now) }
        ensures few { result ≤ 64 }
    {
        self.programs.len()
    }

    /// The label of a node: the names from the root's down, joined by arrows.
    pub fn label(&self, node: NodeNo) -> &[u8]
        requires { node < length (node_rows self.now) }
        ensures label { IfSome (slice_get (node_rows self.now) node) (λ r. result.now ≡ r.label) }
        ensures short { length result.now ≤ GREATEST_LABEL }
    {
        let entry = &self.entries.nodes()[node.index()];
        entry.label.as_slice()
    }

    /// The node above a node; the root has none.
    pub fn parent(&self, node: NodeNo) -> Option<NodeNo>
        requires { node < length (node_rows self.now) }
        ensures { IfSome (slice_get (node_rows self.now) node) (λ r. result ≡ r.parent) }
    {
        let entry = &self.entries.nodes()[node.index()];
        entry.parent
    }

    /// What a node is given: bytes, and capabilities.
    pub fn quantum(&self, node: NodeNo) -> Quantum
        requires { node < length (node_rows self.now) }
        ensures { IfSome (slice_get (node_rows self.now) node) (λ r. result ≡ r.quantum) }
    {
        let entry = &self.entries.nodes()[node.index()];
        entry.quantum
    }

    /// Which leaf a node is; an init is none.
    pub fn leaf(&self, node: NodeNo) -> Option<LeafNo>
        requires { node < length (node_rows self.now) }
        ensures { IfSome (slice_get (node_rows self.now) node) (λ r. result ≡ r.leaf) }
    {
        let entry = &self.entries.nodes()[node.index()];
        entry.leaf
    }

    // What is kept of a leaf.
    fn row(&self, leaf: LeafNo) -> &LeafEntry
        requires { leaf < length (components self.now) }
        ensures row { slice_get (leaf_rows self.now) leaf ≡ Some result.now }
        ensures node { IfSome (slice_get (components self.now) leaf) (λ c. IsNodeOf (node_rows self.now) result.now.node c) }
        ensures inputs { result.now.inputs ≡ inputs_at (slice_get (components self.now) leaf) }
        ensures signals { result.now.signals ≡ signals_at (slice_get (components self.now) leaf) }
        ensures servers { length result.now.servers ≡ length self.now.interfaces }
    {
        &self.entries.leaves()[leaf.index()]
    }

    /// The name of a leaf.
    pub fn name(&self, leaf: LeafNo) -> &Name
        requires { leaf < length (components self.now) }
        ensures { IfSome (slice_get (leaf_rows self.now) leaf) (λ r. result.now ≡ r.name) }
    {
        let entry = self.row(leaf);
        &entry.name
    }

    /// Which node a leaf is.
    pub fn node(&self, leaf: LeafNo) -> NodeNo
        requires { leaf < length (components self.now) }
        ensures place { IfSome (slice_get (leaf_rows self.now) leaf) (λ r. result ≡ r.node) }
        ensures node { IfSome (slice_get (components self.now) leaf) (λ c. IsNodeOf (node_rows self.now) result c) }
    {
        let entry = self.row(leaf);
        entry.node
    }

    /// The programs of the leaves, in preorder.
    pub fn programs(&self) -> &[Program]
        ensures { result.now ≡ map (λ c. c.node.program) (components self.now) }
    {
        self.programs.as_slice()
    }

    /// The interface of the service that a leaf provides.
    pub fn service(&self, leaf: LeafNo) -> Option<u32>
        requires { leaf < length (components self.now) }
        ensures { IfSome (slice_get (leaf_rows self.now) leaf) (λ r. result ≡ r.service) }
    {
        let entry = self.row(leaf);
        entry.service
    }

    /// The leaf that a leaf starts after.
    pub fn after(&self, leaf: LeafNo) -> Option<LeafNo>
        requires { leaf < length (components self.now) }
        ensures { IfSome (slice_get (leaf_rows self.now) leaf) (λ r. result ≡ r.after) }
    {
        let entry = self.row(leaf);
        entry.after
    }

    /// The greatest values of a leaf's inputs, from input 0 on, at most 8.
    pub fn inputs(&self, leaf: LeafNo) -> &[u32]
        requires { leaf < length (components self.now) }
        ensures inputs { result.now ≡ inputs_at (slice_get (components self.now) leaf) }
        ensures few { length result.now ≤ 8 }
    {
        let entry = self.row(leaf);
        entry.inputs.as_slice()
    }

    /// The number of a leaf's signals, at most 3.
    pub fn signals(&self, leaf: LeafNo) -> u8
        requires { leaf < length (components self.now) }
        ensures signals { result ≡ signals_at (slice_get (components self.now) leaf) }
        ensures few { result ≤ 3 }
    {
        let entry = self.row(leaf);
        entry.signals
    }

    /// The leaf that serves a leaf's sessions of an interface, where a statement of its program opens one.
    pub fn server(&self, leaf: LeafNo, interface: u32) -> Option<LeafNo>
        requires leaf { leaf < length (components self.now) }
        requires interface { interface < length self.now.interfaces }
        ensures { IfSome (slice_get (leaf_rows self.now) leaf) (λ r. IfSome (slice_get r.servers interface) (λ server. result ≡ server)) }
    {
        let entry = self.row(leaf);
        entry.servers[interface as usize]
    }

    /// The leaf of this name, where there is one.
    pub fn leaf_named(&self, name: &[u8]) -> Option<LeafNo>
        ensures number { result ≡ numbered 0 name.now (components self.now) }
        ensures there { IfSome result (λ x. x < length (components self.now)) }
    {
        let _leaves = self.leaf_count();
        for (number, leaf) in self.entries.leaves().iter().enumerate() {
            if same_text(name, leaf.name.as_bytes()) {
                return Some(LeafNo::new(number as u32));
            }
        }
        None
    }
}

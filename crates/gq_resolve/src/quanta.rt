// Quanta that an init hands out of its own.
ghost use Rattle.std.specs.Prelude.{◌≡◌, ◌+◌, codes, nat_le};
ghost use Rattle.gq_model.specs.machine.Amounts as amounts;
ghost use Rattle.gq_model.specs.machine.Amounts.{part};
ghost use Rattle.gq_model.specs.machine.Lists.{or_first};
ghost use Rattle.gq_model.specs.machine.Scenario as model;
ghost use Rattle.gq_model.specs.rules.Resolve.{first_handed, handed_out, exceeds, exceeded, first_exceeding, quanta_fault};
ghost use Rattle.gq_resolve.specs.Resolve_faults.{resource_of, fault_of, refused};
ghost use Rattle.gq_scenario.specs.Component_trees.{before};

use crate::resolve_fault::ResolveFault;
use gq_model::program::Name;
use gq_scenario::component_tree::copied;
use gq_scenario::scenario::{Leaf, Node, Nodes, Quantum, Scenario};

/// The two kinds of quota.
#[derive(Clone, Copy)]
pub enum Resource {
    /// Bytes.
    Ram,
    /// Capabilities.
    Caps,
}

// How much of one resource a quantum has.
fn part(resource: Resource, quantum: Quantum) -> u64
    ensures { result ≡ part (resource_of resource) quantum }
{
    match resource {
        Resource::Ram => quantum.ram(),
        Resource::Caps => u64::from(quantum.caps()),
    }
}

// What a leaf is handed at the start: one that waits for another gets nothing.
fn first_handed(resource: Resource, leaf: &Leaf) -> u64
    ensures { result ≡ first_handed leaf.now.after (part (resource_of resource) leaf.now.quantum) }
{
    match leaf.after() {
        Some(_) => 0,
        None => part(resource, leaf.quantum()),
    }
}

// What a node is handed at the start.
fn handed(resource: Resource, node: &Node) -> u64
    ensures { (rest : model.Nodes) → handed_out (resource_of resource) (before node.now rest) ≡ result + handed_out (resource_of resource) rest }
{
    match node {
        Node::Leaf(leaf) => first_handed(resource, leaf),
        Node::Init(init, _) => part(resource, init.quantum()),
    }
}

// Whether this much is enough for what these children are handed at the start.
fn is_enough(resource: Resource, quantum: u64, children: &Nodes) -> bool
    ensures { result ≡ nat_le (handed_out (resource_of resource) children.now) quantum }
{
    let mut left = quantum;
    for node in children.nodes() {
        match left.checked_sub(handed(resource, node)) {
            Some(rest) => left = rest,
            None => return false,
        }
    }
    true
}

// The fault of an init that hands out more than it has.
fn exceeded(resource: Resource, name: Name) -> ResolveFault
    ensures { fault_of result ≡ exceeded (resource_of resource) name }
{
    match resource {
        Resource::Ram => ResolveFault::QuantaExceed(name),
        Resource::Caps => ResolveFault::CapsExceed(name),
    }
}

/// Refuses the init of this name and this quantum where it hands out more than it has to these children at the start.
pub fn fit(
    resource: Resource,
    name: &Name,
    quantum: Quantum,
    children: &Nodes,
) -> Result<(), ResolveFault>
    ensures { refused result ≡ exceeds (resource_of resource) name.now quantum children.now }
{
    if is_enough(resource, part(resource, quantum), children) {
        Ok(())
    } else {
        Err(exceeded(resource, copied(name)))
    }
}

// Refuses the first of these inits, and of those below them, in preorder that hands out more than it has.
fn fit_below(resource: Resource, nodes: &Nodes) -> Result<(), ResolveFault>
    ensures { refused result ≡ first_exceeding (resource_of resource) nodes.now }
{
    for node in nodes.nodes() {
        if let Node::Init(init, children) = node {
            fit(resource, init.name(), init.quantum(), children)?;
            fit_below(resource, children)?;
        }
    }
    Ok(())
}

// The name of the root.
fn root_name() -> Name
    ensures { result ≡ codes "init" }
{
    match Name::new(b"init") {
        Some(name) => name,
        None => unreachable!(),
    }
}

// Refuses the first init in preorder, the root before all, that hands out more of a resource than it has.
fn fit_all(resource: Resource, scenario: &Scenario) -> Result<(), ResolveFault>
    ensures { refused result ≡ quanta_fault (resource_of resource) scenario.now }
{
    fit(resource, &root_name(), scenario.total(), scenario.nodes())?;
    fit_below(resource, scenario.nodes())
}

/// Whether each init hands out no more than it has: the quanta of its children, besides leaves that start after others,
/// add up to at most its own, in bytes of RAM and in capabilities. The root has what the whole system has.
///
/// Refuses the first init in preorder that hands out more bytes, `QuantaExceed`; where there is none, the first that
/// hands out more capabilities, `CapsExceed`.
pub fn check_quanta(scenario: &Scenario) -> Result<(), ResolveFault>
    ensures { refused result ≡ or_first (quanta_fault amounts.Ram scenario.now) (quanta_fault amounts.Caps scenario.now) }
{
    fit_all(Resource::Ram, scenario)?;
    fit_all(Resource::Caps, scenario)
}

// Inits that hand out more than they have.
ghost use Rattle.std.specs.Prelude.{◌≡◌, ◌∷◌, [], ◌++◌, OnOk, codes, map};
ghost use Rattle.gq_model.specs.rules.Resolve.{exceeds};
ghost use Rattle.gq_model.specs.texts.Fault_texts.{unresolved_text};
ghost use Rattle.gq_resolve.specs.Resolve_faults.{resource_of};
ghost use Rattle.gq_scenario.specs.Component_trees.{nodes_of};
ghost use Rattle.gq_faults.specs.Found_lists.{listed_if};
ghost use Rattle.gq_faults.specs.Scenario_faults.{all_exceeding, quanta_faults};
ghost use Rattle.gq_faults.specs.Found_lines.{lines_found};

use crate::fault_value::{Detail, FaultPart, FoundFault, push_fault};
use crate::path::with_step;
use gq_load::load_fault::LoadFault;
use gq_model::program::Name;
use gq_resolve::quanta::{Resource, fit};
use gq_scenario::key::Key;
use gq_scenario::scenario::{Node, Nodes, Quantum, Scenario};
use gq_toml_places::Step;
use std::alloc::{AllocError, Global};

// How much of a resource a quantum has.
fn part(resource: Resource, quantum: Quantum) -> u64 {
    match resource {
        Resource::Ram => quantum.ram(),
        Resource::Caps => u64::from(quantum.caps()),
    }
}

// What a node is handed at the start: a leaf that waits for another gets nothing.
fn handed(resource: Resource, node: &Node) -> u64 {
    match node {
        Node::Leaf(leaf) if leaf.after().is_some() => 0,
        Node::Leaf(leaf) => part(resource, leaf.quantum()),
        Node::Init(init, _) => part(resource, init.quantum()),
    }
}

// What these children are handed at the start together.
fn all_handed(resource: Resource, children: &Nodes) -> u64 {
    let mut sum = 0_u64;
    for node in children.nodes() {
        sum = sum.saturating_add(handed(resource, node));
    }
    sum
}

// The key at which an init has a resource; the root has its bytes at a key of their own.
fn key_of(resource: Resource, is_root: bool) -> Key {
    match resource {
        Resource::Ram if is_root => Key::Ram,
        Resource::Ram => Key::Quantum,
        Resource::Caps => Key::Caps,
    }
}

// What an init has of a resource, with the key at which it has it.
#[derive(Clone, Copy)]
struct InitQuantum {
    resource: Resource,
    key: Key,
    quantum: Quantum,
}

// An init of this name that hands out more than it has, at the end of what was found.
fn push_exceeding(
    alloc: Global,
    found: &mut Vec<FoundFault<'_>>,
    given: InitQuantum,
    name: &Name,
    children: &Nodes,
    way: &[Step<'static>],
) -> Result<(), AllocError>
    ensures { OnOk result (lines_found found.new.items ≡ lines_found found.old.items
        ++ map unresolved_text (listed_if (exceeds (resource_of given.resource) name.now given.quantum children.now))) }
{
    match fit(given.resource, name, given.quantum, children) {
        Ok(()) => Ok(()),
        Err(fault) => {
            let key = given.key.word();
            let way = with_step(alloc, way, Step::Key(key))?;
            let detail = Detail::Handed {
                key,
                handed: all_handed(given.resource, children),
                has: part(given.resource, given.quantum),
            };
            push_fault(
                alloc,
                found,
                &LoadFault::Resolve(fault),
                way,
                FaultPart::Key,
                detail,
            )
        }
    }
}

// Each of these nodes and of those below them, in preorder, that is an init which does. The way leads to their list.
#[cycle(below)]
fn push_below(
    alloc: Global,
    found: &mut Vec<FoundFault<'_>>,
    resource: Resource,
    nodes: &[Node],
    list: &[Step<'static>],
) -> Result<(), AllocError>
    ensures { OnOk result (lines_found found.new.items
        ≡ lines_found found.old.items ++ map unresolved_text (all_exceeding (resource_of resource) (nodes_of nodes.now))) }
{
    for (index, node) in nodes.iter().enumerate() {
        push_node(alloc, found, resource, node, index, list)?;
    }
    Ok(())
}

// A node, which has this number in its list, and those below it.
#[cycle(below)]
fn push_node(
    alloc: Global,
    found: &mut Vec<FoundFault<'_>>,
    resource: Resource,
    node: &Node,
    index: usize,
    list: &[Step<'static>],
) -> Result<(), AllocError>
    ensures { OnOk result (lines_found found.new.items
        ≡ lines_found found.old.items ++ map unresolved_text (all_exceeding (resource_of resource) (nodes_of (node.now ∷ [])))) }
{
    match node {
        Node::Leaf(_) => Ok(()),
        Node::Init(init, children) => {
            let way = with_step(alloc, list, Step::Index(index))?;
            let given = InitQuantum {
                resource,
                key: key_of(resource, false),
                quantum: init.quantum(),
            };
            push_exceeding(alloc, found, given, init.name(), children, way.as_slice())?;
            let below = with_step(alloc, way.as_slice(), Step::Key(Key::Start.word()))?;
            push_below(alloc, found, resource, children.nodes(), below.as_slice())
        }
    }
}

// The name of the root.
fn root_name() -> Name
    ensures { result ≡ codes "init" }
{
    match Name::new(b"init") {
        Some(name) => name,
        None => unreachable!(),
    }
}

/// Each init, in preorder, the root before all, that hands out more of a resource than it has.
pub(crate) fn push_quanta(
    alloc: Global,
    found: &mut Vec<FoundFault<'_>>,
    resource: Resource,
    scenario: &Scenario,
) -> Result<(), AllocError>
    ensures { OnOk result (lines_found found.new.items
        ≡ lines_found found.old.items ++ map unresolved_text (quanta_faults (resource_of resource) scenario.now)) }
{
    let given = InitQuantum {
        resource,
        key: key_of(resource, true),
        quantum: scenario.total(),
    };
    push_exceeding(alloc, found, given, &root_name(), scenario.nodes(), &[])?;
    let list = [Step::Key(Key::Start.word())];
    push_below(alloc, found, resource, scenario.nodes().nodes(), &list)
}

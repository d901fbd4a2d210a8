// Scenarios, as documents describe them.
ghost use Rattle.std.specs.Prelude.{◌≡◌, ◌≤◌, ◌∷◌, [], None, length, option_map, codes, IfOk};
ghost use Rattle.toml.specs.View.{table_view};
ghost use Rattle.gq_scenario.specs.Document.{keys_of, names_of, name_twice, walk_fault, described, document_fault};
ghost use Rattle.gq_reader.specs.internal.Document_parts.{interfaces_at, are_too_many, parts_fault};
ghost use Rattle.gq_scenario.specs.Scenario_parts.{scenario_made};
ghost use Rattle.gq_scenario.specs.Top_table.{described_or, scenario_in};
ghost use Rattle.gq_scenario.specs.Fault_words.{SameFault, IsRead};

use crate::document::read_document;
use crate::first_fault_walk::{version_of, walk_fault};
use crate::interface_reading::read_interfaces;
use crate::table_reading::{read_nodes, read_quantum, read_routes_at, take_list};
use crate::value::table_at;
use gq_model::limits::GREATEST_NODE_DEPTH;
use gq_scenario::component_tree::{
    GREATEST_COUNT, count_inits, count_leaves, has_long_routes, is_long, name_twice, push_names,
};
use gq_scenario::key::Key;
use gq_scenario::scenario::{Nodes, Parts, Route, Scenario, reported};
use gq_scenario::scenario_fault::{ScenarioError, ScenarioFault};
use std::alloc::{AllocError, Global};
use toml::Table;

// The number of interfaces of a document.
fn interface_count(top: &Table) -> usize
    ensures { result ≡ length (keys_of (interfaces_at (table_view top.now))) }
{
    match table_at(top, Key::Interface) {
        Some(table) => table.len(),
        None => 0,
    }
}

// Whether a tree and the root's routes have too many of something.
fn are_too_many(default_routes: Option<&[Route]>, nodes: &Nodes) -> bool
    ensures { result ≡ are_too_many (option_map (λ r. r.now) default_routes.entry) nodes.now }
{
    count_leaves(nodes, 0).is_none()
        || count_inits(nodes, 0).is_none()
        || is_long(default_routes)
        || has_long_routes(nodes)
}

// The first name of a tree that was seen before.
fn repeated_name(alloc: Global, nodes: &Nodes) -> Result<Option<ScenarioFault>, AllocError>
    ensures { IfOk result (λ fault. SameFault fault (name_twice (codes "init" ∷ []) (names_of nodes.now))) }
{
    let mut names = Vec::new(alloc);
    push_names(&mut names, nodes)?;
    Ok(name_twice(names.as_slice()))
}

// The first fault that is left in a tree and the root's routes, after the faults of the tables.
fn parts_fault(
    alloc: Global,
    default_routes: Option<&[Route]>,
    nodes: &Nodes,
) -> Result<Option<ScenarioFault>, AllocError>
    ensures { IfOk result (λ fault. SameFault fault (parts_fault (option_map (λ r. r.now) default_routes.entry) nodes.now)) }
{
    if are_too_many(default_routes, nodes) {
        return Ok(Some(ScenarioFault::TooMany));
    }
    repeated_name(alloc, nodes)
}

// The parts of a table that the walk has passed, with no more than 64 interfaces.
fn read_parts(alloc: Global, top: Table) -> Result<Parts, AllocError>
    requires walked { walk_fault (table_view top) ≡ None }
    requires few { length (keys_of (interfaces_at (table_view top))) ≤ 64 }
    ensures { IfOk result (λ p. scenario_made p.version p.total p.default_routes p.interfaces p.nodes ≡ described (table_view top)) }
{
    let version = version_of(&top);
    let total = read_quantum(Key::Ram, &top);
    let default_routes = read_routes_at(alloc, Key::DefaultRoute, &top)?;
    let interfaces = read_interfaces(alloc, version, table_at(&top, Key::Interface))?;
    let nodes = read_nodes(
        alloc,
        GREATEST_NODE_DEPTH,
        take_list(alloc, top, Key::Start),
    )?;
    Ok(Parts {
        version,
        total,
        default_routes,
        interfaces,
        nodes,
    })
}

// The scenario that a document describes.
fn document_scenario(alloc: Global, top: Table) -> Result<Scenario, ScenarioError>
    ensures { IsRead result (described_or (table_view top) (document_fault (table_view top))) }
{
    if let Some(fault) = walk_fault(&top) {
        return Err(ScenarioError::Fault(fault));
    }
    if interface_count(&top) > GREATEST_COUNT {
        return Err(ScenarioError::Fault(ScenarioFault::TooMany));
    }
    let parts = read_parts(alloc, top)?;
    match parts_fault(alloc, reported(&parts.default_routes), &parts.nodes)? {
        Some(fault) => Err(ScenarioError::Fault(fault)),
        None => Ok(Scenario::new(parts)),
    }
}

/// The scenario that a text describes, a TOML document of any version. Each leaf has its program as text or as code.
///
/// Refused where memory runs out, and by the first fault of the text: one of more than 1 MiB is `TooMany`, one that is no
/// UTF-8 or no TOML `NotToml`. Then come the faults of the tables: of the top table, of the interfaces in the order of their
/// names, of the root's routes, and of the nodes in preorder, each with its routes. A node below depth 4 is `TooDeep`; else a
/// table's fault is its least unknown key, its first missing key or its first bad value. Then more than 64 leaves, inits
/// under the root, interfaces or routes in a list are `TooMany`, and the first name that was seen before is `NameTwice`.
pub fn read_scenario(alloc: Global, text: &[u8]) -> Result<Scenario, ScenarioError>
    ensures { IsRead result (scenario_in text.now) }
{
    let top = read_document(alloc, text)?;
    document_scenario(alloc, top)
}

// The first fault of a document's tables.
ghost use Rattle.std.specs.Prelude.{◌≡◌, option_map};
ghost use Rattle.toml.specs.View.{view, table_view, items_view};
ghost use Rattle.gq_scenario.specs.Table_keys.{members_of, listed, table_fault};
ghost use Rattle.gq_scenario.specs.Document_tables.{version_of, top_keys, interface_keys, node_keys, init_keys, leaf_keys, route_keys};
ghost use Rattle.gq_scenario.specs.Document.{first_of, name_at, is_init, keys_of, routes_fault, interfaces_fault, node_fault, walk_fault};
ghost use Rattle.gq_reader.specs.Key_rules.{entries_or_none};
ghost use Rattle.gq_scenario.specs.Component_trees.{version_number};
ghost use Rattle.gq_reader.specs.internal.Walk.{keys_fault, own_fault};
ghost use Rattle.gq_scenario.specs.Table_keys.{TooDeep};
ghost use Rattle.gq_scenario.specs.Top_table.{document_text};
ghost use Rattle.gq_scenario.specs.Fault_words.{key_text, scenario_fault_text, SameFault};

use crate::rules::table_fault;
use crate::table_keys::{init_rules, interface_rules, leaf_rules, route_rules, top_rules};
use crate::value::{has, list_at, number_of, table_at, text_at, value_at};
use gq_model::limits::GREATEST_NODE_DEPTH;
use gq_model::program::Name;
use gq_scenario::key::Key;
use gq_scenario::scenario::Version;
use gq_scenario::scenario_fault::ScenarioFault;
use toml::{Table, Value};

/// The version of a top table: 1 where it is not 2, 3 or 4.
pub fn version_of(top: &Table) -> Version
    ensures { version_number result ≡ version_of (table_view top.now) }
{
    match value_at(top, Key::Version) {
        Some(value) => match number_of(value) {
            Some(2) => Version::Two,
            Some(3) => Version::Three,
            Some(4) => Version::Four,
            _ => Version::One,
        },
        None => Version::One,
    }
}

// The first fault of the top table.
fn top_fault(version: Version, top: &Table) -> Option<ScenarioFault>
    ensures { SameFault result (table_fault (top_keys (version_number version)) (table_view top.now)) }
{
    table_fault(top_rules(version).as_slice(), top)
}

// The first fault of an interface's table.
fn interface_fault(version: Version, table: &Table) -> Option<ScenarioFault>
    ensures { SameFault result (table_fault (interface_keys (version_number version) (table_view table.now)) (table_view table.now)) }
{
    table_fault(interface_rules(version, table).as_slice(), table)
}

// The first fault of the interfaces' tables, in the order of their names.
fn interfaces_fault(version: Version, interfaces: &Table) -> Option<ScenarioFault>
    ensures { SameFault result (interfaces_fault (version_number version) (table_view interfaces.now)) }
{
    for (_, value) in interfaces.iter() {
        let Some(table) = value.as_table() else {
            return Some(ScenarioFault::MissingKey(Key::Arg));
        };
        if let Some(fault) = interface_fault(version, table) {
            return Some(fault);
        }
    }
    None
}

// The same, where there may be no interfaces.
fn declared_fault(version: Version, interfaces: Option<&Table>) -> Option<ScenarioFault>
    ensures { SameFault result (interfaces_fault (version_number version) (entries_or_none (option_map (λ t. table_view t.now) interfaces.entry))) }
{
    match interfaces {
        Some(table) => interfaces_fault(version, table),
        None => None,
    }
}

// The first fault of a route's table.
fn route_fault(table: &Table) -> Option<ScenarioFault>
    ensures { SameFault result (table_fault route_keys (table_view table.now)) }
{
    table_fault(route_rules().as_slice(), table)
}

// The first fault of the routes at a key.
fn routes_fault(key: Key, table: &Table) -> Option<ScenarioFault>
    ensures { SameFault result (routes_fault (key_text key) (table_view table.now)) }
{
    for value in list_at(table, key) {
        let Some(route) = value.as_table() else {
            return Some(ScenarioFault::MissingKey(Key::Service));
        };
        if let Some(fault) = route_fault(route) {
            return Some(fault);
        }
    }
    None
}

// The first fault of an init's table.
fn init_fault(version: Version, table: &Table) -> Option<ScenarioFault>
    ensures { SameFault result (table_fault (init_keys (version_number version)) (table_view table.now)) }
{
    table_fault(init_rules(version).as_slice(), table)
}

// The first fault of a leaf's table, among these interfaces.
fn leaf_fault(version: Version, interfaces: Option<&Table>, table: &Table) -> Option<ScenarioFault>
    ensures { SameFault result
        (table_fault (leaf_keys (version_number version) (keys_of (entries_or_none (option_map (λ t. table_view t.now) interfaces.entry))))
        (table_view table.now)) }
{
    table_fault(leaf_rules(version, interfaces).as_slice(), table)
}

// The first fault of a node's own table: one with `start` is an init.
fn keys_fault(version: Version, interfaces: Option<&Table>, table: &Table) -> Option<ScenarioFault>
    ensures { SameFault result (keys_fault (version_number version) (keys_of (entries_or_none (option_map (λ t. table_view t.now) interfaces.entry)))
        (table_view table.now)) }
{
    if has(table, Key::Start) {
        init_fault(version, table)
    } else {
        leaf_fault(version, interfaces, table)
    }
}

// The first fault of a node's own table, and of its routes.
fn own_fault(version: Version, interfaces: Option<&Table>, table: &Table) -> Option<ScenarioFault>
    ensures { SameFault result (own_fault (version_number version) (keys_of (entries_or_none (option_map (λ t. table_view t.now) interfaces.entry)))
        (table_view table.now)) }
{
    if let Some(fault) = keys_fault(version, interfaces, table) {
        return Some(fault);
    }
    if let Some(fault) = routes_fault(Key::Route, table) {
        return Some(fault);
    }
    routes_fault(Key::DefaultRoute, table)
}

/// The fault of a node of this table that is too deep. It is reported with a name that is one.
pub fn too_deep(table: &Table) -> ScenarioFault
    ensures { scenario_fault_text result ≡ document_text (TooDeep (name_at (table_view table.now))) }
{
    match text_at(table, Key::Name) {
        Some(name) => ScenarioFault::TooDeep(Name::new(name.as_bytes())),
        None => ScenarioFault::TooDeep(None),
    }
}

// The fault of a value that is too deep.
fn deep_fault(value: &Value) -> ScenarioFault
    ensures { scenario_fault_text result ≡ document_text (TooDeep (name_at (members_of (view value.now)))) }
{
    match value.as_table() {
        Some(table) => too_deep(table),
        None => ScenarioFault::TooDeep(None),
    }
}

// The first fault of a node, its routes and what is below it, down to so many levels.
#[cycle(nodes)]
fn node_fault(
    levels: usize,
    version: Version,
    interfaces: Option<&Table>,
    value: &Value,
) -> Option<ScenarioFault>
    ensures { SameFault result (node_fault levels (version_number version) (keys_of (entries_or_none (option_map (λ t. table_view t.now) interfaces.entry)))
        (members_of (view value.now))) }
{
    if levels == 0 {
        return Some(deep_fault(value));
    }
    let Some(table) = value.as_table() else {
        return Some(ScenarioFault::MissingKey(Key::Name));
    };
    if let Some(fault) = own_fault(version, interfaces, table) {
        return Some(fault);
    }
    nodes_fault(levels - 1, version, interfaces, list_at(table, Key::Start))
}

// The first fault of these nodes.
#[cycle(nodes)]
fn nodes_fault(
    levels: usize,
    version: Version,
    interfaces: Option<&Table>,
    values: &[Value],
) -> Option<ScenarioFault>
    ensures { SameFault result (first_of (node_fault levels (version_number version)
        (keys_of (entries_or_none (option_map (λ t. table_view t.now) interfaces.entry)))) (listed (items_view values.now))) }
{
    for value in values {
        if let Some(fault) = node_fault(levels, version, interfaces, value) {
            return Some(fault);
        }
    }
    None
}

/// The first fault of a document's tables: the top table, the interfaces, the root's routes, the nodes.
pub fn walk_fault(top: &Table) -> Option<ScenarioFault>
    ensures { SameFault result (walk_fault (table_view top.now)) }
{
    let version = version_of(top);
    if let Some(fault) = top_fault(version, top) {
        return Some(fault);
    }
    let interfaces = table_at(top, Key::Interface);
    if let Some(fault) = declared_fault(version, interfaces) {
        return Some(fault);
    }
    if let Some(fault) = routes_fault(Key::DefaultRoute, top) {
        return Some(fault);
    }
    nodes_fault(
        GREATEST_NODE_DEPTH,
        version,
        interfaces,
        list_at(top, Key::Start),
    )
}

// What tables without faults describe.
ghost use Rattle.std.specs.Prelude.{◌≡◌, ◌≤◌, true, None, length, option_map, codes, IfOk};
ghost use Rattle.toml.specs.Data.{as_table, get_member};
ghost use Rattle.toml.specs.View.{view, table_view, items_view};
ghost use Rattle.gq_model.specs.machine.Lists.{all_of};
ghost use Rattle.gq_model.specs.texts.Operands.{greatest_number};
ghost use Rattle.gq_scenario.specs.Given.{source_of};
ghost use Rattle.gq_scenario.specs.Table_keys.{listed, is_number, number_of, table_fault};
ghost use Rattle.gq_scenario.specs.Document_tables.{route_keys, are_named_names};
ghost use Rattle.gq_scenario.specs.Document.{text_at, list_at, number_at, quantity_at, amount_at, or_zero, target_in, routes_of, routes_at};
ghost use Rattle.gq_scenario.specs.Document.{source_in, numbers_of, offers_of, leaf_of, init_of, nodes_by, node_onto, first_of, routes_fault};
ghost use Rattle.gq_scenario.specs.Sizes.{IsQuantum};
ghost use Rattle.gq_reader.specs.internal.Faultless_tables.{is_name_or_none, route_of, has_source, offers_at, IsLeafTable, IsInitTable, IsNode, AreNodes};
ghost use Rattle.gq_scenario.specs.Targets.{target_of};
ghost use Rattle.gq_scenario.specs.Component_trees.{IsBefore};
ghost use Rattle.gq_scenario.specs.Fault_words.{key_text};

use crate::hexadecimal::unhex;
use crate::value::{has, list_at, number_at, number_of, quantity_at, table_at, text_at, values_at};
use arrayvec::ArrayVec;
use gq_model::program::Name;
use gq_scenario::key::Key;
use gq_scenario::scenario::{Init, Inputs, Leaf, Node, Nodes, Offers, Quantum, Route, Target};
use gq_scenario::source::Source;
use std::alloc::{AllocError, Global};
use toml::{Table, Value};

// The name of a text, where there is one.
fn name_of(text: Option<&str>) -> Option<Name>
    requires { is_name_or_none (option_map (λ t. t.now) text) ≡ true }
    ensures { result ≡ option_map (λ t. t.now) text.entry }
{
    match text {
        Some(text) => Name::new(text.as_bytes()),
        None => None,
    }
}

// The name at a key, where there is one.
fn name_at(table: &Table, key: Key) -> Option<Name>
    requires { is_name_or_none (text_at (key_text key) (table_view table.now)) ≡ true }
    ensures { result ≡ text_at (key_text key) (table_view table.now) }
{
    name_of(text_at(table, key))
}

// What the table of a route leads to.
fn read_target(table: &Table) -> Target
    requires { table_fault route_keys (table_view table.now) ≡ None }
    ensures { target_of result ≡ target_in (table_view table.now) }
{
    if has(table, Key::Parent) {
        return Target::Parent;
    }
    if has(table, Key::AnyChild) {
        return Target::AnyChild;
    }
    match name_at(table, Key::Child) {
        Some(name) => Target::Child(name),
        None => unreachable!(),
    }
}

// The route of a table.
fn read_route(table: &Table) -> Route
    requires { table_fault route_keys (table_view table.now) ≡ None }
    ensures { result ≡ route_of (table_view table.now) }
{
    Route::new(name_at(table, Key::Service), read_target(table))
}

// The routes of these tables.
fn read_routes(alloc: Global, values: &[Value]) -> Result<Vec<Route>, AllocError>
    requires { first_of (table_fault route_keys) (listed (items_view values.now)) ≡ None }
    ensures { IfOk result (λ routes. routes.items ≡ routes_of (listed (items_view values.now))) }
{
    let mut routes = Vec::new(alloc);
    for value in values {
        let Some(table) = value.as_table() else {
            unreachable!();
        };
        routes.push(read_route(table))?;
    }
    Ok(routes)
}

// The routes at a key, where they are reported.
pub(crate) fn read_routes_at(
    alloc: Global,
    key: Key,
    table: &Table,
) -> Result<Option<Vec<Route>>, AllocError>
    requires { routes_fault (key_text key) (table_view table.now) ≡ None }
    ensures { IfOk result (λ reported. option_map (λ routes. routes.items) reported ≡ routes_at (key_text key) (table_view table.now)) }
{
    match values_at(table, key) {
        Some(values) => Ok(Some(read_routes(alloc, values)?)),
        None => Ok(None),
    }
}

// The value at a key, taken out of its table.
fn take_value(mut table: Table, key: Key) -> Option<Value>
    ensures { option_map view result ≡ get_member (key_text key) (table_view table) }
{
    table.remove(key.word())
}

// The table that a value is.
fn table_of(value: Value) -> Option<Table>
    ensures { option_map (λ table. table_view table) result ≡ as_table (view value) }
{
    match value {
        Value::Table(table) => Some(table),
        _ => None,
    }
}

// The text at a key, taken out of its table.
fn take_text(table: Table, key: Key) -> Option<Vec<u8>>
    ensures { option_map (λ text. text.items) result ≡ text_at (key_text key) (table_view table) }
{
    match take_value(table, key) {
        Some(Value::String(text)) => Some(text.into_bytes()),
        _ => None,
    }
}

// The list at a key, taken out of its table, with nothing in it where there is none.
pub(crate) fn take_list(alloc: Global, table: Table, key: Key) -> Vec<Value>
    ensures { listed (items_view result.items) ≡ list_at (key_text key) (table_view table) }
{
    match take_value(table, key) {
        Some(Value::Array(values)) => values,
        _ => Vec::new(alloc),
    }
}

// How the table of a leaf gives its program. A text is taken out of the table, since it may be long.
pub(crate) fn read_source(alloc: Global, table: Table) -> Result<Source, AllocError>
    requires { has_source (table_view table) ≡ true }
    ensures { IfOk result (λ s. source_of s ≡ source_in (table_view table)) }
{
    let Some(_) = text_at(&table, Key::Program) else {
        let Some(code) = text_at(&table, Key::Code) else {
            unreachable!();
        };
        return Ok(Source::Code(unhex(alloc, code.as_bytes())?));
    };
    match take_text(table, Key::Program) {
        Some(text) => Ok(Source::Text(text)),
        None => unreachable!(),
    }
}

// The quantum of a table: bytes at a key, and capabilities.
pub(crate) fn read_quantum(key: Key, table: &Table) -> Quantum
    requires { IsQuantum (quantity_at (key_text key) (table_view table.now)) (number_at (codes "caps") (table_view table.now)) }
    ensures { result ≡ amount_at (key_text key) (codes "caps") (table_view table.now) }
{
    Quantum::new(quantity_at(table, key), number_at(table, Key::Caps) as u32)
}

// The number that a value reports.
fn read_number(value: &Value) -> u32
    requires { is_number 0 greatest_number (view value.now) ≡ true }
    ensures { result ≡ or_zero (number_of (view value.now)) }
{
    match number_of(value) {
        Some(number) => number as u32,
        None => 0,
    }
}

// The inputs whose greatest values these values report.
fn read_inputs(values: &[Value]) -> Inputs
    requires few { length values.now ≤ 8 }
    requires numbers { all_of (is_number 0 greatest_number) (listed (items_view values.now)) ≡ true }
    ensures { result.items ≡ numbers_of (listed (items_view values.now)) }
{
    let mut inputs = ArrayVec::new();
    for value in values {
        inputs.push(read_number(value));
    }
    inputs
}

// The leaf of a table.
fn read_leaf(alloc: Global, table: Table) -> Result<Leaf, AllocError>
    requires { IsLeafTable (table_view table) }
    ensures { IfOk result (λ leaf. leaf ≡ leaf_of (table_view table)) }
{
    let Some(name) = name_at(&table, Key::Name) else {
        unreachable!();
    };
    let quantum = read_quantum(Key::Quantum, &table);
    let routes = read_routes_at(alloc, Key::Route, &table)?;
    let provides = name_at(&table, Key::Provides);
    let after = name_at(&table, Key::After);
    let inputs = read_inputs(list_at(&table, Key::Inputs));
    let signals = number_at(&table, Key::Signals) as u8;
    let source = read_source(alloc, table)?;
    Ok(Leaf::new(
        name, quantum, source, provides, after, inputs, signals, routes,
    ))
}

// The offers of a table: services, each with the name of a child.
fn read_offers(alloc: Global, offers: &Table) -> Result<Offers, AllocError>
    requires { are_named_names (table_view offers.now) ≡ true }
    ensures { IfOk result (λ read. read.items ≡ offers_of (table_view offers.now)) }
{
    let mut read = Vec::new(alloc);
    for (key, value) in offers.iter() {
        let service = key.as_str();
        let Some(service) = Name::new(service.as_bytes()) else {
            unreachable!();
        };
        let Some(child) = name_of(value.as_str()) else {
            unreachable!();
        };
        read.push((service, child))?;
    }
    Ok(read)
}

// The offers of an init's table, none where they are not reported.
fn read_offers_at(alloc: Global, table: &Table) -> Result<Offers, AllocError>
    requires { are_named_names (offers_at (table_view table.now)) ≡ true }
    ensures { IfOk result (λ read. read.items ≡ offers_of (offers_at (table_view table.now))) }
{
    match table_at(table, Key::Offers) {
        Some(offers) => read_offers(alloc, offers),
        None => Ok(Vec::new(alloc)),
    }
}

// The init of a table, without what is below it.
fn read_init(alloc: Global, table: &Table) -> Result<Init, AllocError>
    requires { IsInitTable (table_view table.now) }
    ensures { IfOk result (λ init. init ≡ init_of (table_view table.now)) }
{
    let Some(name) = name_at(table, Key::Name) else {
        unreachable!();
    };
    let quantum = read_quantum(Key::Quantum, table);
    let routes = read_routes_at(alloc, Key::Route, table)?;
    let default_routes = read_routes_at(alloc, Key::DefaultRoute, table)?;
    let offers = read_offers_at(alloc, table)?;
    Ok(Init::new(name, quantum, routes, default_routes, offers))
}

// The node of a table, with what is below it.
#[cycle(nodes)]
fn read_node(alloc: Global, levels: usize, table: Table) -> Result<Node, AllocError>
    requires { IsNode levels (table_view table) }
    ensures { IfOk result (λ node. IsBefore node (node_onto levels (table_view table))) }
{
    if levels == 0 {
        unreachable!();
    }
    if !has(&table, Key::Start) {
        return Ok(Node::Leaf(read_leaf(alloc, table)?));
    }
    let init = read_init(alloc, &table)?;
    let children = read_nodes(alloc, levels - 1, take_list(alloc, table, Key::Start))?;
    Ok(Node::Init(init, children))
}

// The nodes of these tables.
#[cycle(nodes)]
pub(crate) fn read_nodes(
    alloc: Global,
    levels: usize,
    values: Vec<Value>,
) -> Result<Nodes, AllocError>
    requires { AreNodes levels (listed (items_view values.items)) }
    ensures { IfOk result (λ nodes. nodes ≡ nodes_by (node_onto levels) (listed (items_view values.items))) }
{
    let mut nodes = Vec::new(alloc);
    for value in values {
        let Some(table) = table_of(value) else {
            unreachable!();
        };
        nodes.push(read_node(alloc, levels, table)?)?;
    }
    Ok(Nodes::new(nodes))
}

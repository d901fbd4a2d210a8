// All faults of a document's tables.
ghost use Rattle.std.specs.Prelude.{◌≡◌, ◌∷◌, [], map, option_map};
ghost use Rattle.toml.specs.View.{items_view, table_view, view};
ghost use Rattle.gq_reader.specs.Key_rules.{entries_or_none};
ghost use Rattle.gq_scenario.specs.Document.{keys_of, name_at};
ghost use Rattle.gq_scenario.specs.Table_keys.{TooDeep, listed};
ghost use Rattle.gq_scenario.specs.Document_tables.{top_keys, interface_keys, init_keys, leaf_keys, route_keys};
ghost use Rattle.gq_scenario.specs.Component_trees.{version_number};
ghost use Rattle.gq_scenario.specs.Fault_words.{key_text};
ghost use Rattle.gq_faults.specs.Found_lists.{all_found};
ghost use Rattle.gq_faults.specs.Documents.{in_table, in_tables, interfaces_faults, keys_of_node, node_faults, nodes_in, own_faults};
ghost use Rattle.gq_faults.specs.Documents.{routes_faults, table_faults, walk_faults};
ghost use Rattle.gq_faults.specs.Document_nodes.{node_of};
ghost use Rattle.gq_faults.specs.Reported_faults.{ReportsOf};

use crate::document_nodes::NodeAt;
use crate::fault_lines::Reporter;
use crate::fault_value::{Detail, FaultPart, TableKind};
use crate::path::with_step;
use crate::report_error::ReportError;
use crate::table_faults::{report_fault, report_table};
use gq_model::limits::GREATEST_NODE_DEPTH;
use gq_output::counted::Counted;
use gq_reader::first_fault_walk::{too_deep, version_of};
use gq_reader::table_keys::{init_rules, interface_rules, leaf_rules, route_rules, top_rules};
use gq_reader::value::{has, list_at, table_at};
use gq_scenario::key::Key;
use gq_scenario::scenario::Version;
use gq_toml_places::Step;
use std::io::Write;
use toml::{Table, Value};

// The top table.
fn report_top<W: Write>(
    reporter: &Reporter<'_>,
    out: &mut Counted<W>,
    version: Version,
    top: &Table,
) -> Result<(), ReportError>
    ensures { ReportsOf W.contents reporter.now.path.now (table_faults (top_keys (version_number version)) (table_view top.now)) out.old out.new result }
{
    let rules = top_rules(version);
    let kind = TableKind::Top(version);
    report_table(reporter, out, &[], kind, rules.as_slice(), top)
}

// An interface's table.
fn report_interface<W: Write>(
    reporter: &Reporter<'_>,
    out: &mut Counted<W>,
    way: &[Step<'_>],
    version: Version,
    table: &Table,
) -> Result<(), ReportError>
    ensures { ReportsOf W.contents reporter.now.path.now
        (table_faults (interface_keys (version_number version) (table_view table.now)) (table_view table.now)) out.old out.new result }
{
    let rules = interface_rules(version, table);
    let kind = TableKind::Interface(version);
    report_table(reporter, out, way, kind, rules.as_slice(), table)
}

// An entry of the interfaces, where it is a table.
fn report_entry<W: Write>(
    reporter: &Reporter<'_>,
    out: &mut Counted<W>,
    version: Version,
    name: &str,
    value: &Value,
) -> Result<(), ReportError>
    ensures { ReportsOf W.contents reporter.now.path.now
        (in_table (λ entries. table_faults (interface_keys (version_number version) entries) entries) (view value.now)) out.old out.new result }
{
    let Some(table) = value.as_table() else {
        return Ok(());
    };
    let way = [Step::Key(Key::Interface.word()), Step::Key(name)];
    report_interface(reporter, out, &way, version, table)
}

// The interfaces, in the order of their names.
fn report_interfaces<W: Write>(
    reporter: &Reporter<'_>,
    out: &mut Counted<W>,
    version: Version,
    interfaces: &Table,
) -> Result<(), ReportError>
    ensures { ReportsOf W.contents reporter.now.path.now (interfaces_faults (version_number version) (table_view interfaces.now)) out.old out.new result }
{
    for (name, value) in interfaces.iter() {
        report_entry(reporter, out, version, name.as_str(), value)?;
    }
    Ok(())
}

// The same, where there may be no interfaces.
fn report_declared<W: Write>(
    reporter: &Reporter<'_>,
    out: &mut Counted<W>,
    version: Version,
    interfaces: Option<&Table>,
) -> Result<(), ReportError>
    ensures { ReportsOf W.contents reporter.now.path.now
        (interfaces_faults (version_number version) (entries_or_none (option_map (λ t. table_view t.now) interfaces.entry))) out.old out.new result }
{
    match interfaces {
        Some(table) => report_interfaces(reporter, out, version, table),
        None => Ok(()),
    }
}

// A route's table.
fn report_route<W: Write>(
    reporter: &Reporter<'_>,
    out: &mut Counted<W>,
    way: &[Step<'_>],
    table: &Table,
) -> Result<(), ReportError>
    ensures { ReportsOf W.contents reporter.now.path.now (table_faults route_keys (table_view table.now)) out.old out.new result }
{
    let rules = route_rules();
    report_table(
        reporter,
        out,
        way,
        TableKind::Route,
        rules.as_slice(),
        table,
    )
}

// A route, where it is a table; the way leads to its list.
fn report_listed<W: Write>(
    reporter: &Reporter<'_>,
    out: &mut Counted<W>,
    way: &[Step<'_>],
    index: usize,
    value: &Value,
) -> Result<(), ReportError>
    ensures { ReportsOf W.contents reporter.now.path.now (in_table (table_faults route_keys) (view value.now)) out.old out.new result }
{
    let Some(table) = value.as_table() else {
        return Ok(());
    };
    let way = with_step(reporter.alloc(), way, Step::Index(index))?;
    report_route(reporter, out, way.as_slice(), table)
}

// These routes; the way leads to their list.
fn report_list<W: Write>(
    reporter: &Reporter<'_>,
    out: &mut Counted<W>,
    way: &[Step<'_>],
    values: &[Value],
) -> Result<(), ReportError>
    ensures { ReportsOf W.contents reporter.now.path.now (in_tables (table_faults route_keys) (listed (items_view values.now))) out.old out.new result }
{
    for (index, value) in values.iter().enumerate() {
        report_listed(reporter, out, way, index, value)?;
    }
    Ok(())
}

// The routes at a key of a table.
fn report_routes<W: Write>(
    reporter: &Reporter<'_>,
    out: &mut Counted<W>,
    way: &[Step<'_>],
    key: Key,
    table: &Table,
) -> Result<(), ReportError>
    ensures { ReportsOf W.contents reporter.now.path.now (routes_faults (key_text key) (table_view table.now)) out.old out.new result }
{
    let way = with_step(reporter.alloc(), way, Step::Key(key.word()))?;
    report_list(reporter, out, way.as_slice(), list_at(table, key))
}

// An init's table.
fn report_init<W: Write>(
    reporter: &Reporter<'_>,
    out: &mut Counted<W>,
    way: &[Step<'_>],
    version: Version,
    table: &Table,
) -> Result<(), ReportError>
    ensures { ReportsOf W.contents reporter.now.path.now (table_faults (init_keys (version_number version)) (table_view table.now)) out.old out.new result }
{
    let rules = init_rules(version);
    let kind = TableKind::Init(version);
    report_table(reporter, out, way, kind, rules.as_slice(), table)
}

// A leaf's table, among these interfaces.
fn report_leaf<W: Write>(
    reporter: &Reporter<'_>,
    out: &mut Counted<W>,
    way: &[Step<'_>],
    version: Version,
    interfaces: Option<&Table>,
    table: &Table,
) -> Result<(), ReportError>
    ensures { ReportsOf W.contents reporter.now.path.now
        (table_faults (leaf_keys (version_number version) (keys_of (entries_or_none (option_map (λ t. table_view t.now) interfaces.entry))))
        (table_view table.now)) out.old out.new result }
{
    let rules = leaf_rules(version, interfaces);
    let kind = TableKind::Leaf(version);
    report_table(reporter, out, way, kind, rules.as_slice(), table)
}

// The keys of a node: one with `start` is an init.
fn report_keys<W: Write>(
    reporter: &Reporter<'_>,
    out: &mut Counted<W>,
    way: &[Step<'_>],
    version: Version,
    interfaces: Option<&Table>,
    table: &Table,
) -> Result<(), ReportError>
    ensures { ReportsOf W.contents reporter.now.path.now (table_faults (keys_of_node (version_number version)
        (keys_of (entries_or_none (option_map (λ t. table_view t.now) interfaces.entry))) (table_view table.now)) (table_view table.now))
        out.old out.new result }
{
    if has(table, Key::Start) {
        report_init(reporter, out, way, version, table)
    } else {
        report_leaf(reporter, out, way, version, interfaces, table)
    }
}

// A node's table and its routes.
fn report_own<W: Write>(
    reporter: &Reporter<'_>,
    out: &mut Counted<W>,
    way: &[Step<'_>],
    version: Version,
    interfaces: Option<&Table>,
    table: &Table,
) -> Result<(), ReportError>
    ensures { ReportsOf W.contents reporter.now.path.now (own_faults (version_number version)
        (keys_of (entries_or_none (option_map (λ t. table_view t.now) interfaces.entry))) (table_view table.now)) out.old out.new result }
{
    report_keys(reporter, out, way, version, interfaces, table)?;
    report_routes(reporter, out, way, Key::Route, table)?;
    report_routes(reporter, out, way, Key::DefaultRoute, table)
}

// That a node is too deep.
fn report_deep<W: Write>(
    reporter: &Reporter<'_>,
    out: &mut Counted<W>,
    way: &[Step<'_>],
    table: &Table,
) -> Result<(), ReportError>
    ensures { ReportsOf W.contents reporter.now.path.now (TooDeep (name_at (table_view table.now)) ∷ []) out.old out.new result }
{
    let detail = Detail::TooDeep(GREATEST_NODE_DEPTH + 1);
    report_fault(
        reporter,
        out,
        too_deep(table),
        way,
        FaultPart::Table,
        &detail,
    )
}

// A node.
fn report_node<W: Write>(
    reporter: &Reporter<'_>,
    out: &mut Counted<W>,
    version: Version,
    interfaces: Option<&Table>,
    node: NodeAt<'_>,
) -> Result<(), ReportError>
    ensures { ReportsOf W.contents reporter.now.path.now (node_faults (version_number version)
        (keys_of (entries_or_none (option_map (λ t. table_view t.now) interfaces.entry))) (node_of node.entry)) out.old out.new result }
{
    let way = node.place.way(reporter.alloc())?;
    if node.is_deep {
        report_deep(reporter, out, way.as_slice(), node.table)
    } else {
        report_own(
            reporter,
            out,
            way.as_slice(),
            version,
            interfaces,
            node.table,
        )
    }
}

// All nodes.
fn report_nodes<W: Write>(
    reporter: &Reporter<'_>,
    out: &mut Counted<W>,
    version: Version,
    interfaces: Option<&Table>,
    nodes: &[NodeAt<'_>],
) -> Result<(), ReportError>
    ensures { ReportsOf W.contents reporter.now.path.now (all_found (node_faults (version_number version)
        (keys_of (entries_or_none (option_map (λ t. table_view t.now) interfaces.entry)))) (map node_of nodes.now)) out.old out.new result }
{
    for node in nodes {
        report_node(reporter, out, version, interfaces, *node)?;
    }
    Ok(())
}

/// Writes all faults of a document's tables, in the order in which they are looked for. The top table comes first, then the interfaces in the order of their
/// names, the root's routes, and the nodes in preorder, each with its routes. Of a table all unknown keys come first, then all that are missing, then all bad
/// values.
pub(crate) fn report_walk<W: Write>(
    reporter: &Reporter<'_>,
    out: &mut Counted<W>,
    top: &Table,
    nodes: &[NodeAt<'_>],
) -> Result<(), ReportError>
    requires { map node_of nodes.now ≡ nodes_in (table_view top.now) }
    ensures { ReportsOf W.contents reporter.now.path.now (walk_faults (table_view top.now)) out.old out.new result }
{
    let version = version_of(top);
    let interfaces = table_at(top, Key::Interface);
    report_top(reporter, out, version, top)?;
    report_declared(reporter, out, version, interfaces)?;
    report_routes(reporter, out, &[], Key::DefaultRoute, top)?;
    report_nodes(reporter, out, version, interfaces, nodes)
}

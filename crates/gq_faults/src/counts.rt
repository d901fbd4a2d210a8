// What a document has too many of.
ghost use Rattle.std.specs.Prelude.{◌≡◌, ◌&&◌, codes, length, map, filter};
ghost use Rattle.toml.specs.Data.{get_member};
ghost use Rattle.toml.specs.View.{table_view};
ghost use Rattle.gq_scenario.specs.Document.{is_long, keys_of, routes_at, table_of};
ghost use Rattle.gq_scenario.specs.Table_keys.{TooMany};
ghost use Rattle.gq_scenario.specs.Fault_words.{key_text};
ghost use Rattle.gq_scenario.specs.Document.{is_init};
ghost use Rattle.gq_faults.specs.Found_lists.{all_found, when};
ghost use Rattle.gq_faults.specs.Documents.{counts_faults, is_inner, is_leaf, long_lists, nodes_in, too_many};
ghost use Rattle.gq_faults.specs.Document_nodes.{node_of};
ghost use Rattle.gq_faults.specs.Reported_faults.{ReportsOf};

use crate::document_nodes::NodeAt;
use crate::fault_lines::Reporter;
use crate::fault_value::{Crowd, Detail, FaultPart};
use crate::path::with_step;
use crate::report_error::ReportError;
use crate::table_faults::report_fault;
use gq_output::counted::Counted;
use gq_reader::value::{count_at, has, table_at};
use gq_scenario::component_tree::GREATEST_COUNT;
use gq_scenario::key::Key;
use gq_scenario::scenario_fault::ScenarioFault;
use gq_toml_places::Step;
use std::io::Write;
use toml::Table;

// Whether a node is a leaf, or an init. What is too deep is not counted.
fn is_leaf(node: &NodeAt<'_>) -> bool
    ensures { result ≡ is_leaf (node_of node.now) }
{
    !node.is_deep && !has(node.table, Key::Start)
}

fn is_inner(node: &NodeAt<'_>) -> bool
    ensures { result ≡ is_inner (node_of node.now) }
{
    !node.is_deep && has(node.table, Key::Start)
}

// How many of these nodes are leaves.
fn count_leaves(nodes: &[NodeAt<'_>]) -> usize
    ensures { result ≡ length (filter is_leaf (map node_of nodes.now)) }
{
    let mut count = 0;
    for node in nodes {
        if is_leaf(node) {
            count += 1;
        }
    }
    count
}

// How many of these nodes are inits.
fn count_inits(nodes: &[NodeAt<'_>]) -> usize
    ensures { result ≡ length (filter is_inner (map node_of nodes.now)) }
{
    let mut count = 0;
    for node in nodes {
        if is_inner(node) {
            count += 1;
        }
    }
    count
}

// Of nodes that are leaves, or inits, the first that is too many.
fn first_too_many<'n, 'd>(nodes: &'n [NodeAt<'d>], crowd: Crowd) -> Option<&'n NodeAt<'d>> {
    let mut count = 0_usize;
    for node in nodes {
        let is_counted = match crowd {
            Crowd::Leaves => is_leaf(node),
            _ => is_inner(node),
        };
        if is_counted {
            if count == GREATEST_COUNT {
                return Some(node);
            }
            count = count.saturating_add(1);
        }
    }
    None
}

// That there are too many nodes of a kind, where there are so many.
fn report_crowd<W: Write>(
    reporter: &Reporter<'_>,
    out: &mut Counted<W>,
    crowd: Crowd,
    count: usize,
    nodes: &[NodeAt<'_>],
) -> Result<(), ReportError>
    ensures { ReportsOf W.contents reporter.now.path.now (too_many count) out.old out.new result }
{
    if count <= GREATEST_COUNT {
        return Ok(());
    }
    let way = match first_too_many(nodes, crowd) {
        Some(node) => node.place.way(reporter.alloc())?,
        None => Vec::new(reporter.alloc()),
    };
    let detail = Detail::TooMany(crowd, count);
    report_fault(
        reporter,
        out,
        ScenarioFault::TooMany,
        way.as_slice(),
        FaultPart::Table,
        &detail,
    )
}

// The number of interfaces of a document.
fn count_interfaces(top: &Table) -> usize
    ensures { result ≡ length (keys_of (table_of (get_member (codes "interface") (table_view top.now)))) }
{
    match table_at(top, Key::Interface) {
        Some(table) => table.len(),
        None => 0,
    }
}

// The name of the first interface that is too many.
fn interface_too_many(top: &Table) -> &str {
    let Some(interfaces) = table_at(top, Key::Interface) else {
        return "";
    };
    match interfaces.iter().nth(GREATEST_COUNT) {
        Some((name, _)) => name.as_str(),
        None => "",
    }
}

// That there are too many interfaces, where there are so many.
fn report_interfaces<W: Write>(
    reporter: &Reporter<'_>,
    out: &mut Counted<W>,
    count: usize,
    top: &Table,
) -> Result<(), ReportError>
    ensures { ReportsOf W.contents reporter.now.path.now (too_many count) out.old out.new result }
{
    if count <= GREATEST_COUNT {
        return Ok(());
    }
    let way = [
        Step::Key(Key::Interface.word()),
        Step::Key(interface_too_many(top)),
    ];
    let detail = Detail::TooMany(Crowd::Interfaces, count);
    report_fault(
        reporter,
        out,
        ScenarioFault::TooMany,
        &way,
        FaultPart::Key,
        &detail,
    )
}

// That there are too many routes at a key of a table, to which a way leads, where there are so many.
fn report_routes<W: Write>(
    reporter: &Reporter<'_>,
    out: &mut Counted<W>,
    count: usize,
    way: &[Step<'_>],
    key: Key,
) -> Result<(), ReportError>
    ensures { ReportsOf W.contents reporter.now.path.now (too_many count) out.old out.new result }
{
    if count <= GREATEST_COUNT {
        return Ok(());
    }
    let list = with_step(reporter.alloc(), way, Step::Key(key.word()))?;
    let way = with_step(
        reporter.alloc(),
        list.as_slice(),
        Step::Index(GREATEST_COUNT),
    )?;
    let detail = Detail::TooMany(Crowd::Routes, count);
    report_fault(
        reporter,
        out,
        ScenarioFault::TooMany,
        way.as_slice(),
        FaultPart::Key,
        &detail,
    )
}

// The routes at a key of a table, where they are too many.
fn report_long<W: Write>(
    reporter: &Reporter<'_>,
    out: &mut Counted<W>,
    way: &[Step<'_>],
    key: Key,
    table: &Table,
) -> Result<(), ReportError>
    ensures { ReportsOf W.contents reporter.now.path.now (when (is_long (routes_at (key_text key) (table_view table.now))) TooMany) out.old out.new result }
{
    report_routes(reporter, out, count_at(table, key), way, key)
}

// The default routes of an init.
fn report_default<W: Write>(
    reporter: &Reporter<'_>,
    out: &mut Counted<W>,
    way: &[Step<'_>],
    table: &Table,
) -> Result<(), ReportError>
    ensures { ReportsOf W.contents reporter.now.path.now
        (when (is_init (table_view table.now) && is_long (routes_at (codes "default-route") (table_view table.now))) TooMany) out.old out.new result }
{
    if has(table, Key::Start) {
        report_long(reporter, out, way, Key::DefaultRoute, table)
    } else {
        Ok(())
    }
}

// The lists of routes of a node.
fn report_lists<W: Write>(
    reporter: &Reporter<'_>,
    out: &mut Counted<W>,
    node: &NodeAt<'_>,
) -> Result<(), ReportError>
    ensures { ReportsOf W.contents reporter.now.path.now (long_lists (node_of node.now)) out.old out.new result }
{
    if node.is_deep {
        return Ok(());
    }
    let way = node.place.way(reporter.alloc())?;
    report_long(reporter, out, way.as_slice(), Key::Route, node.table)?;
    report_default(reporter, out, way.as_slice(), node.table)
}

// The lists of routes of all nodes.
fn report_all_lists<W: Write>(
    reporter: &Reporter<'_>,
    out: &mut Counted<W>,
    nodes: &[NodeAt<'_>],
) -> Result<(), ReportError>
    ensures { ReportsOf W.contents reporter.now.path.now (all_found long_lists (map node_of nodes.now)) out.old out.new result }
{
    for node in nodes {
        report_lists(reporter, out, node)?;
    }
    Ok(())
}

/// Reports what there is too much of: leaves, inits below the root, interfaces, and routes of each list that is too long.
pub(crate) fn report_counts<W: Write>(
    reporter: &Reporter<'_>,
    out: &mut Counted<W>,
    top: &Table,
    nodes: &[NodeAt<'_>],
) -> Result<(), ReportError>
    requires { map node_of nodes.now ≡ nodes_in (table_view top.now) }
    ensures { ReportsOf W.contents reporter.now.path.now (counts_faults (table_view top.now)) out.old out.new result }
{
    report_crowd(reporter, out, Crowd::Leaves, count_leaves(nodes), nodes)?;
    report_crowd(reporter, out, Crowd::Inits, count_inits(nodes), nodes)?;
    report_interfaces(reporter, out, count_interfaces(top), top)?;
    report_long(reporter, out, &[], Key::DefaultRoute, top)?;
    report_all_lists(reporter, out, nodes)
}

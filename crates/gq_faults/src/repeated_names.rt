// Names that stand twice in a document.
ghost use Rattle.std.specs.Prelude.{◌≡◌, ◌∷◌, [], ℕ, List, true, IfOk, OnOk, map, option_map};
ghost use Rattle.gq_model.specs.machine.Lists.{any_of};
ghost use Rattle.gq_model.specs.machine.Program.{text_eq};
ghost use Rattle.gq_model.specs.texts.Letters.{is_name};
ghost use Rattle.gq_scenario.specs.Table_keys.{NameTwice};
ghost use Rattle.toml.specs.View.{table_view};
ghost use Rattle.gq_faults.specs.Found_lists.{listed_if};
ghost use Rattle.gq_faults.specs.Documents.{named, names_faults, names_twice, nodes_in};
ghost use Rattle.gq_faults.specs.Document_nodes.{node_of};
ghost use Rattle.gq_faults.specs.Seen_names.{AreSeen, seen_after};
ghost use Rattle.gq_faults.specs.Reported_faults.{ReportsOf};

use crate::document_nodes::NodeAt;
use crate::fault_lines::Reporter;
use crate::fault_value::{Detail, FaultPart};
use crate::path::with_step;
use crate::report_error::ReportError;
use crate::table_faults::report_fault;
use gq_model::letters::is_name;
use gq_model::program::Name;
use gq_model::spelling::same_text;
use gq_output::counted::Counted;
use gq_reader::value::text_at;
use gq_scenario::key::Key;
use gq_scenario::scenario_fault::ScenarioFault;
use gq_toml_places::Step;
use std::alloc::{AllocError, Global};
use std::collections::BTreeSet;
use std::io::Write;
use toml::Table;

// The name of a node that is not too deep, where it is one.
fn name_of<'d>(node: &NodeAt<'d>) -> Option<&'d str>
    ensures { listed_if (option_map (λ name. name.now) result) ≡ named (node_of node.now) }
{
    let text = text_at(node.table, Key::Name)?;
    if !node.is_deep && is_name(text.as_bytes()) {
        Some(text)
    } else {
        None
    }
}

// Puts a name among those that were seen, and returns whether it was there.
fn was_seen<'d>(seen: &mut BTreeSet<&'d str>, name: &'d str) -> Result<bool, AllocError>
    ensures known { (names : List (List ℕ)) → AreSeen seen.old names → IfOk result (λ known. known ≡ any_of (text_eq name.now) names) }
    ensures seen { (names : List (List ℕ)) → AreSeen seen.old names → OnOk result (AreSeen seen.new (name.now ∷ names)) }
{
    Ok(!seen.insert(name)?)
}

// How many nodes are looked through for the first of a name. A document that has more has too many.
const LOOKED_THROUGH: usize = 256;

// The node that has a name first.
fn first_named<'n, 'd>(nodes: &'n [NodeAt<'d>], name: &str) -> Option<&'n NodeAt<'d>> {
    for node in nodes.iter().take(LOOKED_THROUGH) {
        if let Some(text) = name_of(node) {
            if same_text(text.as_bytes(), name.as_bytes()) {
                return Some(node);
            }
        }
    }
    None
}

// The way to the name of a node.
fn way_to_name(alloc: Global, node: &NodeAt<'_>) -> Result<Vec<Step<'static>>, AllocError> {
    let table = node.place.way(alloc)?;
    with_step(alloc, table.as_slice(), Step::Key(Key::Name.word()))
}

// Where a name stands first: the root's is in no document.
fn first_of(
    alloc: Global,
    nodes: &[NodeAt<'_>],
    name: &str,
) -> Result<Detail<'static>, AllocError> {
    if same_text(name.as_bytes(), b"init") {
        return Ok(Detail::RootName);
    }
    match first_named(nodes, name) {
        Some(node) => Ok(Detail::NamedFirst(way_to_name(alloc, node)?)),
        None => Ok(Detail::Nothing),
    }
}

// That a name stands for the second time.
fn report_name<W: Write>(
    reporter: &Reporter<'_>,
    out: &mut Counted<W>,
    nodes: &[NodeAt<'_>],
    node: &NodeAt<'_>,
    text: &str,
) -> Result<(), ReportError>
    requires { is_name text.now ≡ true }
    ensures { ReportsOf W.contents reporter.now.path.now (NameTwice text.now ∷ []) out.old out.new result }
{
    let Some(name) = Name::new(text.as_bytes()) else {
        unreachable!()
    };
    let way = way_to_name(reporter.alloc(), node)?;
    let detail = first_of(reporter.alloc(), nodes, text)?;
    let fault = ScenarioFault::NameTwice(name);
    report_fault(
        reporter,
        out,
        fault,
        way.as_slice(),
        FaultPart::Value,
        &detail,
    )
}

// That the name of a node was seen before; then it is among those that were.
fn report_twice<'d, W: Write>(
    reporter: &Reporter<'_>,
    out: &mut Counted<W>,
    seen: &mut BTreeSet<&'d str>,
    nodes: &[NodeAt<'d>],
    node: &NodeAt<'d>,
) -> Result<(), ReportError>
    ensures reported { (names : List (List ℕ)) → AreSeen seen.old names
        → ReportsOf W.contents reporter.now.path.now (names_twice names (named (node_of node.now))) out.old out.new result }
    ensures seen { (names : List (List ℕ)) → AreSeen seen.old names → OnOk result (AreSeen seen.new (seen_after names (named (node_of node.now)))) }
{
    let Some(text) = name_of(node) else {
        return Ok(());
    };
    if was_seen(seen, text)? {
        report_name(reporter, out, nodes, node, text)
    } else {
        Ok(())
    }
}

/// Reports each name that was seen before, of which `init` is the root's.
pub(crate) fn report_names<W: Write>(
    reporter: &Reporter<'_>,
    out: &mut Counted<W>,
    top: &Table,
    nodes: &[NodeAt<'_>],
) -> Result<(), ReportError>
    requires { map node_of nodes.now ≡ nodes_in (table_view top.now) }
    ensures { ReportsOf W.contents reporter.now.path.now (names_faults (table_view top.now)) out.old out.new result }
{
    let mut seen = BTreeSet::new(reporter.alloc());
    was_seen(&mut seen, "init")?;
    for node in nodes {
        report_twice(reporter, out, &mut seen, nodes, node)?;
    }
    Ok(())
}

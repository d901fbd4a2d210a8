// An accepted scenario as a graph for Graphviz.
ghost use Rattle.std.specs.Prelude.{◌≡◌, ◌+◌, ◌≤◌, ◌++◌, Err, IfOk, IfErr, IsOkAnd, OnOk, slice_get, slice_index, codes, decimal, option_map};
ghost use Rattle.gq_model.specs.machine.Accounts.{entry, leaf_count, reported};
ghost use Rattle.gq_model.specs.machine.Scenario as model;
ghost use Rattle.gq_model.specs.machine.Scenario.{system};
ghost use Rattle.gq_model.specs.rules.Accept as accept;
ghost use Rattle.gq_load.specs.Load_faults.{Refuses};
ghost use Rattle.gq_load.specs.Load.{loaded};
ghost use Rattle.gq_laws.specs.Ready.{IsReady};
ghost use Rattle.gq_scenario.specs.Sizes.{node_count, leaf_places};
ghost use Rattle.gq_scenario.specs.Component_trees.{version_number};
ghost use Rattle.gq_views.specs.internal.Opened_services.{arrows_of, opened_at};
ghost use Rattle.gq_views.specs.Listing.{line};
ghost use Rattle.gq_views.specs.Tree.{all_afters, all_services, arrow, arrow_from, arrow_to, budget_part, cluster, graph_text, in_quotes};
ghost use Rattle.gq_views.specs.Tree.{init_label, inputs_part, leaf_label, next_part, node_boxes, node_name, point_line, provides_part};
ghost use Rattle.gq_views.specs.Tree.{leaf_parts, signals_part};
ghost use Rattle.gq_views.specs.Views_written.{graph_written};
ghost use Rattle.gq_reports.specs.Command_outcomes.{WritesAs};

use crate::drawn::{Drawn, Opened};
use crate::left::left_of;
use crate::tree::push_caps;
use crate::view_words::{
    end_line, push_amount, push_amounts, push_entry, push_indent, push_line, push_number,
};
use gq_load::accepted::Accepted;
use gq_load::budget::Budget;
use gq_load::load_fault::LoadError;
use gq_load::read::read_laws;
use gq_model::program::Name;
use gq_output::counted::Counted;
use gq_reports::RunFault;
use gq_reports::command_text::put_text;
use gq_scenario::node_numbers::NodeNo;
use gq_scenario::scenario::{Leaf, LeafNo, Node, Nodes, Quantum, Version};
use std::alloc::{AllocError, Global};
use std::io::Write;

// Puts a word and a number on a line of their own in a label.
fn push_part(text: &mut Vec<u8>, word: &[u8], number: u64) -> Result<(), AllocError>
    ensures { OnOk result (text.new.items ≡ text.old.items ++ codes "\\n" ++ word.now ++ codes " " ++ decimal number) }
{
    text.extend_from_slice(b"\\n")?;
    text.extend_from_slice(word)?;
    push_amount(text, number)
}

// Puts what an init has, and what is left of it, on a line of its own in a label.
fn push_left_part(
    text: &mut Vec<u8>,
    word: &[u8],
    quantum: u64,
    left: u64,
) -> Result<(), AllocError>
    ensures { OnOk result (text.new.items ≡ text.old.items ++ next_part (word.now ++ codes " " ++ decimal quantum ++ entry (codes "left") left)) }
{
    push_part(text, word, quantum)?;
    push_entry(text, b"left", left)
}

// The label of an init.
fn push_init_label(
    text: &mut Vec<u8>,
    version: Version,
    name: &[u8],
    quantum: Quantum,
    children: &Nodes,
) -> Result<(), AllocError>
    ensures { OnOk result (text.new.items ≡ text.old.items ++ init_label (version_number version) name.now quantum children.now) }
{
    let left = left_of(quantum, children);
    text.extend_from_slice(name)?;
    push_left_part(text, b"quantum", quantum.ram(), left.ram)?;
    if !version.counts_caps() {
        return Ok(());
    }
    push_left_part(text, b"caps", u64::from(quantum.caps()), left.caps)
}

// What a leaf provides, in a label.
fn push_provides(text: &mut Vec<u8>, service: Option<&Name>) -> Result<(), AllocError>
    ensures { OnOk result (text.new.items ≡ text.old.items ++ provides_part (option_map (λ s. s.now) service.entry)) }
{
    match service {
        Some(service) => {
            text.extend_from_slice(b"\\nprovides ")?;
            text.extend_from_slice(service.as_bytes())
        }
        None => Ok(()),
    }
}

// The greatest values of a leaf's inputs, in a label, where it has inputs.
fn push_inputs_part(text: &mut Vec<u8>, inputs: &[u32]) -> Result<(), AllocError>
    ensures { OnOk result (text.new.items ≡ text.old.items ++ inputs_part inputs.now) }
{
    if inputs.is_empty() {
        return Ok(());
    }
    text.extend_from_slice(b"\\ninputs")?;
    push_amounts(text, inputs)
}

// The number of a leaf's signals, in a label, where it has signals.
fn push_signals_part(text: &mut Vec<u8>, signals: u8) -> Result<(), AllocError>
    ensures { OnOk result (text.new.items ≡ text.old.items ++ signals_part signals) }
{
    if signals == 0 {
        return Ok(());
    }
    push_part(text, b"signals", u64::from(signals))
}

// What a leaf uses at most, in a label.
fn push_budget_part(
    text: &mut Vec<u8>,
    version: Version,
    budget: Option<&Budget>,
) -> Result<(), AllocError>
    ensures { OnOk result (text.new.items ≡ text.old.items ++ budget_part (version_number version) (option_map (λ b. b.now) budget.entry)) }
{
    match budget {
        Some(budget) => {
            push_part(text, b"own", budget.own())?;
            push_caps(text, version, budget.own_caps())?;
            push_entry(text, b"steps", budget.steps().from_start())
        }
        None => Ok(()),
    }
}

// What the scenario says of a leaf, in a label.
fn push_leaf_parts(text: &mut Vec<u8>, version: Version, leaf: &Leaf) -> Result<(), AllocError>
    ensures { OnOk result (text.new.items ≡ text.old.items ++ leaf_parts (version_number version) leaf.now) }
{
    let quantum = leaf.quantum();
    text.extend_from_slice(leaf.name().as_bytes())?;
    push_part(text, b"quantum", quantum.ram())?;
    push_caps(text, version, u64::from(quantum.caps()))?;
    push_provides(text, leaf.provides())?;
    push_inputs_part(text, leaf.inputs())?;
    push_signals_part(text, leaf.signals())
}

// The label of a leaf.
fn push_leaf_label(
    text: &mut Vec<u8>,
    version: Version,
    leaf: &Leaf,
    budget: Option<&Budget>,
) -> Result<(), AllocError>
    ensures { OnOk result (text.new.items ≡ text.old.items ++ leaf_label (version_number version) leaf.now (option_map (λ b. b.now) budget.entry)) }
{
    push_leaf_parts(text, version, leaf)?;
    push_budget_part(text, version, budget)
}

// Puts the name of the node at a place at the end of a text.
fn push_node(text: &mut Vec<u8>, place: usize) -> Result<(), AllocError>
    ensures { OnOk result (text.new.items ≡ text.old.items ++ node_name place) }
{
    text.extend_from_slice(b"n")?;
    push_number(text, place as u64)
}

// The line of a leaf.
fn push_leaf(
    text: &mut Vec<u8>,
    drawn: &Drawn<'_>,
    depth: usize,
    at: PreorderPlaces,
    leaf: &Leaf,
) -> Result<(), AllocError>
    ensures { OnOk result (text.new.items ≡ text.old.items ++ line depth (node_name at.node ++ codes " [label = "
        ++ in_quotes (leaf_label drawn.now.version leaf.now (slice_get (accept.budgets drawn.now) at.leaf)) ++ codes "];")) }
{
    push_indent(text, depth)?;
    push_node(text, at.node)?;
    text.extend_from_slice(b" [label = \"")?;
    push_leaf_label(text, drawn.version(), leaf, drawn.budget(at.leaf))?;
    text.extend_from_slice(b"\"];")?;
    end_line(text)
}

// The first line of the box of an init.
fn push_box(text: &mut Vec<u8>, depth: usize, place: usize) -> Result<(), AllocError>
    ensures { OnOk result (text.new.items ≡ text.old.items ++ line depth (codes "subgraph cluster_" ++ decimal place ++ codes " {")) }
{
    push_indent(text, depth)?;
    text.extend_from_slice(b"subgraph cluster_")?;
    push_number(text, place as u64)?;
    text.extend_from_slice(b" {")?;
    end_line(text)
}

// The line of the label of an init.
fn push_label(
    text: &mut Vec<u8>,
    version: Version,
    depth: usize,
    name: &[u8],
    quantum: Quantum,
    children: &Nodes,
) -> Result<(), AllocError>
    ensures { OnOk result (text.new.items ≡ text.old.items
        ++ line depth (codes "label = " ++ in_quotes (init_label (version_number version) name.now quantum children.now) ++ codes ";")) }
{
    push_indent(text, depth)?;
    text.extend_from_slice(b"label = \"")?;
    push_init_label(text, version, name, quantum, children)?;
    text.extend_from_slice(b"\";")?;
    end_line(text)
}

// The line of a point that is not seen, where an init has no children.
fn push_point(
    text: &mut Vec<u8>,
    depth: usize,
    place: usize,
    children: &Nodes,
) -> Result<(), AllocError>
    ensures { OnOk result (text.new.items ≡ text.old.items ++ point_line depth place children.now) }
{
    if !children.nodes().is_empty() {
        return Ok(());
    }
    push_indent(text, depth)?;
    push_node(text, place)?;
    text.extend_from_slice(b" [shape = point, style = invis];")?;
    end_line(text)
}

// The places of the next node among all nodes and of the next leaf among all leaves, in preorder.
#[derive(Clone, Copy)]
struct PreorderPlaces {
    node: usize,
    leaf: usize,
}

// The box of the init at a place, with its children; reports the places after them.
#[cycle(boxes)]
fn push_cluster(
    text: &mut Vec<u8>,
    drawn: &Drawn<'_>,
    depth: usize,
    at: PreorderPlaces,
    name: &[u8],
    quantum: Quantum,
    children: &Nodes,
) -> Result<PreorderPlaces, AllocError>
    requires deep { depth + 1 + node_count children.now ≤ 4096 }
    requires nodes { at.node + 1 + node_count children.now ≤ 4096 }
    requires leaves { at.leaf + leaf_count children.now ≤ 64 }
    ensures lines { OnOk result (text.new.items ≡ text.old.items ++ cluster depth at.node
        (init_label drawn.now.version name.now quantum children.now) (point_line (depth + 1) at.node children.now)
        (node_boxes drawn.now.version (accept.budgets drawn.now) (depth + 1) (at.node + 1) at.leaf children.now)) }
    ensures node { IfOk result (λ next. next.node ≡ at.node + 1 + node_count children.now) }
    ensures leaf { IfOk result (λ next. next.leaf ≡ at.leaf + leaf_count children.now) }
{
    push_box(text, depth, at.node)?;
    push_label(text, drawn.version(), depth + 1, name, quantum, children)?;
    push_point(text, depth + 1, at.node, children)?;
    let first = PreorderPlaces {
        node: at.node + 1,
        leaf: at.leaf,
    };
    let next = push_boxes(text, drawn, depth + 1, first, children)?;
    push_line(text, depth, b"}")?;
    Ok(next)
}

// These nodes with those in them, of which the first has these places; reports the places after the last.
#[cycle(boxes)]
fn push_boxes(
    text: &mut Vec<u8>,
    drawn: &Drawn<'_>,
    depth: usize,
    first: PreorderPlaces,
    nodes: &Nodes,
) -> Result<PreorderPlaces, AllocError>
    requires deep { depth + node_count nodes.now ≤ 4096 }
    requires nodes { first.node + node_count nodes.now ≤ 4096 }
    requires leaves { first.leaf + leaf_count nodes.now ≤ 64 }
    ensures lines { OnOk result (text.new.items ≡ text.old.items
        ++ node_boxes drawn.now.version (accept.budgets drawn.now) depth first.node first.leaf nodes.now) }
    ensures node { IfOk result (λ next. next.node ≡ first.node + node_count nodes.now) }
    ensures leaf { IfOk result (λ next. next.leaf ≡ first.leaf + leaf_count nodes.now) }
{
    let mut at = first;
    for node in nodes.nodes() {
        match node {
            Node::Leaf(leaf) => {
                push_leaf(text, drawn, depth, at, leaf)?;
                at = PreorderPlaces {
                    node: at.node + 1,
                    leaf: at.leaf + 1,
                };
            }
            Node::Init(init, children) => {
                let name = init.name().as_bytes();
                at = push_cluster(text, drawn, depth, at, name, init.quantum(), children)?;
            }
        }
    }
    Ok(at)
}

// The place of a leaf among the nodes, by those of all leaves.
fn place_of(places: &[NodeNo], leaf: usize) -> usize
    ensures { result ≡ slice_index places.now leaf }
{
    match places.get(leaf) {
        Some(place) => place.index(),
        None => 0,
    }
}

// The line of an arrow from one node to another.
fn push_arrow(
    text: &mut Vec<u8>,
    from: usize,
    to: usize,
    attributes: &[u8],
) -> Result<(), AllocError>
    ensures { OnOk result (text.new.items ≡ text.old.items ++ arrow from to attributes.now) }
{
    push_indent(text, 1)?;
    push_node(text, from)?;
    text.extend_from_slice(b" -> ")?;
    push_node(text, to)?;
    text.extend_from_slice(b" [label = ")?;
    text.extend_from_slice(attributes)?;
    text.extend_from_slice(b"];")?;
    end_line(text)
}

// The arrow for a service, from the node that opens it to its server, if it has one.
fn push_service(
    text: &mut Vec<u8>,
    places: &[NodeNo],
    from: usize,
    service: &Name,
    server: Option<LeafNo>,
) -> Result<(), AllocError>
    ensures { OnOk result (text.new.items ≡ text.old.items ++ arrow_to places.now from server (in_quotes service.now)) }
{
    let Some(server) = server else {
        return Ok(());
    };
    push_indent(text, 1)?;
    push_node(text, from)?;
    text.extend_from_slice(b" -> ")?;
    push_node(text, place_of(places, server.index()))?;
    text.extend_from_slice(b" [label = \"")?;
    text.extend_from_slice(service.as_bytes())?;
    text.extend_from_slice(b"\"];")?;
    end_line(text)
}

// The arrows for the services that a leaf opens, whose node has this place.
fn push_services(
    text: &mut Vec<u8>,
    places: &[NodeNo],
    from: usize,
    opened: &[Opened],
) -> Result<(), AllocError>
    ensures { OnOk result (text.new.items ≡ text.old.items ++ arrows_of places.now from opened.now) }
{
    for (service, server) in opened {
        push_service(text, places, from, service, *server)?;
    }
    Ok(())
}

// The arrows for the services that all leaves open.
fn push_all_services(
    text: &mut Vec<u8>,
    drawn: &Drawn<'_>,
    places: &[NodeNo],
) -> Result<(), AllocError>
    ensures { OnOk result (text.new.items ≡ text.old.items ++ all_services (system drawn.now) places.now 0 (model.components drawn.now)) }
{
    for leaf in 0..drawn.leaf_count() {
        push_services(text, places, place_of(places, leaf), drawn.opened(leaf))?;
    }
    Ok(())
}

// The arrow to a leaf that starts after another, from that one; its node has this place.
fn push_after(
    text: &mut Vec<u8>,
    places: &[NodeNo],
    to: usize,
    after: Option<LeafNo>,
) -> Result<(), AllocError>
    ensures { OnOk result (text.new.items ≡ text.old.items ++ arrow_from places.now after to) }
{
    match after {
        Some(leaf) => push_arrow(
            text,
            place_of(places, leaf.index()),
            to,
            b"\"then\", style = dashed",
        ),
        None => Ok(()),
    }
}

// The arrows to all leaves that start after others.
fn push_all_afters(
    text: &mut Vec<u8>,
    drawn: &Drawn<'_>,
    places: &[NodeNo],
) -> Result<(), AllocError>
    ensures { OnOk result (text.new.items ≡ text.old.items ++ all_afters (system drawn.now) places.now 0 (model.components drawn.now)) }
{
    for leaf in 0..drawn.leaf_count() {
        push_after(text, places, place_of(places, leaf), drawn.after(leaf))?;
    }
    Ok(())
}

// All nodes of a scenario, in boxes.
fn push_root(text: &mut Vec<u8>, drawn: &Drawn<'_>) -> Result<(), AllocError>
    ensures { OnOk result (text.new.items ≡ text.old.items ++ cluster 1 0
        (init_label drawn.now.version (codes "init") drawn.now.total drawn.now.nodes) (point_line 2 0 drawn.now.nodes)
        (node_boxes drawn.now.version (accept.budgets drawn.now) 2 1 0 drawn.now.nodes)) }
{
    let scenario = drawn.scenario();
    scenario.bounds();
    let root = PreorderPlaces { node: 0, leaf: 0 };
    push_cluster(
        text,
        drawn,
        1,
        root,
        b"init",
        scenario.total(),
        scenario.nodes(),
    )?;
    Ok(())
}

// The text of the graph of a scenario whose leaves have these places among the nodes.
fn placed_text(alloc: Global, drawn: &Drawn<'_>, places: &[NodeNo]) -> Result<Vec<u8>, AllocError>
    requires { places.now ≡ leaf_places 1 drawn.now.nodes }
    ensures { IfOk result (λ text. text.items ≡ graph_text drawn.now) }
{
    let mut text = Vec::new(alloc);
    text.extend_from_slice(b"digraph scenario {\n  node [shape = box];\n")?;
    push_root(&mut text, drawn)?;
    push_all_services(&mut text, drawn, places)?;
    push_all_afters(&mut text, drawn, places)?;
    push_line(&mut text, 0, b"}")?;
    Ok(text)
}

// The text of the graph of a scenario.
fn drawn_text(alloc: Global, drawn: &Drawn<'_>) -> Result<Vec<u8>, AllocError>
    ensures { IfOk result (λ text. text.items ≡ graph_text drawn.now) }
{
    let places = drawn.scenario().leaf_nodes(alloc)?;
    let text = placed_text(alloc, drawn, places.as_slice());
    drop(places);
    text
}

// The text of the graph of an accepted scenario.
fn accepted_text(alloc: Global, accepted: &Accepted) -> Result<Vec<u8>, AllocError>
    requires { IsReady accepted.now }
    ensures { IfOk result (λ text. text.items ≡ graph_text accepted.now) }
{
    let drawn = Drawn::of(alloc, accepted.table(), accepted.budgets())?;
    let text = drawn_text(alloc, &drawn);
    drop(drawn);
    text
}

// The text of the graph of the scenario of a text.
fn loaded_text(alloc: Global, scenario: &[u8]) -> Result<Vec<u8>, LoadError>
    ensures text { IfOk result (λ text. IsOkAnd (loaded scenario.now) (λ s. text.items ≡ graph_text s)) }
    ensures refused { IfErr result (λ e. Refuses e (loaded scenario.now)) }
{
    read_laws();
    let accepted = Accepted::read(alloc, scenario)?;
    let text = accepted_text(alloc, &accepted);
    drop(accepted);
    match text {
        Ok(text) => Ok(text),
        Err(_) => Err(LoadError::Memory),
    }
}

/// Writes an accepted scenario as a graph in the language of Graphviz: what `tree` prints, as a picture.
///
/// - Each init is a box with its children in it, and each leaf a node.
/// - An arrow leads from each leaf to the server of each service that it opens, and a dashed one to each leaf that starts after another.
///
/// If the scenario is refused, as `check` refuses it, or the host refuses memory, nothing is written. After a failed write a prefix of the text was written.
pub fn graph<W: Write>(
    alloc: Global,
    scenario: &[u8],
    out: &mut Counted<W>,
) -> Result<(), RunFault<'static>>
    ensures { WritesAs W.contents (graph_written scenario.now) out.old out.new result }
{
    let text = loaded_text(alloc, scenario)?;
    put_text(out, text.as_slice())
}

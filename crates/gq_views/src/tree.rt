// An accepted scenario as a tree.
ghost use Rattle.std.specs.Prelude.{◌≡◌, ◌+◌, ◌≤◌, ◌++◌, Err, IfOk, IfErr, IsOkAnd, OnOk, slice_get, codes, option_map};
ghost use Rattle.gq_model.specs.machine.Accounts.{entry, leaf_count, reported};
ghost use Rattle.gq_model.specs.machine.Scenario.{components, system};
ghost use Rattle.gq_model.specs.rules.Accept as accept;
ghost use Rattle.gq_load.specs.Load_faults.{Refuses};
ghost use Rattle.gq_load.specs.Load.{loaded};
ghost use Rattle.gq_laws.specs.Ready.{IsReady};
ghost use Rattle.gq_scenario.specs.Sizes.{node_count};
ghost use Rattle.gq_scenario.specs.Component_trees.{version_number};
ghost use Rattle.gq_views.specs.internal.Opened_services.{opens_of};
ghost use Rattle.gq_views.specs.Listing.{line};
ghost use Rattle.gq_views.specs.Tree.{budget_entries, init_lines, init_text, inputs_entry, leaf_opens, leaf_text, leaf_words, left_entries, named_entry};
ghost use Rattle.gq_views.specs.Tree.{nodes_text, offers_lines, server_label, signals_entry, tree_text};
ghost use Rattle.gq_views.specs.Views_written.{tree_written};
ghost use Rattle.gq_reports.specs.Command_outcomes.{WritesAs};

use crate::drawn::{Drawn, Opened};
use crate::left::left_of;
use crate::view_words::{end_line, push_amounts, push_entry, push_indent};
use gq_load::accepted::Accepted;
use gq_load::budget::Budget;
use gq_load::load_fault::LoadError;
use gq_load::read::read_laws;
use gq_model::program::Name;
use gq_output::counted::Counted;
use gq_reports::RunFault;
use gq_reports::command_text::put_text;
use gq_scenario::scenario::{Init, Leaf, Node, Nodes, Quantum, Version};
use std::alloc::{AllocError, Global};
use std::io::Write;

// Puts capabilities at the end of a text, where the version counts them.
pub(crate) fn push_caps(text: &mut Vec<u8>, version: Version, caps: u64) -> Result<(), AllocError>
    ensures { OnOk result (text.new.items ≡ text.old.items ++ reported (version_number version) (entry (codes "caps") caps)) }
{
    if !version.counts_caps() {
        return Ok(());
    }
    push_entry(text, b"caps", caps)
}

// Puts a word and a name at the end of a text, where there is one.
fn push_named(text: &mut Vec<u8>, word: &[u8], name: Option<&Name>) -> Result<(), AllocError>
    ensures { OnOk result (text.new.items ≡ text.old.items ++ named_entry word.now (option_map (λ n. n.now) name.entry)) }
{
    match name {
        Some(name) => {
            text.extend_from_slice(b" ")?;
            text.extend_from_slice(word)?;
            text.extend_from_slice(b" ")?;
            text.extend_from_slice(name.as_bytes())
        }
        None => Ok(()),
    }
}

// Puts the greatest values of a leaf's inputs at the end of a text, where it has inputs.
fn push_inputs(text: &mut Vec<u8>, inputs: &[u32]) -> Result<(), AllocError>
    ensures { OnOk result (text.new.items ≡ text.old.items ++ inputs_entry inputs.now) }
{
    if inputs.is_empty() {
        return Ok(());
    }
    text.extend_from_slice(b" inputs")?;
    push_amounts(text, inputs)
}

// Puts the number of a leaf's signals at the end of a text, where it has signals.
fn push_signals(text: &mut Vec<u8>, signals: u8) -> Result<(), AllocError>
    ensures { OnOk result (text.new.items ≡ text.old.items ++ signals_entry signals) }
{
    if signals == 0 {
        return Ok(());
    }
    push_entry(text, b"signals", u64::from(signals))
}

// Puts what a leaf uses at most at the end of a text.
fn push_budget(
    text: &mut Vec<u8>,
    version: Version,
    budget: Option<&Budget>,
) -> Result<(), AllocError>
    ensures { OnOk result (text.new.items ≡ text.old.items ++ budget_entries (version_number version) (option_map (λ b. b.now) budget.entry)) }
{
    match budget {
        Some(budget) => {
            push_entry(text, b"own", budget.own())?;
            push_caps(text, version, budget.own_caps())?;
            push_entry(text, b"steps", budget.steps().from_start())
        }
        None => Ok(()),
    }
}

// Puts what a leaf is given at the end of a text.
fn push_quantum(text: &mut Vec<u8>, version: Version, quantum: Quantum) -> Result<(), AllocError>
    ensures { OnOk result (text.new.items ≡ text.old.items
        ++ entry (codes "quantum") quantum.ram ++ reported (version_number version) (entry (codes "caps") quantum.caps)) }
{
    push_entry(text, b"quantum", quantum.ram())?;
    push_caps(text, version, u64::from(quantum.caps()))
}

// Puts what the scenario says of a leaf at the end of a text.
fn push_leaf_words(text: &mut Vec<u8>, version: Version, leaf: &Leaf) -> Result<(), AllocError>
    ensures { OnOk result (text.new.items ≡ text.old.items ++ leaf_words (version_number version) leaf.now) }
{
    text.extend_from_slice(leaf.name().as_bytes())?;
    push_quantum(text, version, leaf.quantum())?;
    push_named(text, b"provides", leaf.provides())?;
    push_named(text, b"after", leaf.after())?;
    push_inputs(text, leaf.inputs())?;
    push_signals(text, leaf.signals())
}

// Puts what is reported of a leaf at the end of a text.
fn push_leaf_text(
    text: &mut Vec<u8>,
    version: Version,
    leaf: &Leaf,
    budget: Option<&Budget>,
) -> Result<(), AllocError>
    ensures { OnOk result (text.new.items ≡ text.old.items ++ leaf_text (version_number version) leaf.now (option_map (λ b. b.now) budget.entry)) }
{
    push_leaf_words(text, version, leaf)?;
    push_budget(text, version, budget)
}

// Puts what an init has and what is left of it at the end of a text.
fn push_left(text: &mut Vec<u8>, word: &[u8], quantum: u64, left: u64) -> Result<(), AllocError>
    ensures { OnOk result (text.new.items ≡ text.old.items ++ entry word.now quantum ++ entry (codes "left") left) }
{
    push_entry(text, word, quantum)?;
    push_entry(text, b"left", left)
}

// Puts what is reported of an init at the end of a text.
fn push_init_text(
    text: &mut Vec<u8>,
    version: Version,
    name: &[u8],
    quantum: Quantum,
    children: &Nodes,
) -> Result<(), AllocError>
    ensures { OnOk result (text.new.items ≡ text.old.items ++ init_text (version_number version) name.now quantum children.now) }
{
    let left = left_of(quantum, children);
    text.extend_from_slice(name)?;
    push_left(text, b"quantum", quantum.ram(), left.ram)?;
    if !version.counts_caps() {
        return Ok(());
    }
    push_left(text, b"caps", u64::from(quantum.caps()), left.caps)
}

// The line of an init.
fn push_init(
    text: &mut Vec<u8>,
    version: Version,
    depth: usize,
    name: &[u8],
    quantum: Quantum,
    children: &Nodes,
) -> Result<(), AllocError>
    ensures { OnOk result (text.new.items ≡ text.old.items ++ line depth (init_text (version_number version) name.now quantum children.now)) }
{
    push_indent(text, depth)?;
    push_init_text(text, version, name, quantum, children)?;
    end_line(text)
}

// The line of a service that an init offers.
fn push_offer(
    text: &mut Vec<u8>,
    depth: usize,
    service: &Name,
    child: &Name,
) -> Result<(), AllocError>
    ensures { OnOk result (text.new.items ≡ text.old.items ++ line depth (codes "offers " ++ service.now ++ codes " from " ++ child.now)) }
{
    push_indent(text, depth)?;
    text.extend_from_slice(b"offers ")?;
    text.extend_from_slice(service.as_bytes())?;
    text.extend_from_slice(b" from ")?;
    text.extend_from_slice(child.as_bytes())?;
    end_line(text)
}

// The lines of the services that an init offers.
fn push_offers(text: &mut Vec<u8>, depth: usize, offers: &[(Name, Name)]) -> Result<(), AllocError>
    ensures { OnOk result (text.new.items ≡ text.old.items ++ offers_lines depth offers.now) }
{
    for (service, child) in offers {
        push_offer(text, depth, service, child)?;
    }
    Ok(())
}

// The line of an init below the root, and those of the services that it offers.
fn push_init_lines(
    text: &mut Vec<u8>,
    version: Version,
    depth: usize,
    init: &Init,
    children: &Nodes,
) -> Result<(), AllocError>
    requires { depth ≤ 4096 }
    ensures { OnOk result (text.new.items ≡ text.old.items ++ init_lines (version_number version) depth init.now children.now) }
{
    let name = init.name().as_bytes();
    push_init(text, version, depth, name, init.quantum(), children)?;
    push_offers(text, depth + 1, init.offers())
}

// The line of a service that a leaf opens.
fn push_open(
    text: &mut Vec<u8>,
    depth: usize,
    service: &Name,
    server: &[u8],
) -> Result<(), AllocError>
    ensures { OnOk result (text.new.items ≡ text.old.items ++ line depth (codes "opens " ++ service.now ++ codes " of " ++ server.now)) }
{
    push_indent(text, depth)?;
    text.extend_from_slice(b"opens ")?;
    text.extend_from_slice(service.as_bytes())?;
    text.extend_from_slice(b" of ")?;
    text.extend_from_slice(server)?;
    end_line(text)
}

// The lines of services that a leaf opens.
fn push_opens(
    text: &mut Vec<u8>,
    drawn: &Drawn<'_>,
    depth: usize,
    opened: &[Opened],
) -> Result<(), AllocError>
    ensures { OnOk result (text.new.items ≡ text.old.items ++ opens_of depth (system drawn.now) opened.now) }
{
    for (service, server) in opened {
        push_open(text, depth, service, drawn.label(*server))?;
    }
    Ok(())
}

// The lines of the leaf at a place among the leaves.
fn push_leaf(
    text: &mut Vec<u8>,
    drawn: &Drawn<'_>,
    depth: usize,
    place: usize,
    leaf: &Leaf,
) -> Result<(), AllocError>
    requires { depth ≤ 4096 }
    ensures { OnOk result (text.new.items ≡ text.old.items
        ++ line depth (leaf_text drawn.now.version leaf.now (slice_get (accept.budgets drawn.now) place))
        ++ leaf_opens (depth + 1) (system drawn.now) (slice_get (components drawn.now) place)) }
{
    push_indent(text, depth)?;
    push_leaf_text(text, drawn.version(), leaf, drawn.budget(place))?;
    end_line(text)?;
    push_opens(text, drawn, depth + 1, drawn.opened(place))
}

// The lines of these nodes and of those below them, in preorder. The first leaf has this place; reports the place after the last.
fn push_nodes(
    text: &mut Vec<u8>,
    drawn: &Drawn<'_>,
    depth: usize,
    first: usize,
    nodes: &Nodes,
) -> Result<usize, AllocError>
    requires deep { depth + node_count nodes.now ≤ 4096 }
    requires leaves { first + leaf_count nodes.now ≤ 64 }
    ensures lines { OnOk result (text.new.items ≡ text.old.items
        ++ nodes_text drawn.now.version (system drawn.now) (accept.budgets drawn.now) depth first nodes.now) }
    ensures next { IfOk result (λ next. next ≡ first + leaf_count nodes.now) }
{
    let mut place = first;
    for node in nodes.nodes() {
        match node {
            Node::Leaf(leaf) => {
                push_leaf(text, drawn, depth, place, leaf)?;
                place += 1;
            }
            Node::Init(init, children) => {
                push_init_lines(text, drawn.version(), depth, init, children)?;
                place = push_nodes(text, drawn, depth + 1, place, children)?;
            }
        }
    }
    Ok(place)
}

// The text of the tree of a scenario.
fn drawn_text(alloc: Global, drawn: &Drawn<'_>) -> Result<Vec<u8>, AllocError>
    ensures { IfOk result (λ text. text.items ≡ tree_text drawn.now) }
{
    let scenario = drawn.scenario();
    scenario.bounds();
    let mut text = Vec::new(alloc);
    push_init(
        &mut text,
        drawn.version(),
        0,
        b"init",
        scenario.total(),
        scenario.nodes(),
    )?;
    push_nodes(&mut text, drawn, 1, 0, scenario.nodes())?;
    Ok(text)
}

// The text of the tree of an accepted scenario.
fn accepted_text(alloc: Global, accepted: &Accepted) -> Result<Vec<u8>, AllocError>
    requires { IsReady accepted.now }
    ensures { IfOk result (λ text. text.items ≡ tree_text accepted.now) }
{
    let drawn = Drawn::of(alloc, accepted.table(), accepted.budgets())?;
    let text = drawn_text(alloc, &drawn);
    drop(drawn);
    text
}

// The text of the tree of the scenario of a text.
fn loaded_text(alloc: Global, scenario: &[u8]) -> Result<Vec<u8>, LoadError>
    ensures text { IfOk result (λ text. IsOkAnd (loaded scenario.now) (λ s. text.items ≡ tree_text s)) }
    ensures refused { IfErr result (λ e. Refuses e (loaded scenario.now)) }
{
    read_laws();
    let accepted = Accepted::read(alloc, scenario)?;
    let text = accepted_text(alloc, &accepted);
    drop(accepted);
    match text {
        Ok(text) => Ok(text),
        Err(_) => Err(LoadError::Memory),
    }
}

/// Writes an accepted scenario as a tree.
///
/// - Each node has a line, in preorder, two blanks deeper below each init.
/// - It shows the node's quantum in bytes, in version 2 its capabilities, what an init has left of them, and what a leaf uses at most.
/// - Below a leaf there is a line for each service that it opens, with the leaf that serves it.
///
/// If the scenario is refused, as `check` refuses it, or the host refuses memory, nothing is written. After a failed write a prefix of the text was written.
pub fn tree<W: Write>(
    alloc: Global,
    scenario: &[u8],
    out: &mut Counted<W>,
) -> Result<(), RunFault<'static>>
    ensures { WritesAs W.contents (tree_written scenario.now) out.old out.new result }
{
    let text = loaded_text(alloc, scenario)?;
    put_text(out, text.as_slice())
}

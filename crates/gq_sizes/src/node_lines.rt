// The lines of nodes.
ghost use Rattle.std.specs.Prelude.{◌≡◌, ◌+◌, ◌≤◌, ◌++◌, ◌∷◌, [], IfOk, OnOk, codes, max};
ghost use Rattle.gq_tariff.specs.Prices.{up};
ghost use Rattle.gq_model.specs.machine.Accounts.{leaf_count};
ghost use Rattle.gq_model.specs.machine.Amounts.{amount};
ghost use Rattle.gq_model.specs.machine.Scenario as model;
ghost use Rattle.gq_model.specs.machine.Scenario.{below};
ghost use Rattle.gq_scenario.specs.Component_trees.{nodes_of, version_number};
ghost use Rattle.gq_verify.specs.Saturated_numbers.{saturated};
ghost use Rattle.gq_sizes.specs.Endless.{children_endless, endless_at};
ghost use Rattle.gq_sizes.specs.Size_text.{node_line, unless};
ghost use Rattle.gq_sizes.specs.Saturated_tables.{AreLeast};
ghost use Rattle.gq_sizes.specs.internal.Printed_sizes.{init_least_printed, leaf_least_printed, node_lines, root_least_printed, root_line};

use crate::leaf_needs::{least_at, least_of_children};
use crate::quantity_lines::{Least, least_of, push_caps, push_pair};
use crate::unending::{is_at, of_children};
use gq_scenario::scenario::{Node, Nodes, Quantum, Scenario, Version};
use gq_tariff::Amount;
use gq_tariff::price::{PAGE, round_up};
use gq_views::view_words::end_line;
use std::alloc::{AllocError, Global};

/// What each leaf needs at least, and whether no number of capabilities is enough for it.
#[derive(Drop)]
pub(crate) struct Leaves<'a> {
    pub least: &'a [Amount],
    pub endless: &'a [bool],
}

impl<'a> Leaves<'a> {
    /// What the leaf of a number needs at least.
    pub fn of_leaf(&self, leaf: usize) -> Least
        ensures { (all : model.System) → AreLeast all self.now.least.now self.now.endless.now → (result.ram ≡ (leaf_least_printed all leaf).ram)
            × (result.caps ≡ unless (endless_at all leaf) (leaf_least_printed all leaf).caps) }
    {
        least_of(least_at(self.least, leaf), is_at(self.endless, leaf))
    }

    /// What an init needs at least for its children, of which the first leaf has a number.
    pub fn of_init(&self, children: &Nodes, first: usize) -> Least
        requires { first + leaf_count children.now ≤ 64 }
        ensures { (all : model.System) → AreLeast all self.now.least.now self.now.endless.now
            → (result.ram ≡ (init_least_printed all first children.now).ram)
            × (result.caps ≡ unless (children_endless all first children.now) (init_least_printed all first children.now).caps) }
    {
        let (needed, _after) = least_of_children(children, self.least, first);
        let (endless, _after) = of_children(children, self.endless, first);
        least_of(needed, endless)
    }
}

/// Puts the line of a node at the end of a text.
fn push_node(
    text: &mut Vec<u8>,
    version: Version,
    label: &[u8],
    quantum: Quantum,
    least: Least,
) -> Result<(), AllocError>
    ensures { OnOk result (text.new.items ≡ text.old.items ++ node_line (version_number version) label.now quantum least.ram least.caps) }
{
    text.extend_from_slice(b"size ")?;
    text.extend_from_slice(label)?;
    push_pair(text, b"quantum", quantum.ram(), least.ram)?;
    push_caps(text, version, u64::from(quantum.caps()), least.caps)?;
    end_line(text)
}

/// The label of what bears this name below.
fn below(alloc: Global, label: &[u8], name: &[u8]) -> Result<Vec<u8>, AllocError>
    ensures { IfOk result (λ l. l.items ≡ below label.now name.now) }
{
    let mut longer = Vec::from_slice(alloc, label)?;
    longer.extend_from_slice(b" -> ")?;
    longer.extend_from_slice(name)?;
    Ok(longer)
}

/// Puts the lines of nodes below this label at the end of a text, of which the first leaf has a number; and returns the number of the leaf after them.
#[cycle(nodes)]
fn push_nodes(
    alloc: Global,
    text: &mut Vec<u8>,
    version: Version,
    label: &[u8],
    nodes: &Nodes,
    leaves: &Leaves<'_>,
    first: usize,
) -> Result<usize, AllocError>
    requires { first + leaf_count nodes.now ≤ 64 }
    ensures lines { (all : model.System) → AreLeast all leaves.now.least.now leaves.now.endless.now
        → OnOk result (text.new.items ≡ text.old.items ++ node_lines (version_number version) all label.now first nodes.now) }
    ensures next { IfOk result (λ next. next ≡ first + leaf_count nodes.now) }
{
    let mut next = first;
    for node in nodes.nodes() {
        next = push_below(alloc, text, version, label, node, leaves, next)?;
    }
    Ok(next)
}

/// Puts the lines of a node below this label, and of those in it, at the end of a text. The first leaf in it has the number that is given. Returns the number
/// of the leaf after it.
#[cycle(nodes)]
fn push_below(
    alloc: Global,
    text: &mut Vec<u8>,
    version: Version,
    label: &[u8],
    node: &Node,
    leaves: &Leaves<'_>,
    first: usize,
) -> Result<usize, AllocError>
    requires { first + leaf_count (nodes_of (node.now ∷ [])) ≤ 64 }
    ensures lines { (all : model.System) → AreLeast all leaves.now.least.now leaves.now.endless.now
        → OnOk result (text.new.items ≡ text.old.items ++ node_lines (version_number version) all label.now first (nodes_of (node.now ∷ []))) }
    ensures next { IfOk result (λ next. next ≡ first + leaf_count (nodes_of (node.now ∷ []))) }
{
    match node {
        Node::Leaf(leaf) => {
            let label = below(alloc, label, leaf.name().as_bytes())?;
            let needed = leaves.of_leaf(first);
            let pushed = push_node(text, version, label.as_slice(), leaf.quantum(), needed);
            drop(label);
            pushed?;
            Ok(first + 1)
        }
        Node::Init(init, children) => {
            let label = below(alloc, label, init.name().as_bytes())?;
            let pushed = push_init(
                alloc,
                text,
                version,
                label.as_slice(),
                init.quantum(),
                children,
                leaves,
                first,
            );
            drop(label);
            pushed
        }
    }
}

/// Puts the lines of an init with this label, and of its children, at the end of a text. The first leaf in it has the number that is given. Returns the number
/// of the leaf after them.
#[cycle(nodes)]
fn push_init(
    alloc: Global,
    text: &mut Vec<u8>,
    version: Version,
    label: &[u8],
    quantum: Quantum,
    children: &Nodes,
    leaves: &Leaves<'_>,
    first: usize,
) -> Result<usize, AllocError>
    requires { first + leaf_count children.now ≤ 64 }
    ensures lines { (all : model.System) → AreLeast all leaves.now.least.now leaves.now.endless.now
        → OnOk result (text.new.items ≡ text.old.items ++ node_line (version_number version) label.now quantum (init_least_printed all first children.now).ram
        (unless (children_endless all first children.now) (init_least_printed all first children.now).caps)
        ++ node_lines (version_number version) all label.now first children.now) }
    ensures next { IfOk result (λ next. next ≡ first + leaf_count children.now) }
{
    push_node(
        text,
        version,
        label,
        quantum,
        leaves.of_init(children, first),
    )?;
    push_nodes(alloc, text, version, label, children, leaves, first)
}

/// Whole pages, at least one; 2^64 - 1 where they are more.
fn whole_pages(bytes: u64) -> u64
    ensures { result ≡ saturated (max 4096 (up bytes)) }
{
    if bytes > u64::MAX - (PAGE - 1) {
        return u64::MAX;
    }
    round_up(bytes).max(PAGE)
}

/// What the whole system needs at least, whose nodes need so much: whole pages, at least one, and at least one capability.
fn root_least(needed: Amount) -> Amount
    ensures { result ≡ amount (saturated (max 4096 (up needed.ram))) (max 1 needed.caps) }
{
    Amount {
        ram: whole_pages(needed.ram),
        caps: needed.caps.max(1),
    }
}

impl<'a> Leaves<'a> {
    /// What the whole system needs at least.
    pub fn of_root(&self, scenario: &Scenario) -> Least
        ensures { (all : model.System) → AreLeast all self.now.least.now self.now.endless.now
            → (result.ram ≡ (root_least_printed all scenario.now.nodes).ram)
            × (result.caps ≡ unless (children_endless all 0 scenario.now.nodes) (root_least_printed all scenario.now.nodes).caps) }
    {
        scenario.bounds();
        let (needed, _after) = least_of_children(scenario.nodes(), self.least, 0);
        let (endless, _after) = of_children(scenario.nodes(), self.endless, 0);
        least_of(root_least(needed), endless)
    }
}

/// Puts the lines of the root and of all nodes at the end of a text.
pub(crate) fn push_tree(
    alloc: Global,
    text: &mut Vec<u8>,
    scenario: &Scenario,
    leaves: &Leaves<'_>,
) -> Result<(), AllocError>
    ensures { (all : model.System) → AreLeast all leaves.now.least.now leaves.now.endless.now
        → OnOk result (text.new.items ≡ text.old.items
        ++ root_line scenario.now.version all scenario.now.total scenario.now.nodes
        ++ node_lines scenario.now.version all (codes "init") 0 scenario.now.nodes) }
{
    scenario.bounds();
    let version = scenario.version();
    push_node(
        text,
        version,
        b"init",
        scenario.total(),
        leaves.of_root(scenario),
    )?;
    push_nodes(alloc, text, version, b"init", scenario.nodes(), leaves, 0)?;
    Ok(())
}

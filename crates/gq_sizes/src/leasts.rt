// What each quantity of a scenario is at least, in numbers.
ghost use Rattle.std.specs.Prelude.{◌≡◌, ℕ, ◌+◌, ◌≤◌, ◌++◌, ◌∷◌, [], List, None, IfOk, IfErr, OnOk, get_or, map};
ghost use Rattle.gq_model.specs.machine.Accounts.{leaf_count};
ghost use Rattle.gq_model.specs.machine.Scenario as model;
ghost use Rattle.gq_model.specs.rules.Accept as accept;
ghost use Rattle.gq_load.specs.Load_faults.{PrintsFault};
ghost use Rattle.gq_load.specs.Unsized_judgement.{unsized_fault};
ghost use Rattle.gq_scenario.specs.Component_trees.{nodes_of};
ghost use Rattle.gq_scenario.specs.Without_quantities.{unsized};
ghost use Rattle.gq_sizes.specs.Judged_scenario.{fault_without};
ghost use Rattle.gq_sizes.specs.Endless.{children_endless, is_endless};
ghost use Rattle.gq_sizes.specs.Least.{shorts_of};
ghost use Rattle.gq_sizes.specs.Least_numbers.{at_least, interface_row, interface_rows, interfaces_least, nodes_least, nodes_row, root_least_printed};
ghost use Rattle.gq_sizes.specs.Passing.{endless_rows, tests};
ghost use Rattle.gq_sizes.specs.Saturated_tables.{AreLeast, caps_rows, ram_rows, row};
ghost use Rattle.gq_sizes.specs.Size.{Gift, least_caps, ram_sum};
ghost use Rattle.gq_verify.specs.Saturated_numbers.{saturated};

use crate::interface_lines::Sums;
use crate::least_quantities::{LeastFound, found_of};
use crate::node_lines::Leaves;
use crate::point_maxima::LEVELS;
pub use crate::quantity_lines::Least;
use crate::shorts::push_shorts;
use gq_load::load_fault::LoadError;
use gq_load::unsized_scenarios::{Unsized, judge_unsized};
use gq_program::Interfaces;
use gq_resolve::component::{Component, components};
use gq_scenario::scenario::{Node, Nodes, Scenario};
use gq_scenario::without_quantities::without_quantities;
use std::alloc::{AllocError, Global};

/// What each quantity of a scenario is at least. A number above 2^64 - 1 is kept as 2^64 - 1.
#[derive(Drop)]
pub struct Leasts {
    /// Of each interface, in the order of their names: its need, and its upgrades to levels 1 to 3.
    pub interfaces: Vec<[Least; LEVELS]>,
    /// Of each node in preorder, the root first.
    pub nodes: Vec<Least>,
    /// The lines of the `open` statements that give less than a session needs.
    pub shorts: Vec<u8>,
}

/// What each quantity of the interface at a place is at least.
fn least_interface(sums: &Sums, place: usize) -> [Least; LEVELS]
    ensures { (all : model.System) (given : List Gift) (e : List ℕ × model.Interface)
        → get_or sums.now.ram.items place [] ≡ row (ram_sum all given e.0 e.1)
        → get_or sums.now.caps.items place [] ≡ row (λ l. saturated (least_caps all e.0 l))
        → get_or sums.now.endless.items place [] ≡ tests (is_endless all e.0) → result ≡ interface_row all given e }
{
    [
        sums.least_need(place),
        sums.least_upgrade(place, 0),
        sums.least_upgrade(place, 1),
        sums.least_upgrade(place, 2),
    ]
}

/// What the quantities of interfaces are at least.
fn least_interfaces(
    alloc: Global,
    interfaces: &Interfaces,
    sums: &Sums,
) -> Result<Vec<[Least; LEVELS]>, AllocError>
    ensures { (all : model.System) (given : List Gift) → sums.now.ram.items ≡ ram_rows all given interfaces.now
        → sums.now.caps.items ≡ caps_rows all interfaces.now → sums.now.endless.items ≡ endless_rows all interfaces.now
        → IfOk result (λ l. l.items ≡ interface_rows all given interfaces.now) }
{
    let mut least = Vec::new(alloc);
    for (place, _entry) in interfaces.entries().iter().enumerate() {
        least.push(least_interface(sums, place))?;
    }
    Ok(least)
}

/// Puts what nodes need at least at the end, of which the first leaf has a number; and returns the number of the leaf after them.
#[cycle(nodes)]
fn push_nodes(
    least: &mut Vec<Least>,
    nodes: &Nodes,
    leaves: &Leaves<'_>,
    first: usize,
) -> Result<usize, AllocError>
    requires { first + leaf_count nodes.now ≤ 64 }
    ensures least { (all : model.System) → AreLeast all leaves.now.least.now leaves.now.endless.now
        → OnOk result (least.new.items ≡ least.old.items ++ nodes_row all first nodes.now) }
    ensures next { IfOk result (λ next. next ≡ first + leaf_count nodes.now) }
{
    let mut next = first;
    for node in nodes.nodes() {
        next = push_node(least, node, leaves, next)?;
    }
    Ok(next)
}

/// Puts what a node and those in it need at least at the end, of which the first leaf has a number; and returns the number of the leaf after it.
#[cycle(nodes)]
fn push_node(
    least: &mut Vec<Least>,
    node: &Node,
    leaves: &Leaves<'_>,
    first: usize,
) -> Result<usize, AllocError>
    requires { first + leaf_count (nodes_of (node.now ∷ [])) ≤ 64 }
    ensures least { (all : model.System) → AreLeast all leaves.now.least.now leaves.now.endless.now
        → OnOk result (least.new.items ≡ least.old.items ++ nodes_row all first (nodes_of (node.now ∷ []))) }
    ensures next { IfOk result (λ next. next ≡ first + leaf_count (nodes_of (node.now ∷ []))) }
{
    match node {
        Node::Leaf(_leaf) => {
            least.push(leaves.of_leaf(first))?;
            Ok(first + 1)
        }
        Node::Init(_init, children) => {
            least.push(leaves.of_init(children, first))?;
            push_nodes(least, children, leaves, first)
        }
    }
}

/// What each node of a scenario needs at least, the root first.
fn least_nodes(
    alloc: Global,
    scenario: &Scenario,
    found: &LeastFound,
) -> Result<Vec<Least>, AllocError>
    ensures { (all : model.System) → AreLeast all found.now.leaves.items found.now.endless.items
        → IfOk result (λ l. l.items ≡ at_least (root_least_printed all scenario.now.nodes) (children_endless all 0 scenario.now.nodes)
        ∷ nodes_row all 0 scenario.now.nodes) }
{
    scenario.bounds();
    let leaves = Leaves {
        least: found.leaves.as_slice(),
        endless: found.endless.as_slice(),
    };
    let mut least = Vec::new(alloc);
    least.push(leaves.of_root(scenario))?;
    push_nodes(&mut least, scenario.nodes(), &leaves, 0)?;
    Ok(least)
}

/// What each quantity of a scenario is at least, of which this is found without its quantities.
fn leasts_of(
    alloc: Global,
    scenario: &Scenario,
    free: &Scenario,
    components: &[Component<'_>],
    judged: &Unsized,
) -> Result<Leasts, AllocError>
    requires free { free.now ≡ unsized scenario.now }
    requires components { components.now ≡ model.components free.now }
    requires programs { judged.now.programs.items ≡ map (λ c. c.node.program) components.now }
    requires budgets { judged.now.budgets.items ≡ accept.budgets free.now }
    requires faultless { unsized_fault free.now ≡ None }
    ensures interfaces { IfOk result (λ l. l.interfaces.items ≡ interfaces_least scenario.now) }
    ensures nodes { IfOk result (λ l. l.nodes.items ≡ nodes_least scenario.now) }
    ensures shorts { IfOk result (λ l. l.shorts.items ≡ shorts_of scenario.now) }
{
    let found = found_of(alloc, free, components, judged)?;
    let interfaces = free.interfaces();
    let mut shorts = Vec::new(alloc);
    let programs = judged.programs.as_slice();
    push_shorts(&mut shorts, interfaces, &found.sums, components, programs)?;
    Ok(Leasts {
        interfaces: least_interfaces(alloc, scenario.interfaces(), &found.sums)?,
        nodes: least_nodes(alloc, scenario, &found)?,
        shorts,
    })
}

/// What each quantity of a scenario is at least, by this one without its quantities; or the first fault of this one.
fn leasts_without(alloc: Global, scenario: &Scenario, free: &Scenario) -> Result<Leasts, LoadError>
    requires { free.now ≡ unsized scenario.now }
    ensures interfaces { IfOk result (λ l. l.interfaces.items ≡ interfaces_least scenario.now) }
    ensures nodes { IfOk result (λ l. l.nodes.items ≡ nodes_least scenario.now) }
    ensures shorts { IfOk result (λ l. l.shorts.items ≡ shorts_of scenario.now) }
    ensures faultless { IfOk result (λ l. fault_without scenario.now ≡ None) }
    ensures refused { IfErr result (λ e. PrintsFault e (fault_without scenario.now)) }
{
    let components = components(alloc, free)?;
    let judged = judge_unsized(alloc, free, components.as_slice())?;
    Ok(leasts_of(alloc, scenario, free, components.as_slice(), &judged)?)
}

/// What each quantity of a scenario is at least, or its first fault that no quantity decides.
///
/// A scenario that has these numbers is the one with the least quantities (`is_sized`), and `size` prints them. In version 1 capabilities are not counted:
/// `size` prints none then, and the scenario has 0 of them, whatever the number here is.
pub fn least_quantities(alloc: Global, scenario: &Scenario) -> Result<Leasts, LoadError>
    ensures interfaces { IfOk result (λ l. l.interfaces.items ≡ interfaces_least scenario.now) }
    ensures nodes { IfOk result (λ l. l.nodes.items ≡ nodes_least scenario.now) }
    ensures shorts { IfOk result (λ l. l.shorts.items ≡ shorts_of scenario.now) }
    ensures faultless { IfOk result (λ l. fault_without scenario.now ≡ None) }
    ensures refused { IfErr result (λ e. PrintsFault e (fault_without scenario.now)) }
{
    let free = without_quantities(alloc, scenario)?;
    let least = leasts_without(alloc, scenario, &free);
    drop(free);
    least
}

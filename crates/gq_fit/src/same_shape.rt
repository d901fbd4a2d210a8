// Scenarios that are the same but for their quantities and programs.
ghost use Rattle.std.specs.Prelude.{◌≡◌, ◌∷◌, [], IsTrue, map};
ghost use Rattle.gq_model.specs.machine.Amounts.{Amount, amount};
ghost use Rattle.gq_scenario.specs.Component_trees.{nodes_of};
ghost use Rattle.gq_fit.specs.Refitted.{bare, bare_entry, bare_init, bare_interface, bare_leaf, bare_nodes};

use gq_model::program::Name;
use gq_program::{Interface, Upgrade};
use gq_scenario::scenario::{Init, Leaf, Node, Scenario};
use gq_sizes::same::{
    same_counts, same_name, same_names, same_numbers, same_offers, same_routes, same_version,
};

/// Whether two leaves are the same but for their quanta and programs.
fn same_leaf(a: &Leaf, b: &Leaf) -> bool
    ensures same { IsTrue result → bare_leaf a.now ≡ bare_leaf b.now }
    ensures only { bare_leaf a.now ≡ bare_leaf b.now → IsTrue result }
{
    same_name(a.name(), b.name())
        && same_names(a.provides(), b.provides())
        && same_names(a.after(), b.after())
        && same_numbers(a.inputs(), b.inputs())
        && a.signals() == b.signals()
        && same_routes(a.routes(), b.routes())
}

/// Whether two inits are the same but for their quanta.
fn same_init(a: &Init, b: &Init) -> bool
    ensures same { IsTrue result → bare_init a.now ≡ bare_init b.now }
    ensures only { bare_init a.now ≡ bare_init b.now → IsTrue result }
{
    same_name(a.name(), b.name())
        && same_routes(a.routes(), b.routes())
        && same_routes(a.default_routes(), b.default_routes())
        && same_offers(a.offers(), b.offers())
}

/// Whether nodes are the same but for their quanta and programs.
#[cycle(nodes)]
fn same_nodes(a: &[Node], b: &[Node]) -> bool
    ensures same { IsTrue result → bare_nodes (nodes_of a.now) ≡ bare_nodes (nodes_of b.now) }
    ensures only { bare_nodes (nodes_of a.now) ≡ bare_nodes (nodes_of b.now) → IsTrue result }
{
    match (a, b) {
        ([], []) => true,
        ([a, more @ ..], [b, others @ ..]) => same_node(a, b) && same_nodes(more, others),
        _ => false,
    }
}

/// Whether two nodes are the same but for the quanta and programs of them and of those in them.
#[cycle(nodes)]
fn same_node(a: &Node, b: &Node) -> bool
    ensures same { IsTrue result → bare_nodes (nodes_of (a.now ∷ [])) ≡ bare_nodes (nodes_of (b.now ∷ [])) }
    ensures only { bare_nodes (nodes_of (a.now ∷ [])) ≡ bare_nodes (nodes_of (b.now ∷ [])) → IsTrue result }
{
    match (a, b) {
        (Node::Leaf(a), Node::Leaf(b)) => same_leaf(a, b),
        (Node::Init(a, more), Node::Init(b, others)) => {
            same_init(a, b) && same_nodes(more.nodes(), others.nodes())
        }
        _ => false,
    }
}

/// Whether there are as many upgrades.
fn same_count(a: &[Upgrade], b: &[Upgrade]) -> bool
    ensures same { IsTrue result → map (λ (u : Amount). amount 0 0) a.now ≡ map (λ (u : Amount). amount 0 0) b.now }
    ensures only { map (λ (u : Amount). amount 0 0) a.now ≡ map (λ (u : Amount). amount 0 0) b.now → IsTrue result }
{
    match (a, b) {
        ([], []) => true,
        ([_, more @ ..], [_, others @ ..]) => same_count(more, others),
        _ => false,
    }
}

/// Whether two interfaces are the same but for what they ask.
fn same_interface(a: &Interface, b: &Interface) -> bool
    ensures same { IsTrue result → bare_interface a.now ≡ bare_interface b.now }
    ensures only { bare_interface a.now ≡ bare_interface b.now → IsTrue result }
{
    a.arg() == b.arg()
        && a.reply() == b.reply()
        && a.object() == b.object()
        && a.buffer() == b.buffer()
        && same_counts(a, b)
        && same_count(a.upgrades(), b.upgrades())
}

/// Whether two lists of interfaces are the same but for what these ask.
fn same_interfaces(a: &[(Name, Interface)], b: &[(Name, Interface)]) -> bool
    ensures same { IsTrue result → map bare_entry a.now ≡ map bare_entry b.now }
    ensures only { map bare_entry a.now ≡ map bare_entry b.now → IsTrue result }
{
    match (a, b) {
        ([], []) => true,
        ([(name, a), more @ ..], [(other, b), others @ ..]) => {
            same_name(name, other) && same_interface(a, b) && same_interfaces(more, others)
        }
        _ => false,
    }
}

/// Whether two scenarios are the same but for their quantities and programs.
pub(crate) fn same_shape(a: &Scenario, b: &Scenario) -> bool
    ensures same { IsTrue result → bare a.now ≡ bare b.now }
    ensures only { bare a.now ≡ bare b.now → IsTrue result }
{
    same_version(a.version(), b.version())
        && same_routes(a.default_routes(), b.default_routes())
        && same_interfaces(a.interfaces().entries(), b.interfaces().entries())
        && same_nodes(a.nodes().nodes(), b.nodes().nodes())
}

// What an init has left once its children are given theirs at the start.
ghost use Rattle.std.specs.Prelude.{◌≡◌, ◌-◌};
ghost use Rattle.gq_model.specs.machine.Amounts.{Ram, Caps};
ghost use Rattle.gq_model.specs.machine.Scenario as model;
ghost use Rattle.gq_model.specs.rules.Resolve.{handed_out};
ghost use Rattle.gq_scenario.specs.Component_trees.{before};

use gq_scenario::scenario::{Node, Nodes, Quantum};
use gq_tariff::Amount;

// This much less a quantum.
fn less(left: Amount, quantum: Quantum) -> Amount
    ensures ram { result.ram ≡ left.ram - quantum.ram }
    ensures caps { result.caps ≡ left.caps - quantum.caps }
{
    Amount {
        ram: left.ram.saturating_sub(quantum.ram()),
        caps: left.caps.saturating_sub(u64::from(quantum.caps())),
    }
}

// What is left of this much once a node has its quantum; a leaf that starts after another one gets nothing at the start.
fn left_by(left: Amount, node: &Node) -> Amount
    ensures ram { (rest : model.Nodes) → left.ram - handed_out Ram (before node.now rest) ≡ result.ram - handed_out Ram rest }
    ensures caps { (rest : model.Nodes) → left.caps - handed_out Caps (before node.now rest) ≡ result.caps - handed_out Caps rest }
{
    match node {
        Node::Leaf(leaf) => match leaf.after() {
            Some(_) => left,
            None => less(left, leaf.quantum()),
        },
        Node::Init(init, _) => less(left, init.quantum()),
    }
}

// What is left of a quantum once these children have theirs.
pub(crate) fn left_of(quantum: Quantum, children: &Nodes) -> Amount
    ensures ram { result.ram ≡ quantum.ram - handed_out Ram children.now }
    ensures caps { result.caps ≡ quantum.caps - handed_out Caps children.now }
{
    let mut left = Amount {
        ram: quantum.ram(),
        caps: u64::from(quantum.caps()),
    };
    for node in children.nodes() {
        left = left_by(left, node);
    }
    left
}

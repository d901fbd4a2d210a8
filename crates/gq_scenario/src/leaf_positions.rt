// Places of leaves among all nodes.
ghost use Rattle.std.specs.Prelude.{◌≡◌, ◌≤◌, ◌+◌, ◌++◌, IfOk, OnOk};
ghost use Rattle.gq_scenario.specs.Sizes.{node_count, leaf_places};

use crate::component_tree::{count_inits, count_leaves};
use crate::node_numbers::NodeNo;
use crate::scenario::{Node, Nodes, Scenario};
use std::alloc::{AllocError, Global};

// Puts the places of the leaves among these nodes at the end, of which the first node has this place. Reports the place after
// the last.
fn push_places(places: &mut Vec<NodeNo>, first: u32, nodes: &Nodes) -> Result<u32, AllocError>
    requires { first + node_count nodes.now ≤ 129 }
    ensures places { OnOk result (places.new.items ≡ places.old.items ++ leaf_places first nodes.now) }
    ensures next { IfOk result (λ next. next ≡ first + node_count nodes.now) }
{
    let mut place = first;
    for node in nodes.nodes() {
        match node {
            Node::Leaf(_leaf) => {
                places.push(NodeNo::new(place))?;
                place += 1;
            }
            Node::Init(_init, children) => {
                place = push_places(places, place + 1, children)?;
            }
        }
    }
    Ok(place)
}

impl Scenario {
    /// The number of its nodes, the root among them, at most 129.
    pub fn node_count(&self) -> usize
        ensures count { result ≡ 1 + node_count self.now.nodes }
        ensures few { result ≤ 129 }
    {
        self.laws();
        let leaves = count_leaves(self.nodes(), 0);
        let inits = count_inits(self.nodes(), 0);
        match (leaves, inits) {
            (Some(leaves), Some(inits)) => 1 + leaves + inits,
            _ => unreachable!(),
        }
    }

    /// The places of its leaves, in preorder, among all its nodes, of which the root's is 0. Refused only for want of host
    /// memory.
    pub fn leaf_nodes(&self, alloc: Global) -> Result<Vec<NodeNo>, AllocError>
        ensures { IfOk result (λ places. places.items ≡ leaf_places 1 self.now.nodes) }
    {
        self.bounds();
        let mut places = Vec::new(alloc);
        push_places(&mut places, 1, self.nodes())?;
        Ok(places)
    }
}

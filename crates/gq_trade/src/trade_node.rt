// What is known of a node beside its account.
ghost use Rattle.std.specs.Prelude.{◌≡◌, map, IfOk};
ghost use Rattle.gq_trade.specs.Balances.{handed};
ghost use Rattle.gq_trade.specs.Leaf_ends.{follower, waits_for};

use gq_tariff::Amount;
use std::alloc::{AllocError, Global};

/// Whether a node has its quantum.
#[derive(Clone, Copy)]
pub enum Stage {
    /// It starts after a leaf that has not ended, and has nothing.
    Pending,
    /// It has its quantum.
    Live,
    /// It has given its quantum back, and its account is closed.
    Ended,
}

/// A node: its quantum of bytes and capabilities, the node that it starts after, if there is one, and whether it has its quantum.
#[derive(Clone, Copy)]
pub struct NodeState {
    pub quantum: Amount,
    pub after: Option<usize>,
    pub stage: Stage,
}

impl NodeState {
    // What it has been handed and has not given back.
    fn handed(&self) -> Amount
        ensures { result ≡ handed self.now }
    {
        match self.stage {
            Stage::Live => self.quantum,
            Stage::Pending | Stage::Ended => Amount { ram: 0, caps: 0 },
        }
    }

    // Whether it is pending and starts after that node.
    fn waits_for(&self, node: usize) -> bool
        ensures { result ≡ waits_for node self.now }
    {
        match self.stage {
            Stage::Pending => match self.after {
                Some(after) => after == node,
                None => false,
            },
            Stage::Live | Stage::Ended => false,
        }
    }
}

// What each of these nodes has been handed.
pub(crate) fn handed_to(alloc: Global, nodes: &[NodeState]) -> Result<Vec<Amount>, AllocError>
    ensures { IfOk result (λ amounts. amounts.items ≡ map handed nodes.now) }
{
    let mut amounts = Vec::new(alloc);
    for node in nodes {
        amounts.push(node.handed())?;
    }
    Ok(amounts)
}

// The first of these nodes that is pending and starts after a node.
pub(crate) fn follower(nodes: &[NodeState], node: usize) -> Option<usize>
    ensures { result ≡ follower node nodes.now }
{
    for (number, other) in nodes.iter().enumerate() {
        if other.waits_for(node) {
            return Some(number);
        }
    }
    None
}

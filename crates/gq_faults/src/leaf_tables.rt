// Where the leaves of a scenario stand in its document.
// No contract: its results are places alone. Tests show them.
use crate::path::with_step;
use gq_scenario::key::Key;
use gq_scenario::scenario::{Node, Nodes};
use gq_toml_places::Step;
use std::alloc::{AllocError, Global};

/// The ways to the leaves among these nodes, in preorder, behind those that are there. The way leads to their init.
pub(crate) fn push_leaves(
    alloc: Global,
    leaves: &mut Vec<Vec<Step<'static>>>,
    way: &[Step<'static>],
    nodes: &Nodes,
) -> Result<(), AllocError> {
    let list = with_step(alloc, way, Step::Key(Key::Start.word()))?;
    for (index, node) in nodes.nodes().iter().enumerate() {
        let below = with_step(alloc, list.as_slice(), Step::Index(index))?;
        match node {
            Node::Leaf(_) => {
                leaves.push(below)?;
            }
            Node::Init(_, children) => push_leaves(alloc, leaves, below.as_slice(), children)?,
        }
    }
    Ok(())
}

/// The way to a key of the leaf of this number.
pub(crate) fn way_to(
    alloc: Global,
    leaves: &[Vec<Step<'static>>],
    leaf: usize,
    key: Key,
) -> Result<Vec<Step<'static>>, AllocError> {
    match leaves.get(leaf) {
        Some(way) => with_step(alloc, way.as_slice(), Step::Key(key.word())),
        None => Ok(Vec::new(alloc)),
    }
}

/// The way to the leaf of this number.
pub(crate) fn way_of(
    alloc: Global,
    leaves: &[Vec<Step<'static>>],
    leaf: usize,
) -> Result<Vec<Step<'static>>, AllocError> {
    match leaves.get(leaf) {
        Some(way) => Vec::from_slice(alloc, way.as_slice()),
        None => Ok(Vec::new(alloc)),
    }
}

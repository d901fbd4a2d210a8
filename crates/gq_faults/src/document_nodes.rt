// The nodes of a document, in preorder, each with the way to it.
ghost use Rattle.std.specs.Prelude.{◌≡◌, ◌++◌, IfOk, OnOk, map};
ghost use Rattle.toml.specs.View.{items_view, table_view, view};
ghost use Rattle.gq_scenario.specs.Table_keys.{listed};
ghost use Rattle.gq_faults.specs.Documents.{in_table, in_tables, nodes_below, nodes_in};
ghost use Rattle.gq_faults.specs.Document_nodes.{node_of};

use gq_model::limits::GREATEST_NODE_DEPTH;
use gq_reader::value::list_at;
use gq_scenario::key::Key;
use gq_toml_places::Step;
use std::alloc::{AllocError, Global};
use toml::{Table, Value};

// A node has as many indices as it is deep.
const DEEPEST: usize = GREATEST_NODE_DEPTH + 1;

/// Where a node stands: its number in the list of each level above it and of its own.
#[derive(Clone, Copy)]
pub(crate) struct NodePath {
    indices: [usize; DEEPEST],
    depth: usize,
}

impl NodePath {
    /// That of the root.
    pub fn root() -> NodePath {
        NodePath {
            indices: [0; DEEPEST],
            depth: 0,
        }
    }

    /// That of the node of this number below it.
    pub fn below(self, index: usize) -> NodePath {
        let mut indices = self.indices;
        if self.depth < DEEPEST {
            indices[self.depth] = index;
        }
        NodePath {
            indices,
            depth: self.depth.saturating_add(1),
        }
    }

    /// The way to it.
    pub fn way(self, alloc: Global) -> Result<Vec<Step<'static>>, AllocError> {
        let mut way = Vec::new(alloc);
        for index in self.indices.iter().take(self.depth) {
            way.push(Step::Key(Key::Start.word()))?;
            way.push(Step::Index(*index))?;
        }
        Ok(way)
    }
}

/// The table of a node, and whether it is too deep.
#[derive(Clone, Copy)]
pub(crate) struct NodeAt<'d> {
    pub table: &'d Table,
    pub is_deep: bool,
    pub place: NodePath,
}

// Puts these nodes and those below them at the end, down to so many levels and one more.
#[cycle(nodes)]
fn push_nodes<'d>(
    nodes: &mut Vec<NodeAt<'d>>,
    levels: usize,
    values: &'d [Value],
    place: NodePath,
) -> Result<(), AllocError>
    ensures { OnOk result (map node_of nodes.new.items ≡ map node_of nodes.old.items ++ in_tables (nodes_below levels) (listed (items_view values.now))) }
{
    for (index, value) in values.iter().enumerate() {
        push_value(nodes, levels, value, place.below(index))?;
    }
    Ok(())
}

// Puts a node and those below it at the end, where it is a table.
#[cycle(nodes)]
fn push_value<'d>(
    nodes: &mut Vec<NodeAt<'d>>,
    levels: usize,
    value: &'d Value,
    place: NodePath,
) -> Result<(), AllocError>
    ensures { OnOk result (map node_of nodes.new.items ≡ map node_of nodes.old.items ++ in_table (nodes_below levels) (view value.now)) }
{
    match value.as_table() {
        Some(table) => push_node(nodes, levels, table, place),
        None => Ok(()),
    }
}

// Puts a node and those below it at the end.
#[cycle(nodes)]
fn push_node<'d>(
    nodes: &mut Vec<NodeAt<'d>>,
    levels: usize,
    table: &'d Table,
    place: NodePath,
) -> Result<(), AllocError>
    ensures { OnOk result (map node_of nodes.new.items ≡ map node_of nodes.old.items ++ nodes_below levels (table_view table.now)) }
{
    nodes.push(NodeAt {
        table,
        is_deep: levels == 0,
        place,
    })?;
    if levels == 0 {
        return Ok(());
    }
    push_nodes(nodes, levels - 1, list_at(table, Key::Start), place)
}

/// The nodes of a top table.
pub(crate) fn nodes_in<'d>(alloc: Global, top: &'d Table) -> Result<Vec<NodeAt<'d>>, AllocError>
    ensures { IfOk result (λ nodes. map node_of nodes.items ≡ nodes_in (table_view top.now)) }
{
    let mut nodes = Vec::new(alloc);
    push_nodes(
        &mut nodes,
        GREATEST_NODE_DEPTH,
        list_at(top, Key::Start),
        NodePath::root(),
    )?;
    Ok(nodes)
}

// Counts and names of a tree of components.
ghost use Rattle.std.specs.Prelude.{◌≡◌, ◌≤◌, ◌+◌, ◌++◌, ◌∷◌, [], ◌||◌, OnOk, IfOk, IfErr, slice_get, option_map, codes, Some, None};
ghost use Rattle.gq_model.specs.machine.Accounts.{leaf_count};
ghost use Rattle.gq_model.specs.machine.Lists.{any_of};
ghost use Rattle.gq_model.specs.machine.Program.{text_eq};
ghost use Rattle.gq_scenario.specs.Document.{init_count, is_long, has_long_routes, names_of, name_twice};
ghost use Rattle.gq_scenario.specs.Sizes.{leaves_in, counted};
ghost use Rattle.gq_scenario.specs.Fault_words.{SameFault};

use crate::scenario::{Leaf, Node, Nodes, Route};
use crate::scenario_fault::ScenarioFault;
use gq_model::limits::GREATEST_LEAVES;
use gq_model::program::Name;
use gq_model::spelling::same_text;
use std::alloc::AllocError;

/// The greatest number of leaves of a scenario, of inits below the root, of interfaces, and of routes in a list.
pub const GREATEST_COUNT: usize = GREATEST_LEAVES;

/// The number of leaves of these nodes and of those before them, where they are not too many.
pub fn count_leaves(nodes: &Nodes, before: usize) -> Option<usize>
    requires { before ≤ 64 }
    ensures { result ≡ counted (before + leaf_count nodes.now) }
{
    let mut count = before;
    for node in nodes.nodes() {
        match node {
            Node::Leaf(_) => {
                if count == GREATEST_COUNT {
                    return None;
                }
                count += 1;
            }
            Node::Init(_, children) => {
                count = count_leaves(children, count)?;
            }
        }
    }
    Some(count)
}

/// The number of inits of these nodes and of those before them, where they are not too many.
pub fn count_inits(nodes: &Nodes, before: usize) -> Option<usize>
    requires { before ≤ 64 }
    ensures { result ≡ counted (before + init_count nodes.now) }
{
    let mut count = before;
    for node in nodes.nodes() {
        if let Node::Init(_, children) = node {
            if count == GREATEST_COUNT {
                return None;
            }
            count = count_inits(children, count + 1)?;
        }
    }
    Some(count)
}

/// The leaf at a place among the leaves of these nodes, or how many places are left after them.
pub fn leaf_from(nodes: &Nodes, place: usize) -> Result<&Leaf, usize>
    ensures found { IfOk result (λ leaf. slice_get (leaves_in nodes.now) place ≡ Some leaf.now) }
    ensures left { IfErr result (λ left. left + leaf_count nodes.now ≡ place) }
{
    let mut left = place;
    for node in nodes.nodes() {
        match node {
            Node::Leaf(leaf) => {
                if left == 0 {
                    return Ok(leaf);
                }
                left -= 1;
            }
            Node::Init(_, children) => match leaf_from(children, left) {
                Ok(leaf) => return Ok(leaf),
                Err(rest) => left = rest,
            },
        }
    }
    Err(left)
}

/// Whether routes are reported, and too many.
pub fn is_long(routes: Option<&[Route]>) -> bool
    ensures { result ≡ is_long (option_map (λ r. r.now) routes.entry) }
{
    match routes {
        Some(routes) => routes.len() > GREATEST_COUNT,
        None => false,
    }
}

/// Whether a list of routes of these nodes is too long.
pub fn has_long_routes(nodes: &Nodes) -> bool
    ensures { result ≡ has_long_routes nodes.now }
{
    for node in nodes.nodes() {
        let long = match node {
            Node::Leaf(leaf) => is_long(leaf.routes()),
            Node::Init(init, children) => {
                is_long(init.routes())
                    || is_long(init.default_routes())
                    || has_long_routes(children)
            }
        };
        if long {
            return true;
        }
    }
    false
}

/// The same name.
pub fn copied(name: &Name) -> Name
    ensures { result ≡ name.now }
{
    name.copied()
}

/// Puts the names of these nodes at the end, in preorder.
pub fn push_names(names: &mut Vec<Name>, nodes: &Nodes) -> Result<(), AllocError>
    ensures { OnOk result (names.new.items ≡ names.old.items ++ names_of nodes.now) }
{
    for node in nodes.nodes() {
        match node {
            Node::Leaf(leaf) => names.push(copied(leaf.name()))?,
            Node::Init(init, children) => {
                names.push(copied(init.name()))?;
                push_names(names, children)?;
            }
        }
    }
    Ok(())
}

// Whether a name is the root's, or one of these.
fn is_taken(names: &[Name], name: &[u8]) -> bool
    ensures { result ≡ (any_of (text_eq name.now) names.now || text_eq name.now (codes "init")) }
{
    for other in names {
        if same_text(name, other.as_bytes()) {
            return true;
        }
    }
    same_text(name, b"init")
}

/// The first of these names that was seen before, of which `init` is the root's.
pub fn name_twice(names: &[Name]) -> Option<ScenarioFault>
    ensures { SameFault result (name_twice (codes "init" ∷ []) names.now) }
{
    for (place, name) in names.iter().enumerate() {
        if is_taken(&names[..place], name.as_bytes()) {
            return Some(ScenarioFault::NameTwice(copied(name)));
        }
    }
    None
}

// The leaves of a scenario, each with all that bears on its steps.
ghost use Rattle.std.specs.Prelude.{◌≡◌, ◌++◌, ◌∷◌, [], OnOk, IfOk, codes, option_map};
ghost use Rattle.gq_model.specs.machine.Scenario as model;
ghost use Rattle.gq_model.specs.machine.Scenario.{below, first_there, level, components_of, components};

use crate::routing::Level;
use gq_model::program::Name;
use gq_scenario::scenario::{Leaf, Node, Nodes, Route, Scenario};
use std::alloc::{AllocError, Global};
use std::marker::Model;

/// A leaf with its label and its levels, its own init's first.
#[derive(Drop)]
pub struct Component<'a> {
    label: Vec<u8>,
    leaf: &'a Leaf,
    levels: Vec<Level<'a>>,
}

impl<'a> Model for Component<'a> {
    ghost use Rattle.std.specs.Coded.{codes};
    ghost use Rattle.gq_model.specs.machine.Scenario.{Component};
    ghost use Rattle.gq_model.specs.internal.Stored.{statements_code, nodes_code};

    ghost Value = { Component };

    ghost coded = { Prim.hlevel (
      codes,
      statements_code (Prim.hlevel codes),
      nodes_code (Prim.hlevel (codes, statements_code (Prim.hlevel codes))) (Prim.hlevel codes),
    ) };

    ghost view = { λ c. record { label = c.label.items; node = c.leaf.now; levels = c.levels.items } };
}

impl<'a> Component<'a> {
    /// Its label: the names from the root's down, joined by arrows.
    pub fn label(&self) -> &[u8]
        ensures { result.now ≡ self.now.label }
    {
        self.label.as_slice()
    }

    /// The leaf.
    pub fn leaf(&self) -> &'a Leaf
        ensures { result.now ≡ self.now.node }
    {
        self.leaf
    }

    /// Its levels, its own init's first.
    pub fn levels(&self) -> &[Level<'a>]
        ensures { result.now ≡ self.now.levels }
    {
        self.levels.as_slice()
    }
}

// The label of what bears this name below.
fn below(alloc: Global, label: &[u8], name: &Name) -> Result<Vec<u8>, AllocError>
    ensures { IfOk result (λ l. l.items ≡ below label.now name.now) }
{
    let mut longer = Vec::new(alloc);
    longer.extend_from_slice(label)?;
    longer.extend_from_slice(b" -> ")?;
    longer.extend_from_slice(name.as_bytes())?;
    Ok(longer)
}

// The routes of a child: its own, else the default of its init.
fn first_there<'a>(routes: Option<&'a [Route]>, default_routes: Option<&'a [Route]>) -> &'a [Route]
    ensures { result.now ≡ first_there (option_map (λ r. r.now) routes.entry) (option_map (λ r. r.now) default_routes.entry) }
{
    match (routes, default_routes) {
        (Some(routes), _) => routes,
        (None, Some(routes)) => routes,
        (None, None) => &[],
    }
}

// A level before those above it.
fn onto<'a>(
    alloc: Global,
    level: Level<'a>,
    above: &[Level<'a>],
) -> Result<Vec<Level<'a>>, AllocError>
    ensures { IfOk result (λ l. l.items ≡ level.entry ∷ above.now) }
{
    let mut levels = Vec::new(alloc);
    levels.push(level)?;
    for upper in above {
        levels.push(upper.same())?;
    }
    Ok(levels)
}

// The label and the levels of a child of this name, with these routes.
fn placed<'a>(
    alloc: Global,
    label: &[u8],
    name: &Name,
    level: Level<'a>,
    above: &[Level<'a>],
) -> Result<(Vec<u8>, Vec<Level<'a>>), AllocError>
    ensures label { IfOk result (λ p. p.0.items ≡ below label.now name.now) }
    ensures levels { IfOk result (λ p. p.1.items ≡ level.entry ∷ above.now) }
{
    let levels = onto(alloc, level, above)?;
    match below(alloc, label, name) {
        Ok(label) => Ok((label, levels)),
        Err(refused) => Err(refused),
    }
}

// Puts a leaf at the end.
fn push_leaf<'a>(
    alloc: Global,
    components: &mut Vec<Component<'a>>,
    label: &[u8],
    level: Level<'a>,
    above: &[Level<'a>],
    leaf: &'a Leaf,
) -> Result<(), AllocError>
    ensures { OnOk result (components.new.items ≡ components.old.items
        ++ record { label = below label.now leaf.now.name; node = leaf.now; levels = level.entry ∷ above.now } ∷ []) }
{
    let (label, levels) = placed(alloc, label, leaf.name(), level, above)?;
    components.push(Component {
        label,
        leaf,
        levels,
    })?;
    Ok(())
}

// Puts the leaves of these children of an init at the end, in preorder.
fn push_components<'a>(
    alloc: Global,
    components: &mut Vec<Component<'a>>,
    label: &[u8],
    default_routes: Option<&'a [Route]>,
    above: &[Level<'a>],
    siblings: &'a Nodes,
) -> Result<(), AllocError>
    ensures { OnOk result (components.new.items ≡ components.old.items
        ++ components_of label.now (option_map (λ r. r.now) default_routes.entry) siblings.now above.now siblings.now) }
{
    for node in siblings.nodes() {
        match node {
            Node::Leaf(leaf) => {
                let level = Level::new(first_there(leaf.routes(), default_routes), siblings);
                push_leaf(alloc, components, label, level, above, leaf)?;
            }
            Node::Init(init, children) => {
                let level = Level::new(first_there(init.routes(), default_routes), siblings);
                let (label, levels) = placed(alloc, label, init.name(), level, above)?;
                let defaults = init.default_routes();
                push_components(
                    alloc,
                    components,
                    label.as_slice(),
                    defaults,
                    levels.as_slice(),
                    children,
                )?;
            }
        }
    }
    Ok(())
}

/// The leaves of a scenario in preorder, each with its label and its levels. Refused only if the host refuses memory.
pub fn components(alloc: Global, scenario: &Scenario) -> Result<Vec<Component<'_>>, AllocError>
    ensures { IfOk result (λ c. c.items ≡ components scenario.now) }
{
    let mut components = Vec::new(alloc);
    let routes = scenario.default_routes();
    push_components(
        alloc,
        &mut components,
        b"init",
        routes,
        &[],
        scenario.nodes(),
    )?;
    Ok(components)
}

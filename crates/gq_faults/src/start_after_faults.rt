// Leaves that may not start after the one that they name.
ghost use Rattle.std.specs.Prelude.{◌≡◌, ◌++◌, [], OnOk, map};
ghost use Rattle.gq_model.specs.rules.Resolve.{Bad_after};
ghost use Rattle.gq_model.specs.rules.Resolve as model;
ghost use Rattle.gq_model.specs.texts.Fault_texts.{unresolved_text};
ghost use Rattle.gq_resolve.specs.internal.Afters.{named_by};
ghost use Rattle.gq_faults.specs.Found_lists.{when};
ghost use Rattle.gq_faults.specs.Scenario_faults.{after_faults};
ghost use Rattle.gq_faults.specs.Found_lines.{lines_found};

use crate::fault_value::{BadAfter, Detail, FaultPart, FoundFault, push_fault};
use crate::leaf_tables::way_to;
use crate::meant::Nearest;
use gq_load::load_fault::LoadFault;
use gq_model::program::Name;
use gq_model::spelling::same_text;
use gq_resolve::component::Component;
use gq_resolve::resolve_fault::ResolveFault;
use gq_resolve::start_after::is_bad_after;
use gq_scenario::key::Key;
use gq_scenario::scenario::{Leaf, Node};
use gq_toml_places::Step;
use std::alloc::{AllocError, Global};

/// Whether two names are the same.
pub(crate) fn is_same(a: &Name, b: &Name) -> bool {
    same_text(a.as_bytes(), b.as_bytes())
}

// The leaf of this name beside a component.
fn sibling<'a>(name: &Name, component: &Component<'a>) -> Option<&'a Leaf> {
    let level = component.levels().first()?;
    for node in level.siblings().nodes() {
        if let Node::Leaf(leaf) = node {
            if is_same(name, leaf.name()) {
                return Some(leaf);
            }
        }
    }
    None
}

// The leaves beside a component with names like this one.
fn near_siblings(
    alloc: Global,
    name: &Name,
    component: &Component<'_>,
) -> Result<Vec<Name>, AllocError> {
    let mut nearest = Nearest::new(alloc);
    if let Some(level) = component.levels().first() {
        for node in level.siblings().nodes() {
            if let Node::Leaf(leaf) = node {
                nearest.compare(name.as_bytes(), leaf.name().as_bytes())?;
            }
        }
    }
    Ok(nearest.names())
}

// The first of these leaves that starts after the leaf of this name.
fn earlier_after<'c>(name: &Name, earlier: &'c [Component<'_>]) -> Option<&'c Name> {
    for component in earlier {
        let leaf = component.leaf();
        if let Some(after) = leaf.after() {
            if is_same(name, after) {
                return Some(leaf.name());
            }
        }
    }
    None
}

// What the leaf of this name starts after.
fn after_of<'a>(name: &Name, components: &[Component<'a>]) -> Option<&'a Name> {
    for component in components {
        if is_same(name, component.leaf().name()) {
            return component.leaf().after();
        }
    }
    None
}

// The names from a leaf round to itself, by what each starts after; none where the way does not lead back.
fn round(
    alloc: Global,
    components: &[Component<'_>],
    leaf: &Leaf,
) -> Result<Option<Vec<Name>>, AllocError> {
    let mut names = Vec::new(alloc);
    names.push(leaf.name().copied())?;
    let mut next = leaf.after();
    for _step in 0..components.len() {
        let Some(name) = next else {
            return Ok(None);
        };
        names.push(name.copied())?;
        if is_same(name, leaf.name()) {
            return Ok(Some(names));
        }
        next = after_of(name, components);
    }
    Ok(None)
}

// Why one of two leaves may not start after the other, whatever the others are.
fn unfit(before: &Leaf, leaf: &Leaf) -> Option<BadAfter> {
    if leaf.provides().is_some() {
        return Some(BadAfter::Provides(leaf.name().copied()));
    }
    if before.provides().is_some() {
        return Some(BadAfter::Provides(before.name().copied()));
    }
    if before.signals() > 0 {
        return Some(BadAfter::Signals(before.name().copied(), before.signals()));
    }
    None
}

// Why a leaf may not be handed what the one before it had.
fn too_much(before: &Leaf, leaf: &Leaf) -> Option<BadAfter> {
    let (own, named) = (leaf.quantum(), before.quantum());
    if own.ram() > named.ram() {
        return Some(BadAfter::Quantum {
            own: own.ram(),
            named: named.ram(),
        });
    }
    if own.caps() > named.caps() {
        return Some(BadAfter::Caps {
            own: own.caps(),
            named: named.caps(),
        });
    }
    None
}

// Why a component may not start after the leaf that it names: the first reason.
fn cause(
    alloc: Global,
    all: &[Component<'_>],
    earlier: &[Component<'_>],
    component: &Component<'_>,
    name: &Name,
) -> Result<Option<BadAfter>, AllocError> {
    let leaf = component.leaf();
    let Some(before) = sibling(name, component) else {
        let near = near_siblings(alloc, name, component)?;
        return Ok(Some(BadAfter::NoLeaf(name.copied(), near)));
    };
    if let Some(cause) = unfit(before, leaf) {
        return Ok(Some(cause));
    }
    if let Some(first) = earlier_after(name, earlier) {
        return Ok(Some(BadAfter::Taken {
            earlier: first.copied(),
            named: name.copied(),
        }));
    }
    if let Some(cause) = too_much(before, leaf) {
        return Ok(Some(cause));
    }
    match round(alloc, all, leaf)? {
        Some(names) => Ok(Some(BadAfter::Round(names))),
        None => Ok(None),
    }
}

// Why a component may not start after the leaf that it names, as a detail.
fn detail_of(
    alloc: Global,
    all: &[Component<'_>],
    earlier: &[Component<'_>],
    component: &Component<'_>,
) -> Result<Detail<'static>, AllocError> {
    let Some(name) = component.leaf().after() else {
        return Ok(Detail::Nothing);
    };
    match cause(alloc, all, earlier, component, name)? {
        Some(why) => Ok(Detail::After(why)),
        None => Ok(Detail::Nothing),
    }
}

// A component that may not start after the leaf that it names, at the end of what was found.
fn push_bad(
    alloc: Global,
    found: &mut Vec<FoundFault<'_>>,
    all: &[Component<'_>],
    earlier: &[Component<'_>],
    component: &Component<'_>,
    leaves: &[Vec<Step<'static>>],
) -> Result<(), AllocError>
    ensures { OnOk result (lines_found found.new.items ≡ lines_found found.old.items ++ map unresolved_text
        (when (model.is_bad_after all.now (named_by [] earlier.now) component.now component.now.node.after) (Bad_after component.now.node.name))) }
{
    if !is_bad_after(all, earlier, component) {
        return Ok(());
    }
    let fault = LoadFault::Resolve(ResolveFault::BadAfter(component.leaf().name().copied()));
    let way = way_to(alloc, leaves, earlier.len(), Key::After)?;
    let detail = detail_of(alloc, all, earlier, component)?;
    push_fault(alloc, found, &fault, way, FaultPart::Key, detail)
}

/// Each leaf, in preorder, that may not start after the one that it names.
pub(crate) fn push_after(
    alloc: Global,
    found: &mut Vec<FoundFault<'_>>,
    components: &[Component<'_>],
    leaves: &[Vec<Step<'static>>],
) -> Result<(), AllocError>
    ensures { OnOk result (lines_found found.new.items
        ≡ lines_found found.old.items ++ map unresolved_text (after_faults components.now [] components.now)) }
{
    for (place, component) in components.iter().enumerate() {
        push_bad(
            alloc,
            found,
            components,
            &components[..place],
            component,
            leaves,
        )?;
    }
    Ok(())
}

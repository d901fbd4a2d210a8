// Leaves that start after others.
ghost use Rattle.std.specs.Prelude.{◌≡◌, ◌<◌, [], Some, length, option_map};
ghost use Rattle.gq_model.specs.machine.Lists.{any_of};
ghost use Rattle.gq_model.specs.machine.Program.{text_eq};
ghost use Rattle.gq_model.specs.rules.Resolve.{leaf_child, sibling, unfit, unfit_after, after_of, leads_back, is_bad_after, after_fault};
ghost use Rattle.gq_resolve.specs.internal.Afters.{named_by, is_named};
ghost use Rattle.gq_resolve.specs.Resolve_faults.{refused};

use crate::component::Component;
use crate::resolve_fault::ResolveFault;
use crate::routing::Level;
use gq_model::program::Name;
use gq_model::spelling::same_text;
use gq_scenario::component_tree::copied;
use gq_scenario::scenario::{Leaf, Node, Nodes};

// The leaf of this name among these nodes.
fn leaf_child<'a>(name: &Name, nodes: &'a Nodes) -> Option<&'a Leaf>
    ensures { option_map (λ l. l.now) result ≡ leaf_child name.now nodes.now }
{
    for node in nodes.nodes() {
        if let Node::Leaf(leaf) = node {
            if same_text(name.as_bytes(), leaf.name().as_bytes()) {
                return Some(leaf);
            }
        }
    }
    None
}

// The leaf of this name beside a component.
fn sibling<'a>(name: &Name, levels: &[Level<'a>]) -> Option<&'a Leaf>
    ensures { option_map (λ l. l.now) result ≡ sibling name.now levels.now }
{
    match levels {
        [level, ..] => leaf_child(name, level.siblings()),
        [] => None,
    }
}

// Whether one of two leaves provides a service, the first has signals, so that it never ends, or the second's quantum is greater.
fn unfit(before: &Leaf, leaf: &Leaf) -> bool
    ensures { result ≡ unfit before.now leaf.now }
{
    before.provides().is_some()
        || before.signals() > 0
        || leaf.provides().is_some()
        || before.quantum().ram() < leaf.quantum().ram()
        || before.quantum().caps() < leaf.quantum().caps()
}

// Whether there is no leaf before, or it does not fit.
fn unfit_after(before: Option<&Leaf>, leaf: &Leaf) -> bool
    ensures { result ≡ unfit_after (option_map (λ l. l.now) before.entry) leaf.now }
{
    match before {
        Some(before) => unfit(before, leaf),
        None => true,
    }
}

// What the leaf of this name starts after.
fn after_of<'a>(name: &Name, components: &[Component<'a>]) -> Option<&'a Name>
    ensures { option_map (λ n. n.now) result ≡ after_of name.now components.now }
{
    for component in components {
        if same_text(name.as_bytes(), component.leaf().name().as_bytes()) {
            return component.leaf().after();
        }
    }
    None
}

// Whether by names that are started after the goal is reached from this one.
fn leads_back<'a>(components: &[Component<'a>], goal: &Name, first: &'a Name) -> bool
    ensures { result ≡ leads_back (length components.now) components.now goal.now (Some first.now) }
{
    let mut next = Some(first);
    for _step in 0..components.len() {
        match next {
            None => return false,
            Some(name) => {
                if same_text(name.as_bytes(), goal.as_bytes()) {
                    return true;
                }
                next = after_of(name, components);
            }
        }
    }
    false
}

// Whether one of these starts after the leaf of this name.
fn is_named(name: &Name, components: &[Component<'_>]) -> bool
    ensures { result ≡ is_named (text_eq name.now) components.now }
{
    for component in components {
        if let Some(after) = component.leaf().after() {
            if same_text(name.as_bytes(), after.as_bytes()) {
                return true;
            }
        }
    }
    false
}

// Whether this name is among those that these start after, the last of them first.
fn is_taken(name: &Name, earlier: &[Component<'_>]) -> bool
    ensures { result ≡ any_of (text_eq name.now) (named_by [] earlier.now) }
{
    is_named(name, earlier)
}

/// Whether a component of all these may not start after the leaf that it names, where those before it in preorder are the earlier ones.
pub fn is_bad_after(
    all: &[Component<'_>],
    earlier: &[Component<'_>],
    component: &Component<'_>,
) -> bool
    ensures { result ≡ is_bad_after all.now (named_by [] earlier.now) component.now component.now.node.after }
{
    let leaf = component.leaf();
    match leaf.after() {
        Some(name) => {
            unfit_after(sibling(name, component.levels()), leaf)
                || is_taken(name, earlier)
                || leads_back(all, leaf.name(), name)
        }
        None => false,
    }
}

/// Whether each leaf may start after the one that it names. The components are those of a scenario, in preorder.
///
/// - That one is a leaf of the same init, and no earlier leaf names it.
/// - None of the two provides a service.
/// - That one has at least as many bytes and capabilities.
/// - The leaf does not come after itself.
///
/// Refuses the first leaf of which that does not hold, `BadAfter`.
pub fn check_after(components: &[Component<'_>]) -> Result<(), ResolveFault>
    ensures { refused result ≡ after_fault components.now [] components.now }
{
    for (place, component) in components.iter().enumerate() {
        if is_bad_after(components, &components[..place], component) {
            return Err(ResolveFault::BadAfter(copied(component.leaf().name())));
        }
    }
    Ok(())
}

// Leaves and inits for which no number of capabilities is enough.
ghost use Rattle.std.specs.Prelude.{◌≡◌, ◌+◌, ◌≤◌, ◌<◌, ◌∷◌, [], false, Some, IfOk, get_or, length, map, slice_get};
ghost use Rattle.gq_model.specs.machine.Accounts.{leaf_count};
ghost use Rattle.gq_model.specs.machine.Scenario as model;
ghost use Rattle.gq_model.specs.rules.Use.{subject};
ghost use Rattle.gq_model.specs.machine.Lists.{any_of};
ghost use Rattle.gq_model.specs.declared.section.Section.TheVariants.{Main};
ghost use Rattle.gq_scenario.specs.Component_trees.{nodes_of};
ghost use Rattle.gq_sizes.specs.Endless.{endless_at};
ghost use Rattle.gq_sizes.specs.Endless.{at_start, children_endless, leads, leaf_endless};
ghost use Rattle.gq_sizes.specs.Passing.{AreEndless, endless_from, endless_owns, passing};
ghost use Rattle.gq_sizes.specs.Size.{section_points};

use crate::endless::Sessions;
use crate::leaf_needs::starts_after;
use gq_program::{Instruction, Section};
use gq_resolve::component::Component;
use gq_rules::{AbstractState, Context};
use gq_scenario::scenario::{Leaf, Node, Nodes};
use gq_verify::{Verified, Visitor};
use std::alloc::{AllocError, Global};

/// Whether a slot of a leaf's own has a link to a session that passes.
#[derive(Drop)]
struct Owned<'a> {
    sessions: &'a Sessions<'a>,
    found: bool,
}

impl<'a> Visitor for Owned<'a> {
    ghost use Rattle.std.specs.Prelude.{◌≡◌};
    ghost use Rattle.gq_model.specs.machine.Lists.{any_of};
    ghost use Rattle.gq_sizes.specs.Endless.{leads};
    ghost use Rattle.gq_sizes.specs.Passing.{found_by, passing};

    ghost leads = { λ a e b. (b.sessions ≡ a.sessions)
        × (b.found ≡ found_by (λ s. any_of (leads (passing a.sessions.now.interfaces.now a.sessions.now.tests.now)) s.own) a.found e) };

    fn statement(
        &mut self,
        _context: &Context<'_>,
        _state: &AbstractState,
        _instruction: &Instruction,
    ) {}

    fn point(&mut self, _number: u64, state: &AbstractState) {
        let held = self.sessions.held(state.own());
        self.found |= held;
    }
}

/// Whether a slot of a leaf's own has a link to a session that passes, at some point of `main`.
fn own_holds(verified: &Verified<'_>, sessions: &Sessions<'_>) -> bool
    ensures { result
        ≡ any_of (λ s. any_of (leads (passing sessions.now.interfaces.now sessions.now.tests.now)) s.own) (section_points verified.now Main) }
{
    let mut visitor = Owned {
        sessions,
        found: false,
    };
    verified.visit(Section::Main, &mut visitor);
    visitor.found
}

/// Of each leaf, whether a slot of its own has a link to a session that passes: one for which no number of capabilities is enough.
pub(crate) fn endless_owns(
    alloc: Global,
    leaves: &[Verified<'_>],
    sessions: &Sessions<'_>,
) -> Result<Vec<bool>, AllocError>
    ensures { (all : model.System) → leaves.now ≡ map (subject all) all.components
        → AreEndless all (passing sessions.now.interfaces.now sessions.now.tests.now)
        → IfOk result (λ o. o.items ≡ endless_owns all all.components) }
{
    let mut owns = Vec::new(alloc);
    for verified in leaves {
        owns.push(own_holds(verified, sessions))?;
    }
    Ok(owns)
}

/// The entry of the leaf of a number; false where there is none.
pub(crate) fn is_at(endless: &[bool], leaf: usize) -> bool
    ensures { result ≡ get_or endless.now leaf false }
{
    match endless.get(leaf) {
        Some(found) => *found,
        None => false,
    }
}

/// Whether no number of capabilities is enough for a leaf: for itself, or for one that starts after it, along at most so many starts.
fn is_along(components: &[Component<'_>], owns: &[bool], leaf: usize, starts: usize) -> bool
    requires { leaf < length components.now }
    ensures { (all : model.System) (c : model.Component) → components.now ≡ all.components → owns.now ≡ endless_owns all all.components
        → slice_get components.now leaf ≡ Some c → result ≡ leaf_endless starts all c }
{
    if is_at(owns, leaf) {
        return true;
    }
    if starts == 0 {
        return false;
    }
    match starts_after(components, components[leaf].leaf().name().as_bytes()) {
        Some(next) => is_along(components, owns, next, starts - 1),
        None => false,
    }
}

/// Of each leaf, whether no number of capabilities is enough for it.
pub(crate) fn endless_leaves(
    alloc: Global,
    components: &[Component<'_>],
    owns: &[bool],
) -> Result<Vec<bool>, AllocError>
    ensures { (all : model.System) → components.now ≡ all.components → owns.now ≡ endless_owns all all.components
        → IfOk result (λ l. l.items ≡ endless_from all 0 all.components) }
{
    let mut endless = Vec::new(alloc);
    for leaf in 0..components.len() {
        endless.push(is_along(components, owns, leaf, components.len()))?;
    }
    Ok(endless)
}

/// Whether the leaf of a number needs capabilities without end at the start: not where it starts after another.
fn is_at_start(node: &Leaf, endless: &[bool], leaf: usize) -> bool
    ensures { (all : model.System) → endless.now ≡ endless_from all 0 all.components
        → result ≡ at_start node.now.after (endless_at all leaf) }
{
    match node.after() {
        Some(_) => false,
        None => is_at(endless, leaf),
    }
}

/// Whether children need capabilities without end at the start, of which the first leaf has a number; and the number of the leaf after them.
#[cycle(nodes)]
pub(crate) fn of_children(nodes: &Nodes, endless: &[bool], first: usize) -> (bool, usize)
    requires { first + leaf_count nodes.now ≤ 64 }
    ensures found { (all : model.System) → endless.now ≡ endless_from all 0 all.components → result.0 ≡ children_endless all first nodes.now }
    ensures next { result.1 ≡ first + leaf_count nodes.now }
{
    let mut found = false;
    let mut next = first;
    for node in nodes.nodes() {
        let (here, after) = of_node(node, endless, next);
        found |= here;
        next = after;
    }
    (found, next)
}

/// Whether a node needs capabilities without end at the start, of which the first leaf has a number; and the number of the leaf after it.
#[cycle(nodes)]
fn of_node(node: &Node, endless: &[bool], first: usize) -> (bool, usize)
    requires { first + leaf_count (nodes_of (node.now ∷ [])) ≤ 64 }
    ensures found { (all : model.System) → endless.now ≡ endless_from all 0 all.components
        → result.0 ≡ children_endless all first (nodes_of (node.now ∷ [])) }
    ensures next { result.1 ≡ first + leaf_count (nodes_of (node.now ∷ [])) }
{
    match node {
        Node::Leaf(leaf) => (is_at_start(leaf, endless, first), first + 1),
        Node::Init(_, children) => of_children(children, endless, first),
    }
}

// What leaves need at least, and inits for their children.
ghost use Rattle.std.specs.Prelude.{◌≡◌, ℕ, ◌+◌, ◌*◌, ◌^◌, ◌<◌, ◌≤◌, ◌∷◌, [], Some, IfOk, IfSome, get_or, length, map, max, option_and_then, slice_get};
ghost use Rattle.gq_tariff.specs.Prices.{class_size};
ghost use Rattle.gq_model.specs.machine.Accounts.{leaf_count};
ghost use Rattle.gq_model.specs.machine.Amounts.{Ram, Caps, amount};
ghost use Rattle.gq_model.specs.machine.Resource_prices.{heap_of};
ghost use Rattle.gq_model.specs.machine.Scenario as model;
ghost use Rattle.gq_model.specs.rules.Budgets.{own};
ghost use Rattle.gq_model.specs.rules.Use.{subject};
ghost use Rattle.gq_scenario.specs.Component_trees.{nodes_of};
ghost use Rattle.gq_verify.specs.Saturated_numbers.{saturated};
ghost use Rattle.gq_sizes.specs.Size as size;
ghost use Rattle.gq_sizes.specs.Size.{is_named, leaf_least, own_by, unless_after};
ghost use Rattle.gq_sizes.specs.Point_maxima.{given_in};
ghost use Rattle.gq_sizes.specs.internal.Printed_sizes.{init_least_printed};
ghost use Rattle.gq_sizes.specs.Saturated_tables.{IsLeast, leasts_from, own_least};

use crate::point_maxima::{LeastGifts, most_own};
use gq_load::budget::Budget;
use gq_model::spelling::same_text;
use gq_resolve::component::Component;
use gq_scenario::scenario::{Leaf, Node, Nodes};
use gq_tariff::Amount;
use gq_tariff::class::Class;
use gq_tariff::price::{Held, price_caps};
use gq_verify::Verified;
use std::alloc::{AllocError, Global};

/// What the heap costs in capabilities by these greatest numbers of places of these classes.
fn heap_caps(places: &[u64; 8], classes: &[Class]) -> u64
    requires few { length classes.now ≤ 8 }
    requires small { (k : ℕ) → k < 8 → get_or places.now k 0 ≤ 2 ^ 22 }
    ensures value { result ≡ heap_of Caps (map class_size classes.now) places.now }
    ensures eight { length places.now ≡ 8 }
{
    let mut sum = 0;
    for (place, class) in classes.iter().enumerate() {
        sum += price_caps(Held::Places(*class, places[place]));
    }
    sum
}

/// What a leaf's own slots and heap cost at most in capabilities, by what is given at least for the sessions of its links; 2^64 - 1 where it is more.
fn own_caps(verified: &Verified<'_>, given: &LeastGifts<'_>) -> u64
    ensures { result ≡ saturated (own_by (given_in given.now.interfaces.now given.now.sums.now) Caps verified.now) }
{
    let own = most_own(verified, given);
    own.slots
        .saturating_add(heap_caps(&own.places, &Class::ALL))
}

/// The bytes that the leaf at a place needs for itself; nothing where there is none.
fn own_bytes(budgets: &[Budget], place: usize) -> u64
    ensures { result ≡ get_or (map (λ b. b.own.ram) budgets.now) place 0 }
{
    match budgets.get(place) {
        Some(budget) => budget.own(),
        None => 0,
    }
}

/// What each leaf needs for itself.
pub(crate) fn owns(
    alloc: Global,
    leaves: &[Verified<'_>],
    budgets: &[Budget],
    given: &LeastGifts<'_>,
) -> Result<Vec<Amount>, AllocError>
    ensures { (all : model.System) → leaves.now ≡ map (subject all) all.components
        → map (λ b. b.own.ram) budgets.now ≡ map (λ c. own Ram (subject all c)) all.components
        → IsLeast all (given_in given.now.interfaces.now given.now.sums.now)
        → IfOk result (λ o. o.items ≡ map (own_least all) all.components) }
{
    let mut owns = Vec::new(alloc);
    for (place, verified) in leaves.iter().enumerate() {
        owns.push(Amount {
            ram: own_bytes(budgets, place),
            caps: own_caps(verified, given),
        })?;
    }
    Ok(owns)
}

/// Whether a leaf starts after the one of this name.
fn is_after(component: &Component<'_>, name: &[u8]) -> bool
    ensures { result ≡ is_named name.now component.now.node.after }
{
    match component.leaf().after() {
        Some(first) => same_text(name, first.as_bytes()),
        None => false,
    }
}

/// The first leaf that starts after the one of this name.
pub(crate) fn starts_after(components: &[Component<'_>], name: &[u8]) -> Option<usize>
    ensures next { option_and_then (slice_get components.now) result ≡ size.starts_after name.now components.now }
    ensures within { IfSome result (λ next. next < length components.now) }
{
    for (place, component) in components.iter().enumerate() {
        if is_after(component, name) {
            return Some(place);
        }
    }
    None
}

/// The greater of two, each for itself.
fn greater(a: Amount, b: Amount) -> Amount
    ensures { result ≡ amount (max a.ram b.ram) (max a.caps b.caps) }
{
    Amount {
        ram: a.ram.max(b.ram),
        caps: a.caps.max(b.caps),
    }
}

/// The bytes of a quantity.
fn bytes_of(amount: &Amount) -> u64
    ensures same { result ≡ amount.now.ram }
    ensures small { result < 2 ^ 64 }
{
    amount.ram
}

/// What the leaf at a place needs for itself; nothing where there is none.
fn own_at(owns: &[Amount], leaf: usize) -> Amount
    ensures own { result ≡ get_or owns.now leaf (amount 0 0) }
    ensures small { result.ram < 2 ^ 64 }
{
    match owns.get(leaf) {
        Some(own) => Amount {
            ram: bytes_of(own),
            caps: own.caps,
        },
        None => Amount { ram: 0, caps: 0 },
    }
}

/// What a leaf needs at least: for itself, and for each that starts after it, one after the other, along at most so many starts.
fn least_along(components: &[Component<'_>], owns: &[Amount], leaf: usize, starts: usize) -> Amount
    requires { leaf < length components.now }
    ensures { (all : model.System) (c : model.Component) → components.now ≡ all.components → owns.now ≡ map (own_least all) all.components
        → slice_get components.now leaf ≡ Some c
        → result ≡ amount (saturated (leaf_least starts Ram all c)) (saturated (leaf_least starts Caps all c)) }
{
    let least = own_at(owns, leaf);
    if starts == 0 {
        return least;
    }
    match starts_after(components, components[leaf].leaf().name().as_bytes()) {
        Some(next) => greater(least, least_along(components, owns, next, starts - 1)),
        None => least,
    }
}

/// What each leaf needs at least.
pub(crate) fn least_of_leaves(
    alloc: Global,
    components: &[Component<'_>],
    owns: &[Amount],
) -> Result<Vec<Amount>, AllocError>
    ensures { (all : model.System) → components.now ≡ all.components → owns.now ≡ map (own_least all) all.components
        → IfOk result (λ l. l.items ≡ leasts_from all 0 all.components) }
{
    let mut least = Vec::new(alloc);
    for leaf in 0..components.len() {
        least.push(least_along(components, owns, leaf, components.len()))?;
    }
    Ok(least)
}

/// What the leaf of a number needs at least; nothing where there is none.
pub(crate) fn least_at(least: &[Amount], leaf: usize) -> Amount
    ensures { result ≡ get_or least.now leaf (amount 0 0) }
{
    match least.get(leaf) {
        Some(least) => *least,
        None => Amount { ram: 0, caps: 0 },
    }
}

/// What the leaf of a number needs at the start: nothing, where it starts after another.
fn at_start(node: &Leaf, least: &[Amount], leaf: usize) -> Amount
    ensures { (all : model.System) → least.now ≡ leasts_from all 0 all.components
        → result ≡ amount (saturated (unless_after node.now.after (size.least_at Ram all leaf)))
        (saturated (unless_after node.now.after (size.least_at Caps all leaf))) }
{
    match node.after() {
        Some(_) => Amount { ram: 0, caps: 0 },
        None => least_at(least, leaf),
    }
}

/// Both together, each for itself; 2^64 - 1 where it is more.
fn plus(a: Amount, b: Amount) -> Amount
    ensures { result ≡ amount (saturated (a.ram + b.ram)) (saturated (a.caps + b.caps)) }
{
    Amount {
        ram: a.ram.saturating_add(b.ram),
        caps: a.caps.saturating_add(b.caps),
    }
}

/// What children need at the start, of which the first leaf has a number; and the number of the leaf after them.
#[cycle(nodes)]
pub(crate) fn least_of_children(nodes: &Nodes, least: &[Amount], first: usize) -> (Amount, usize)
    requires { first + leaf_count nodes.now ≤ 64 }
    ensures needed { (all : model.System) → least.now ≡ leasts_from all 0 all.components → result.0 ≡ init_least_printed all first nodes.now }
    ensures next { result.1 ≡ first + leaf_count nodes.now }
{
    let mut sum = Amount { ram: 0, caps: 0 };
    let mut next = first;
    for node in nodes.nodes() {
        let (needed, after) = least_of_node(node, least, next);
        sum = plus(sum, needed);
        next = after;
    }
    (sum, next)
}

/// What a node needs at the start, of which the first leaf has a number; and the number of the leaf after it.
#[cycle(nodes)]
fn least_of_node(node: &Node, least: &[Amount], first: usize) -> (Amount, usize)
    requires { first + leaf_count (nodes_of (node.now ∷ [])) ≤ 64 }
    ensures needed { (all : model.System) → least.now ≡ leasts_from all 0 all.components
        → result.0 ≡ init_least_printed all first (nodes_of (node.now ∷ [])) }
    ensures next { result.1 ≡ first + leaf_count (nodes_of (node.now ∷ [])) }
{
    match node {
        Node::Leaf(leaf) => (at_start(leaf, least, first), first + 1),
        Node::Init(_, children) => least_of_children(children, least, first),
    }
}

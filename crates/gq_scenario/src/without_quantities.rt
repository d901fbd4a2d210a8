// Scenarios without their quantities: what no quantity decides is the same of both.
ghost use Rattle.std.specs.Prelude.{◌≡◌, ◌≤◌, length, IfOk, option_map};
ghost use Rattle.gq_model.specs.machine.Amounts.{amount};
ghost use Rattle.gq_scenario.specs.Without_quantities.{unsized, without_quanta};

use crate::scenario::{Init, Leaf, Node, Nodes, Offers, Parts, Quantum, Route, Scenario, Target};
use gq_model::program::Name;
use std::alloc::{AllocError, Global};

// The same name, where there is one.
fn copied_name(name: Option<&Name>) -> Option<Name>
    ensures { result ≡ option_map (λ n. n.now) name.entry }
{
    match name {
        Some(name) => Some(name.copied()),
        None => None,
    }
}

// The same route.
fn copied_route(route: &Route) -> Route
    ensures { result ≡ route.now }
{
    let target = match route.target() {
        Target::Child(name) => Target::Child(name.copied()),
        Target::AnyChild => Target::AnyChild,
        Target::Parent => Target::Parent,
    };
    Route::new(copied_name(route.service()), target)
}

// The same routes.
fn copied_list(alloc: Global, routes: &[Route]) -> Result<Vec<Route>, AllocError>
    ensures { IfOk result (λ r. r.items ≡ routes.now) }
{
    let mut copied = Vec::new(alloc);
    for route in routes {
        copied.push(copied_route(route))?;
    }
    Ok(copied)
}

// The same routes, where there are some.
fn copied_routes(alloc: Global, routes: Option<&[Route]>) -> Result<Option<Vec<Route>>, AllocError>
    ensures { IfOk result (λ r. option_map (λ v. v.items) r ≡ option_map (λ v. v.now) routes.entry) }
{
    match routes {
        Some(routes) => Ok(Some(copied_list(alloc, routes)?)),
        None => Ok(None),
    }
}

// The same offers.
fn copied_offers(alloc: Global, offers: &[(Name, Name)]) -> Result<Offers, AllocError>
    ensures { IfOk result (λ o. o.items ≡ offers.now) }
{
    let mut copied = Vec::new(alloc);
    for (service, child) in offers {
        copied.push((service.copied(), child.copied()))?;
    }
    Ok(copied)
}

// A leaf that is given nothing.
fn unsized_leaf(alloc: Global, leaf: &Leaf) -> Result<Leaf, AllocError>
    ensures { IfOk result (λ l. l ≡ record leaf.now { quantum = amount 0 0 }) }
{
    let routes = copied_routes(alloc, leaf.routes())?;
    let source = leaf.source().copy(alloc)?;
    Ok(Leaf::new(
        leaf.name().copied(),
        Quantum::new(0, 0),
        source,
        copied_name(leaf.provides()),
        copied_name(leaf.after()),
        leaf.copied_inputs(),
        leaf.signals(),
        routes,
    ))
}

// An init that is given nothing.
fn unsized_init(alloc: Global, init: &Init) -> Result<Init, AllocError>
    ensures { IfOk result (λ i. i ≡ record init.now { quantum = amount 0 0 }) }
{
    let routes = copied_routes(alloc, init.routes())?;
    let default_routes = copied_routes(alloc, init.default_routes())?;
    let offers = copied_offers(alloc, init.offers())?;
    let quantum = Quantum::new(0, 0);
    let name = init.name().copied();
    Ok(Init::new(name, quantum, routes, default_routes, offers))
}

// Nodes that are given nothing.
fn unsized_nodes(alloc: Global, nodes: &Nodes) -> Result<Nodes, AllocError>
    ensures { IfOk result (λ n. n ≡ without_quanta nodes.now) }
{
    let mut copied = Vec::new(alloc);
    for node in nodes.nodes() {
        match node {
            Node::Leaf(leaf) => copied.push(Node::Leaf(unsized_leaf(alloc, leaf)?))?,
            Node::Init(init, children) => {
                let children = unsized_nodes(alloc, children)?;
                copied.push(Node::Init(unsized_init(alloc, init)?, children))?;
            }
        }
    }
    Ok(Nodes::new(copied))
}

/// A scenario without its quantities: nodes are given nothing, interfaces ask for no bytes, and their sessions may cost anything. What is asked in
/// capabilities stays, as links report it, and so does what the whole system has. Refused only if the host refuses memory.
pub fn without_quantities(alloc: Global, scenario: &Scenario) -> Result<Scenario, AllocError>
    ensures { IfOk result (λ s. s ≡ unsized scenario.now) }
{
    scenario.laws();
    let interfaces = scenario.interfaces().unbounded(alloc)?;
    let default_routes = copied_routes(alloc, scenario.default_routes())?;
    let nodes = unsized_nodes(alloc, scenario.nodes())?;
    Ok(Scenario::new(Parts {
        version: scenario.version(),
        total: scenario.total(),
        default_routes,
        interfaces,
        nodes,
    }))
}

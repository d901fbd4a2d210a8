// How a service that is refused is led, an init after the other.
// No contract: its results are details alone. Tests show them.
use crate::fault_value::{Hop, RouteOwner, Where};
use crate::meant::Nearest;
use crate::program_lines::nth_word;
use crate::start_after_faults::is_same;
use gq_model::program::Name;
use gq_resolve::component::Component;
use gq_resolve::routing::{Level, fits, offer_of, provider};
use gq_scenario::scenario::{Init, Node, Nodes, Route, Target};
use std::alloc::{AllocError, Global};

// The first route that fits, with its number from 1.
fn first_fit<'a>(routes: &'a [Route], service: &Name) -> Option<(usize, &'a Route)> {
    for (place, route) in routes.iter().enumerate() {
        if fits(route, service) {
            return Some((place.saturating_add(1), route));
        }
    }
    None
}

fn name_of(node: &Node) -> &Name {
    match node {
        Node::Leaf(leaf) => leaf.name(),
        Node::Init(init, _) => init.name(),
    }
}

// Whether a node has routes of its own.
fn has_routes(node: &Node) -> bool {
    match node {
        Node::Leaf(leaf) => leaf.routes().is_some(),
        Node::Init(init, _) => init.routes().is_some(),
    }
}

/// The child of this name.
pub(crate) fn child<'a>(siblings: &'a Nodes, name: &Name) -> Option<&'a Node> {
    for node in siblings.nodes() {
        if is_same(name_of(node), name) {
            return Some(node);
        }
    }
    None
}

/// The children with names like this one.
pub(crate) fn near_children(
    alloc: Global,
    siblings: &Nodes,
    name: &Name,
) -> Result<Vec<Name>, AllocError> {
    let mut nearest = Nearest::new(alloc);
    for node in siblings.nodes() {
        nearest.compare(name.as_bytes(), name_of(node).as_bytes())?;
    }
    Ok(nearest.names())
}

// The services with names like this one for which there are routes.
fn near_services(alloc: Global, routes: &[Route], service: &Name) -> Result<Vec<Name>, AllocError> {
    let mut nearest = Nearest::new(alloc);
    for route in routes {
        if let Some(other) = route.service() {
            nearest.compare(service.as_bytes(), other.as_bytes())?;
        }
    }
    Ok(nearest.names())
}

/// The services that an init offers.
pub(crate) fn offered(alloc: Global, init: &Init) -> Result<Vec<Name>, AllocError> {
    let mut services = Vec::new(alloc);
    for (service, _) in init.offers() {
        services.push(service.copied())?;
    }
    Ok(services)
}

// The inits among these that offer something, each with what it offers.
fn offering(alloc: Global, siblings: &Nodes) -> Result<Vec<(Name, Vec<Name>)>, AllocError> {
    let mut inits = Vec::new(alloc);
    for node in siblings.nodes() {
        if let Node::Init(init, _) = node {
            if !init.offers().is_empty() {
                inits.push((init.name().copied(), offered(alloc, init)?))?;
            }
        }
    }
    Ok(inits)
}

// The children that serve a service.
fn servers<'a>(
    alloc: Global,
    siblings: &'a Nodes,
    service: &Name,
) -> Result<Vec<&'a Node>, AllocError> {
    let mut nodes = Vec::new(alloc);
    for node in siblings.nodes() {
        if provider(node, service).is_some() {
            nodes.push(node)?;
        }
    }
    Ok(nodes)
}

// Where a child leads that a route names, and that refuses.
fn by_name(alloc: Global, node: &Node, service: &Name) -> Result<Where, AllocError> {
    let name = name_of(node).copied();
    match node {
        Node::Leaf(_) => Ok(Where::Differs(name, Vec::new(alloc))),
        Node::Init(init, _) if offer_of(init.offers(), service).is_some() => {
            Ok(Where::Astray(name))
        }
        Node::Init(init, _) => Ok(Where::Differs(name, offered(alloc, init)?)),
    }
}

// Where any child leads that serves the service, and that refuses.
fn by_service(alloc: Global, siblings: &Nodes, service: &Name) -> Result<Where, AllocError> {
    let servers = servers(alloc, siblings, service)?;
    match servers.as_slice() {
        [] => Ok(Where::NoProvider(offering(alloc, siblings)?)),
        [node] => Ok(Where::Astray(name_of(node).copied())),
        nodes => several(alloc, nodes),
    }
}

// These children all serve the service.
fn several(alloc: Global, nodes: &[&Node]) -> Result<Where, AllocError> {
    let mut names = Vec::new(alloc);
    let mut has_init = false;
    for node in nodes {
        names.push(name_of(node).copied())?;
        has_init = has_init || matches!(node, Node::Init(_, _));
    }
    Ok(Where::Providers(names, has_init))
}

// Where a target leads that refuses.
fn led(
    alloc: Global,
    target: &Target,
    siblings: &Nodes,
    service: &Name,
) -> Result<Where, AllocError> {
    match target {
        Target::Parent => Ok(Where::Parent),
        Target::Child(name) => match child(siblings, name) {
            Some(node) => by_name(alloc, node, service),
            None => {
                let near = near_children(alloc, siblings, name)?;
                Ok(Where::NoChild(name.copied(), near))
            }
        },
        Target::AnyChild => by_service(alloc, siblings, service),
    }
}

// The name of this number, from 0, of a label: names with arrows between them, the root's first.
fn name_in(label: &[u8], number: usize) -> Option<Name> {
    let word = nth_word(label, number.saturating_mul(2))?;
    Name::new(word.text)
}

// Whose routes are followed at the level of this number of a component.
fn owner(component: &Component<'_>, number: usize, level: &Level<'_>) -> Option<RouteOwner> {
    let depth = component.levels().len().saturating_sub(number);
    let child_name = name_in(component.label(), depth)?;
    let init = name_in(component.label(), depth.saturating_sub(1))?;
    let is_own = match child(level.siblings(), &child_name) {
        Some(node) => has_routes(node),
        None => false,
    };
    Some(RouteOwner {
        child: child_name,
        init,
        is_own,
    })
}

/// How a service of a component that is refused is led, from the leaf's own init on.
pub(crate) fn hops(
    alloc: Global,
    component: &Component<'_>,
    service: &Name,
) -> Result<Vec<Hop>, AllocError> {
    let mut hops = Vec::new(alloc);
    for (number, level) in component.levels().iter().enumerate() {
        let routes = level.routes();
        let Some(owner) = owner(component, number, level) else {
            return Ok(hops);
        };
        let Some((number, route)) = first_fit(routes, service) else {
            let near = near_services(alloc, routes, service)?;
            hops.push(Hop::NoEntry(owner, routes.len(), near))?;
            return Ok(hops);
        };
        let target = led(alloc, route.target(), level.siblings(), service)?;
        let is_last = !matches!(target, Where::Parent);
        hops.push(Hop::Entry(owner, number, route.service().is_some(), target))?;
        if is_last {
            return Ok(hops);
        }
    }
    hops.push(Hop::BeyondRoot)?;
    Ok(hops)
}

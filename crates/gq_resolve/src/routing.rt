// Where a service leads.
ghost use Rattle.std.specs.Prelude.{◌≡◌, ◌∷◌, [], option_map};
ghost use Rattle.gq_model.specs.machine.Lists.{any_of};
ghost use Rattle.gq_model.specs.machine.Scenario as model;
ghost use Rattle.gq_model.specs.machine.Routes.{Routed, is_service, fits, offer_of, child_named, providers, only, first_fit, route};
ghost use Rattle.gq_resolve.specs.Routing.{routed, led_found, led_by};
ghost use Rattle.gq_scenario.specs.Targets.{target_of};
ghost use Rattle.gq_scenario.specs.Component_trees.{nodes_of};

use gq_model::program::Name;
use gq_model::spelling::same_text;
use gq_scenario::scenario::{Node, Nodes, Route, Target};
use std::marker::Model;

/// Why a service leads to no leaf.
#[derive(Clone, Copy)]
pub enum RouteFault {
    /// No entry fits, no child has that name or serves the service, or the question goes beyond the root.
    NoRoute,
    /// Several children serve the service.
    Ambiguous,
    /// The child of that name does not serve the service: it is a leaf that does not provide it, or an init that does not offer it.
    ProvidesDiffers,
}

/// The routes of a child and its siblings, itself among them, at one of the inits above a component.
#[derive(Drop)]
pub struct Level<'a> {
    routes: &'a [Route],
    siblings: &'a Nodes,
}

impl<'a> Model for Level<'a> {
    ghost use Rattle.std.specs.Coded.{codes};
    ghost use Rattle.gq_model.specs.machine.Scenario.{Level};
    ghost use Rattle.gq_model.specs.internal.Stored.{statements_code, nodes_code};

    ghost Value = { Level };

    ghost coded = { Prim.hlevel (codes, nodes_code (Prim.hlevel (codes, statements_code (Prim.hlevel codes))) (Prim.hlevel codes)) };

    ghost view = { λ l. record { routes = l.routes.now; siblings = l.siblings.now } };
}

impl<'a> Level<'a> {
    /// These routes, and these siblings.
    pub fn new(routes: &'a [Route], siblings: &'a Nodes) -> Level<'a>
        ensures { result ≡ record { routes = routes.now; siblings = siblings.now } }
    {
        Level { routes, siblings }
    }

    /// The same level once more.
    pub fn same(&self) -> Level<'a>
        ensures { result ≡ self.now }
    {
        Level::new(self.routes(), self.siblings())
    }

    /// Its routes.
    pub fn routes(&self) -> &'a [Route]
        ensures { result.now ≡ self.now.routes }
    {
        self.routes
    }

    /// Its siblings.
    pub fn siblings(&self) -> &'a Nodes
        ensures { result.now ≡ self.now.siblings }
    {
        self.siblings
    }
}

// Whether this service is provided.
pub(crate) fn is_service(provided: Option<&Name>, service: &Name) -> bool
    ensures { result ≡ is_service (option_map (λ s. s.now) provided.entry) service.now }
{
    match provided {
        Some(provided) => same_text(provided.as_bytes(), service.as_bytes()),
        None => false,
    }
}

/// Whether a route is for this service: one for any is.
pub fn fits(route: &Route, service: &Name) -> bool
    ensures { result ≡ fits route.now.service service.now }
{
    match route.service() {
        Some(name) => same_text(name.as_bytes(), service.as_bytes()),
        None => true,
    }
}

/// The child that these offers name for a service.
pub fn offer_of<'a>(offers: &'a [(Name, Name)], service: &Name) -> Option<&'a Name>
    ensures { option_map (λ child. child.now) result ≡ offer_of offers.now service.now }
{
    for (offered, child) in offers {
        if same_text(service.as_bytes(), offered.as_bytes()) {
            return Some(child);
        }
    }
    None
}

// The leaf behind the child of this name, which has to serve the service: a leaf provides it, and the offers of an init lead on.
fn child_named<'a>(
    name: &'a Name,
    service: &Name,
    siblings: &'a Nodes,
) -> Result<&'a Name, RouteFault>
    ensures { routed result ≡ child_named name.now service.now siblings.now }
{
    for node in siblings.nodes() {
        match node {
            Node::Leaf(leaf) => {
                if same_text(name.as_bytes(), leaf.name().as_bytes()) {
                    return if is_service(leaf.provides(), service) {
                        Ok(name)
                    } else {
                        Err(RouteFault::ProvidesDiffers)
                    };
                }
            }
            Node::Init(init, children) => {
                if same_text(name.as_bytes(), init.name().as_bytes()) {
                    return match offer_of(init.offers(), service) {
                        Some(child) => child_named(child, service, children),
                        None => Err(RouteFault::ProvidesDiffers),
                    };
                }
            }
        }
    }
    Err(RouteFault::NoRoute)
}

/// The leaf behind a node that serves the service: it is a leaf that provides it, or an init that offers it. An offer that leads nowhere is reported as such.
pub fn provider<'a>(node: &'a Node, service: &Name) -> Option<Result<&'a Name, RouteFault>>
    ensures { led_found result ≡ providers service.now (nodes_of (node.now ∷ [])) }
{
    match node {
        Node::Leaf(leaf) if is_service(leaf.provides(), service) => Some(Ok(leaf.name())),
        Node::Leaf(_) => None,
        Node::Init(init, children) => match offer_of(init.offers(), service) {
            Some(child) => Some(child_named(child, service, children)),
            None => None,
        },
    }
}

/// Where the only child leads that serves the service, of those that were found: the first, where there is no second.
pub(crate) fn found_or_none<'a>(
    found: Option<Result<&'a Name, RouteFault>>,
) -> Result<&'a Name, RouteFault>
    ensures { routed result ≡ only (led_found found.entry) }
{
    match found {
        Some(led) => led,
        None => Err(RouteFault::NoRoute),
    }
}

// Where the only one of these children leads that serves the service.
fn only_provider<'a>(service: &Name, siblings: &'a Nodes) -> Result<&'a Name, RouteFault>
    ensures { routed result ≡ only (providers service.now siblings.now) }
{
    let mut found: Option<Result<&'a Name, RouteFault>> = None;
    for node in siblings.nodes() {
        if let Some(led) = provider(node, service) {
            if found.is_some() {
                return Err(RouteFault::Ambiguous);
            }
            found = Some(led);
        }
    }
    found_or_none(found)
}

// Where the first route that fits leads.
pub(crate) fn first_target<'a>(routes: &'a [Route], service: &Name) -> Option<&'a Target>
    ensures { (siblings : model.Nodes) (above : Routed) → first_fit routes.now service.now siblings above
        ≡ led_by (option_map (λ t. target_of t.now) result) service.now siblings above }
{
    for route in routes {
        if fits(route, service) {
            return Some(route.target());
        }
    }
    None
}

/// The name of the leaf to which a service leads, by the levels of a component, its own init's first. At each the first
/// route decides that is for the service or for any: it leads to the child of a name, to the only child that serves
/// the service, or to the next level. A child serves it as a leaf that provides it, or as an init that offers it, through
/// as many inits as there are.
///
/// Refuses where no route fits or no such child is there, `NoRoute`; where several children serve the service,
/// `Ambiguous`; and where the child of the name does not, `ProvidesDiffers`.
pub fn route<'a>(levels: &[Level<'a>], service: &Name) -> Result<&'a Name, RouteFault>
    ensures { routed result ≡ route levels.now service.now }
{
    for level in levels {
        match first_target(level.routes(), service) {
            None => return Err(RouteFault::NoRoute),
            Some(Target::Child(name)) => return child_named(name, service, level.siblings()),
            Some(Target::AnyChild) => return only_provider(service, level.siblings()),
            Some(Target::Parent) => {}
        }
    }
    Err(RouteFault::NoRoute)
}

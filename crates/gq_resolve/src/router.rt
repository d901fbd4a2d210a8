// Where services of a component lead, of which many are asked for.
ghost use Rattle.std.specs.Prelude.{◌≡◌};
ghost use Rattle.gq_model.specs.machine.Routes.{providers, only, route};
ghost use Rattle.gq_resolve.specs.Routing.{routed};
ghost use Rattle.gq_resolve.specs.internal.Search_keys.{first_siblings, AreReported, AreReportedOf};

use crate::routing::{Level, RouteFault, first_target, found_or_none, provider, route};
use crate::search_keys::{are_silent, places_of};
use gq_model::program::Name;
use gq_program::key_index::KeyIndex;
use gq_program::name_keys::key_of;
use gq_scenario::scenario::{Nodes, Target};
use std::marker::Model;

// For fewer services than these the siblings are gone through one by one.
const MANY: usize = 4;

// Where services may stand among the siblings at the first of these levels, where no init among them offers any.
fn first_places(levels: &[Level<'_>]) -> Option<KeyIndex>
    ensures { AreReported result levels.now }
{
    match levels.first() {
        Some(level) => {
            if are_silent(level.siblings()) {
                Some(places_of(level.siblings()))
            } else {
                None
            }
        }
        None => None,
    }
}

// Where the only one of these children leads that serves the service, by where it may stand.
fn only_by<'a>(
    service: &Name,
    siblings: &'a Nodes,
    places: &KeyIndex,
) -> Result<&'a Name, RouteFault>
    requires { AreReportedOf places.now siblings.now }
    ensures { routed result ≡ only (providers service.now siblings.now) }
{
    let nodes = siblings.nodes();
    let (first, end) = places.range(key_of(service.as_bytes()), nodes.len());
    let mut found: Option<Result<&'a Name, RouteFault>> = None;
    for place in first..end {
        if let Some(led) = provider(&nodes[place], service) {
            if found.is_some() {
                return Err(RouteFault::Ambiguous);
            }
            found = Some(led);
        }
    }
    found_or_none(found)
}

// Where a service leads, by where services may stand among the siblings at the first level.
fn route_by<'a>(
    levels: &[Level<'a>],
    places: &KeyIndex,
    service: &Name,
) -> Result<&'a Name, RouteFault>
    requires { AreReportedOf places.now (first_siblings levels.now) }
    ensures { routed result ≡ route levels.now service.now }
{
    if let Some(level) = levels.first() {
        if let Some(Target::AnyChild) = first_target(level.routes(), service) {
            return only_by(service, level.siblings(), places);
        }
    }
    route(levels, service)
}

/// The levels of a component, its own init's first, for the routes of its services. Where these are many and no init among its
/// siblings offers any, it is reported where services may stand among these.
#[derive(Drop)]
pub struct Router<'l, 'a> {
    levels: &'l [Level<'a>],
    places: Option<KeyIndex>,
}

impl<'l, 'a> Model for Router<'l, 'a> {
    ghost use Rattle.std.specs.Prelude.{List};
    ghost use Rattle.std.specs.Coded.{codes};
    ghost use Rattle.gq_model.specs.machine.Scenario.{Level};
    ghost use Rattle.gq_model.specs.internal.Stored.{statements_code, nodes_code};
    ghost use Rattle.gq_resolve.specs.internal.Search_keys.{AreReported};

    ghost Value = { List Level };

    ghost coded = { Prim.hlevel (codes, nodes_code (Prim.hlevel (codes, statements_code (Prim.hlevel codes))) (Prim.hlevel codes)) };

    ghost view = { λ r. r.levels.now };

    ghost invariant = { λ r. AreReported r.places r.levels.now };
}

impl<'l, 'a> Router<'l, 'a> {
    /// These levels, to be asked for the routes of so many services. It allocates no host memory.
    pub fn new(levels: &'l [Level<'a>], services: usize) -> Router<'l, 'a>
        ensures { result ≡ levels.now }
    {
        let places = if services < MANY {
            None
        } else {
            first_places(levels)
        };
        Router { levels, places }
    }

    /// The name of the leaf to which a service leads, as `route` reports it by these levels; and its refusals.
    pub fn route(&self, service: &Name) -> Result<&'a Name, RouteFault>
        ensures { routed result ≡ route self.now service.now }
    {
        match &self.places {
            Some(places) => route_by(self.levels, places, service),
            None => route(self.levels, service),
        }
    }
}

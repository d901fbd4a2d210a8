// The routes of all leaves, or the first service that leads nowhere.
ghost use Rattle.std.specs.Prelude.{◌≡◌, ◌<◌, ◌^◌, ◌++◌, OnOk, IfOk, length, map};
ghost use Rattle.gq_model.specs.machine.Routes.{Routed, route};
ghost use Rattle.gq_model.specs.rules.Resolve as model;
ghost use Rattle.gq_model.specs.rules.Resolve.{Unrouted, services_fault, routes_fault};
ghost use Rattle.gq_model.specs.rules.Use.{services, services_in};
ghost use Rattle.gq_resolve.specs.Resolve_faults.{Finds, fault_of, refused};
ghost use Rattle.gq_resolve.specs.Routing.{routed_not};
ghost use Rattle.gq_resolve.specs.Served.{entry, server_among, leaf_routes};

use crate::component::Component;
use crate::leaf_names::LeafNames;
use crate::opened_services::{once, opened};
use crate::resolve_fault::{ResolveError, ResolveFault};
use crate::router::Router;
use crate::routes::{LeafRoutes, Routes};
use crate::routing::RouteFault;
use gq_model::program::Name;
use gq_program::program_tree::Program;
use gq_scenario::component_tree::copied;
use std::alloc::{AllocError, Global};

/// The fault of a leaf's service that leads nowhere.
pub fn unrouted(why: RouteFault, leaf: &Name, service: &Name) -> ResolveFault
    ensures { fault_of result ≡ Unrouted (routed_not why) leaf.now service.now }
{
    let leaf = copied(leaf);
    let service = copied(service);
    match why {
        RouteFault::NoRoute => ResolveFault::NoRoute { leaf, service },
        RouteFault::Ambiguous => ResolveFault::Ambiguous { leaf, service },
        RouteFault::ProvidesDiffers => ResolveFault::ProvidesDiffers { leaf, service },
    }
}

// The services that each of these programs opens, in the order of its text.
pub(crate) fn all_opened(alloc: Global, programs: &[Program]) -> Result<Vec<Vec<Name>>, AllocError>
    ensures { IfOk result (λ v. map (λ o. o.items) v.items ≡ map (λ p. services_in p.sections) programs.now) }
{
    let mut all = Vec::new(alloc);
    for program in programs {
        all.push(opened(alloc, program)?)?;
    }
    Ok(all)
}

// Puts a service of a component with its server at the end of these. Refuses one that leads nowhere.
fn push_service(
    routes: &mut LeafRoutes,
    leaves: &LeafNames<'_, '_>,
    component: &Component<'_>,
    router: &Router<'_, '_>,
    service: Name,
) -> Result<(), ResolveError>
    requires few { length leaves.now < 2 ^ 32 }
    requires own { router.now ≡ component.now.levels }
    ensures routes { OnOk result (routes.new ≡ routes.old ++ entry service (server_among leaves.now component.now service)) }
    ensures fault { Finds result (model.unrouted component.now service (route component.now.levels service)) }
{
    match router.route(&service) {
        Ok(name) => {
            if let Some(server) = leaves.numbered(name) {
                routes.push(service, server)?;
            }
            Ok(())
        }
        Err(why) => {
            let fault = unrouted(why, component.leaf().name(), &service);
            Err(ResolveError::Fault(fault))
        }
    }
}

// The services that a component's program opens, each once, with their servers. Refuses the first that leads nowhere.
fn leaf_routes(
    alloc: Global,
    leaves: &LeafNames<'_, '_>,
    component: &Component<'_>,
    opened: &[Name],
) -> Result<LeafRoutes, ResolveError>
    requires few { length leaves.now < 2 ^ 32 }
    requires own { opened.now ≡ services component.now }
    ensures routes { IfOk result (λ r. r ≡ leaf_routes leaves.now component.now) }
    ensures fault { Finds result (services_fault component.now (services component.now)) }
{
    let services = once(alloc, opened)?;
    let router = Router::new(component.levels(), services.len());
    let mut routes = LeafRoutes::new(alloc);
    for service in services {
        push_service(&mut routes, leaves, component, &router, service)?;
    }
    Ok(routes)
}

// The services that each component's program opens, with their servers. Refuses the first component of which a service
// leads nowhere.
pub(crate) fn all_routes(
    alloc: Global,
    components: &[Component<'_>],
    opened: &[Vec<Name>],
) -> Result<Routes, ResolveError>
    requires few { length components.now < 2 ^ 32 }
    requires own { map (λ v. v.items) opened.now ≡ map services components.now }
    ensures routes { IfOk result (λ r. r ≡ map (leaf_routes components.now) components.now) }
    ensures fault { Finds result (routes_fault components.now) }
{
    let leaves = LeafNames::new(components);
    let mut routes = Vec::new(alloc);
    for (place, component) in components.iter().enumerate() {
        routes.push(leaf_routes(alloc, &leaves, component, opened[place].as_slice())?)?;
    }
    Ok(Routes::new(routes))
}

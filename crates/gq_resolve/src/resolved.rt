// Scenarios that are resolved. The program itself asks for `resolve_opened`: it has found the services that programs open when it surveyed them one by one
// (`gq_load`), so no program has to stay. `resolve` is for whoever has them all.
ghost use Rattle.std.specs.Prelude.{◌≡◌, IfOk, map};
ghost use Rattle.gq_model.specs.machine.Scenario as model;
ghost use Rattle.gq_model.specs.machine.Scenario.{System, components};
ghost use Rattle.gq_model.specs.rules.Resolve.{cycle_fault, unresolved};
ghost use Rattle.gq_model.specs.rules.Use.{services};
ghost use Rattle.gq_resolve.specs.Resolve_faults.{Finds};
ghost use Rattle.gq_resolve.specs.Served.{leaf_routes, routes_of, AreServers};

use crate::component::{Component, components};
use crate::cycle::first_on_cycle;
use crate::offers::check_offers;
use crate::quanta::check_quanta;
use crate::resolve_fault::{ResolveError, ResolveFault};
use crate::routes::Routes;
use crate::start_after::check_after;
use crate::unrouted::{all_opened, all_routes};
use gq_model::program::Name;
use gq_program::program_tree::Program;
use gq_scenario::component_tree::copied;
use gq_scenario::scenario::Scenario;
use std::alloc::Global;

// Refuses the first leaf that reaches itself by the servers of the services that are opened.
fn check_cycle(
    alloc: Global,
    components: &[Component<'_>],
    routes: &Routes,
) -> Result<(), ResolveError>
    requires { routes.now ≡ map (leaf_routes components.now) components.now }
    ensures { (system : System) → system.components ≡ components.now → Finds result (cycle_fault system 0 components.now) }
{
    let used = routes.numbers(alloc)?;
    match first_on_cycle(alloc, used.as_slice())? {
        Some(place) => {
            let name = copied(components[place].leaf().name());
            Err(ResolveError::Fault(ResolveFault::Cycle(name)))
        }
        None => Ok(()),
    }
}

/// Which leaf serves each service that a leaf of a scenario opens; each such service has one. The programs are those of its
/// leaves, in preorder.
///
/// Refuses if the host has no memory left, and by the first fault of the scenario, in this order.
///
/// - An init hands out more bytes than it has (`QuantaExceed`), or more capabilities (`CapsExceed`).
/// - An init offers a service that has no interface, or that the child which is named does not serve (`BadOffer`).
/// - A leaf may not start after the one that it names (`BadAfter`).
/// - A service leads nowhere (`NoRoute`, `Ambiguous` or `ProvidesDiffers`): of the first leaf in preorder, its first one in the order of its text.
/// - A leaf reaches itself by the servers of the services that are opened (`Cycle`): the first one.
pub fn resolve(
    alloc: Global,
    scenario: &Scenario,
    programs: &[Program],
) -> Result<Routes, ResolveError>
    requires { programs.now ≡ map (λ c. c.node.program) (components scenario.now) }
    ensures routes { IfOk result (λ routes. routes ≡ routes_of scenario.now) }
    ensures servers { IfOk result (λ routes. AreServers scenario.now routes) }
    ensures fault { Finds result (unresolved scenario.now) }
{
    let components = components(alloc, scenario)?;
    resolve_components(alloc, scenario, components.as_slice(), programs)
}

/// The same where the scenario's components are at hand.
pub fn resolve_components(
    alloc: Global,
    scenario: &Scenario,
    components: &[Component<'_>],
    programs: &[Program],
) -> Result<Routes, ResolveError>
    requires all { components.now ≡ model.components scenario.now }
    requires programs { programs.now ≡ map (λ c. c.node.program) components.now }
    ensures routes { IfOk result (λ routes. routes ≡ routes_of scenario.now) }
    ensures servers { IfOk result (λ routes. AreServers scenario.now routes) }
    ensures fault { Finds result (unresolved scenario.now) }
{
    let opened = all_opened(alloc, programs)?;
    resolve_opened(alloc, scenario, components, opened.as_slice())
}

/// The same where also the services are at hand that each leaf's program opens, in the order of its text; the programs are not needed then.
pub fn resolve_opened(
    alloc: Global,
    scenario: &Scenario,
    components: &[Component<'_>],
    opened: &[Vec<Name>],
) -> Result<Routes, ResolveError>
    requires all { components.now ≡ model.components scenario.now }
    requires opened { map (λ v. v.items) opened.now ≡ map services components.now }
    ensures routes { IfOk result (λ routes. routes ≡ routes_of scenario.now) }
    ensures servers { IfOk result (λ routes. AreServers scenario.now routes) }
    ensures fault { Finds result (unresolved scenario.now) }
{
    check_quanta(scenario)?;
    check_offers(scenario)?;
    check_after(components)?;
    scenario.bounds();
    let routes = all_routes(alloc, components, opened)?;
    check_cycle(alloc, components, &routes)?;
    Ok(routes)
}

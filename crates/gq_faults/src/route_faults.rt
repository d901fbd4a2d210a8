// Services that lead nowhere, and leaves that reach themselves.
ghost use Rattle.std.specs.Prelude.{◌≡◌, ◌<◌, ◌^◌, ◌++◌, ◌∷◌, [], IfOk, OnOk, length, map, slice_get, Some};
ghost use Rattle.gq_model.specs.machine.Routes.{route};
ghost use Rattle.gq_model.specs.machine.Scenario.{Component, System};
ghost use Rattle.gq_model.specs.rules.Resolve.{Cycle};
ghost use Rattle.gq_model.specs.rules.Resolve as model;
ghost use Rattle.gq_model.specs.rules.Use.{services};
ghost use Rattle.gq_model.specs.texts.Fault_texts.{unresolved_text};
ghost use Rattle.gq_resolve.specs.Reaching.{reaches_by};
ghost use Rattle.gq_resolve.specs.Served.{once, server_among};
ghost use Rattle.gq_faults.specs.Found_lists.{all_found, listed_if, when};
ghost use Rattle.gq_faults.specs.Scenario_faults.{cycles, routes_lost, services_lost};
ghost use Rattle.gq_faults.specs.Uses.{used_of};
ghost use Rattle.gq_faults.specs.Found_lines.{lines_found};

use crate::fault_value::{Detail, FaultPart, FoundFault, push_fault};
use crate::hops::hops;
use crate::leaf_tables::way_of;
use gq_load::load_fault::LoadFault;
use gq_model::program::Name;
use gq_resolve::component::Component;
use gq_resolve::cycle::reaches_itself;
use gq_resolve::opened_services::once;
use gq_resolve::resolve_fault::ResolveFault;
use gq_resolve::routes::server_of;
use gq_resolve::routing::route;
use gq_resolve::unrouted::unrouted;
use gq_scenario::scenario::LeafNo;
use gq_toml_places::Step;
use std::alloc::{AllocError, Global};

// A service that a leaf opens, and the number of the leaf that serves it.
#[derive(Drop)]
struct Use {
    service: Name,
    server: usize,
}

// A service of a component that leads nowhere, at the end of what was found.
fn push_lost(
    alloc: Global,
    found: &mut Vec<FoundFault<'_>>,
    component: &Component<'_>,
    service: &Name,
    leaves: &[Vec<Step<'static>>],
    place: usize,
) -> Result<(), AllocError>
    ensures { OnOk result (lines_found found.new.items ≡ lines_found found.old.items
        ++ map unresolved_text (listed_if (model.unrouted component.now service.now (route component.now.levels service.now)))) }
{
    match route(component.levels(), service) {
        Ok(_) => Ok(()),
        Err(why) => {
            let fault = LoadFault::Resolve(unrouted(why, component.leaf().name(), service));
            let detail = Detail::Routed(hops(alloc, component, service)?);
            let way = way_of(alloc, leaves, place)?;
            push_fault(alloc, found, &fault, way, FaultPart::Table, detail)
        }
    }
}

// Each of these services of a component that leads nowhere.
fn push_services(
    alloc: Global,
    found: &mut Vec<FoundFault<'_>>,
    component: &Component<'_>,
    services: &[Name],
    leaves: &[Vec<Step<'static>>],
    place: usize,
) -> Result<(), AllocError>
    ensures { OnOk result (lines_found found.new.items
        ≡ lines_found found.old.items ++ map unresolved_text (services_lost component.now services.now)) }
{
    for service in services {
        push_lost(alloc, found, component, service, leaves, place)?;
    }
    Ok(())
}

// Each service of a component, which opens these, that leads nowhere.
fn push_leaf(
    alloc: Global,
    found: &mut Vec<FoundFault<'_>>,
    component: &Component<'_>,
    opened: &[Name],
    leaves: &[Vec<Step<'static>>],
    place: usize,
) -> Result<(), AllocError>
    requires { opened.now ≡ services component.now }
    ensures { OnOk result (lines_found found.new.items
        ≡ lines_found found.old.items ++ map unresolved_text (services_lost component.now (once (services component.now)))) }
{
    let services = once(alloc, opened)?;
    push_services(alloc, found, component, services.as_slice(), leaves, place)
}

/// Each service, leaves in preorder, services in the order in which they are first opened, that leads nowhere.
pub(crate) fn push_routes(
    alloc: Global,
    found: &mut Vec<FoundFault<'_>>,
    components: &[Component<'_>],
    opened: &[Vec<Name>],
    leaves: &[Vec<Step<'static>>],
) -> Result<(), AllocError>
    requires { map (λ v. v.items) opened.now ≡ map services components.now }
    ensures { OnOk result (lines_found found.new.items ≡ lines_found found.old.items ++ map unresolved_text (routes_lost components.now)) }
{
    for (place, component) in components.iter().enumerate() {
        let opened = opened[place].as_slice();
        push_leaf(alloc, found, component, opened, leaves, place)?;
    }
    Ok(())
}

// Puts the number of a leaf, where there is one, at the end of others.
fn push_server(used: &mut Vec<u32>, server: Option<LeafNo>) -> Result<(), AllocError>
    ensures { OnOk result (used.new.items ≡ used.old.items ++ listed_if server) }
{
    match server {
        Some(server) => {
            used.push(server.number())?;
            Ok(())
        }
        None => Ok(()),
    }
}

// The leaves that serve these services of a component.
fn used_by(
    alloc: Global,
    components: &[Component<'_>],
    component: &Component<'_>,
    services: &[Name],
) -> Result<Vec<u32>, AllocError>
    requires { length components.now < 2 ^ 32 }
    ensures { IfOk result (λ used. used.items ≡ all_found (λ service. listed_if (server_among components.now component.now service)) services.now) }
{
    let mut used = Vec::new(alloc);
    for service in services {
        push_server(&mut used, server_of(components, component, service))?;
    }
    Ok(used)
}

// The leaves that serve each component; these open those services.
fn all_used(
    alloc: Global,
    components: &[Component<'_>],
    opened: &[Vec<Name>],
) -> Result<Vec<Vec<u32>>, AllocError>
    requires few { length components.now < 2 ^ 32 }
    requires own { map (λ v. v.items) opened.now ≡ map services components.now }
    ensures { IfOk result (λ used. map (λ l. l.items) used.items ≡ map (used_of components.now) components.now) }
{
    let mut all = Vec::new(alloc);
    for (place, component) in components.iter().enumerate() {
        let opened = opened[place].as_slice();
        all.push(used_by(alloc, components, component, opened)?)?;
    }
    Ok(all)
}

// The services of a component that lead somewhere, with their servers; it opens these.
fn uses_of(
    alloc: Global,
    components: &[Component<'_>],
    component: &Component<'_>,
    opened: &[Name],
) -> Result<Vec<Use>, AllocError>
    requires { length components.now < 2 ^ 32 }
{
    let mut uses = Vec::new(alloc);
    for service in once(alloc, opened)? {
        if let Some(server) = server_of(components, component, &service) {
            let server = server.index();
            uses.push(Use { service, server })?;
        }
    }
    Ok(uses)
}

// The same of all.
fn all_uses(
    alloc: Global,
    components: &[Component<'_>],
    opened: &[Vec<Name>],
) -> Result<Vec<Vec<Use>>, AllocError>
    requires { length components.now < 2 ^ 32 }
{
    let mut all = Vec::new(alloc);
    for (component, opened) in components.iter().zip(opened) {
        all.push(uses_of(alloc, components, component, opened.as_slice())?)?;
    }
    Ok(all)
}

// From which leaf, by which of its uses, a leaf was first reached.
type Reached = Option<(usize, usize)>;

// Notes the leaves that a leaf uses and that were not reached before.
fn reach(
    reached: &mut [Reached],
    next: &mut Vec<usize>,
    leaf: usize,
    uses: &[Use],
) -> Result<(), AllocError> {
    for (number, used) in uses.iter().enumerate() {
        if let Some(None) = reached.get(used.server) {
            reached[used.server] = Some((leaf, number));
            next.push(used.server)?;
        }
    }
    Ok(())
}

// From where each leaf is reached that one reaches by uses, nearest ones first.
fn reached_from(alloc: Global, all: &[Vec<Use>], leaf: usize) -> Result<Vec<Reached>, AllocError> {
    let mut reached = Vec::new(alloc);
    for _leaf in all {
        reached.push(None)?;
    }
    let mut next = Vec::new(alloc);
    next.push(leaf)?;
    for turn in 0..all.len() {
        let Some(at) = next.get(turn).copied() else {
            return Ok(reached);
        };
        if let Some(uses) = all.get(at) {
            reach(reached.as_mut_slice(), &mut next, at, uses.as_slice())?;
        }
    }
    Ok(reached)
}

// From where a leaf was first reached, with the name of that leaf and the service.
fn step_to(
    components: &[Component<'_>],
    all: &[Vec<Use>],
    reached: &[Reached],
    at: usize,
) -> Option<(usize, (Name, Name))> {
    let (from, number) = (*reached.get(at)?)?;
    let used = all.get(from)?.get(number)?;
    let name = components.get(from)?.leaf().name().copied();
    Some((from, (name, used.service.copied())))
}

// The way from a leaf round to itself, the last use first; none where it does not reach itself.
fn round_backwards(
    alloc: Global,
    components: &[Component<'_>],
    all: &[Vec<Use>],
    leaf: usize,
) -> Result<Vec<(Name, Name)>, AllocError> {
    let reached = reached_from(alloc, all, leaf)?;
    let mut way = Vec::new(alloc);
    let mut at = leaf;
    for _step in 0..all.len() {
        let Some((from, step)) = step_to(components, all, reached.as_slice(), at) else {
            return Ok(way);
        };
        way.push(step)?;
        if from == leaf {
            return Ok(way);
        }
        at = from;
    }
    Ok(way)
}

// A way from its last step to its first.
fn forwards(alloc: Global, way: &[(Name, Name)]) -> Result<Vec<(Name, Name)>, AllocError> {
    let mut turned = Vec::new(alloc);
    for (leaf, service) in way.iter().rev() {
        turned.push((leaf.copied(), service.copied()))?;
    }
    Ok(turned)
}

// A leaf that reaches itself, at the end of what was found.
fn push_cycle(
    alloc: Global,
    found: &mut Vec<FoundFault<'_>>,
    components: &[Component<'_>],
    uses: &[Vec<Use>],
    leaves: &[Vec<Step<'static>>],
    place: usize,
) -> Result<(), AllocError>
    requires { place < length components.now }
    ensures { (c : Component) → slice_get components.now place ≡ Some c → OnOk result (lines_found found.new.items
        ≡ lines_found found.old.items ++ unresolved_text (Cycle c.node.name) ∷ []) }
{
    let way = round_backwards(alloc, components, uses, place)?;
    let fault = LoadFault::Resolve(ResolveFault::Cycle(components[place].leaf().name().copied()));
    let detail = Detail::Round(forwards(alloc, way.as_slice())?);
    let way = way_of(alloc, leaves, place)?;
    push_fault(alloc, found, &fault, way, FaultPart::Table, detail)
}

// Where a component reaches itself, it is put at the end of what was found.
fn push_reached(
    alloc: Global,
    found: &mut Vec<FoundFault<'_>>,
    components: &[Component<'_>],
    used: &[Vec<u32>],
    uses: &[Vec<Use>],
    leaves: &[Vec<Step<'static>>],
    place: usize,
) -> Result<(), AllocError>
    requires { place < length components.now }
    ensures { (c : Component) → slice_get components.now place ≡ Some c → OnOk result (lines_found found.new.items ≡ lines_found found.old.items
        ++ map unresolved_text (when (reaches_by (length used.now) (map (λ l. l.items) used.now) place place) (Cycle c.node.name))) }
{
    if !reaches_itself(alloc, used, place)? {
        return Ok(());
    }
    push_cycle(alloc, found, components, uses, leaves, place)
}

// Each leaf, in preorder, that reaches itself, where these leaves serve each.
fn push_all_reached(
    alloc: Global,
    found: &mut Vec<FoundFault<'_>>,
    components: &[Component<'_>],
    used: &[Vec<u32>],
    uses: &[Vec<Use>],
    leaves: &[Vec<Step<'static>>],
) -> Result<(), AllocError>
    requires { map (λ l. l.items) used.now ≡ map (used_of components.now) components.now }
    ensures { (all : System) → all.components ≡ components.now → OnOk result (lines_found found.new.items
        ≡ lines_found found.old.items ++ map unresolved_text (cycles all 0 components.now)) }
{
    for place in 0..components.len() {
        push_reached(alloc, found, components, used, uses, leaves, place)?;
    }
    Ok(())
}

/// Each leaf, in preorder, that reaches itself by the services that lead somewhere.
pub(crate) fn push_cycles(
    alloc: Global,
    found: &mut Vec<FoundFault<'_>>,
    components: &[Component<'_>],
    opened: &[Vec<Name>],
    leaves: &[Vec<Step<'static>>],
) -> Result<(), AllocError>
    requires few { length components.now < 2 ^ 32 }
    requires own { map (λ v. v.items) opened.now ≡ map services components.now }
    ensures { (all : System) → all.components ≡ components.now → OnOk result (lines_found found.new.items
        ≡ lines_found found.old.items ++ map unresolved_text (cycles all 0 components.now)) }
{
    let used = all_used(alloc, components, opened)?;
    let uses = all_uses(alloc, components, opened)?;
    push_all_reached(
        alloc,
        found,
        components,
        used.as_slice(),
        uses.as_slice(),
        leaves,
    )
}

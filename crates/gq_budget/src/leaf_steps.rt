// How many steps leaves may take, by who uses whom.
ghost use Rattle.std.specs.Prelude.{◌≡◌, ◌<◌, ◌^◌, length, map, Some, IfOk, slice_get};
ghost use Rattle.gq_model.specs.machine.Scenario as model;
ghost use Rattle.gq_model.specs.machine.Scenario.{system};
ghost use Rattle.gq_budget.specs.Causes.{cause_of};
ghost use Rattle.gq_budget.specs.Step_budgets.{budgets_of};
ghost use Rattle.gq_budget.specs.Leaf_section_counts.{AreCountsOf};
ghost use Rattle.gq_budget.specs.Times.{time_at, times_table};
ghost use Rattle.gq_resolve.specs.Served.{AreServers, server_among};
ghost use Rattle.gq_budget.specs.Leaf_routes.{leaves_of};
ghost use Rattle.gq_budget.specs.internal.Route_leads.{AreReported, leads_to, leads_row, leads_rows};

use crate::budgets::{counted_budgets, counted_times};
use crate::cause::Cause;
use crate::counted_leaves::CountedLeaf;
use crate::number_sums::Numbers;
use crate::step_budget::StepBudget;
use gq_model::program::Name;
use gq_resolve::component::Component;
use gq_resolve::routes::{Routes, server_of};
use gq_scenario::scenario::{LeafNo, Scenario};
use gq_verify::Service;
use std::alloc::{AllocError, Global};
use std::marker::Model;

// The leaf that serves the sessions of a service of a component, the leaf of this number. Its route is looked for only where the routes report no server, which
// they do of each service that a program opens.
fn served_by(
    components: &[Component<'_>],
    routes: &Routes,
    user: LeafNo,
    component: &Component<'_>,
    service: &Name,
) -> Option<LeafNo>
    requires few { length components.now < 2 ^ 32 }
    requires reported { AreReported components.now routes.now }
    requires user { slice_get components.now user ≡ Some component.now }
    ensures { result ≡ server_among components.now component.now service.now }
{
    match routes.server(user, service) {
        Some(server) => Some(server),
        None => server_of(components, component, service),
    }
}

// The name of a service that a leaf provides, as routes and requests are searched for it.
#[derive(Drop)]
struct Provided<'a> {
    name: &'a Name,
    service: Service<'a>,
}

impl<'a> Model for Provided<'a> {
    ghost use Rattle.std.specs.Prelude.{◌≡◌, ℕ, List};

    ghost Value = { List ℕ };

    ghost view = { λ p. p.name.now };

    ghost invariant = { λ p. p.service ≡ p.name.now };
}

impl<'a> Provided<'a> {
    // The service of this name.
    fn new(name: &'a Name) -> Provided<'a>
        ensures { result ≡ name.now }
    {
        Provided {
            name,
            service: Service::new(name.as_bytes()),
        }
    }
}

// Whether a component, the leaf of the second number, asks for a service and its route for it leads to the leaf of the first. A route is looked for only where
// it is asked for.
fn leads_to(
    components: &[Component<'_>],
    routes: &Routes,
    leaf: LeafNo,
    provided: &Provided<'_>,
    user: LeafNo,
    component: &Component<'_>,
    counted: &CountedLeaf,
) -> bool
    requires few { length components.now < 2 ^ 32 }
    requires reported { AreReported components.now routes.now }
    requires user { slice_get components.now user ≡ Some component.now }
    ensures { result ≡ leads_to components.now leaf provided.now component.now counted.now }
{
    counted.asks_for(&provided.service)
        && served_by(components, routes, user, component, provided.name) == Some(leaf)
}

// Which of these leaves ask for a service by routes that lead to the leaf of a number.
fn leads_row(
    alloc: Global,
    components: &[Component<'_>],
    routes: &Routes,
    counted: &[CountedLeaf],
    leaf: LeafNo,
    provided: &Provided<'_>,
) -> Result<Vec<bool>, AllocError>
    requires few { length components.now < 2 ^ 32 }
    requires reported { AreReported components.now routes.now }
    ensures { IfOk result (λ row. row.items ≡ leads_row components.now leaf (Some provided.now) components.now counted.now) }
{
    let mut row = Vec::with_capacity(alloc, components.len())?;
    for (place, component) in components.iter().enumerate() {
        let Some(counted) = counted.get(place) else {
            return Ok(row);
        };
        let user = LeafNo::new(place as u32);
        row.push(leads_to(components, routes, leaf, provided, user, component, counted))?;
    }
    Ok(row)
}

// Which of these leaves ask for the service of a component, the leaf of a number, by routes that lead to it; none where it provides none, and nothing is
// reported.
fn leads(
    alloc: Global,
    components: &[Component<'_>],
    routes: &Routes,
    counted: &[CountedLeaf],
    leaf: LeafNo,
    component: &Component<'_>,
) -> Result<Vec<bool>, AllocError>
    requires few { length components.now < 2 ^ 32 }
    requires reported { AreReported components.now routes.now }
    ensures { IfOk result (λ row. row.items ≡ leads_row components.now leaf component.now.node.provides components.now counted.now) }
{
    match component.leaf().provides() {
        Some(name) => leads_row(
            alloc,
            components,
            routes,
            counted,
            leaf,
            &Provided::new(name),
        ),
        None => Ok(Vec::new(alloc)),
    }
}

// For each of these leaves, which leaves ask for its service by routes that lead to it.
fn leads_rows(
    alloc: Global,
    components: &[Component<'_>],
    routes: &Routes,
    counted: &[CountedLeaf],
) -> Result<Vec<Vec<bool>>, AllocError>
    requires few { length components.now < 2 ^ 32 }
    requires reported { AreReported components.now routes.now }
    ensures { IfOk result (λ rows. map (λ row. row.items) rows.items ≡ leads_rows components.now counted.now 0 components.now) }
{
    let mut rows = Vec::new(alloc);
    for (place, component) in components.iter().enumerate() {
        let leaf = LeafNo::new(place as u32);
        rows.push(leads(alloc, components, routes, counted, leaf, component)?)?;
    }
    Ok(rows)
}

/// How often each section of each leaf runs at most for one cause.
#[derive(Drop)]
pub struct Times {
    often: Vec<Numbers>,
}

impl Model for Times {
    ghost use Rattle.std.specs.Prelude.{ℕ, List};

    ghost Value = { List (List ℕ) };

    ghost view = { λ t. t.often.items };
}

impl Times {
    /// How often the section at a place among those of a leaf's program runs; 2^64 - 1 where it is more often.
    pub fn often(&self, leaf: usize, part: usize) -> u64
        ensures { result ≡ time_at self.now leaf part }
    {
        match self.often.get(leaf) {
            Some(numbers) => numbers.at(part),
            None => 0,
        }
    }
}

/// How often each section of each leaf of a scenario runs at most for one cause, by who may ask for it. Refused only if the host refuses memory.
pub fn times_of(
    alloc: Global,
    cause: Cause,
    scenario: &Scenario,
    components: &[Component<'_>],
    routes: &Routes,
    counted: &[CountedLeaf],
) -> Result<Times, AllocError>
    requires components { components.now ≡ model.components scenario.now }
    requires routes { AreServers scenario.now routes.now }
    requires counted { AreCountsOf counted.now (leaves_of (system scenario.now)) }
    ensures { IfOk result (λ t. t ≡ times_table (cause_of cause) (system scenario.now)) }
{
    scenario.bounds();
    let rows = leads_rows(alloc, components, routes, counted)?;
    let often = counted_times(alloc, cause, counted, rows.as_slice())?;
    Ok(Times { often })
}

/// The step budgets of a scenario's leaves, in their order. The leaves are counted and have these routes.
///
/// A budget has the steps of a leaf for the start: those of its `main`, and those of its sections as often as its clients may ask for them. It has the same for
/// each signal of each leaf, whose section is done once, and no `main`. A number is 2^64 - 1 where the steps are more. Refused only if the host refuses memory.
pub fn steps_of(
    alloc: Global,
    scenario: &Scenario,
    components: &[Component<'_>],
    routes: &Routes,
    counted: &[CountedLeaf],
) -> Result<Vec<StepBudget>, AllocError>
    requires components { components.now ≡ model.components scenario.now }
    requires routes { AreServers scenario.now routes.now }
    requires counted { AreCountsOf counted.now (leaves_of (system scenario.now)) }
    ensures { IfOk result (λ steps. steps.items ≡ budgets_of (system scenario.now)) }
{
    scenario.bounds();
    let leads = leads_rows(alloc, components, routes, counted)?;
    let steps = counted_budgets(alloc, counted, leads.as_slice())?;
    Ok(steps)
}

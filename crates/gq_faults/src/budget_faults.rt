// Leaves that use more than they are given, or may take too many steps.
ghost use Rattle.std.specs.Prelude.{◌≡◌, ◌∷◌, [], ◌++◌, None, IfOk, OnOk, length, map};
ghost use Rattle.gq_model.specs.machine.Scenario as model;
ghost use Rattle.gq_model.specs.rules.Accept.{budgets};
ghost use Rattle.gq_model.specs.rules.Resolve.{unresolved};
ghost use Rattle.gq_model.specs.texts.Fault_texts.{refusal_text};
ghost use Rattle.gq_resolve.specs.Served.{AreServers};
ghost use Rattle.gq_load.specs.internal.Surveys.{AreSurveys};
ghost use Rattle.gq_faults.specs.Leaves_over_limit.{over_limit};
ghost use Rattle.gq_faults.specs.Scenario_faults.{over_budgets};
ghost use Rattle.gq_faults.specs.Found_lines.{lines_found};

use crate::fault_value::{Detail, FaultPart, FoundFault, push_fault};
use crate::leaf_tables::way_to;
use gq_load::accepted::kept_budgets;
use gq_load::budget::Budget;
use gq_load::load_fault::LoadFault;
use gq_load::over::{Limit, over_fault};
use gq_load::surveys::Surveys;
use gq_model::limits::GREATEST_STEPS;
use gq_resolve::component::Component;
use gq_resolve::resolve_fault::ResolveError;
use gq_resolve::resolve_opened;
use gq_resolve::routes::Routes;
use gq_scenario::key::Key;
use gq_scenario::scenario::Scenario;
use gq_toml_places::Step;
use std::alloc::{AllocError, Global};

// The first number of steps of a leaf that is too great: that for the start, or that for a signal of one of these leaves.
fn too_many_steps(all: &[Component<'_>], budget: &Budget) -> Detail<'static> {
    let steps = budget.steps();
    if steps.from_start() > GREATEST_STEPS {
        return Detail::Steps(steps.from_start());
    }
    for (place, component) in all.iter().enumerate() {
        let leaf = component.leaf();
        for signal in 0..leaf.signals() {
            let number = steps.for_signal(place, signal);
            if number > GREATEST_STEPS {
                return Detail::SignalSteps(leaf.name().copied(), signal, number);
            }
        }
    }
    Detail::Steps(steps.from_start())
}

// The key at which a leaf that uses too much is wrong, and what was compared.
fn compared(fault: &LoadFault, all: &[Component<'_>], budget: &Budget) -> (Key, Detail<'static>) {
    match fault {
        LoadFault::OverQuantum { own, quantum, .. } => {
            let (own, quantum) = (*own, *quantum);
            (Key::Quantum, Detail::Own { own, quantum })
        }
        LoadFault::OverCaps { own, caps, .. } => {
            let (own, caps) = (*own, *caps);
            (Key::Caps, Detail::OwnCaps { own, caps })
        }
        _ => (Key::Name, too_many_steps(all, budget)),
    }
}

// A leaf that uses more than a limit.
fn push_over(
    alloc: Global,
    found: &mut Vec<FoundFault<'_>>,
    limit: Limit,
    all: &[Component<'_>],
    component: &Component<'_>,
    budget: &Budget,
    leaves: &[Vec<Step<'static>>],
    place: usize,
) -> Result<(), AllocError>
    ensures { OnOk result (lines_found found.new.items
        ≡ lines_found found.old.items ++ map refusal_text (over_limit limit (component.now ∷ []) (budget.now ∷ []))) }
{
    let Some(fault) = over_fault(limit, component, budget) else {
        return Ok(());
    };
    let (key, detail) = compared(&fault, all, budget);
    let way = way_to(alloc, leaves, place, key)?;
    push_fault(alloc, found, &fault, way, FaultPart::Key, detail)
}

// All leaves that use more than a limit.
fn push_all_over(
    alloc: Global,
    found: &mut Vec<FoundFault<'_>>,
    limit: Limit,
    components: &[Component<'_>],
    budgets: &[Budget],
    leaves: &[Vec<Step<'static>>],
) -> Result<(), AllocError>
    requires { length budgets.now ≡ length components.now }
    ensures { OnOk result (lines_found found.new.items
        ≡ lines_found found.old.items ++ map refusal_text (over_limit limit components.now budgets.now)) }
{
    for (place, component) in components.iter().enumerate() {
        let budget = &budgets[place];
        push_over(
            alloc, found, limit, components, component, budget, leaves, place,
        )?;
    }
    Ok(())
}

// Which leaf serves each service, of a scenario that is resolved.
fn routes_of(
    alloc: Global,
    scenario: &Scenario,
    components: &[Component<'_>],
    surveys: &Surveys,
) -> Result<Routes, AllocError>
    requires components { components.now ≡ model.components scenario.now }
    requires surveys { AreSurveys scenario.now.interfaces components.now surveys.now.owns.items surveys.now.counted.items
        (map (λ v. v.items) surveys.now.opened.items) }
    requires resolved { unresolved scenario.now ≡ None }
    ensures { IfOk result (λ routes. AreServers scenario.now routes) }
{
    match resolve_opened(alloc, scenario, components, surveys.opened.as_slice()) {
        Ok(routes) => Ok(routes),
        Err(ResolveError::Memory(_)) => Err(AllocError),
        Err(ResolveError::Fault(_)) => unreachable!(),
    }
}

/// Each leaf that uses more bytes than its quantum has, then each that may take too many steps, then each that uses more capabilities than it is given; each
/// time in preorder. The scenario is resolved.
pub(crate) fn push_budgets(
    alloc: Global,
    found: &mut Vec<FoundFault<'_>>,
    scenario: &Scenario,
    components: &[Component<'_>],
    surveys: &Surveys,
    leaves: &[Vec<Step<'static>>],
) -> Result<(), AllocError>
    requires components { components.now ≡ model.components scenario.now }
    requires surveys { AreSurveys scenario.now.interfaces components.now surveys.now.owns.items surveys.now.counted.items
        (map (λ v. v.items) surveys.now.opened.items) }
    requires resolved { unresolved scenario.now ≡ None }
    ensures { OnOk result (lines_found found.new.items
        ≡ lines_found found.old.items ++ map refusal_text (over_budgets components.now (budgets scenario.now))) }
{
    let routes = routes_of(alloc, scenario, components, surveys)?;
    let budgets = kept_budgets(alloc, scenario, components, &routes, surveys)?;
    let budgets = budgets.as_slice();
    push_all_over(alloc, found, Limit::Ram, components, budgets, leaves)?;
    push_all_over(alloc, found, Limit::Steps, components, budgets, leaves)?;
    push_all_over(alloc, found, Limit::Caps, components, budgets, leaves)
}

// The faults of a scenario that was read: those of the first stage that has any.
ghost use Rattle.std.specs.Prelude.{◌≡◌, ◌++◌, [], None, IfOk, OnOk, map};
ghost use Rattle.gq_model.specs.machine.Scenario as model;
ghost use Rattle.gq_model.specs.rules.Use.{services};
ghost use Rattle.gq_model.specs.texts.Fault_texts.{refusal_text, unresolved_text};
ghost use Rattle.gq_load.specs.Load.{fault_text, sources_fault};
ghost use Rattle.gq_load.specs.internal.Judged_programs.{first_refusal};
ghost use Rattle.gq_load.specs.internal.Surveys.{AreSurveys};
ghost use Rattle.gq_faults.specs.Scenario_faults as spec;
ghost use Rattle.gq_faults.specs.Scenario_faults.{unresolved_all};
ghost use Rattle.gq_faults.specs.Found_lines.{lines_found};

use crate::budget_faults::push_budgets;
use crate::fault_value::FoundFault;
use crate::leaf_tables::push_leaves;
use crate::offer_faults::push_bad_offers;
use crate::quantum_faults::push_quanta;
use crate::route_faults::{push_cycles, push_routes};
use crate::sources::{push_rules, push_sources};
use crate::start_after_faults::push_after;
use gq_load::load_fault::LoadError;
use gq_load::surveys::{Surveys, survey_sources};
use gq_model::program::Name;
use gq_program::Interfaces;
use gq_resolve::component::{Component, components};
use gq_resolve::quanta::Resource;
use gq_scenario::scenario::Scenario;
use gq_toml_places::Step;
use std::alloc::{AllocError, Global};

// All faults of quanta, offers, leaves that start after others, routes and cycles. The components are those of the scenario, which open these services.
fn push_unresolved<'s>(
    alloc: Global,
    found: &mut Vec<FoundFault<'s>>,
    scenario: &'s Scenario,
    components: &[Component<'_>],
    opened: &[Vec<Name>],
    leaves: &[Vec<Step<'static>>],
) -> Result<(), AllocError>
    requires components { components.now ≡ model.components scenario.now }
    requires own { map (λ v. v.items) opened.now ≡ map services components.now }
    ensures { OnOk result (lines_found found.new.items ≡ lines_found found.old.items ++ map unresolved_text (unresolved_all scenario.now)) }
{
    scenario.bounds();
    push_quanta(alloc, found, Resource::Ram, scenario)?;
    push_quanta(alloc, found, Resource::Caps, scenario)?;
    push_bad_offers(alloc, found, scenario)?;
    push_after(alloc, found, components, leaves)?;
    push_routes(alloc, found, components, opened, leaves)?;
    push_cycles(alloc, found, components, opened, leaves)
}

// What is kept of programs that break no rule.
fn surveys_of(
    alloc: Global,
    components: &[Component<'_>],
    interfaces: &Interfaces,
) -> Result<Surveys, AllocError>
    requires sources { sources_fault components.now ≡ None }
    requires rules { first_refusal interfaces.now components.now ≡ None }
    ensures { IfOk result (λ s. AreSurveys interfaces.now components.now s.owns.items s.counted.items (map (λ v. v.items) s.opened.items)) }
{
    match survey_sources(alloc, components, interfaces) {
        Ok(surveys) => Ok(surveys),
        Err(LoadError::Memory) => Err(AllocError),
        Err(LoadError::Fault(_)) => unreachable!(),
    }
}

// All faults of quanta, offers, leaves that start after others, routes and cycles; where there is none, all of budgets.
fn push_rest<'s>(
    alloc: Global,
    found: &mut Vec<FoundFault<'s>>,
    scenario: &'s Scenario,
    components: &[Component<'_>],
    leaves: &[Vec<Step<'static>>],
) -> Result<(), AllocError>
    requires components { components.now ≡ model.components scenario.now }
    requires sources { sources_fault components.now ≡ None }
    requires rules { first_refusal scenario.now.interfaces components.now ≡ None }
    requires none { found.old.items ≡ [] }
    ensures { OnOk result (lines_found found.new.items ≡ map refusal_text (spec.rest_faults scenario.now)) }
{
    let surveys = surveys_of(alloc, components, scenario.interfaces())?;
    push_unresolved(
        alloc,
        found,
        scenario,
        components,
        surveys.opened.as_slice(),
        leaves,
    )?;
    if !found.is_empty() {
        return Ok(());
    }
    push_budgets(alloc, found, scenario, components, &surveys, leaves)
}

// The first fault of each text and code; where there is none, the rule that each program breaks first; where there is none, the rest.
fn push_all<'s>(
    alloc: Global,
    found: &mut Vec<FoundFault<'s>>,
    scenario: &'s Scenario,
    components: &[Component<'_>],
    leaves: &[Vec<Step<'static>>],
) -> Result<(), AllocError>
    requires components { components.now ≡ model.components scenario.now }
    requires none { found.old.items ≡ [] }
    ensures { OnOk result (lines_found found.new.items ≡ map fault_text (spec.scenario_faults scenario.now)) }
{
    push_sources(alloc, found, components, leaves)?;
    if !found.is_empty() {
        return Ok(());
    }
    push_rules(
        alloc,
        found,
        scenario.version(),
        components,
        scenario.interfaces(),
        leaves,
    )?;
    if !found.is_empty() {
        return Ok(());
    }
    push_rest(alloc, found, scenario, components, leaves)
}

// No ways. The lifetime of what is put there is the one of the signature: that of a list that is made where it is borrowed would be a shorter one.
fn no_ways(alloc: Global) -> Vec<Vec<Step<'static>>> {
    Vec::new(alloc)
}

// The same of faults.
fn none_found<'s>(alloc: Global) -> Vec<FoundFault<'s>>
    ensures { result.items ≡ [] }
{
    Vec::new(alloc)
}

// The ways to the leaves of a scenario in its document.
fn all_leaves(alloc: Global, scenario: &Scenario) -> Result<Vec<Vec<Step<'static>>>, AllocError> {
    let mut leaves = no_ways(alloc);
    push_leaves(alloc, &mut leaves, &[], scenario.nodes())?;
    Ok(leaves)
}

// The faults of a scenario, which has these components.
fn found_in<'s>(
    alloc: Global,
    scenario: &'s Scenario,
    components: &[Component<'_>],
    leaves: &[Vec<Step<'static>>],
) -> Result<Vec<FoundFault<'s>>, AllocError>
    requires { components.now ≡ model.components scenario.now }
    ensures { IfOk result (λ found. lines_found found.items ≡ map fault_text (spec.scenario_faults scenario.now)) }
{
    let mut found = none_found(alloc);
    push_all(alloc, &mut found, scenario, components, leaves)?;
    Ok(found)
}

/// The faults of a scenario, by stages. First comes the first fault of each text and code that is no program. Without one comes the rule that each program
/// breaks first. Then come all faults of quanta, offers, leaves that start after others, routes and cycles, and last all of budgets. None where the scenario is
/// accepted.
pub fn scenario_faults<'s>(
    alloc: Global,
    scenario: &'s Scenario,
) -> Result<Vec<FoundFault<'s>>, AllocError>
    ensures { IfOk result (λ found. lines_found found.items ≡ map fault_text (spec.scenario_faults scenario.now)) }
{
    let leaves = all_leaves(alloc, scenario)?;
    let components = components(alloc, scenario)?;
    let found = found_in(alloc, scenario, components.as_slice(), leaves.as_slice())?;
    Ok(found)
}

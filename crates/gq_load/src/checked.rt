// Scenarios that are checked alone, so that no program has to stay.
ghost use Rattle.std.specs.Prelude.{◌≡◌, None, IfOk, IfErr, IsOkAnd};
ghost use Rattle.gq_model.specs.rules.Accept.{budget_lines};
ghost use Rattle.gq_load.specs.Load_faults.{PrintsFault, Refuses};
ghost use Rattle.gq_load.specs.Load.{loaded, scenario_fault};

use crate::accepted::judge;
use crate::budget_lines::component_lines;
use crate::load_fault::{LoadError, LoadFault};
use crate::signal_lines::push_signal_lines;
use crate::surveys::survey_sources;
use gq_reader::reader::read_scenario;
use gq_resolve::component::components;
use gq_scenario::scenario::Scenario;
use gq_scenario::scenario_fault::ScenarioError;
use std::alloc::Global;

/// A line for each budget of a leaf of a scenario, in preorder, and then one for each signal, where the verifier accepts it.
///
/// Refused as `Accepted::read` is of a scenario that was read. It allocates host memory for one program at a time, beside what the scenario's size asks for.
pub fn scenario_lines(alloc: Global, scenario: &Scenario) -> Result<Vec<u8>, LoadError>
    ensures lines { IfOk result (λ lines. lines.items ≡ budget_lines scenario.now) }
    ensures faultless { IfOk result (λ lines. scenario_fault scenario.now ≡ None) }
    ensures refused { IfErr result (λ e. PrintsFault e (scenario_fault scenario.now)) }
{
    let components = components(alloc, scenario)?;
    let surveys = survey_sources(alloc, components.as_slice(), scenario.interfaces())?;
    let (_routes, budgets) = judge(alloc, scenario, components.as_slice(), &surveys)?;
    scenario.bounds();
    let mut lines = component_lines(
        alloc,
        scenario.version(),
        components.as_slice(),
        budgets.as_slice(),
    )?;
    push_signal_lines(&mut lines, components.as_slice(), budgets.as_slice())?;
    Ok(lines)
}

/// A line for each budget of a leaf of the scenario of a text, in preorder, and then one for each signal, where the verifier accepts it.
///
/// Refused as `Accepted::read` is. It allocates host memory for one program at a time, beside the text's own.
pub fn checked_lines(alloc: Global, text: &[u8]) -> Result<Vec<u8>, LoadError>
    ensures lines { IfOk result (λ lines. IsOkAnd (loaded text.now) (λ s. lines.items ≡ budget_lines s)) }
    ensures refused { IfErr result (λ e. Refuses e (loaded text.now)) }
{
    match read_scenario(alloc, text) {
        Ok(scenario) => scenario_lines(alloc, &scenario),
        Err(ScenarioError::Memory(_)) => Err(LoadError::Memory),
        Err(ScenarioError::Fault(fault)) => Err(LoadError::Fault(LoadFault::Scenario(fault))),
    }
}

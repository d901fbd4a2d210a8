// Scenarios that are judged without their quantities.
ghost use Rattle.std.specs.Prelude.{◌≡◌, Ok, IfOk, IfErr};
ghost use Rattle.gq_load.specs.Load_faults.{Refuses};
ghost use Rattle.gq_scenario.specs.Top_table.{scenario_in};
ghost use Rattle.gq_sizes.specs.Judged_scenario.{judged_without_from};

use gq_load::load_fault::{LoadError, LoadFault};
use gq_reader::reader::read_scenario;
use gq_scenario::scenario::Scenario;
use gq_scenario::scenario_fault::ScenarioError;
use std::alloc::Global;

/// The scenario of a text, or its first fault.
pub(crate) fn read(alloc: Global, text: &[u8]) -> Result<Scenario, LoadError>
    ensures read { IfOk result (λ s. scenario_in text.now ≡ Ok s) }
    ensures refused { IfErr result (λ e. Refuses e (judged_without_from (scenario_in text.now))) }
{
    match read_scenario(alloc, text) {
        Ok(scenario) => Ok(scenario),
        Err(ScenarioError::Memory(_)) => Err(LoadError::Memory),
        Err(ScenarioError::Fault(fault)) => Err(LoadError::Fault(LoadFault::Scenario(fault))),
    }
}

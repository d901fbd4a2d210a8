// Scenarios that are read and resolved, but not judged.
ghost use Rattle.std.specs.Prelude.{◌≡◌, None, Ok, IfOk, IfErr};
ghost use Rattle.gq_model.specs.machine.Scenario as model;
ghost use Rattle.gq_resolve.specs.NodeTables.{all_rows};
ghost use Rattle.gq_load.specs.Load_faults.{PrintsFault, Refuses};
ghost use Rattle.gq_load.specs.internal.Judged_programs.{programs_of};
ghost use Rattle.gq_load.specs.Unverified.{unverified, unverified_fault};

use crate::leaf_programs::read_programs;
use crate::load_fault::{LoadError, LoadFault};
use gq_program::program_tree::Program;
use gq_reader::reader::read_scenario;
use gq_resolve::component::components;
use gq_resolve::node_table::Entries;
use gq_resolve::{NodeTable, resolve_components};
use gq_scenario::scenario::Scenario;
use gq_scenario::scenario_fault::ScenarioError;
use std::alloc::Global;

// The programs and the nodes of a scenario, or its first fault but those of a judged program.
fn resolve_scenario(
    alloc: Global,
    scenario: &Scenario,
) -> Result<(Vec<Program>, Entries), LoadError>
    ensures programs { IfOk result (λ found. found.0.items ≡ programs_of (model.components scenario.now)) }
    ensures entries { IfOk result (λ found. found.1 ≡ all_rows scenario.now) }
    ensures faultless { IfOk result (λ found. unverified_fault scenario.now ≡ None) }
    ensures refused { IfErr result (λ e. PrintsFault e (unverified_fault scenario.now)) }
{
    let components = components(alloc, scenario)?;
    let programs = read_programs(alloc, components.as_slice())?;
    let routes = resolve_components(alloc, scenario, components.as_slice(), programs.as_slice())?;
    let entries = Entries::of(alloc, scenario, components.as_slice(), &routes)?;
    Ok((programs, entries))
}

// The table of a scenario, or its first fault but those of a judged program.
fn resolved(alloc: Global, scenario: Scenario) -> Result<NodeTable, LoadError>
    ensures scenario { IfOk result (λ table. table ≡ scenario) }
    ensures faultless { IfOk result (λ table. unverified_fault scenario ≡ None) }
    ensures refused { IfErr result (λ e. PrintsFault e (unverified_fault scenario)) }
{
    let (programs, entries) = resolve_scenario(alloc, &scenario)?;
    Ok(NodeTable::new(scenario, programs, entries))
}

/// The scenario of a text in TOML, of either version, as a table of its nodes. Its programs are read, but not judged.
///
/// Fails if the host refuses memory, and with the first fault: the text is no scenario; the text or the code of a leaf's program, in
/// preorder, is none; the scenario is not resolved.
pub fn read_unverified(alloc: Global, text: &[u8]) -> Result<NodeTable, LoadError>
    ensures read { IfOk result (λ table. unverified text.now ≡ Ok table) }
    ensures refused { IfErr result (λ e. Refuses e (unverified text.now)) }
{
    match read_scenario(alloc, text) {
        Ok(scenario) => resolved(alloc, scenario),
        Err(ScenarioError::Memory(_)) => Err(LoadError::Memory),
        Err(ScenarioError::Fault(fault)) => Err(LoadError::Fault(LoadFault::Scenario(fault))),
    }
}

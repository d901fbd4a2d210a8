// Scenarios that differ in quantities and in what their statements give alone.
ghost use Rattle.std.specs.Prelude.{◌≡◌, IsTrue, IfOk, IfErr, map};
ghost use Rattle.gq_load.specs.Load_faults.{PrintsFault};
ghost use Rattle.gq_load.specs.Unsized_judgement.{unsized_fault};
ghost use Rattle.gq_model.specs.machine.Scenario as model;
ghost use Rattle.gq_scenario.specs.Without_quantities.{unsized};
ghost use Rattle.gq_fit.specs.Refitted.{IsRefitted};

use crate::same_programs::same_programs;
use crate::same_shape::same_shape;
use gq_load::load_fault::LoadError;
use gq_load::unsized_scenarios::{Unsized, judge_unsized};
use gq_program::program_tree::Program;
use gq_resolve::component::components;
use gq_scenario::scenario::Scenario;
use gq_scenario::without_quantities::without_quantities;
use std::alloc::Global;

/// The programs of a scenario without quantities, in preorder, or its first fault.
fn programs_without(alloc: Global, free: &Scenario) -> Result<Vec<Program>, LoadError>
    ensures programs { IfOk result (λ ps. ps.items ≡ map (λ c. c.node.program) (model.components free.now)) }
    ensures refused { IfErr result (λ e. PrintsFault e (unsized_fault free.now)) }
{
    let components = components(alloc, free)?;
    let Unsized {
        programs,
        surveys,
        routes,
        budgets,
    } = judge_unsized(alloc, free, components.as_slice())?;
    drop(surveys);
    drop(routes);
    drop(budgets);
    Ok(programs)
}

/// The programs of a scenario in preorder, or its first fault that no quantity decides.
fn programs_of(alloc: Global, scenario: &Scenario) -> Result<Vec<Program>, LoadError>
    ensures programs { IfOk result (λ ps. ps.items ≡ map (λ c. c.node.program) (model.components (unsized scenario.now))) }
    ensures refused { IfErr result (λ e. PrintsFault e (unsized_fault (unsized scenario.now))) }
{
    let free = without_quantities(alloc, scenario)?;
    let programs = programs_without(alloc, &free);
    drop(free);
    programs
}

/// Whether a scenario is another with other quantities, whose programs give other amounts with `open` and `upgrade`.
///
/// Fails with the first fault of either that no quantity decides, or if the host refuses memory.
pub(crate) fn is_refitted(
    alloc: Global,
    made: &Scenario,
    scenario: &Scenario,
) -> Result<bool, LoadError>
    ensures refitted { IfOk result (λ b. IsTrue b → IsRefitted scenario.now made.now) }
    ensures only { IfOk result (λ b. IsRefitted scenario.now made.now → IsTrue b) }
{
    if !same_shape(made, scenario) {
        return Ok(false);
    }
    let new = programs_of(alloc, made)?;
    let old = programs_of(alloc, scenario)?;
    Ok(same_programs(new.as_slice(), old.as_slice()))
}

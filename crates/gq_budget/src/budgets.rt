// The step budgets of leaves.
ghost use Rattle.std.specs.Prelude.{◌≡◌, IfOk, map};
ghost use Rattle.gq_model.specs.machine.Scenario.{System};
ghost use Rattle.gq_budget.specs.Causes.{cause_of};
ghost use Rattle.gq_budget.specs.Leaf_routes.{leaves_of, leads_of};
ghost use Rattle.gq_budget.specs.Step_budgets.{budgets_of};
ghost use Rattle.gq_budget.specs.Leaf_section_counts.{AreCountsOf, AgreeWhereAsked};
ghost use Rattle.gq_budget.specs.Times.{times_table};

use crate::cause::Cause;
use crate::counted_leaves::CountedLeaf;
use crate::number_sums::Numbers;
use crate::signal_steps::{joined, signal_tables, steps_by};
use crate::step_budget::StepBudget;
use crate::uses::Uses;
use std::alloc::{AllocError, Global};

/// How often each section of each of the leaves of a system runs at most for one cause; 2^64 - 1 where it is more often. `leads` reports for each leaf which
/// leaves' routes for the service that it provides lead to it; of a leaf that asks for no section of that service it may report anything. Refused only if the
/// host refuses memory.
pub(crate) fn counted_times(
    alloc: Global,
    cause: Cause,
    leaves: &[CountedLeaf],
    leads: &[Vec<bool>],
) -> Result<Vec<Numbers>, AllocError>
    ensures { (system : System) → AreCountsOf leaves.now (leaves_of system)
        → AgreeWhereAsked leaves.now leaves.now (map (λ v. v.items) leads.now) (leads_of system) →
        IfOk result (λ often. often.items ≡ times_table (cause_of cause) system) }
{
    let uses = Uses::new(alloc, leaves, leads)?;
    let often = uses.times(alloc, cause)?;
    Ok(often)
}

/// The greatest number of steps of each of the leaves of a system, for the start and for each signal; 2^64 - 1 where there are more.
///
/// Their sections are counted, so that no program need be there any more. `leads` reports for each leaf which leaves' routes for the service that it provides
/// lead to it; of a leaf that asks for no section of that service it may report anything. Refused only if the host refuses memory.
pub fn counted_budgets(
    alloc: Global,
    leaves: &[CountedLeaf],
    leads: &[Vec<bool>],
) -> Result<Vec<StepBudget>, AllocError>
    ensures { (system : System) → AreCountsOf leaves.now (leaves_of system)
        → AgreeWhereAsked leaves.now leaves.now (map (λ v. v.items) leads.now) (leads_of system) →
        IfOk result (λ steps. steps.items ≡ budgets_of system) }
{
    let uses = Uses::new(alloc, leaves, leads)?;
    let starts = steps_by(alloc, leaves, &uses, Cause::Start)?;
    let tables = signal_tables(alloc, leaves, &uses)?;
    let budgets = joined(alloc, &starts, tables.as_slice())?;
    Ok(budgets)
}

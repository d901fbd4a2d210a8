// The steps of leaves for each cause, put together as the budgets of leaves.
ghost use Rattle.std.specs.Prelude.{◌≡◌, IfOk, map};
ghost use Rattle.gq_budget.specs.Causes.{cause_of};
ghost use Rattle.gq_budget.specs.internal.Run_rounds.{budgets_by};
ghost use Rattle.gq_budget.specs.internal.Signal_steps.{steps_by, signal_rows, signal_tables, column, joined};

use crate::cause::Cause;
use crate::counted_leaves::CountedLeaf;
use crate::number_sums::Numbers;
use crate::step_budget::StepBudget;
use crate::uses::Uses;
use smallvec::SmallVec;
use std::alloc::{AllocError, Global};

// What the sections of each of these leaves cost, where they run so often.
fn budgets(alloc: Global, leaves: &[CountedLeaf], often: &[Numbers]) -> Result<Numbers, AllocError>
    ensures { IfOk result (λ steps. steps ≡ budgets_by leaves.now often.now) }
{
    let mut steps = SmallVec::new(alloc);
    for (leaf, often) in leaves.iter().zip(often) {
        let costs = leaf.costs();
        steps.push(costs.products(often))?;
    }
    Ok(Numbers::new(steps))
}

/// The steps of each of these leaves for one cause.
pub(crate) fn steps_by(
    alloc: Global,
    leaves: &[CountedLeaf],
    uses: &Uses<'_>,
    cause: Cause,
) -> Result<Numbers, AllocError>
    ensures { IfOk result (λ steps. steps ≡ steps_by leaves.now uses.now (cause_of cause)) }
{
    let often = uses.times(alloc, cause)?;
    let steps = budgets(alloc, leaves, &often)?;
    Ok(steps)
}

// The steps of each of these leaves for each of so many signals of a leaf.
fn signal_rows(
    alloc: Global,
    leaves: &[CountedLeaf],
    uses: &Uses<'_>,
    leaf: usize,
    signals: u8,
) -> Result<Vec<Numbers>, AllocError>
    ensures { IfOk result (λ rows. rows.items ≡ signal_rows leaves.now uses.now leaf 0 signals) }
{
    let mut rows = Vec::new(alloc);
    for signal in 0..signals {
        rows.push(steps_by(alloc, leaves, uses, Cause::Signal(leaf, signal))?)?;
    }
    Ok(rows)
}

/// The steps of each of these leaves for each signal of each of them.
pub(crate) fn signal_tables(
    alloc: Global,
    leaves: &[CountedLeaf],
    uses: &Uses<'_>,
) -> Result<Vec<Vec<Numbers>>, AllocError>
    ensures { IfOk result (λ tables. map (λ t. t.items) tables.items ≡ signal_tables leaves.now uses.now 0 leaves.now) }
{
    let mut tables = Vec::new(alloc);
    for (place, leaf) in leaves.iter().enumerate() {
        tables.push(signal_rows(alloc, leaves, uses, place, leaf.signals())?)?;
    }
    Ok(tables)
}

// The number at a place of each of these.
fn column(alloc: Global, rows: &[Numbers], place: usize) -> Result<Numbers, AllocError>
    ensures { IfOk result (λ numbers. numbers ≡ column place rows.now) }
{
    let mut numbers = SmallVec::new(alloc);
    for row in rows {
        numbers.push(row.at(place))?;
    }
    Ok(Numbers::new(numbers))
}

// The same of each of these tables.
fn columns(alloc: Global, tables: &[Vec<Numbers>], place: usize) -> Result<Vec<Numbers>, AllocError>
    ensures { IfOk result (λ columns. columns.items ≡ map (column place) (map (λ t. t.items) tables.now)) }
{
    let mut columns = Vec::new(alloc);
    for table in tables {
        columns.push(column(alloc, table, place)?)?;
    }
    Ok(columns)
}

/// The budgets of leaves that take so many steps for the start, and so many for the signals of each leaf.
pub(crate) fn joined(
    alloc: Global,
    starts: &Numbers,
    tables: &[Vec<Numbers>],
) -> Result<Vec<StepBudget>, AllocError>
    ensures { IfOk result (λ budgets. budgets.items ≡ joined 0 starts.now (map (λ t. t.items) tables.now)) }
{
    let mut budgets = Vec::new(alloc);
    for (leaf, start) in starts.numbers().iter().enumerate() {
        budgets.push(StepBudget::new(*start, columns(alloc, tables, leaf)?))?;
    }
    Ok(budgets)
}

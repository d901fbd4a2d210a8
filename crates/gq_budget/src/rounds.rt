// How often sections run, round by round.
ghost use Rattle.std.specs.Prelude.{◌≡◌, true, IfOk, [], suc};
ghost use Rattle.gq_budget.specs.Causes.{cause_of};
ghost use Rattle.gq_budget.specs.internal.Run_rounds.{round, rounds};

use crate::asks::LeafAsks;
use crate::cause::Cause;
use crate::number_sums::Numbers;
use std::alloc::{AllocError, Global};

// How often each section of each leaf runs for one cause, where the sections that ask for it run so often.
pub(crate) fn round(
    alloc: Global,
    cause: Cause,
    asks: &[LeafAsks<'_>],
    table: &[Numbers],
) -> Result<Vec<Numbers>, AllocError>
    ensures { IfOk result (λ often. often.items ≡ round (cause_of cause) asks.now table.now) }
{
    let mut often = Vec::new(alloc);
    for leaf in asks {
        often.push(leaf.round(alloc, cause, table)?)?;
    }
    Ok(often)
}

// Whether two tables have the same numbers, row by row.
pub(crate) fn are_same(table: &[Numbers], other: &[Numbers]) -> bool
    ensures { result ≡ true → table.now ≡ other.now }
{
    if table.len() != other.len() {
        return false;
    }
    for (row, numbers) in table.iter().enumerate() {
        if !numbers.is_same(&other[row]) {
            return false;
        }
    }
    true
}

/// How often each section of each leaf runs for one cause by chains of at most so many uses; 2^64 - 1 where it is more often. A round that
/// changes nothing is the last one that is taken.
pub(crate) fn rounds(
    alloc: Global,
    cause: Cause,
    asks: &[LeafAsks<'_>],
    uses: usize,
) -> Result<Vec<Numbers>, AllocError>
    ensures { IfOk result (λ often. often.items ≡ rounds (cause_of cause) (suc uses) asks.now []) }
{
    let mut often = round(alloc, cause, asks, &[])?;
    for _use in 0..uses {
        let next = round(alloc, cause, asks, &often)?;
        if are_same(&next, &often) {
            return Ok(often);
        }
        often = next;
    }
    Ok(often)
}

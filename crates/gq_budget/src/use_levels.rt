// An order of use: for each leaf a level above those of all leaves that ask for its sections.
ghost use Rattle.std.specs.Prelude.{◌≡◌, ℕ, true, IfOk, IfSome, [], suc, get_or};
ghost use Rattle.gq_budget.specs.Causes.{cause_of};
ghost use Rattle.gq_budget.specs.internal.Asking_order.{IsOrder, IsPlaced};
ghost use Rattle.gq_budget.specs.internal.Run_rounds.{rounds};

use crate::asks::LeafAsks;
use crate::cause::Cause;
use crate::number_sums::Numbers;
use crate::rounds::{are_same, round};
use smallvec::SmallVec;
use std::alloc::{AllocError, Global};

// The level of a leaf; 0 where it has none.
fn level_of(levels: &[usize], leaf: usize) -> usize
    ensures { result ≡ get_or levels.now leaf 0 }
{
    match levels.get(leaf) {
        Some(level) => *level,
        None => 0,
    }
}

// A level of a leaf, of at least so much, above those of the leaves that ask for its sections, as these levels have it.
fn level(asks: &LeafAsks<'_>, levels: &[usize], least: usize) -> usize {
    let mut level = least;
    for asker in asks.askers() {
        let below = level_of(levels, asker.leaf);
        if below >= level {
            level = below.saturating_add(1);
        }
    }
    level
}

// Raises the level of a leaf above those of the leaves that ask for its sections. It returns whether it was lower.
fn raise(asks: &[LeafAsks<'_>], levels: &mut Vec<usize>, leaf: usize) -> bool {
    if leaf >= asks.len() || leaf >= levels.len() {
        return false;
    }
    let raised = level(&asks[leaf], levels, levels[leaf]);
    let is_raised = raised > levels[leaf];
    levels[leaf] = raised;
    is_raised
}

// Raises the levels of all leaves, from the first to the last. It returns whether one was raised.
fn raise_all(asks: &[LeafAsks<'_>], levels: &mut Vec<usize>) -> bool {
    let mut is_raised = false;
    for leaf in 0..asks.len() {
        is_raised |= raise(asks, levels, leaf);
    }
    is_raised
}

// The same from the last to the first.
fn raise_back(asks: &[LeafAsks<'_>], levels: &mut Vec<usize>) -> bool {
    let mut is_raised = false;
    for leaf in (0..asks.len()).rev() {
        is_raised |= raise(asks, levels, leaf);
    }
    is_raised
}

// Levels of the leaves, which are an order of use where there is one: they are raised until all are above the leaves that ask.
fn levels(alloc: Global, asks: &[LeafAsks<'_>]) -> Result<Vec<usize>, AllocError> {
    let mut levels = Vec::from_elem(alloc, 0, asks.len())?;
    for _ in 0..asks.len() {
        let is_raised = raise_all(asks, &mut levels);
        if !raise_back(asks, &mut levels) && !is_raised {
            return Ok(levels);
        }
    }
    Ok(levels)
}

// Whether a leaf may stand at a level: no leaf that asks for its sections stands as high, and it is no greater than there are uses.
fn is_placed(asks: &LeafAsks<'_>, levels: &[usize], uses: usize, level: usize) -> bool
    ensures { result ≡ true → IsPlaced asks.now.askers levels.now uses level }
{
    if level > uses {
        return false;
    }
    for asker in asks.askers() {
        if level_of(levels, asker.leaf) >= level {
            return false;
        }
    }
    true
}

// Whether these levels are an order of use, and none is greater than there are uses.
fn is_order(asks: &[LeafAsks<'_>], levels: &[usize], uses: usize) -> bool
    ensures { result ≡ true → IsOrder asks.now levels.now uses }
{
    if levels.len() != asks.len() {
        return false;
    }
    for (leaf, asks) in asks.iter().enumerate() {
        if !is_placed(asks, levels, uses, levels[leaf]) {
            return false;
        }
    }
    true
}

/// An order of use: for each leaf a level above those of the leaves that ask for its sections, none greater than there are uses. `None` where none was found,
/// as there may be none.
pub(crate) fn order_of(
    alloc: Global,
    asks: &[LeafAsks<'_>],
    uses: usize,
) -> Result<Option<Vec<usize>>, AllocError>
    ensures { IfOk result (λ found. IfSome found (λ levels. IsOrder asks.now levels.items uses)) }
{
    let levels = levels(alloc, asks)?;
    if is_order(asks, &levels, uses) {
        Ok(Some(levels))
    } else {
        Ok(None)
    }
}

// Puts the numbers of the leaves of a level into the table.
fn fill(
    alloc: Global,
    cause: Cause,
    asks: &[LeafAsks<'_>],
    levels: &[usize],
    level: usize,
    table: &mut Vec<Numbers>,
) -> Result<(), AllocError> {
    for (leaf, asks) in asks.iter().enumerate() {
        if levels.get(leaf) == Some(&level) && leaf < table.len() {
            table[leaf] = asks.round(alloc, cause, table)?;
        }
    }
    Ok(())
}

// A table without numbers for so many leaves.
fn empty(alloc: Global, count: usize) -> Result<Vec<Numbers>, AllocError> {
    let mut table = Vec::new(alloc);
    for _ in 0..count {
        table.push(Numbers::new(SmallVec::new(alloc)))?;
    }
    Ok(table)
}

// How often each section of each leaf runs for one cause, the leaves of a level after those of all lower ones.
fn filled(
    alloc: Global,
    cause: Cause,
    asks: &[LeafAsks<'_>],
    levels: &[usize],
) -> Result<Vec<Numbers>, AllocError> {
    let mut table = empty(alloc, asks.len())?;
    for level in 0..asks.len() {
        fill(alloc, cause, asks, levels, level, &mut table)?;
    }
    Ok(table)
}

/// How often each section of each leaf runs for one cause, where the leaves have these levels in an order of use; 2^64 - 1 where it is more often. The numbers
/// of each leaf are made once, after those of the leaves that ask for its sections. `None` where another round would change them.
pub(crate) fn in_order(
    alloc: Global,
    cause: Cause,
    asks: &[LeafAsks<'_>],
    levels: &[usize],
) -> Result<Option<Vec<Numbers>>, AllocError>
    ensures { (uses : ℕ) → IsOrder asks.now levels.now uses →
        IfOk result (λ found. IfSome found (λ often. often.items ≡ rounds (cause_of cause) (suc uses) asks.now [])) }
{
    let table = filled(alloc, cause, asks, levels)?;
    let next = round(alloc, cause, asks, &table)?;
    if are_same(&next, &table) {
        Ok(Some(table))
    } else {
        Ok(None)
    }
}

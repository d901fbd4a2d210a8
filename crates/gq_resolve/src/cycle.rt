// Routes without a cycle: the first leaf that reaches itself by chains of uses.
ghost use Rattle.std.specs.Prelude.{◌≡◌, ◌<◌, ◌==◌, ◌||◌, IfOk, IfSome, length, map, slice_get};
ghost use Rattle.gq_model.specs.machine.Lists.{any_of};
ghost use Rattle.gq_resolve.specs.Reaching.{reaches_by, first_on_cycle, is_set, flag_at, one_more, flags_by};

use crate::leaf_levels::{is_order, levels};
use std::alloc::{AllocError, Global};

// Whether a flag is set; none beyond the end is.
fn is_set(flags: &[bool], place: usize) -> bool
    ensures { result ≡ flag_at flags.now place }
{
    match flags.get(place) {
        Some(flag) => *flag,
        None => false,
    }
}

// Whether one of these leaves is the goal or flagged.
fn leads_on(servers: &[u32], goal: usize, flags: &[bool]) -> bool
    ensures { result ≡ any_of (λ z. z == goal || flag_at flags.now z) servers.now }
{
    for server in servers {
        let place = *server as usize;
        if place == goal || is_set(flags, place) {
            return true;
        }
    }
    false
}

// For each leaf, whether it uses the goal or one that is flagged.
fn one_more(
    alloc: Global,
    used: &[Vec<u32>],
    goal: usize,
    flags: &[bool],
) -> Result<Vec<bool>, AllocError>
    ensures { IfOk result (λ next. next.items ≡ one_more (map (λ l. l.items) used.now) goal flags.now) }
{
    let mut next = Vec::new(alloc);
    for servers in used {
        next.push(leads_on(servers.as_slice(), goal, flags))?;
    }
    Ok(next)
}

// For each leaf, whether it reaches the goal by a chain of at most as many uses as there are leaves.
fn reaching(alloc: Global, used: &[Vec<u32>], goal: usize) -> Result<Vec<bool>, AllocError>
    ensures { IfOk result (λ flags. flags.items ≡ flags_by (length used.now) (map (λ l. l.items) used.now) goal) }
{
    let mut flags = Vec::new(alloc);
    for _round in 0..used.len() {
        flags = one_more(alloc, used, goal, flags.as_slice())?;
    }
    Ok(flags)
}

/// Whether a leaf reaches itself by a chain of uses, as `first_on_cycle` has them. Refused only if the host refuses memory.
pub fn reaches_itself(alloc: Global, used: &[Vec<u32>], leaf: usize) -> Result<bool, AllocError>
    ensures { IfOk result (λ is_on. is_on ≡ reaches_by (length used.now) (map (λ l. l.items) used.now) leaf leaf) }
{
    let flags = reaching(alloc, used, leaf)?;
    Ok(is_set(flags.as_slice(), leaf))
}

// The first leaf that reaches itself by a chain of uses, looked for from each leaf.
fn first_by_rounds(alloc: Global, used: &[Vec<u32>]) -> Result<Option<usize>, AllocError>
    ensures first { IfOk result (λ first. first ≡ first_on_cycle (map (λ l. l.items) used.now)) }
    ensures within { IfOk result (λ first. IfSome first (λ x. x < length used.now)) }
{
    for leaf in 0..used.len() {
        if reaches_itself(alloc, used, leaf)? {
            return Ok(Some(leaf));
        }
    }
    Ok(None)
}

/// The first leaf that reaches itself by a chain of uses. The numbers of the leaves that a leaf uses stand at its place; a
/// number beyond the end is no leaf's. Refused only if the host refuses memory. Where the leaves stand in an order of use, which is found at once, there is
/// none.
pub fn first_on_cycle(alloc: Global, used: &[Vec<u32>]) -> Result<Option<usize>, AllocError>
    ensures first { IfOk result (λ first. first ≡ first_on_cycle (map (λ l. l.items) used.now)) }
    ensures within { IfOk result (λ first. IfSome first (λ x. x < length used.now)) }
{
    let levels = levels(alloc, used)?;
    if is_order(used, &levels) {
        return Ok(None);
    }
    first_by_rounds(alloc, used)
}

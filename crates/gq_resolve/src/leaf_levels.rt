// Levels of leaves, each above those of the leaves that it uses: where there are such, no leaf reaches itself.
ghost use Rattle.std.specs.Prelude.{◌≡◌, true, IfOk, get_or, map};
ghost use Rattle.gq_resolve.specs.internal.Use_order.{AreBelow, IsOrder};

use std::alloc::{AllocError, Global};

// The level of a leaf by its number; 0 where there is none.
fn level_at(levels: &[usize], place: usize) -> usize
    ensures { result ≡ get_or levels.now place 0 }
{
    match levels.get(place) {
        Some(level) => *level,
        None => 0,
    }
}

// A level of at least so much, above those of these leaves.
fn level_over(servers: &[u32], levels: &[usize], least: usize) -> usize {
    let mut level = least;
    for server in servers {
        let below = level_at(levels, *server as usize);
        if below >= level {
            level = below.saturating_add(1);
        }
    }
    level
}

// Raises the level of a leaf above those of the leaves that it uses. It returns whether it was lower.
fn raise(used: &[Vec<u32>], levels: &mut Vec<usize>, leaf: usize) -> bool {
    if leaf >= used.len() || leaf >= levels.len() {
        return false;
    }
    let raised = level_over(&used[leaf], levels, levels[leaf]);
    let is_raised = raised > levels[leaf];
    levels[leaf] = raised;
    is_raised
}

// Raises the levels of all leaves, from the last to the first. It returns whether one was raised.
fn raise_all(used: &[Vec<u32>], levels: &mut Vec<usize>) -> bool {
    let mut is_raised = false;
    for leaf in (0..used.len()).rev() {
        is_raised |= raise(used, levels, leaf);
    }
    is_raised
}

/// Levels of the leaves, which are an order of use where there is one: they are raised until all are above those of the leaves that they use.
pub(crate) fn levels(alloc: Global, used: &[Vec<u32>]) -> Result<Vec<usize>, AllocError> {
    let mut levels = Vec::from_elem(alloc, 0, used.len())?;
    for _ in 0..used.len() {
        if !raise_all(used, &mut levels) {
            return Ok(levels);
        }
    }
    Ok(levels)
}

// Whether these leaves stand below a level.
fn are_below(levels: &[usize], level: usize, servers: &[u32]) -> bool
    ensures { result ≡ true → AreBelow levels.now level servers.now }
{
    for server in servers {
        if level_at(levels, *server as usize) >= level {
            return false;
        }
    }
    true
}

/// Whether each leaf stands above those that it uses.
pub(crate) fn is_order(used: &[Vec<u32>], levels: &[usize]) -> bool
    ensures { result ≡ true → IsOrder (map (λ l. l.items) used.now) levels.now }
{
    for (leaf, servers) in used.iter().enumerate() {
        if !are_below(levels, level_at(levels, leaf), servers) {
            return false;
        }
    }
    true
}

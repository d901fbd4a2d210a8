// Whether many slots are the same.
ghost use Rattle.std.specs.Prelude.{◌≡◌, ◌≤◌, ◌+◌, ◌&&◌, length, drop};
ghost use Rattle.gq_model.specs.rules.Kinds.{same_kinds};
ghost use Rattle.gq_caps.specs.Known.{all_known};

use crate::kind::Kind;

/// Whether the four slots from a place on are of the same kinds. Most hold nothing, which is seen of all four at once.
#[inline(always)]
fn are_four_same(kinds: &[Kind], others: &[Kind], place: usize) -> bool
    requires kinds { place + 4 ≤ length kinds.now }
    requires others { place + 4 ≤ length others.now }
    ensures { same_kinds (all_known (drop place kinds.now)) (all_known (drop place others.now)) ≡
        (result && same_kinds (all_known (drop (place + 4) kinds.now)) (all_known (drop (place + 4) others.now))) }
{
    if kinds[place].are_empty(&others[place])
        && kinds[place + 1].are_empty(&others[place + 1])
        && kinds[place + 2].are_empty(&others[place + 2])
        && kinds[place + 3].are_empty(&others[place + 3])
    {
        return true;
    }
    let first = kinds[place].is_same(&others[place]);
    let second = kinds[place + 1].is_same(&others[place + 1]);
    let third = kinds[place + 2].is_same(&others[place + 2]);
    let fourth = kinds[place + 3].is_same(&others[place + 3]);
    first && second && third && fourth
}

/// Whether the slots from a place on are of the same kinds.
fn are_same_from(kinds: &[Kind], others: &[Kind], first: usize) -> bool
    requires { length kinds.now ≡ length others.now }
    ensures { result ≡ same_kinds (all_known (drop first kinds.now)) (all_known (drop first others.now)) }
{
    for place in first..kinds.len() {
        if !kinds[place].is_same(&others[place]) {
            return false;
        }
    }
    true
}

/// Whether these slots are of the same kinds.
pub fn are_same(kinds: &[Kind], others: &[Kind]) -> bool
    ensures { result ≡ same_kinds (all_known kinds.now) (all_known others.now) }
{
    if kinds.len() != others.len() {
        return false;
    }
    let fours = kinds.len() / 4;
    for four in 0..fours {
        if !are_four_same(kinds, others, 4 * four) {
            return false;
        }
    }
    are_same_from(kinds, others, 4 * fours)
}

// Which leaves are shared: those of which no leaf is the owner.
ghost use Rattle.std.specs.Prelude.{◌≡◌, ◌≤◌, ◌<◌, ◌&&◌, ℕ, not, IfOk, length};
ghost use Rattle.gq_races.specs.Races.{any_below, implies};
ghost use Rattle.gq_races.specs.internal.Owners as spec;
ghost use Rattle.gq_races.specs.internal.Owners.{AreSharedBy, admits_at, all_kept, owns_kept};

use crate::openers::OpenedFrom;
use gq_scenario::scenario::LeafNo;
use std::alloc::{AllocError, Global};

// The owners of a leaf: any leaf, this one alone, or nobody.
#[derive(Clone, Copy)]
pub(crate) enum Owner {
    Any,
    Only(usize),
    Nobody,
}

impl Owner {
    // The owners that both have.
    fn both(self, other: Owner) -> Owner
        ensures { (z : ℕ) → spec.admits result z ≡ (spec.admits self z && spec.admits other z) }
    {
        match (self, other) {
            (Owner::Any, owner) => owner,
            (owner, Owner::Any) => owner,
            (Owner::Only(one), Owner::Only(two)) if one == two => Owner::Only(one),
            _ => Owner::Nobody,
        }
    }

    // Those that the other has, too, if a condition holds.
    fn both_if(self, condition: bool, other: Owner) -> Owner
        ensures { (z : ℕ) → spec.admits result z ≡ (spec.admits self z && implies condition (spec.admits other z)) }
    {
        if condition { self.both(other) } else { self }
    }

    // Whether none of so many leaves is one.
    fn is_shared(self, count: usize) -> bool
        ensures { result ≡ not (any_below (spec.admits self) count) }
    {
        match self {
            Owner::Any => count == 0,
            Owner::Only(leaf) => leaf >= count,
            Owner::Nobody => true,
        }
    }
}

// The owner that is known of a leaf so far.
fn owner_at(owners: &[Owner], leaf: usize) -> Owner
    ensures { (z : ℕ) → spec.admits result z ≡ admits_at owners.now z leaf }
{
    match owners.get(leaf) {
        Some(owner) => *owner,
        None => Owner::Nobody,
    }
}

// The owners of a leaf, by the owners of those that open sessions with it.
fn owner_of(opened: &[OpenedFrom], owners: &[Owner], leaf: LeafNo) -> Owner
    ensures { (z : ℕ) → spec.admits result z ≡ all_kept (admits_at owners.now z) z leaf 0 opened.now }
{
    let mut owner = Owner::Any;
    for (place, from) in opened.iter().enumerate() {
        owner = owner.both_if(from.is_first(leaf), Owner::Only(place));
        owner = owner.both_if(from.is_later(leaf), owner_at(owners, place));
    }
    owner
}

// The owners of all leaves, over chains that are longer by one leaf.
fn next_owners(
    alloc: Global,
    opened: &[OpenedFrom],
    owners: &[Owner],
) -> Result<Vec<Owner>, AllocError>
    requires { length opened.now ≤ 64 }
    ensures { IfOk result (λ o. (z x : ℕ) → x < length opened.now → admits_at o.items z x ≡ all_kept (admits_at owners.now z) z x 0 opened.now) }
{
    let mut all = Vec::new(alloc);
    for place in 0..opened.len() {
        all.push(owner_of(opened, owners, LeafNo::new(place as u32)))?;
    }
    Ok(all)
}

// The owners of all leaves.
fn owners(alloc: Global, opened: &[OpenedFrom]) -> Result<Vec<Owner>, AllocError>
    requires { length opened.now ≤ 64 }
    ensures { IfOk result (λ o. (z x : ℕ) → x < length opened.now → admits_at o.items z x ≡ owns_kept (length opened.now) opened.now z x) }
{
    let mut all = Vec::new(alloc);
    for _round in 0..opened.len() {
        all = next_owners(alloc, opened, all.as_slice())?;
    }
    Ok(all)
}

// Whether each leaf is shared.
pub(crate) fn shared(alloc: Global, opened: &[OpenedFrom]) -> Result<Vec<bool>, AllocError>
    requires { length opened.now ≤ 64 }
    ensures { IfOk result (λ s. AreSharedBy opened.now s.items) }
{
    let owners = owners(alloc, opened)?;
    let mut all = Vec::new(alloc);
    for place in 0..opened.len() {
        all.push(owner_at(owners.as_slice(), place).is_shared(opened.len()))?;
    }
    Ok(all)
}

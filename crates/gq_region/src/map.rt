// A table of places, each free or with what is attached there.
ghost use Rattle.std.specs.Prelude.{◌≡◌, ℕ, ◌*◌, ◌/◌, ◌%◌, ◌^◌, ◌<◌, ◌≤◌, ◌↔◌, length, replicate, Some, None, slice_set, IfOk, OnErr, IsOk};
ghost use Rattle.gq_region.specs.Region_places.{IsTaken, lowest_free, resolved};

use std::alloc::{AllocError, Global};
use std::marker::Model;
use thiserror::Error;

// The addresses of a place.
const PLACE: u64 = 0x4000000;

/// What is attached at a place: a dataspace by its number, and how many bytes of it.
#[derive(Clone, Copy, Debug, PartialEq, Eq)]
pub struct Range {
    pub ds: u32,
    pub size: u32,
}

/// The first address of a place: a multiple of 2^26.
#[derive(Clone, Copy, Debug, PartialEq, Eq)]
pub struct Base(pub u64);

/// No place is free.
#[derive(Clone, Copy, Debug, PartialEq, Eq, Error)]
#[error("G1 Full")]
pub struct Full;

/// A region map: so many places, each a window of 2^26 addresses, one behind the other from address 0 on. A contract sees the list of what is
/// attached at each. No call but `new` allocates host memory.
#[derive(Drop)]
pub struct RegionMap {
    places: Vec<Option<Range>>,
    // No place below is free.
    low: u32,
}

impl Model for RegionMap {
    ghost use Rattle.gq_region.specs.Region_places.{Places};

    ghost Value = { Places };

    ghost use Rattle.gq_region.specs.internal.Region_fields.{IsMap};

    ghost view = { λ m. m.places.items };

    ghost invariant = { IsMap };
}

impl RegionMap {
    /// A map of so many places, each free. `Err` where the host refuses memory for them.
    pub fn new(alloc: Global, places: u32) -> Result<RegionMap, AllocError>
        requires { (1 ≤ places) × (places ≤ 2 ^ 20) }
        ensures { IfOk result (λ map. map ≡ replicate places None) }
    {
        let places = Vec::from_elem(alloc, None, places as usize)?;
        Ok(RegionMap { places, low: 0 })
    }

    /// Attaches `size` bytes of a dataspace at the lowest free place, and answers its first address. `Full` just where no place is free; then all
    /// stays as it was.
    pub fn attach(&mut self, ds: u32, size: u32) -> Result<Base, Full>
        requires { (1 ≤ size) × (size ≤ 2 ^ 26) }
        ensures lowest { IfOk result (λ base. base.0 ≡ 2 ^ 26 * lowest_free self.old) }
        ensures attached { IfOk result (λ _. self.new ≡ slice_set self.old (lowest_free self.old) (Some (record { ds = ds; size = size }))) }
        ensures room { IsOk result ↔ (lowest_free self.old < length self.old) }
        ensures unchanged { OnErr result (self.new ≡ self.old) }
    {
        let count = self.places.len() as u32;
        let place = first_free(&self.places, self.low);
        if place == count {
            self.low = count;
            return Err(Full);
        }
        self.places[place as usize] = Some(Range { ds, size });
        self.low = place + 1;
        Ok(Base(PLACE * u64::from(place)))
    }

    /// Detaches what is attached at the place that begins with this address.
    pub fn detach(&mut self, base: Base)
        requires at_a_place { base.0 % 2 ^ 26 ≡ 0 }
        requires attached { IsTaken self.old (base.0 / 2 ^ 26) }
        ensures { self.new ≡ slice_set self.old (base.0 / 2 ^ 26) None }
    {
        let low = self.low;
        let place = (base.0 / PLACE) as u32;
        self.places[place as usize] = None;
        self.low = low.min(place);
    }

    /// The dataspace and the offset in it, where the address is inside of what is attached at its place.
    pub fn resolve(&self, address: u64) -> Option<(u32, u32)>
        ensures { result ≡ resolved self.now address }
    {
        let place = address / PLACE;
        if place >= self.places.len() as u64 {
            return None;
        }
        let offset = (address % PLACE) as u32;
        match self.places[place as usize] {
            Some(range) if offset < range.size => Some((range.ds, offset)),
            _ => None,
        }
    }
}

// The first place from `low` on that is free, or how many there are where none is.
fn first_free(places: &Vec<Option<Range>>, low: u32) -> u32
    requires few { length places.now.items ≤ 2 ^ 20 }
    requires within { low ≤ length places.now.items }
    requires below { (k : ℕ) → k < low → IsTaken places.now.items k }
    ensures { result ≡ lowest_free places.now.items }
{
    let count = places.len() as u32;
    for k in low..count {
        if places[k as usize].is_none() {
            return k;
        }
    }
    count
}

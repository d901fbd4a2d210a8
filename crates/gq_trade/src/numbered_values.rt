// Values by their numbers.
ghost use Rattle.std.specs.Prelude.{◌≡◌, ◌<◌, ◌≤◌, [], ℕ, Some, None, length, slice_set, get_or, vec_capacity, IfOk};
ghost use Rattle.std.specs.Prelude.{is_some, option_map, IsTrue};
ghost use Rattle.std.specs.Borrow.{Lends, sem};
ghost use Rattle.std.specs.contracts.option.Option.{the_row as option_row};
ghost use Rattle.gq_trade.specs.Numbers.{added, free_number, IsTaken};

use std::alloc::{AllocError, Global};
use std::marker::Model;

/// Values by their numbers. A new one takes the lowest number that is free: in constant time where none was freed below the last one that was
/// taken, else by a search from there. No call but `new` allocates host memory, and what `new` takes is not touched before it is used.
#[derive(Drop)]
pub struct Numbered<T: Copy> {
    // The places that have been used, with room for all.
    places: Vec<Option<T>>,
    // How many there are at most.
    room: usize,
    // No place below is free.
    low: usize,
}

impl<T: Copy> Model for Numbered<T> {
    ghost use Rattle.std.specs.Prelude.{vec_capacity};
    ghost use Rattle.gq_trade.specs.Numbers.{Numbers};
    ghost use Rattle.gq_trade.specs.internal.Trades_fields.{IsNumbered};

    ghost Value = { Numbers T };

    ghost view = { λ n. record { values = n.places.items; room = n.room } };

    ghost invariant = { λ n. IsNumbered n.places.items n.room (vec_capacity n.places) n.low };
}

impl<T: Copy> Numbered<T> {
    ghost use Rattle.gq_trade.specs.Lends.{lends_value};

    /// No values, with room for so many. `Err` where the host refuses memory for them.
    pub fn new(alloc: Global, room: u32) -> Result<Numbered<T>, AllocError>
        ensures { IfOk result (λ numbers. numbers ≡ record { values = []; room = room }) }
    {
        let places = Vec::with_capacity(alloc, room as usize)?;
        Ok(Numbered {
            places,
            room: room as usize,
            low: 0,
        })
    }

    /// Puts a value at the lowest free number, and reports that.
    pub fn add(&mut self, value: T) -> usize
        requires room { free_number self.old.values < self.old.room }
        ensures number { result ≡ free_number self.old.values }
        ensures added { self.new.values ≡ added value self.old.values }
        ensures same_room { self.new.room ≡ self.old.room }
    {
        let number = first_free(&self.places, self.low);
        put(&mut self.places, number, value);
        self.low = number + 1;
        number
    }

    /// What holds of all values: no more numbers have been used than there is room for. It does nothing.
    pub fn laws(&self)
        ensures { length self.now.values ≤ self.now.room }
    {
        let _places = &self.places;
    }

    /// How many numbers have been used: each that is taken is below.
    pub fn count(&self) -> usize
        ensures { result ≡ length self.now.values }
    {
        self.places.len()
    }

    /// The value of a number, if that is taken.
    pub fn find(&self, number: usize) -> Option<&T>
        ensures { option_map (λ value. value.now) result ≡ get_or self.now.values number None }
    {
        match self.places.get(number) {
            Some(Some(value)) => Some(value),
            Some(None) | None => None,
        }
    }

    /// The value of a number that is taken.
    #[inline(always)]
    pub fn get(&self, number: usize) -> T
        requires { IsTaken self.now.values number }
        ensures { get_or self.now.values number None ≡ Some result }
    {
        *self.at(number)
    }

    /// The value of a number that is taken, where it lies.
    #[inline(always)]
    pub fn at(&self, number: usize) -> &T
        requires { IsTaken self.now.values number }
        ensures { get_or self.now.values number None ≡ Some result.now }
    {
        let Some(value) = &self.places[number] else {
            unreachable!();
        };
        value
    }

    /// The value of a number that is taken, to be changed where it lies.
    #[inline(always)]
    pub fn at_mut(&mut self, number: usize) -> &mut T
        requires { IsTaken self.old.values number }
        ensures* writes_back { sem 𝓛 (lends_value T.row self.entry number result) }
        ensures value { get_or self.old.values number None ≡ Some result.now }
    {
        value_in(&mut self.places[number])
    }

    /// Puts another value at a number that is taken.
    #[inline(always)]
    pub fn set(&mut self, number: usize, value: T)
        requires { IsTaken self.old.values number }
        ensures { self.new ≡ record { values = slice_set self.old.values number (Some value); room = self.old.room } }
    {
        self.places[number] = Some(value);
    }

    /// Makes a number that is taken free.
    pub fn remove(&mut self, number: usize)
        requires { IsTaken self.old.values number }
        ensures { self.new ≡ record { values = slice_set self.old.values number None; room = self.old.room } }
    {
        self.places[number] = None;
        self.low = self.low.min(number);
    }
}

// The value at a place that is taken.
#[inline(always)]
fn value_in<T: Copy>(place: &mut Option<T>) -> &mut T
    requires { IsTrue (is_some place.old) }
    ensures* writes_back { sem 𝓛 (Lends (option_row T.row) T.row place.entry result Some) }
    ensures value { place.old ≡ Some result.now }
{
    match place {
        Some(value) => value,
        None => unreachable!(),
    }
}

// The first of the places from `low` on that is free, or how many they are where none is.
fn first_free<T: Copy>(places: &Vec<Option<T>>, low: usize) -> usize
    requires within { low ≤ length places.now.items }
    requires below { (k : ℕ) → k < low → IsTaken places.now.items k }
    ensures { result ≡ free_number places.now.items }
{
    for k in low..places.len() {
        if places[k].is_none() {
            return k;
        }
    }
    places.len()
}

// Puts a value at the lowest free number: at a place that is free, or behind them all, where there is room.
fn put<T: Copy>(places: &mut Vec<Option<T>>, number: usize, value: T)
    requires number { number ≡ free_number places.old.items }
    requires room { number < vec_capacity places.old }
    ensures added { places.new.items ≡ added value places.old.items }
    ensures capacity { vec_capacity places.old ≤ vec_capacity places.new }
{
    if number < places.len() {
        places[number] = Some(value);
        return;
    }
    match places.push(Some(value)) {
        Ok(()) => (),
        Err(_) => unreachable!(),
    }
}

// The signals of a leaf: which are submitted, and how often each was taken.
ghost use Rattle.std.specs.Prelude.{◌≡◌, ◌+◌, ◌<◌, ◌≤◌, ◌^◌, ℕ, false, Some, IfSome, length, option_map, replicate, slice_get};
ghost use Rattle.gq_model.specs.machine.Run.{signals_with};
ghost use Rattle.gq_model.specs.machine.Step.{first_signal};
ghost use Rattle.gq_leaf.specs.internal.Signal_lists.{AreTakenWithin, first_from, with_submitted, with_taken};

use arrayvec::ArrayVec;
use gq_model::limits::SIGNALS;
use std::marker::Model;

/// A signal of a leaf: whether it was submitted and is not taken yet, and how often it was taken.
#[derive(Clone, Copy, Debug, Default, PartialEq, Eq)]
pub struct Signal {
    pub submitted: bool,
    pub taken: u64,
}

// The number of the first of these that is submitted, if one is.
#[inline(always)]
fn first_in(signals: &[Signal]) -> Option<usize>
    ensures first { result ≡ first_from 0 signals.now }
    ensures below { IfSome result (λ i. i < length signals.now) }
{
    for number in 0..signals.len() {
        if signals[number].submitted {
            return Some(number);
        }
    }
    None
}

// One of these is submitted.
fn submit_in(signals: &mut [Signal], number: usize)
    requires { number < length signals.old }
    ensures { signals.new ≡ with_submitted signals.old number }
{
    signals[number].submitted = true;
}

// One of these is taken.
#[inline(always)]
fn take_in(signals: &mut [Signal], number: usize)
    requires there { number < length signals.old }
    requires countable { IfSome (slice_get signals.old number) (λ s. s.taken + 1 < 2 ^ 64) }
    ensures { signals.new ≡ with_taken signals.old number }
{
    let signal = &mut signals[number];
    signal.submitted = false;
    signal.taken += 1;
}

/// The signals of a leaf, at most three.
#[derive(Drop)]
pub struct Signals {
    list: ArrayVec<Signal, SIGNALS>,
}

impl Model for Signals {
    ghost use Rattle.std.specs.Prelude.{List, map};
    ghost use Rattle.gq_model.specs.machine.World as world;
    ghost use Rattle.gq_leaf.specs.internal.Signal_lists.{signal_seen};

    ghost Value = { List world.Signal };

    ghost view = { λ s. map signal_seen s.list.items };
}

impl Signals {
    /// So many signals, of which none is submitted.
    pub(crate) fn new(count: usize) -> Signals
        requires { count ≤ SIGNALS }
        ensures { result ≡ replicate count (record { submitted = false; taken = 0 }) }
    {
        let mut list = ArrayVec::new();
        for _number in 0..count {
            list.push(Signal {
                submitted: false,
                taken: 0,
            });
        }
        Signals { list }
    }

    /// How many there are.
    pub fn count(&self) -> usize
        ensures count { result ≡ length self.now }
        ensures few { result ≤ SIGNALS }
    {
        self.list.len()
    }

    /// The signal of a number.
    pub fn get(&self, number: usize) -> Signal
        requires { number < length self.now }
        ensures { slice_get self.now number ≡ Some (record { submitted = result.submitted; taken = result.taken }) }
    {
        self.list[number]
    }

    /// The number of the first that is submitted, if one is.
    #[inline(always)]
    pub fn first(&self) -> Option<u8>
        ensures first { result ≡ option_map (λ p. p.0) (first_signal self.now) }
        ensures few { IfSome result (λ i. i < SIGNALS) }
    {
        match first_in(self.list.as_slice()) {
            Some(number) => Some(number as u8),
            None => None,
        }
    }

    /// Submits the signal of a number. If there is none, nothing changes.
    pub(crate) fn submit(&mut self, number: usize)
        ensures { self.new ≡ signals_with self.old number }
    {
        if number < self.list.len() {
            submit_in(self.list.as_mut_slice(), number);
        }
    }

    /// Takes the first that is submitted, of which this is the number. It was taken less often than 2^64 - 1 times.
    #[inline(always)]
    pub(crate) fn take(&mut self, number: u8)
        requires first { option_map (λ p. p.0) (first_signal self.old) ≡ Some number }
        requires countable { (n : ℕ) × AreTakenWithin n self.old × (n + 1 < 2 ^ 64) }
        ensures { first_signal self.old ≡ Some (number, self.new) }
    {
        take_in(self.list.as_mut_slice(), usize::from(number));
    }
}

// Lists of numbers, and sums of products.
ghost use Rattle.std.specs.Prelude.{◌≡◌, true, get_or, nat_le};
ghost use Rattle.gq_model.specs.machine.Lists.{all_of};
ghost use Rattle.gq_verify.specs.Saturated_numbers.{saturated};
ghost use Rattle.gq_budget.specs.internal.Product_sums.{products};

use smallvec::SmallVec;
use std::marker::Model;

/// How many numbers allocate no host memory.
pub(crate) const FEW: usize = 4;

/// A list of numbers, by the sections of a leaf. Who provides nothing has one section, and a service without upgrades four, so that most lists take
/// no host memory.
#[derive(Drop)]
pub(crate) struct Numbers {
    numbers: SmallVec<u64, FEW>,
}

impl Model for Numbers {
    ghost use Rattle.std.specs.Prelude.{ℕ, List};

    ghost Value = { List ℕ };

    ghost view = { λ n. n.numbers.items };
}

impl Numbers {
    /// These numbers.
    pub fn new(numbers: SmallVec<u64, FEW>) -> Numbers
        ensures { result ≡ numbers.items }
    {
        Numbers { numbers }
    }

    /// The numbers.
    pub fn numbers(&self) -> &[u64]
        ensures { result.now ≡ self.now }
    {
        self.numbers.as_slice()
    }

    /// The sum of the products of the numbers at the same places of both lists; 2^64 - 1 where it is greater.
    pub fn products(&self, often: &Numbers) -> u64
        ensures { result ≡ saturated (products self.now often.now) }
    {
        products(self.numbers.as_slice(), often.numbers.as_slice())
    }

    /// The number at a place; 0 past the last.
    pub fn at(&self, place: usize) -> u64
        ensures { result ≡ get_or self.now place 0 }
    {
        match self.numbers.as_slice().get(place) {
            Some(number) => *number,
            None => 0,
        }
    }

    /// Whether none of them is greater than this one.
    pub fn are_at_most(&self, greatest: u64) -> bool
        ensures { result ≡ all_of (λ n. nat_le n greatest) self.now }
    {
        are_at_most(self.numbers.as_slice(), greatest)
    }

    /// Whether both are the same numbers.
    pub fn is_same(&self, other: &Numbers) -> bool
        ensures { result ≡ true → self.now ≡ other.now }
    {
        self.numbers.as_slice() == other.numbers.as_slice()
    }
}

// Whether none of these numbers is greater than this one.
fn are_at_most(numbers: &[u64], greatest: u64) -> bool
    ensures { result ≡ all_of (λ n. nat_le n greatest) numbers.now }
{
    for number in numbers {
        if *number > greatest {
            return false;
        }
    }
    true
}

// The sum of the products of the numbers at the same places of both lists; 2^64 - 1 where it is greater.
fn products(counts: &[u64], often: &[u64]) -> u64
    ensures { result ≡ saturated (products counts.now often.now) }
{
    let mut sum = 0_u64;
    for (count, times) in counts.iter().zip(often) {
        sum = sum.saturating_add(count.saturating_mul(*times));
    }
    sum
}

// The step budget of a leaf.
ghost use Rattle.std.specs.Prelude.{◌≡◌, [], slice_index, slice_index_or};
ghost use Rattle.gq_model.specs.machine.Lists.{all_of};
ghost use Rattle.gq_model.specs.rules.Accept.{are_small, is_small};

use crate::number_sums::Numbers;
use gq_model::limits::GREATEST_STEPS;
use std::marker::Model;

/// How many steps a leaf may take at most: for the start, and for each signal of each leaf. A number is 2^64 - 1 where there are more.
#[derive(Drop)]
pub struct StepBudget {
    from_start: u64,
    for_signals: Vec<Numbers>,
}

impl Model for StepBudget {
    ghost use Rattle.gq_model.specs.machine.Step_budgets.{StepBudget};

    ghost Value = { StepBudget };

    ghost view = { λ b. record { from_start = b.from_start; for_signals = b.for_signals.items } };
}

impl StepBudget {
    /// So many steps for the start, and so many for the signals of each leaf.
    pub(crate) fn new(from_start: u64, for_signals: Vec<Numbers>) -> StepBudget
        ensures { result ≡ record { from_start = from_start; for_signals = for_signals.items } }
    {
        StepBudget {
            from_start,
            for_signals,
        }
    }

    /// The steps for the start.
    pub fn from_start(&self) -> u64
        ensures { result ≡ self.now.from_start }
    {
        self.from_start
    }

    /// The steps for a signal of a leaf, by the numbers of both; 0 where the leaf has none of this number.
    pub fn for_signal(&self, leaf: usize, signal: u8) -> u64
        ensures { result ≡ slice_index (slice_index_or self.now.for_signals leaf []) signal }
    {
        match self.for_signals.get(leaf) {
            Some(steps) => steps.at(usize::from(signal)),
            None => 0,
        }
    }

    /// Whether none of its numbers is above 10^12.
    pub fn is_small(&self) -> bool
        ensures { result ≡ are_small self.now }
    {
        self.from_start <= GREATEST_STEPS && are_small(self.for_signals.as_slice())
    }
}

// Whether none of these numbers is above 10^12.
fn are_small(rows: &[Numbers]) -> bool
    ensures { result ≡ all_of (all_of is_small) rows.now }
{
    for row in rows {
        if !row.are_at_most(GREATEST_STEPS) {
            return false;
        }
    }
    true
}

// The budgets of leaves: what each uses at most.
ghost use Rattle.std.specs.Prelude.{◌≡◌, length, IfOk};
ghost use Rattle.gq_scenario.specs.Component_trees.{version_number};
ghost use Rattle.gq_load.specs.internal.Saturated_budgets.{budget_from, budgets_with};

use gq_budget::StepBudget;
use gq_scenario::scenario::Version;
use gq_tariff::Amount;
use std::alloc::{AllocError, Global};
use std::marker::Model;

/// What a leaf uses at most, whatever the turns.
#[derive(Drop)]
pub struct Budget {
    own: Amount,
    steps: StepBudget,
}

impl Model for Budget {
    ghost use Rattle.gq_model.specs.rules.Accept.{Budget};

    ghost Value = { Budget };

    ghost view = { λ b. record { own = b.own; steps = b.steps } };
}

impl Budget {
    /// So many bytes and capabilities of the own account, and so many steps.
    pub fn new(own: Amount, steps: StepBudget) -> Budget
        ensures { result ≡ record { own = own; steps = steps } }
    {
        Budget { own, steps }
    }

    /// The bytes of its own account that it holds or lends.
    pub fn own(&self) -> u64
        ensures { result ≡ self.now.own.ram }
    {
        self.own.ram
    }

    /// The capabilities of its own account that it holds or lends; 0 in version 1.
    pub fn own_caps(&self) -> u64
        ensures { result ≡ self.now.own.caps }
    {
        self.own.caps
    }

    /// The steps that it takes, for the start and for each signal.
    pub fn steps(&self) -> &StepBudget
        ensures { result.now ≡ self.now.steps }
    {
        &self.steps
    }
}

// The budget of a program that uses so much of its own account, with so many steps.
fn budget_of(version: Version, own: &Amount, steps: StepBudget) -> Budget
    ensures { result ≡ budget_from (version_number version) own.now steps }
{
    let caps = if version.counts_caps() { own.caps } else { 0 };
    Budget::new(Amount { ram: own.ram, caps }, steps)
}

// The budgets of programs, each with so many steps.
pub(crate) fn budgets_of(
    alloc: Global,
    version: Version,
    owns: &[Amount],
    steps: Vec<StepBudget>,
) -> Result<Vec<Budget>, AllocError>
    requires { length steps.items ≡ length owns.now }
    ensures { IfOk result (λ b. b.items ≡ budgets_with (version_number version) owns.now steps.items) }
{
    let mut budgets = Vec::new(alloc);
    let mut left = steps;
    for own in owns {
        budgets.push(budget_of(version, own, left.remove(0)))?;
    }
    Ok(budgets)
}

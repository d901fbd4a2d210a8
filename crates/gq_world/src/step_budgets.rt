// Step budgets in a world: they grow by each signal that is taken. A number stays at 2^64 - 1 once there.
ghost use Rattle.std.specs.Prelude.{◌≡◌, ◌+◌, ◌*◌, [], length, slice_index, slice_index_or};
ghost use Rattle.gq_model.specs.machine.Accounts.{shown};
ghost use Rattle.gq_model.specs.machine.Scenario.{components};
ghost use Rattle.gq_model.specs.machine.Step_budgets.{steps_in, taken_steps};
ghost use Rattle.gq_model.specs.rules.Accept.{step_budgets};
ghost use Rattle.gq_world.specs.Account_lines.{stored_budgets};

use gq_budget::StepBudget;
use gq_leaf::Signals;
use gq_load::budget::Budget;
use gq_machine::machine::Machine;
use gq_scenario::scenario::LeafNo;

// A number of steps with so many more, so often.
fn with_steps(before: u64, taken: u64, steps: u64) -> u64
    ensures { result ≡ shown (before + taken * steps) }
{
    before.saturating_add(taken.saturating_mul(steps))
}

// A number of steps with those for the signals of a leaf, each as often as it was taken.
fn with_taken(before: u64, signals: &Signals, budget: &StepBudget, leaf: usize) -> u64
    ensures { result ≡ shown (before + taken_steps signals.now (slice_index_or budget.now.for_signals leaf [])) }
{
    let mut sum = before;
    for number in 0..signals.count() {
        let steps = budget.for_signal(leaf, number as u8);
        sum = with_steps(sum, signals.get(number).taken, steps);
    }
    sum
}

// The budget of steps in the world of a machine.
fn steps_in(machine: &Machine, budget: &StepBudget) -> u64
    requires { length machine.now.world.leaves ≡ length (components machine.now.scenario) }
    ensures { result ≡ shown (steps_in machine.now.world budget.now) }
{
    let mut sum = budget.from_start();
    for number in 0..machine.table().leaf_count() {
        let signals = machine.signals(LeafNo::new(number as u32));
        sum = with_taken(sum, signals, budget, number);
    }
    sum
}

/// The steps that are budgeted to a leaf in the world of a machine: 0 where it has no budget.
pub(crate) fn stored_budget(machine: &Machine, budgets: &[Budget], leaf: LeafNo) -> u64
    requires { length machine.now.world.leaves ≡ length (components machine.now.scenario) }
    ensures { result ≡ slice_index (stored_budgets machine.now.world (step_budgets budgets.now)) leaf }
{
    match budgets.get(leaf.index()) {
        Some(budget) => steps_in(machine, budget.steps()),
        None => 0,
    }
}

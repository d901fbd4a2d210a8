// The accounts of a machine's nodes.
ghost use Rattle.std.specs.Prelude.{if◌then◌else◌, ◌≡◌, ◌<◌, ◌^◌, length, slice_get, IfSome};
ghost use Rattle.gq_model.specs.machine.Scenario.{components};
ghost use Rattle.gq_model.specs.rules.Accept.{step_budgets};
ghost use Rattle.gq_resolve.specs.NodeTables.{node_rows};
ghost use Rattle.gq_scenario.specs.Component_trees.{version_number};
ghost use Rattle.gq_output.specs.Account_values.{reported_of};
ghost use Rattle.gq_world.specs.Account_lines.{accounts_by, stored_budgets, ReportsOf};
ghost use Rattle.gq_model.specs.machine.Amounts.{counts_caps};

use crate::step_budgets::stored_budget;
use gq_load::budget::Budget;
use gq_machine::machine::Machine;
use gq_output::account_report::{AccountReport, LeafAccount};
use gq_scenario::node_numbers::NodeNo;
use gq_scenario::scenario::{LeafNo, Version};
use gq_tariff::Amount;

// So many capabilities, where they are counted.
fn counted(version: Version, caps: u64) -> u64
    ensures { result ≡ (if counts_caps (version_number version) then caps else 0) }
{
    if version.counts_caps() { caps } else { 0 }
}

// A number of steps that 64 bits hold.
fn held_steps(steps: u64) -> u64
    ensures is { result ≡ steps }
    ensures held { result < 2 ^ 64 }
{
    steps
}

// What is reported of a leaf beside its quota.
fn leaf_account(machine: &Machine, budgets: &[Budget], leaf: LeafNo) -> LeafAccount
    requires leaves { length machine.now.world.leaves ≡ length (components machine.now.scenario) }
    requires leaf { leaf < length (components machine.now.scenario) }
    ensures reports { ReportsOf machine.now.scenario machine.now.world (stored_budgets machine.now.world (step_budgets budgets.now)) leaf result }
    ensures held { result.steps < 2 ^ 64 }
{
    let budget = stored_budget(machine, budgets, leaf);
    let held = machine.used(leaf);
    let used = Amount {
        ram: held.ram,
        caps: counted(machine.table().scenario().version(), held.caps),
    };
    let steps = held_steps(machine.steps(leaf));
    LeafAccount::new(used, steps, budget, machine.phase(leaf))
}

// The account of a node of a machine whose leaves have these budgets.
pub(crate) fn account_of(machine: &Machine, budgets: &[Budget], node: NodeNo) -> AccountReport
    requires leaves { length machine.now.world.leaves ≡ length (components machine.now.scenario) }
    requires node { node < length (node_rows machine.now.scenario) }
    ensures reported { IfSome (slice_get
        (accounts_by machine.now.scenario machine.now.world (stored_budgets machine.now.world (step_budgets budgets.now))) node) (λ a. result ≡ reported_of a) }
    ensures held { IfSome result.leaf (λ l. l.steps < 2 ^ 64) }
{
    let quota = machine.quota(node);
    let leaf = match machine.table().leaf(node) {
        Some(leaf) => Some(leaf_account(machine, budgets, leaf)),
        None => None,
    };
    AccountReport::new(quota, leaf)
}

// The lines of all accounts.
ghost use Rattle.std.specs.Prelude.{◌≡◌, ◌<◌, ◌≤◌, length, slice_get, IfSome};
ghost use Rattle.gq_model.specs.machine.Accounts.{account_line, account_lines};
ghost use Rattle.gq_model.specs.machine.Scenario.{components};
ghost use Rattle.gq_model.specs.rules.Accept.{step_budgets};
ghost use Rattle.gq_resolve.specs.NodeTables.{node_rows};
ghost use Rattle.gq_output.specs.Writer_failures.{Writes};
ghost use Rattle.gq_world.specs.Account_lines.{accounts_by, stored_budgets};

use crate::node_accounts::account_of;
use gq_load::budget::Budget;
use gq_machine::machine::Machine;
use gq_output::account_line::account_line;
use gq_output::counted::{Counted, WriteFault, put};
use gq_output::line::Line;
use gq_scenario::node_numbers::NodeNo;
use std::io::Write;

// The line of the account of a node.
fn line_of(machine: &Machine, budgets: &[Budget], node: NodeNo) -> Line
    requires leaves { length machine.now.world.leaves ≡ length (components machine.now.scenario) }
    requires node { node < length (node_rows machine.now.scenario) }
    ensures { IfSome (slice_get (accounts_by machine.now.scenario machine.now.world (stored_budgets machine.now.world (step_budgets budgets.now))) node)
        (λ a. result.items ≡ account_line machine.now.scenario.version a) }
{
    let account = account_of(machine, budgets, node);
    let table = machine.table();
    account_line(table.scenario().version(), table.label(node), &account)
}

// The number of accounts.
fn account_count(machine: &Machine, budgets: &[Budget]) -> usize
    requires { length machine.now.world.leaves ≡ length (components machine.now.scenario) }
    ensures nodes { result ≡ length (node_rows machine.now.scenario) }
    ensures accounts { result ≡ length (accounts_by machine.now.scenario machine.now.world (stored_budgets machine.now.world (step_budgets budgets.now))) }
    ensures few { result ≤ 129 }
{
    machine.table().node_count()
}

/// Writes the lines of the accounts of all nodes in preorder, up to the first that is not written whole. The step budget of a leaf is that of these
/// budgets, of all leaves in preorder, in the machine's world, and 0 where it has none there. They allocate no host memory.
pub fn write_accounts<W: Write>(
    machine: &Machine,
    budgets: &[Budget],
    out: &mut Counted<W>,
) -> Result<(), WriteFault>
    requires { length machine.now.world.leaves ≡ length (components machine.now.scenario) }
    ensures { Writes W.contents out.old out.new
        (account_lines machine.now.scenario.version
        (accounts_by machine.now.scenario machine.now.world (stored_budgets machine.now.world (step_budgets budgets.now)))) result }
{
    for number in 0..account_count(machine, budgets) {
        let line = line_of(machine, budgets, NodeNo::new(number as u32));
        put(out, line.as_slice())?;
    }
    Ok(())
}

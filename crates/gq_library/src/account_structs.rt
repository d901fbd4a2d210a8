// Accounts and bounds, as C reads them.
ghost use Rattle.std.specs.Prelude.{◌≡◌, ◌<◌, ◌↔◌, false, true, length, slice_get, IfSome};
ghost use Rattle.gq_output.specs.Account_values.{reported_of};
ghost use Rattle.gq_model.specs.rules.Accept.{budgets};
ghost use Rattle.gq_resolve.specs.NodeTables.{node_rows};
ghost use Rattle.gq_world.specs.Account_lines.{all_accounts};
ghost use Rattle.gq_model.specs.machine.Scenario.{components};
ghost use Rattle.gq_library.specs.C_signals.{HasSignal};
ghost use Rattle.gq_library.specs.C_accounts.{Reports, ReportsBounds, ReportsReaction, phase_number};

use crate::result_codes::NONE;
use gq_model::phase::Phase;
use gq_scenario::node_numbers::NodeNo;
use gq_scenario::scenario::LeafNo;
use gq_world::world::World;

/// The account of a node, in bytes, capabilities and steps: `trade_account`.
#[repr(C)]
#[derive(Drop)]
pub struct NodeAccount {
    pub quota: u64,
    pub used: u64,
    pub caps: u64,
    pub taken: u64,
    pub steps: u64,
    pub budget: u64,
    pub phase: u32,
}

/// The verified bounds of a leaf, in bytes, capabilities and steps: `trade_budget`.
#[repr(C)]
#[derive(Drop)]
pub struct LeafBounds {
    pub own: u64,
    pub own_caps: u64,
    pub steps: u64,
}

/// The verified bounds of a signal, in steps: `trade_reaction`.
#[repr(C)]
#[derive(Drop)]
pub struct SignalBounds {
    pub steps: u64,
    pub all: u64,
}

// The number of a phase.
fn number_of(phase: Phase) -> u32
    ensures { result ≡ phase_number phase }
{
    match phase {
        Phase::Pending => 0,
        Phase::Running => 1,
        Phase::Blocked => 2,
        Phase::Serving => 3,
        Phase::Handling => 4,
        Phase::Exited => 5,
    }
}

// Reads the account of a node, if there is such a node.
pub(crate) fn read_account(world: &World, node: u32, reported: &mut NodeAccount) -> bool
    ensures reported { IfSome (slice_get (all_accounts world.now) node) (λ a. Reports reported.new (reported_of a)) }
    ensures there { (result ≡ true) ↔ (node < length (node_rows world.now.scenario)) }
    ensures stays { result ≡ false → reported.new ≡ reported.old }
{
    if world.nodes() <= node as usize {
        return false;
    }
    let account = world.account(NodeNo::new(node));
    *reported = match account.leaf() {
        Some(leaf) => NodeAccount {
            quota: account.quota(),
            used: leaf.used(),
            caps: account.caps(),
            taken: leaf.caps_used(),
            steps: leaf.steps(),
            budget: leaf.budget(),
            phase: number_of(leaf.phase()),
        },
        None => NodeAccount {
            quota: account.quota(),
            used: 0,
            caps: account.caps(),
            taken: 0,
            steps: 0,
            budget: 0,
            phase: NONE,
        },
    };
    true
}

// Reads the bounds of a leaf, if there is such a leaf.
pub(crate) fn read_bounds(world: &World, leaf: u32, reported: &mut LeafBounds) -> bool
    ensures reported { IfSome (slice_get (budgets world.now.scenario) leaf) (λ b. ReportsBounds reported.new b) }
    ensures there { (result ≡ true) ↔ (leaf < length (budgets world.now.scenario)) }
    ensures stays { result ≡ false → reported.new ≡ reported.old }
{
    let budgets = world.budgets();
    if budgets.len() <= leaf as usize {
        return false;
    }
    let budget = &budgets[leaf as usize];
    *reported = LeafBounds {
        own: budget.own(),
        own_caps: budget.own_caps(),
        steps: budget.steps().from_start(),
    };
    true
}

// Reads the bounds of a signal of a leaf, if there are such a leaf and signal.
pub(crate) fn read_reaction(
    world: &World,
    leaf: u32,
    signal: u32,
    reported: &mut SignalBounds,
) -> bool
    ensures reported { result ≡ true → ReportsReaction reported.new world.now.scenario leaf signal }
    ensures there { (result ≡ true) ↔ HasSignal world.now.scenario leaf signal }
    ensures stays { result ≡ false → reported.new ≡ reported.old }
{
    if world.table().leaf_count() <= leaf as usize {
        return false;
    }
    match world.reaction(LeafNo::new(leaf), signal as usize) {
        Some(reaction) => {
            *reported = SignalBounds {
                steps: reaction.steps,
                all: reaction.all,
            };
            true
        }
        None => false,
    }
}

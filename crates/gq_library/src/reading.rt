// What a world has: nodes and leaves, names, accounts and bounds; and whether it is at rest.
ghost use Rattle.std.specs.Prelude.{◌≡◌, ◌<◌, ◌≤◌, ◌↔◌, false, true, not, length, slice_get, None, IfSome};
ghost use Rattle.gq_output.specs.Account_values.{reported_of};
ghost use Rattle.gq_model.specs.machine.Routes.{numbered};
ghost use Rattle.gq_model.specs.machine.Scenario.{components};
ghost use Rattle.gq_model.specs.rules.Accept.{budgets};
ghost use Rattle.gq_resolve.specs.NodeTables.{IsNodeOf, node_rows};
ghost use Rattle.gq_world.specs.Account_lines.{all_accounts};
ghost use Rattle.gq_model.specs.machine.Rest.{some_can};
ghost use Rattle.gq_model.specs.machine.Scenario.{system};
ghost use Rattle.gq_library.specs.C_accounts.{Reports, ReportsBounds, ReportsReaction};
ghost use Rattle.gq_library.specs.C_signals.{HasSignal};
ghost use Rattle.gq_library.specs.Lookup.{number_or};
ghost use Rattle.gq_library.specs.Texts.{IsPut};

use crate::account_structs::{
    LeafBounds, NodeAccount, SignalBounds, read_account, read_bounds, read_reaction,
};
use crate::held::WorldHandle;
use crate::lookup::{leaf_named, node_of, put_label};
use crate::result_codes::NONE;
use std::alloc::Global;

/// The number of nodes, the root among them; 0 if the handle is empty.
#[unsafe(no_mangle)]
pub extern "C" fn trade_nodes(alloc: Global, world: &mut WorldHandle) -> u32
    ensures nodes { IfSome world.old.world (λ w. result ≡ length (node_rows w.scenario)) }
    ensures empty { world.old.world ≡ None → result ≡ 0 }
    ensures same { world.new.world ≡ world.old.world }
{
    match world.take(alloc) {
        None => 0,
        Some(owned) => {
            let nodes = owned.world().nodes() as u32;
            world.put(alloc, owned);
            nodes
        }
    }
}

/// The number of leaves; 0 if the handle is empty.
#[unsafe(no_mangle)]
pub extern "C" fn trade_leaves(alloc: Global, world: &mut WorldHandle) -> u32
    ensures leaves { IfSome world.old.world (λ w. result ≡ length (components w.scenario)) }
    ensures empty { world.old.world ≡ None → result ≡ 0 }
    ensures same { world.new.world ≡ world.old.world }
{
    match world.take(alloc) {
        None => 0,
        Some(owned) => {
            let leaves = owned.world().table().leaf_count() as u32;
            world.put(alloc, owned);
            leaves
        }
    }
}

/// The number of the leaf of a name, or `NONE`.
#[unsafe(no_mangle)]
pub extern "C" fn trade_leaf(alloc: Global, world: &mut WorldHandle, name: &[u8]) -> u32
    ensures leaf { IfSome world.old.world (λ w. result ≡ number_or (numbered 0 name.now (components w.scenario))) }
    ensures empty { world.old.world ≡ None → result ≡ NONE }
    ensures same { world.new.world ≡ world.old.world }
{
    match world.take(alloc) {
        None => NONE,
        Some(owned) => {
            let leaf = leaf_named(owned.world(), name);
            world.put(alloc, owned);
            leaf
        }
    }
}

/// The node of a leaf, or `NONE` if there is no such leaf.
#[unsafe(no_mangle)]
pub extern "C" fn trade_node(alloc: Global, world: &mut WorldHandle, leaf: u32) -> u32
    ensures node { IfSome world.old.world (λ w. IfSome (slice_get (components w.scenario) leaf) (λ c. IsNodeOf (node_rows w.scenario) result c)) }
    ensures none { IfSome world.old.world (λ w. length (components w.scenario) ≤ leaf → result ≡ NONE) }
    ensures empty { world.old.world ≡ None → result ≡ NONE }
    ensures same { world.new.world ≡ world.old.world }
{
    match world.take(alloc) {
        None => NONE,
        Some(owned) => {
            let node = node_of(owned.world(), leaf);
            world.put(alloc, owned);
            node
        }
    }
}

/// Puts the label of a node into `label`, as much of it as fits. `written` gets the length of the whole label. If there is no such node, the result is false
/// and nothing is changed.
#[unsafe(no_mangle)]
pub extern "C" fn trade_label(
    alloc: Global,
    world: &mut WorldHandle,
    node: u32,
    label: &mut [u8],
    written: &mut usize,
) -> bool
    ensures label { result ≡ true → IfSome world.old.world (λ w. IfSome (slice_get (node_rows w.scenario) node)
        (λ r. IsPut r.label label.old label.new written.new)) }
    ensures there { IfSome world.old.world (λ w. (result ≡ true) ↔ (node < length (node_rows w.scenario))) }
    ensures empty { world.old.world ≡ None → result ≡ false }
    ensures same { world.new.world ≡ world.old.world }
    ensures stays { result ≡ false → label.new ≡ label.old }
    ensures written { result ≡ false → written.new ≡ written.old }
{
    match world.take(alloc) {
        None => false,
        Some(owned) => {
            let there = put_label(owned.world(), node, label, written);
            world.put(alloc, owned);
            there
        }
    }
}

/// Reads the account of a node. If there is no such node, the result is false and nothing is changed.
#[unsafe(no_mangle)]
pub extern "C" fn trade_read_account(
    alloc: Global,
    world: &mut WorldHandle,
    node: u32,
    account: &mut NodeAccount,
) -> bool
    ensures reported { IfSome world.old.world (λ w. IfSome (slice_get (all_accounts w) node) (λ a. Reports account.new (reported_of a))) }
    ensures there { IfSome world.old.world (λ w. (result ≡ true) ↔ (node < length (node_rows w.scenario))) }
    ensures empty { world.old.world ≡ None → result ≡ false }
    ensures same { world.new.world ≡ world.old.world }
    ensures stays { result ≡ false → account.new ≡ account.old }
{
    match world.take(alloc) {
        None => false,
        Some(owned) => {
            let there = read_account(owned.world(), node, account);
            world.put(alloc, owned);
            there
        }
    }
}

/// Reads the bounds of a leaf. If there is no such leaf, the result is false and nothing is changed.
#[unsafe(no_mangle)]
pub extern "C" fn trade_read_budget(
    alloc: Global,
    world: &mut WorldHandle,
    leaf: u32,
    budget: &mut LeafBounds,
) -> bool
    ensures reported { IfSome world.old.world (λ w. IfSome (slice_get (budgets w.scenario) leaf) (λ b. ReportsBounds budget.new b)) }
    ensures there { IfSome world.old.world (λ w. (result ≡ true) ↔ (leaf < length (budgets w.scenario))) }
    ensures empty { world.old.world ≡ None → result ≡ false }
    ensures same { world.new.world ≡ world.old.world }
    ensures stays { result ≡ false → budget.new ≡ budget.old }
{
    match world.take(alloc) {
        None => false,
        Some(owned) => {
            let there = read_bounds(owned.world(), leaf, budget);
            world.put(alloc, owned);
            there
        }
    }
}

/// Reads the bounds of a signal. If there is no such leaf or signal, the result is false and nothing is changed.
#[unsafe(no_mangle)]
pub extern "C" fn trade_read_reaction(
    alloc: Global,
    world: &mut WorldHandle,
    leaf: u32,
    signal: u32,
    reaction: &mut SignalBounds,
) -> bool
    ensures reported { result ≡ true → IfSome world.old.world (λ w. ReportsReaction reaction.new w.scenario leaf signal) }
    ensures there { IfSome world.old.world (λ w. (result ≡ true) ↔ HasSignal w.scenario leaf signal) }
    ensures empty { world.old.world ≡ None → result ≡ false }
    ensures same { world.new.world ≡ world.old.world }
    ensures stays { result ≡ false → reaction.new ≡ reaction.old }
{
    match world.take(alloc) {
        None => false,
        Some(owned) => {
            let there = read_reaction(owned.world(), leaf, signal, reaction);
            world.put(alloc, owned);
            there
        }
    }
}

/// Whether no leaf can take a turn. True if the handle is empty.
#[unsafe(no_mangle)]
pub extern "C" fn trade_at_rest(alloc: Global, world: &mut WorldHandle) -> bool
    ensures rest { IfSome world.old.world (λ w. result ≡ not (some_can (system w.scenario) w.world 0 (components w.scenario))) }
    ensures empty { world.old.world ≡ None → result ≡ true }
    ensures same { world.new.world ≡ world.old.world }
{
    match world.take(alloc) {
        None => true,
        Some(owned) => {
            let rests = owned.world().is_at_rest();
            world.put(alloc, owned);
            rests
        }
    }
}

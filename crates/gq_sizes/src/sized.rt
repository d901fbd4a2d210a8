// Scenarios that have the least quantities of another.
ghost use Rattle.std.specs.Prelude.{◌≡◌, ℕ, suc, ◌+◌, ◌*◌, ◌^◌, ◌<◌, ◌≤◌, Bool, true, false, List, [], ◌∷◌, length, get_or};
ghost use Rattle.std.specs.Prelude.{IsTrue, IfOk, IfErr, IfSome, IsSome, OnSome};
ghost use Rattle.gq_model.specs.machine.Accounts.{leaf_count};
ghost use Rattle.gq_model.specs.machine.Amounts.{Ram, Caps, amount, counts_caps};
ghost use Rattle.gq_model.specs.machine.Scenario as model;
ghost use Rattle.gq_load.specs.Load_faults.{PrintsFault};
ghost use Rattle.gq_scenario.specs.Component_trees.{nodes_of, version_number};
ghost use Rattle.gq_scenario.specs.Without_quantities.{unsized};
ghost use Rattle.gq_verify.specs.Saturated_numbers.{saturated};
ghost use Rattle.gq_sizes.specs.Judged_scenario.{fault_without};
ghost use Rattle.gq_sizes.specs.Endless.{children_endless};
ghost use Rattle.gq_sizes.specs.Least.{IsSized, beyond, caps_of, least_interface, least_interfaces, least_upgrades, sum_at};
ghost use Rattle.gq_sizes.specs.internal.Sized_parts.{AreLeastCaps, AreLeastNodes, IsLeastQuantum};
ghost use Rattle.gq_sizes.specs.Size.{Gift, all_gifts, children_least, least_caps, ram_sum, root_least};
ghost use Rattle.gq_sizes.specs.Size_text.{unless};
ghost use Rattle.gq_sizes.specs.Saturated_tables.{AreLeast, caps_rows, ram_rows, row};

use crate::least_quantities::{LeastFound, found_of};
use crate::node_lines::Leaves;
use crate::point_maxima::LEVELS;
use crate::quantity_lines::Least;
use crate::same::{
    same_counts, same_name, same_names, same_numbers, same_offers, same_routes, same_source,
    same_version,
};
use gq_load::load_fault::LoadError;
use gq_load::unsized_scenarios::judge_unsized;
use gq_model::program::Name;
use gq_program::{Interface, Upgrade};
use gq_resolve::component::components;
use gq_scenario::scenario::{Init, Leaf, Node, Quantum, Scenario, Version};
use gq_scenario::without_quantities::without_quantities;
use std::alloc::Global;

/// Whether so many capabilities are the least, where they are counted; else whether there are none.
fn are_least_caps(version: Version, caps: u32, least: Option<u64>) -> bool
    ensures least { (m : ℕ) (endless : Bool) → least ≡ unless endless (saturated m) → IsTrue result → AreLeastCaps (version_number version) caps m endless }
    ensures only { (m : ℕ) (endless : Bool) → least ≡ unless endless (saturated m) → AreLeastCaps (version_number version) caps m endless → IsTrue result }
{
    if !version.counts_caps() {
        return caps == 0;
    }
    match least {
        Some(least) => u64::from(caps) == least,
        None => false,
    }
}

/// Whether a quantum is the least.
fn is_least(version: Version, quantum: Quantum, least: Least) -> bool
    ensures least { (n m : ℕ) (endless : Bool) → least.ram ≡ saturated n → least.caps ≡ unless endless (saturated m) → IsTrue result
        → IsLeastQuantum (version_number version) quantum n m endless }
    ensures only { (n m : ℕ) (endless : Bool) → least.ram ≡ saturated n → least.caps ≡ unless endless (saturated m)
        → IsLeastQuantum (version_number version) quantum n m endless → IsTrue result }
{
    quantum.ram() == least.ram && are_least_caps(version, quantum.caps(), least.caps)
}

/// Whether a leaf is another with this quantum.
fn is_leaf_sized(version: Version, made: &Leaf, leaf: &Leaf, least: Least) -> bool
    ensures least { (n m : ℕ) (endless : Bool) → least.ram ≡ saturated n → least.caps ≡ unless endless (saturated m) → IsTrue result
        → made.now ≡ record leaf.now { quantum = amount n (caps_of (version_number version) m) } }
    ensures ends { (n m : ℕ) (endless : Bool) → least.ram ≡ saturated n → least.caps ≡ unless endless (saturated m) → IsTrue result
        → counts_caps (version_number version) ≡ true → endless ≡ false }
    ensures only { (n m : ℕ) (endless : Bool) → least.ram ≡ saturated n → least.caps ≡ unless endless (saturated m)
        → (counts_caps (version_number version) ≡ true → endless ≡ false)
        → made.now ≡ record leaf.now { quantum = amount n (caps_of (version_number version) m) } → IsTrue result }
{
    if !is_least(version, made.quantum(), least) {
        return false;
    }
    same_name(made.name(), leaf.name())
        && same_source(made.source(), leaf.source())
        && same_names(made.provides(), leaf.provides())
        && same_names(made.after(), leaf.after())
        && same_numbers(made.inputs(), leaf.inputs())
        && made.signals() == leaf.signals()
        && same_routes(made.routes(), leaf.routes())
}

/// Whether an init is another with this quantum.
fn is_init_sized(version: Version, made: &Init, init: &Init, least: Least) -> bool
    ensures least { (n m : ℕ) (endless : Bool) → least.ram ≡ saturated n → least.caps ≡ unless endless (saturated m) → IsTrue result
        → made.now ≡ record init.now { quantum = amount n (caps_of (version_number version) m) } }
    ensures ends { (n m : ℕ) (endless : Bool) → least.ram ≡ saturated n → least.caps ≡ unless endless (saturated m) → IsTrue result
        → counts_caps (version_number version) ≡ true → endless ≡ false }
    ensures only { (n m : ℕ) (endless : Bool) → least.ram ≡ saturated n → least.caps ≡ unless endless (saturated m)
        → (counts_caps (version_number version) ≡ true → endless ≡ false)
        → made.now ≡ record init.now { quantum = amount n (caps_of (version_number version) m) } → IsTrue result }
{
    if !is_least(version, made.quantum(), least) {
        return false;
    }
    same_name(made.name(), init.name())
        && same_routes(made.routes(), init.routes())
        && same_routes(made.default_routes(), init.default_routes())
        && same_offers(made.offers(), init.offers())
}

/// Whether nodes are others with the least quanta, of which the first leaf has a number: if so the number of the leaf after them.
#[cycle(nodes)]
fn nodes_sized(
    version: Version,
    made: &[Node],
    nodes: &[Node],
    leaves: &Leaves<'_>,
    first: usize,
) -> Option<usize>
    requires { first + leaf_count (nodes_of nodes.now) ≤ 64 }
    ensures least { (all : model.System) → AreLeast all leaves.now.least.now leaves.now.endless.now
        → OnSome result (AreLeastNodes (version_number version) all first (nodes_of made.now) (nodes_of nodes.now)) }
    ensures only { (all : model.System) → AreLeast all leaves.now.least.now leaves.now.endless.now
        → AreLeastNodes (version_number version) all first (nodes_of made.now) (nodes_of nodes.now) → IsSome result }
    ensures next { IfSome result (λ next. next ≡ first + leaf_count (nodes_of nodes.now)) }
{
    match (made, nodes) {
        ([], []) => Some(first),
        ([made, more @ ..], [node, others @ ..]) => {
            let next = node_sized(version, made, node, leaves, first)?;
            nodes_sized(version, more, others, leaves, next)
        }
        _ => None,
    }
}

/// Whether a node is another with the least quanta, of which the first leaf has a number: if so the number of the leaf after it.
#[cycle(nodes)]
fn node_sized(
    version: Version,
    made: &Node,
    node: &Node,
    leaves: &Leaves<'_>,
    first: usize,
) -> Option<usize>
    requires { first + leaf_count (nodes_of (node.now ∷ [])) ≤ 64 }
    ensures least { (all : model.System) → AreLeast all leaves.now.least.now leaves.now.endless.now
        → OnSome result (AreLeastNodes (version_number version) all first (nodes_of (made.now ∷ [])) (nodes_of (node.now ∷ []))) }
    ensures only { (all : model.System) → AreLeast all leaves.now.least.now leaves.now.endless.now
        → AreLeastNodes (version_number version) all first (nodes_of (made.now ∷ [])) (nodes_of (node.now ∷ [])) → IsSome result }
    ensures next { IfSome result (λ next. next ≡ first + leaf_count (nodes_of (node.now ∷ []))) }
{
    match (made, node) {
        (Node::Leaf(made), Node::Leaf(leaf)) => {
            if is_leaf_sized(version, made, leaf, leaves.of_leaf(first)) {
                Some(first + 1)
            } else {
                None
            }
        }
        (Node::Init(made, more), Node::Init(init, children)) => {
            if is_init_sized(version, made, init, leaves.of_init(children, first)) {
                nodes_sized(version, more.nodes(), children.nodes(), leaves, first)
            } else {
                None
            }
        }
        _ => None,
    }
}

/// Whether so many capabilities and those before are the least sum, where they are counted; else whether there are none.
fn is_caps_sum(version: Version, before: u64, caps: u32, least: u64) -> bool
    requires { before ≤ 2 ^ 32 }
    ensures uncounted { counts_caps (version_number version) ≡ false → IsTrue result → caps ≡ 0 }
    ensures counted { counts_caps (version_number version) ≡ true → IsTrue result → before + caps ≡ least }
    ensures only { (counts_caps (version_number version) ≡ false → caps ≡ 0) → (counts_caps (version_number version) ≡ true → before + caps ≡ least)
        → IsTrue result }
{
    if !version.counts_caps() {
        return caps == 0;
    }
    before + u64::from(caps) == least
}

/// The number of a level.
fn at(numbers: &[u64; LEVELS], level: usize) -> u64
    requires { level < 4 }
    ensures { result ≡ get_or numbers.now level 0 }
{
    match numbers.get(level) {
        Some(number) => *number,
        None => 0,
    }
}

/// Whether the upgrade above a level is the least one by these least sums, of which that up to the level has so many capabilities.
fn is_upgrade_sized(
    version: Version,
    made: &Upgrade,
    ram: &[u64; LEVELS],
    caps: &[u64; LEVELS],
    level: usize,
    before: u64,
) -> bool
    requires low { level < 3 }
    requires small { before ≤ (level + 1) * 65536 }
    ensures added { (f g : ℕ → ℕ) → ram.now ≡ row f → caps.now ≡ row (λ l. saturated (g l)) → (counts_caps (version_number version) ≡ true → before ≡ g level)
        → IsTrue result → made.now ≡ beyond (amount (f (suc level)) (caps_of (version_number version) (g (suc level))))
        (amount (f level) (caps_of (version_number version) (g level))) }
    ensures sum { (g : ℕ → ℕ) → caps.now ≡ row (λ l. saturated (g l)) → counts_caps (version_number version) ≡ true → IsTrue result
        → before + made.now.caps ≡ g (level + 1) }
    ensures only { (f g : ℕ → ℕ) → ram.now ≡ row f → caps.now ≡ row (λ l. saturated (g l)) → (counts_caps (version_number version) ≡ true → before ≡ g level)
        → g level ≤ g (level + 1) → made.now ≡ beyond (amount (f (suc level)) (caps_of (version_number version) (g (suc level))))
        (amount (f level) (caps_of (version_number version) (g level))) → IsTrue result }
{
    let added = at(ram, level + 1).saturating_sub(at(ram, level));
    if u64::from(made.ram()) != added {
        return false;
    }
    is_caps_sum(version, before, made.caps(), at(caps, level + 1))
}

/// Whether upgrades above a level are the least ones of an interface with these least sums, of which that up to the level has so many capabilities.
fn upgrades_sized(
    version: Version,
    made: &[Upgrade],
    upgrades: &[Upgrade],
    ram: &[u64; LEVELS],
    caps: &[u64; LEVELS],
    level: usize,
    before: u64,
) -> bool
    requires levels { level + length upgrades.now ≤ 3 }
    requires small { before ≤ (level + 1) * 65536 }
    ensures least { (all : model.System) (given : List Gift) (service : List ℕ) (i : model.Interface) → ram.now ≡ row (ram_sum all given service i)
        → caps.now ≡ row (λ l. saturated (least_caps all service l))
        → (counts_caps (version_number version) ≡ true → before ≡ least_caps all service level) → IsTrue result
        → made.now ≡ least_upgrades (sum_at (version_number version) all given service i) level upgrades.now }
    ensures only { (all : model.System) (given : List Gift) (service : List ℕ) (i : model.Interface) → ram.now ≡ row (ram_sum all given service i)
        → caps.now ≡ row (λ l. saturated (least_caps all service l))
        → (counts_caps (version_number version) ≡ true → before ≡ least_caps all service level)
        → made.now ≡ least_upgrades (sum_at (version_number version) all given service i) level upgrades.now → IsTrue result }
{
    match (made, upgrades) {
        ([], []) => true,
        ([first, more @ ..], [_, others @ ..]) => {
            if !is_upgrade_sized(version, first, ram, caps, level, before) {
                return false;
            }
            let next = before + u64::from(first.caps());
            upgrades_sized(version, more, others, ram, caps, level + 1, next)
        }
        _ => false,
    }
}

/// Whether an interface is another, which has these least sums, with the least need and the least upgrades.
fn is_interface_sized(
    version: Version,
    made: &Interface,
    interface: &Interface,
    ram: &[u64; LEVELS],
    caps: &[u64; LEVELS],
) -> bool
    ensures least { (all : model.System) (given : List Gift) (service : List ℕ) → ram.now ≡ row (ram_sum all given service interface.now)
        → caps.now ≡ row (λ l. saturated (least_caps all service l)) → IsTrue result
        → made.now ≡ least_interface (sum_at (version_number version) all given service interface.now) interface.now }
    ensures only { (all : model.System) (given : List Gift) (service : List ℕ) → ram.now ≡ row (ram_sum all given service interface.now)
        → caps.now ≡ row (λ l. saturated (least_caps all service l))
        → made.now ≡ least_interface (sum_at (version_number version) all given service interface.now) interface.now → IsTrue result }
{
    let given = made.given_caps();
    made.arg() == interface.arg()
        && made.reply() == interface.reply()
        && made.object() == interface.object()
        && made.buffer() == interface.buffer()
        && same_counts(made, interface)
        && u64::from(made.need()) == at(ram, 0)
        && is_caps_sum(version, 0, given, at(caps, 0))
        && upgrades_sized(
            version,
            made.upgrades(),
            interface.upgrades(),
            ram,
            caps,
            0,
            u64::from(given),
        )
}

/// Whether interfaces are others, which have these least sums, with the least needs and the least upgrades.
fn interfaces_sized(
    version: Version,
    made: &[(Name, Interface)],
    interfaces: &[(Name, Interface)],
    ram: &[[u64; LEVELS]],
    caps: &[[u64; LEVELS]],
) -> bool
    ensures least { (all : model.System) (given : List Gift) → ram.now ≡ ram_rows all given interfaces.now → caps.now ≡ caps_rows all interfaces.now
        → IsTrue result → made.now ≡ least_interfaces (version_number version) all given interfaces.now }
    ensures only { (all : model.System) (given : List Gift) → ram.now ≡ ram_rows all given interfaces.now → caps.now ≡ caps_rows all interfaces.now
        → made.now ≡ least_interfaces (version_number version) all given interfaces.now → IsTrue result }
{
    match (made, interfaces, ram, caps) {
        ([], [], _, _) => true,
        (
            [(name, made), more @ ..],
            [(service, interface), others @ ..],
            [ram, rams @ ..],
            [caps, counts @ ..],
        ) => {
            same_name(name, service)
                && is_interface_sized(version, made, interface, ram, caps)
                && interfaces_sized(version, more, others, rams, counts)
        }
        _ => false,
    }
}

/// Whether what a scenario says of its root is what another does, with the least quantities.
fn is_top_sized(made: &Scenario, scenario: &Scenario, leaves: &Leaves<'_>) -> bool
    ensures version { IsTrue result → made.now.version ≡ scenario.now.version }
    ensures total { (all : model.System) → AreLeast all leaves.now.least.now leaves.now.endless.now → IsTrue result
        → IsLeastQuantum scenario.now.version made.now.total (root_least Ram (children_least Ram all 0 scenario.now.nodes))
        (root_least Caps (children_least Caps all 0 scenario.now.nodes)) (children_endless all 0 scenario.now.nodes) }
    ensures routes { IsTrue result → made.now.default_routes ≡ scenario.now.default_routes }
    ensures only { (all : model.System) → AreLeast all leaves.now.least.now leaves.now.endless.now → made.now.version ≡ scenario.now.version
        → IsLeastQuantum scenario.now.version made.now.total (root_least Ram (children_least Ram all 0 scenario.now.nodes))
        (root_least Caps (children_least Caps all 0 scenario.now.nodes)) (children_endless all 0 scenario.now.nodes)
        → made.now.default_routes ≡ scenario.now.default_routes → IsTrue result }
{
    let version = scenario.version();
    if !same_version(made.version(), version) {
        return false;
    }
    if !is_least(version, made.total(), leaves.of_root(scenario)) {
        return false;
    }
    same_routes(made.default_routes(), scenario.default_routes())
}

/// Whether a scenario is another, of which this is found without its quantities, with the least quantities.
fn is_sized_by(made: &Scenario, scenario: &Scenario, found: &LeastFound) -> bool
    requires ram { found.now.sums.ram.items
        ≡ ram_rows (model.system (unsized scenario.now)) (all_gifts (model.system (unsized scenario.now)) (model.components (unsized scenario.now)))
        (unsized scenario.now).interfaces }
    requires caps { found.now.sums.caps.items ≡ caps_rows (model.system (unsized scenario.now)) (unsized scenario.now).interfaces }
    requires leaves { AreLeast (model.system (unsized scenario.now)) found.now.leaves.items found.now.endless.items }
    ensures sized { IsTrue result → IsSized made.now scenario.now }
    ensures only { IsSized made.now scenario.now → IsTrue result }
{
    scenario.bounds();
    let version = scenario.version();
    let leaves = Leaves {
        least: found.leaves.as_slice(),
        endless: found.endless.as_slice(),
    };
    if !is_top_sized(made, scenario, &leaves) {
        return false;
    }
    let new = made.interfaces().entries();
    let old = scenario.interfaces().entries();
    let (ram, caps) = (found.sums.ram.as_slice(), found.sums.caps.as_slice());
    if !interfaces_sized(version, new, old, ram, caps) {
        return false;
    }
    let new = made.nodes().nodes();
    let old = scenario.nodes().nodes();
    match nodes_sized(version, new, old, &leaves, 0) {
        Some(_next) => true,
        None => false,
    }
}

/// Whether a scenario is another with the least quantities, by this one without its quantities; or the first fault of this one.
fn is_sized_without(
    alloc: Global,
    made: &Scenario,
    scenario: &Scenario,
    free: &Scenario,
) -> Result<bool, LoadError>
    requires { free.now ≡ unsized scenario.now }
    ensures sized { IfOk result (λ b. IsTrue b → IsSized made.now scenario.now) }
    ensures only { IfOk result (λ b. IsSized made.now scenario.now → IsTrue b) }
    ensures refused { IfErr result (λ e. PrintsFault e (fault_without scenario.now)) }
{
    let components = components(alloc, free)?;
    let judged = judge_unsized(alloc, free, components.as_slice())?;
    let found = found_of(alloc, free, components.as_slice(), &judged)?;
    Ok(is_sized_by(made, scenario, &found))
}

/// Whether a scenario is another with the least quantities in place of its own, and enough capabilities can be given to each node of it.
///
/// Capabilities have to be enough only where the version counts them.
///
/// Fails with the first fault of the other scenario that no quantity decides, or if the host refuses memory.
pub fn is_sized(alloc: Global, made: &Scenario, scenario: &Scenario) -> Result<bool, LoadError>
    ensures sized { IfOk result (λ b. IsTrue b → IsSized made.now scenario.now) }
    ensures only { IfOk result (λ b. IsSized made.now scenario.now → IsTrue b) }
    ensures refused { IfErr result (λ e. PrintsFault e (fault_without scenario.now)) }
{
    let free = without_quantities(alloc, scenario)?;
    let sized = is_sized_without(alloc, made, scenario, &free);
    drop(free);
    sized
}

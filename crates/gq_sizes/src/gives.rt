// Whether statements give for sessions just what the interfaces ask, and these ask just what sessions need.
ghost use Rattle.std.specs.Prelude.{◌≡◌, ℕ, ◌+◌, ◌*◌, ◌^◌, ◌≤◌, IsTrue, None, IfOk, IfErr, length, map};
ghost use Rattle.gq_model.specs.machine.Lists.{all_of};
ghost use Rattle.gq_model.specs.machine.Scenario as model;
ghost use Rattle.gq_model.specs.machine.Scenario.{interface_in, number_of};
ghost use Rattle.gq_model.specs.rules.Use.{subject};
ghost use Rattle.gq_model.specs.machine.Sections.{is_section};
ghost use Rattle.gq_load.specs.Load_faults.{PrintsFault};
ghost use Rattle.gq_load.specs.Unsized_judgement.{unsized_fault};
ghost use Rattle.gq_scenario.specs.Without_quantities.{unsized};
ghost use Rattle.gq_verify.specs.Visits.{section_sights};
ghost use Rattle.gq_sizes.specs.Gives.{AskJust, GivesLeast, gives_right, leaf_gives_right, upgrade_to};
ghost use Rattle.gq_sizes.specs.Judged_scenario.{fault_without};
ghost use Rattle.gq_sizes.specs.Saturated_tables.{row};
ghost use Rattle.gq_sizes.specs.internal.Just_asked.{asks_above, asks_by};

use crate::faultless_programs::all_verified;
use crate::needs::needs_ram;
use crate::point_maxima::LEVELS;
use gq_load::load_fault::LoadError;
use gq_load::unsized_scenarios::{Unsized, judge_unsized};
use gq_program::{Instruction, Interface, Interfaces, Section, Upgrade};
use gq_resolve::component::{Component, components};
use gq_rules::{AbstractState, Context};
use gq_scenario::scenario::Scenario;
use gq_scenario::without_quantities::without_quantities;
use gq_verify::{Verified, Visitor};
use std::alloc::{AllocError, Global};

/// Whether each statement seen so far gives what its interface asks.
#[derive(Drop)]
struct Exact<'a> {
    interfaces: &'a Interfaces,
    right: bool,
}

/// The bytes that an interface asks for its upgrade to the level above one.
fn upgrade_above(interface: &Interface, level: u8) -> u32
    ensures { result ≡ upgrade_to (level + 1) interface.now }
{
    match interface.upgrades().get(usize::from(level)) {
        Some(upgrade) => upgrade.ram(),
        None => 0,
    }
}

impl<'a> Exact<'a> {
    /// The bytes that a service asks with a session.
    fn need(&self, service: &[u8]) -> u32
        ensures { result ≡ number_of (interface_in service.now self.now.interfaces.now) (λ i. i.need.ram) }
    {
        match self.interfaces.named(service) {
            Some(interface) => interface.need(),
            None => 0,
        }
    }

    /// The bytes that a service asks for the upgrade to the level above one.
    fn upgrade(&self, service: &[u8], level: u8) -> u32
        ensures { result ≡ number_of (interface_in service.now self.now.interfaces.now) (upgrade_to (level + 1)) }
    {
        match self.interfaces.named(service) {
            Some(interface) => upgrade_above(interface, level),
            None => 0,
        }
    }
}

impl<'a> Visitor for Exact<'a> {
    ghost use Rattle.std.specs.Prelude.{◌≡◌, ◌&&◌};
    ghost use Rattle.gq_sizes.specs.Gives.{gives_right};

    ghost leads = { λ a e b. (b.interfaces ≡ a.interfaces) × (b.right ≡ (a.right && gives_right a.interfaces.now e)) };

    fn statement(
        &mut self,
        context: &Context<'_>,
        state: &AbstractState,
        instruction: &Instruction,
    ) {
        match instruction {
            Instruction::Open(_, service, given) => {
                let asked = self.need(service.as_bytes());
                self.right &= *given == asked;
            }
            Instruction::Upgrade(place, given) => {
                if let Some(link) = context.link_at(state, *place) {
                    let asked = self.upgrade(link.service(), link.level());
                    self.right &= *given == asked;
                }
            }
            _ => {}
        }
    }

    fn point(&mut self, _number: u64, _state: &AbstractState) {}
}

/// Whether the statements of a section give what the interfaces ask.
fn section_gives(verified: &Verified<'_>, section: Section, interfaces: &Interfaces) -> bool
    requires { IsTrue (is_section section) }
    ensures { result ≡ all_of (gives_right interfaces.now) (section_sights verified.now section) }
{
    let mut visitor = Exact {
        interfaces,
        right: true,
    };
    verified.visit(section, &mut visitor);
    visitor.right
}

/// Whether the statements of a leaf give what the interfaces ask.
fn leaf_gives(verified: &Verified<'_>, interfaces: &Interfaces) -> bool
    ensures { result ≡ leaf_gives_right interfaces.now verified.now }
{
    for (section, _body) in verified.sections() {
        if !section_gives(verified, *section, interfaces) {
            return false;
        }
    }
    true
}

/// Whether the statements of these leaves give what the interfaces ask.
fn all_give(leaves: &[Verified<'_>], interfaces: &Interfaces) -> bool
    ensures { result ≡ all_of (leaf_gives_right interfaces.now) leaves.now }
{
    for verified in leaves {
        if !leaf_gives(verified, interfaces) {
            return false;
        }
    }
    true
}

/// Whether so many bytes, which are asked up to a level, are just the number of that level; and so with each upgrade above it.
fn ask_above(upgrades: &[Upgrade], needs: &[u64; LEVELS], level: usize, asked: u64) -> bool
    requires levels { level + length upgrades.now ≤ 3 }
    requires small { asked ≤ (level + 1) * 2 ^ 32 }
    ensures { (f : ℕ → ℕ) → needs.now ≡ row f → result ≡ asks_above f level asked upgrades.now }
{
    if asked != needs[level] {
        return false;
    }
    match upgrades {
        [] => true,
        [first, more @ ..] => ask_above(more, needs, level + 1, asked + u64::from(first.ram())),
    }
}

/// Whether an interface asks just these numbers of bytes, up to each level that it has.
fn asks(interface: &Interface, needs: &[u64; LEVELS]) -> bool
    ensures { (f : ℕ → ℕ) → needs.now ≡ row f → result ≡ asks_by f interface.now }
{
    ask_above(interface.upgrades(), needs, 0, u64::from(interface.need()))
}

/// Whether each interface asks just what sessions need, up to each level that it has.
fn all_ask(components: &[Component<'_>], leaves: &[Verified<'_>], interfaces: &Interfaces) -> bool
    ensures just { (all : model.System) → components.now ≡ all.components → leaves.now ≡ map (subject all) all.components
        → IsTrue result → AskJust all interfaces.now }
    ensures only { (all : model.System) → components.now ≡ all.components → leaves.now ≡ map (subject all) all.components
        → AskJust all interfaces.now → IsTrue result }
{
    for (service, interface) in interfaces.entries() {
        let needs = needs_ram(components, leaves, service, interface);
        if !asks(interface, &needs) {
            return false;
        }
    }
    true
}

/// Whether the statements of a scenario give what its interfaces ask, and these ask what sessions need, by this one without its quantities.
fn gives_by(
    alloc: Global,
    scenario: &Scenario,
    free: &Scenario,
    components: &[Component<'_>],
    judged: &Unsized,
) -> Result<bool, AllocError>
    requires free { free.now ≡ unsized scenario.now }
    requires components { components.now ≡ model.components free.now }
    requires programs { judged.now.programs.items ≡ map (λ c. c.node.program) components.now }
    requires faultless { unsized_fault free.now ≡ None }
    ensures least { IfOk result (λ b. IsTrue b → GivesLeast scenario.now) }
    ensures only { IfOk result (λ b. GivesLeast scenario.now → IsTrue b) }
{
    let programs = judged.programs.as_slice();
    let leaves = all_verified(alloc, components, programs, free.interfaces())?;
    let interfaces = scenario.interfaces();
    let gives = all_give(leaves.as_slice(), interfaces);
    let asks = all_ask(components, leaves.as_slice(), interfaces);
    Ok(gives && asks)
}

/// Whether the statements of a scenario give what its interfaces ask, and these ask what sessions need, by this one without its quantities; or the first fault
/// of this one.
fn gives_without(alloc: Global, scenario: &Scenario, free: &Scenario) -> Result<bool, LoadError>
    requires { free.now ≡ unsized scenario.now }
    ensures least { IfOk result (λ b. IsTrue b → GivesLeast scenario.now) }
    ensures only { IfOk result (λ b. GivesLeast scenario.now → IsTrue b) }
    ensures refused { IfErr result (λ e. PrintsFault e (fault_without scenario.now)) }
{
    let components = components(alloc, free)?;
    let judged = judge_unsized(alloc, free, components.as_slice())?;
    Ok(gives_by(alloc, scenario, free, components.as_slice(), &judged)?)
}

/// Whether the statements of a scenario give just what its interfaces ask, and these just what sessions need.
///
/// Each `open` gives the need of its interface, and each `upgrade` its upgrade. Up to each level an interface asks the bytes that sessions of that level need.
///
/// Fails with the first fault that no quantity decides, or if the host refuses memory.
pub fn gives_least(alloc: Global, scenario: &Scenario) -> Result<bool, LoadError>
    ensures least { IfOk result (λ b. IsTrue b → GivesLeast scenario.now) }
    ensures only { IfOk result (λ b. GivesLeast scenario.now → IsTrue b) }
    ensures refused { IfErr result (λ e. PrintsFault e (fault_without scenario.now)) }
{
    let free = without_quantities(alloc, scenario)?;
    let right = gives_without(alloc, scenario, &free);
    drop(free);
    right
}

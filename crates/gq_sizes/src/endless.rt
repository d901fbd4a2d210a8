// Where no number of capabilities is enough: sessions that hold one another without end.
ghost use Rattle.std.specs.Prelude.{◌≡◌, ◌&&◌, ℕ, IfOk, IsTrue, List, Some, map};
ghost use Rattle.gq_caps.specs.Known.{all_known, known};
ghost use Rattle.gq_model.specs.machine.Lists.{any_of};
ghost use Rattle.gq_model.specs.machine.Program.{Statements, section_in};
ghost use Rattle.gq_model.specs.machine.Scenario.{System};
ghost use Rattle.gq_model.specs.rules.Use.{subject};
ghost use Rattle.gq_model.specs.machine.Sections.{is_section};
ghost use Rattle.gq_sizes.specs.Endless.{holds, leads, leaf_holds};
ghost use Rattle.gq_sizes.specs.Passing.{chain_rows, endless_rows, held_of, held_rows, passing, test_at};
ghost use Rattle.gq_sizes.specs.Size.{is_named, is_up_to, section_points};
ghost use Rattle.gq_sizes.specs.Saturated_tables.{AreOf};

use crate::needs::{is_provider, is_up_to};
use crate::point_maxima::LEVELS;
use crate::section_levels::levels_are_low;
use gq_caps::{Bank, Kind};
use gq_program::{Instruction, Interfaces, Name, Section};
use gq_resolve::component::Component;
use gq_rules::{AbstractState, Context};
use gq_verify::{Verified, Visitor};
use std::alloc::{AllocError, Global};

/// For each interface, a test of each level.
pub(crate) type Tests = Vec<[bool; LEVELS]>;

/// Sessions that pass: of each interface a test of each level.
#[derive(Drop)]
pub(crate) struct Sessions<'a> {
    pub interfaces: &'a Interfaces,
    pub tests: &'a [[bool; LEVELS]],
}

impl<'a> Sessions<'a> {
    /// Whether a session of the interface at a place passes, at a level; none passes where there is no interface.
    fn at(&self, place: usize, level: u8) -> bool
        ensures { result ≡ test_at (Some place) self.now.tests.now level }
    {
        match self.tests.get(place) {
            Some(tests) => match tests.get(usize::from(level).min(LEVELS - 1)) {
                Some(test) => *test,
                None => false,
            },
            None => false,
        }
    }

    /// Whether a session of a service and a level passes.
    fn of(&self, service: &[u8], level: u8) -> bool
        ensures { result ≡ passing self.now.interfaces.now self.now.tests.now service.now level }
    {
        match self.interfaces.place(service) {
            Some(place) => self.at(place, level),
            None => false,
        }
    }

    /// Whether a slot has a link to a session that passes.
    fn leads(&self, kind: &Kind) -> bool
        ensures { result ≡ leads (passing self.now.interfaces.now self.now.tests.now) (known kind.now) }
    {
        match kind {
            Kind::Link(link) => self.of(link.service(), link.level()),
            _ => false,
        }
    }

    /// Whether one of these slots has a link to a session that passes.
    pub fn held<const N: usize>(&self, bank: &Bank<N>) -> bool
        ensures { result ≡ any_of (leads (passing self.now.interfaces.now self.now.tests.now)) (all_known bank.now) }
    {
        for kind in bank.kinds() {
            if self.leads(kind) {
                return true;
            }
        }
        false
    }
}

/// Whether a session holds one that passes.
#[derive(Drop)]
struct Held<'a> {
    sessions: &'a Sessions<'a>,
    found: bool,
}

impl<'a> Visitor for Held<'a> {
    ghost use Rattle.std.specs.Prelude.{◌≡◌};
    ghost use Rattle.gq_model.specs.machine.Lists.{any_of};
    ghost use Rattle.gq_sizes.specs.Endless.{leads};
    ghost use Rattle.gq_sizes.specs.Passing.{found_by, passing};

    ghost leads = { λ a e b. (b.sessions ≡ a.sessions)
        × (b.found ≡ found_by (λ s. any_of (leads (passing a.sessions.now.interfaces.now a.sessions.now.tests.now)) s.bank) a.found e) };

    fn statement(
        &mut self,
        _context: &Context<'_>,
        _state: &AbstractState,
        _instruction: &Instruction,
    ) {}

    fn point(&mut self, _number: u64, state: &AbstractState) {
        let held = self.sessions.held(state.bank());
        self.found |= held;
    }
}

/// Whether a session holds one that passes, at a point of a section that is there.
fn section_holds(verified: &Verified<'_>, section: Section, sessions: &Sessions<'_>) -> bool
    requires { IsTrue (is_section section) }
    ensures { (b : Statements) → section_in section verified.now.program.sections ≡ Some b →
        result ≡ any_of (λ s. any_of (leads (passing sessions.now.interfaces.now sessions.now.tests.now)) s.bank) (section_points verified.now section) }
{
    let mut visitor = Held {
        sessions,
        found: false,
    };
    verified.visit(section, &mut visitor);
    visitor.found
}

/// Whether a session of a level up to this holds one that passes, at a point of a section of a leaf that is there.
fn level_holds(
    verified: &Verified<'_>,
    section: Section,
    sessions: &Sessions<'_>,
    level: u8,
) -> bool
    requires { IsTrue (is_section section) }
    ensures { (b : Statements) → section_in section verified.now.program.sections ≡ Some b → result ≡ (is_up_to level section
        && any_of (λ s. any_of (leads (passing sessions.now.interfaces.now sessions.now.tests.now)) s.bank) (section_points verified.now section)) }
{
    if is_up_to(section, level) {
        section_holds(verified, section, sessions)
    } else {
        false
    }
}

/// Whether a session of a level up to this holds one that passes, at some point of a leaf.
fn leaf_holds(verified: &Verified<'_>, sessions: &Sessions<'_>, level: u8) -> bool
    ensures { result ≡ leaf_holds (passing sessions.now.interfaces.now sessions.now.tests.now) verified.now level }
{
    for (section, _body) in verified.sections() {
        if level_holds(verified, *section, sessions, level) {
            return true;
        }
    }
    false
}

/// Whether a leaf provides a service, and a session of a level up to this holds one that passes there.
fn provider_holds(
    component: &Component<'_>,
    verified: &Verified<'_>,
    service: &Name,
    sessions: &Sessions<'_>,
    level: u8,
) -> bool
    ensures { result ≡ (is_named service.now component.now.node.provides
        && leaf_holds (passing sessions.now.interfaces.now sessions.now.tests.now) verified.now level) }
{
    if is_provider(component, service) {
        leaf_holds(verified, sessions, level)
    } else {
        false
    }
}

/// Whether a session of a service and a level holds one that passes, at any leaf that provides it.
fn holds(
    components: &[Component<'_>],
    leaves: &[Verified<'_>],
    service: &Name,
    sessions: &Sessions<'_>,
    level: u8,
) -> bool
    ensures { result ≡ held_of (λ v. leaf_holds (passing sessions.now.interfaces.now sessions.now.tests.now) v level)
        service.now components.now leaves.now }
{
    for (component, verified) in components.iter().zip(leaves) {
        if provider_holds(component, verified, service, sessions, level) {
            return true;
        }
    }
    false
}

/// For each interface and level, whether a session holds one that passes.
fn next_tests(
    alloc: Global,
    components: &[Component<'_>],
    leaves: &[Verified<'_>],
    sessions: &Sessions<'_>,
) -> Result<Tests, AllocError>
    ensures { (all : System) → components.now ≡ all.components → leaves.now ≡ map (subject all) all.components → IfOk result (λ n.
        n.items ≡ held_rows all (passing sessions.now.interfaces.now sessions.now.tests.now) sessions.now.interfaces.now) }
{
    let mut tests = Vec::new(alloc);
    for (service, _interface) in sessions.interfaces.entries() {
        tests.push([
            holds(components, leaves, service, sessions, 0),
            holds(components, leaves, service, sessions, 1),
            holds(components, leaves, service, sessions, 2),
            holds(components, leaves, service, sessions, 3),
        ])?;
    }
    Ok(tests)
}

/// Tests that all sessions pass.
fn first_tests(alloc: Global, interfaces: &Interfaces) -> Result<Tests, AllocError>
    ensures { (all : System) → all.interfaces ≡ interfaces.now → IfOk result (λ n. n.items ≡ chain_rows all 0 interfaces.now) }
{
    let mut tests = Vec::new(alloc);
    for _entry in interfaces.entries() {
        tests.push([true, true, true, true])?;
    }
    Ok(tests)
}

/// For each interface and level, whether a session is the first of a chain without end, each held by the one before it: no number of capabilities is
/// enough for it. A round finds chains that are one longer; there is one for each level of each interface and one more. A round that changes nothing is
/// the last.
pub(crate) fn endless(
    alloc: Global,
    components: &[Component<'_>],
    leaves: &[Verified<'_>],
    interfaces: &Interfaces,
) -> Result<Tests, AllocError>
    ensures { (all : System) → AreOf all components.now leaves.now interfaces.now → IfOk result (λ n. n.items ≡ endless_rows all interfaces.now) }
{
    levels_are_low(leaves);
    let rounds = 4 * interfaces.entries().len() + 1;
    let mut tests = first_tests(alloc, interfaces)?;
    for _round in 0..rounds {
        let sessions = Sessions {
            interfaces,
            tests: tests.as_slice(),
        };
        let next = next_tests(alloc, components, leaves, &sessions)?;
        if next.as_slice() == tests.as_slice() {
            return Ok(tests);
        }
        tests = next;
    }
    Ok(tests)
}

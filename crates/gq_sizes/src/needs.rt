// What sessions of each interface need, over all leaves that provide it.
ghost use Rattle.std.specs.Prelude.{◌≡◌, ◌≤◌, ◌+◌, ◌-◌, if◌then◌else◌, ℕ, IfOk, List, length, map};
ghost use Rattle.gq_model.specs.machine.Amounts.{Ram, Caps};
ghost use Rattle.gq_model.specs.machine.Scenario.{System};
ghost use Rattle.gq_model.specs.machine.Scenario as model;
ghost use Rattle.gq_model.specs.rules.Use.{subject};
ghost use Rattle.gq_verify.specs.Saturated_numbers.{saturated};
ghost use Rattle.gq_sizes.specs.Size.{Gift, all_gifts, asked_above, is_named, is_up_to, leaf_needed, needed, ram_sum};
ghost use Rattle.gq_sizes.specs.Point_maxima.{given_in};
ghost use Rattle.gq_sizes.specs.Needing.{gift_row, needed_of};
ghost use Rattle.gq_sizes.specs.Saturated_tables.{AreOf, caps_rows, needed_rows, ram_rows, round_rows, row, sum_rows};

use crate::gifts::{Gifts, given_above, least_gifts};
use crate::point_maxima::{LEVELS, LeastGifts, most_caps, most_ram};
use crate::section_levels::levels_are_low;
use gq_model::spelling::same_text;
use gq_program::{Interface, Interfaces, Name, Section};
use gq_resolve::component::Component;
use gq_verify::Verified;
use std::alloc::{AllocError, Global};

/// For each interface, a number of each level.
pub(crate) type Needs = Vec<[u64; LEVELS]>;

/// Whether a section is one of sessions of a level up to this.
pub(crate) fn is_up_to(section: Section, level: u8) -> bool
    ensures { result ≡ is_up_to level section }
{
    match section {
        Section::Main | Section::Reacting(_) => false,
        _ => section.level() <= level,
    }
}

/// The most bytes that a session of an interface costs a leaf, of a level up to this.
fn leaf_ram(verified: &Verified<'_>, interface: &Interface, level: u8) -> u64
    ensures { result ≡ leaf_needed (λ _ _. 0) Ram verified.now interface.now level }
{
    let mut most = 0_u64;
    for (section, _body) in verified.sections() {
        if is_up_to(*section, level) {
            most = most.max(most_ram(verified, *section, interface));
        }
    }
    most
}

/// The same in capabilities; 2^64 - 1 where it is more.
fn leaf_caps(verified: &Verified<'_>, given: &LeastGifts<'_>, level: u8) -> u64
    ensures { (i : model.Interface) →
        result ≡ saturated (leaf_needed (given_in given.now.interfaces.now given.now.sums.now) Caps verified.now i level) }
{
    let mut most = 0_u64;
    for (section, _body) in verified.sections() {
        if is_up_to(*section, level) {
            most = most.max(most_caps(verified, *section, given));
        }
    }
    most
}

/// Whether a leaf provides a service.
pub(crate) fn is_provider(component: &Component<'_>, service: &Name) -> bool
    ensures { result ≡ is_named service.now component.now.node.provides }
{
    match component.leaf().provides() {
        Some(provided) => same_text(service.as_bytes(), provided.as_bytes()),
        None => false,
    }
}

/// The most bytes that a session of an interface costs a leaf, of a level up to this, if the leaf provides the service.
fn provider_ram(
    component: &Component<'_>,
    verified: &Verified<'_>,
    service: &Name,
    interface: &Interface,
    level: u8,
) -> u64
    ensures { result
        ≡ (if is_named service.now component.now.node.provides then leaf_needed (λ _ _. 0) Ram verified.now interface.now level else 0) }
{
    if is_provider(component, service) {
        leaf_ram(verified, interface, level)
    } else {
        0
    }
}

/// The same in capabilities; 2^64 - 1 where it is more.
fn provider_caps(
    component: &Component<'_>,
    verified: &Verified<'_>,
    service: &Name,
    given: &LeastGifts<'_>,
    level: u8,
) -> u64
    ensures { (i : model.Interface) → result ≡ saturated (if is_named service.now component.now.node.provides
        then leaf_needed (given_in given.now.interfaces.now given.now.sums.now) Caps verified.now i level else 0) }
{
    if is_provider(component, service) {
        leaf_caps(verified, given, level)
    } else {
        0
    }
}

/// The most bytes that a session of an interface costs any leaf that provides it, of a level up to this.
fn needed_ram(
    components: &[Component<'_>],
    leaves: &[Verified<'_>],
    service: &Name,
    interface: &Interface,
    level: u8,
) -> u64
    ensures { result ≡ needed_of (λ v. leaf_needed (λ _ _. 0) Ram v interface.now level) service.now components.now leaves.now }
{
    let mut most = 0_u64;
    for (component, verified) in components.iter().zip(leaves) {
        let needed = provider_ram(component, verified, service, interface, level);
        most = most.max(needed);
    }
    most
}

/// The same in capabilities; 2^64 - 1 where it is more.
fn needed_caps(
    components: &[Component<'_>],
    leaves: &[Verified<'_>],
    service: &Name,
    given: &LeastGifts<'_>,
    level: u8,
) -> u64
    ensures { (i : model.Interface) → result ≡ saturated (needed_of
        (λ v. leaf_needed (given_in given.now.interfaces.now given.now.sums.now) Caps v i level) service.now components.now leaves.now) }
{
    let mut most = 0_u64;
    for (component, verified) in components.iter().zip(leaves) {
        let needed = provider_caps(component, verified, service, given, level);
        most = most.max(needed);
    }
    most
}

/// What sessions of an interface need in bytes, up to each level.
pub(crate) fn needs_ram(
    components: &[Component<'_>],
    leaves: &[Verified<'_>],
    service: &Name,
    interface: &Interface,
) -> [u64; LEVELS]
    ensures { (all : System) → components.now ≡ all.components → leaves.now ≡ map (subject all) all.components →
        result ≡ row (needed (λ _ _. 0) Ram all service.now interface.now) }
{
    [
        needed_ram(components, leaves, service, interface, 0),
        needed_ram(components, leaves, service, interface, 1),
        needed_ram(components, leaves, service, interface, 2),
        needed_ram(components, leaves, service, interface, 3),
    ]
}

/// What so many levels above one ask of the sum up to it, beyond what is always given for them.
fn asked_above(needs: &[u64; LEVELS], gifts: &Gifts, level: usize, count: usize) -> u64
    requires { level + count ≤ 3 }
    ensures { (f : ℕ → ℕ) (given : List Gift) (service : List ℕ) (u : ℕ) → needs.now ≡ row f → gifts.now ≡ gift_row given service u →
        count ≤ u - level → result ≡ asked_above f given service count level }
{
    match count {
        0 => 0,
        _ => {
            let last = match given_above(gifts, level, count) {
                Some(given) => needs[level + count].saturating_sub(given),
                None => 0,
            };
            last.max(asked_above(needs, gifts, level, count - 1))
        }
    }
}

/// The least sums of need and upgrades up to each level, of an interface with so many upgrades.
fn sums_of(needs: &[u64; LEVELS], gifts: &Gifts, upgrades: usize) -> [u64; LEVELS]
    requires { upgrades ≤ 3 }
    ensures { (all : System) (given : List Gift) (service : List ℕ) (i : model.Interface) →
        needs.now ≡ row (needed (λ _ _. 0) Ram all service i) → gifts.now ≡ gift_row given service upgrades → upgrades ≡ length i.upgrades →
        result ≡ row (ram_sum all given service i) }
{
    let none = needs[0].max(asked_above(needs, gifts, 0, upgrades));
    let one = needs[1]
        .max(asked_above(needs, gifts, 1, upgrades.saturating_sub(1)))
        .max(none);
    let two = needs[2]
        .max(asked_above(needs, gifts, 2, upgrades.saturating_sub(2)))
        .max(one);
    let three = needs[3]
        .max(asked_above(needs, gifts, 3, upgrades.saturating_sub(3)))
        .max(two);
    [none, one, two, three]
}

/// The least sums of need and upgrades in bytes, of each interface up to each level.
pub(crate) fn least_ram(
    alloc: Global,
    components: &[Component<'_>],
    leaves: &[Verified<'_>],
    interfaces: &Interfaces,
) -> Result<Needs, AllocError>
    ensures { (all : System) → components.now ≡ all.components → leaves.now ≡ map (subject all) all.components →
        IfOk result (λ n. n.items ≡ ram_rows all (all_gifts all all.components) interfaces.now) }
{
    let mut sums = Vec::new(alloc);
    for (service, interface) in interfaces.entries() {
        let needs = needs_ram(components, leaves, service, interface);
        let upgrades = interface.upgrades().len();
        let gifts = least_gifts(leaves, service, upgrades as u8);
        sums.push(sums_of(&needs, &gifts, upgrades))?;
    }
    Ok(sums)
}

/// What sessions of each interface need in bytes, up to each level, whatever is given for upgrades.
pub(crate) fn free_ram(
    alloc: Global,
    components: &[Component<'_>],
    leaves: &[Verified<'_>],
    interfaces: &Interfaces,
) -> Result<Needs, AllocError>
    ensures { (all : System) → components.now ≡ all.components → leaves.now ≡ map (subject all) all.components →
        IfOk result (λ n. n.items ≡ needed_rows all interfaces.now) }
{
    let mut needs = Vec::new(alloc);
    for (service, interface) in interfaces.entries() {
        needs.push(needs_ram(components, leaves, service, interface))?;
    }
    Ok(needs)
}

/// What sessions of each interface need in capabilities, up to each level, by all leaves, where so much is given at least for the sessions of links.
fn round_caps(
    alloc: Global,
    components: &[Component<'_>],
    leaves: &[Verified<'_>],
    given: &LeastGifts<'_>,
) -> Result<Needs, AllocError>
    ensures { (all : System) → components.now ≡ all.components → leaves.now ≡ map (subject all) all.components →
        IfOk result (λ n. n.items ≡ round_rows all (given_in given.now.interfaces.now given.now.sums.now) given.now.interfaces.now) }
{
    let mut needs = Vec::new(alloc);
    for (service, _interface) in given.interfaces.entries() {
        needs.push([
            needed_caps(components, leaves, service, given, 0),
            needed_caps(components, leaves, service, given, 1),
            needed_caps(components, leaves, service, given, 2),
            needed_caps(components, leaves, service, given, 3),
        ])?;
    }
    Ok(needs)
}

/// A row of nothing for each interface.
fn first_rows(alloc: Global, interfaces: &Interfaces) -> Result<Needs, AllocError>
    ensures { (all : System) → IfOk result (λ n. n.items ≡ sum_rows all 0 interfaces.now) }
{
    let mut rows = Vec::new(alloc);
    for _entry in interfaces.entries() {
        rows.push([0, 0, 0, 0])?;
    }
    Ok(rows)
}

/// The least capabilities of sessions of each interface up to each level: what they need, where as much is given for the sessions that they hold. It goes round
/// for each level of each interface and once more; a round that changes nothing is the last. 2^64 - 1 where it is more.
pub(crate) fn least_caps(
    alloc: Global,
    components: &[Component<'_>],
    leaves: &[Verified<'_>],
    interfaces: &Interfaces,
) -> Result<Needs, AllocError>
    ensures { (all : System) → AreOf all components.now leaves.now interfaces.now → IfOk result (λ n. n.items ≡ caps_rows all interfaces.now) }
{
    levels_are_low(leaves);
    let rounds = 4 * interfaces.entries().len() + 1;
    let mut sums = first_rows(alloc, interfaces)?;
    for _round in 0..rounds {
        let given = LeastGifts {
            interfaces,
            sums: sums.as_slice(),
        };
        let next = round_caps(alloc, components, leaves, &given)?;
        if next.as_slice() == sums.as_slice() {
            return Ok(sums);
        }
        sums = next;
    }
    Ok(sums)
}

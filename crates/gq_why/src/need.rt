// What sessions of each level need.
ghost use Rattle.std.specs.Prelude.{◌≡◌, ◌++◌, OnOk, codes, decimal, length, option_map, suc};
ghost use Rattle.gq_model.specs.machine.Accounts.{reported};
ghost use Rattle.gq_model.specs.machine.Amounts.{Ram, Caps, part};
ghost use Rattle.gq_scenario.specs.Component_trees.{version_number};
ghost use Rattle.gq_why.specs.First_maxima.{top_in, top_session};
ghost use Rattle.gq_why.specs.Why.{is_of_level, level_parts, need_part, needs_part, points_at};
ghost use Rattle.gq_why.specs.internal.Visitor_lines.{session_lines};

use crate::greatest_points::{Highest, HighestSession};
use crate::point_lines::{push_object, push_of, push_point, push_slots};
use gq_model::program::Name;
use gq_program::{Interface, Section};
use gq_resolve::component::Component;
use gq_rules::session_rules::{need_of, session_cost};
use gq_scenario::scenario::{Scenario, Version};
use gq_tariff::{Amount, Resource};
use gq_verify::Verified;
use gq_views::view_words::{end_line, push_number};
use std::alloc::AllocError;

/// How much of a resource an amount has.
fn part(resource: Resource, amount: Amount) -> u64
    ensures { result ≡ part resource amount }
{
    match resource {
        Resource::Ram => amount.ram,
        Resource::Caps => amount.caps,
    }
}

/// Puts what a session costs most at a level at the end of a text, of what is given for it, and the point where it does.
fn push_session(
    text: &mut Vec<u8>,
    resource: Resource,
    interface: &Interface,
    given: u64,
    highest: &Option<Highest<8>>,
) -> Result<(), AllocError>
    ensures { OnOk result (text.new.items ≡ text.old.items ++ session_lines resource interface.now given (option_map top_in highest.now)) }
{
    let Some(point) = highest else {
        return push_of(text, 0, given);
    };
    let cost = part(resource, session_cost(interface, &point.bank));
    push_of(text, cost, given)?;
    push_point(text, point.section, point.number)?;
    push_number(text, cost)?;
    end_line(text)?;
    push_object(text, resource, interface.object())?;
    push_slots(text, resource, b"s", point.bank.kinds())
}

/// Puts the words of a level of a service at the end of a text.
fn push_level(text: &mut Vec<u8>, words: &[u8], service: &Name, level: u8) -> Result<(), AllocError>
    ensures { OnOk result (text.new.items ≡ text.old.items ++ words.now ++ service.now ++ codes " at level " ++ decimal level ++ codes " ") }
{
    text.extend_from_slice(words)?;
    text.extend_from_slice(service.as_bytes())?;
    text.extend_from_slice(b" at level ")?;
    push_number(text, u64::from(level))?;
    text.extend_from_slice(b" ")
}

/// Whether a section is of a level.
fn is_of_level(section: Section, level: u8) -> bool
    ensures { result ≡ is_of_level level section }
{
    match section {
        Section::Main | Section::Reacting(_) => false,
        _ => section.level() == level,
    }
}

/// The points of a leaf's sections of a level at which a session costs most.
fn highest_at(verified: &Verified<'_>, level: u8) -> HighestSession
    ensures ram { option_map top_in result.ram ≡ top_session Ram (points_at verified.now level verified.now.program.sections) }
    ensures caps { option_map top_in result.caps ≡ top_session Caps (points_at verified.now level verified.now.program.sections) }
{
    let mut highest = HighestSession::new();
    for (section, _body) in verified.sections() {
        if is_of_level(*section, level) {
            highest.see(verified, *section);
        }
    }
    highest
}

/// Puts the part of a level of a session at the end of a text, and that of capabilities where they are counted.
fn push_need(
    text: &mut Vec<u8>,
    version: Version,
    verified: &Verified<'_>,
    service: &Name,
    interface: &Interface,
    level: u8,
) -> Result<(), AllocError>
    ensures { OnOk result (text.new.items ≡ text.old.items
        ++ need_part Ram (codes "need of ") service.now interface.now level (points_at verified.now level verified.now.program.sections)
        ++ reported (version_number version) (need_part Caps (codes "need caps of ") service.now interface.now level
        (points_at verified.now level verified.now.program.sections))) }
{
    let highest = highest_at(verified, level);
    let given = need_of(interface, level);
    push_level(text, b"need of ", service, level)?;
    push_session(text, Resource::Ram, interface, given.ram, &highest.ram)?;
    if !version.counts_caps() {
        return Ok(());
    }
    push_level(text, b"need caps of ", service, level)?;
    push_session(text, Resource::Caps, interface, given.caps, &highest.caps)
}

/// Puts the parts of all levels of a session at the end of a text.
fn push_levels(
    text: &mut Vec<u8>,
    version: Version,
    verified: &Verified<'_>,
    service: &Name,
    interface: &Interface,
) -> Result<(), AllocError>
    ensures { OnOk result (text.new.items ≡ text.old.items
        ++ level_parts (version_number version) verified.now service.now interface.now 0 (suc (length interface.now.upgrades))) }
{
    let upgrades = interface.upgrades().len() as u8;
    for level in 0..upgrades + 1 {
        push_need(text, version, verified, service, interface, level)?;
    }
    Ok(())
}

/// Puts the parts of all levels of the service that a leaf provides at the end of a text; nothing where it provides none.
pub(crate) fn push_needs(
    text: &mut Vec<u8>,
    scenario: &Scenario,
    verified: &Verified<'_>,
    component: &Component<'_>,
) -> Result<(), AllocError>
    ensures { OnOk result (text.new.items ≡ text.old.items ++ needs_part scenario.now verified.now component.now.node.provides) }
{
    let Some(service) = component.leaf().provides() else {
        return Ok(());
    };
    let Some(interface) = scenario.interfaces().named(service.as_bytes()) else {
        return Ok(());
    };
    push_levels(text, scenario.version(), verified, service, interface)
}

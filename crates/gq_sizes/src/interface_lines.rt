// The lines of interfaces.
ghost use Rattle.std.specs.Prelude.{◌≡◌, ◌+◌, ◌-◌, ◌^◌, ◌<◌, ◌≤◌, ◌++◌, List, [], OnOk, false, get_or, length};
ghost use Rattle.gq_model.specs.machine.Amounts.{amount};
ghost use Rattle.gq_model.specs.machine.Scenario as model;
ghost use Rattle.gq_scenario.specs.Component_trees.{version_number};
ghost use Rattle.gq_verify.specs.Saturated_numbers.{saturated};
ghost use Rattle.gq_sizes.specs.Size.{Gift, least_caps, ram_sum};
ghost use Rattle.gq_sizes.specs.Endless.{is_endless};
ghost use Rattle.gq_sizes.specs.Least_numbers.{at_least, need_least};
ghost use Rattle.gq_sizes.specs.Passing.{endless_rows, tests};
ghost use Rattle.gq_sizes.specs.Size_text.{need_line, unless, upgrade_line};
ghost use Rattle.gq_sizes.specs.Saturated_tables.{caps_rows, ram_rows, row};
ghost use Rattle.gq_sizes.specs.internal.Printed_sizes.{interface_lines, upgrade_lines};

use crate::endless::Tests;
use crate::needs::Needs;
use crate::point_maxima::LEVELS;
use crate::quantity_lines::{Least, least_of, push_caps, push_pair};
use gq_model::program::Name;
use gq_program::{Interface, Interfaces, Upgrade};
use gq_scenario::scenario::Version;
use gq_tariff::Amount;
use gq_views::view_words::{end_line, push_amount, push_entry, push_number};
use std::alloc::AllocError;

/// The least sums of need and upgrades, of each interface up to each level, and whether no number of capabilities is enough.
#[derive(Drop)]
pub(crate) struct Sums {
    pub ram: Needs,
    pub caps: Needs,
    pub endless: Tests,
}

/// The sum up to a level of the interface at a place; nothing where there is none.
fn sum_at(sums: &[[u64; LEVELS]], place: usize, level: usize) -> u64
    ensures sum { result ≡ get_or (get_or sums.now place []) level 0 }
    ensures small { result < 2 ^ 64 }
{
    match sums.get(place) {
        Some(sums) => match sums.get(level) {
            Some(sum) => *sum,
            None => 0,
        },
        None => 0,
    }
}

/// Whether no number of capabilities is enough up to a level of the interface at a place; not where there is none.
pub(crate) fn is_endless_at(endless: &[[bool; LEVELS]], place: usize, level: usize) -> bool
    ensures { result ≡ get_or (get_or endless.now place []) level false }
{
    match endless.get(place) {
        Some(levels) => match levels.get(level) {
            Some(endless) => *endless,
            None => false,
        },
        None => false,
    }
}

impl Sums {
    /// Whether no number of capabilities is enough for a session of the interface at a place, at a level.
    fn is_endless(&self, place: usize, level: usize) -> bool
        ensures { result ≡ get_or (get_or self.now.endless.items place []) level false }
    {
        is_endless_at(self.endless.as_slice(), place, level)
    }

    /// What a session of the interface at a place needs at least, to be opened.
    pub fn need(&self, place: usize) -> Amount
        ensures least { result ≡ amount (get_or (get_or self.now.ram.items place []) 0 0) (get_or (get_or self.now.caps.items place []) 0 0) }
        ensures small { get_or (get_or self.now.ram.items place []) 0 0 < 2 ^ 64 }
    {
        Amount {
            ram: sum_at(self.ram.as_slice(), place, 0),
            caps: sum_at(self.caps.as_slice(), place, 0),
        }
    }

    /// What has to be added at least for the level above one.
    fn upgrade(&self, place: usize, level: usize) -> Amount
        requires { level < 3 }
        ensures least { result ≡ amount
            (get_or (get_or self.now.ram.items place []) (level + 1) 0 - get_or (get_or self.now.ram.items place []) level 0)
            (get_or (get_or self.now.caps.items place []) (level + 1) 0 - get_or (get_or self.now.caps.items place []) level 0) }
        ensures small { get_or (get_or self.now.ram.items place []) level 0 < 2 ^ 64 }
        ensures small_above { get_or (get_or self.now.ram.items place []) (level + 1) 0 < 2 ^ 64 }
    {
        let ram = self.ram.as_slice();
        let caps = self.caps.as_slice();
        Amount {
            ram: sum_at(ram, place, level + 1).saturating_sub(sum_at(ram, place, level)),
            caps: sum_at(caps, place, level + 1).saturating_sub(sum_at(caps, place, level)),
        }
    }
}

impl Sums {
    /// What a session of the interface at a place needs at least, to be opened.
    pub fn least_need(&self, place: usize) -> Least
        ensures least { result ≡ at_least
            (amount (get_or (get_or self.now.ram.items place []) 0 0) (get_or (get_or self.now.caps.items place []) 0 0))
            (get_or (get_or self.now.endless.items place []) 0 false) }
        ensures small { get_or (get_or self.now.ram.items place []) 0 0 < 2 ^ 64 }
    {
        least_of(self.need(place), self.is_endless(place, 0))
    }

    /// What has to be added at least for the level above one.
    pub fn least_upgrade(&self, place: usize, level: usize) -> Least
        requires { level < 3 }
        ensures least { result ≡ at_least (amount
            (get_or (get_or self.now.ram.items place []) (level + 1) 0 - get_or (get_or self.now.ram.items place []) level 0)
            (get_or (get_or self.now.caps.items place []) (level + 1) 0 - get_or (get_or self.now.caps.items place []) level 0))
            (get_or (get_or self.now.endless.items place []) (level + 1) false) }
        ensures small { get_or (get_or self.now.ram.items place []) level 0 < 2 ^ 64 }
        ensures small_above { get_or (get_or self.now.ram.items place []) (level + 1) 0 < 2 ^ 64 }
    {
        least_of(
            self.upgrade(place, level),
            self.is_endless(place, level + 1),
        )
    }
}

/// Puts the line of what a session needs to be opened at the end of a text.
fn push_need(
    text: &mut Vec<u8>,
    version: Version,
    service: &Name,
    interface: &Interface,
    least: Least,
) -> Result<(), AllocError>
    ensures { OnOk result (text.new.items ≡ text.old.items ++ need_line (version_number version) service.now interface.now.need least.ram least.caps) }
{
    text.extend_from_slice(b"size ")?;
    text.extend_from_slice(service.as_bytes())?;
    push_pair(text, b"need", u64::from(interface.need()), least.ram)?;
    push_caps(text, version, u64::from(interface.given_caps()), least.caps)?;
    end_line(text)
}

/// Puts the line of what is added for a level at the end of a text.
fn push_upgrade(
    text: &mut Vec<u8>,
    version: Version,
    service: &Name,
    level: usize,
    upgrade: &Upgrade,
    least: Least,
) -> Result<(), AllocError>
    ensures { OnOk result (text.new.items ≡ text.old.items ++ upgrade_line (version_number version) service.now level upgrade.now least.ram least.caps) }
{
    text.extend_from_slice(b"size ")?;
    text.extend_from_slice(service.as_bytes())?;
    text.extend_from_slice(b" upgrade ")?;
    push_number(text, level as u64)?;
    push_amount(text, u64::from(upgrade.ram()))?;
    push_entry(text, b"least", least.ram)?;
    push_caps(text, version, u64::from(upgrade.caps()), least.caps)?;
    end_line(text)
}

/// Puts the lines of upgrades of the interface at a place at the end of a text.
fn push_upgrades(
    text: &mut Vec<u8>,
    version: Version,
    service: &Name,
    upgrades: &[Upgrade],
    sums: &Sums,
    place: usize,
) -> Result<(), AllocError>
    requires { length upgrades.now ≤ 3 }
    ensures { (all : model.System) (given : List Gift) (i : model.Interface)
        → get_or sums.now.ram.items place [] ≡ row (ram_sum all given service.now i)
        → get_or sums.now.caps.items place [] ≡ row (λ l. saturated (least_caps all service.now l))
        → get_or sums.now.endless.items place [] ≡ tests (is_endless all service.now)
        → OnOk result (text.new.items ≡ text.old.items ++ upgrade_lines (version_number version) all given service.now i 0 upgrades.now) }
{
    for (level, upgrade) in upgrades.iter().enumerate() {
        let least = least_of(
            sums.upgrade(place, level),
            sums.is_endless(place, level + 1),
        );
        push_upgrade(text, version, service, level + 1, upgrade, least)?;
    }
    Ok(())
}

/// Puts the lines of the interface at a place at the end of a text.
fn push_interface(
    text: &mut Vec<u8>,
    version: Version,
    entry: &(Name, Interface),
    sums: &Sums,
    place: usize,
) -> Result<(), AllocError>
    ensures { (all : model.System) (given : List Gift)
        → get_or sums.now.ram.items place [] ≡ row (ram_sum all given entry.now.0 entry.now.1)
        → get_or sums.now.caps.items place [] ≡ row (λ l. saturated (least_caps all entry.now.0 l))
        → get_or sums.now.endless.items place [] ≡ tests (is_endless all entry.now.0)
        → OnOk result (text.new.items ≡ text.old.items
        ++ need_line (version_number version) entry.now.0 entry.now.1.need (need_least all given entry.now.0 entry.now.1).ram
        (unless (is_endless all entry.now.0 0) (need_least all given entry.now.0 entry.now.1).caps)
        ++ upgrade_lines (version_number version) all given entry.now.0 entry.now.1 0 entry.now.1.upgrades) }
{
    let (service, interface) = entry;
    let least = least_of(sums.need(place), sums.is_endless(place, 0));
    push_need(text, version, service, interface, least)?;
    push_upgrades(text, version, service, interface.upgrades(), sums, place)
}

/// Puts the lines of all interfaces at the end of a text.
pub(crate) fn push_interfaces(
    text: &mut Vec<u8>,
    version: Version,
    interfaces: &Interfaces,
    sums: &Sums,
) -> Result<(), AllocError>
    ensures { (all : model.System) (given : List Gift) → sums.now.ram.items ≡ ram_rows all given interfaces.now
        → sums.now.caps.items ≡ caps_rows all interfaces.now → sums.now.endless.items ≡ endless_rows all interfaces.now
        → OnOk result (text.new.items ≡ text.old.items ++ interface_lines (version_number version) all given interfaces.now) }
{
    for (place, entry) in interfaces.entries().iter().enumerate() {
        push_interface(text, version, entry, sums, place)?;
    }
    Ok(())
}

// Interfaces, as tables without faults describe them.
ghost use Rattle.std.specs.Prelude.{◌≡◌, ◌≤◌, ◌+◌, ◌++◌, true, None, length, option_map, codes, IfOk};
ghost use Rattle.toml.specs.View.{view, table_view, items_view};
ghost use Rattle.gq_model.specs.machine.Lists.{all_of};
ghost use Rattle.gq_model.specs.machine.Amounts.{amount, counted_in};
ghost use Rattle.gq_model.specs.texts.Operands.{greatest_number};
ghost use Rattle.gq_program.specs.Interfaces as interfaces;
ghost use Rattle.gq_program.specs.Interfaces.{or_none, is_rising, are_interfaces};
ghost use Rattle.gq_scenario.specs.Table_keys.{listed, is_number, is_quantity, number_of, quantity, table_fault};
ghost use Rattle.gq_scenario.specs.Document_tables.{greatest_caps, are_named_tables, interface_keys};
ghost use Rattle.gq_scenario.specs.Document.{or_zero, number_at, upgrades_of, interface_of, interfaces_of, keys_of, interfaces_fault};
ghost use Rattle.gq_reader.specs.Key_rules.{entries_or_none};
ghost use Rattle.gq_scenario.specs.Component_trees.{version_number};

use crate::value::{list_at, number_at, number_of, quantity, quantity_at};
use gq_model::program::Name;
use gq_program::interface::{Interface, Interfaces, Upgrade};
use gq_scenario::key::Key;
use gq_scenario::scenario::Version;
use std::alloc::{AllocError, Global};
use toml::{Table, Value};

// The capabilities that a value reports.
fn read_count(value: &Value) -> u32
    requires { is_number 0 greatest_caps (view value.now) ≡ true }
    ensures count { result ≡ or_zero (number_of (view value.now)) }
    ensures few { result ≤ 65536 }
{
    match number_of(value) {
        Some(count) => count as u32,
        None => 0,
    }
}

// The upgrade of so many capabilities, and of the bytes that a value reports.
fn read_upgrade(value: &Value, caps: u32) -> Upgrade
    requires bytes { is_quantity 0 greatest_number (view value.now) ≡ true }
    requires few { caps ≤ 65536 }
    ensures { result ≡ amount (or_zero (quantity (view value.now))) caps }
{
    let ram = match quantity(value) {
        Some(bytes) => bytes as u32,
        None => 0,
    };
    Upgrade::new(ram, caps)
}

// An interface with these upgrades more: bytes of each, and capabilities, 0 where none are reported.
fn with_upgrades(interface: Interface, bytes: &[Value], counts: &[Value]) -> Interface
    requires few { length interface.upgrades + length bytes.now ≤ 3 }
    requires bytes { all_of (is_quantity 0 greatest_number) (listed (items_view bytes.now)) ≡ true }
    requires counts { all_of (is_number 0 greatest_caps) (listed (items_view counts.now)) ≡ true }
    ensures { result ≡ record interface { upgrades = interface.upgrades ++ upgrades_of (listed (items_view bytes.now)) (listed (items_view counts.now)) } }
{
    match (bytes, counts) {
        ([], _) => interface,
        ([first, rest @ ..], []) => {
            let upgrade = read_upgrade(first, 0);
            with_upgrades(interface.with_upgrade(upgrade), rest, &[])
        }
        ([first, rest @ ..], [count, others @ ..]) => {
            let upgrade = read_upgrade(first, read_count(count));
            with_upgrades(interface.with_upgrade(upgrade), rest, others)
        }
    }
}

// The capabilities that a session needs, where they are counted.
fn read_need_caps(version: Version, table: &Table) -> Option<u32>
    requires { table_fault (interface_keys (version_number version) (table_view table.now)) (table_view table.now) ≡ None }
    ensures count { or_none result ≡ number_at (codes "need-caps") (table_view table.now) }
    ensures few { or_none result ≤ 65536 }
    ensures counted { counted_in (interfaces.version_of result) ≡ counted_in (version_number version) }
{
    match version {
        Version::One => None,
        Version::Two | Version::Three | Version::Four => {
            Some(number_at(table, Key::NeedCaps) as u32)
        }
    }
}

// The interface of a table.
fn read_interface(version: Version, table: &Table) -> Interface
    requires { table_fault (interface_keys (version_number version) (table_view table.now)) (table_view table.now) ≡ None }
    ensures { result ≡ interface_of (version_number version) (table_view table.now) }
{
    let arg = number_at(table, Key::Arg) as u32;
    let reply = number_at(table, Key::Reply) as u32;
    let need = quantity_at(table, Key::Need) as u32;
    let need_caps = read_need_caps(version, table);
    let object = quantity_at(table, Key::Object) as u32;
    let buffer = quantity_at(table, Key::Buffer) as u32;
    let interface = Interface::new(arg, reply, need, need_caps)
        .with_object(object)
        .with_buffer(buffer);
    with_upgrades(
        interface,
        list_at(table, Key::Upgrades),
        list_at(table, Key::UpgradeCaps),
    )
}

// The interfaces of these tables, each with the name of its service.
fn read_entries(
    alloc: Global,
    version: Version,
    tables: &Table,
) -> Result<Vec<(Name, Interface)>, AllocError>
    requires names { are_named_tables (table_view tables.now) ≡ true }
    requires sound { interfaces_fault (version_number version) (table_view tables.now) ≡ None }
    ensures read { IfOk result (λ entries. entries.items ≡ interfaces_of (version_number version) (table_view tables.now)) }
    ensures rising { is_rising (interfaces_of (version_number version) (table_view tables.now)) ≡ true }
{
    let mut entries = Vec::new(alloc);
    for (key, value) in tables.iter() {
        let name = key.as_str();
        let Some(name) = Name::new(name.as_bytes()) else {
            unreachable!();
        };
        let Some(table) = value.as_table() else {
            unreachable!();
        };
        entries.push((name, read_interface(version, table)))?;
    }
    Ok(entries)
}

// These interfaces, which are few and stand in the order of their names.
fn collected(entries: Vec<(Name, Interface)>) -> Interfaces
    requires { are_interfaces entries.items ≡ true }
    ensures { result ≡ entries.items }
{
    match Interfaces::new(entries) {
        Some(interfaces) => interfaces,
        None => unreachable!(),
    }
}

// The interfaces of these tables, of which there may be none.
pub(crate) fn read_interfaces(
    alloc: Global,
    version: Version,
    tables: Option<&Table>,
) -> Result<Interfaces, AllocError>
    requires few { length (keys_of (entries_or_none (option_map (λ t. table_view t.now) tables))) ≤ 64 }
    requires names { are_named_tables (entries_or_none (option_map (λ t. table_view t.now) tables)) ≡ true }
    requires sound { interfaces_fault (version_number version) (entries_or_none (option_map (λ t. table_view t.now) tables)) ≡ None }
    ensures { IfOk result (λ i. i ≡ interfaces_of (version_number version) (entries_or_none (option_map (λ t. table_view t.now) tables.entry))) }
{
    match tables {
        Some(tables) => Ok(collected(read_entries(alloc, version, tables)?)),
        None => Ok(collected(Vec::new(alloc))),
    }
}

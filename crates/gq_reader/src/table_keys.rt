// The keys that each table of a document has, with their rules.
ghost use Rattle.std.specs.Prelude.{◌≡◌, ◌≤◌, length, map, option_map};
ghost use Rattle.toml.specs.View.{table_view};
ghost use Rattle.gq_scenario.specs.Document.{keys_of};
ghost use Rattle.gq_scenario.specs.Document_tables.{init_keys, interface_keys, leaf_keys, route_keys, top_keys};
ghost use Rattle.gq_scenario.specs.Component_trees.{version_number};
ghost use Rattle.gq_reader.specs.Key_rules.{entries_or_none, rule_of};

use crate::rules::{GREATEST_NUMBER, KeyRule, ValueRule, either, optional, other, required};
use crate::value::count_at;
use arrayvec::ArrayVec;
use gq_model::limits::{
    GREATEST_BUFFER, GREATEST_CAPS, GREATEST_OBJECT, GREATEST_QUANTITY, SIGNALS,
};
use gq_scenario::key::Key;
use gq_scenario::scenario::Version;
use toml::Table;

/// The greatest version of a scenario.
const GREATEST_VERSION: u64 = 4;

/// The rules of a table. No table has more than 10.
pub type KeyRules<'a> = ArrayVec<KeyRule<'a>, 10>;

// These rules.
fn listed<'a>(rules: &[KeyRule<'a>]) -> KeyRules<'a>
    requires { length rules.now ≤ 10 }
    ensures { result.items ≡ rules.now }
{
    let mut listed = ArrayVec::new();
    if listed.try_extend_from_slice(rules).is_err() {
        unreachable!();
    }
    listed
}

/// The rules of a top table.
pub fn top_rules(version: Version) -> KeyRules<'static>
    ensures { map rule_of result.items ≡ top_keys (version_number version) }
{
    let number = required(Key::Version, ValueRule::Number(1, GREATEST_VERSION));
    let ram = required(Key::Ram, ValueRule::Total);
    let caps = required(Key::Caps, ValueRule::Number(1, GREATEST_CAPS));
    let routes = optional(Key::DefaultRoute, ValueRule::Tables);
    let interfaces = optional(Key::Interface, ValueRule::NamedTables);
    let start = required(Key::Start, ValueRule::Tables);
    match version {
        Version::One => listed(&[number, ram, routes, interfaces, start]),
        Version::Two | Version::Three | Version::Four => listed(&[
            number, ram, caps, routes, interfaces, start,
        ]),
    }
}

/// The rules of an interface's table. It has as many `upgrade-caps` as `upgrades`.
pub fn interface_rules(version: Version, table: &Table) -> KeyRules<'static>
    ensures { map rule_of result.items ≡ interface_keys (version_number version) (table_view table.now) }
{
    let arg = required(Key::Arg, ValueRule::Number(0, GREATEST_NUMBER));
    let reply = required(Key::Reply, ValueRule::Number(0, GREATEST_NUMBER));
    let need = required(Key::Need, ValueRule::Quantity(0, GREATEST_NUMBER));
    let need_caps = required(Key::NeedCaps, ValueRule::Number(0, GREATEST_CAPS));
    let object = optional(Key::Object, ValueRule::Quantity(0, GREATEST_OBJECT));
    let upgrades = optional(Key::Upgrades, ValueRule::Upgrades);
    let count = count_at(table, Key::Upgrades);
    let upgrade_caps = optional(Key::UpgradeCaps, ValueRule::Counts(count));
    let buffer = optional(Key::Buffer, ValueRule::Quantity(0, GREATEST_BUFFER));
    match version {
        Version::One => listed(&[arg, reply, need, object, upgrades, buffer]),
        Version::Two | Version::Three | Version::Four => listed(&[
            arg,
            reply,
            need,
            need_caps,
            object,
            upgrades,
            upgrade_caps,
            buffer,
        ]),
    }
}

/// The rules of a route's table.
pub fn route_rules() -> KeyRules<'static>
    ensures { map rule_of result.items ≡ route_keys }
{
    listed(&[
        either(Key::Service, &[Key::AnyService], ValueRule::NameText),
        other(Key::AnyService, &[Key::Service], ValueRule::True),
        either(
            Key::Child,
            &[Key::AnyChild, Key::Parent],
            ValueRule::NameText,
        ),
        other(Key::AnyChild, &[Key::Child], ValueRule::True),
        other(Key::Parent, &[Key::Child, Key::AnyChild], ValueRule::True),
    ])
}

/// The rules of an init's table.
pub fn init_rules(version: Version) -> KeyRules<'static>
    ensures { map rule_of result.items ≡ init_keys (version_number version) }
{
    let name = required(Key::Name, ValueRule::NameText);
    let quantum = required(Key::Quantum, ValueRule::Quantity(0, GREATEST_QUANTITY));
    let caps = required(Key::Caps, ValueRule::Number(0, GREATEST_CAPS));
    let routes = optional(Key::Route, ValueRule::Tables);
    let start = required(Key::Start, ValueRule::Tables);
    let default_routes = optional(Key::DefaultRoute, ValueRule::Tables);
    let offers = optional(Key::Offers, ValueRule::NamedNames);
    match version {
        Version::One => listed(&[name, quantum, routes, start, default_routes]),
        Version::Two => listed(&[name, quantum, caps, routes, start, default_routes]),
        Version::Three | Version::Four => listed(&[
            name,
            quantum,
            caps,
            routes,
            start,
            default_routes,
            offers,
        ]),
    }
}

/// The rules of a leaf's table, among these interfaces.
pub fn leaf_rules<'a>(version: Version, interfaces: Option<&'a Table>) -> KeyRules<'a>
    ensures { map rule_of result.items
        ≡ leaf_keys (version_number version) (keys_of (entries_or_none (option_map (λ t. table_view t.now) interfaces.entry))) }
{
    let name = required(Key::Name, ValueRule::NameText);
    let quantum = required(Key::Quantum, ValueRule::Quantity(0, GREATEST_QUANTITY));
    let caps = required(Key::Caps, ValueRule::Number(0, GREATEST_CAPS));
    let routes = optional(Key::Route, ValueRule::Tables);
    let provides = optional(Key::Provides, ValueRule::Declared(interfaces));
    let after = optional(Key::After, ValueRule::NameText);
    let inputs = optional(Key::Inputs, ValueRule::Inputs);
    let signals = optional(Key::Signals, ValueRule::Number(0, SIGNALS as u64));
    let program = either(Key::Program, &[Key::Code], ValueRule::Text);
    let code = other(Key::Code, &[Key::Program], ValueRule::Hex);
    match version {
        Version::One => listed(&[name, quantum, routes, provides, after, program, code]),
        Version::Two => listed(&[name, quantum, caps, routes, provides, after, program, code]),
        Version::Three => listed(&[
            name, quantum, caps, routes, provides, after, inputs, program, code,
        ]),
        Version::Four => listed(&[
            name, quantum, caps, routes, provides, after, inputs, signals, program, code,
        ]),
    }
}

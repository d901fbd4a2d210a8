// The rules of a table's keys, and the first fault of a table by them.
ghost use Rattle.std.specs.Prelude.{◌≡◌, ◌&&◌, ◌∷◌, not, map, option_map};
ghost use Rattle.toml.specs.Data.{array, get_member};
ghost use Rattle.toml.specs.View.{view, table_view, items_view};
ghost use Rattle.gq_model.specs.machine.Lists.{any_of, all_of};
ghost use Rattle.gq_model.specs.machine.Program.{text_eq};
ghost use Rattle.gq_scenario.specs.Table_keys.{is_table, is_number, is_quantity, is_hex, is_name_text, is_true, listed, required, optional, either, other, has};
ghost use Rattle.gq_scenario.specs.Table_keys.{is_bad, unknown_key, missing_key, bad_value, table_fault};
ghost use Rattle.gq_scenario.specs.Document_tables.{is_total, is_upgrades, is_inputs, are_named_tables, are_named_names};
ghost use Rattle.gq_model.specs.texts.Operands.{greatest_number};
ghost use Rattle.gq_scenario.specs.Document.{keys_of};
ghost use Rattle.gq_scenario.specs.Fault_words.{key_text, SameFault};
ghost use Rattle.gq_reader.specs.Key_rules.{entries_or_none, are_counts, fits_of, rule_of};

use crate::hexadecimal::is_hex;
use crate::value::{has, number_of, quantity, value_at};
use gq_model::letters::is_name;
use gq_model::limits::{GREATEST_CAPS, GREATEST_RAM, INPUTS};
use gq_scenario::key::{Key, key_of};
use gq_scenario::scenario_fault::ScenarioFault;
use gq_tariff::price::PAGE;
use toml::{Table, Value};

/// The values that fit a key.
#[derive(Clone, Copy)]
pub enum ValueRule<'a> {
    // A whole number in this range.
    Number(u64, u64),
    // A quantity in this range.
    Quantity(u64, u64),
    // The RAM of a system: 4096 to 67108864 bytes, in whole pages.
    Total,
    Text,
    // Hexadecimal digits of either case, two for each byte.
    Hex,
    NameText,
    True,
    // A list of tables.
    Tables,
    // A table of tables by names.
    NamedTables,
    // A table of names by names.
    NamedNames,
    // At most three quantities, each up to 4294967295.
    Upgrades,
    // So many numbers, each up to 65536.
    Counts(usize),
    // At most eight numbers, each up to 4294967295.
    Inputs,
    // The name of one of these interfaces.
    Declared(Option<&'a Table>),
}

/// A key of a table: whether it has to be there, the keys of which one can stand in its place, those beside which it
/// can not stand, and its values.
#[derive(Clone, Copy)]
pub struct KeyRule<'a> {
    pub key: Key,
    pub required: bool,
    pub instead: &'static [Key],
    pub beside: &'static [Key],
    pub value: ValueRule<'a>,
}

impl<'a> Default for KeyRule<'a> {
    // What stands in the free places of a list of rules.
    fn default() -> KeyRule<'a> {
        optional(Key::Version, ValueRule::Text)
    }
}

/// A required key.
pub fn required<'a>(key: Key, value: ValueRule<'a>) -> KeyRule<'a>
    ensures { rule_of result ≡ required (key_text key) (fits_of value.entry) }
{
    KeyRule {
        key,
        required: true,
        instead: &[],
        beside: &[],
        value,
    }
}

/// A key that may be missing.
pub fn optional<'a>(key: Key, value: ValueRule<'a>) -> KeyRule<'a>
    ensures { rule_of result ≡ optional (key_text key) (fits_of value.entry) }
{
    KeyRule {
        key,
        required: false,
        instead: &[],
        beside: &[],
        value,
    }
}

/// The first of several keys of which just one is there.
pub fn either<'a>(key: Key, instead: &'static [Key], value: ValueRule<'a>) -> KeyRule<'a>
    ensures { rule_of result ≡ either (key_text key) (map key_text instead.now) (fits_of value.entry) }
{
    KeyRule {
        key,
        required: true,
        instead,
        beside: &[],
        value,
    }
}

/// A later one of them.
pub fn other<'a>(key: Key, beside: &'static [Key], value: ValueRule<'a>) -> KeyRule<'a>
    ensures { rule_of result ≡ other (key_text key) (map key_text beside.now) (fits_of value.entry) }
{
    KeyRule {
        key,
        required: false,
        instead: &[],
        beside,
        value,
    }
}

/// The greatest number of an operand.
pub const GREATEST_NUMBER: u64 = 4294967295;

// Whether a value is a number in this range.
fn is_number(low: u64, high: u64, value: &Value) -> bool
    ensures { result ≡ is_number low high (view value.now) }
{
    match number_of(value) {
        Some(number) => low <= number && number <= high,
        None => false,
    }
}

// Whether a value is a quantity in this range.
fn is_quantity(low: u64, high: u64, value: &Value) -> bool
    ensures { result ≡ is_quantity low high (view value.now) }
{
    match quantity(value) {
        Some(bytes) => low <= bytes && bytes <= high,
        None => false,
    }
}

// Whether a value is the RAM of a system.
fn is_total(value: &Value) -> bool
    ensures { result ≡ is_total (view value.now) }
{
    match quantity(value) {
        Some(bytes) => PAGE <= bytes && bytes <= GREATEST_RAM && bytes % PAGE == 0,
        None => false,
    }
}

// Whether a value is a text of hexadecimal digits.
fn is_hex_text(value: &Value) -> bool
    ensures { result ≡ is_hex (view value.now) }
{
    match value.as_str() {
        Some(text) => is_hex(text.as_bytes()),
        None => false,
    }
}

// Whether a value is a name.
fn is_name_text(value: &Value) -> bool
    ensures { result ≡ is_name_text (view value.now) }
{
    match value.as_str() {
        Some(text) => is_name(text.as_bytes()),
        None => false,
    }
}

// Whether a value is `true`.
fn is_true(value: &Value) -> bool
    ensures { result ≡ is_true (view value.now) }
{
    match value.as_bool() {
        Some(value) => value,
        None => false,
    }
}

// Whether each of these values is a table.
fn are_tables(values: &[Value]) -> bool
    ensures { result ≡ all_of is_table (listed (items_view values.now)) }
{
    for value in values {
        if !value.is_table() {
            return false;
        }
    }
    true
}

// Whether each of these values is a number up to this one.
fn are_numbers(greatest: u64, values: &[Value]) -> bool
    ensures { result ≡ all_of (is_number 0 greatest) (listed (items_view values.now)) }
{
    for value in values {
        if !is_number(0, greatest, value) {
            return false;
        }
    }
    true
}

// Whether each of these values is a quantity that an operand can have.
fn are_quantities(values: &[Value]) -> bool
    ensures { result ≡ all_of (is_quantity 0 greatest_number) (listed (items_view values.now)) }
{
    for value in values {
        if !is_quantity(0, GREATEST_NUMBER, value) {
            return false;
        }
    }
    true
}

// Whether these are the bytes of upgrades.
fn are_upgrades(values: &[Value]) -> bool
    ensures { result ≡ is_upgrades (array (items_view values.now)) }
{
    are_quantities(values) && values.len() <= 3
}

// Whether these are so many numbers of capabilities.
fn are_counts(count: usize, values: &[Value]) -> bool
    ensures { result ≡ are_counts count (array (items_view values.now)) }
{
    are_numbers(GREATEST_CAPS, values) && values.len() == count
}

// Whether these are the greatest values of inputs.
fn are_inputs(values: &[Value]) -> bool
    ensures { result ≡ is_inputs (array (items_view values.now)) }
{
    are_numbers(GREATEST_NUMBER, values) && values.len() <= INPUTS
}

// Whether each key of a table is a name, and each value a table.
fn are_named_tables(table: &Table) -> bool
    ensures { result ≡ are_named_tables (table_view table.now) }
{
    for (key, value) in table.iter() {
        let name = key.as_str();
        if !(is_name(name.as_bytes()) && value.is_table()) {
            return false;
        }
    }
    true
}

// Whether each key of a table is a name, and each value too.
fn are_named_names(table: &Table) -> bool
    ensures { result ≡ are_named_names (table_view table.now) }
{
    for (key, value) in table.iter() {
        let name = key.as_str();
        if !(is_name(name.as_bytes()) && is_name_text(value)) {
            return false;
        }
    }
    true
}

// Whether there is a table with such a key.
fn is_among(tables: Option<&Table>, key: &str) -> bool
    ensures { result ≡ any_of (text_eq key.now) (keys_of (entries_or_none (option_map (λ t. table_view t.now) tables.entry))) }
{
    match tables {
        Some(table) => table.get(key).is_some(),
        None => false,
    }
}

/// Whether a value fits.
pub fn fits(rule: ValueRule, value: &Value) -> bool
    ensures { result ≡ fits_of rule.entry (view value.now) }
{
    match rule {
        ValueRule::Number(low, high) => is_number(low, high, value),
        ValueRule::Quantity(low, high) => is_quantity(low, high, value),
        ValueRule::Total => is_total(value),
        ValueRule::Text => value.is_str(),
        ValueRule::Hex => is_hex_text(value),
        ValueRule::NameText => is_name_text(value),
        ValueRule::True => is_true(value),
        ValueRule::Tables => match value.as_array() {
            Some(values) => are_tables(values),
            None => false,
        },
        ValueRule::NamedTables => match value.as_table() {
            Some(table) => are_named_tables(table),
            None => false,
        },
        ValueRule::NamedNames => match value.as_table() {
            Some(table) => are_named_names(table),
            None => false,
        },
        ValueRule::Upgrades => match value.as_array() {
            Some(values) => are_upgrades(values),
            None => false,
        },
        ValueRule::Counts(count) => match value.as_array() {
            Some(values) => are_counts(count, values),
            None => false,
        },
        ValueRule::Inputs => match value.as_array() {
            Some(values) => are_inputs(values),
            None => false,
        },
        ValueRule::Declared(tables) => match value.as_str() {
            Some(text) => is_among(tables, text),
            None => false,
        },
    }
}

// Whether one of these keys is there.
fn has_any(table: &Table, keys: &[Key]) -> bool
    ensures { result ≡ any_of (has (table_view table.now)) (map key_text keys.now) }
{
    for key in keys {
        if has(table, *key) {
            return true;
        }
    }
    false
}

/// Whether one of the rules is for this key.
pub fn is_ruled(rules: &[KeyRule], text: &str) -> bool
    ensures { result ≡ any_of (λ r. text_eq text.now r.key) (map rule_of rules.now) }
{
    for rule in rules {
        if rule.key.is(text) {
            return true;
        }
    }
    false
}

// The least key for which there is no rule.
fn unknown_key(rules: &[KeyRule], table: &Table) -> Option<ScenarioFault>
    ensures { SameFault result (unknown_key (map rule_of rules.now) (table_view table.now)) }
{
    for (key, _) in table.iter() {
        let text = key.as_str();
        if !is_ruled(rules, text) {
            return Some(ScenarioFault::UnknownKey(key_of(text)));
        }
    }
    None
}

/// Whether a required key is missing, and each that can stand in its place too.
pub fn is_missing(rule: &KeyRule, table: &Table) -> bool
    ensures { result ≡ (rule.now.required && not (any_of (has (table_view table.now)) (key_text rule.now.key ∷ map key_text rule.now.instead.now))) }
{
    rule.required && !(has(table, rule.key) || has_any(table, rule.instead))
}

// The first required key that is missing.
fn missing_key(rules: &[KeyRule], table: &Table) -> Option<ScenarioFault>
    ensures { SameFault result (missing_key (map rule_of rules.now) (table_view table.now)) }
{
    for rule in rules {
        if is_missing(rule, table) {
            return Some(ScenarioFault::MissingKey(rule.key));
        }
    }
    None
}

/// Whether a key is there with a bad value, or beside one with which it can not stand.
pub fn is_bad(rule: &KeyRule, table: &Table) -> bool
    ensures { result ≡ is_bad (rule_of rule.now) (table_view table.now) (get_member (key_text rule.now.key) (table_view table.now)) }
{
    match value_at(table, rule.key) {
        Some(value) => !fits(rule.value, value) || has_any(table, rule.beside),
        None => false,
    }
}

// The first key with a bad value.
fn bad_value(rules: &[KeyRule], table: &Table) -> Option<ScenarioFault>
    ensures { SameFault result (bad_value (map rule_of rules.now) (table_view table.now)) }
{
    for rule in rules {
        if is_bad(rule, table) {
            return Some(ScenarioFault::BadValue(rule.key));
        }
    }
    None
}

/// The first fault of a table: an unknown key, a missing one, or one with a bad value.
pub fn table_fault(rules: &[KeyRule], table: &Table) -> Option<ScenarioFault>
    ensures { SameFault result (table_fault (map rule_of rules.now) (table_view table.now)) }
{
    if let Some(fault) = unknown_key(rules, table) {
        return Some(fault);
    }
    if let Some(fault) = missing_key(rules, table) {
        return Some(fault);
    }
    bad_value(rules, table)
}

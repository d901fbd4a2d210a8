// Values of a scenario's document.
ghost use Rattle.std.specs.Prelude.{◌≡◌, option_map};
ghost use Rattle.toml.specs.Data.{get_member};
ghost use Rattle.toml.specs.View.{view, table_view, items_view};
ghost use Rattle.gq_scenario.specs.Table_keys.{number_of, quantity, has, listed, list_length};
ghost use Rattle.gq_scenario.specs.Document_tables.{items_at};
ghost use Rattle.gq_scenario.specs.Document.{text_at, number_at, quantity_at, list_at, table_of};
ghost use Rattle.gq_reader.specs.Key_rules.{entries_or_none};
ghost use Rattle.gq_scenario.specs.Fault_words.{key_text};

use gq_model::limits::GREATEST_QUANTITY;
use gq_scenario::key::Key;
use gq_tariff::quantity::read_quantity;
use toml::{Table, Value};

/// A whole number from 0.
pub fn number_of(value: &Value) -> Option<u64>
    ensures { result ≡ number_of (view value.now) }
{
    match value.as_integer() {
        Some(number) if number >= 0 => Some(number as u64),
        _ => None,
    }
}

/// A quantity of bytes, as a number or as a text.
pub fn quantity(value: &Value) -> Option<u64>
    ensures { result ≡ quantity (view value.now) }
{
    if let Some(number) = number_of(value) {
        return if number <= GREATEST_QUANTITY {
            Some(number)
        } else {
            None
        };
    }
    match value.as_str() {
        Some(text) => read_quantity(text.as_bytes()).ok(),
        None => None,
    }
}

/// The value at a key.
pub fn value_at(table: &Table, key: Key) -> Option<&Value>
    ensures { option_map (λ v. view v.now) result ≡ get_member (key_text key) (table_view table.now) }
{
    table.get(key.word())
}

/// Whether a key is there.
pub fn has(table: &Table, key: Key) -> bool
    ensures { result ≡ has (table_view table.now) (key_text key) }
{
    value_at(table, key).is_some()
}

/// The text at a key.
pub fn text_at(table: &Table, key: Key) -> Option<&str>
    ensures { option_map (λ text. text.now) result ≡ text_at (key_text key) (table_view table.now) }
{
    match value_at(table, key) {
        Some(value) => value.as_str(),
        None => None,
    }
}

/// The number at a key, 0 where there is none.
pub fn number_at(table: &Table, key: Key) -> u64
    ensures { result ≡ number_at (key_text key) (table_view table.now) }
{
    match value_at(table, key) {
        Some(value) => match number_of(value) {
            Some(number) => number,
            None => 0,
        },
        None => 0,
    }
}

/// The quantity at a key, 0 where there is none.
pub fn quantity_at(table: &Table, key: Key) -> u64
    ensures { result ≡ quantity_at (key_text key) (table_view table.now) }
{
    match value_at(table, key) {
        Some(value) => match quantity(value) {
            Some(bytes) => bytes,
            None => 0,
        },
        None => 0,
    }
}

/// The list at a key, with nothing in it where there is none.
pub fn list_at(table: &Table, key: Key) -> &[Value]
    ensures { listed (items_view result.now) ≡ list_at (key_text key) (table_view table.now) }
{
    match value_at(table, key) {
        Some(value) => match value.as_array() {
            Some(values) => values.as_slice(),
            None => &[],
        },
        None => &[],
    }
}

/// The values of the list at a key.
pub fn values_at(table: &Table, key: Key) -> Option<&[Value]>
    ensures { option_map (λ values. items_view values.now) result ≡ items_at (key_text key) (table_view table.now) }
{
    match value_at(table, key) {
        Some(value) => match value.as_array() {
            Some(values) => Some(values.as_slice()),
            None => None,
        },
        None => None,
    }
}

/// The number of values of the list at a key, 0 where there is none.
pub fn count_at(table: &Table, key: Key) -> usize
    ensures { result ≡ list_length (items_at (key_text key) (table_view table.now)) }
{
    match values_at(table, key) {
        Some(values) => values.len(),
        None => 0,
    }
}

/// The table at a key.
pub fn table_at(table: &Table, key: Key) -> Option<&Table>
    ensures { entries_or_none (option_map (λ t. table_view t.now) result) ≡ table_of (get_member (key_text key) (table_view table.now)) }
{
    match value_at(table, key) {
        Some(value) => value.as_table(),
        None => None,
    }
}

// Settings of inputs, as lines say them: `NAME.I = N`.
ghost use Rattle.std.specs.Prelude.{◌≡◌, ◌==◌, ◌&&◌, ◌∷◌, ◌<◌, ◌≤◌, if◌then◌else◌, length, option_map, codes, Some, None, IfOk, IfSome};
ghost use Rattle.gq_model.specs.machine.Lists.{all_of};
ghost use Rattle.gq_model.specs.machine.Program.{text_eq};
ghost use Rattle.gq_model.specs.machine.Scenario.{components};
ghost use Rattle.gq_model.specs.texts.Letters.{is_digit, number_in, pieces, spelled_on};
ghost use Rattle.gq_model.specs.texts.Turns.{has_inputs, input_in, setting_at};
ghost use Rattle.gq_init.specs.Turn_items.{IsHeld, IsOf};
ghost use Rattle.gq_init.specs.TurnLines.{given_in};

use crate::name_index::NameIndex;
use gq_model::act::{Act, TurnLine};
use gq_model::fault::TurnFault;
use gq_model::letters::{is_digit, is_name};
use gq_model::spelling::same_text;
use gq_resolve::NodeTable;
use gq_scenario::scenario::LeafNo;
use gq_scenario::text_pieces::next_piece;

// The number that these digits spell, if they are digits.
fn spelled(text: &[u8]) -> Option<u64>
    requires { length text.now ≤ 10 }
    ensures { result ≡ (if all_of is_digit text.now then Some (spelled_on 0 text.now) else None) }
{
    let mut number: u64 = 0;
    for byte in text {
        if !is_digit(*byte) {
            return None;
        }
        number = 10 * number + u64::from(*byte - b'0');
    }
    Some(number)
}

// The number that one to so many digits spell, if it is at most the greatest.
pub(crate) fn number_up_to(text: &[u8], digits: usize, greatest: u32) -> Option<u32>
    requires { digits ≤ 10 }
    ensures number { result ≡ number_in digits 0 greatest text.now }
    ensures small { IfSome result (λ n. n ≤ greatest) }
{
    if text.is_empty() || text.len() > digits {
        return None;
    }
    match spelled(text) {
        Some(number) if number <= u64::from(greatest) => Some(number as u32),
        _ => None,
    }
}

// The name of a leaf and the number of an input, with a dot between.
fn read_input(text: &[u8]) -> Option<(&[u8], u8)>
    ensures input { option_map (λ r. (r.0.now, r.1)) result ≡ input_in (pieces (λ c. c == 46) text.now) }
    ensures small { IfSome result (λ r. r.1 < 8) }
{
    let (name, rest) = next_piece(text, b'.');
    let input = number_up_to(rest?, 1, 7)?;
    if is_name(name) {
        Some((name, input as u8))
    } else {
        None
    }
}

// Whether this sign makes a setting: leaves of the scenario can have inputs, and it is an equals sign.
fn is_setting(sign: &[u8], table: &NodeTable) -> bool
    ensures { result ≡ (has_inputs table.now.version && text_eq sign.now (codes "=")) }
{
    table.scenario().version().number() >= 3 && same_text(sign, b"=")
}

// This value of an input of a leaf, if the leaf has the input and may be given the value.
fn setting_at(table: &NodeTable, leaf: LeafNo, input: u8, value: u32) -> Result<TurnLine, TurnFault>
    requires there { leaf < length (components table.now) }
    requires small { input < 8 }
    ensures setting { result ≡ setting_at (components table.now) (Some leaf) input value }
    ensures there { IfOk result (IsOf (length (components table.now))) }
    ensures held { IfOk result IsHeld }
{
    let inputs = table.inputs(leaf);
    match inputs.get(usize::from(input)) {
        None => Err(TurnFault::NoInput),
        Some(greatest) if value > *greatest => Err(TurnFault::InputTooLarge),
        Some(_) => Ok(TurnLine::Gives(leaf.number(), Act::Sets(input, value))),
    }
}

/// What a line of these pieces says: an input, a sign and all that follows the space behind it.
pub(crate) fn read_setting(
    input: &[u8],
    sign: &[u8],
    number: &[u8],
    table: &NodeTable,
    names: &NameIndex,
) -> Result<TurnLine, TurnFault>
    ensures setting { result ≡ given_in table.now (input.now ∷ sign.now ∷ pieces (λ c. c == 32) number.now) }
    ensures there { IfOk result (IsOf (length (components table.now))) }
    ensures held { IfOk result IsHeld }
{
    if !is_setting(sign, table) {
        return Err(TurnFault::BadLine);
    }
    let Some((name, input)) = read_input(input) else {
        return Err(TurnFault::BadLine);
    };
    let Some(value) = number_up_to(number, 10, u32::MAX) else {
        return Err(TurnFault::BadLine);
    };
    match names.leaf_named(name, table) {
        Some(leaf) => setting_at(table, leaf, input, value),
        None => Err(TurnFault::NoSuchComponent),
    }
}

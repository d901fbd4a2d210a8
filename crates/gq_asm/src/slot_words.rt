// Slots.
ghost use Rattle.std.specs.Prelude.{◌≡◌, true};
ghost use Rattle.gq_model.specs.texts.Spelling.{slot_number, numbered_slot, slot_in};

use crate::text_numbers::number_in;
use gq_model::limits::{OWN_SLOTS, SESSION_SLOTS};
use gq_model::program::OperandSlot;
use gq_model::spelling::same_text;

/// The number of a slot, up to high, without a leading zero.
fn slot_number(text: &[u8], high: u8) -> Option<u8>
    ensures { result ≡ slot_number high text.now }
{
    if let [b'0', _, ..] = text {
        return None;
    }
    Some(number_in(text, 2, 0, high as u32)? as u8)
}

/// `o0` to `o63`, or `s0` to `s7`.
pub fn numbered_slot(word: &[u8]) -> Option<OperandSlot>
    ensures { result ≡ numbered_slot word.now }
{
    match word {
        [b'o', number @ ..] => Some(OperandSlot::Own(slot_number(number, OWN_SLOTS as u8 - 1)?)),
        [b's', number @ ..] => Some(OperandSlot::Shared(slot_number(
            number,
            SESSION_SLOTS as u8 - 1,
        )?)),
        _ => None,
    }
}

/// A slot, or `obj`.
pub fn slot_or_object(word: &[u8]) -> Option<OperandSlot>
    ensures { result ≡ slot_in true word.now }
{
    if same_text(word, b"obj") {
        return Some(OperandSlot::Object);
    }
    numbered_slot(word)
}

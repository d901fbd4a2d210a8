// The operands at the start of what follows a word on its line.
ghost use Rattle.std.specs.Prelude.{◌≤◌, IfOk, true, false};
ghost use Rattle.gq_model.specs.texts.Letters.{words};
ghost use Rattle.gq_asm.specs.internal.Operand_words.{Answers, nothing_at, number_at, slot_at, name_at};

use crate::line_words::next_word;
use crate::slot_words::{numbered_slot, slot_or_object};
use crate::text_numbers::number_in;
use gq_model::fault::TextFault;
use gq_model::program::{Name, OperandSlot};

/// Nothing but blanks.
pub fn at_end(text: &[u8]) -> Result<(), TextFault>
    ensures { Answers (λ _. tt {0}) result (nothing_at (words text.now)) }
{
    match next_word(text) {
        None => Ok(()),
        Some(_) => Err(TextFault::UnknownWord),
    }
}

/// A number from low to high, and what follows it.
pub fn next_number(text: &[u8], low: u32, high: u32) -> Result<(u32, &[u8]), TextFault>
    ensures read { Answers (λ x. (x.0, words x.1.now)) result (number_at low high (words text.now)) }
    ensures high { IfOk result (λ x. x.0 ≤ high) }
{
    let Some((word, rest)) = next_word(text) else {
        return Err(TextFault::BadNumber);
    };
    let Some(number) = number_in(word, 10, low, high) else {
        return Err(TextFault::BadNumber);
    };
    Ok((number, rest))
}

/// A numbered slot, and what follows it.
pub fn next_slot(text: &[u8]) -> Result<(OperandSlot, &[u8]), TextFault>
    ensures { Answers (λ x. (x.0, words x.1.now)) result (slot_at false (words text.now)) }
{
    let Some((word, rest)) = next_word(text) else {
        return Err(TextFault::BadSlot);
    };
    let Some(place) = numbered_slot(word) else {
        return Err(TextFault::BadSlot);
    };
    Ok((place, rest))
}

/// A slot or the object, and what follows it.
pub fn next_slot_or_object(text: &[u8]) -> Result<(OperandSlot, &[u8]), TextFault>
    ensures { Answers (λ x. (x.0, words x.1.now)) result (slot_at true (words text.now)) }
{
    let Some((word, rest)) = next_word(text) else {
        return Err(TextFault::BadSlot);
    };
    let Some(place) = slot_or_object(word) else {
        return Err(TextFault::BadSlot);
    };
    Ok((place, rest))
}

/// The name of a service, and what follows it.
pub fn next_name(text: &[u8]) -> Result<(Name, &[u8]), TextFault>
    ensures { Answers (λ x. (x.0, words x.1.now)) result (name_at (words text.now)) }
{
    let Some((word, rest)) = next_word(text) else {
        return Err(TextFault::BadText);
    };
    let Some(name) = Name::new(word) else {
        return Err(TextFault::BadText);
    };
    Ok((name, rest))
}

// Usual lines of a section: a statement without operands, or with slots, services and numbers, with one blank before each, and a line feed right after it. They
// are read from start to end, without a search for the line's end. Of any other line nothing is said here.
ghost use Rattle.std.specs.Prelude.{◌≡◌, ◌∷◌, ◌++◌, true, IfSome};
ghost use Rattle.gq_model.specs.machine.Lists.{all_of};
ghost use Rattle.gq_program.specs.Statement_table.{shape_of};
ghost use Rattle.gq_asm.specs.Word_prefixes.{is_plain};
ghost use Rattle.gq_asm.specs.Usual.{IsUsual};
ghost use Rattle.gq_asm.specs.internal.Words_operands.{IsLastWord, Completes};

use crate::line_words::unindented;
use crate::slot_words::{numbered_slot, slot_or_object};
use crate::text_numbers::number_in;
use crate::word_prefixes::prefix_shape;
use gq_model::program::{Instruction, Name};
use gq_program::{Bare, Shape, WithAmount, WithBytes, WithNumber, WithSlot};

/// A text up to its first blank, line feed or other control byte, and from there on.
#[inline(always)]
fn split_plain(text: &[u8]) -> (&[u8], &[u8])
    ensures split { text.now ≡ result.0.now ++ result.1.now }
    ensures plain { all_of is_plain result.0.now ≡ true }
{
    for (i, byte) in text.iter().enumerate() {
        if *byte <= b' ' {
            return text.split_at(i);
        }
    }
    text.split_at(text.len())
}

/// What follows a blank.
#[inline(always)]
fn past_blank(text: &[u8]) -> Option<&[u8]>
    ensures { IfSome result (λ rest. text.now ≡ 32 ∷ rest.now) }
{
    match text {
        [b' ', rest @ ..] => Some(rest),
        _ => None,
    }
}

/// The word between a blank and a line feed, and what follows the line feed.
#[inline(always)]
fn last_word(text: &[u8]) -> Option<(&[u8], &[u8])>
    ensures { IfSome result (λ p. IsLastWord text.now p.0.now p.1.now) }
{
    let words = past_blank(text)?;
    let (word, rest) = split_plain(words);
    match rest {
        [b'\n', rest @ ..] => Some((word, rest)),
        _ => None,
    }
}

/// `out`: without operands.
#[inline(always)]
fn out(text: &[u8]) -> Option<(Instruction, &[u8])>
    ensures { IfSome result (λ p. Completes text.now (shape_of Shape.Out) p.0 p.1.now) }
{
    match text {
        [b'\n', rest @ ..] => Some((Instruction::Out, rest)),
        _ => None,
    }
}

/// Without operands.
#[inline(always)]
fn plain(statement: Bare, text: &[u8]) -> Option<(Instruction, &[u8])>
    ensures { IfSome result (λ p. Completes text.now (shape_of (Shape.Plain statement)) p.0 p.1.now) }
{
    match text {
        [b'\n', rest @ ..] => Some((statement.instruction(), rest)),
        _ => None,
    }
}

/// With a number.
#[inline(always)]
fn with_number(statement: WithNumber, text: &[u8]) -> Option<(Instruction, &[u8])>
    ensures { IfSome result (λ p. Completes text.now (shape_of (Shape.Number statement)) p.0 p.1.now) }
{
    let (word, rest) = last_word(text)?;
    let entry = statement.entry();
    let number = number_in(word, 10, entry.low, entry.high)?;
    Some((statement.instruction(number), rest))
}

/// With a slot.
#[inline(always)]
fn with_slot(statement: WithSlot, text: &[u8]) -> Option<(Instruction, &[u8])>
    ensures { IfSome result (λ p. Completes text.now (shape_of (Shape.Slot statement)) p.0 p.1.now) }
{
    let (word, rest) = last_word(text)?;
    let place = numbered_slot(word)?;
    Some((statement.instruction(place), rest))
}

/// With a slot, or the object, whose bytes are meant.
#[inline(always)]
fn with_bytes(statement: WithBytes, text: &[u8]) -> Option<(Instruction, &[u8])>
    ensures { IfSome result (λ p. Completes text.now (shape_of (Shape.Bytes statement)) p.0 p.1.now) }
{
    let (word, rest) = last_word(text)?;
    let place = slot_or_object(word)?;
    Some((statement.instruction(place), rest))
}

/// With a slot and a number.
#[inline(always)]
fn with_amount(statement: WithAmount, text: &[u8]) -> Option<(Instruction, &[u8])>
    ensures { IfSome result (λ p. Completes text.now (shape_of (Shape.Amount statement)) p.0 p.1.now) }
{
    let words = past_blank(text)?;
    let (slot, more) = split_plain(words);
    let place = numbered_slot(slot)?;
    let (word, rest) = last_word(more)?;
    let number = number_in(word, 10, statement.low(), statement.high())?;
    Some((statement.instruction(place, number), rest))
}

/// With a slot, a service and a number.
#[inline(always)]
fn with_service(text: &[u8]) -> Option<(Instruction, &[u8])>
    ensures { IfSome result (λ p. Completes text.now (shape_of Shape.Open) p.0 p.1.now) }
{
    let words = past_blank(text)?;
    let (slot, more) = split_plain(words);
    let place = numbered_slot(slot)?;
    let words = past_blank(more)?;
    let (name, last) = split_plain(words);
    let service = Name::new(name)?;
    let (word, rest) = last_word(last)?;
    let number = number_in(word, 10, 0, u32::MAX)?;
    Some((Instruction::Open(place, service, number), rest))
}

/// The operands of a statement, by its shape.
#[inline(always)]
fn completed(shape: Shape, text: &[u8]) -> Option<(Instruction, &[u8])>
    ensures { IfSome result (λ p. Completes text.now (shape_of shape) p.0 p.1.now) }
{
    match shape {
        Shape::Out => out(text),
        Shape::Plain(statement) => plain(statement, text),
        Shape::Number(statement) => with_number(statement, text),
        Shape::Slot(statement) => with_slot(statement, text),
        Shape::Bytes(statement) => with_bytes(statement, text),
        Shape::Amount(statement) => with_amount(statement, text),
        Shape::Open => with_service(text),
        Shape::Say | Shape::Pool => None,
    }
}

/// If the first line of a text is a usual one: its statement, wherever a statement may stand, and what follows its line feed. A usual line is a statement of
/// one word, or of a word with a slot, a service or a number. It has one space before each and none after. `None` says nothing of the line.
#[inline(always)]
pub fn usual_line(text: &[u8]) -> Option<(Instruction, &[u8])>
    ensures { IfSome result (λ p. IsUsual text.now p.0 p.1.now) }
{
    let (shape, operands) = prefix_shape(unindented(text))?;
    completed(shape, operands)
}

// Operands, as bytes spell them. Each function gives what bytes begin with, and what follows it.
ghost use Rattle.std.specs.Prelude.{◌≡◌, ◌≤◌, ◌<◌, ◌+◌, ◌^◌, IfOk, length};
ghost use Rattle.gq_model.specs.texts.Letters.{is_name_byte, is_said_byte};
ghost use Rattle.gq_model.specs.machine.Program.{little};
ghost use Rattle.gq_model.specs.texts.Decode.{cut, number_at, place_of, text_at, operands_at};
ghost use Rattle.gq_program.specs.Statement_table.{shape_of};
ghost use Rattle.gq_code.specs.internal.Decoding.{Answers, ranged_at, place_at, counted_at};
ghost use Rattle.gq_code.specs.internal.Bodies.{Reads};

use crate::decode::DecodeError;
use gq_model::fault::CodeFault;
use gq_model::limits::GREATEST_ENTRIES;
use gq_model::program::{GREATEST_NAME, GREATEST_TEXT, Instruction, Name, OperandSlot, Text};
use gq_program::{Shape, WithAmount, WithBytes, WithNumber, WithSlot};
use gq_tariff::price::GREATEST_PLACE;
use std::alloc::Global;

/// The first `count` bytes; if there are fewer, this fault.
pub(crate) fn cut(bytes: &[u8], count: usize, fault: CodeFault) -> Result<(&[u8], &[u8]), CodeFault>
    ensures parts { Answers (λ p. (p.0.now, p.1.now)) result (cut count fault bytes.now) }
    ensures first { IfOk result (λ p. length p.0.now ≡ count) }
    ensures rest { IfOk result (λ p. length p.1.now + count ≡ length bytes.now) }
{
    if count > bytes.len() {
        return Err(fault);
    }
    Ok((&bytes[..count], &bytes[count..]))
}

/// The number that these bytes spell, the least first.
fn little(bytes: &[u8]) -> u64
    requires { length bytes.now ≤ 4 }
    ensures number { result ≡ little bytes.now }
    ensures small { result < 256 ^ length bytes.now }
{
    match bytes {
        [] => 0,
        [first, rest @ ..] => {
            let above = little(rest);
            u64::from(*first) + 256 * above
        }
    }
}

/// The same without a loop for one byte and for four.
fn spelled(bytes: &[u8]) -> u64
    requires { length bytes.now ≤ 4 }
    ensures number { result ≡ little bytes.now }
    ensures small { result < 256 ^ length bytes.now }
{
    match bytes {
        [only] => u64::from(*only),
        [first, second, third, fourth] => {
            u64::from(u32::from_le_bytes([*first, *second, *third, *fourth]))
        }
        _ => little(bytes),
    }
}

/// A number of so many bytes, the least first; if there are fewer, this fault.
pub(crate) fn number(
    bytes: &[u8],
    width: usize,
    fault: CodeFault,
) -> Result<(u32, &[u8]), CodeFault>
    requires { width ≤ 4 }
    ensures number { Answers (λ p. (p.0, p.1.now)) result (number_at width fault bytes.now) }
    ensures small { IfOk result (λ p. p.0 < 256 ^ width) }
    ensures rest { IfOk result (λ p. length p.1.now ≤ length bytes.now) }
{
    let (number, rest) = cut(bytes, width, fault)?;
    Ok((spelled(number) as u32, rest))
}

/// A number of so many bytes in a range.
fn ranged(bytes: &[u8], width: usize, low: u32, high: u32) -> Result<(u32, &[u8]), CodeFault>
    requires { width ≤ 4 }
    ensures number { Answers (λ p. (p.0, p.1.now)) result (ranged_at width low high bytes.now) }
    ensures high { IfOk result (λ p. p.0 ≤ high) }
    ensures rest { IfOk result (λ p. length p.1.now ≤ length bytes.now) }
{
    let (number, rest) = number(bytes, width, CodeFault::BadNesting)?;
    if number < low || number > high {
        return Err(CodeFault::BadOperand);
    }
    Ok((number, rest))
}

/// The slot of this number: the own ones, then those of the session, then the object where bytes are meant.
fn place_of(object: bool, number: u32) -> Option<OperandSlot>
    ensures { result ≡ place_of object number }
{
    if number < 64 {
        Some(OperandSlot::Own(number as u8))
    } else if number < 72 {
        Some(OperandSlot::Shared((number - 64) as u8))
    } else if object && number == 72 {
        Some(OperandSlot::Object)
    } else {
        None
    }
}

/// A slot, or the object where bytes are meant.
fn place(object: bool, bytes: &[u8]) -> Result<(OperandSlot, &[u8]), CodeFault>
    ensures place { Answers (λ p. (p.0, p.1.now)) result (place_at object bytes.now) }
    ensures rest { IfOk result (λ p. length p.1.now ≤ length bytes.now) }
{
    let (number, rest) = number(bytes, 1, CodeFault::BadNesting)?;
    match place_of(object, number) {
        Some(place) => Ok((place, rest)),
        None => Err(CodeFault::BadOperand),
    }
}

/// The bytes of a text after their number, which is in a range.
fn counted(bytes: &[u8], low: u32, high: u32) -> Result<(&[u8], &[u8]), CodeFault>
    ensures text { Answers (λ p. (p.0.now, p.1.now)) result (counted_at low high bytes.now) }
    ensures low { IfOk result (λ p. low ≤ length p.0.now) }
    ensures high { IfOk result (λ p. length p.0.now ≤ high) }
    ensures rest { IfOk result (λ p. length p.1.now ≤ length bytes.now) }
{
    let (count, rest) = ranged(bytes, 1, low, high)?;
    cut(rest, count as usize, CodeFault::BadNesting)
}

/// The name of a service.
fn service(bytes: &[u8]) -> Result<(Name, &[u8]), CodeFault>
    ensures name { Answers (λ p. (p.0, p.1.now)) result (text_at 1 16 is_name_byte bytes.now) }
    ensures rest { IfOk result (λ p. length p.1.now ≤ length bytes.now) }
{
    let (name, rest) = counted(bytes, 1, GREATEST_NAME as u32)?;
    match Name::new(name) {
        Some(name) => Ok((name, rest)),
        None => Err(CodeFault::BadOperand),
    }
}

/// A text to say.
fn said(alloc: Global, bytes: &[u8]) -> Result<(Text, &[u8]), DecodeError>
    ensures text { Reads (λ p. (p.0, p.1.now)) result (text_at 0 64 is_said_byte bytes.now) }
    ensures rest { IfOk result (λ p. length p.1.now ≤ length bytes.now) }
{
    let (text, rest) = counted(bytes, 0, GREATEST_TEXT as u32)?;
    match Text::new(alloc, text)? {
        Some(text) => Ok((text, rest)),
        None => Err(DecodeError::Fault(CodeFault::BadOperand)),
    }
}

/// A statement with a number.
pub(crate) fn with_number(
    statement: WithNumber,
    bytes: &[u8],
) -> Result<(Instruction, &[u8]), CodeFault>
    ensures read { Answers (λ p. (p.0, p.1.now)) result (operands_at (shape_of (Shape.Number statement)) bytes.now) }
    ensures rest { IfOk result (λ p. length p.1.now ≤ length bytes.now) }
{
    let entry = statement.entry();
    let (number, rest) = ranged(bytes, entry.width, entry.low, entry.high)?;
    Ok((statement.instruction(number), rest))
}

/// A statement with a slot.
pub(crate) fn with_slot(
    statement: WithSlot,
    bytes: &[u8],
) -> Result<(Instruction, &[u8]), CodeFault>
    ensures read { Answers (λ p. (p.0, p.1.now)) result (operands_at (shape_of (Shape.Slot statement)) bytes.now) }
    ensures rest { IfOk result (λ p. length p.1.now ≤ length bytes.now) }
{
    let (place, rest) = place(false, bytes)?;
    Ok((statement.instruction(place), rest))
}

/// A statement with a slot, or the object, whose bytes are meant.
pub(crate) fn with_bytes(
    statement: WithBytes,
    bytes: &[u8],
) -> Result<(Instruction, &[u8]), CodeFault>
    ensures read { Answers (λ p. (p.0, p.1.now)) result (operands_at (shape_of (Shape.Bytes statement)) bytes.now) }
    ensures rest { IfOk result (λ p. length p.1.now ≤ length bytes.now) }
{
    let (place, rest) = place(true, bytes)?;
    Ok((statement.instruction(place), rest))
}

/// A statement with a slot and a number.
pub(crate) fn with_amount(
    statement: WithAmount,
    bytes: &[u8],
) -> Result<(Instruction, &[u8]), CodeFault>
    ensures read { Answers (λ p. (p.0, p.1.now)) result (operands_at (shape_of (Shape.Amount statement)) bytes.now) }
    ensures rest { IfOk result (λ p. length p.1.now ≤ length bytes.now) }
{
    let (place, rest) = place(false, bytes)?;
    let (number, rest) = ranged(rest, 4, statement.low(), statement.high())?;
    Ok((statement.instruction(place, number), rest))
}

/// `pool`: a slot, the bytes of an entry, and how many entries there are at most.
pub(crate) fn pool(bytes: &[u8]) -> Result<(Instruction, &[u8]), CodeFault>
    ensures read { Answers (λ p. (p.0, p.1.now)) result (operands_at (shape_of Shape.Pool) bytes.now) }
    ensures rest { IfOk result (λ p. length p.1.now ≤ length bytes.now) }
{
    let (place, rest) = place(false, bytes)?;
    let (size, rest) = ranged(rest, 2, 1, GREATEST_PLACE as u32)?;
    let (count, rest) = ranged(rest, 2, 1, GREATEST_ENTRIES as u32)?;
    Ok((
        Instruction::MakePool(place, size as u16, count as u16),
        rest,
    ))
}

/// `open`: a slot, the name of a service, and the donation.
pub(crate) fn open(bytes: &[u8]) -> Result<(Instruction, &[u8]), CodeFault>
    ensures read { Answers (λ p. (p.0, p.1.now)) result (operands_at (shape_of Shape.Open) bytes.now) }
    ensures rest { IfOk result (λ p. length p.1.now ≤ length bytes.now) }
{
    let (place, rest) = place(false, bytes)?;
    let (service, rest) = service(rest)?;
    let (donation, rest) = ranged(rest, 4, 0, u32::MAX)?;
    Ok((Instruction::Open(place, service, donation), rest))
}

/// `say`: a text.
pub(crate) fn say(alloc: Global, bytes: &[u8]) -> Result<(Instruction, &[u8]), DecodeError>
    ensures read { Reads (λ p. (p.0, p.1.now)) result (operands_at (shape_of Shape.Say) bytes.now) }
    ensures rest { IfOk result (λ p. length p.1.now ≤ length bytes.now) }
{
    let (text, rest) = said(alloc, bytes)?;
    Ok((Instruction::Say(text), rest))
}

// Statements by the shape of their operands. Each function takes what follows the statement's word on its line. Those that are inlined don't
// pass a whole statement to their caller.
ghost use Rattle.std.specs.Prelude.{◌≡◌};
ghost use Rattle.gq_model.specs.texts.Letters.{words};
ghost use Rattle.gq_model.specs.texts.Spelling.{instruction_in};
ghost use Rattle.gq_program.specs.Statement_table.{shape_of};
ghost use Rattle.gq_asm.specs.internal.Assembly_state.{AnswersBy};

use crate::asm_fault::LineError;
use crate::line_operands::{at_end, next_name, next_number, next_slot, next_slot_or_object};
use crate::says::said_in;
use gq_model::fault::TextFault;
use gq_model::limits::GREATEST_ENTRIES;
use gq_model::program::Instruction;
use gq_program::{Bare, Shape, WithAmount, WithBytes, WithNumber, WithSlot};
use gq_tariff::price::GREATEST_PLACE;
use std::alloc::Global;

/// `out`: without operands.
#[inline(always)]
pub fn out(after: &[u8]) -> Result<Instruction, TextFault>
    ensures { result ≡ instruction_in after.now (shape_of Shape.Out) (words after.now) }
{
    at_end(after)?;
    Ok(Instruction::Out)
}

/// Without operands.
#[inline(always)]
pub fn plain(statement: Bare, after: &[u8]) -> Result<Instruction, TextFault>
    ensures { result ≡ instruction_in after.now (shape_of (Shape.Plain statement)) (words after.now) }
{
    at_end(after)?;
    Ok(statement.instruction())
}

/// With a number.
#[inline(always)]
pub fn with_number(statement: WithNumber, after: &[u8]) -> Result<Instruction, TextFault>
    ensures { result ≡ instruction_in after.now (shape_of (Shape.Number statement)) (words after.now) }
{
    let entry = statement.entry();
    let (number, rest) = next_number(after, entry.low, entry.high)?;
    at_end(rest)?;
    Ok(statement.instruction(number))
}

/// With a slot.
#[inline(always)]
pub fn with_slot(statement: WithSlot, after: &[u8]) -> Result<Instruction, TextFault>
    ensures { result ≡ instruction_in after.now (shape_of (Shape.Slot statement)) (words after.now) }
{
    let (place, rest) = next_slot(after)?;
    at_end(rest)?;
    Ok(statement.instruction(place))
}

/// With a slot, or the object, whose bytes are meant.
#[inline(always)]
pub fn with_bytes(statement: WithBytes, after: &[u8]) -> Result<Instruction, TextFault>
    ensures { result ≡ instruction_in after.now (shape_of (Shape.Bytes statement)) (words after.now) }
{
    let (place, rest) = next_slot_or_object(after)?;
    at_end(rest)?;
    Ok(statement.instruction(place))
}

/// With a slot and a number.
#[inline(always)]
pub fn with_amount(statement: WithAmount, after: &[u8]) -> Result<Instruction, TextFault>
    ensures { result ≡ instruction_in after.now (shape_of (Shape.Amount statement)) (words after.now) }
{
    let (place, rest) = next_slot(after)?;
    let (number, rest) = next_number(rest, statement.low(), statement.high())?;
    at_end(rest)?;
    Ok(statement.instruction(place, number))
}

/// `pool`: a slot, the bytes of an entry, and how many entries there are at most.
pub fn pool(after: &[u8]) -> Result<Instruction, TextFault>
    ensures { result ≡ instruction_in after.now (shape_of Shape.Pool) (words after.now) }
{
    let (place, rest) = next_slot(after)?;
    let (size, rest) = next_number(rest, 1, GREATEST_PLACE as u32)?;
    let (count, rest) = next_number(rest, 1, GREATEST_ENTRIES as u32)?;
    at_end(rest)?;
    Ok(Instruction::MakePool(place, size as u16, count as u16))
}

/// `open`: a slot, the name of a service, and the donation.
pub fn open(after: &[u8]) -> Result<Instruction, TextFault>
    ensures { result ≡ instruction_in after.now (shape_of Shape.Open) (words after.now) }
{
    let (place, rest) = next_slot(after)?;
    let (service, rest) = next_name(rest)?;
    let (donation, rest) = next_number(rest, 0, u32::MAX)?;
    at_end(rest)?;
    Ok(Instruction::Open(place, service, donation))
}

/// `say`: a text between quotation marks, which allocates host memory.
pub fn say(alloc: Global, after: &[u8]) -> Result<Instruction, LineError>
    ensures { AnswersBy (λ i. i) result (instruction_in after.now (shape_of Shape.Say) (words after.now)) }
{
    match said_in(alloc, after)? {
        Some(text) => Ok(Instruction::Say(text)),
        None => Err(LineError::Fault(TextFault::BadText)),
    }
}

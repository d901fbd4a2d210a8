// A statement without statements in it, as text.
ghost use Rattle.std.specs.Prelude.{◌≡◌, ◌++◌, OnOk, codes};
ghost use Rattle.gq_model.specs.texts.Operands.{opcode, operands};
ghost use Rattle.gq_model.specs.texts.Spelling.{spellings, word_of_opcode};
ghost use Rattle.gq_views.specs.Listing.{instruction_text, operands_text, place_text};

use crate::view_words::{push_amount, push_number};
use gq_model::program::{Instruction, OperandSlot, OperandStatement};
use gq_program::Shape;
use std::alloc::AllocError;

// The word of a statement.
fn word_of(instruction: &Instruction) -> &'static [u8]
    ensures { result.now ≡ word_of_opcode (opcode instruction.now) spellings }
{
    Shape::of(instruction).word()
}

// Puts a slot, or the object, at the end of a text.
fn push_place(text: &mut Vec<u8>, place: OperandSlot) -> Result<(), AllocError>
    ensures { OnOk result (text.new.items ≡ text.old.items ++ place_text place) }
{
    match place {
        OperandSlot::Own(number) => {
            text.extend_from_slice(b"o")?;
            push_number(text, u64::from(number))
        }
        OperandSlot::Shared(number) => {
            text.extend_from_slice(b"s")?;
            push_number(text, u64::from(number))
        }
        OperandSlot::Object => text.extend_from_slice(b"obj"),
    }
}

// A slot, or the object, behind a blank.
fn push_slot(text: &mut Vec<u8>, place: OperandSlot) -> Result<(), AllocError>
    ensures { OnOk result (text.new.items ≡ text.old.items ++ codes " " ++ place_text place) }
{
    text.extend_from_slice(b" ")?;
    push_place(text, place)
}

// A text between quotation marks, behind a blank.
fn push_said(text: &mut Vec<u8>, said: &[u8]) -> Result<(), AllocError>
    ensures { OnOk result (text.new.items ≡ text.old.items ++ codes " " ++ codes "\"" ++ said.now ++ codes "\"") }
{
    text.extend_from_slice(b" \"")?;
    text.extend_from_slice(said)?;
    text.extend_from_slice(b"\"")
}

// The name of a service, behind a blank.
fn push_service(text: &mut Vec<u8>, service: &[u8]) -> Result<(), AllocError>
    ensures { OnOk result (text.new.items ≡ text.old.items ++ codes " " ++ service.now) }
{
    text.extend_from_slice(b" ")?;
    text.extend_from_slice(service)
}

// Puts the operands of a statement at the end of a text, each behind a blank.
fn push_operands(text: &mut Vec<u8>, instruction: &Instruction) -> Result<(), AllocError>
    ensures { OnOk result (text.new.items ≡ text.old.items ++ operands_text (operands instruction.now)) }
{
    match instruction {
        Instruction::Out | Instruction::Operands(OperandStatement::Plain(_)) => Ok(()),
        Instruction::Say(said) => push_said(text, said.as_bytes()),
        Instruction::Operands(OperandStatement::Numbered(_, n)) => push_amount(text, u64::from(*n)),
        Instruction::Make(_, place, n) | Instruction::Upgrade(place, n) => {
            push_slot(text, *place)?;
            push_amount(text, u64::from(*n))
        }
        Instruction::MakePool(place, n, m) => {
            push_slot(text, *place)?;
            push_amount(text, u64::from(*n))?;
            push_amount(text, u64::from(*m))
        }
        Instruction::Open(place, service, n) => {
            push_slot(text, *place)?;
            push_service(text, service.as_bytes())?;
            push_amount(text, u64::from(*n))
        }
        Instruction::Load(_, place)
        | Instruction::Store(_, place)
        | Instruction::Free(place)
        | Instruction::Take(place)
        | Instruction::Give(place)
        | Instruction::Peek(place)
        | Instruction::Poke(place)
        | Instruction::Call(place)
        | Instruction::Close(place) => push_slot(text, *place),
    }
}

/// Puts a statement without statements in it at the end of a text: its word, then its operands, each behind a blank. Refused only for want of host
/// memory.
pub fn push_instruction(text: &mut Vec<u8>, instruction: &Instruction) -> Result<(), AllocError>
    ensures { OnOk result (text.new.items ≡ text.old.items ++ instruction_text instruction.now) }
{
    text.extend_from_slice(word_of(instruction))?;
    push_operands(text, instruction)
}

// Programs as bytes.
ghost use Rattle.std.specs.Prelude.{◌≡◌, ℕ, ◌+◌, ◌<◌, OnOk, IfOk, IsTrue, length, ◌++◌, ◌∷◌, []};
ghost use Rattle.gq_model.specs.machine.Program.{spelled};
ghost use Rattle.gq_model.specs.texts.Operands.{opcode, slot_code, is_slot, is_slot_or_object, operands, in_range, operands_code};
ghost use Rattle.gq_model.specs.texts.Operands.{instruction_code};
ghost use Rattle.gq_model.specs.machine.Lists.{all_of};
ghost use Rattle.gq_model.specs.texts.Code.{body_code, body_length};
ghost use Rattle.gq_program.specs.Statement_trees.{tree_of};
ghost use Rattle.gq_code.specs.Codes.{has_code};

use gq_model::program::{Instruction, OperandSlot, OperandStatement};
use gq_program::Shape;
use gq_program::program_tree::{Body, Statement};
use std::alloc::{AllocError, Global};

/// Puts a number at the end, in so many bytes, the least first.
pub(crate) fn write_number(out: &mut Vec<u8>, width: usize, number: u64) -> Result<(), AllocError>
    ensures { OnOk result (out.new.items ≡ out.old.items ++ spelled width number) }
{
    let mut left = number;
    for i in 0..width {
        out.push((left % 256) as u8)?;
        left /= 256;
    }
    Ok(())
}

/// Returns the number by which code names an instruction.
pub fn opcode(instruction: &Instruction) -> u8
    ensures { result ≡ opcode instruction.now }
{
    Shape::of(instruction).opcode()
}

/// Puts a slot at the end: session slots follow the own ones, and the object follows them.
fn write_place(out: &mut Vec<u8>, place: OperandSlot) -> Result<(), AllocError>
    requires { IsTrue (is_slot_or_object place) }
    ensures { OnOk result (out.new.items ≡ out.old.items ++ slot_code place ∷ []) }
{
    let code = match place {
        OperandSlot::Own(i) => i,
        OperandSlot::Shared(i) => 64 + i,
        OperandSlot::Object => 72,
    };
    out.push(code)?;
    Ok(())
}

/// Puts a text at the end, after its length in one byte.
fn write_text(out: &mut Vec<u8>, text: &[u8]) -> Result<(), AllocError>
    requires { length text.now < 256 }
    ensures { OnOk result (out.new.items ≡ out.old.items ++ length text.now ∷ text.now) }
{
    out.push(text.len() as u8)?;
    out.extend_from_slice(text)?;
    Ok(())
}

/// Puts an instruction at the end: its number, then its operands.
fn write_instruction(out: &mut Vec<u8>, instruction: &Instruction) -> Result<(), AllocError>
    requires { IsTrue (all_of in_range (operands instruction.now)) }
    ensures { OnOk result (out.new.items ≡ out.old.items ++ instruction_code instruction.now) }
{
    out.push(opcode(instruction))?;
    write_operands(out, instruction)
}

/// Puts an instruction's operands at the end.
fn write_operands(out: &mut Vec<u8>, instruction: &Instruction) -> Result<(), AllocError>
    requires { IsTrue (all_of in_range (operands instruction.now)) }
    ensures { OnOk result (out.new.items ≡ out.old.items ++ operands_code (operands instruction.now)) }
{
    match instruction {
        Instruction::Out | Instruction::Operands(OperandStatement::Plain(_)) => Ok(()),
        Instruction::Say(text) => write_text(out, text.as_bytes()),
        Instruction::Operands(OperandStatement::Numbered(statement, n)) => {
            write_number(out, statement.entry().width, u64::from(*n))
        }
        Instruction::Make(_, place, n) | Instruction::Upgrade(place, n) => {
            write_place(out, *place)?;
            write_number(out, 4, u64::from(*n))
        }
        Instruction::MakePool(place, n, m) => {
            write_place(out, *place)?;
            write_number(out, 2, u64::from(*n))?;
            write_number(out, 2, u64::from(*m))
        }
        Instruction::Open(place, service, n) => {
            write_place(out, *place)?;
            write_text(out, service.as_bytes())?;
            write_number(out, 4, u64::from(*n))
        }
        Instruction::Load(_, place)
        | Instruction::Store(_, place)
        | Instruction::Free(place)
        | Instruction::Take(place)
        | Instruction::Give(place)
        | Instruction::Peek(place)
        | Instruction::Poke(place)
        | Instruction::Call(place)
        | Instruction::Close(place) => write_place(out, *place),
    }
}

/// Puts an `if` at the end, whose arms have this code.
fn write_if(out: &mut Vec<u8>, arm: &[u8], other: &[u8]) -> Result<(), AllocError>
    ensures { OnOk result (out.new.items
        ≡ out.old.items ++ 0x40 ∷ body_length arm.now ++ body_length other.now ++ arm.now ++ other.now) }
{
    out.push(0x40)?;
    write_number(out, 4, arm.len() as u64)?;
    write_number(out, 4, other.len() as u64)?;
    out.extend_from_slice(arm)?;
    out.extend_from_slice(other)?;
    Ok(())
}

/// Puts a loop at the end, whose body has this code.
fn write_loop(out: &mut Vec<u8>, count: u16, body: &[u8]) -> Result<(), AllocError>
    ensures { OnOk result (out.new.items
        ≡ out.old.items ++ 0x41 ∷ spelled 2 count ++ body_length body.now ++ body.now) }
{
    out.push(0x41)?;
    write_number(out, 2, u64::from(count))?;
    write_number(out, 4, body.len() as u64)?;
    out.extend_from_slice(body)?;
    Ok(())
}

/// Puts the code of a statement at the end: an `if` has the lengths of both arms before them, a loop its count and the length
/// of its body.
#[cycle(bodies)]
fn write_statement(
    alloc: Global,
    out: &mut Vec<u8>,
    statement: &Statement,
) -> Result<(), AllocError>
    requires { IsTrue (has_code (tree_of (statement.now ∷ []))) }
    ensures { OnOk result (out.new.items ≡ out.old.items ++ body_code (tree_of (statement.now ∷ []))) }
{
    match statement {
        Statement::Plain(instruction) => write_instruction(out, instruction),
        Statement::If(arm, other) => {
            let arm = encode_body(alloc, arm)?;
            let other = encode_body(alloc, other)?;
            write_if(out, arm.as_slice(), other.as_slice())
        }
        Statement::Loop(count, body) => {
            let body = encode_body(alloc, body)?;
            write_loop(out, *count, body.as_slice())
        }
    }
}

/// The code of a list of statements, in which every operand is in its range. Refused only if the host refuses memory.
#[cycle(bodies)]
pub fn encode_body(alloc: Global, body: &Body) -> Result<Vec<u8>, AllocError>
    requires { IsTrue (has_code body.now) }
    ensures { IfOk result (λ code. code.items ≡ body_code body.now) }
{
    let mut code = Vec::new(alloc);
    for statement in body.statements() {
        write_statement(alloc, &mut code, statement)?;
    }
    Ok(code)
}

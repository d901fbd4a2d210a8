// What a leaf has left to do in its section, as bytes of a key.
ghost use Rattle.std.specs.Prelude.{◌≡◌, ◌<◌, ◌≤◌, ◌+◌, ◌++◌, ◌∷◌, [], OnOk, slice_index};
ghost use Rattle.gq_bytecode.specs.Bytecode_layout.{width};
ghost use Rattle.gq_program.specs.Statement_trees.{tree_of};
ghost use Rattle.gq_outcomes.specs.internal.Keys as keys;
ghost use Rattle.gq_outcomes.specs.internal.Keys.{instruction_key, loop_key, operand_slot_key, operands_key, statements_key};
ghost use Rattle.gq_outcomes.specs.internal.Left.{left_in};

use crate::encoding::{push_byte, push_number, push_text};
use gq_model::limits::GREATEST_DEPTH;
use gq_model::program::{
    Bare, Form, Instruction, OperandSlot, OperandStatement, Operator, Width, WithNumber,
};
use gq_program::program_tree::{Body, Statement};
use std::alloc::AllocError;

// INSTRUCTIONS

/// The number of a form.
pub(crate) fn form_tag(form: Form) -> u8
    ensures { result ≡ keys.form_tag form }
{
    match form {
        Form::Block => 0,
        Form::Slice => 1,
        Form::Space => 2,
    }
}

// The number of a width.
fn width_tag(width: Width) -> u8
    ensures { result ≡ keys.width_tag width }
{
    match width {
        Width::Byte => 0,
        Width::Word => 1,
    }
}

// The number of an operator.
fn operator_tag(operator: Operator) -> u8
    ensures { result ≡ keys.operator_tag operator }
{
    match operator {
        Operator::Add => 0,
        Operator::Subtract => 1,
        Operator::Multiply => 2,
        Operator::And => 3,
        Operator::Equal => 4,
        Operator::Less => 5,
    }
}

// The number of a statement that takes a number.
fn with_number_tag(statement: WithNumber) -> u8
    ensures { result ≡ keys.with_number_tag statement }
{
    match statement {
        WithNumber::Push => 0,
        WithNumber::Divide => 1,
        WithNumber::Modulo => 2,
        WithNumber::Get => 3,
        WithNumber::Set => 4,
        WithNumber::Index => 5,
        WithNumber::Input => 6,
    }
}

// Puts a slot that an operand names.
fn push_operand_slot(key: &mut Vec<u8>, slot: OperandSlot) -> Result<(), AllocError>
    ensures { OnOk result (key.new.items ≡ key.old.items ++ operand_slot_key slot) }
{
    match slot {
        OperandSlot::Own(number) => {
            push_byte(key, 0)?;
            push_number(key, u64::from(number))
        }
        OperandSlot::Shared(number) => {
            push_byte(key, 1)?;
            push_number(key, u64::from(number))
        }
        OperandSlot::Object => push_byte(key, 2),
    }
}

// Puts a statement on operands that takes no number.
fn push_bare(key: &mut Vec<u8>, statement: Bare) -> Result<(), AllocError>
    ensures { OnOk result (key.new.items ≡ key.old.items ++ keys.bare_key statement) }
{
    match statement {
        Bare::Drop => push_byte(key, 0),
        Bare::Dup => push_byte(key, 1),
        Bare::Combine(operator) => {
            push_byte(key, 2)?;
            push_byte(key, operator_tag(operator))
        }
    }
}

// Puts a statement on operands alone.
fn push_operands(key: &mut Vec<u8>, statement: OperandStatement) -> Result<(), AllocError>
    ensures { OnOk result (key.new.items ≡ key.old.items ++ operands_key statement) }
{
    match statement {
        OperandStatement::Plain(bare) => {
            push_byte(key, 0)?;
            push_bare(key, bare)
        }
        OperandStatement::Numbered(statement, number) => {
            push_byte(key, 1)?;
            push_byte(key, with_number_tag(statement))?;
            push_number(key, u64::from(number))
        }
    }
}

// Puts a byte and a slot that an operand names.
fn push_at(key: &mut Vec<u8>, byte: u8, slot: OperandSlot) -> Result<(), AllocError>
    ensures { OnOk result (key.new.items ≡ key.old.items ++ byte ∷ operand_slot_key slot) }
{
    push_byte(key, byte)?;
    push_operand_slot(key, slot)
}

// Puts an instruction.
fn push_instruction(key: &mut Vec<u8>, instruction: &Instruction) -> Result<(), AllocError>
    ensures { OnOk result (key.new.items ≡ key.old.items ++ instruction_key instruction.now) }
{
    match instruction {
        Instruction::Say(text) => {
            push_byte(key, 0)?;
            push_text(key, text.as_bytes())
        }
        Instruction::Out => push_byte(key, 1),
        Instruction::Operands(statement) => {
            push_byte(key, 2)?;
            push_operands(key, *statement)
        }
        Instruction::Make(form, slot, size) => {
            push_byte(key, 3)?;
            push_at(key, form_tag(*form), *slot)?;
            push_number(key, u64::from(*size))
        }
        Instruction::MakePool(slot, size, count) => {
            push_at(key, 4, *slot)?;
            push_number(key, u64::from(*size))?;
            push_number(key, u64::from(*count))
        }
        Instruction::Load(width, slot) => {
            push_byte(key, 5)?;
            push_at(key, width_tag(*width), *slot)
        }
        Instruction::Store(width, slot) => {
            push_byte(key, 6)?;
            push_at(key, width_tag(*width), *slot)
        }
        Instruction::Free(slot) => push_at(key, 7, *slot),
        Instruction::Take(slot) => push_at(key, 8, *slot),
        Instruction::Give(slot) => push_at(key, 9, *slot),
        Instruction::Peek(slot) => push_at(key, 10, *slot),
        Instruction::Poke(slot) => push_at(key, 11, *slot),
        Instruction::Open(slot, service, amount) => {
            push_at(key, 12, *slot)?;
            push_text(key, service.as_bytes())?;
            push_number(key, u64::from(*amount))
        }
        Instruction::Upgrade(slot, amount) => {
            push_at(key, 13, *slot)?;
            push_number(key, u64::from(*amount))
        }
        Instruction::Call(slot) => push_at(key, 14, *slot),
        Instruction::Close(slot) => push_at(key, 15, *slot),
    }
}

// STATEMENTS

// Puts a statement, and those in it.
#[cycle(statements)]
fn push_statement(key: &mut Vec<u8>, statement: &Statement) -> Result<(), AllocError>
    ensures { OnOk result (key.new.items ≡ key.old.items ++ statements_key (tree_of (statement.now ∷ []))) }
{
    match statement {
        Statement::Plain(instruction) => {
            push_byte(key, 2)?;
            push_instruction(key, instruction)
        }
        Statement::If(arm, other) => {
            push_byte(key, 3)?;
            push_all(key, arm.statements())?;
            push_byte(key, 0)?;
            push_all(key, other.statements())?;
            push_byte(key, 0)
        }
        Statement::Loop(count, body) => {
            push_byte(key, 4)?;
            push_number(key, u64::from(*count))?;
            push_all(key, body.statements())?;
            push_byte(key, 0)
        }
    }
}

// Puts statements. There is no mark of their end.
#[cycle(statements)]
#[tactic(auto, using(crate::proofs::keys::Left::all_here))]
fn push_all(key: &mut Vec<u8>, statements: &[Statement]) -> Result<(), AllocError>
    ensures { OnOk result (key.new.items ≡ key.old.items ++ statements_key (tree_of statements.now)) }
{
    for statement in statements {
        push_statement(key, statement)?;
    }
    Ok(())
}

// PLACES

/// How many places the code of a statement takes: an `if` has a jump after its first arm, a loop an end after its body.
#[cycle(widths)]
pub(crate) fn width_of(statement: &Statement) -> usize
    requires { width (tree_of (statement.now ∷ [])) ≤ 65536 }
    ensures { result ≡ width (tree_of (statement.now ∷ [])) }
{
    match statement {
        Statement::Plain(_) => 1,
        Statement::If(arm, other) => 2 + width(arm.statements()) + width(other.statements()),
        Statement::Loop(_, body) => 2 + width(body.statements()),
    }
}

/// How many places the code of statements takes.
#[cycle(widths)]
#[tactic(auto, using(crate::proofs::keys::Left::width_here))]
pub(crate) fn width(statements: &[Statement]) -> usize
    requires { width (tree_of statements.now) ≤ 65536 }
    ensures { result ≡ width (tree_of statements.now) }
{
    let mut count = 0;
    for statement in statements {
        count += width_of(statement);
    }
    count
}

// LEFT

// Puts a loop that is open, but for what comes after it.
fn push_loop(key: &mut Vec<u8>, round: u16, count: u16, body: &Body) -> Result<(), AllocError>
    ensures { OnOk result (key.new.items ≡ key.old.items ++ loop_key round count body.now) }
{
    push_byte(key, 1)?;
    push_number(key, u64::from(round))?;
    push_number(key, u64::from(count))?;
    push_all(key, body.statements())?;
    push_byte(key, 0)
}

// The round of a loop inside so many others. There are at most four.
fn round_at(rounds: &[u16; GREATEST_DEPTH], depth: usize) -> u16
    ensures { result ≡ slice_index rounds.now depth }
{
    match rounds.get(depth) {
        Some(round) => *round,
        None => 0,
    }
}

// Puts what is left at a place of a statement.
#[cycle(left)]
#[tactic(auto, using(crate::proofs::keys::Left::left_in_arm, crate::proofs::keys::Left::left_in_other, crate::proofs::keys::Left::left_in_loop))]
fn push_inside(
    key: &mut Vec<u8>,
    rounds: &[u16; GREATEST_DEPTH],
    depth: usize,
    statement: &Statement,
    place: usize,
) -> Result<(), AllocError>
    requires inside { place < width (tree_of (statement.now ∷ [])) }
    requires small { width (tree_of (statement.now ∷ [])) ≤ 65536 }
    requires shallow { depth + width (tree_of (statement.now ∷ [])) ≤ 131072 }
    ensures { OnOk result (key.new.items ≡ key.old.items ++ left_in rounds.now depth (tree_of (statement.now ∷ [])) place) }
{
    if place == 0 {
        return push_statement(key, statement);
    }
    match statement {
        Statement::Plain(_) => Ok(()),
        Statement::If(arm, other) => {
            let first = width(arm.statements());
            if place <= first + 1 {
                push_left(key, rounds, depth, arm.statements(), place - 1)
            } else {
                push_left(key, rounds, depth, other.statements(), place - first - 2)
            }
        }
        Statement::Loop(count, body) => {
            push_left(key, rounds, depth + 1, body.statements(), place - 1)?;
            push_loop(key, round_at(rounds, depth), *count, body)
        }
    }
}

/// Puts what is left at a place of statements inside so many loops, with the loops that are open there.
#[cycle(left)]
#[tactic(auto, using(crate::proofs::keys::Left::left_here, crate::proofs::keys::Left::left_later, crate::proofs::keys::Left::width_here))]
pub(crate) fn push_left(
    key: &mut Vec<u8>,
    rounds: &[u16; GREATEST_DEPTH],
    depth: usize,
    statements: &[Statement],
    place: usize,
) -> Result<(), AllocError>
    requires small { width (tree_of statements.now) ≤ 65536 }
    requires shallow { depth + width (tree_of statements.now) ≤ 131072 }
    ensures { OnOk result (key.new.items ≡ key.old.items ++ left_in rounds.now depth (tree_of statements.now) place) }
{
    let mut left = place;
    for number in 0..statements.len() {
        let statement = &statements[number];
        let width = width_of(statement);
        if left < width {
            push_inside(key, rounds, depth, statement, left)?;
            return push_all(key, &statements[number + 1..]);
        }
        left -= width;
    }
    Ok(())
}

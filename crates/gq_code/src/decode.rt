// The program that bytes spell.
ghost use Rattle.std.specs.Prelude.{◌≡◌, ◌≤◌, ◌∷◌, [], IfOk, OnOk, Ok, alloc_error, length};
ghost use Rattle.gq_model.specs.machine.Program.{Do, Done, ◌then◌};
ghost use Rattle.gq_model.specs.texts.Decode.{one_more, limits_at, sections_at, operands_at, decoded};
ghost use Rattle.gq_program.specs.Statement_table.{shape_of};
ghost use Rattle.gq_program.specs.Statement_trees.{tree_of};
ghost use Rattle.gq_code.specs.internal.Decoding.{Answers, limit_at};
ghost use Rattle.gq_code.specs.internal.Bodies.{Reads, body_in, opened_at, arms_at, round_at, choice_with, round_with, statement_with};
ghost use Rattle.gq_code.specs.internal.Bodies.{instruction_at, put_at, placed, section_at};
ghost use Rattle.gq_code.specs.Decoded.{IsDecoded};
ghost use Rattle.gq_code.specs.declared.decode.DecodeError.TheVariants.{Memory, Fault};

use crate::coded_operands::{
    cut, number, open, pool, say, with_amount, with_bytes, with_number, with_slot,
};
use crate::program_code::NO_LIMIT;
use gq_model::fault::CodeFault;
use gq_model::limits::{GREATEST_DEPTH, GREATEST_STATEMENTS, LOCALS};
use gq_model::program::Instruction;
use gq_model::section::Section;
use gq_program::program_tree::{Body, Program, Statement};
use gq_program::{Shape, shape_of_opcode};
use std::alloc::{AllocError, AllocFailed, Global};
use thiserror::Error;

/// Why bytes gave no program.
#[derive(Debug, Drop, Error)]
pub enum DecodeError {
    /// The host has no memory left.
    #[error("host memory refused")]
    Memory(AllocError),
    /// The first fault of the bytes.
    #[error("{0}")]
    Fault(CodeFault),
}

impl From<AllocError> for DecodeError {
    ghost from_gives = { λ e r. r ≡ Memory e };

    fn from(error: AllocError) -> DecodeError {
        DecodeError::Memory(error)
    }
}

impl<T: Drop> From<AllocFailed<T>> for DecodeError {
    ghost from_gives = { λ _ r. r ≡ Memory alloc_error };

    fn from(_failed: AllocFailed<T>) -> DecodeError {
        DecodeError::Memory(AllocError)
    }
}

impl From<CodeFault> for DecodeError {
    ghost from_gives = { λ f r. r ≡ Fault f };

    fn from(fault: CodeFault) -> DecodeError {
        DecodeError::Fault(fault)
    }
}

/// How many statements there are with one more.
fn one_more(before: u32) -> Result<u32, CodeFault>
    ensures { Answers (λ m. m) result (one_more before (λ m. Ok m)) }
{
    if before < u32::from(GREATEST_STATEMENTS) {
        Ok(before + 1)
    } else {
        Err(CodeFault::TooLong)
    }
}

/// How many blocks are left in one more, where this many are left, and how many statements there are with it.
fn opened(depth: u8, before: u32) -> Result<(u8, u32), CodeFault>
    ensures { Answers (λ p. (p.0, p.1)) result (opened_at depth before) }
{
    if depth == 0 {
        return Err(CodeFault::BadNesting);
    }
    Ok((depth - 1, one_more(before)?))
}

/// The bytes of both arms of an `if`, and what follows them.
fn arms(bytes: &[u8]) -> Result<(&[u8], &[u8], &[u8]), CodeFault>
    ensures arms { Answers (λ p. (p.0.now, (p.1.now, p.2.now))) result (arms_at bytes.now) }
    ensures first { IfOk result (λ p. length p.0.now ≤ length bytes.now) }
    ensures second { IfOk result (λ p. length p.1.now ≤ length bytes.now) }
    ensures rest { IfOk result (λ p. length p.2.now ≤ length bytes.now) }
{
    let (first, rest) = number(bytes, 4, CodeFault::BadNesting)?;
    let (second, rest) = number(rest, 4, CodeFault::BadNesting)?;
    let (arm, rest) = cut(rest, first as usize, CodeFault::BadNesting)?;
    let (other, rest) = cut(rest, second as usize, CodeFault::BadNesting)?;
    Ok((arm, other, rest))
}

/// A loop's count, the bytes of its body, and what follows them.
fn round(bytes: &[u8]) -> Result<(u16, &[u8], &[u8]), CodeFault>
    ensures round { Answers (λ p. (p.0, (p.1.now, p.2.now))) result (round_at bytes.now) }
    ensures body { IfOk result (λ p. length p.1.now ≤ length bytes.now) }
    ensures rest { IfOk result (λ p. length p.2.now ≤ length bytes.now) }
{
    let (count, rest) = number(bytes, 2, CodeFault::BadNesting)?;
    if count == 0 {
        return Err(CodeFault::BadOperand);
    }
    let (length, rest) = number(rest, 4, CodeFault::BadNesting)?;
    let (body, rest) = cut(rest, length as usize, CodeFault::BadNesting)?;
    Ok((count as u16, body, rest))
}

/// Puts a statement with no statement in it at the end.
#[inline(always)]
fn push(body: &mut Body, instruction: Instruction) -> Result<(), AllocError>
    ensures { OnOk result (body.new ≡ body.old then Do instruction Done) }
{
    body.push(Statement::Plain(instruction))
}

/// Puts `say` at the end, whose text stands first, and gives what follows it. It and the two after it stand alone, since few statements have a
/// text, a name or three operands.
#[inline(never)]
fn push_said<'a>(alloc: Global, body: &mut Body, bytes: &'a [u8]) -> Result<&'a [u8], DecodeError>
    ensures read { Reads (λ rest. (body.new, rest.now)) result (put_at body.old (operands_at (shape_of Shape.Say) bytes.now)) }
    ensures rest { IfOk result (λ rest. length rest.now ≤ length bytes.now) }
{
    let (instruction, rest) = say(alloc, bytes)?;
    push(body, instruction)?;
    Ok(rest)
}

/// Puts `pool` at the end, whose operands stand first, and gives what follows them.
#[inline(never)]
fn push_pool<'a>(body: &mut Body, bytes: &'a [u8]) -> Result<&'a [u8], DecodeError>
    ensures read { Reads (λ rest. (body.new, rest.now)) result (put_at body.old (operands_at (shape_of Shape.Pool) bytes.now)) }
    ensures rest { IfOk result (λ rest. length rest.now ≤ length bytes.now) }
{
    let (instruction, rest) = pool(bytes)?;
    push(body, instruction)?;
    Ok(rest)
}

/// Puts `open` at the end, whose operands stand first, and gives what follows them.
#[inline(never)]
fn push_open<'a>(body: &mut Body, bytes: &'a [u8]) -> Result<&'a [u8], DecodeError>
    ensures read { Reads (λ rest. (body.new, rest.now)) result (put_at body.old (operands_at (shape_of Shape.Open) bytes.now)) }
    ensures rest { IfOk result (λ rest. length rest.now ≤ length bytes.now) }
{
    let (instruction, rest) = open(bytes)?;
    push(body, instruction)?;
    Ok(rest)
}

/// Puts a statement with no statement in it at the end, whose operands stand first, in a way of its own for each shape, and gives what follows
/// them.
fn push_plain<'a>(
    alloc: Global,
    body: &mut Body,
    shape: Shape,
    bytes: &'a [u8],
) -> Result<&'a [u8], DecodeError>
    ensures read { Reads (λ rest. (body.new, rest.now)) result (put_at body.old (operands_at (shape_of shape) bytes.now)) }
    ensures rest { IfOk result (λ rest. length rest.now ≤ length bytes.now) }
{
    match shape {
        Shape::Out => {
            push(body, Instruction::Out)?;
            Ok(bytes)
        }
        Shape::Plain(statement) => {
            push(body, statement.instruction())?;
            Ok(bytes)
        }
        Shape::Number(statement) => {
            let (instruction, rest) = with_number(statement, bytes)?;
            push(body, instruction)?;
            Ok(rest)
        }
        Shape::Slot(statement) => {
            let (instruction, rest) = with_slot(statement, bytes)?;
            push(body, instruction)?;
            Ok(rest)
        }
        Shape::Bytes(statement) => {
            let (instruction, rest) = with_bytes(statement, bytes)?;
            push(body, instruction)?;
            Ok(rest)
        }
        Shape::Amount(statement) => {
            let (instruction, rest) = with_amount(statement, bytes)?;
            push(body, instruction)?;
            Ok(rest)
        }
        Shape::Say => push_said(alloc, body, bytes),
        Shape::Pool => push_pool(body, bytes),
        Shape::Open => push_open(body, bytes),
    }
}

/// Puts a statement of this number with no statement in it at the end, and gives how many there are with it, and what follows it.
fn push_coded<'a>(
    alloc: Global,
    body: &mut Body,
    op: u8,
    bytes: &'a [u8],
    before: u32,
) -> Result<(u32, &'a [u8]), DecodeError>
    ensures read { Reads (λ p. (body.new, (p.0, p.1.now))) result (placed body.old (instruction_at op before bytes.now)) }
    ensures rest { IfOk result (λ p. length p.1.now ≤ length bytes.now) }
{
    let Some(shape) = shape_of_opcode(op) else {
        return Err(DecodeError::Fault(CodeFault::UnknownOpcode));
    };
    let count = one_more(before)?;
    let rest = push_plain(alloc, body, shape, bytes)?;
    Ok((count, rest))
}

/// An `if`, how many statements there are with it and those in it, and what follows it.
#[cycle(blocks)]
#[inline(never)]
fn choice(
    alloc: Global,
    bytes: &[u8],
    depth: u8,
    before: u32,
) -> Result<(Statement, u32, &[u8]), DecodeError>
    ensures read { Reads (λ p. (tree_of (p.0 ∷ []), (p.1, p.2.now))) result (choice_with body_in depth before bytes.now) }
    ensures rest { IfOk result (λ p. length p.2.now ≤ length bytes.now) }
{
    let (inner, count) = opened(depth, before)?;
    let (arm, other, rest) = arms(bytes)?;
    let (arm, count) = read_body(alloc, arm, inner, count)?;
    let (other, count) = read_body(alloc, other, inner, count)?;
    Ok((Statement::If(arm, other), count, rest))
}

/// A loop, how many statements there are with it and those in it, and what follows it.
#[cycle(blocks)]
#[inline(never)]
fn repeated(
    alloc: Global,
    bytes: &[u8],
    depth: u8,
    before: u32,
) -> Result<(Statement, u32, &[u8]), DecodeError>
    ensures read { Reads (λ p. (tree_of (p.0 ∷ []), (p.1, p.2.now))) result (round_with body_in depth before bytes.now) }
    ensures rest { IfOk result (λ p. length p.2.now ≤ length bytes.now) }
{
    let (inner, before) = opened(depth, before)?;
    let (count, body, rest) = round(bytes)?;
    let (body, before) = read_body(alloc, body, inner, before)?;
    Ok((Statement::Loop(count, body), before, rest))
}

/// Puts a statement of this number at the end, and gives how many there are with it and those in it, and what follows it.
#[cycle(blocks)]
fn push_statement<'a>(
    alloc: Global,
    made: &mut Body,
    op: u8,
    bytes: &'a [u8],
    depth: u8,
    before: u32,
) -> Result<(u32, &'a [u8]), DecodeError>
    ensures read { Reads (λ p. (made.new, (p.0, p.1.now))) result (placed made.old (statement_with body_in op depth before bytes.now)) }
    ensures rest { IfOk result (λ p. length p.1.now ≤ length bytes.now) }
{
    match op {
        0x40 => {
            let (statement, count, rest) = choice(alloc, bytes, depth, before)?;
            made.push(statement)?;
            Ok((count, rest))
        }
        0x41 => {
            let (statement, count, rest) = repeated(alloc, bytes, depth, before)?;
            made.push(statement)?;
            Ok((count, rest))
        }
        _ => push_coded(alloc, made, op, bytes, before),
    }
}

/// The statements of a body, of these bytes, and how many there are with those before.
#[cycle(blocks)]
fn read_body(
    alloc: Global,
    bytes: &[u8],
    depth: u8,
    before: u32,
) -> Result<(Body, u32), DecodeError>
    ensures { Reads (λ p. (p.0, p.1)) result (body_in depth before bytes.now) }
{
    let mut body = Body::new(alloc);
    let mut count = before;
    let mut left = bytes;
    while let [op, rest @ ..] = left {
        let (with, after) = push_statement(alloc, &mut body, *op, rest, depth, count)?;
        count = with;
        left = after;
    }
    Ok((body, count))
}

/// The greatest value of a local, which stands there where one is given, and what follows it.
fn limit(given: bool, bytes: &[u8]) -> Result<(u32, &[u8]), CodeFault>
    ensures { Answers (λ p. (p.0, p.1.now)) result (limit_at given bytes.now) }
{
    if !given {
        return Ok((NO_LIMIT, bytes));
    }
    let (limit, rest) = number(bytes, 4, CodeFault::Truncated)?;
    if limit == NO_LIMIT {
        return Err(CodeFault::BadOperand);
    }
    Ok((limit, rest))
}

/// The greatest values of the locals, of which these bits say which are given, and what follows them.
fn limits(given: u32, bytes: &[u8]) -> Result<([u32; LOCALS], &[u8]), CodeFault>
    ensures { Answers (λ p. (p.0, p.1.now)) result (limits_at 8 given bytes.now) }
{
    let mut limits = [NO_LIMIT; LOCALS];
    let mut bits = given;
    let mut left = bytes;
    for i in 0..LOCALS {
        let (limit, rest) = limit(bits % 2 == 1, left)?;
        limits[i] = limit;
        left = rest;
        bits /= 2;
    }
    Ok((limits, left))
}

/// The statements of a section after their length, how many there are with those before, and what follows them.
fn section(alloc: Global, bytes: &[u8], before: u32) -> Result<(Body, u32, &[u8]), DecodeError>
    ensures { Reads (λ p. (p.0, (p.1, p.2.now))) result (section_at before bytes.now) }
{
    let (length, rest) = number(bytes, 4, CodeFault::Truncated)?;
    let (body, rest) = cut(rest, length as usize, CodeFault::Truncated)?;
    let (body, count) = read_body(alloc, body, GREATEST_DEPTH as u8, before)?;
    Ok((body, count, rest))
}

/// The sections up to the end of the bytes, of which these bits say which of `order` are there.
fn sections(
    alloc: Global,
    order: &[Section],
    present: u32,
    bytes: &[u8],
) -> Result<Vec<(Section, Body)>, DecodeError>
    ensures { Reads (λ sections. sections.items) result (sections_at order.now present 0 bytes.now) }
{
    let mut sections = Vec::new(alloc);
    let mut count = 0;
    let mut bits = present;
    let mut left = bytes;
    for name in order {
        if bits % 2 == 1 {
            let (body, with, rest) = section(alloc, left, count)?;
            sections.push((*name, body))?;
            count = with;
            left = rest;
        }
        bits /= 2;
    }
    if !left.is_empty() {
        return Err(DecodeError::Fault(CodeFault::TrailingBytes));
    }
    Ok(sections)
}

/// The program that these bytes spell, or their first fault: the limits of the locals, which sections are there, and each
/// section's statements. Else refused only if the host refuses memory.
pub fn decode(alloc: Global, bytes: &[u8]) -> Result<Program, DecodeError>
    ensures { IsDecoded result (decoded bytes.now) }
{
    let (bits, rest) = number(bytes, 1, CodeFault::Truncated)?;
    let (limits, rest) = limits(bits, rest)?;
    let (present, rest) = number(rest, 2, CodeFault::Truncated)?;
    let sections = sections(alloc, &Section::ALL, present, rest)?;
    Ok(Program::from_parts(sections, limits))
}

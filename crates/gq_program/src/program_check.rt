// What a program's sections have to be.
ghost use Rattle.std.specs.Prelude.{◌≡◌, ◌==◌, length, sum_by, nat_le, ◌&&◌, ◌∷◌, []};
ghost use Rattle.gq_program.specs.Statement_trees.{tree_of};
ghost use Rattle.gq_model.specs.machine.Program.{size};
ghost use Rattle.gq_model.specs.machine.Lists.{all_of, between};
ghost use Rattle.gq_model.specs.texts.Operands.{greatest_number, is_slot, is_slot_or_object, in_range, operands};
ghost use Rattle.gq_model.specs.texts.Code.{is_body, are_sections, greatest_statements};
ghost use Rattle.gq_model.specs.machine.Sections.{is_section, section_number};
ghost use Rattle.gq_program.specs.internal.Statement_counts.{less};

use crate::program_tree::{Body, Statement};
use gq_model::letters::{is_name, is_said};
use gq_model::limits::{
    GREATEST_DEPTH, GREATEST_ENTRIES, GREATEST_SIZE, GREATEST_STATEMENTS, LOCALS, OWN_SLOTS,
    SESSION_SLOTS,
};
use gq_model::program::{Instruction, OperandSlot, OperandStatement};
use gq_model::section::Section;
use gq_tariff::price::GREATEST_PLACE;

/// Whether a slot is one of the 64 own ones, or of the 8 of a session.
fn is_slot(place: OperandSlot) -> bool
    ensures { result ≡ is_slot place }
{
    match place {
        OperandSlot::Own(i) => usize::from(i) < OWN_SLOTS,
        OperandSlot::Shared(i) => usize::from(i) < SESSION_SLOTS,
        OperandSlot::Object => false,
    }
}

/// Whether bytes are meant that a slot can have, or the object.
fn is_slot_or_object(place: OperandSlot) -> bool
    ensures { result ≡ is_slot_or_object place }
{
    match place {
        OperandSlot::Object => true,
        OperandSlot::Own(_) | OperandSlot::Shared(_) => is_slot(place),
    }
}

/// Whether each operand of an instruction is in its range.
fn in_range(instruction: &Instruction) -> bool
    ensures { result ≡ all_of in_range (operands instruction.now) }
{
    match instruction {
        Instruction::Out | Instruction::Operands(OperandStatement::Plain(_)) => true,
        Instruction::Say(text) => is_said(text.as_bytes()),
        Instruction::Operands(OperandStatement::Numbered(statement, number)) => {
            let entry = statement.entry();
            entry.low <= *number && *number <= entry.high
        }
        Instruction::Make(_, place, size) => is_slot(*place)
            && 1 <= *size
            && *size <= GREATEST_SIZE,
        Instruction::MakePool(place, size, count) => {
            is_slot(*place)
                && 1 <= *size
                && u64::from(*size) <= GREATEST_PLACE
                && 1 <= *count
                && *count <= GREATEST_ENTRIES
        }
        Instruction::Open(place, service, amount) => {
            let _amount = *amount;
            is_slot(*place) && is_name(service.as_bytes())
        }
        Instruction::Upgrade(place, amount) => {
            let _amount = *amount;
            is_slot(*place)
        }
        Instruction::Load(_, place) | Instruction::Store(_, place) => is_slot_or_object(*place),
        Instruction::Free(place)
        | Instruction::Take(place)
        | Instruction::Give(place)
        | Instruction::Peek(place)
        | Instruction::Poke(place)
        | Instruction::Call(place)
        | Instruction::Close(place) => is_slot(*place),
    }
}

/// Whether a statement is one that at most so many blocks are open in.
#[cycle(checks)]
fn is_statement(statement: &Statement, depth: u8) -> bool
    ensures { result ≡ is_body depth (tree_of (statement.now ∷ [])) }
{
    match statement {
        Statement::Plain(instruction) => in_range(instruction),
        Statement::If(arm, other) => {
            depth > 0 && is_body(arm, depth - 1) && is_body(other, depth - 1)
        }
        Statement::Loop(count, body) => depth > 0 && *count >= 1 && is_body(body, depth - 1),
    }
}

/// Whether these statements have at most so many blocks in one another, and every operand in its range.
#[cycle(checks)]
fn is_body(body: &Body, depth: u8) -> bool
    ensures { result ≡ is_body depth body.now }
{
    for statement in body.statements() {
        if !is_statement(statement, depth) {
            return false;
        }
    }
    true
}

/// How many of `left` statements are left without these, if there are no more.
#[cycle(counts)]
fn without(body: &Body, left: u32) -> Option<u32>
    ensures { result ≡ less (size body.now) left }
{
    let mut left = left;
    for statement in body.statements() {
        left = without_one(statement, left)?;
    }
    Some(left)
}

/// How many of `left` statements are left without this one and those in it, if there are no more.
#[cycle(counts)]
fn without_one(statement: &Statement, left: u32) -> Option<u32>
    ensures { result ≡ less (size (tree_of (statement.now ∷ []))) left }
{
    if left == 0 {
        return None;
    }
    match statement {
        Statement::Plain(_) => Some(left - 1),
        Statement::If(arm, other) => without(other, without(arm, left - 1)?),
        Statement::Loop(_, body) => without(body, left - 1),
    }
}

/// Whether the sections stand in their order, each once, with at most four blocks in one another.
pub(crate) fn are_sections(sections: &[(Section, Body)]) -> bool
    ensures { result ≡ are_sections 0 sections.now }
{
    let mut next = 0;
    for (section, body) in sections {
        if !section.is_there() || section.number() < next || !is_body(body, GREATEST_DEPTH as u8) {
            return false;
        }
        next = 1 + section.number();
    }
    true
}

/// Whether the sections have at most 4096 statements.
pub(crate) fn are_few(sections: &[(Section, Body)]) -> bool
    ensures { result ≡ nat_le (sum_by (λ s. size s.1) sections.now) greatest_statements }
{
    let mut left = u32::from(GREATEST_STATEMENTS);
    for (_, body) in sections {
        match without(body, left) {
            Some(after) => left = after,
            None => return false,
        }
    }
    true
}

/// Whether these are the greatest values of eight locals: any numbers of 32 bits are.
pub(crate) fn are_limits(limits: &[u32]) -> bool
    ensures { result ≡ (length limits.now == 8 && all_of (between 0 greatest_number) limits.now) }
{
    for limit in limits {
        let _limit = *limit;
    }
    limits.len() == LOCALS
}

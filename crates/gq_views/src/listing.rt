// Programs as text.
ghost use Rattle.std.specs.Prelude.{◌≡◌, ◌≤◌, ◌+◌, ◌++◌, ◌∷◌, [], OnOk, IfOk};
ghost use Rattle.gq_model.specs.machine.Program.{size};
ghost use Rattle.gq_model.specs.texts.Code.{greatest_statements};
ghost use Rattle.gq_model.specs.machine.Sections.{section_word};
ghost use Rattle.gq_program.specs.Statement_trees.{tree_of};
ghost use Rattle.gq_views.specs.internal.Section_statement_counts.{total};
ghost use Rattle.gq_views.specs.Listing.{instruction_text, joined, line, listing, locals_lines, loop_text, other_lines, sections_lines, statements_lines};

use crate::instruction_text::push_instruction;
use crate::view_words::{end_line, push_amount, push_indent, push_line, push_number};
use gq_model::program::Instruction;
use gq_model::section::Section;
use gq_program::program_tree::{Body, Program, Statement};
use std::alloc::{AllocError, Global};

// The line of a statement without statements in it.
pub(crate) fn push_plain(
    text: &mut Vec<u8>,
    depth: usize,
    instruction: &Instruction,
) -> Result<(), AllocError>
    ensures { OnOk result (text.new.items ≡ text.old.items ++ line depth (instruction_text instruction.now)) }
{
    push_indent(text, depth)?;
    push_instruction(text, instruction)?;
    end_line(text)
}

// The first line of a loop.
pub(crate) fn push_loop(text: &mut Vec<u8>, depth: usize, count: u16) -> Result<(), AllocError>
    ensures { OnOk result (text.new.items ≡ text.old.items ++ line depth (loop_text count)) }
{
    push_indent(text, depth)?;
    text.extend_from_slice(b"loop ")?;
    push_number(text, u64::from(count))?;
    end_line(text)
}

// The lines of the second arm of an `if`: none where it does nothing.
#[cycle(statements)]
fn push_other(text: &mut Vec<u8>, depth: usize, other: &Body) -> Result<(), AllocError>
    requires { depth + 1 + size other.now ≤ 65536 }
    ensures { OnOk result (text.new.items ≡ text.old.items ++ joined (other_lines depth other.now (statements_lines (depth + 1) other.now))) }
{
    if other.statements().is_empty() {
        return Ok(());
    }
    push_line(text, depth, b"else")?;
    push_body(text, depth + 1, other)
}

// The lines of a statement, and of those in it.
#[cycle(statements)]
fn push_statement(text: &mut Vec<u8>, depth: usize, statement: &Statement) -> Result<(), AllocError>
    requires { depth + size (tree_of (statement.now ∷ [])) ≤ 65536 }
    ensures { OnOk result (text.new.items ≡ text.old.items ++ joined (statements_lines depth (tree_of (statement.now ∷ [])))) }
{
    match statement {
        Statement::Plain(instruction) => push_plain(text, depth, instruction),
        Statement::If(arm, other) => {
            push_line(text, depth, b"if")?;
            push_body(text, depth + 1, arm)?;
            push_other(text, depth, other)?;
            push_line(text, depth, b"end")
        }
        Statement::Loop(count, body) => {
            push_loop(text, depth, *count)?;
            push_body(text, depth + 1, body)?;
            push_line(text, depth, b"end")
        }
    }
}

// The lines of the statements of a list.
#[cycle(statements)]
fn push_body(text: &mut Vec<u8>, depth: usize, body: &Body) -> Result<(), AllocError>
    requires { depth + size body.now ≤ 65536 }
    ensures { OnOk result (text.new.items ≡ text.old.items ++ joined (statements_lines depth body.now)) }
{
    for statement in body.statements() {
        push_statement(text, depth, statement)?;
    }
    Ok(())
}

/// Puts the heading of a section at the end of a text. Refused only if the host refuses memory.
pub fn push_heading(text: &mut Vec<u8>, section: Section) -> Result<(), AllocError>
    ensures { OnOk result (text.new.items ≡ text.old.items ++ section_word section) }
{
    let kind = section.kind();
    text.extend_from_slice(kind.word().as_bytes())?;
    match kind.levels() {
        None => Ok(()),
        Some(_) => {
            text.push(b' ')?;
            push_number(text, u64::from(section.level()))
        }
    }
}

// The lines of a section.
fn push_section(text: &mut Vec<u8>, section: Section, body: &Body) -> Result<(), AllocError>
    requires { size body.now ≤ 4096 }
    ensures { OnOk result (text.new.items ≡ text.old.items ++ joined (sections_lines ((section, body.now) ∷ []))) }
{
    push_heading(text, section)?;
    end_line(text)?;
    push_body(text, 1, body)?;
    push_line(text, 0, b"end")
}

// The lines of the sections.
fn push_sections(text: &mut Vec<u8>, sections: &[(Section, Body)]) -> Result<(), AllocError>
    requires { total sections.now ≤ greatest_statements }
    ensures { OnOk result (text.new.items ≡ text.old.items ++ joined (sections_lines sections.now)) }
{
    for (section, body) in sections {
        push_section(text, *section, body)?;
    }
    Ok(())
}

// The line of a local: its greatest value, where it is reported.
pub(crate) fn push_local(text: &mut Vec<u8>, place: usize, greatest: u32) -> Result<(), AllocError>
    ensures { OnOk result (text.new.items ≡ text.old.items ++ joined (locals_lines place (greatest ∷ []))) }
{
    if greatest == u32::MAX {
        return Ok(());
    }
    text.extend_from_slice(b"local ")?;
    push_number(text, place as u64)?;
    push_amount(text, u64::from(greatest))?;
    end_line(text)
}

// The lines of the locals.
fn push_locals(text: &mut Vec<u8>, locals: &[u32]) -> Result<(), AllocError>
    ensures { OnOk result (text.new.items ≡ text.old.items ++ joined (locals_lines 0 locals.now)) }
{
    for (place, greatest) in locals.iter().enumerate() {
        push_local(text, place, *greatest)?;
    }
    Ok(())
}

/// The text of a program: a line for each local whose greatest value is reported, then each section with its statements, a line each, two blanks deeper in each
/// block. It is assembled as that program (`laws`). Refused only if the host refuses memory.
pub fn listing(alloc: Global, program: &Program) -> Result<Vec<u8>, AllocError>
    ensures { IfOk result (λ text. text.items ≡ listing program.now) }
{
    program.laws();
    let mut text = Vec::new(alloc);
    push_locals(&mut text, program.locals())?;
    push_sections(&mut text, program.sections())?;
    Ok(text)
}

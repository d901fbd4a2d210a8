// Programs as text, with the numbers of their statements.
ghost use Rattle.std.specs.Prelude.{◌≡◌, ◌≤◌, ◌+◌, ◌*◌, ◌++◌, ◌∷◌, [], Some, None, OnOk, IfOk};
ghost use Rattle.gq_model.specs.machine.Program.{size};
ghost use Rattle.gq_model.specs.texts.Code.{greatest_statements};
ghost use Rattle.gq_program.specs.Statement_trees.{tree_of};
ghost use Rattle.gq_views.specs.internal.Section_statement_counts.{total};
ghost use Rattle.gq_views.specs.Listing.{indented};
ghost use Rattle.gq_views.specs.Numbered.{blanks, local_rows, margin, numbered_listing, other_rows, section_rows, statement_rows, text_of};

use crate::listing::{push_heading, push_local, push_loop, push_plain};
use crate::view_words::{end_line, push_line};
use gq_model::section::Section;
use gq_program::program_tree::{Body, Program, Statement};
use itoa::Buffer;
use std::alloc::{AllocError, Global};

// The columns of a number.
const COLUMNS: usize = 5;

// Puts so many blanks at the end of a text.
fn push_blanks(text: &mut Vec<u8>, count: usize) -> Result<(), AllocError>
    ensures { OnOk result (text.new.items ≡ text.old.items ++ blanks count) }
{
    let mut left = count;
    while left > 0 {
        text.extend_from_slice(b" ")?;
        left -= 1;
    }
    Ok(())
}

// The margin of a line without a number.
fn push_no_number(text: &mut Vec<u8>) -> Result<(), AllocError>
    ensures { OnOk result (text.new.items ≡ text.old.items ++ margin None) }
{
    push_blanks(text, COLUMNS + 1)
}

// The margin of a line with this number.
fn push_number(text: &mut Vec<u8>, number: usize) -> Result<(), AllocError>
    ensures { OnOk result (text.new.items ≡ text.old.items ++ margin (Some number)) }
{
    let mut buffer = Buffer::new();
    let digits = buffer.format(number as u64).as_bytes();
    push_blanks(text, COLUMNS.saturating_sub(digits.len()))?;
    text.extend_from_slice(digits)?;
    text.extend_from_slice(b" ")
}

// A line of words without a number.
fn push_words(text: &mut Vec<u8>, depth: usize, words: &[u8]) -> Result<(), AllocError>
    ensures { OnOk result (text.new.items ≡ text.old.items ++ text_of ((None, indented depth words.now) ∷ [])) }
{
    push_no_number(text)?;
    push_line(text, depth, words)
}

// The lines of the second arm of an `if`, whose first statement has this number: none where it does nothing. It returns the number of the next.
#[cycle(numbered)]
fn push_other(
    text: &mut Vec<u8>,
    depth: usize,
    number: usize,
    other: &Body,
) -> Result<usize, AllocError>
    requires { depth + number + 1 + 2 * size other.now ≤ 65536 }
    ensures lines { OnOk result (text.new.items ≡ text.old.items ++ text_of (other_rows depth other.now (statement_rows (depth + 1) number other.now))) }
    ensures next { IfOk result (λ next. next ≡ number + size other.now) }
{
    if other.statements().is_empty() {
        return Ok(number);
    }
    push_words(text, depth, b"else")?;
    push_body(text, depth + 1, number, other)
}

// The lines of a statement with this number, and of those in it. It returns the number of the next.
#[cycle(numbered)]
fn push_statement(
    text: &mut Vec<u8>,
    depth: usize,
    number: usize,
    statement: &Statement,
) -> Result<usize, AllocError>
    requires { depth + number + 2 * size (tree_of (statement.now ∷ [])) ≤ 65536 }
    ensures lines { OnOk result (text.new.items ≡ text.old.items ++ text_of (statement_rows depth number (tree_of (statement.now ∷ [])))) }
    ensures next { IfOk result (λ next. next ≡ number + size (tree_of (statement.now ∷ []))) }
{
    push_number(text, number)?;
    match statement {
        Statement::Plain(instruction) => {
            push_plain(text, depth, instruction)?;
            Ok(number + 1)
        }
        Statement::If(arm, other) => {
            push_line(text, depth, b"if")?;
            let between = push_body(text, depth + 1, number + 1, arm)?;
            let next = push_other(text, depth, between, other)?;
            push_words(text, depth, b"end")?;
            Ok(next)
        }
        Statement::Loop(count, body) => {
            push_loop(text, depth, *count)?;
            let next = push_body(text, depth + 1, number + 1, body)?;
            push_words(text, depth, b"end")?;
            Ok(next)
        }
    }
}

// The lines of the statements of a list whose first has this number. It returns the number of the next.
#[cycle(numbered)]
fn push_body(
    text: &mut Vec<u8>,
    depth: usize,
    first: usize,
    body: &Body,
) -> Result<usize, AllocError>
    requires { depth + first + 2 * size body.now ≤ 65536 }
    ensures lines { OnOk result (text.new.items ≡ text.old.items ++ text_of (statement_rows depth first body.now)) }
    ensures next { IfOk result (λ next. next ≡ first + size body.now) }
{
    let mut number = first;
    for statement in body.statements() {
        number = push_statement(text, depth, number, statement)?;
    }
    Ok(number)
}

// The lines of a section.
fn push_section(text: &mut Vec<u8>, section: Section, body: &Body) -> Result<(), AllocError>
    requires { size body.now ≤ 4096 }
    ensures { OnOk result (text.new.items ≡ text.old.items ++ text_of (section_rows ((section, body.now) ∷ []))) }
{
    push_no_number(text)?;
    push_heading(text, section)?;
    end_line(text)?;
    let _next = push_body(text, 1, 1, body)?;
    push_words(text, 0, b"end")
}

// The lines of the sections.
fn push_sections(text: &mut Vec<u8>, sections: &[(Section, Body)]) -> Result<(), AllocError>
    requires { total sections.now ≤ greatest_statements }
    ensures { OnOk result (text.new.items ≡ text.old.items ++ text_of (section_rows sections.now)) }
{
    for (section, body) in sections {
        push_section(text, *section, body)?;
    }
    Ok(())
}

// The line of a local: its greatest value, where it is reported.
fn push_numbered_local(text: &mut Vec<u8>, place: usize, greatest: u32) -> Result<(), AllocError>
    ensures { OnOk result (text.new.items ≡ text.old.items ++ text_of (local_rows place (greatest ∷ []))) }
{
    if greatest == u32::MAX {
        return Ok(());
    }
    push_no_number(text)?;
    push_local(text, place, greatest)
}

// The lines of the locals.
fn push_locals(text: &mut Vec<u8>, locals: &[u32]) -> Result<(), AllocError>
    ensures { OnOk result (text.new.items ≡ text.old.items ++ text_of (local_rows 0 locals.now)) }
{
    for (place, greatest) in locals.iter().enumerate() {
        push_numbered_local(text, place, *greatest)?;
    }
    Ok(())
}

/// The listing of a program, with a number before the first line of each statement, in five columns, and blanks before any other line. The statements of each
/// section are counted from 1, those in arms and bodies, too. Refused only if the host refuses memory.
pub fn numbered_listing(alloc: Global, program: &Program) -> Result<Vec<u8>, AllocError>
    ensures { IfOk result (λ text. text.items ≡ numbered_listing program.now) }
{
    program.laws();
    let mut text = Vec::new(alloc);
    push_locals(&mut text, program.locals())?;
    push_sections(&mut text, program.sections())?;
    Ok(text)
}

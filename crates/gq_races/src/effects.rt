// The lines of a leaf: of the sections that signals begin, and of statements that change own slots, read inputs or write lines.
ghost use Rattle.std.specs.Prelude.{◌≡◌, ◌≤◌, ◌+◌, ◌++◌, ◌∷◌, [], OnOk, IfOk, map, sum_by};
ghost use Rattle.gq_model.specs.machine.Program.{Do, Done, size};
ghost use Rattle.gq_model.specs.texts.Code.{greatest_statements};
ghost use Rattle.gq_program.specs.Statement_trees.{tree_of};
ghost use Rattle.gq_races.specs.Races as spec;
ghost use Rattle.gq_races.specs.Races.{for_several, found_in, is_own};
ghost use Rattle.gq_races.specs.Race_text as text;
ghost use Rattle.gq_races.specs.Race_text.{has_effect, reaction_lines, reaction_text, section_lines, sections_lines};
ghost use Rattle.gq_races.specs.internal.Conflicts as conflict;
ghost use Rattle.gq_races.specs.internal.Kind_lines.{effect_line};
ghost use Rattle.gq_views.specs.Listing.{joined, line};

use crate::statement_prefix::prefix_of;
use gq_model::program::{Instruction, OperandSlot, OperandStatement, WithNumber};
use gq_model::section::Section;
use gq_program::program_tree::{Body, Program, Statement};
use gq_views::instruction_text::push_instruction;
use gq_views::listing::push_heading;
use itoa::Buffer;
use std::alloc::{AllocError, Global};

// Whether a place is an own slot.
fn is_own(place: OperandSlot) -> bool
    ensures { result ≡ is_own place }
{
    match place {
        OperandSlot::Own(_) => true,
        OperandSlot::Shared(_) | OperandSlot::Object => false,
    }
}

/// Whether a statement changes an own slot, what is in it or what is behind it.
pub fn changes_own(instruction: &Instruction) -> bool
    ensures { result ≡ spec.changes_own instruction.now }
{
    match instruction {
        Instruction::Store(_, place)
        | Instruction::Take(place)
        | Instruction::Give(place)
        | Instruction::Poke(place)
        | Instruction::Call(place)
        | Instruction::Make(_, place, _)
        | Instruction::MakePool(place, _, _)
        | Instruction::Free(place)
        | Instruction::Open(place, _, _)
        | Instruction::Upgrade(place, _)
        | Instruction::Close(place) => is_own(*place),
        _ => false,
    }
}

// Whether a statement reads an input.
fn reads_input(instruction: &Instruction) -> bool
    ensures { result ≡ spec.reads_input instruction.now }
{
    matches!(
        instruction,
        Instruction::Operands(OperandStatement::Numbered(WithNumber::Input, _))
    )
}

// Whether a statement writes a line.
fn writes_line(instruction: &Instruction) -> bool
    ensures { result ≡ spec.writes_line instruction.now }
{
    matches!(instruction, Instruction::Say(_) | Instruction::Out)
}

// Whether a statement is a race or an order, where its section may run for several threads.
pub(crate) fn conflicts(instruction: &Instruction) -> bool
    ensures { result ≡ conflict.conflicts instruction.now }
{
    changes_own(instruction) || writes_line(instruction)
}

// Whether a statement is a race, an input or an order, in a section that may run for several threads, or for one alone.
fn has_effect(several: bool, instruction: &Instruction) -> bool
    ensures { result ≡ has_effect several instruction.now }
{
    reads_input(instruction) || several && conflicts(instruction)
}

// What a race, an input or an order is called.
fn word_of(instruction: &Instruction) -> &'static [u8]
    ensures { result.now ≡ text.word_of instruction.now }
{
    if writes_line(instruction) {
        b"order "
    } else if reads_input(instruction) {
        b"input "
    } else {
        b"race "
    }
}

// The line of a statement with its number.
fn push_effect(
    text: &mut Vec<u8>,
    prefix: &[u8],
    number: usize,
    instruction: &Instruction,
) -> Result<(), AllocError>
    ensures { OnOk result (text.new.items ≡ text.old.items ++ line 0 (effect_line prefix.now (number, instruction.now))) }
{
    text.extend_from_slice(word_of(instruction))?;
    text.extend_from_slice(prefix)?;
    text.extend_from_slice(Buffer::new().format(number as u64).as_bytes())?;
    text.extend_from_slice(b" ")?;
    push_instruction(text, instruction)?;
    text.extend_from_slice(b"\n")
}

// The line of a statement without statements in it, if it has one.
fn push_if_effect(
    text: &mut Vec<u8>,
    prefix: &[u8],
    several: bool,
    number: usize,
    instruction: &Instruction,
) -> Result<(), AllocError>
    ensures { OnOk result (text.new.items ≡ text.old.items
        ++ joined (map (effect_line prefix.now) (found_in (has_effect several) number (Do instruction.now Done)))) }
{
    if has_effect(several, instruction) {
        push_effect(text, prefix, number, instruction)
    } else {
        Ok(())
    }
}

// The lines of a statement with this number, and of those in it; returns the number of the next.
#[cycle(effects)]
fn push_effects_in(
    text: &mut Vec<u8>,
    prefix: &[u8],
    several: bool,
    number: usize,
    statement: &Statement,
) -> Result<usize, AllocError>
    requires { number + size (tree_of (statement.now ∷ [])) ≤ 65536 }
    ensures lines { OnOk result (text.new.items ≡ text.old.items
        ++ joined (map (effect_line prefix.now) (found_in (has_effect several) number (tree_of (statement.now ∷ []))))) }
    ensures next { IfOk result (λ next. next ≡ number + size (tree_of (statement.now ∷ []))) }
{
    match statement {
        Statement::Plain(instruction) => {
            push_if_effect(text, prefix, several, number, instruction)?;
            Ok(number + 1)
        }
        Statement::If(arm, other) => {
            let between = push_effects(text, prefix, several, number + 1, arm)?;
            push_effects(text, prefix, several, between, other)
        }
        Statement::Loop(_, body) => push_effects(text, prefix, several, number + 1, body),
    }
}

// The lines of the statements of a list whose first has this number; returns the number of the next.
#[cycle(effects)]
fn push_effects(
    text: &mut Vec<u8>,
    prefix: &[u8],
    several: bool,
    first: usize,
    body: &Body,
) -> Result<usize, AllocError>
    requires { first + size body.now ≤ 65536 }
    ensures lines { OnOk result (text.new.items ≡ text.old.items ++ joined (map (effect_line prefix.now) (found_in (has_effect several) first body.now))) }
    ensures next { IfOk result (λ next. next ≡ first + size body.now) }
{
    let mut number = first;
    for statement in body.statements() {
        number = push_effects_in(text, prefix, several, number, statement)?;
    }
    Ok(number)
}

// Whether a section of a leaf that is shared, or not, may run for several threads.
fn for_several(shared: bool, section: Section) -> bool
    ensures { result ≡ for_several shared section }
{
    shared && !section.is_start()
}

// Whether a signal begins a section.
fn is_reaction(section: Section) -> bool
    ensures { result ≡ spec.is_reaction section }
{
    matches!(section, Section::Reacting(_))
}

// The line of a section that a signal begins.
fn push_reaction(text: &mut Vec<u8>, label: &[u8], section: Section) -> Result<(), AllocError>
    ensures { OnOk result (text.new.items ≡ text.old.items ++ joined (reaction_text label.now section ∷ [])) }
{
    text.extend_from_slice(b"signal ")?;
    text.extend_from_slice(label)?;
    text.extend_from_slice(b" in ")?;
    push_heading(text, section)?;
    text.extend_from_slice(b"\n")
}

// The line of a section, if a signal begins it.
fn push_if_reaction(text: &mut Vec<u8>, label: &[u8], section: Section) -> Result<(), AllocError>
    ensures { OnOk result (text.new.items ≡ text.old.items ++ joined (reaction_lines label.now section)) }
{
    if is_reaction(section) {
        push_reaction(text, label, section)
    } else {
        Ok(())
    }
}

// The lines of a section of a leaf that is shared, or not.
fn push_section(
    alloc: Global,
    text: &mut Vec<u8>,
    label: &[u8],
    shared: bool,
    section: Section,
    body: &Body,
) -> Result<(), AllocError>
    requires { size body.now ≤ 4096 }
    ensures { OnOk result (text.new.items ≡ text.old.items ++ joined (section_lines shared label.now section body.now)) }
{
    push_if_reaction(text, label, section)?;
    let several = for_several(shared, section);
    let prefix = prefix_of(alloc, label, section)?;
    let pushed = push_effects(text, prefix.as_slice(), several, 1, body);
    drop(prefix);
    match pushed {
        Ok(_) => Ok(()),
        Err(refused) => Err(refused),
    }
}

// The lines of sections.
fn push_sections(
    alloc: Global,
    text: &mut Vec<u8>,
    label: &[u8],
    shared: bool,
    sections: &[(Section, Body)],
) -> Result<(), AllocError>
    requires { sum_by (λ p. size p.1) sections.now ≤ greatest_statements }
    ensures { OnOk result (text.new.items ≡ text.old.items ++ joined (sections_lines shared label.now sections.now)) }
{
    for (section, body) in sections {
        push_section(alloc, text, label, shared, *section, body)?;
    }
    Ok(())
}

// The lines of the sections of a program, of a leaf that is shared or not.
pub(crate) fn push_leaf_effects(
    alloc: Global,
    text: &mut Vec<u8>,
    label: &[u8],
    shared: bool,
    program: &Program,
) -> Result<(), AllocError>
    ensures { OnOk result (text.new.items ≡ text.old.items ++ joined (sections_lines shared label.now program.now.sections)) }
{
    program.laws();
    push_sections(alloc, text, label, shared, program.sections())
}

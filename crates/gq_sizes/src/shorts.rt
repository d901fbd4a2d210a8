// Statements that open sessions for less than they need, whatever the interfaces say.
ghost use Rattle.std.specs.Prelude.{◌≡◌, ◌≤◌, ◌+◌, ◌++◌, ◌∷◌, [], List, IfOk, OnOk, map, option_map, slice_get, sum_by};
ghost use Rattle.gq_model.specs.machine.Program.{size};
ghost use Rattle.gq_model.specs.machine.Scenario as model;
ghost use Rattle.gq_model.specs.texts.Code.{greatest_statements};
ghost use Rattle.gq_program.specs.Statement_trees.{tree_of};
ghost use Rattle.gq_sizes.specs.Size.{Gift, all_short, open_at, opens_from};
ghost use Rattle.gq_sizes.specs.Point_maxima.{given_in};
ghost use Rattle.gq_sizes.specs.Saturated_tables.{ram_rows};
ghost use Rattle.gq_sizes.specs.internal.Short_lines.{leaves_by, line_by, lines_by, program_by, sections_by, short_prefix, short_text};

use crate::interface_lines::Sums;
use crate::point_maxima::LEVELS;
use gq_program::program_tree::{Body, Program, Statement};
use gq_program::{Instruction, Interfaces, Section};
use gq_resolve::component::Component;
use gq_views::listing::push_heading;
use gq_views::view_words::{end_line, push_entry, push_number};
use std::alloc::AllocError;

/// What statements of a section of a leaf are reported by: of each interface the sums that its sessions need at least.
#[derive(Clone, Copy)]
struct Opens<'a> {
    interfaces: &'a Interfaces,
    sums: &'a [[u64; LEVELS]],
    label: &'a [u8],
    section: Section,
}

impl<'a> Opens<'a> {
    /// The least that a session of a service needs to be opened; nothing where it has no interface.
    fn least(&self, service: &[u8]) -> u64
        ensures { result ≡ given_in self.now.interfaces.now self.now.sums.now service.now 0 }
    {
        match self.interfaces.place(service) {
            Some(place) => match self.sums.get(place) {
                Some(sums) => sums[0],
                None => 0,
            },
            None => 0,
        }
    }

    /// Puts the leaf and the section at the end of a text.
    fn push_prefix(&self, text: &mut Vec<u8>) -> Result<(), AllocError>
        ensures { OnOk result (text.new.items ≡ text.old.items ++ short_prefix self.now.label.now self.now.section) }
    {
        text.extend_from_slice(b"short ")?;
        text.extend_from_slice(self.label)?;
        text.extend_from_slice(b" in ")?;
        push_heading(text, self.section)
    }

    /// Puts the line of a statement that gives so much for a session that needs more at the end of a text.
    fn push_short(
        &self,
        text: &mut Vec<u8>,
        number: usize,
        gives: u64,
        least: u64,
    ) -> Result<(), AllocError>
        ensures { OnOk result (text.new.items ≡ text.old.items ++ short_text self.now.label.now self.now.section number gives least) }
    {
        self.push_prefix(text)?;
        text.extend_from_slice(b" at ")?;
        push_number(text, number as u64)?;
        push_entry(text, b"gives", gives)?;
        push_entry(text, b"least", least)?;
        end_line(text)
    }

    /// Puts the line of a statement that gives so much for a session of a service at the end of a text, where that is less than it needs.
    fn push_open(
        &self,
        text: &mut Vec<u8>,
        number: usize,
        service: &[u8],
        gives: u64,
    ) -> Result<(), AllocError>
        ensures { OnOk result (text.new.items ≡ text.old.items
            ++ line_by (given_in self.now.interfaces.now self.now.sums.now) self.now.label.now self.now.section (number, service.now, gives)) }
    {
        let least = self.least(service);
        if gives < least {
            self.push_short(text, number, gives, least)
        } else {
            Ok(())
        }
    }

    /// Puts the line of a statement without statements in it at the end of a text, where it opens a session for less than it needs.
    fn push_plain(
        &self,
        text: &mut Vec<u8>,
        number: usize,
        instruction: &Instruction,
    ) -> Result<(), AllocError>
        ensures { OnOk result (text.new.items ≡ text.old.items
            ++ lines_by (given_in self.now.interfaces.now self.now.sums.now) self.now.label.now self.now.section (open_at number instruction.now)) }
    {
        match instruction {
            Instruction::Open(_, service, gives) => {
                self.push_open(text, number, service.as_bytes(), u64::from(*gives))
            }
            _ => Ok(()),
        }
    }
}

/// The lines of a statement with this number, and of those in it; reports the number of the next.
#[cycle(statements)]
fn push_statement(
    text: &mut Vec<u8>,
    opens: &Opens<'_>,
    number: usize,
    statement: &Statement,
) -> Result<usize, AllocError>
    requires { number + size (tree_of (statement.now ∷ [])) ≤ 65536 }
    ensures lines { OnOk result (text.new.items ≡ text.old.items
        ++ lines_by (given_in opens.now.interfaces.now opens.now.sums.now) opens.now.label.now opens.now.section
        (opens_from number (tree_of (statement.now ∷ [])))) }
    ensures next { IfOk result (λ next. next ≡ number + size (tree_of (statement.now ∷ []))) }
{
    match statement {
        Statement::Plain(instruction) => {
            opens.push_plain(text, number, instruction)?;
            Ok(number + 1)
        }
        Statement::If(arm, other) => {
            let between = push_body(text, opens, number + 1, arm)?;
            push_body(text, opens, between, other)
        }
        Statement::Loop(_, body) => push_body(text, opens, number + 1, body),
    }
}

/// The lines of the statements of a list whose first has this number; reports the number of the next.
#[cycle(statements)]
fn push_body(
    text: &mut Vec<u8>,
    opens: &Opens<'_>,
    first: usize,
    body: &Body,
) -> Result<usize, AllocError>
    requires { first + size body.now ≤ 65536 }
    ensures lines { OnOk result (text.new.items ≡ text.old.items
        ++ lines_by (given_in opens.now.interfaces.now opens.now.sums.now) opens.now.label.now opens.now.section (opens_from first body.now)) }
    ensures next { IfOk result (λ next. next ≡ first + size body.now) }
{
    let mut number = first;
    for statement in body.statements() {
        number = push_statement(text, opens, number, statement)?;
    }
    Ok(number)
}

/// The lines of sections of a leaf with this label.
fn push_sections(
    text: &mut Vec<u8>,
    interfaces: &Interfaces,
    sums: &[[u64; LEVELS]],
    label: &[u8],
    sections: &[(Section, Body)],
) -> Result<(), AllocError>
    requires { sum_by (λ p. size p.1) sections.now ≤ greatest_statements }
    ensures { OnOk result (text.new.items ≡ text.old.items ++ sections_by (given_in interfaces.now sums.now) label.now sections.now) }
{
    for (section, body) in sections {
        let opens = Opens {
            interfaces,
            sums,
            label,
            section: *section,
        };
        push_body(text, &opens, 1, body)?;
    }
    Ok(())
}

/// The lines of the sections of a program, where there is one, whose leaf has this label.
fn push_program(
    text: &mut Vec<u8>,
    interfaces: &Interfaces,
    sums: &[[u64; LEVELS]],
    label: &[u8],
    program: Option<&Program>,
) -> Result<(), AllocError>
    ensures { OnOk result (text.new.items ≡ text.old.items
        ++ program_by (given_in interfaces.now sums.now) label.now (option_map (λ p. p.now) program.entry)) }
{
    match program {
        Some(program) => {
            program.laws();
            push_sections(text, interfaces, sums, label, program.sections())
        }
        None => Ok(()),
    }
}

/// The program at a place, if there is one.
fn program_at(programs: &[Program], place: usize) -> Option<&Program>
    ensures { option_map (λ p. p.now) result ≡ slice_get programs.now place }
{
    programs.get(place)
}

/// The lines of leaves, which have these programs.
fn push_leaves(
    text: &mut Vec<u8>,
    interfaces: &Interfaces,
    sums: &[[u64; LEVELS]],
    components: &[Component<'_>],
    programs: &[Program],
) -> Result<(), AllocError>
    ensures { programs.now ≡ map (λ c. c.node.program) components.now
        → OnOk result (text.new.items ≡ text.old.items ++ leaves_by (given_in interfaces.now sums.now) components.now) }
{
    for (place, component) in components.iter().enumerate() {
        push_program(
            text,
            interfaces,
            sums,
            component.label(),
            program_at(programs, place),
        )?;
    }
    Ok(())
}

/// Puts the lines of the statements of all leaves that open sessions for less than they need at the end of a text.
pub(crate) fn push_shorts(
    text: &mut Vec<u8>,
    interfaces: &Interfaces,
    sums: &Sums,
    components: &[Component<'_>],
    programs: &[Program],
) -> Result<(), AllocError>
    ensures { (all : model.System) (given : List Gift) → components.now ≡ all.components
        → programs.now ≡ map (λ c. c.node.program) all.components → interfaces.now ≡ all.interfaces
        → sums.now.ram.items ≡ ram_rows all given interfaces.now
        → OnOk result (text.new.items ≡ text.old.items ++ all_short all given all.components) }
{
    push_leaves(text, interfaces, sums.ram.as_slice(), components, programs)
}

// The statements of a program with their numbers, each with where a leaf goes on after it.
ghost use Rattle.std.specs.Prelude.{◌≡◌, ◌<◌, ◌≤◌, ◌∷◌, [], List, IsTrue, OnOk, IfOk};
ghost use Rattle.gq_model.specs.declared.section.Section.{Section};
ghost use Rattle.gq_model.specs.machine.Program.{Statements, body_of, section_in, size};
ghost use Rattle.gq_model.specs.texts.Code.{is_body};
ghost use Rattle.gq_program.specs.Statement_trees.{tree_of};
ghost use Rattle.gq_views.specs.Listing.{instruction_text};
ghost use Rattle.gq_traces.specs.internal.Flat.{AreParts, ArePrograms, IsPart, IsProgramOf, Puts, PutsEntry, PutsSection, programs_of};

use gq_model::program::Instruction;
use gq_model::section::{Section, same_section};
use gq_program::program_tree::{Body, Program, Statement};
use gq_resolve::NodeTable;
use gq_views::instruction_text::push_instruction;
use std::alloc::{AllocError, Global};

/// Where a leaf goes on: at an entry of its program, or at the end of its list of statements.
pub(crate) type Next = Option<usize>;

/// What a statement is, and where a leaf goes on after it.
#[derive(Drop)]
pub(crate) enum Way {
    /// One with no statement in it, with its text.
    Plain(Vec<u8>, Next),
    /// An `if`: the first statement of the first arm, and that of the second.
    If(Next, Next),
    /// A loop: how often it goes round, the first statement of its body, and what follows the loop.
    Loop(u16, Next, Next),
}

/// A statement with its number in the text of its section.
#[derive(Drop)]
pub(crate) struct NumberedStatement {
    pub number: usize,
    pub way: Way,
}

/// A section: its first statement, and how many it has.
#[derive(Clone, Copy)]
pub(crate) struct NumberedSection {
    pub section: Section,
    pub first: Next,
    pub size: u32,
}

/// The statements of a program with their numbers, made once before the first turn.
#[derive(Drop)]
pub(crate) struct NumberedProgram {
    pub entries: Vec<NumberedStatement>,
    parts: Vec<NumberedSection>,
    // From each entry on, how many statements stand one after the other that a leaf takes alone, as far as it reports: this says how far to look, and no more.
    alone: Vec<u32>,
    // While a section is put: how many statements of it are left.
    left: usize,
}

// How many statements a statement is, with those in it.
#[cycle(sizes)]
fn size_of(statement: &Statement) -> usize
    requires { size (tree_of (statement.now ∷ [])) ≤ 4096 }
    ensures { result ≡ size (tree_of (statement.now ∷ [])) }
{
    match statement {
        Statement::Plain(_) => 1,
        Statement::If(arm, other) => 1 + size_of_all(arm) + size_of_all(other),
        Statement::Loop(_, body) => 1 + size_of_all(body),
    }
}

// How many statements a list has, with those in them.
#[cycle(sizes)]
fn size_of_all(body: &Body) -> usize
    requires { size body.now ≤ 4096 }
    ensures { result ≡ size body.now }
{
    let mut count = 0;
    for statement in body.statements() {
        count += size_of(statement);
    }
    count
}

// Whether a leaf takes the step of an instruction alone: those on operands alone.
fn is_alone(instruction: &Instruction) -> bool {
    matches!(instruction, Instruction::Operands(_))
}

// The text of a statement.
fn text_of(alloc: Global, instruction: &Instruction) -> Result<Vec<u8>, AllocError>
    ensures { IfOk result (λ text. text.items ≡ instruction_text instruction.now) }
{
    let mut text = Vec::new(alloc);
    push_instruction(&mut text, instruction)?;
    Ok(text)
}

impl NumberedProgram {
    // A program of which no section is numbered.
    fn new(alloc: Global) -> NumberedProgram
        ensures entries { result.entries.items ≡ [] }
        ensures parts { result.parts.items ≡ [] }
    {
        NumberedProgram {
            entries: Vec::new(alloc),
            parts: Vec::new(alloc),
            alone: Vec::new(alloc),
            left: 0,
        }
    }

    // Puts a statement after which a leaf goes on there, and those in it. It returns where it stands.
    #[cycle(entries)]
    fn put(&mut self, alloc: Global, statement: &Statement, next: Next) -> Result<Next, AllocError>
        requires { size (tree_of (statement.now ∷ [])) ≤ self.old.left }
        ensures { IfOk result (λ first. Puts self.old self.new (tree_of (statement.now ∷ [])) next first) }
    {
        let alone = self.alone_with(statement, next);
        let way = match statement {
            Statement::Plain(instruction) => Way::Plain(text_of(alloc, instruction)?, next),
            Statement::If(arm, other) => {
                let other = self.put_all(alloc, other, next)?;
                let arm = self.put_all(alloc, arm, next)?;
                Way::If(arm, other)
            }
            Statement::Loop(count, body) => {
                let body = self.put_all(alloc, body, None)?;
                Way::Loop(*count, body, next)
            }
        };
        self.put_entry(way, alone)
    }

    // How many statements stand one after the other that a leaf takes alone, from a statement on after which it goes on there.
    fn alone_with(&self, statement: &Statement, next: Next) -> u32 {
        match statement {
            Statement::Plain(instruction) => {
                if is_alone(instruction) {
                    self.alone_from(next).saturating_add(1)
                } else {
                    0
                }
            }
            Statement::If(_, _) | Statement::Loop(_, _) => 1,
        }
    }

    /// How many steps a leaf that goes on there may take alone, one after the other, as far as the program reports. It says how far to look, and no more.
    #[inline(always)]
    pub(crate) fn alone_from(&self, next: Next) -> u32 {
        match next {
            None => 1,
            Some(place) => match self.alone.get(place) {
                None => 0,
                Some(alone) => *alone,
            },
        }
    }

    // Puts the entry of the last statement that is left. It returns where it stands.
    fn put_entry(&mut self, way: Way, alone: u32) -> Result<Next, AllocError>
        requires { 0 < self.old.left }
        ensures { IfOk result (λ first. PutsEntry self.old self.new way first) }
    {
        self.alone.push(alone)?;
        let place = self.entries.len();
        self.entries.push(NumberedStatement {
            number: self.left,
            way,
        })?;
        self.left -= 1;
        Ok(Some(place))
    }

    // Puts the statements of a list, after which a leaf goes on there, the last one first. It reports where the first one stands, or where a leaf goes on, if
    // there is none.
    #[cycle(entries)]
    fn put_all(&mut self, alloc: Global, body: &Body, next: Next) -> Result<Next, AllocError>
        requires { size body.now ≤ self.old.left }
        ensures { IfOk result (λ first. Puts self.old self.new body.now next first) }
    {
        let mut next = next;
        let statements = body.statements();
        let mut rest = statements.len();
        while rest > 0 {
            rest -= 1;
            next = self.put(alloc, &statements[rest], next)?;
        }
        Ok(next)
    }

    // Puts a section.
    fn put_section(
        &mut self,
        alloc: Global,
        section: Section,
        body: &Body,
    ) -> Result<(), AllocError>
        requires few { size body.now ≤ 4096 }
        requires deep { IsTrue (is_body 4 body.now) }
        ensures { OnOk result (PutsSection self.old self.new section body.now) }
    {
        let size = size_of_all(body);
        self.left = size;
        let first = self.put_all(alloc, body, None)?;
        self.parts.push(NumberedSection {
            section,
            first,
            size: size as u32,
        })?;
        Ok(())
    }

    /// The statements of a program. Refused only if the host refuses memory.
    fn of(alloc: Global, program: &Program) -> Result<NumberedProgram, AllocError>
        ensures { IfOk result (λ n. IsProgramOf n program.now) }
    {
        program.laws();
        let mut numbered = NumberedProgram::new(alloc);
        for (section, body) in program.sections() {
            numbered.put_section(alloc, *section, body)?;
        }
        Ok(numbered)
    }

    /// A section. One that is not there has no statement.
    pub(crate) fn part(&self, section: Section) -> NumberedSection
        ensures { (sections : List (Section × Statements)) → AreParts self.now sections → IsPart self.now (body_of (section_in section sections)) result }
    {
        let parts = self.parts.as_slice();
        for k in 0..parts.len() {
            if same_section(section, parts[k].section) {
                return parts[k];
            }
        }
        NumberedSection {
            section,
            first: None,
            size: 0,
        }
    }
}

/// The statements of all leaves' programs. Refused only if the host refuses memory.
pub(crate) fn all_numbered(
    alloc: Global,
    table: &NodeTable,
) -> Result<Vec<NumberedProgram>, AllocError>
    ensures { IfOk result (λ all. ArePrograms all.items (programs_of table.now)) }
{
    let mut all = Vec::new(alloc);
    for program in table.programs() {
        all.push(NumberedProgram::of(alloc, program)?)?;
    }
    Ok(all)
}

// What a leaf asks next, at each place of its program.
ghost use Rattle.std.specs.Prelude.{◌≡◌, ◌<◌, ◌≤◌, ◌∷◌, [], ℕ, List, Option, IfOk, get_or};
ghost use Rattle.gq_bytecode.specs.Bytecode_layout.{width};
ghost use Rattle.gq_model.specs.declared.section.Section.{Section};
ghost use Rattle.gq_model.specs.machine.Program as model;
ghost use Rattle.gq_model.specs.machine.Program.{Statements, body_of, section_in};
ghost use Rattle.gq_program.specs.Statement_trees.{tree_of};
ghost use Rattle.gq_views.specs.internal.Table_leaves.{served_by};
ghost use Rattle.gq_outcomes.specs.internal.Asks.{AreOfSections, IsOfSection, asked, asks_of};
ghost use Rattle.gq_outcomes.specs.internal.Left.{ahead, ahead_in};

use crate::statement_key::{width, width_of};
use gq_model::program::{Instruction, OperandSlot};
use gq_model::section::{Section, same_section};
use gq_program::program_tree::{Body, Statement};
use gq_scenario::scenario::LeafNo;
use gq_views::table_leaf::TableLeaf;
use std::alloc::{AllocError, Global};

/// What comes next for a leaf.
#[derive(Clone, Copy)]
pub(crate) enum Asks {
    /// No statement.
    Nothing,
    /// A statement that opens a session with this server.
    Opens(Option<usize>),
    /// A statement that makes a request of the session in this slot.
    Names(OperandSlot),
    /// Another statement, or the end of a round of a loop.
    Other,
}

/// What comes next at each place of a section.
#[derive(Drop)]
pub(crate) struct SectionAsks {
    pub section: Section,
    pub asks: Vec<Asks>,
}

// The number of a leaf that is found.
fn index_of(leaf: Option<LeafNo>) -> Option<usize>
    ensures { result ≡ leaf }
{
    match leaf {
        None => None,
        Some(leaf) => Some(leaf.index()),
    }
}

// What an instruction asks.
fn asked(client: &TableLeaf<'_>, instruction: &Instruction) -> Asks
    ensures { result ≡ asked (served_by client.now) instruction.now }
{
    match instruction {
        Instruction::Open(_, service, _) => { Asks::Opens(index_of(client.server(service))) }
        Instruction::Upgrade(slot, _) | Instruction::Call(slot) | Instruction::Close(slot) => {
            Asks::Names(*slot)
        }
        _ => Asks::Other,
    }
}

// What a statement asks.
fn asked_by(client: &TableLeaf<'_>, statement: &Statement) -> Asks
    ensures { result ≡ asks_of (served_by client.now) (ahead (tree_of (statement.now ∷ []))) }
{
    match statement {
        Statement::Plain(instruction) => asked(client, instruction),
        Statement::If(_, _) | Statement::Loop(_, _) => Asks::Other,
    }
}

// What the first of these statements asks.
fn first_asked(client: &TableLeaf<'_>, statements: &[Statement]) -> Asks
    ensures { result ≡ asks_of (served_by client.now) (ahead (tree_of statements.now)) }
{
    match statements {
        [] => Asks::Nothing,
        [first, ..] => asked_by(client, first),
    }
}

// What comes next at a place of a statement: nothing, if that is where it ends.
#[cycle(asks)]
#[tactic(auto, using(crate::proofs::keys::Asked::inside_rules))]
fn asked_inside(client: &TableLeaf<'_>, statement: &Statement, place: usize) -> Asks
    requires inside { place < width (tree_of (statement.now ∷ [])) }
    requires small { width (tree_of (statement.now ∷ [])) ≤ 65536 }
    ensures { result ≡ asks_of (served_by client.now) (ahead_in (tree_of (statement.now ∷ [])) place) }
{
    if place == 0 {
        return asked_by(client, statement);
    }
    match statement {
        Statement::Plain(_) => Asks::Nothing,
        Statement::If(arm, other) => {
            let first = width(arm.statements());
            if place <= first + 1 {
                asked_at(client, arm.statements(), place - 1)
            } else {
                asked_at(client, other.statements(), place - first - 2)
            }
        }
        Statement::Loop(_, body) => {
            match asked_at(client, body.statements(), place - 1) {
                Asks::Nothing => Asks::Other,
                asks => asks,
            }
        }
    }
}

// What comes next at a place of statements.
#[cycle(asks)]
#[tactic(auto, using(crate::proofs::keys::Asked::along_rules))]
fn asked_at(client: &TableLeaf<'_>, statements: &[Statement], place: usize) -> Asks
    requires { width (tree_of statements.now) ≤ 65536 }
    ensures { result ≡ asks_of (served_by client.now) (ahead_in (tree_of statements.now) place) }
{
    let mut left = place;
    for number in 0..statements.len() {
        let statement = &statements[number];
        let width = width_of(statement);
        if left < width {
            return match asked_inside(client, statement, left) {
                Asks::Nothing => first_asked(client, &statements[number + 1..]),
                asks => asks,
            };
        }
        left -= width;
    }
    Asks::Nothing
}

// What comes next at each place of a section.
fn section_asks(
    alloc: Global,
    client: &TableLeaf<'_>,
    section: Section,
    body: &Body,
) -> Result<SectionAsks, AllocError>
    requires { width body.now ≤ 65536 }
    ensures { IfOk result (λ s. IsOfSection (served_by client.now) (section, body.now) s) }
{
    let mut asks = Vec::new(alloc);
    for place in 0..width(body.statements()) + 1 {
        asks.push(asked_at(client, body.statements(), place))?;
    }
    Ok(SectionAsks { section, asks })
}

/// What comes next at each place of a leaf's program. Refused only if the host refuses memory.
pub(crate) fn program_asks(
    alloc: Global,
    client: &TableLeaf<'_>,
) -> Result<Vec<SectionAsks>, AllocError>
    ensures { IfOk result (λ all. AreOfSections (served_by client.now) client.now.component.node.program.sections all.items) }
{
    let program = client.program();
    program.laws();
    let mut all = Vec::new(alloc);
    for (section, body) in program.sections() {
        all.push(section_asks(alloc, client, *section, body)?)?;
    }
    Ok(all)
}

// What comes next at a place among these: nothing past their end.
fn asks_of_place(asks: &[Asks], place: usize) -> Asks
    ensures { result ≡ get_or asks.now place Asks.Nothing }
{
    match asks.get(place) {
        None => Asks::Nothing,
        Some(asks) => *asks,
    }
}

/// What comes next at a place of a section of a program that asks so.
pub(crate) fn asks_at(program: &[SectionAsks], section: Section, place: usize) -> Asks
    ensures { (server : List ℕ → Option ℕ) (sections : List (Section × Statements)) → AreOfSections server sections program.now
        → result ≡ asks_of server (ahead_in (body_of (section_in section sections)) place) }
{
    for part in program {
        if same_section(section, part.section) {
            return asks_of_place(part.asks.as_slice(), place);
        }
    }
    Asks::Nothing
}

// Programs that are the same but for what their statements give.
ghost use Rattle.std.specs.Prelude.{◌≡◌, ◌∷◌, [], IsTrue, map};
ghost use Rattle.gq_program.specs.Statement_trees.{tree_of};
ghost use Rattle.gq_fit.specs.Refitted.{giving_nothing, program_giving_nothing, section_giving_nothing, statements_giving_nothing};

use gq_model::program::Instruction;
use gq_model::section::Section;
use gq_model::spelling::same_text;
use gq_program::program_tree::{Body, Program, Statement};

/// Whether two statements without statements in them are the same but for what they give.
fn same_instruction(a: &Instruction, b: &Instruction) -> bool
    ensures same { IsTrue result → giving_nothing a.now ≡ giving_nothing b.now }
    ensures only { giving_nothing a.now ≡ giving_nothing b.now → IsTrue result }
{
    match (a, b) {
        (Instruction::Say(a), Instruction::Say(b)) => same_text(a.as_bytes(), b.as_bytes()),
        (Instruction::Out, Instruction::Out) => true,
        (Instruction::Operands(a), Instruction::Operands(b)) => a == b,
        (Instruction::Make(f, a, n), Instruction::Make(g, b, m)) => f == g && a == b && n == m,
        (Instruction::MakePool(a, n, k), Instruction::MakePool(b, m, l)) => a == b
            && n == m
            && k == l,
        (Instruction::Load(v, a), Instruction::Load(w, b)) => v == w && a == b,
        (Instruction::Store(v, a), Instruction::Store(w, b)) => v == w && a == b,
        (Instruction::Free(a), Instruction::Free(b)) => a == b,
        (Instruction::Take(a), Instruction::Take(b)) => a == b,
        (Instruction::Give(a), Instruction::Give(b)) => a == b,
        (Instruction::Peek(a), Instruction::Peek(b)) => a == b,
        (Instruction::Poke(a), Instruction::Poke(b)) => a == b,
        (Instruction::Open(a, s, _), Instruction::Open(b, t, _)) => {
            a == b && same_text(s.as_bytes(), t.as_bytes())
        }
        (Instruction::Upgrade(a, _), Instruction::Upgrade(b, _)) => a == b,
        (Instruction::Call(a), Instruction::Call(b)) => a == b,
        (Instruction::Close(a), Instruction::Close(b)) => a == b,
        _ => false,
    }
}

/// Whether two lists of statements are the same but for what they give.
#[cycle(statements)]
fn same_list(a: &[Statement], b: &[Statement]) -> bool
    ensures same { IsTrue result → statements_giving_nothing (tree_of a.now) ≡ statements_giving_nothing (tree_of b.now) }
    ensures only { statements_giving_nothing (tree_of a.now) ≡ statements_giving_nothing (tree_of b.now) → IsTrue result }
{
    match (a, b) {
        ([], []) => true,
        ([a, more @ ..], [b, others @ ..]) => same_statement(a, b) && same_list(more, others),
        _ => false,
    }
}

/// Whether the statements of two bodies are the same but for what they give.
#[cycle(statements)]
fn same_body(a: &Body, b: &Body) -> bool
    ensures same { IsTrue result → statements_giving_nothing a.now ≡ statements_giving_nothing b.now }
    ensures only { statements_giving_nothing a.now ≡ statements_giving_nothing b.now → IsTrue result }
{
    same_list(a.statements(), b.statements())
}

/// Whether two statements are the same but for what they and those in them give.
#[cycle(statements)]
fn same_statement(a: &Statement, b: &Statement) -> bool
    ensures same { IsTrue result → statements_giving_nothing (tree_of (a.now ∷ [])) ≡ statements_giving_nothing (tree_of (b.now ∷ [])) }
    ensures only { statements_giving_nothing (tree_of (a.now ∷ [])) ≡ statements_giving_nothing (tree_of (b.now ∷ [])) → IsTrue result }
{
    match (a, b) {
        (Statement::Plain(a), Statement::Plain(b)) => same_instruction(a, b),
        (Statement::If(a, other), Statement::If(b, another)) => {
            same_body(a, b) && same_body(other, another)
        }
        (Statement::Loop(n, a), Statement::Loop(m, b)) => n == m && same_body(a, b),
        _ => false,
    }
}

/// Whether two lists of sections are the same but for what their statements give.
fn same_sections(a: &[(Section, Body)], b: &[(Section, Body)]) -> bool
    ensures same { IsTrue result → map section_giving_nothing a.now ≡ map section_giving_nothing b.now }
    ensures only { map section_giving_nothing a.now ≡ map section_giving_nothing b.now → IsTrue result }
{
    match (a, b) {
        ([], []) => true,
        ([(section, a), more @ ..], [(other, b), others @ ..]) => {
            section == other && same_body(a, b) && same_sections(more, others)
        }
        _ => false,
    }
}

/// Whether two programs are the same but for what their statements give.
fn same_program(a: &Program, b: &Program) -> bool
    ensures same { IsTrue result → program_giving_nothing a.now ≡ program_giving_nothing b.now }
    ensures only { program_giving_nothing a.now ≡ program_giving_nothing b.now → IsTrue result }
{
    a.locals() == b.locals() && same_sections(a.sections(), b.sections())
}

/// Whether two lists of programs are the same but for what their statements give.
pub(crate) fn same_programs(a: &[Program], b: &[Program]) -> bool
    ensures same { IsTrue result → map program_giving_nothing a.now ≡ map program_giving_nothing b.now }
    ensures only { map program_giving_nothing a.now ≡ map program_giving_nothing b.now → IsTrue result }
{
    match (a, b) {
        ([], []) => true,
        ([a, more @ ..], [b, others @ ..]) => same_program(a, b) && same_programs(more, others),
        _ => false,
    }
}

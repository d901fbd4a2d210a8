// Whether a leaf has a race or an order.
ghost use Rattle.std.specs.Prelude.{◌≡◌, ◌&&◌, ◌∷◌, [], not};
ghost use Rattle.gq_model.specs.machine.Sections.{is_start_section};
ghost use Rattle.gq_program.specs.Statement_trees.{tree_of};
ghost use Rattle.gq_races.specs.internal.Conflicts as spec;
ghost use Rattle.gq_races.specs.internal.Conflicts.{conflicts_in};

use crate::effects::conflicts;
use gq_model::section::Section;
use gq_program::program_tree::{Body, Program, Statement};

// Whether a statement, or one in it, is a race or an order, where the section may run for several threads.
#[cycle(conflicts)]
fn has_conflict(statement: &Statement) -> bool
    ensures { result ≡ conflicts_in (tree_of (statement.now ∷ [])) }
{
    match statement {
        Statement::Plain(instruction) => conflicts(instruction),
        Statement::If(arm, other) => has_conflicts(arm) || has_conflicts(other),
        Statement::Loop(_, body) => has_conflicts(body),
    }
}

// Whether a statement of a list is.
#[cycle(conflicts)]
fn has_conflicts(body: &Body) -> bool
    ensures { result ≡ conflicts_in body.now }
{
    for statement in body.statements() {
        if has_conflict(statement) {
            return true;
        }
    }
    false
}

// Whether a section has one, and is not `main`.
fn section_conflicts(section: Section, body: &Body) -> bool
    ensures { result ≡ (not (is_start_section section) && conflicts_in body.now) }
{
    !section.is_start() && has_conflicts(body)
}

// Whether a section of a program other than `main` has one.
#[tactic(auto, using(crate::proofs::Conflicts_left::parts_left, crate::proofs::Conflicts_left::parts_here))]
pub(crate) fn conflicts_later(program: &Program) -> bool
    ensures { result ≡ spec.conflicts_later program.now.sections }
{
    for (section, body) in program.sections() {
        if section_conflicts(*section, body) {
            return true;
        }
    }
    false
}

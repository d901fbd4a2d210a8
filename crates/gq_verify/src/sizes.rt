// How many statements there are.
ghost use Rattle.std.specs.Prelude.{◌≡◌, ◌≤◌, ◌∷◌, []};
ghost use Rattle.gq_model.specs.machine.Program.{size};
ghost use Rattle.gq_program.specs.Statement_trees.{tree_of};

use gq_program::{Body, Statement};

/// The number of statements of a list, those inside others too; there are at most 4096.
#[cycle(counts)]
pub(crate) fn count(body: &Body) -> u64
    requires { size body.now ≤ 4096 }
    ensures { result ≡ size body.now }
{
    let mut sum = 0;
    for statement in body.statements() {
        sum += count_of(statement);
    }
    sum
}

/// The number of statements of a statement and those in it; there are at most 4096.
#[cycle(counts)]
fn count_of(statement: &Statement) -> u64
    requires { size (tree_of (statement.now ∷ [])) ≤ 4096 }
    ensures { result ≡ size (tree_of (statement.now ∷ [])) }
{
    match statement {
        Statement::Plain(_) => 1,
        Statement::If(arm, other) => 1 + count(arm) + count(other),
        Statement::Loop(_, body) => 1 + count(body),
    }
}

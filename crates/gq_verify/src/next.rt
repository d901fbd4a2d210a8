// From statement to statement.
ghost use Rattle.std.specs.Prelude.{◌≡◌, ◌≤◌, ◌-◌, ◌∷◌, [], IsTrue, length};
ghost use Rattle.gq_model.specs.machine.Program.{size};
ghost use Rattle.gq_program.specs.Statement_trees.{tree_of};
ghost use Rattle.gq_verify.specs.Rights.{IsRight};
ghost use Rattle.gq_rules.specs.Flowing.{few_loops};
ghost use Rattle.gq_rules.specs.internal.List_states.{next_state};

use gq_caps::Totals;
use gq_program::Statement;
use gq_rules::flow::flow;
use gq_rules::{AbstractState, Context};

/// What is known before the next statement of a list that breaks no rule.
pub(crate) fn next(context: &Context<'_>, state: &mut AbstractState, statement: &Statement)
    requires few { size (tree_of (statement.now ∷ [])) ≤ 4096 }
    requires loops { IsTrue (few_loops (4 - length context.now.counts) (tree_of (statement.now ∷ []))) }
    requires right { IsRight context.now state.old (tree_of (statement.now ∷ [])) }
    ensures { state.new ≡ next_state context.now state.old statement.now }
{
    match statement {
        Statement::Plain(instruction) => match context.judged(state, instruction) {
            Ok(()) => {}
            Err(_) => unreachable!(),
        },
        Statement::If(arm, _) => {
            state.drop_operands();
            let mut place = 0;
            let mut peaks = Totals::none();
            match flow(context, state, &mut place, &mut peaks, arm) {
                Ok(()) => {}
                Err(_) => unreachable!(),
            }
        }
        Statement::Loop(_, _) => {}
    }
}

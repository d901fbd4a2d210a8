// The points of a section, one after the other.
ghost use Rattle.std.specs.Prelude.{◌≡◌, ◌≤◌, ◌<◌, ◌+◌, ◌-◌, ◌^◌, ◌∷◌, [], ◌++◌, ℕ, IsTrue, length};
ghost use Rattle.gq_model.specs.machine.Program.{size, Done, If, Loop};
ghost use Rattle.gq_model.specs.rules.Flow.{flow, state_or};
ghost use Rattle.gq_model.specs.rules.Kinds.{inside};
ghost use Rattle.gq_program.specs.Statement_trees.{tree_of};
ghost use Rattle.gq_rules.specs.Flowing.{few_loops};
ghost use Rattle.gq_rules.specs.internal.List_states.{chosen, next_state};
ghost use Rattle.gq_verify.specs.Visits.{Sight, At_statement, At_point, Shows, sights, slots_of};
ghost use Rattle.gq_verify.specs.internal.Slot_equal_states.{AreAlike, FromAlike};
ghost use Rattle.gq_verify.specs.internal.Visiting.{sights_in, size_in};

use crate::counting::change_slots;
use gq_program::{Body, Instruction, Statement};
use gq_rules::{AbstractState, Context};

/// What looks at the points of a section, in the order of the walk: its start, then the point after each statement; that after an `if` or a `loop` comes after
/// those inside it. Slots alone are reported: operands may be others than there are.
pub trait Visitor {
    /// What it may be, after what it is, once it is shown this.
    ghost leads: { Self → Sight → Self → Type 0 };

    /// A statement, with what is known before it.
    fn statement(&mut self, context: &Context<'_>, state: &AbstractState, instruction: &Instruction)
        ensures { leads self.old (At_statement context.now (slots_of state.now) instruction.now) self.new };

    /// A point: the number of the statement that it comes after, 0 at the start of the section, and what is known of the slots there.
    fn point(&mut self, number: u64, state: &AbstractState)
        ensures { leads self.old (At_point number (slots_of state.now)) self.new };
}

/// Shows the points after the statements of a list, before which there are `number`, from what is known before it to what is known after it.
#[cycle(visiting)]
pub(crate) fn visit<V: Visitor>(
    context: &Context<'_>,
    state: &mut AbstractState,
    number: &mut u64,
    body: &Body,
    visitor: &mut V,
)
    requires few { number.old + size body.now < 2 ^ 64 }
    requires loops { IsTrue (few_loops (4 - length context.now.counts) body.now) }
    ensures state { FromAlike context.now state.old body.now (λ s. AreAlike state.new (state_or s (flow context.now s body.now))) }
    ensures number { number.new ≡ number.old + size body.now }
    ensures shown { FromAlike context.now state.old body.now (λ s. Shows V.leads visitor.old (sights context.now number.old s body.now) visitor.new) }
{
    for statement in body.statements() {
        visit_statement(context, state, number, statement, visitor);
    }
}

/// Shows the points after a statement and those in it.
#[cycle(visiting)]
fn visit_statement<V: Visitor>(
    context: &Context<'_>,
    state: &mut AbstractState,
    number: &mut u64,
    statement: &Statement,
    visitor: &mut V,
)
    requires few { number.old + (1 + size_in statement.now) < 2 ^ 64 }
    requires loops { IsTrue (few_loops (4 - length context.now.counts) (tree_of (statement.now ∷ []))) }
    ensures state { FromAlike context.now state.old (tree_of (statement.now ∷ [])) (λ s. AreAlike state.new (next_state context.now s statement.now)) }
    ensures number { number.new ≡ number.old + (1 + size_in statement.now) }
    ensures shown { FromAlike context.now state.old (tree_of (statement.now ∷ [])) (λ s. Shows V.leads visitor.old
        (sights_in context.now (number.old + 1) s statement.now ++ At_point (number.old + 1) (slots_of (next_state context.now s statement.now)) ∷ [])
        visitor.new) }
{
    *number += 1;
    let place = *number;
    visit_in(context, state, number, statement, visitor);
    visitor.point(place, state);
}

/// Shows a statement, or the points of those in it.
#[cycle(visiting)]
fn visit_in<V: Visitor>(
    context: &Context<'_>,
    state: &mut AbstractState,
    number: &mut u64,
    statement: &Statement,
    visitor: &mut V,
)
    requires few { number.old + size_in statement.now < 2 ^ 64 }
    requires loops { IsTrue (few_loops (4 - length context.now.counts) (tree_of (statement.now ∷ []))) }
    ensures state { FromAlike context.now state.old (tree_of (statement.now ∷ [])) (λ s. AreAlike state.new (next_state context.now s statement.now)) }
    ensures number { number.new ≡ number.old + size_in statement.now }
    ensures shown { FromAlike context.now state.old (tree_of (statement.now ∷ [])) (λ s.
        Shows V.leads visitor.old (sights_in context.now number.old s statement.now) visitor.new) }
{
    match statement {
        Statement::Plain(instruction) => {
            visitor.statement(context, state, instruction);
            change_slots(context, state, instruction);
        }
        Statement::If(arm, other) => visit_if(context, state, number, arm, other, visitor),
        Statement::Loop(count, body) => visit_loop(context, state, number, *count, body, visitor),
    }
}

/// Shows the points in both arms of an `if`: what is known after it is what is known after the first. It stands alone, so that only an `if` pays for room for a
/// state.
#[cycle(visiting)]
#[inline(never)]
fn visit_if<V: Visitor>(
    context: &Context<'_>,
    state: &mut AbstractState,
    number: &mut u64,
    arm: &Body,
    other: &Body,
    visitor: &mut V,
)
    requires few { number.old + (size arm.now + size other.now) < 2 ^ 64 }
    requires loops { IsTrue (few_loops (4 - length context.now.counts) (If arm.now other.now Done)) }
    ensures state { FromAlike context.now state.old (If arm.now other.now Done) (λ s.
        AreAlike state.new (state_or (chosen s) (flow context.now (chosen s) arm.now))) }
    ensures number { number.new ≡ number.old + (size arm.now + size other.now) }
    ensures shown { FromAlike context.now state.old (If arm.now other.now Done) (λ s. Shows V.leads visitor.old
        (sights context.now number.old (chosen s) arm.now ++ sights context.now (number.old + size arm.now) (chosen s) other.now) visitor.new) }
{
    let mut second = state.copy();
    visit(context, state, number, arm, visitor);
    visit(context, &mut second, number, other, visitor);
}

/// Shows the points in the body of a loop, after which all is known that was known before it. It stands alone, so that only a loop pays for room for a state.
#[cycle(visiting)]
#[inline(never)]
fn visit_loop<V: Visitor>(
    context: &Context<'_>,
    state: &AbstractState,
    number: &mut u64,
    count: u16,
    body: &Body,
    visitor: &mut V,
)
    requires few { number.old + size body.now < 2 ^ 64 }
    requires loops { IsTrue (few_loops (4 - length context.now.counts) (Loop count body.now Done)) }
    ensures number { number.new ≡ number.old + size body.now }
    ensures shown { FromAlike context.now state.now (Loop count body.now Done) (λ s.
        Shows V.leads visitor.old (sights (inside context.now count) number.old s body.now) visitor.new) }
{
    let mut inner = state.copy();
    visit(&context.inside(count), &mut inner, number, body, visitor);
}

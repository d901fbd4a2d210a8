// The rules for lists of statements.
ghost use Rattle.std.specs.Prelude.{◌≡◌, ◌+◌, ◌-◌, ◌<◌, ◌^◌, ◌∷◌, [], ◌++◌, ◌&&◌, true, OnOk, IsTrue, length};
ghost use Rattle.gq_model.specs.machine.Program.{size, Done, Do, If, Loop};
ghost use Rattle.gq_model.specs.rules.Kinds.{inside};
ghost use Rattle.gq_model.specs.rules.Flow.{later, flow, points};
ghost use Rattle.gq_program.specs.Statement_trees.{tree_of};
ghost use Rattle.gq_caps.specs.Measured.{AreFew};
ghost use Rattle.gq_rules.specs.Flowing.{flowed, few_loops};
ghost use Rattle.gq_rules.specs.internal.List_states.{chosen, points_in};
ghost use Rattle.gq_rules.specs.internal.Open_maxima.{PeaksWith};
ghost use Rattle.gq_rules.specs.List_maxima.{Peaks};
ghost use Rattle.gq_program.specs.Notes.{is_still};

use crate::broken::{Broken, at};
use crate::context::Context;
use crate::known_state::AbstractState;
use gq_caps::Totals;
use gq_program::notes::keeps_slots;
use gq_program::{Body, Instruction, Statement};

/// Walks through a list of statements, from what is known before it to what is known after it. Statements are counted on from
/// `place`. A join is judged after what is inside of the arms or the loop. What is measured of the own slots, at the greatest, is kept in
/// `peaks`.
#[cycle(flows)]
pub fn flow(
    context: &Context<'_>,
    state: &mut AbstractState,
    place: &mut u64,
    peaks: &mut Totals,
    body: &Body,
) -> Result<(), Broken>
    requires places { place.old + size body.now < 2 ^ 64 }
    requires loops { IsTrue (few_loops (4 - length context.now.counts) body.now) }
    requires small { AreFew peaks.old }
    ensures flowed { flowed result state.new ≡ later place.old (flow context.now state.old body.now) }
    ensures places { OnOk result (place.new ≡ place.old + size body.now) }
    ensures peaks { OnOk result (Peaks peaks.new peaks.old (points context.now state.old body.now)) }
    ensures small { AreFew peaks.new }
{
    for statement in body.statements() {
        flow_statement(context, state, place, peaks, statement)?;
    }
    peaks.raise(state.own().totals());
    Ok(())
}

/// Judges a statement with no statement in it, and counts it.
#[inline(always)]
fn flow_judged(
    context: &Context<'_>,
    state: &mut AbstractState,
    place: &mut u64,
    instruction: &Instruction,
) -> Result<(), Broken>
    requires { place.old + 1 < 2 ^ 64 }
    ensures flowed { flowed result state.new ≡ later place.old (flow context.now state.old (Do instruction.now Done)) }
    ensures places { OnOk result (place.new ≡ place.old + 1) }
{
    *place += 1;
    at(*place, context.judged(state, instruction))
}

/// Walks through a statement with no statement in it. One that changes no slot leaves what is measured as it was, so it is measured once, by the
/// next that does or at the end.
#[inline(always)]
fn flow_plain(
    context: &Context<'_>,
    state: &mut AbstractState,
    place: &mut u64,
    peaks: &mut Totals,
    instruction: &Instruction,
) -> Result<(), Broken>
    requires places { place.old + 1 < 2 ^ 64 }
    requires small { AreFew peaks.old }
    ensures flowed { flowed result state.new ≡ later place.old (flow context.now state.old (Do instruction.now Done)) }
    ensures places { OnOk result (place.new ≡ place.old + 1) }
    ensures peaks { OnOk result (PeaksWith peaks.new peaks.old (state.old ∷ []) state.new) }
    ensures small { AreFew peaks.new }
{
    if keeps_slots(instruction) {
        flow_judged(context, state, place, instruction)
    } else {
        peaks.raise(state.own().totals());
        flow_judged(context, state, place, instruction)
    }
}

/// Walks through a statement and those in it.
#[cycle(flows)]
fn flow_statement(
    context: &Context<'_>,
    state: &mut AbstractState,
    place: &mut u64,
    peaks: &mut Totals,
    statement: &Statement,
) -> Result<(), Broken>
    requires places { place.old + size (tree_of (statement.now ∷ [])) < 2 ^ 64 }
    requires loops { IsTrue (few_loops (4 - length context.now.counts) (tree_of (statement.now ∷ []))) }
    requires small { AreFew peaks.old }
    ensures flowed { flowed result state.new ≡ later place.old (flow context.now state.old (tree_of (statement.now ∷ []))) }
    ensures places { OnOk result (place.new ≡ place.old + size (tree_of (statement.now ∷ []))) }
    ensures peaks { OnOk result (PeaksWith peaks.new peaks.old (points_in context.now state.old statement.now) state.new) }
    ensures small { AreFew peaks.new }
{
    match statement {
        Statement::Plain(instruction) => flow_plain(context, state, place, peaks, instruction),
        Statement::If(arm, other) => {
            peaks.raise(state.own().totals());
            if arm.is_still() && other.is_still() {
                flow_still_if(context, state, place, peaks, arm, other)
            } else {
                flow_if(context, state, place, peaks, arm, other)
            }
        }
        Statement::Loop(count, body) => {
            peaks.raise(state.own().totals());
            if body.is_still() {
                flow_still_loop(context, state, place, peaks, *count, body)
            } else {
                flow_loop(context, state, place, peaks, *count, body)
            }
        }
    }
}

/// Walks through both arms of an `if`. It stands alone, so that only an `if` pays for room for a state.
#[cycle(flows)]
#[inline(never)]
fn flow_if(
    context: &Context<'_>,
    state: &mut AbstractState,
    place: &mut u64,
    peaks: &mut Totals,
    arm: &Body,
    other: &Body,
) -> Result<(), Broken>
    requires places { place.old + (1 + size arm.now + size other.now) < 2 ^ 64 }
    requires loops { IsTrue (few_loops (4 - length context.now.counts) (If arm.now other.now Done)) }
    requires small { AreFew peaks.old }
    ensures flowed { flowed result state.new ≡ later place.old (flow context.now state.old (If arm.now other.now Done)) }
    ensures places { OnOk result (place.new ≡ place.old + (1 + size arm.now + size other.now)) }
    ensures peaks { OnOk result (Peaks peaks.new peaks.old (points context.now (chosen state.old) arm.now ++ points context.now (chosen state.old) other.now)) }
    ensures small { AreFew peaks.new }
{
    *place += 1;
    let number = *place;
    at(number, state.choose())?;
    let mut second = state.without_operands();
    flow(context, state, place, peaks, arm)?;
    flow(context, &mut second, place, peaks, other)?;
    at(number, state.join(&second))
}

/// Walks through the body of a loop, which is to leave all as it was. It stands alone, so that only a loop pays for room for a state.
#[cycle(flows)]
#[inline(never)]
fn flow_loop(
    context: &Context<'_>,
    state: &mut AbstractState,
    place: &mut u64,
    peaks: &mut Totals,
    count: u16,
    body: &Body,
) -> Result<(), Broken>
    requires places { place.old + (1 + size body.now) < 2 ^ 64 }
    requires loops { IsTrue (few_loops (4 - length context.now.counts) (Loop count body.now Done)) }
    requires small { AreFew peaks.old }
    ensures flowed { flowed result state.new ≡ later place.old (flow context.now state.old (Loop count body.now Done)) }
    ensures places { OnOk result (place.new ≡ place.old + (1 + size body.now)) }
    ensures peaks { OnOk result (Peaks peaks.new peaks.old (points (inside context.now count) state.old body.now)) }
    ensures small { AreFew peaks.new }
{
    *place += 1;
    let number = *place;
    at(number, state.none_left())?;
    let own = *state.own();
    let bank = *state.bank();
    flow(&context.inside(count), state, place, peaks, body)?;
    at(number, state.comes_back(&own, &bank))
}

/// Walks through both arms of an `if` that change no slot: the second starts with the slots as the first leaves them.
#[cycle(flows)]
fn flow_still_if(
    context: &Context<'_>,
    state: &mut AbstractState,
    place: &mut u64,
    peaks: &mut Totals,
    arm: &Body,
    other: &Body,
) -> Result<(), Broken>
    requires places { place.old + (1 + size arm.now + size other.now) < 2 ^ 64 }
    requires loops { IsTrue (few_loops (4 - length context.now.counts) (If arm.now other.now Done)) }
    requires still { (is_still arm.now && is_still other.now) ≡ true }
    requires small { AreFew peaks.old }
    ensures flowed { flowed result state.new ≡ later place.old (flow context.now state.old (If arm.now other.now Done)) }
    ensures places { OnOk result (place.new ≡ place.old + (1 + size arm.now + size other.now)) }
    ensures peaks { OnOk result (Peaks peaks.new peaks.old (points context.now (chosen state.old) arm.now ++ points context.now (chosen state.old) other.now)) }
    ensures small { AreFew peaks.new }
{
    *place += 1;
    let number = *place;
    at(number, state.choose())?;
    flow(context, state, place, peaks, arm)?;
    let is_spent = state.is_spent();
    state.drop_operands();
    flow(context, state, place, peaks, other)?;
    at(number, state.none_left_of_both(is_spent))
}

/// Walks through the body of a loop that changes no slot, and so leaves all as it was but for operands.
#[cycle(flows)]
fn flow_still_loop(
    context: &Context<'_>,
    state: &mut AbstractState,
    place: &mut u64,
    peaks: &mut Totals,
    count: u16,
    body: &Body,
) -> Result<(), Broken>
    requires places { place.old + (1 + size body.now) < 2 ^ 64 }
    requires loops { IsTrue (few_loops (4 - length context.now.counts) (Loop count body.now Done)) }
    requires still { is_still body.now ≡ true }
    requires small { AreFew peaks.old }
    ensures flowed { flowed result state.new ≡ later place.old (flow context.now state.old (Loop count body.now Done)) }
    ensures places { OnOk result (place.new ≡ place.old + (1 + size body.now)) }
    ensures peaks { OnOk result (Peaks peaks.new peaks.old (points (inside context.now count) state.old body.now)) }
    ensures small { AreFew peaks.new }
{
    *place += 1;
    let number = *place;
    at(number, state.none_left())?;
    flow(&context.inside(count), state, place, peaks, body)?;
    at(number, state.none_left())
}

// How many requests statements make at most, of all sections of all services at once.
ghost use Rattle.std.specs.Prelude.{◌≡◌, ◌≤◌, ◌+◌, ◌-◌, ◌*◌, ◌∷◌, [], max, IsTrue, IfOk, OnOk, List, ℕ, length};
ghost use Rattle.gq_model.specs.declared.section.Section.{Section};
ghost use Rattle.gq_model.specs.machine.Program.{size, Done, Do, If, Loop};
ghost use Rattle.gq_model.specs.rules.Budgets.{by_link, asks, requests};
ghost use Rattle.gq_model.specs.rules.Kinds.{AbstractState, kind_at, inside};
ghost use Rattle.gq_model.specs.rules.Rules.{link_kind, judged};
ghost use Rattle.gq_model.specs.rules.Flow.{at, flow, state_or};
ghost use Rattle.gq_program.specs.Statement_trees.{tree_of};
ghost use Rattle.gq_rules.specs.Flowing.{few_loops};
ghost use Rattle.gq_rules.specs.internal.List_states.{chosen, next_state};
ghost use Rattle.gq_verify.specs.Saturated_numbers.{saturated};
ghost use Rattle.gq_verify.specs.Requested.{requests_for};
ghost use Rattle.gq_verify.specs.internal.Request_sums.{Adds};
ghost use Rattle.gq_verify.specs.internal.Slot_equal_states.{AreAlike, FromAlike};
ghost use Rattle.gq_verify.specs.Rights.{IsRight};
ghost use Rattle.gq_verify.specs.internal.Requesting.{requests_in, section_by};

use crate::asked::RequestCounts;
use crate::asked_sections::{ByLevel, section_by};
use crate::service::Service;
use gq_caps::Totals;
use gq_program::notes::keeps_slots;
use gq_program::{Body, Instruction, OperandSlot, Section, Statement};
use gq_rules::flow::flow;
use gq_rules::{AbstractState, Context};
use std::alloc::{AllocError, Global};

/// One request more, on the link in a slot, which is for the section of a level.
fn count_link(
    context: &Context<'_>,
    state: &AbstractState,
    asked: &mut RequestCounts,
    place: OperandSlot,
    of: ByLevel,
) -> Result<(), AllocError>
    ensures { OnOk result (Adds asked.new asked.old (λ v r. by_link v r (link_kind (kind_at context.now state.now place)) (section_by of))) }
{
    match context.link_at(state, place) {
        Some(link) => {
            let service = Service::new(link.service());
            asked.add(&service, section_by(of, link.level()), 1)
        }
        None => Ok(()),
    }
}

/// The request of an instruction more, if it makes one.
fn count_instruction(
    context: &Context<'_>,
    state: &AbstractState,
    asked: &mut RequestCounts,
    instruction: &Instruction,
) -> Result<(), AllocError>
    ensures { OnOk result (Adds asked.new asked.old (λ v r. asks v r context.now state.now instruction.now)) }
{
    match instruction {
        Instruction::Open(_, service, _) => {
            asked.add(&Service::new(service.as_bytes()), Section::Opening, 1)
        }
        Instruction::Upgrade(place, _) => {
            count_link(context, state, asked, *place, ByLevel::Upgrading)
        }
        Instruction::Call(place) => count_link(context, state, asked, *place, ByLevel::Calling),
        Instruction::Close(place) => count_link(context, state, asked, *place, ByLevel::Closing),
        _ => Ok(()),
    }
}

/// Makes the change of an instruction to the slots, if it makes one. Operands are not gone on with, since no request depends on them.
pub(crate) fn change_slots(
    context: &Context<'_>,
    state: &mut AbstractState,
    instruction: &Instruction,
)
    ensures { FromAlike context.now state.old (Do instruction.now Done) (λ s.
        AreAlike state.new (state_or s (at 1 (judged context.now s instruction.now)))) }
{
    if !keeps_slots(instruction) {
        match context.judged(state, instruction) {
            Ok(()) => {}
            Err(_) => {}
        }
    }
}

/// Makes the changes of the first arm of an `if` to the slots, if it makes some.
fn change_by_arm(context: &Context<'_>, state: &mut AbstractState, arm: &Body)
    requires few { size arm.now ≤ 4096 }
    requires loops { IsTrue (few_loops (4 - length context.now.counts) arm.now) }
    ensures { (s : AbstractState) → AreAlike s state.old → IsRight context.now (chosen s) arm.now →
        AreAlike state.new (state_or (chosen s) (flow context.now (chosen s) arm.now)) }
{
    if !arm.is_still() {
        state.drop_operands();
        let mut place = 0;
        let mut peaks = Totals::none();
        match flow(context, state, &mut place, &mut peaks, arm) {
            Ok(()) => {}
            Err(_) => {}
        }
    }
}

/// The requests of a list of statements more, from what is known before it to what is known after it. Its operands may be others: only slots are looked at.
#[cycle(counting)]
fn count(
    alloc: Global,
    context: &Context<'_>,
    state: &mut AbstractState,
    asked: &mut RequestCounts,
    body: &Body,
) -> Result<(), AllocError>
    requires few { size body.now ≤ 4096 }
    requires loops { IsTrue (few_loops (4 - length context.now.counts) body.now) }
    ensures state { OnOk result (FromAlike context.now state.old body.now (λ s. AreAlike state.new (state_or s (flow context.now s body.now)))) }
    ensures counted { OnOk result (FromAlike context.now state.old body.now (λ s. Adds asked.new asked.old (λ v r. requests v r context.now s body.now))) }
{
    for statement in body.statements() {
        count_in(alloc, context, state, asked, statement)?;
    }
    Ok(())
}

/// The requests of a statement and those in it more. Blocks that ask for nothing are not counted through.
#[cycle(counting)]
fn count_in(
    alloc: Global,
    context: &Context<'_>,
    state: &mut AbstractState,
    asked: &mut RequestCounts,
    statement: &Statement,
) -> Result<(), AllocError>
    requires few { size (tree_of (statement.now ∷ [])) ≤ 4096 }
    requires loops { IsTrue (few_loops (4 - length context.now.counts) (tree_of (statement.now ∷ []))) }
    ensures state { OnOk result (FromAlike context.now state.old (tree_of (statement.now ∷ [])) (λ s.
        AreAlike state.new (next_state context.now s statement.now))) }
    ensures counted { OnOk result (FromAlike context.now state.old (tree_of (statement.now ∷ [])) (λ s.
        Adds asked.new asked.old (λ v r. requests_in v r context.now s statement.now))) }
{
    match statement {
        Statement::Plain(instruction) => {
            count_instruction(context, state, asked, instruction)?;
            change_slots(context, state, instruction);
            Ok(())
        }
        Statement::If(arm, other) => {
            if arm.is_quiet() && other.is_quiet() {
                change_by_arm(context, state, arm);
                Ok(())
            } else {
                count_if(alloc, context, state, asked, arm, other)
            }
        }
        Statement::Loop(times, body) => {
            if body.is_quiet() {
                Ok(())
            } else {
                count_loop(alloc, context, state, asked, *times, body)
            }
        }
    }
}

/// The requests of the arm of an `if` that makes more. It stands alone, so that only an `if` pays for room for a state.
#[cycle(counting)]
#[inline(never)]
fn count_if(
    alloc: Global,
    context: &Context<'_>,
    state: &mut AbstractState,
    asked: &mut RequestCounts,
    arm: &Body,
    other: &Body,
) -> Result<(), AllocError>
    requires few { 1 + size arm.now + size other.now ≤ 4096 }
    requires loops { IsTrue (few_loops (4 - length context.now.counts) (If arm.now other.now Done)) }
    ensures state { OnOk result (FromAlike context.now state.old (If arm.now other.now Done) (λ s.
        AreAlike state.new (state_or (chosen s) (flow context.now (chosen s) arm.now)))) }
    ensures counted { OnOk result (FromAlike context.now state.old (If arm.now other.now Done) (λ s. Adds asked.new asked.old (λ v r.
        max (requests v r context.now (chosen s) arm.now) (requests v r context.now (chosen s) other.now)))) }
{
    state.drop_operands();
    let mut second = state.copy();
    let mut most = RequestCounts::new(alloc);
    count(alloc, context, state, &mut most, arm)?;
    let mut others = RequestCounts::new(alloc);
    count(alloc, context, &mut second, &mut others, other)?;
    most.raise(&others)?;
    asked.add_all(&most, 1)
}

/// The requests of all rounds of a loop. It stands alone, so that only a loop pays for room for a state.
#[cycle(counting)]
#[inline(never)]
fn count_loop(
    alloc: Global,
    context: &Context<'_>,
    state: &AbstractState,
    asked: &mut RequestCounts,
    times: u16,
    body: &Body,
) -> Result<(), AllocError>
    requires few { 1 + size body.now ≤ 4096 }
    requires loops { IsTrue (few_loops (4 - length context.now.counts) (Loop times body.now Done)) }
    ensures { OnOk result (FromAlike context.now state.now (Loop times body.now Done) (λ s.
        Adds asked.new asked.old (λ v r. times * requests v r (inside context.now times) s body.now))) }
{
    let mut inner = state.copy();
    let mut round = RequestCounts::new(alloc);
    count(alloc, &context.inside(times), &mut inner, &mut round, body)?;
    asked.add_all(&round, u64::from(times))
}

/// The greatest numbers of requests of a list of statements that breaks no rule, from what is known before it, for all sections of all
/// services at once; 2^64 - 1 where there are more. It goes over the statements once, and not over blocks that ask for nothing. Refused
/// only if the host refuses memory, of which it takes some for each section that is asked for.
pub fn all_requests(
    alloc: Global,
    context: &Context<'_>,
    state: &mut AbstractState,
    body: &Body,
) -> Result<RequestCounts, AllocError>
    requires few { size body.now ≤ 4096 }
    requires loops { IsTrue (few_loops (4 - length context.now.counts) body.now) }
    requires right { IsRight context.now state.old body.now }
    ensures { IfOk result (λ n. (v : List ℕ) (r : Section) → saturated (requests_for n v r) ≡ saturated (requests v r context.now state.old body.now)) }
{
    if body.is_quiet() {
        return Ok(RequestCounts::new(alloc));
    }
    let mut asked = RequestCounts::new(alloc);
    count(alloc, context, state, &mut asked, body)?;
    Ok(asked)
}

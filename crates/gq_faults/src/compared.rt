// What a rule compared at its place: a section is walked through once more, up to there.
// No contract of what is found: it is details alone. Tests show it.
ghost use Rattle.std.specs.Prelude.{◌≡◌, ◌≤◌, length};

use crate::fault_value::{Compared, Holder, Needed};
use crate::pushers::Pushers;
use crate::session_cost::session_cost_of;
use crate::statement::of_statement;
use gq_caps::Kind;
use gq_model::fault::Rule;
use gq_model::program::OperandSlot;
use gq_program::{Body, Section, Statement};
use gq_rules::{AbstractState, Context, Subject};
use gq_verify::{BrokenRule, Starts, section_cost};
use std::alloc::{AllocError, Global};

// No more loops are open at a place.
const GREATEST_LOOPS: usize = 4;

// A walk through a section, up to the statement of this number.
#[derive(Drop)]
struct Search {
    alloc: Global,
    rule: Rule,
    goal: u64,
    number: u64,
    /// The statements that pushed the operands that are there.
    pushers: Pushers,
    /// What was compared there.
    found: Option<Compared>,
}

/// What the rule compared that a program breaks first.
pub fn compared(
    alloc: Global,
    subject: &Subject<'_>,
    fault: &BrokenRule,
) -> Result<Compared, AllocError> {
    match fault.rule {
        Rule::MissingSection => {
            let is_missing = !subject.has(fault.section);
            Ok(Compared::Section(fault.section, is_missing, subject.signals()))
        }
        Rule::BudgetTooLarge => Ok(cost_of(subject, fault.section)),
        _ => in_section(alloc, subject, fault),
    }
}

// How many steps a section takes.
fn cost_of(subject: &Subject<'_>, section: Section) -> Compared {
    match subject.body(section) {
        Some(body) => Compared::Cost(section_cost(section, body)),
        None => Compared::Nothing,
    }
}

// What a rule compared at a place of a section.
fn in_section(
    alloc: Global,
    subject: &Subject<'_>,
    fault: &BrokenRule,
) -> Result<Compared, AllocError> {
    if !fault.section.is_there() {
        return Ok(Compared::Nothing);
    }
    let starts = Starts::new(subject);
    let context = Context::new(subject, fault.section);
    let mut state = starts.start_of(subject, fault.section);
    let start = state.copy();
    if fault.place == 0 {
        return at_start(alloc, &context, &state, fault.rule);
    }
    let Some(body) = subject.body(fault.section) else {
        return Ok(Compared::Nothing);
    };
    let mut search = Search {
        alloc,
        rule: fault.rule,
        goal: fault.place,
        number: 0,
        pushers: Pushers::new(alloc, fault.section)?,
        found: None,
    };
    search.body(&context, 0, &mut state, body)?;
    let Search {
        alloc: _,
        rule,
        goal: _,
        number: _,
        mut pushers,
        found,
    } = search;
    match found {
        Some(found) => Ok(found),
        None if rule == Rule::LeftoverOperand => pushers.left_at_end(fault.section),
        None => Ok(at_end(subject, &start, fault, &mut state)),
    }
}

// What a rule compared at the start of a section.
fn at_start(
    alloc: Global,
    context: &Context<'_>,
    state: &AbstractState,
    rule: Rule,
) -> Result<Compared, AllocError> {
    match rule {
        Rule::OverNeed | Rule::OverCaps => session_cost_of(alloc, context, state, rule),
        _ => Ok(Compared::Nothing),
    }
}

// What a rule compared at the end of a section.
fn at_end(
    subject: &Subject<'_>,
    start: &AbstractState,
    fault: &BrokenRule,
    state: &mut AbstractState,
) -> Compared {
    match (fault.rule, fault.section) {
        (Rule::ValueTooLarge, _) => match state.pop() {
            Ok(reply) => Compared::Value(reply, subject.reply(), Holder::Reply),
            Err(_) => Compared::Nothing,
        },
        (Rule::LinkLeftOpen, _) => first_link(state),
        (Rule::SessionBankChanged, Section::Opening) => {
            Compared::Buffer(subject.buffer(), Some(state.bank().kind(0)))
        }
        (Rule::SessionBankChanged, Section::Calling(_)) => {
            shared_difference(start.bank().kinds(), state.bank().kinds())
        }
        (Rule::SessionBankChanged, _) => first_full(state.bank().kinds()),
        _ => Compared::Nothing,
    }
}

// The number of a slot; banks have few.
fn u8_of(slot: usize) -> u8 {
    u8::try_from(slot).unwrap_or(u8::MAX)
}

// The first own slot that has a link.
fn first_link(state: &AbstractState) -> Compared {
    for (slot, kind) in state.own().kinds().iter().enumerate() {
        if matches!(kind, Kind::Link(_)) {
            return Compared::Slot(OperandSlot::Own(u8_of(slot)), Some(*kind), Needed::Empty);
        }
    }
    Compared::Nothing
}

// The first slot of the session that is not empty.
fn first_full(kinds: &[Kind]) -> Compared {
    for (slot, kind) in kinds.iter().enumerate() {
        if !matches!(kind, Kind::Empty | Kind::Waiting) {
            return Compared::Slot(OperandSlot::Shared(u8_of(slot)), Some(*kind), Needed::Empty);
        }
    }
    Compared::Nothing
}

// The first slot of which two lists of kinds differ.
fn difference(first: &[Kind], second: &[Kind]) -> Option<(u8, Kind, Kind)> {
    for (slot, kind) in first.iter().enumerate() {
        if let Some(other) = second.get(slot) {
            if !kind.is_same(other) {
                return Some((u8_of(slot), *kind, *other));
            }
        }
    }
    None
}

fn shared_difference(first: &[Kind], second: &[Kind]) -> Compared {
    match difference(first, second) {
        Some((slot, kind, other)) => Compared::Kinds(OperandSlot::Shared(slot), kind, other),
        None => Compared::Nothing,
    }
}

// The first slot of which two ways differ, the own ones before those of the session.
fn joined(first: &AbstractState, second: &AbstractState) -> Compared {
    match difference(first.own().kinds(), second.own().kinds()) {
        Some((slot, kind, other)) => Compared::Kinds(OperandSlot::Own(slot), kind, other),
        None => shared_difference(first.bank().kinds(), second.bank().kinds()),
    }
}

impl Search {
    // Whether the rule is one that the inside of a block breaks.
    fn is_of_block(&self) -> bool {
        matches!(self.rule, Rule::JoinDiffers | Rule::LeftoverOperand)
    }

    // Finds the operands that are left over at the start or the end of the block that is looked for, where there are some.
    fn note_left(&mut self, is_goal: bool) -> Result<(), AllocError> {
        if is_goal && self.found.is_none() && self.rule == Rule::LeftoverOperand {
            self.found = self.pushers.left()?;
        }
        Ok(())
    }

    // Walks through a list of statements, up to the one that is looked for.
    #[cycle(search)]
    fn body(
        &mut self,
        context: &Context<'_>,
        loops: usize,
        state: &mut AbstractState,
        body: &Body,
    ) -> Result<(), AllocError>
        requires { length context.now.counts ≤ loops }
    {
        for statement in body.statements() {
            self.statement(context, loops, state, statement)?;
            if self.found.is_some() {
                return Ok(());
            }
        }
        Ok(())
    }

    #[cycle(search)]
    fn statement(
        &mut self,
        context: &Context<'_>,
        loops: usize,
        state: &mut AbstractState,
        statement: &Statement,
    ) -> Result<(), AllocError>
        requires { length context.now.counts ≤ loops }
    {
        self.number = self.number.saturating_add(1);
        match statement {
            Statement::Plain(instruction) => {
                if self.number == self.goal {
                    let found = of_statement(self.alloc, context, state, instruction, self.rule)?;
                    self.found = Some(found);
                } else {
                    let _judged = context.judged(state, instruction);
                    self.pushers.follow(self.number, instruction)?;
                }
                Ok(())
            }
            Statement::If(arm, other) => self.arms(context, loops, state, arm, other),
            Statement::Loop(count, body) => self.rounds(context, loops, state, *count, body),
        }
    }

    // Walks through both arms of an `if`.
    #[cycle(search)]
    fn arms(
        &mut self,
        context: &Context<'_>,
        loops: usize,
        state: &mut AbstractState,
        arm: &Body,
        other: &Body,
    ) -> Result<(), AllocError>
        requires { length context.now.counts ≤ loops }
    {
        let is_goal = self.number == self.goal;
        if is_goal && !self.is_of_block() {
            self.found = Some(Compared::Nothing);
            return Ok(());
        }
        self.pushers.drop_condition();
        self.note_left(is_goal)?;
        if self.found.is_some() {
            return Ok(());
        }
        state.drop_operands();
        let mut second = state.without_operands();
        self.body(context, loops, state, arm)?;
        self.note_left(is_goal)?;
        if self.found.is_some() {
            return Ok(());
        }
        self.body(context, loops, &mut second, other)?;
        self.note_left(is_goal)?;
        if self.found.is_none() && is_goal {
            self.found = Some(joined(state, &second));
        }
        Ok(())
    }

    // Walks through the body of a loop.
    #[cycle(search)]
    fn rounds(
        &mut self,
        context: &Context<'_>,
        loops: usize,
        state: &mut AbstractState,
        count: u16,
        body: &Body,
    ) -> Result<(), AllocError>
        requires { length context.now.counts ≤ loops }
    {
        let is_goal = self.number == self.goal;
        if loops >= GREATEST_LOOPS || (is_goal && !self.is_of_block()) {
            self.found = Some(Compared::Nothing);
            return Ok(());
        }
        self.note_left(is_goal)?;
        if self.found.is_some() {
            return Ok(());
        }
        let before = state.copy();
        self.body(&context.inside(count), loops + 1, state, body)?;
        self.note_left(is_goal)?;
        if self.found.is_none() && is_goal {
            self.found = Some(joined(&before, state));
        }
        Ok(())
    }
}

// What a rule compared at a statement, from what is known before it.
// No contract: its results are details alone. Tests show them.
use crate::fault_value::{Compared, Holder, Needed, Unit};
use crate::session_cost::session_cost_of;
use gq_caps::Kind;
use gq_model::fault::Rule;
use gq_model::limits::INPUTS;
use gq_model::program::{Instruction, Name, OperandSlot, OperandStatement, Width, WithNumber};
use gq_program::Interface;
use gq_rules::{AbstractState, Context};
use std::alloc::{AllocError, Global};

/// What a rule that an instruction breaks compared.
pub(crate) fn of_statement(
    alloc: Global,
    context: &Context<'_>,
    state: &mut AbstractState,
    instruction: &Instruction,
    rule: Rule,
) -> Result<Compared, AllocError> {
    match rule {
        Rule::OverNeed | Rule::OverCaps => {
            let _judged = context.judged(state, instruction);
            session_cost_of(alloc, context, state, rule)
        }
        Rule::StackTooDeep => Ok(Compared::Operands),
        Rule::WrongKind | Rule::SlotInUse => Ok(of_slot(context, state, instruction, rule)),
        Rule::OutOfRange => Ok(of_index(context, state, instruction)),
        Rule::ValueTooLarge => Ok(of_value(context, state, instruction)),
        Rule::ShortDonation => Ok(of_donation(context, state, instruction)),
        Rule::SessionBankChanged => Ok(Compared::Buffer(context.subject().buffer(), None)),
        Rule::UnknownService => Ok(of_service(alloc, instruction)),
        Rule::NoInput => of_input(alloc, context, instruction),
        _ => Ok(Compared::Nothing),
    }
}

// The slot of an instruction, and what it needs there.
fn slot_of(instruction: &Instruction) -> Option<(OperandSlot, Needed)> {
    match instruction {
        Instruction::Make(_, place, _)
        | Instruction::MakePool(place, _, _)
        | Instruction::Open(place, _, _) => Some((*place, Needed::Empty)),
        Instruction::Free(place) => Some((*place, Needed::Memory)),
        Instruction::Load(_, place) | Instruction::Store(_, place) => {
            Some((*place, Needed::Bytes))
        }
        Instruction::Take(place)
        | Instruction::Give(place)
        | Instruction::Peek(place)
        | Instruction::Poke(place) => Some((*place, Needed::Pool)),
        Instruction::Upgrade(place, _) | Instruction::Call(place) | Instruction::Close(place) => {
            Some((*place, Needed::Link))
        }
        _ => None,
    }
}

// What the slot of an instruction holds, and what is needed there.
fn of_slot(
    context: &Context<'_>,
    state: &AbstractState,
    instruction: &Instruction,
    rule: Rule,
) -> Compared {
    match slot_of(instruction) {
        Some((place, Needed::Empty)) if rule == Rule::WrongKind => {
            let needed = Needed::There(context.section());
            Compared::Slot(place, context.kind_at(state, place), needed)
        }
        Some((place, needed)) => Compared::Slot(place, context.kind_at(state, place), needed),
        None => Compared::Nothing,
    }
}

// The pool in a slot: the bytes of an entry, and how many entries there are.
fn pool_at(context: &Context<'_>, state: &AbstractState, place: OperandSlot) -> Option<(u64, u64)> {
    match context.kind_at(state, place) {
        Some(Kind::Pool(size, count)) => Some((u64::from(size), u64::from(count))),
        _ => None,
    }
}

// The interface of the link in a slot, with the level that it has.
fn linked<'c>(
    context: &'c Context<'_>,
    state: &AbstractState,
    place: OperandSlot,
) -> Option<(&'c Interface, Name, u8)> {
    let link = context.link_at(state, place)?;
    let name = Name::new(link.service())?;
    let interface = context.subject().interface(link.service())?;
    Some((interface, name, link.level()))
}

// What an index counts, by the bytes that are read or written at once.
fn unit_of(width: Width) -> Unit {
    match width {
        Width::Byte => Unit::Bytes,
        Width::Word => Unit::Words,
    }
}

// An index of bytes, which is the top operand once so many others are taken off.
fn byte_index(
    context: &Context<'_>,
    state: &mut AbstractState,
    width: Width,
    place: OperandSlot,
    others: usize,
) -> Option<Compared> {
    let bytes = context.bytes_at(state, place)?;
    let index = operand(state, others)?;
    Some(Compared::Index(place, u64::from(index), bytes, unit_of(width)))
}

// The greatest value of the operand below so many others.
fn operand(state: &mut AbstractState, others: usize) -> Option<u32> {
    for _other in 0..others {
        if state.pop().is_err() {
            return None;
        }
    }
    state.pop().ok()
}

// An index of an entry.
fn entry_index(
    context: &Context<'_>,
    state: &mut AbstractState,
    place: OperandSlot,
) -> Option<Compared> {
    let (_, count) = pool_at(context, state, place)?;
    let index = operand(state, 0)?;
    Some(Compared::Index(place, u64::from(index), count, Unit::Entries))
}

// An index of an entry, and one of a byte in it, below so many others: the one that is out of range.
fn entry_byte_index(
    context: &Context<'_>,
    state: &mut AbstractState,
    place: OperandSlot,
    others: usize,
) -> Option<Compared> {
    let (size, count) = pool_at(context, state, place)?;
    let byte = u64::from(operand(state, others)?);
    let index = u64::from(operand(state, 0)?);
    if index >= count {
        Some(Compared::Index(place, index, count, Unit::Entries))
    } else {
        Some(Compared::Index(place, byte, size, Unit::BytesOfAnEntry))
    }
}

// An upgrade past those that the service has.
fn level_past(
    context: &Context<'_>,
    state: &AbstractState,
    place: OperandSlot,
) -> Option<Compared> {
    let (interface, name, level) = linked(context, state, place)?;
    Some(Compared::Level(name, level.saturating_add(1), interface.upgrades().len()))
}

// The index of an instruction, and what it is compared with.
fn of_index(
    context: &Context<'_>,
    state: &mut AbstractState,
    instruction: &Instruction,
) -> Compared {
    let found = match instruction {
        Instruction::Load(width, place) => byte_index(context, state, *width, *place, 0),
        Instruction::Store(width, place) => byte_index(context, state, *width, *place, 1),
        Instruction::Take(place) | Instruction::Give(place) => entry_index(context, state, *place),
        Instruction::Peek(place) => entry_byte_index(context, state, *place, 0),
        Instruction::Poke(place) => entry_byte_index(context, state, *place, 1),
        Instruction::Upgrade(place, _) => level_past(context, state, *place),
        _ => None,
    };
    found.unwrap_or(Compared::Nothing)
}

// The value that an instruction takes off, and what it is compared with.
fn of_value(
    context: &Context<'_>,
    state: &mut AbstractState,
    instruction: &Instruction,
) -> Compared {
    let Some(value) = operand(state, 0) else {
        return Compared::Nothing;
    };
    match instruction {
        Instruction::Operands(OperandStatement::Numbered(WithNumber::Set, local)) => {
            Compared::Value(value, context.local(*local), Holder::Local(*local))
        }
        Instruction::Call(place) => match linked(context, state, *place) {
            Some((interface, _, _)) => Compared::Value(value, interface.arg(), Holder::Argument),
            None => Compared::Nothing,
        },
        _ => Compared::Nothing,
    }
}

// The service of an instruction that has no interface.
fn of_service(alloc: Global, instruction: &Instruction) -> Compared {
    match instruction {
        Instruction::Open(_, service, _) => { Compared::Unknown(service.copied(), Vec::new(alloc)) }
        _ => Compared::Nothing,
    }
}

// The input of an instruction, and those that the leaf has.
fn of_input(
    alloc: Global,
    context: &Context<'_>,
    instruction: &Instruction,
) -> Result<Compared, AllocError> {
    let Instruction::Operands(OperandStatement::Numbered(WithNumber::Input, input)) = instruction
    else {
        return Ok(Compared::Nothing);
    };
    let mut inputs = Vec::new(alloc);
    for number in 0..INPUTS as u32 {
        if let Some(greatest) = context.greatest_input(number) {
            inputs.push(greatest)?;
        }
    }
    Ok(Compared::Input(*input, inputs))
}

// What an instruction gives, and what a session needs.
fn of_donation(
    context: &Context<'_>,
    state: &AbstractState,
    instruction: &Instruction,
) -> Compared {
    match instruction {
        Instruction::Open(_, service, given) => {
            match context.subject().interface(service.as_bytes()) {
                Some(interface) => {
                    Compared::Donation(service.copied(), 0, *given, interface.need())
                }
                None => Compared::Nothing,
            }
        }
        Instruction::Upgrade(place, given) => of_upgrade(context, state, *place, *given),
        _ => Compared::Nothing,
    }
}

fn of_upgrade(
    context: &Context<'_>,
    state: &AbstractState,
    place: OperandSlot,
    given: u32,
) -> Compared {
    let Some((interface, name, level)) = linked(context, state, place) else {
        return Compared::Nothing;
    };
    match interface.upgrades().get(usize::from(level)) {
        Some(next) => Compared::Donation(name, level.saturating_add(1), given, next.ram()),
        None => Compared::Nothing,
    }
}

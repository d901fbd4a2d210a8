// What the current session costs its server at a point, with its parts.
// No contract: its results are details alone. Tests show them.
use crate::fault_value::{Compared, SessionCost};
use gq_caps::Kind;
use gq_model::fault::Rule;
use gq_program::Interface;
use gq_rules::session_rules::{need_of, session_cost};
use gq_rules::{AbstractState, Context};
use gq_tariff::Amount;
use gq_tariff::price::price_slice;
use std::alloc::{AllocError, Global};

// Of an amount, its bytes or its capabilities.
fn part(caps: bool, amount: Amount) -> u64 {
    if caps { amount.caps } else { amount.ram }
}

// What a slot of this kind costs: its price, or what a link lends.
fn cost_of(caps: bool, kind: &Kind) -> u64 {
    part(caps, kind.price()).saturating_add(part(caps, kind.lent()))
}

// The slots of the session that are not empty, with what each costs.
fn slots_of(alloc: Global, caps: bool, kinds: &[Kind]) -> Result<Vec<(u8, Kind, u64)>, AllocError> {
    let mut slots = Vec::new(alloc);
    for (slot, kind) in kinds.iter().enumerate() {
        if !matches!(kind, Kind::Empty | Kind::Waiting) {
            slots.push((
                u8::try_from(slot).unwrap_or(u8::MAX),
                *kind,
                cost_of(caps, kind),
            ))?;
        }
    }
    Ok(slots)
}

// What the object of a session costs.
fn object_price(caps: bool, interface: &Interface) -> u64 {
    if caps {
        1
    } else {
        price_slice(u64::from(interface.object()))
    }
}

/// What a session costs in bytes, for `OverNeed`, or in capabilities, for `OverCaps`, and what is given for it.
pub(crate) fn session_cost_of(
    alloc: Global,
    context: &Context<'_>,
    state: &AbstractState,
    rule: Rule,
) -> Result<Compared, AllocError> {
    let Some(interface) = context.subject().provided() else {
        return Ok(Compared::Nothing);
    };
    let caps = rule == Rule::OverCaps;
    let level = context.section().level();
    Ok(Compared::Session(SessionCost {
        caps,
        sum: part(caps, session_cost(interface, state.bank())),
        given: part(caps, need_of(interface, level)),
        level,
        object: (interface.object(), object_price(caps, interface)),
        slots: slots_of(alloc, caps, state.bank().kinds())?,
    }))
}

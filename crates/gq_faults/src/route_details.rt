// The details of services that lead nowhere, and of leaves that reach themselves.
// No contract: its results are details alone. Tests show them.
use crate::fault_value::{Hop, OfferCause, RouteOwner, Where};
use crate::value_words::Details;
use gq_model::program::Name;
use std::alloc::AllocError;

/// Puts how a route led at the end of details, an init a line.
pub(crate) fn push_hops(reported: &mut Details, hops: &[Hop]) -> Result<(), AllocError> {
    for hop in hops {
        match hop {
            Hop::NoEntry(owner, 0, _) => no_routes(reported, owner)?,
            Hop::NoEntry(owner, count, near) => no_entry(reported, owner, *count, near.as_slice())?,
            Hop::BeyondRoot => reported.text("the root has no parent")?,
            Hop::Entry(owner, number, is_named, target) => {
                entry(reported, owner, *number, *is_named, target)?
            }
        }
        reported.end()?;
    }
    Ok(())
}

// What one route is called, and what several are: default ones have a key of their own.
fn route_words(owner: &RouteOwner) -> (&'static str, &'static str) {
    if owner.is_own {
        ("route", "routes")
    } else {
        ("default route", "default routes")
    }
}

// Whose routes they are.
fn of_owner(reported: &mut Details, owner: &RouteOwner) -> Result<(), AllocError> {
    reported.text(" of ")?;
    reported.name(if owner.is_own {
        &owner.child
    } else {
        &owner.init
    })
}

// There is no route.
fn no_routes(reported: &mut Details, owner: &RouteOwner) -> Result<(), AllocError> {
    reported.name(&owner.child)?;
    if owner.is_own {
        return reported.text(" has an empty list of routes");
    }
    reported.text(" has no routes, and ")?;
    reported.name(&owner.init)?;
    reported.text(" no default routes")
}

// None of so many routes is for a service, but some are for services with names like it.
fn no_entry(
    reported: &mut Details,
    owner: &RouteOwner,
    count: usize,
    near: &[Name],
) -> Result<(), AllocError> {
    let (one, more) = route_words(owner);
    reported.text("none of ")?;
    reported.count(count as u64, one, more)?;
    of_owner(reported, owner)?;
    reported.text(" is for it")?;
    if near.is_empty() {
        return Ok(());
    }
    reported.text(", but there is one for ")?;
    reported.names(near)
}

// The route of this number, and where it led.
fn entry(
    reported: &mut Details,
    owner: &RouteOwner,
    number: usize,
    is_named: bool,
    target: &Where,
) -> Result<(), AllocError> {
    let (one, _) = route_words(owner);
    reported.text(one)?;
    reported.text(" ")?;
    reported.number(number as u64)?;
    of_owner(reported, owner)?;
    reported.text(if is_named {
        ", for this service,"
    } else {
        ", for any service,"
    })?;
    led(reported, target)
}

// Where an entry led.
fn led(reported: &mut Details, target: &Where) -> Result<(), AllocError> {
    match target {
        Where::Parent => reported.text(" leads to the parent"),
        Where::NoChild(name, near) => {
            reported.text(" leads to child ")?;
            reported.name(name)?;
            reported.text(", which is not there")?;
            reported.meant(near.as_slice())
        }
        Where::Differs(name, offers) => {
            reported.text(" leads to child ")?;
            reported.name(name)?;
            reported.text(", which does not provide it")?;
            if offers.is_empty() {
                return Ok(());
            }
            reported.text(", but offers ")?;
            reported.names(offers.as_slice())
        }
        Where::Astray(name) => {
            reported.text(" leads to child ")?;
            reported.name(name)?;
            reported.text(", whose offer of it leads nowhere")
        }
        Where::NoProvider(inits) => {
            reported.text(" leads to any child, and none provides it")?;
            also_offered(reported, inits.as_slice())
        }
        Where::Providers(names, has_init) => {
            reported.text(if *has_init {
                " leads to any child, and these provide or offer it: "
            } else {
                " leads to any child, and these provide it: "
            })?;
            reported.names(names.as_slice())
        }
    }
}

// What each of these inits offers.
fn also_offered(reported: &mut Details, inits: &[(Name, Vec<Name>)]) -> Result<(), AllocError> {
    for (init, services) in inits {
        reported.text("; ")?;
        reported.name(init)?;
        reported.text(" offers ")?;
        reported.names(services.as_slice())?;
    }
    Ok(())
}

/// Puts why an init may not offer a service at the end of details.
pub(crate) fn push_offer(
    reported: &mut Details,
    service: &Name,
    cause: &OfferCause,
) -> Result<(), AllocError> {
    reported.name(service)?;
    match cause {
        OfferCause::NoInterface(near) => {
            reported.text(" is no interface")?;
            reported.meant(near.as_slice())?;
        }
        OfferCause::NoChild(name, near) => {
            offered_by(reported, name)?;
            reported.text("is not there")?;
            reported.meant(near.as_slice())?;
        }
        OfferCause::Leaf(name, provided) => {
            offered_by(reported, name)?;
            reported.text("provides ")?;
            match provided {
                Some(provided) => reported.name(provided)?,
                None => reported.text("nothing")?,
            }
        }
        OfferCause::Init(name, services) => {
            offered_by(reported, name)?;
            reported.text("offers ")?;
            if services.is_empty() {
                reported.text("nothing")?;
            } else {
                reported.names(services.as_slice())?;
            }
        }
    }
    reported.end()
}

// The child that an offer names.
fn offered_by(reported: &mut Details, name: &Name) -> Result<(), AllocError> {
    reported.text(" leads to child ")?;
    reported.name(name)?;
    reported.text(", which ")
}

/// Puts the way round from a leaf to itself at the end of details.
pub(crate) fn push_round(reported: &mut Details, way: &[(Name, Name)]) -> Result<(), AllocError> {
    for (place, (leaf, service)) in way.iter().enumerate() {
        reported.text(if place == 0 { "" } else { ", " })?;
        reported.name(leaf)?;
        reported.text(" opens ")?;
        reported.name(service)?;
        reported.text(" of ")?;
        if let Some((server, _)) = way.get((place + 1) % way.len()) {
            reported.name(server)?;
        }
    }
    reported.end()
}

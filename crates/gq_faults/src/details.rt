// The details of a fault, each on a line of its own.
// No contract: its results are details alone. Tests show them.
use crate::fault_value::{
    BadAfter, Compared, Crowd, Detail, Holder, Needed, SessionCost, TableKind, Unit,
};
use crate::meant::{Nearest, keys_of, near_keys};
use crate::route_details::{push_hops, push_offer, push_round};
use crate::text_details::push_mistake;
use crate::value_words::{Details, crowd_word, holder_word, needed_word, table_word, unit_words};
use gq_caps::Kind;
use gq_model::limits::GREATEST_STEPS;
use gq_model::program::{Name, OperandSlot};
use gq_model::section::Section;
use gq_reader::rules::ValueRule;
use gq_scenario::component_tree::GREATEST_COUNT;
use gq_scenario::key::Key;
use std::alloc::AllocError;
use toml::{Table, Value};

/// Puts the details of a fault at the end of a text.
pub fn push_detail(reported: &mut Details, detail: &Detail<'_>) -> Result<(), AllocError> {
    match detail {
        Detail::Nothing => Ok(()),
        Detail::Unknown(kind, key) => unknown(reported, *kind, key),
        Detail::Missing(kind, key) => missing(reported, *kind, *key),
        Detail::Bad(value, rule) => bad(reported, value, *rule),
        Detail::BadEntry(name, is_name) => bad_entry(reported, name, *is_name),
        Detail::Beside(key, other) => beside(reported, *key, *other),
        Detail::TooMany(crowd, count) => too_many(reported, *crowd, *count),
        Detail::TooDeep(depth) => too_deep(reported, *depth),
        Detail::Rule(compared) => push_compared(reported, compared),
        Detail::Handed { key, handed, has } => handed_out(reported, key, *handed, *has),
        Detail::After(cause) => after(reported, cause),
        Detail::Offer(service, cause) => push_offer(reported, service, cause),
        // On which line that is, is known to `report` alone.
        Detail::NamedFirst(_) => Ok(()),
        Detail::RootName => reported.line("init is the name of the root"),
        Detail::Text(mistake) => push_mistake(reported, mistake),
        Detail::Routed(hops) => push_hops(reported, hops.as_slice()),
        Detail::Round(way) => push_round(reported, way.as_slice()),
        Detail::Own { own, quantum } => uses(reported, *own, "quantum", *quantum),
        Detail::OwnCaps { own, caps } => uses(reported, *own, "caps", *caps),
        Detail::Steps(steps) => too_many_steps(reported, *steps),
        Detail::SignalSteps(leaf, signal, steps) => {
            too_many_for_signal(reported, leaf, *signal, *steps)
        }
    }
}

// How many of a kind there are.
fn too_many(reported: &mut Details, crowd: Crowd, count: usize) -> Result<(), AllocError> {
    reported.number(count as u64)?;
    reported.text(" ")?;
    reported.text(crowd_word(crowd))?;
    at_most(reported, GREATEST_COUNT as u64)
}

// How deep a node is.
fn too_deep(reported: &mut Details, depth: usize) -> Result<(), AllocError> {
    reported.text("depth ")?;
    reported.number(depth as u64)?;
    at_most(reported, depth.saturating_sub(1) as u64)
}

// What an init hands out, and what it has at this key.
fn handed_out(reported: &mut Details, key: &str, handed: u64, has: u64) -> Result<(), AllocError> {
    reported.text("hands out ")?;
    reported.number(handed)?;
    reported.text(" at the start, and has ")?;
    reported.text(key)?;
    reported.text(" ")?;
    reported.number(has)?;
    reported.end()
}

// The end of a detail that reports what there may be.
fn at_most(reported: &mut Details, most: u64) -> Result<(), AllocError> {
    reported.text(", and at most ")?;
    reported.number(most)?;
    reported.end()
}

// So many steps, of which the greatest number that is reported stands for itself and for more.
fn push_steps(reported: &mut Details, steps: u64) -> Result<(), AllocError> {
    if steps == u64::MAX {
        reported.text("2^64 - 1 steps or more")
    } else {
        reported.count(steps, "step", "steps")
    }
}

// How many steps there are.
fn too_many_steps(reported: &mut Details, steps: u64) -> Result<(), AllocError> {
    push_steps(reported, steps)?;
    at_most(reported, GREATEST_STEPS)
}

// How many steps there are for a signal of a leaf.
fn too_many_for_signal(
    reported: &mut Details,
    leaf: &Name,
    signal: u8,
    steps: u64,
) -> Result<(), AllocError> {
    push_steps(reported, steps)?;
    reported.text(" for signal ")?;
    reported.number(u64::from(signal))?;
    reported.text(" of ")?;
    reported.name(leaf)?;
    at_most(reported, GREATEST_STEPS)
}

// What a leaf uses, and the key that says what it has.
fn uses(reported: &mut Details, own: u64, key: &str, has: u64) -> Result<(), AllocError> {
    reported.text("uses ")?;
    reported.number(own)?;
    reported.text(" at most, and has ")?;
    reported.text(key)?;
    reported.text(" ")?;
    reported.number(has)?;
    reported.end()
}

// A key that is not known, and the one that was meant.
fn unknown(reported: &mut Details, kind: TableKind, key: &str) -> Result<(), AllocError> {
    reported.quoted(key)?;
    reported.text(" is no key of ")?;
    reported.text(table_word(kind))?;
    if keys_of(kind).iter().any(|known| known.is(key)) {
        in_version(reported, kind)?;
    } else {
        let near = near_keys(reported.alloc(), kind, key)?;
        reported.meant(near.as_slice())?;
    }
    reported.end()
}

// The version of such a table, where its keys depend on that.
fn in_version(reported: &mut Details, kind: TableKind) -> Result<(), AllocError> {
    match kind {
        TableKind::Top(version)
        | TableKind::Interface(version)
        | TableKind::Init(version)
        | TableKind::Leaf(version) => {
            reported.text(" in version ")?;
            reported.number(u64::from(version.number()))
        }
        TableKind::Route => Ok(()),
    }
}

// A key that is missing, and those that can stand in its place.
fn missing(reported: &mut Details, kind: TableKind, key: Key) -> Result<(), AllocError> {
    reported.text(table_word(kind))?;
    reported.text(" needs ")?;
    reported.text(match key {
        Key::Program => "program or code",
        Key::Service => "service or any-service",
        Key::Child => "child, any-child or parent",
        _ => key.word(),
    })?;
    reported.end()
}

// A value that does not fit, and what does.
fn bad(reported: &mut Details, value: &Value, rule: ValueRule<'_>) -> Result<(), AllocError> {
    reported.value(value)?;
    reported.text(": wanted is ")?;
    reported.rule(rule)?;
    reported.end()?;
    match (rule, value) {
        (ValueRule::Declared(Some(interfaces)), Value::String(text)) => {
            declared(reported, interfaces, text.as_str())
        }
        _ => Ok(()),
    }
}

// An entry among the interfaces or the offers whose key is no name, or among the interfaces whose value is no table.
fn bad_entry(reported: &mut Details, name: &str, is_name: bool) -> Result<(), AllocError> {
    reported.quoted(name)?;
    reported.text(": wanted is ")?;
    if is_name {
        reported.text("a table")?;
    } else {
        reported.rule(ValueRule::NameText)?;
    }
    reported.end()
}

// The interfaces whose names are near to a text; among too many it is not looked for them.
fn declared(reported: &mut Details, interfaces: &Table, text: &str) -> Result<(), AllocError> {
    if interfaces.len() > GREATEST_COUNT {
        return Ok(());
    }
    let mut nearest = Nearest::new(reported.alloc());
    for (name, _) in interfaces.iter() {
        nearest.compare(text.as_bytes(), name.as_str().as_bytes())?;
    }
    let near = nearest.names();
    if near.is_empty() {
        return Ok(());
    }
    reported.names(near.as_slice())?;
    reported.line("?")
}

// Two keys of which only one can be there.
fn beside(reported: &mut Details, key: Key, other: Key) -> Result<(), AllocError> {
    reported.text(key.word())?;
    reported.text(" can not stand beside ")?;
    reported.text(other.word())?;
    reported.end()
}

// What a rule for programs compared.
fn push_compared(reported: &mut Details, compared: &Compared) -> Result<(), AllocError> {
    match compared {
        Compared::Nothing => Ok(()),
        Compared::Operands => reported.line("17 operands, and at most 16"),
        // Where the statements stand is known to `report` alone.
        Compared::Left(_) => Ok(()),
        Compared::Buffer(size, kind) => buffer(reported, *size, kind.as_ref()),
        Compared::Unknown(service, near) => unknown_service(reported, service, near.as_slice()),
        Compared::Slot(place, kind, needed) => slot(reported, *place, kind.as_ref(), *needed),
        Compared::Index(place, index, count, unit) => indexed(
            reported, *place, *index, *count, *unit,
        ),
        Compared::Level(service, level, count) => upgrades(reported, service, *level, *count),
        Compared::Value(value, most, holder) => valued(reported, *value, *most, *holder),
        Compared::Kinds(place, first, second) => differ(reported, *place, first, second),
        Compared::Donation(service, level, given, needed) => {
            given_for(reported, service, *level, *given, *needed)
        }
        Compared::Session(cost) => session(reported, cost),
        Compared::Section(section, is_missing, signals) => {
            sections(reported, *section, *is_missing, *signals)
        }
        Compared::Cost(cost) => too_many_steps(reported, *cost),
        Compared::Input(input, inputs) => other_input(reported, *input, inputs.as_slice()),
    }
}

// An input that a leaf has not, and those that it has.
fn other_input(reported: &mut Details, input: u32, inputs: &[u32]) -> Result<(), AllocError> {
    reported.text("input ")?;
    reported.number(u64::from(input))?;
    reported.text(", and ")?;
    push_inputs(reported, inputs)?;
    reported.end()
}

/// The inputs that a leaf has, each with its greatest value.
pub(crate) fn push_inputs(reported: &mut Details, inputs: &[u32]) -> Result<(), AllocError> {
    if inputs.is_empty() {
        return reported.text("the leaf has no inputs");
    }
    reported.text("the leaf has")?;
    for (number, greatest) in inputs.iter().enumerate() {
        reported.text(if number == 0 { " input " } else { ", input " })?;
        reported.number(number as u64)?;
        reported.text(" up to ")?;
        reported.number(u64::from(*greatest))?;
    }
    Ok(())
}

// The buffer that an interface asks for, and what stands in its place where that is another kind.
fn buffer(reported: &mut Details, size: u32, kind: Option<&Kind>) -> Result<(), AllocError> {
    reported.text("the interface asks for a buffer of ")?;
    reported.count(u64::from(size), "byte", "bytes")?;
    let Some(kind) = kind else {
        return reported.line(": the session keeps it in s0 until it is closed");
    };
    reported.text(": open has to end with space ")?;
    reported.number(u64::from(size))?;
    reported.text(" in s0, which holds ")?;
    reported.kind(kind)?;
    reported.end()
}

// A service without an interface, and the interfaces with names like it.
fn unknown_service(
    reported: &mut Details,
    service: &Name,
    near: &[Name],
) -> Result<(), AllocError> {
    reported.name(service)?;
    reported.text(" is no interface")?;
    reported.meant(near)?;
    reported.end()
}

// What a slot holds, and what is needed there.
fn slot(
    reported: &mut Details,
    place: OperandSlot,
    kind: Option<&Kind>,
    needed: Needed,
) -> Result<(), AllocError> {
    held(reported, place, kind)?;
    reported.text(", and needed is ")?;
    reported.text(needed_word(needed))?;
    if let Needed::There(section) = needed {
        reported.text(": ")?;
        push_section(reported, section)?;
        reported.text(" has no session")?;
    }
    reported.end()
}

// A level, and how many a service has.
fn upgrades(
    reported: &mut Details,
    service: &Name,
    level: u8,
    count: usize,
) -> Result<(), AllocError> {
    reported.text("to level ")?;
    reported.number(u64::from(level))?;
    reported.text(", and ")?;
    reported.name(service)?;
    reported.text(" has ")?;
    reported.count(count as u64, "upgrade", "upgrades")?;
    reported.end()
}

// What a slot holds; where it is not there that it is not.
fn held(reported: &mut Details, place: OperandSlot, kind: Option<&Kind>) -> Result<(), AllocError> {
    reported.place(place)?;
    match kind {
        Some(kind) => {
            reported.text(" holds ")?;
            reported.kind(kind)
        }
        None => reported.text(" is not there"),
    }
}

// An index, and what it counts.
fn indexed(
    reported: &mut Details,
    place: OperandSlot,
    index: u64,
    count: u64,
    unit: Unit,
) -> Result<(), AllocError> {
    let (one, more) = unit_words(unit);
    reported.text("an index up to ")?;
    reported.number(index)?;
    if let Unit::Words = unit {
        reported.text(", for 4 bytes")?;
    }
    reported.text(", and ")?;
    reported.place(place)?;
    reported.text(" has ")?;
    reported.count(count, one, more)?;
    reported.end()
}

// A value, and the greatest that may stand there.
fn valued(reported: &mut Details, value: u32, most: u32, holder: Holder) -> Result<(), AllocError> {
    reported.text("a value up to ")?;
    reported.number(u64::from(value))?;
    reported.text(", and ")?;
    reported.text(holder_word(holder))?;
    if let Holder::Local(local) = holder {
        reported.text(" ")?;
        reported.number(u64::from(local))?;
    }
    reported.text(" is at most ")?;
    reported.number(u64::from(most))?;
    reported.end()
}

// What a slot holds on two ways.
fn differ(
    reported: &mut Details,
    place: OperandSlot,
    first: &Kind,
    second: &Kind,
) -> Result<(), AllocError> {
    reported.place(place)?;
    reported.text(" holds ")?;
    reported.whole_kind(first)?;
    reported.text(" on one way, and ")?;
    reported.whole_kind(second)?;
    reported.text(" on the other")?;
    reported.end()
}

// What is given, and what is needed.
fn given_for(
    reported: &mut Details,
    service: &Name,
    level: u8,
    given: u32,
    needed: u32,
) -> Result<(), AllocError> {
    reported.text("gives ")?;
    reported.number(u64::from(given))?;
    if level == 0 {
        reported.text(", and a session of ")?;
        reported.name(service)?;
    } else {
        reported.text(", and the upgrade of ")?;
        reported.name(service)?;
        reported.text(" to level ")?;
        reported.number(u64::from(level))?;
    }
    reported.text(" needs ")?;
    reported.number(u64::from(needed))?;
    reported.end()
}

// What a session costs, with its parts.
fn session(reported: &mut Details, cost: &SessionCost) -> Result<(), AllocError> {
    whole_session(reported, cost)?;
    let (object, price) = cost.object;
    if price > 0 {
        object_item(reported, object, price)?;
    }
    for (slot, kind, price) in &cost.slots {
        item(reported, *slot, kind, *price)?;
    }
    Ok(())
}

// What a session costs.
fn whole_session(reported: &mut Details, cost: &SessionCost) -> Result<(), AllocError> {
    reported.text("a session at level ")?;
    reported.number(u64::from(cost.level))?;
    reported.text(" costs ")?;
    reported.number(cost.sum)?;
    reported.text(if cost.caps { " caps" } else { "" })?;
    reported.text(", and is given ")?;
    reported.number(cost.given)?;
    reported.end()
}

// An object of so many bytes, with what it costs.
fn object_item(reported: &mut Details, bytes: u32, price: u64) -> Result<(), AllocError> {
    reported.text("  obj slice ")?;
    reported.number(u64::from(bytes))?;
    reported.text(": ")?;
    reported.number(price)?;
    reported.end()
}

// A slot with what it costs, where it costs something.
fn item(reported: &mut Details, slot: u8, kind: &Kind, price: u64) -> Result<(), AllocError> {
    if price == 0 {
        return Ok(());
    }
    reported.text("  ")?;
    reported.place(OperandSlot::Shared(slot))?;
    reported.text(" ")?;
    reported.kind(kind)?;
    reported.text(": ")?;
    reported.number(price)?;
    reported.end()
}

// A section by its heading.
fn push_section(reported: &mut Details, section: Section) -> Result<(), AllocError> {
    let section = format!(in reported.alloc(); "{section}")?;
    reported.text(section.as_str())
}

/// How many signals a leaf has.
pub(crate) fn push_signals(reported: &mut Details, signals: u8) -> Result<(), AllocError> {
    if signals == 0 {
        return reported.text("the leaf has no signals");
    }
    reported.text("the leaf has ")?;
    reported.count(u64::from(signals), "signal", "signals")
}

// A section that is missing, or one too many. Those for signals depend on how many signals the leaf has, and those of sessions on what it provides.
fn sections(
    reported: &mut Details,
    section: Section,
    is_missing: bool,
    signals: u8,
) -> Result<(), AllocError> {
    push_section(reported, section)?;
    reported.text(if is_missing {
        " is missing"
    } else {
        " is one too many"
    })?;
    match (section, is_missing) {
        (Section::Reacting(_), _) => {
            reported.text(": ")?;
            push_signals(reported, signals)?;
        }
        (_, false) => reported.text(": what the leaf provides has no such section")?,
        _ => (),
    }
    reported.end()
}

// Why a leaf may not start after the one that it names.
fn after(reported: &mut Details, cause: &BadAfter) -> Result<(), AllocError> {
    match cause {
        BadAfter::NoLeaf(name, near) => no_leaf(reported, name, near.as_slice()),
        BadAfter::Provides(name) => provides(reported, name),
        BadAfter::Signals(name, signals) => never_ends(reported, name, *signals),
        BadAfter::Taken { earlier, named } => taken(reported, earlier, named),
        BadAfter::Quantum { own, named } => exceeds(reported, "quantum", *own, *named),
        BadAfter::Caps { own, named } => exceeds(
            reported,
            "caps",
            u64::from(*own),
            u64::from(*named),
        ),
        BadAfter::Round(names) => in_a_row(reported, names.as_slice()),
    }
}

// No leaf beside it has this name.
fn no_leaf(reported: &mut Details, name: &Name, near: &[Name]) -> Result<(), AllocError> {
    reported.text("no leaf beside it is named ")?;
    reported.name(name)?;
    reported.meant(near)?;
    reported.end()
}

// A leaf that provides a service.
fn provides(reported: &mut Details, name: &Name) -> Result<(), AllocError> {
    reported.name(name)?;
    reported.text(" provides a service")?;
    reported.end()
}

// A leaf that handles signals, and so never ends.
fn never_ends(reported: &mut Details, name: &Name, signals: u8) -> Result<(), AllocError> {
    reported.name(name)?;
    reported.text(" has ")?;
    reported.count(u64::from(signals), "signal", "signals")?;
    reported.line(", so it never ends")
}

// A leaf that starts after the same one.
fn taken(reported: &mut Details, earlier: &Name, named: &Name) -> Result<(), AllocError> {
    reported.name(earlier)?;
    reported.text(" starts after ")?;
    reported.name(named)?;
    reported.text(", too")?;
    reported.end()
}

// Leaves, each of which starts after the next.
fn in_a_row(reported: &mut Details, names: &[Name]) -> Result<(), AllocError> {
    for (place, name) in names.iter().enumerate() {
        reported.text(if place == 0 { "" } else { " after " })?;
        reported.name(name)?;
    }
    reported.end()
}

// A quantum that is greater than that of the leaf before.
fn exceeds(reported: &mut Details, key: &str, own: u64, named: u64) -> Result<(), AllocError> {
    reported.text(key)?;
    reported.text(" ")?;
    reported.number(own)?;
    reported.text(", and the leaf before has ")?;
    reported.number(named)?;
    reported.end()
}

// Sessions between two leaves, beside others that are open, and marks in a slot.
ghost use Rattle.std.specs.Prelude.{◌≡◌, ◌<◌, ◌≤◌, IfOk, IfSome, IsTrue, length};
ghost use Rattle.gq_trade.specs.Numbers.{free_number};
ghost use Rattle.gq_trade.specs.declared.session.SlotId.TheVariants.{InLeaf};
ghost use Rattle.gq_slots.specs.Slots.{IsMark, IsSlotId};
ghost use Rattle.benchmark.specs.Session_rounds.{Calls, CanClose, Closes, HasRoom, IsCalm, Opens, Passes, live_node, sessions_of};

use crate::measure_fault::MeasureFault;
use crate::timing::report;
use gq_contents::Content;
use gq_slots::{Slots, sessions};
use gq_tariff::Amount;
use gq_trade::{NodeState, Plan, SlotId, Stage};
use std::alloc::{AllocError, Global};
use std::time::Instant;

// What is given for a session, whose object takes a page.
const DONATION: Amount = Amount { ram: 4096, caps: 0 };

/// Measures sessions from the ask to the close, so many one after the other, while `open` others are open: at most 10,000. Then as many replies to an
/// open and to a close, of which each sets the client's slot. Gives how many sessions there were.
pub fn measured(rt: &HostRuntime, times: u32, open: u32) -> Result<usize, MeasureFault> {
    if open > 10000 {
        return Err(MeasureFault::Usage);
    }
    let mut slots = market(rt.alloc())?;
    let given = in_slots(rt, &mut slots, times, open);
    drop(slots);
    given
}

// The same in slots in which no session is open, while so many others are.
fn in_slots(
    rt: &HostRuntime,
    slots: &mut Slots,
    times: u32,
    others: u32,
) -> Result<usize, MeasureFault>
    requires room { HasRoom 0 slots.old }
    requires others { others ≤ 10000 }
{
    if !open_all(slots, others) {
        return Err(MeasureFault::Account);
    }
    let start = Instant::now(rt)?;
    if !rounds(slots, times) {
        return Err(MeasureFault::Account);
    }
    report(rt, "session", u64::from(times), Ok(start))?;
    let start = Instant::now(rt)?;
    if !replies(slots, times) {
        return Err(MeasureFault::Account);
    }
    report(rt, "two replies", u64::from(times), Ok(start))?;
    Ok(times as usize)
}

// Two leaves, of which the first serves the second. A session's object has 100 bytes.
pub fn market(alloc: Global) -> Result<Slots, AllocError>
    ensures { IfOk result (λ s. HasRoom 0 s) }
{
    let plan = Plan {
        parents: vec![in alloc; 0, 0, 0]?,
        nodes: vec![in alloc; live(67108864), live(4096), live(62914560)]?,
        leaves: vec![in alloc; 1, 2]?,
        objects: vec![in alloc; 100]?,
    };
    Slots::new(alloc, 67108864, None, plan, 16384)
}

fn live(ram: u64) -> NodeState
    ensures { result ≡ live_node ram }
{
    NodeState {
        quantum: Amount { ram, caps: 0 },
        after: None,
        stage: Stage::Live,
    }
}

// Opens so many sessions, and says whether it did.
fn open_all(slots: &mut Slots, count: u32) -> bool
    requires calm { HasRoom 0 slots.old }
    requires count { count ≤ 10000 }
    ensures { IsTrue result → HasRoom count slots.new }
{
    for _ in 0..count {
        if open(slots).is_none() {
            return false;
        }
    }
    true
}

// So many sessions, one after the other. Says whether all of them were there.
fn rounds(slots: &mut Slots, times: u32) -> bool
    requires calm { IsCalm slots.old }
    requires room { free_number (sessions_of slots.old) < 16384 }
    ensures { IsTrue result → IsCalm slots.new }
{
    for _ in 0..times {
        if !round(slots) {
            return false;
        }
    }
    true
}

// A session from the ask to the close.
fn round(slots: &mut Slots) -> bool
    requires calm { IsCalm slots.old }
    requires room { free_number (sessions_of slots.old) < 16384 }
    ensures { IsTrue result → Passes slots.old slots.new }
{
    let Some(number) = open(slots) else {
        return false;
    };
    if !call(slots, number) {
        return false;
    }
    close(slots, number)
}

// Opens a session, and returns its number.
fn open(slots: &mut Slots) -> Option<usize>
    requires calm { IsCalm slots.old }
    requires room { free_number (sessions_of slots.old) < 16384 }
    ensures { IfSome result (λ k. Opens slots.old slots.new k) }
{
    let Ok(number) = sessions::ask(slots, 1, SlotId::InLeaf(1, 0), 0, 0, DONATION) else {
        return None;
    };
    match sessions::accept(slots, 0) {
        Ok(Some(_)) => Some(number),
        Ok(None) | Err(_) => None,
    }
}

// Calls a session, whose server takes the call.
fn call(slots: &mut Slots, number: usize) -> bool
    requires calm { IsCalm slots.old }
    requires session { CanClose (sessions_of slots.old) number }
    ensures { IsTrue result → Calls slots.old slots.new }
{
    sessions::ask_call(slots, number, 42);
    match sessions::accept(slots, 0) {
        Ok(Some(_)) => true,
        Ok(None) | Err(_) => false,
    }
}

// Closes a session.
fn close(slots: &mut Slots, number: usize) -> bool
    requires calm { IsCalm slots.old }
    requires session { CanClose (sessions_of slots.old) number }
    ensures { IsTrue result → Closes slots.old slots.new number }
{
    sessions::ask_close(slots, number);
    match sessions::accept(slots, 0) {
        Ok(Some(_)) => sessions::closed(slots, number).is_ok(),
        Ok(None) | Err(_) => false,
    }
}

// So many times a link in the client's slot, and the slot empty again. Says whether it was so each time.
fn replies(slots: &mut Slots, times: u32) -> bool
    requires { IsCalm slots.old }
{
    slots.laws();
    for _ in 0..times {
        if !(reply(slots, Content::Link(0)) && reply(slots, Content::Empty)) {
            return false;
        }
    }
    true
}

// Sets the client's slot, unless it holds memory, and says whether it did.
fn reply(slots: &mut Slots, contents: Content) -> bool
    requires there { IsSlotId slots.old (InLeaf 1 0) }
    requires mark { IsMark contents }
    ensures { IsSlotId slots.new (InLeaf 1 0) }
{
    let slot_id = SlotId::InLeaf(1, 0);
    match slots.content(slot_id) {
        Content::Empty | Content::Link(_) | Content::Waiting(_) => {
            slots.mark(slot_id, contents);
            true
        }
        _ => false,
    }
}

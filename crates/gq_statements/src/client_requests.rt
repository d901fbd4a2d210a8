// Requests of a leaf: its slot waits, and the request is behind all others.
ghost use Rattle.std.specs.Prelude.{◌≡◌, ℕ, List, [], ◌∷◌, get_or, IfSome, IsTrue};
ghost use Rattle.gq_model.specs.machine.Amounts.{amount};
ghost use Rattle.gq_model.specs.machine.Doing.{Doing, with_operands};
ghost use Rattle.gq_model.specs.machine.Requests as requests;
ghost use Rattle.gq_model.specs.machine.Routes.{server_of};
ghost use Rattle.gq_model.specs.machine.Scenario.{interface_in, open_caps};
ghost use Rattle.gq_model.specs.texts.Operands.{is_slot};
ghost use Rattle.gq_trade.specs.Numbers.{IsTaken};
ghost use Rattle.gq_trade.specs.Trading.{client_of};
ghost use Rattle.gq_slots.specs.Slots.{Frame, world_seen};
ghost use Rattle.gq_statements.specs.Slot_statements.{IsActor, IsBy, done};
ghost use Rattle.gq_statements.specs.Systems.{IsOf};
ghost use Rattle.gq_statements.specs.Client_requests.{Blocks, CanAsk, CanOpen, IsNextLevel, LeavesNodes, OwnsLinks, session_named};
ghost use Rattle.gq_statements.specs.internal.Named_slots.{IsLink, IsLinkedAt, IsRoomAt, IsVacant, link_of};

use crate::actor::Actor;
use crate::paid_laws::lawful;
use gq_contents::Content;
use gq_model::fault::Wrong;
use gq_model::program::OperandSlot;
use gq_slots::{Slots, sessions};
use gq_tariff::Amount;
use gq_trade::SlotId;

// The session to which a content leads, if it is a link.
fn link_of(content: Content) -> Option<u32>
    ensures { result ≡ link_of content }
{
    match content {
        Content::Link(session) => Some(session),
        Content::Empty
        | Content::Block(_, _)
        | Content::Slice(_, _)
        | Content::Space(_, _)
        | Content::Pool(_)
        | Content::Waiting(_) => None,
    }
}

// Where the link stands that a statement names, and the session to which it leads. `None` where it names no link.
fn linked(actor: Actor, slots: &Slots, place: OperandSlot) -> Option<(SlotId, u32)>
    requires place { IsTrue (is_slot place) }
    requires actor { IsActor slots.now actor }
    requires linked { OwnsLinks slots.now actor.leaf }
    ensures is { IfSome result (λ f. IsLink slots.now actor.leaf f.0 f.1) }
    ensures found { (f : Frame) (d : Doing) → IsBy d actor → d.world ≡ world_seen f slots.now → IsLinkedAt d place result }
{
    slots.laws();
    let slot_id = actor.slot_id(place)?;
    let session = link_of(slots.content(slot_id))?;
    Some((slot_id, session))
}

/// The session to which the slot leads that a statement names. `None` where the slot is not there or is no link.
pub fn link(actor: Actor, slots: &Slots, place: OperandSlot) -> Option<usize>
    requires place { IsTrue (is_slot place) }
    requires actor { IsActor slots.now actor }
    requires linked { OwnsLinks slots.now actor.leaf }
    ensures is { (f : Frame) (d : Doing) → IsBy d actor → d.world ≡ world_seen f slots.now → result ≡ session_named d place }
    ensures taken { IfSome result (λ k. IsTaken slots.now.trades.trading.sessions k) }
    ensures client { IfSome result (λ k. client_of slots.now.trades.trading k ≡ actor.leaf) }
{
    let (_slot_id, session) = linked(actor, slots, place)?;
    Some(session as usize)
}

/// Asks for the end of the session to which a link leads: the client's slot waits, and the request is behind all others.
///
/// `WrongKind` where the slot is not there or is no link; then nothing changes. It costs nothing.
pub fn close(actor: Actor, slots: &mut Slots, place: OperandSlot) -> Result<(), Wrong>
    requires place { IsTrue (is_slot place) }
    requires asks { CanAsk slots.old actor }
    requires linked { OwnsLinks slots.old actor.leaf }
    ensures step { (before after : Frame) (d : Doing) → IsBy d actor → IsOf d.system after slots.old → Blocks d d.leaf before after slots.old
        → requests.close d place ≡ done result (world_seen after slots.new) }
    ensures leaves { LeavesNodes result slots.old slots.new }
{
    let Some((slot_id, session)) = linked(actor, slots, place) else {
        return Err(Wrong::WrongKind);
    };
    lawful(slots);
    sessions::ask_close(slots, session as usize);
    slots.mark(slot_id, Content::Waiting(session));
    lawful(slots);
    Ok(())
}

/// Asks the server of the session to which a link leads for its reply to a number: the client's slot waits, and the request is behind all others. Wrong
/// as in `close`; then nothing changes.
pub fn call(actor: Actor, slots: &mut Slots, place: OperandSlot, value: u32) -> Result<(), Wrong>
    requires place { IsTrue (is_slot place) }
    requires asks { CanAsk slots.old actor }
    requires linked { OwnsLinks slots.old actor.leaf }
    ensures step { (before after : Frame) (d : Doing) (rest : List ℕ) → IsBy d actor → IsOf d.system after slots.old
        → Blocks d (with_operands d rest) before after slots.old → d.leaf.operands ≡ value ∷ rest
        → requests.call d place ≡ done result (world_seen after slots.new) }
    ensures leaves { LeavesNodes result slots.old slots.new }
{
    let Some((slot_id, session)) = linked(actor, slots, place) else {
        return Err(Wrong::WrongKind);
    };
    lawful(slots);
    sessions::ask_call(slots, session as usize, value);
    slots.mark(slot_id, Content::Waiting(session));
    lawful(slots);
    Ok(())
}

/// Asks for the next level of the session to which a link leads, and gives its server what that needs: the client's slot waits, and the request is behind
/// all others.
///
/// `WrongKind` as in `close`, else `ExceededQuota` where the leaf has too little that is not used; then nothing changes.
pub fn upgrade(
    actor: Actor,
    slots: &mut Slots,
    place: OperandSlot,
    donation: Amount,
) -> Result<(), Wrong>
    requires place { IsTrue (is_slot place) }
    requires asks { CanAsk slots.old actor }
    requires linked { OwnsLinks slots.old actor.leaf }
    requires counted { slots.old.trades.trading.ledger.price ≡ 0 → donation.caps ≡ 0 }
    ensures step { (before after : Frame) (d : Doing) (n : ℕ) → IsBy d actor → IsOf d.system after slots.old → Blocks d d.leaf before after slots.old
        → IsNextLevel d place n donation → requests.upgrade d place n ≡ done result (world_seen after slots.new) }
    ensures leaves { LeavesNodes result slots.old slots.new }
{
    let Some((slot_id, session)) = linked(actor, slots, place) else {
        return Err(Wrong::WrongKind);
    };
    lawful(slots);
    match sessions::upgrade(slots, session as usize, donation) {
        Err(_) => Err(Wrong::ExceededQuota),
        Ok(()) => {
            slots.mark(slot_id, Content::Waiting(session));
            lawful(slots);
            Ok(())
        }
    }
}

// The slot that a statement names, if it is there and empty.
fn vacant(actor: Actor, slots: &Slots, place: OperandSlot) -> Option<SlotId>
    requires place { IsTrue (is_slot place) }
    requires actor { IsActor slots.now actor }
    ensures is { IfSome result (λ p. IsVacant slots.now p) }
    ensures found { (f : Frame) (d : Doing) → IsBy d actor → d.world ≡ world_seen f slots.now → IsRoomAt d place result }
{
    slots.laws();
    let slot_id = actor.slot_id(place)?;
    if slots.content(slot_id).is_empty() {
        Some(slot_id)
    } else {
        None
    }
}

/// Asks a server for a session of a service, and gives it what the service needs. The client's slot, which is empty, waits. The session takes the lowest free
/// number, and its request to open is behind all others. There is no server where the client's routes lead to none.
///
/// `WrongKind` where the slot is not there or not empty, or there is no server; else `ExceededQuota` where the leaf has too little that is not used. Then
/// nothing changes.
pub fn open(
    actor: Actor,
    slots: &mut Slots,
    place: OperandSlot,
    server: Option<usize>,
    service: usize,
    donation: Amount,
) -> Result<(), Wrong>
    requires place { IsTrue (is_slot place) }
    requires asks { CanAsk slots.old actor }
    requires opens { CanOpen slots.old actor.leaf server service donation }
    ensures step { (before after : Frame) (d : Doing) (name : List ℕ) (n : ℕ) → IsBy d actor → IsOf d.system after slots.old
        → Blocks d d.leaf before after slots.old → name ≡ get_or after.names service [] → server_of d.system d.component name ≡ server
        → donation ≡ amount n (open_caps (interface_in name d.system.interfaces))
        → requests.open_session d place name n ≡ done result (world_seen after slots.new) }
    ensures leaves { LeavesNodes result slots.old slots.new }
{
    let Some(slot_id) = vacant(actor, slots, place) else {
        return Err(Wrong::WrongKind);
    };
    let Some(server) = server else {
        return Err(Wrong::WrongKind);
    };
    lawful(slots);
    match sessions::ask(slots, actor.leaf, slot_id, server, service, donation) {
        Err(_) => Err(Wrong::ExceededQuota),
        Ok(session) => {
            slots.mark(slot_id, Content::Waiting(session as u32));
            lawful(slots);
            Ok(())
        }
    }
}

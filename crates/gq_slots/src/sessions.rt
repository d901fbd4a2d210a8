// Sessions over all slots of a scenario: the requests of clients, what their servers take of them, and sessions that end.
ghost use Rattle.std.specs.Prelude.{◌≡◌, ℕ, ◌<◌, ◌↔◌, [], length, get_or, None};
ghost use Rattle.std.specs.Prelude.{IfOk, IfNone, IfSome, OnOk, OnErr, IsErrOf};
ghost use Rattle.gq_contents.specs.declared.content.Content.TheVariants as content;
ghost use Rattle.gq_model.specs.machine.World as world;
ghost use Rattle.gq_trade.specs.Seen_sessions.{slot_id_seen};
ghost use Rattle.gq_model.specs.machine.Requests.{new_session};
ghost use Rattle.gq_trade.specs.Numbers.{IsTaken, free_number};
ghost use Rattle.gq_ram.specs.Account_table.{available, available_caps};
ghost use Rattle.gq_trade.specs.declared.requests.Ask.TheVariants as ask;
ghost use Rattle.gq_trade.specs.Queues.{oldest_to};
ghost use Rattle.gq_trade.specs.Trading.{IsOfOldest, LacksBytes, LacksCaps, asked, client_of, fresh, its_account, session_at};
ghost use Rattle.gq_trade.specs.Trading.{AreOfOthers, bytes_then, caps_then, upgraded, with_ask};
ghost use Rattle.gq_trade.specs.declared.session.SlotId.TheVariants.{InObject, InSession};
ghost use Rattle.gq_trade.specs.Waiting.{IsIdle};
ghost use Rattle.gq_ram.specs.Giving.{IsAfforded};
ghost use Rattle.gq_trade.specs.Trades.{CanAskServer, IsLive};
ghost use Rattle.gq_slots.specs.Slots.{Frame, content_at, world_seen};
ghost use Rattle.gq_slots.specs.Session_calls.{EndsSession, TakesOldest, asking, opening, upgrading, with_trades};

use crate::slots::Slots;
use gq_ram::AccountFault;
use gq_store::GrowFault;
use gq_tariff::Amount;
use gq_trade::{Request, SlotId};

/// Asks for a session: it takes the lowest free number, the donation goes from its client to its server, through every init on the way, and its
/// request to open is the last. The client's slot is not touched.
///
/// Refused as `Exceeded` where the client has fewer bytes that are not used, else as `CapsExceeded` where it has fewer capabilities; then
/// nothing changes. Where capabilities are not counted, none can be given. Client and server are live, and no request of the client waits.
pub fn ask(
    slots: &mut Slots,
    client: usize,
    slot_id: SlotId,
    server: usize,
    service: usize,
    donation: Amount,
) -> Result<usize, AccountFault>
    requires can { CanAskServer slots.old.trades client server }
    requires service { service < length slots.old.trades.trading.objects }
    requires counted { slots.old.trades.trading.ledger.price ≡ 0 → donation.caps ≡ 0 }
    ensures number { IfOk result (λ k. k ≡ free_number slots.old.trades.trading.sessions) }
    ensures asked { OnOk result (slots.new ≡ with_trades slots.old (asked slots.old.trades.trading (fresh client slot_id server service donation))) }
    ensures world { OnOk result ((f : Frame) → world_seen f slots.new
        ≡ opening (world_seen f slots.old) (new_session client (slot_id_seen slot_id) server (get_or f.names service []) donation)) }
    ensures unchanged { OnErr result (slots.new ≡ slots.old) }
    ensures afforded { IsAfforded result (available (its_account slots.old.trades.trading client))
        (available_caps (its_account slots.old.trades.trading client)) donation }
{
    let _own = &slots.own;
    slots.trades.laws();
    slots.trades.accounts().laws();
    let asked = slots.trades.ask(client, slot_id, server, service, donation);
    slots.trades.accounts().laws();
    asked
}

/// Asks for the next level of a session: what is given for it goes from its client to its server, as in `ask`, and its request to upgrade is the
/// last. Refused as `ask` is.
pub fn upgrade(slots: &mut Slots, session: usize, donation: Amount) -> Result<(), AccountFault>
    requires there { IsTaken slots.old.trades.trading.sessions session }
    requires counted { slots.old.trades.trading.ledger.price ≡ 0 → donation.caps ≡ 0 }
    requires idle { IsIdle slots.old.trades.trading (client_of slots.old.trades.trading session) }
    ensures upgraded { OnOk result (slots.new ≡ with_trades slots.old (upgraded slots.old.trades.trading session donation)) }
    ensures world { OnOk result ((f : Frame) → world_seen f slots.new ≡ upgrading (world_seen f slots.old) session donation) }
    ensures unchanged { OnErr result (slots.new ≡ slots.old) }
    ensures afforded { IsAfforded result (available (its_account slots.old.trades.trading (client_of slots.old.trades.trading session)))
        (available_caps (its_account slots.old.trades.trading (client_of slots.old.trades.trading session))) donation }
{
    let _own = &slots.own;
    slots.trades.laws();
    slots.trades.accounts().laws();
    let upgraded = slots.trades.upgrade(session, donation);
    slots.trades.accounts().laws();
    upgraded
}

/// Asks for the reply of a session's server to a number: the request is the last.
pub fn ask_call(slots: &mut Slots, session: usize, value: u32)
    requires there { IsTaken slots.old.trades.trading.sessions session }
    requires idle { IsIdle slots.old.trades.trading (client_of slots.old.trades.trading session) }
    ensures asked { slots.new ≡ with_trades slots.old (with_ask slots.old.trades.trading session (ask.Call value)) }
    ensures world { (f : Frame) → world_seen f slots.new ≡ asking (world_seen f slots.old) session (world.Ask_call value) }
{
    let _own = &slots.own;
    slots.trades.ask_call(session, value);
}

/// Asks for the end of a session: the request is the last.
pub fn ask_close(slots: &mut Slots, session: usize)
    requires there { IsTaken slots.old.trades.trading.sessions session }
    requires idle { IsIdle slots.old.trades.trading (client_of slots.old.trades.trading session) }
    ensures asked { slots.new ≡ with_trades slots.old (with_ask slots.old.trades.trading session ask.Close) }
    ensures world { (f : Frame) → world_seen f slots.new ≡ asking (world_seen f slots.old) session world.Ask_close }
{
    let _own = &slots.own;
    slots.trades.ask_close(session);
}

/// Takes the oldest request to a server, if there is one. A request to open makes the session's object, a slice which its server pays for and which
/// reads 0; one to upgrade raises the level.
///
/// Refused as `Exceeded` where the object's bytes can't be paid, else as `CapsExceeded` where the server has no capability left; then nothing
/// changes.
pub fn accept(slots: &mut Slots, server: usize) -> Result<Option<Request>, GrowFault>
    requires server { IsLive slots.old.trades server }
    requires level { IfSome (oldest_to server slots.old.trades.trading.requests)
        (λ p. p.0.ask ≡ ask.Upgrade → (session_at slots.old.trades.trading p.0.session).level < 3) }
    ensures none { IfOk result (λ o. IfNone o ((oldest_to server slots.old.trades.trading.requests ≡ None) × (slots.new ≡ slots.old))) }
    ensures some { IfOk result (λ o. IfSome o (λ r. TakesOldest slots.old slots.new server r)) }
    ensures unchanged { OnErr result (slots.new ≡ slots.old) }
    ensures exceeded { IsErrOf result GrowFault.Exceeded
        ↔ IsOfOldest (oldest_to server slots.old.trades.trading.requests) (λ r. LacksBytes r.ask slots.old.trades.trading r.session) }
    ensures caps_exceeded { IsErrOf result GrowFault.CapsExceeded
        ↔ IsOfOldest (oldest_to server slots.old.trades.trading.requests) (λ r. LacksCaps r.ask slots.old.trades.trading r.session) }
{
    let _own = &slots.own;
    slots.trades.laws();
    slots.trades.accept(server)
}

/// Ends a session at the reply to its close: its object is free, what was given for it goes back to its client, through every init on the way, and
/// its number is free. Its slots are empty, and no request of it waits.
///
/// Refused as `Exceeded` where its server could not pay the bytes back even then, else as `CapsExceeded` where it could not pay the
/// capabilities back; then nothing changes.
pub fn closed(slots: &mut Slots, session: usize) -> Result<(), AccountFault>
    requires there { IsTaken slots.old.trades.trading.sessions session }
    requires object { content_at slots.old (InObject session) ≡ content.Empty → ⊥ }
    requires empty { (i : ℕ) → i < 8 → content_at slots.old (InSession session i) ≡ content.Empty }
    requires none_waits { AreOfOthers session slots.old.trades.trading.requests }
    ensures ends { OnOk result (EndsSession slots.old slots.new session) }
    ensures unchanged { OnErr result (slots.new ≡ slots.old) }
    ensures afforded { IsAfforded result (bytes_then slots.old.trades.trading session) (caps_then slots.old.trades.trading session)
        (session_at slots.old.trades.trading session).donation }
{
    let _own = &slots.own;
    slots.trades.laws();
    slots.trades.accounts().laws();
    let closed = slots.trades.closed(session);
    slots.trades.accounts().laws();
    closed
}

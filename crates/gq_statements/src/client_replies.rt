// Replies to requests: the client goes on.
ghost use Rattle.std.specs.Prelude.{◌≡◌, ℕ, ◌<◌, ◌∷◌, List, OnErr, OnOk, Ok, Some};
ghost use Rattle.gq_model.specs.machine.World as world;
ghost use Rattle.gq_model.specs.machine.Doing.{Doing, Quiet};
ghost use Rattle.gq_model.specs.machine.Step as step;
ghost use Rattle.gq_model.specs.declared.section.Section.TheVariants as section;
ghost use Rattle.gq_trade.specs.declared.session.SlotId.TheVariants.{InObject};
ghost use Rattle.gq_trade.specs.Trading.{AreOfOthers};
ghost use Rattle.gq_contents.specs.declared.content.Content.TheVariants as content;
ghost use Rattle.gq_slots.specs.Slots.{Frame, content_at, world_seen};
ghost use Rattle.gq_slots.specs.Calls.{SameBeside};
ghost use Rattle.gq_slots.specs.Slot_addresses.{AreBuffers};
ghost use Rattle.gq_statements.specs.Slot_statements.{LeavesRest, done};
ghost use Rattle.gq_statements.specs.Systems.{IsOf};
ghost use Rattle.gq_statements.specs.Serving.{Closes, GoesOn, IsAwaited};
ghost use Rattle.gq_statements.specs.internal.Content_tests.{are_empty, fits, is_empty, is_space_of};

use crate::paid_laws::lawful;
use gq_contents::Content;
use gq_model::fault::Wrong;
use gq_slots::{Addresses, Slots, sessions};
use gq_trade::{Session, SlotId};

/// The reply to a request to upgrade a session or to call at it: the client's slot, which waited, is the link to the session, and the client goes on. A
/// call's result is one operand more of the client's.
pub fn reply(slots: &mut Slots, session: usize)
    requires awaited { IsAwaited slots.old session }
    requires small { session < 4294967296 }
    ensures replied { (f : Frame) (d : Doing) (q : world.Session) (g : List ℕ → List ℕ) → world.session_at d.world session ≡ Some q → GoesOn d q g f slots.old
        → step.replied d session q g ≡ Ok (world_seen f slots.new, Quiet) }
    ensures upgraded { (f : Frame) (d : Doing) (q : world.Session) (level : ℕ) → world.session_at d.world session ≡ Some q
        → GoesOn d q (λ operands. operands) f slots.old
        → step.reply d session (section.Upgrading level) q ≡ Ok (world_seen f slots.new, Quiet) }
    ensures called { (f : Frame) (d : Doing) (q : world.Session) (level a : ℕ) (rest : List ℕ) → world.session_at d.world session ≡ Some q
        → d.leaf.operands ≡ a ∷ rest → GoesOn d q (λ operands. a ∷ operands) f slots.old
        → step.reply d session (section.Calling level) q ≡ Ok (world_seen f slots.new, Quiet) }
    ensures beside { SameBeside slots.old slots.new }
{
    let slot_id = slots.trades().session(session).slot_id;
    slots.mark(slot_id, Content::Link(session as u32));
}

/// The reply to a request to open a session: as `reply`, without an operand more.
///
/// `WrongKind` where the session's service shares a buffer and the session's first slot is no space of just so many bytes; then nothing changes.
pub fn reply_open(addresses: &Addresses, slots: &mut Slots, session: usize) -> Result<(), Wrong>
    requires awaited { IsAwaited slots.old session }
    requires small { session < 4294967296 }
    ensures opened { (f : Frame) (d : Doing) (q : world.Session) → world.session_at d.world session ≡ Some q → AreBuffers d.system f slots.old addresses.now
        → GoesOn d q (λ operands. operands) f slots.old → step.reply d session section.Opening q ≡ done result (world_seen f slots.new) }
    ensures leaves { LeavesRest result slots.old slots.new }
{
    slots.trades().laws();
    let service = slots.trades().session(session).service;
    let size = addresses.buffer(service);
    let first = slots.content(SlotId::InSession(session, 0));
    if !fits(size, first) {
        return Err(Wrong::WrongKind);
    }
    reply(slots, session);
    Ok(())
}

// Whether no buffer is shared, or this is a space of its size.
fn fits(size: u32, first: Content) -> bool
    ensures { result ≡ fits size first }
{
    size == 0 || is_space_of(first, size)
}

// Whether it is a space of that size.
fn is_space_of(content: Content, size: u32) -> bool
    ensures { result ≡ is_space_of size content }
{
    match content {
        Content::Space(_, bytes) => bytes == size,
        Content::Empty
        | Content::Block(_, _)
        | Content::Slice(_, _)
        | Content::Pool(_)
        | Content::Link(_)
        | Content::Waiting(_) => false,
    }
}

/// The reply to a request to close a session: the session ends, what was given for it is its client's again, the client's slot is empty and the client
/// goes on.
///
/// `WrongKind` where a slot of the session is not empty, else `ExceededQuota` where what was given can't be paid back; then nothing changes.
pub fn reply_close(slots: &mut Slots, session: usize) -> Result<(), Wrong>
    requires awaited { IsAwaited slots.old session }
    requires object { content_at slots.old (InObject session) ≡ content.Empty → ⊥ }
    requires none_waits { AreOfOthers session slots.old.trades.trading.requests }
    ensures closed { (f : Frame) (d : Doing) (q : world.Session) (level : ℕ) → world.session_at d.world session ≡ Some q → IsOf d.system f slots.old
        → GoesOn d q (λ operands. operands) f slots.old → step.reply d session (section.Closing level) q ≡ done result (world_seen f slots.new) }
    ensures ends { OnOk result (Closes slots.old slots.new session) }
    ensures unchanged { OnErr result (slots.new ≡ slots.old) }
{
    lawful(slots);
    slots.laws();
    let Session {
        slot_id,
        slots: bank,
        ..
    } = slots.trades().session(session);
    if !are_empty(&bank) {
        return Err(Wrong::WrongKind);
    }
    match sessions::closed(slots, session) {
        Err(_) => Err(Wrong::ExceededQuota),
        Ok(()) => {
            lawful(slots);
            slots.mark(slot_id, Content::Empty);
            Ok(())
        }
    }
}

// Whether all of these are empty.
fn are_empty(contents: &[Content]) -> bool
    ensures { result ≡ are_empty contents.now }
{
    for content in contents {
        if !is_empty(*content) {
            return false;
        }
    }
    true
}

// Whether it is empty.
fn is_empty(content: Content) -> bool
    ensures { result ≡ is_empty content }
{
    match content {
        Content::Empty => true,
        Content::Block(_, _)
        | Content::Slice(_, _)
        | Content::Space(_, _)
        | Content::Pool(_)
        | Content::Link(_)
        | Content::Waiting(_) => false,
    }
}

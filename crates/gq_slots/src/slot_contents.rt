// Contents that are put into slots.
ghost use Rattle.std.specs.Prelude.{◌≡◌, ◌<◌, []};
ghost use Rattle.gq_contents.specs.declared.content.Content.TheVariants as content;
ghost use Rattle.gq_trade.specs.Trades.{with_trading};
ghost use Rattle.gq_slots.specs.Slots.{IsSlot, IsSlotId, content_at};
ghost use Rattle.gq_slots.specs.internal.Put.{put_own, put_trading};

use gq_contents::Content;
use gq_trade::{SlotId, Trades};

// Puts something into an empty slot.
pub(crate) fn fill(
    trades: &mut Trades,
    own: &mut Vec<[Content; 64]>,
    slot_id: SlotId,
    contents: Content,
)
    requires slot { IsSlot slot_id }
    requires there { IsSlotId (record { trades = trades.old; own = own.old.items; heaps = [] }) slot_id }
    requires empty { content_at (record { trades = trades.old; own = own.old.items; heaps = [] }) slot_id ≡ content.Empty }
    ensures trades { trades.new ≡ with_trading trades.old (put_trading trades.old.trading slot_id contents) }
    ensures own { own.new.items ≡ put_own own.old.items slot_id contents }
{
    match slot_id {
        SlotId::InLeaf(leaf, slot) => own[leaf][usize::from(slot)] = contents,
        SlotId::InSession(session, slot) => trades.put(session, usize::from(slot), contents),
        SlotId::InObject(_) => unreachable!(),
    }
}

// Makes a slot empty.
pub(crate) fn clear(trades: &mut Trades, own: &mut Vec<[Content; 64]>, slot_id: SlotId)
    requires slot { IsSlot slot_id }
    requires there { IsSlotId (record { trades = trades.old; own = own.old.items; heaps = [] }) slot_id }
    ensures trades { trades.new ≡ with_trading trades.old (put_trading trades.old.trading slot_id content.Empty) }
    ensures own { own.new.items ≡ put_own own.old.items slot_id content.Empty }
{
    match slot_id {
        SlotId::InLeaf(leaf, slot) => own[leaf][usize::from(slot)] = Content::Empty,
        SlotId::InSession(session, slot) => trades.clear_slot(session, usize::from(slot)),
        SlotId::InObject(_) => unreachable!(),
    }
}

// Puts something in the place of what is in a slot.
pub(crate) fn replace(
    trades: &mut Trades,
    own: &mut Vec<[Content; 64]>,
    slot_id: SlotId,
    contents: Content,
)
    requires slot { IsSlot slot_id }
    requires there { IsSlotId (record { trades = trades.old; own = own.old.items; heaps = [] }) slot_id }
    ensures trades { trades.new ≡ with_trading trades.old (put_trading trades.old.trading slot_id contents) }
    ensures own { own.new.items ≡ put_own own.old.items slot_id contents }
{
    if let SlotId::InLeaf(leaf, slot) = slot_id {
        own[leaf][usize::from(slot)] = contents;
        return;
    }
    clear(trades, own, slot_id);
    fill(trades, own, slot_id, contents);
}

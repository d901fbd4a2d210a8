// Slots of leaves: what stands in one, and what it costs its leaf.
ghost use Rattle.std.specs.Prelude.{◌≡◌, ◌≤◌, length, IfOk};
ghost use Rattle.gq_trade.specs.declared.session.SlotId.TheVariants.{InLeaf};
ghost use Rattle.gq_trade.specs.Trades.{IsLive};
ghost use Rattle.gq_slots.specs.Slots.{IsSlot, IsSlotId};
ghost use Rattle.gq_memory_rows.specs.Stays.{Stays};

use crate::trade_rows::{live, plan};
use crate::used::used;
use gq_model::program::Width;
use gq_slots::Slots;
use gq_trade::SlotId;
use std::alloc::{AllocError, Global};

// Two leaves with four pages each.
fn two_leaves(alloc: Global) -> Result<Slots, AllocError>
    ensures leaves { IfOk result (λ s. length s.own ≡ 2) }
    ensures live { IfOk result (λ s. IsLive s.trades 0) }
{
    let nodes = [live(65536, 0), live(16384, 0), live(16384, 0)];
    let plan = plan(alloc, &[0, 0, 0], &nodes, &[1, 2], 100)?;
    Slots::new(alloc, 65536, None, plan, 24)
}

// Makes a slice in a slot, and says whether it did: not where the slot is not empty, or where the slice can't be paid.
fn make(slots: &mut Slots, slot_id: SlotId, size: u32) -> bool
    requires slot { IsSlot slot_id }
    requires there { IsSlotId slots.old slot_id }
    requires size { size ≤ 67108864 }
    ensures { Stays slots.old slots.new }
{
    if slots.content(slot_id).is_empty() {
        return slots.make_slice(slot_id, size).is_ok();
    }
    false
}

// What a byte reads once a value is stored there, or nothing where the slot is too short.
fn stored(slots: &mut Slots, slot_id: SlotId, index: u32, value: u8) -> Option<u32>
    requires there { IsSlotId slots.old slot_id }
    ensures { Stays slots.old slots.new }
{
    let bytes = slots.extent(slot_id)?;
    if bytes.length <= u64::from(index) {
        return None;
    }
    slots.write(bytes, Width::Byte, index, u32::from(value));
    let again = slots.extent(slot_id)?;
    if again.length <= u64::from(index) {
        return None;
    }
    Some(slots.read(again, Width::Byte, index))
}

// Whether a leaf with four pages can pay for five in a slot, then for three, then for two more in another slot, and for these once the first slot is free. What
// the last byte of the three reads once 42 is stored there.
fn use_leaf(slots: &mut Slots) -> ([bool; 4], Option<u32>)
    requires first { IsSlotId slots.old (InLeaf 0 3) }
    requires second { IsSlotId slots.old (InLeaf 0 4) }
{
    let first = SlotId::InLeaf(0, 3);
    let second = SlotId::InLeaf(0, 4);
    let five = make(slots, first, 16384);
    let three = make(slots, first, 12000);
    let read = stored(slots, first, 11999, 42);
    let two_more = make(slots, second, 4096);
    slots.free(first);
    let two = make(slots, second, 4096);
    ([five, three, two_more, two], read)
}

// The same of the first of two leaves.
fn use_first_leaf(slots: &mut Slots) -> ([bool; 4], Option<u32>)
    requires leaves { length slots.old.own ≡ 2 }
{
    use_leaf(slots)
}

#[test]
fn pays_for_slots_by_pages(rt: HostRuntime) {
    assert_eq!(rt;
        used(two_leaves(rt.alloc()), use_first_leaf),
        Ok(([false, true, false, true], Some(42)))
    );
}
